//! The hypergraph with an index from vertices to nets.
#![tactic(auto)]

mod hypergraph;
mod index;

pub use hg_base::{FREE, FlatHyper, NoMemory, Objective};
pub use hypergraph::Hypergraph;

#[cfg(test)]
mod tests;
