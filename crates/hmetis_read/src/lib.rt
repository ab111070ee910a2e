//! Reads hypergraphs in the hMETIS format.
//!
//! The first kept line is the header: the number of nets, the number of vertices, and a format,
//! 0 where it is absent. A line for each net follows, with its weight first in formats 1 and 11,
//! and with its pins, of which the first is 1. In formats 10 and 11 a line for each vertex follows,
//! with its weight. Weights that aren't given are 1.
#![tactic(auto)]

mod fault;
mod flat;
mod header;
mod hypergraph;
mod laws;
mod net;
mod shares;
#[cfg(test)]
mod tests;
mod vertex;

pub use fault::{GraphFault, LineKind, What};
pub use hypergraph::{read_hypergraph, read_with};
pub use laws::text_laws;
