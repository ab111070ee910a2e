//! The workers of a round: which vertices each visits, how they are started, and the gate that each
//! passes.
#![tactic(auto)]

mod gate;
mod start;
#[cfg(test)]
mod tests;
mod work;

pub use gate::{Gate, OpenGate};
pub use start::{each, each_chunk};
pub use work::{Span, span_of};
