//! Cycles: a partition is coarsened inside its blocks, refined from the coarsest level down, and swept.
#![tactic(auto)]

mod cycling;
pub mod laws;

pub use cycling::{cycle, cycles};
