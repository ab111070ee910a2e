//! The plain mathematics of partitioning: hypergraphs, partitions, costs, moves, contraction.
//!
//! The definitions stand in `specs/`, one subject a file. The few types that they speak of are
//! declared here, and the laws over them are the contracts of functions with empty bodies.
#![tactic(auto)]

pub mod laws;
mod memory;
mod moves;
mod objective;

pub use memory::NoMemory;
pub use moves::Move;
pub use objective::{FREE, Objective};
