//! Candidates for a first placement: growings, recursive bisections, and perturbations of a partition.
//!
//! What is kept beside a candidate only leads the search, so nothing is said of it but the sizes of its
//! arrays: whoever takes a candidate tests it.
#![tactic(auto)]

mod agenda;
mod candidates;
mod cells;
mod division;
mod draws;
mod edges;
mod frame;
mod growing;
mod halving;
mod listed;
mod moves;
mod rest;
mod sides;
mod tables;
mod tally;

pub use candidates::Candidates;
pub use hg_base::NoMemory;
