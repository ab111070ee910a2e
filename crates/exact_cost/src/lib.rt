//! The exact cost of a partition, summed by threads, and of blocks that are carried down through clusterings.
#![tactic(auto)]

mod carrying;
mod costs;

pub use carrying::block_below;
pub use costs::{cost_below, cost_with};
