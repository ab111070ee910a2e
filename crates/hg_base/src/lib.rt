//! The hypergraph as flat arrays, list types, the cost of a partition, its limit, and greedy placement.
#![tactic(auto)]

mod block_set;
mod cost;
mod hyper;
mod limit;
mod list;
mod loads;
mod packed;
mod placement;
mod sets;
#[cfg(test)]
mod tests;

pub use block_set::BlockSet;
pub use cost::{cost_of, price};
pub use hg_defs::{FREE, Move, NoMemory, Objective};
pub use hyper::FlatHyper;
pub use limit::limit_of;
pub use list::{Blocks, Flags, Gains, Items, MapList, MapStack, TryClone, Verts};
pub use packed::{bits_of, field, lower_field, place_of, raise_field, unit, words_of};
pub use placement::{GreedyEnd, greedy, least_loaded};
