//! The levels of a coarsening, the finest first.
#![tactic(auto)]

mod down;
mod stack;

pub use contract_nets::{MergeLedger, Merged};
pub use down::{LevelsBelow, LevelsDown};
pub use hg_base::{MapList, NoMemory};
pub use incidence::Hypergraph;
pub use stack::LevelStack;
