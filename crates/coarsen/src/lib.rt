//! Coarsening: clusterings, the pairing of single vertices, and the stack of contracted levels.
#![tactic(auto)]

mod clustering;
mod coarsening;
mod marks;
mod numbering;
mod pairing;

pub use clustering::{cluster_cap, is_twentieth_fewer};
pub use coarsening::{coarsen, coarsen_inside};
pub use crew::Gate;
pub use hg_base::{Blocks, MapList, NoMemory};
pub use incidence::Hypergraph;
pub use level_stack::LevelStack;
pub use pairing::pair_sweep;
pub use round_log::Stop;
