//! The deterministic mode: levels by pairing, the best named placement, and synchronous rounds.
#![tactic(auto)]

mod cut;
mod descent;
mod levels;
mod rounds;
mod wishes;

pub use descent::det_descend;
pub use hg_base::NoMemory;
pub use incidence::Hypergraph;
pub use initial_place::PlaceEnd;
pub use level_stack::LevelStack;
pub use levels::det_levels;
pub use pin_plain::Partition;
pub use round_log::{RoundList, Stop, Trace};
pub use rounds::sync_round;
