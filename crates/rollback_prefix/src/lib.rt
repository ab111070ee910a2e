//! Rollback of moves that were made at the same time: what each gains when they are replayed one
//! after the other, and the prefix of them that is worth keeping.
#![tactic(auto)]

mod gains;
mod nets;
mod pins;
mod prefix;

pub use gains::recalculate;
pub use prefix::{Kept, keep_best, roll_back};
