//! Refiners: what improves the partition of one level by recorded rounds, and the log of these rounds.
//!
//! A refiner makes passes of one kind. What a pass of a kind is, is defined in `round_log`
//! (`specs/Passes`); the trait `Refiner` asks that what a refiner logs is one.
#![tactic(auto)]

mod log;
mod pass;
mod race;
mod refiner;

pub use log::Log;
pub use pass::{Tally, Task};
pub use refiner::Refiner;
