//! The plain partition: loads, packed pin counts, gains, sweeps, and a settled result.
#![tactic(auto)]

mod costs;
mod counts;
mod gains;
mod lent;
mod opening;
mod partition;
mod quiet;
mod scores;
mod seen;
mod sums;
mod tallies;

pub use hg_base::NoMemory;
pub use partition::{BestMove, Partition, Ready};
