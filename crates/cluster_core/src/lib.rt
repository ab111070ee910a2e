//! The clustering of a hypergraph as a pure machine of events over words and the accounts of passes.
//!
//! No thread stands here. A table of atomic words that makes each of its steps as one of these
//! events keeps the same balance.
#![tactic(auto)]

mod account;
mod events;
mod laws;
mod machine;
mod marks;
mod pass;
mod runs;
#[cfg(test)]
mod tests;

pub use account::{Account, Stage};
pub use events::ClusterEvent;
pub use laws::{balance_is_kept, decided_marks_stay, events_keep_balance, roots_are_within_cap};
pub use marks::Marks;
pub use runs::{RunEnd, run};
