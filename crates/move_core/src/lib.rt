//! The books of a raced round: a pure machine of events over words and the accounts of passes.
//!
//! No thread stands here. A table of atomic words that makes each of its steps as one of these
//! events keeps the same books.
#![tactic(auto)]

mod account;
mod books;
mod changes;
mod enabled;
mod events;
mod laws;
mod ledger;
mod open;
mod pass;
mod prices;
mod runs;
mod steps;
#[cfg(test)]
mod tests;

pub use account::{Account, Owed, Stage};
pub use books::Books;
pub use events::{Event, Word};
pub use laws::{
    balance_is_kept, counts_are_pins, events_keep_balance, gains_are_of_workers, gains_are_savings,
    grants_are_within_limit, moves_are_in_order, openings_are_in_balance, passes_read_back,
    vertices_move_once, words_are_in_range, words_tell_the_partition,
};
pub use prices::{narrow_gain, widen_gain};
pub use runs::{RunEnd, run};
