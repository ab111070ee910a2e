//! Localized searches: workers grow searches from vertices on cut nets, and move vertices even where that
//! makes the partition dearer for a while.
//!
//! All workers of a round move vertices of one shared partition, and all their moves stand in one sequence,
//! which is rolled back to its best prefix. So a move that costs something is kept where later ones, whoever
//! made them, more than make up for it. It is localized FM, as in Mt-KaHyPar.
#![tactic(auto)]

mod begin;
mod beside;
mod cells;
mod change;
mod desk;
mod fm;
mod lots;
mod memory;
mod mover;
mod opening;
mod openings;
mod pass;
mod possible;
mod progress;
mod race;
mod reading;
mod seeds;
mod shared;
mod single;
mod streak;
mod told;
mod worker;

pub use fm::FmSearch;
pub use pass::search_pass;
