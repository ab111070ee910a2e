//! What a run records: moves, rounds, levels and whole traces.
//!
//! The types are plain data. What makes a round, a pass and a trace legal is defined over them in
//! `specs/`: `Rounds`, `Passes` and `Trace`.
#![tactic(auto)]

pub mod laws;
mod order;
mod record;
#[cfg(test)]
mod tests;

pub use hg_base::{Blocks, Gains, MapList, MapStack, Verts};
pub use hg_defs::{Move, NoMemory};
pub use order::order_of;
pub use record::{Chosen, Job, Kind, LoggedRound, Moves, RoundList, Stop, Trace, TraceList};
