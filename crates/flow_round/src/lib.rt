//! Flow refinement of disjoint pairs of blocks at once.
#![tactic(auto)]

mod front;
pub mod laws;
mod pass;
mod refine;
mod shares;
mod table;
mod touched;
mod worker;

pub use pass::wave_pass;
pub use refine::FlowRound;
