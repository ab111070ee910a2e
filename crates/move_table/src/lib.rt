//! A round in which several passes, each on a thread of its own, move vertices over shared atomic
//! words.
//!
//! Each atomic step of a pass is one event of the books of `move_core`, so that the books are in
//! balance between any two steps, whatever the threads do.
#![tactic(auto)]

mod begin;
mod carry;
mod close;
mod closed;
mod deed;
mod grant;
mod pass;
mod place;
mod round;
mod rule;
mod steps;
mod view;

pub use begin::Begun;
pub use closed::{Closed, RaceParts};
pub use grant::{Full, Grant};
pub use pass::{Pass, Passes};
pub use round::Round;
pub use view::{Terms, View};

#[cfg(test)]
mod tests;
