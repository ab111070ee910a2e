//! The vertices that a search may move next, by what they gain.
#![tactic(auto)]

mod heap;
mod offer;
#[cfg(test)]
mod tests;

pub use heap::GainHeap;
pub use offer::Offer;
