//! Where a descent from the coarsest level begins, how it goes down over refiners, and how it ends on
//! the file.
#![tactic(auto)]

mod beside;
mod descent;
pub mod laws;
mod passes;
mod settling;
mod start;

pub use descent::uncoarsen;
pub use settling::settle_best;
pub use start::{Start, descend};
