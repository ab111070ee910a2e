//! Partition files and fix files: the text of a partition, and what such files spell.
#![tactic(auto)]

mod fault;
mod laws;
mod read;
#[cfg(test)]
mod tests;
mod write;

pub use fault::{FixFault, PartFault, PartKind};
pub use laws::part_is_read_back;
pub use read::{read_fix, read_part};
pub use write::put_part;
