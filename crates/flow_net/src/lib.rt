//! Flow networks, and the maximum flow between two nodes with a cut of the same capacity.
#![tactic(auto)]

mod cut;
mod ends;
pub mod laws;
mod layout;
mod levels;
mod maximum;
mod network;
mod paths;
mod residual;

pub use cut::Cut;
pub use hg_base::{Flags, NoMemory};
pub use maximum::Workspace;
pub use network::{Arc, Network};
