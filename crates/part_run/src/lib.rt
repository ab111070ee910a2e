//! The top call: from the words of a command line to texts and a status.
#![tactic(auto)]

mod balance;
mod deterministic;
mod ended;
mod evaluate;
mod generate;
pub mod laws;
mod making;
mod multilevel;
mod naming;
mod partition;
mod places;
mod reached;
mod reading;
mod selfrun;
mod status;
mod top;
mod words;

pub use ended::{Ended, Outcome};
pub use naming::names;
pub use places::Names;
pub use status::{Status, put_status};
pub use top::run;
