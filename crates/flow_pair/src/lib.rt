//! Two blocks at once: the region of a pair, its flow network, the cheapest assignment of the region, and the
//! refiner that makes it for one pair after the other.
#![tactic(auto)]

mod balance;
mod bits;
mod cut;
mod cut_lists;
mod cut_nets;
mod distinct;
pub mod laws;
mod network;
mod notes;
mod pair;
mod pass;
mod refine;
mod region;
mod round;
mod short;
mod solve;

pub use cut_nets::CutNets;
pub use flow_net::NoMemory;
pub use network::region_network;
pub use pass::flow_pass;
pub use refine::FlowPair;
pub use round::{assign_region, record_moves, record_round};
pub use solve::{PairEnd, PairSolver, solve_pair};
