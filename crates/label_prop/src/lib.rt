//! Label propagation: workers visit the vertices and move each to the block where it saves most.
//!
//! All workers of a round move vertices of one shared partition. The round is rolled back to its best
//! prefix, and where it didn't make the partition cheaper, a plain sweep follows, which begins with
//! threads that mark the vertices that need no visit. A pass ends where the partition is settled, or after
//! eight rounds that made it cheaper.
#![tactic(auto)]

mod label;
mod marks;
mod pass;
mod race;
mod scores;
mod settled;
mod shared;
mod sweep;
mod worker;

pub use label::LabelProp;
pub use pass::label_pass;
