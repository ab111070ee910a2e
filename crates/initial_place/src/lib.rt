//! The first partition of a descent: the nine named placements, and a search for a cheaper one.
#![tactic(auto)]

mod end;
mod named;
mod orders;
mod placement;
mod search;

pub use end::PlaceEnd;
pub use hg_base::NoMemory;
pub use named::named_best;
pub use placement::place;
