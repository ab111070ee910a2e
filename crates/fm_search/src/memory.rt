//! What a pass keeps from round to round.

ghost use Rattle.std.specs.Prelude.{◌≡◌, []};

use crate::desk::Desk;
use crate::openings::Openings;
use std::alloc::Global;

/// The memory of workers that were there before, and what vertices may do as it was read last.
#[derive(Drop)]
pub(crate) struct Memory {
    pub(crate) desks: Vec<Desk>,
    pub(crate) openings: Openings,
}

impl Memory {
    /// Nothing is kept yet.
    pub(crate) fn new(alloc: Global) -> Self
        ensures desks { result.desks.items ≡ [] }
        ensures openings { result.openings.all.items ≡ [] }
    {
        Memory {
            desks: Vec::new(alloc),
            openings: Openings::none(alloc),
        }
    }
}
