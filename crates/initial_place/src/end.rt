//! Why there is no placement.

use hg_base::NoMemory;
use std::alloc::AllocError;

/// Why a placement ended without a partition.
#[derive(Clone, Copy, Debug, PartialEq, Eq)]
pub enum PlaceEnd {
    /// None of the nine named placements fits.
    NoneFits,
    /// There was no memory left.
    NoMemory,
}

impl From<AllocError> for PlaceEnd {
    ghost use Rattle.std.specs.Prelude.{◌≡◌};
    ghost use Rattle.initial_place.specs.declared.end.PlaceEnd.TheVariants.{NoMemory as no_memory};

    ghost from_gives = { λ _ end. end ≡ no_memory };

    fn from(_error: AllocError) -> Self {
        PlaceEnd::NoMemory
    }
}

impl From<NoMemory> for PlaceEnd {
    ghost use Rattle.std.specs.Prelude.{◌≡◌};
    ghost use Rattle.initial_place.specs.declared.end.PlaceEnd.TheVariants.{NoMemory as no_memory};

    ghost from_gives = { λ _ end. end ≡ no_memory };

    fn from(_error: NoMemory) -> Self {
        PlaceEnd::NoMemory
    }
}
