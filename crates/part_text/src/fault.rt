ghost use Rattle.std.specs.Prelude.{◌≡◌};

use std::alloc::{AllocError, AllocFailed};

/// What is wrong with a line of a partition file or a fix file.
#[derive(Clone, Copy, Debug, PartialEq, Eq)]
pub enum PartKind {
    /// The line hasn't one field.
    FieldCount,
    /// The field isn't a number, nor `-1` in a fix file.
    NotNumber,
    /// The number isn't below the number of blocks.
    BlockRange,
    /// The line isn't there; its number is that of all lines plus 1.
    MissingLine,
    /// The line stands behind the last one that is wanted.
    ExtraLine,
}

/// Why a partition file or a fix file wasn't read.
#[derive(Clone, Copy, Debug, PartialEq, Eq)]
pub enum PartFault {
    /// The first line with a fault, counted from 1, and its first fault.
    Bad {
        /// The number of the line.
        line: u32,
        /// What is wrong.
        kind: PartKind,
    },
    /// There was no memory left.
    NoMemory,
}

/// Why a fix file wasn't read.
pub type FixFault = PartFault;

impl From<AllocError> for PartFault {
    ghost use Rattle.part_text.specs.declared.fault.PartFault.TheVariants.{NoMemory as no_memory};

    ghost from_gives = { λ _ fault. fault ≡ no_memory };

    fn from(_error: AllocError) -> Self {
        PartFault::NoMemory
    }
}

impl<T: Drop> From<AllocFailed<T>> for PartFault {
    ghost use Rattle.part_text.specs.declared.fault.PartFault.TheVariants.{NoMemory as no_memory};

    ghost from_gives = { λ _ fault. fault ≡ no_memory };

    fn from(_failed: AllocFailed<T>) -> Self {
        PartFault::NoMemory
    }
}
