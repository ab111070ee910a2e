use hg_base::NoMemory;
use std::alloc::AllocFailed;
use std::convert::From;

/// What is wrong with a line of a hypergraph file.
#[derive(Clone, Copy, Debug, PartialEq, Eq)]
pub enum LineKind {
    /// No line is kept.
    NoHeader,
    /// The header hasn't two or three fields.
    HeaderCount,
    /// A field has another byte than a digit.
    NotNumber,
    /// The format isn't 0, 1, 10 or 11.
    BadFormat,
    /// The text ends before all nets and vertices stand in it.
    MissingLine,
    /// A line is kept behind the last net or vertex.
    ExtraLine,
    /// A pin isn't a vertex, of which the first is 1.
    PinRange,
    /// A weight is 2^32 or more.
    WeightRange,
    /// A vertex's line hasn't one field.
    FieldCount,
}

/// What there is too much of.
#[derive(Clone, Copy, Debug, PartialEq, Eq)]
pub enum What {
    /// More than 2^29 bytes of the graph.
    Bytes,
    /// More than 2^22 nets.
    Nets,
    /// More than 2^22 vertices.
    Vertices,
    /// More than 2^25 pins, repeats included.
    Pins,
    /// More than 2^26 counts of pins, one for each block of each vertex and net.
    Words,
    /// More than 2^29 bytes of the other input.
    ExtraBytes,
}

/// Why a text spells no hypergraph. Lines are numbered from 1.
#[derive(Clone, Copy, Debug, PartialEq, Eq)]
pub enum GraphFault {
    /// A line breaks the format.
    Bad {
        /// The number of the line; the number of lines plus 1 where one is missing.
        line: u32,
        /// What is wrong with it.
        kind: LineKind,
    },
    /// A line goes past a limit.
    TooLarge {
        /// The number of the line.
        line: u32,
        /// What there is too much of.
        what: What,
    },
    /// There was no memory left.
    NoMemory,
}

impl From<NoMemory> for GraphFault {
    ghost use Rattle.std.specs.Prelude.{◌≡◌};
    ghost use Rattle.hmetis_read.specs.declared.fault.GraphFault.TheVariants.{NoMemory as no_memory};

    ghost from_gives = { λ _ fault. fault ≡ no_memory };

    fn from(_error: NoMemory) -> Self {
        GraphFault::NoMemory
    }
}

impl<T: Drop> From<AllocFailed<T>> for GraphFault {
    ghost use Rattle.std.specs.Prelude.{◌≡◌};
    ghost use Rattle.hmetis_read.specs.declared.fault.GraphFault.TheVariants.{NoMemory as no_memory};

    ghost from_gives = { λ _ fault. fault ≡ no_memory };

    fn from(_failed: AllocFailed<T>) -> Self {
        GraphFault::NoMemory
    }
}
