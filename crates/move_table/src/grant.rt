//! What a pass is told by a reservation, and what it keeps of a move.

use hg_base::Move;

/// A vertex for which there was room in another block, where its weight now stands.
#[derive(Clone, Copy, Debug, PartialEq, Eq)]
pub struct Grant {
    /// The vertex.
    pub vertex: u32,
    /// Its block.
    pub from: u32,
    /// The block where there was room.
    pub to: u32,
    /// The load that was found there.
    pub seen: u64,
}

/// There was no room for a vertex in a block.
#[derive(Clone, Copy, Debug, PartialEq, Eq)]
pub struct Full {
    /// The load that was found there, with what other passes had added for the moment.
    pub seen: u64,
}

/// A move that is done, and the number that was drawn for it.
#[derive(Clone, Copy)]
pub struct Done {
    pub(crate) number: u64,
    pub(crate) action: Move,
}
