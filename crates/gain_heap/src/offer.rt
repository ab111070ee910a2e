//! What a heap of gains holds.

/// The gain of a vertex, and a number that decides among equal gains. Offers are compared by their gains, then by
/// their ties, then by their vertices.
#[derive(Clone, Copy, PartialEq, Eq, PartialOrd, Ord)]
pub struct Offer {
    pub gain: i64,
    pub tie: i64,
    pub vertex: u32,
}
