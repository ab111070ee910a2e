/// One move of a vertex to another block, as a round records it.
#[derive(Clone, Copy, Debug, PartialEq, Eq)]
pub struct Move {
    /// The vertex that moved.
    pub vertex: u32,
    /// The block that it left.
    pub from: u32,
    /// The block that it went to.
    pub to: u32,
    /// The worker that moved it.
    pub worker: u32,
    /// The gain that the worker booked: positive where the move was found to lower the cost.
    pub booked: i64,
}
