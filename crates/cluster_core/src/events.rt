/// One step of one pass on one word.
#[derive(Clone, Copy, Debug, PartialEq, Eq)]
pub enum ClusterEvent {
    /// The pass tries to take the vertex; where it is decided, the pass learns its root.
    Take { pass: u32, vertex: u32 },
    /// The pass makes a vertex that it has taken a root.
    Root { pass: u32, vertex: u32 },
    /// The pass adds the weight of a vertex that it has taken to the mass of a root.
    Add { pass: u32, vertex: u32, root: u32 },
    /// The pass takes back the weight that it added last.
    TakeBack { pass: u32 },
    /// The pass lets the vertex whose weight was granted follow its root.
    Follow { pass: u32 },
    /// The pass reads a mark; where the vertex is decided, the pass learns its root.
    Peek { pass: u32, vertex: u32 },
    /// The pass makes a new pass.
    Split { pass: u32 },
    /// The pass takes over what `other` has, and `other` ends.
    Join { pass: u32, other: u32 },
}
