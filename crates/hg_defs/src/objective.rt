/// Which cost of a partition is to be kept low.
#[derive(Clone, Copy, Debug, PartialEq, Eq)]
pub enum Objective {
    /// The blocks of a net less one, times its weight.
    Connectivity,
    /// The weight of each net with pins in two or more blocks.
    CutNet,
    /// The blocks of each cut net, times its weight.
    ExternalDegree,
}

/// The fix of a vertex that may be placed in any block.
pub const FREE: u32 = 256;
