use hg_io::Place;

/// Where a command reads and writes: all four are `Nothing` where the words spell no command.
#[derive(Debug, Drop)]
pub struct Names {
    /// The hypergraph file.
    pub graph: Place,
    /// The partition file of `evaluate`, or the fix file of `partition`.
    pub extra: Place,
    /// What the partition or the generated hypergraph goes to.
    pub out: Place,
    /// What the report or the evaluation goes to.
    pub report: Place,
}
