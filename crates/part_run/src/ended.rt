use crate::Status;
use hg_base::Blocks;
use round_log::{Trace, TraceList};

/// What a run that partitioned made.
#[derive(Debug, Drop)]
pub struct Outcome {
    /// The block of each vertex, as it was written.
    pub blocks: Blocks,
    /// The cost of that partition.
    pub cost: u64,
    /// How the run came to it: its levels, and every round.
    pub trace: Trace,
    /// The traces of the cycles that followed.
    pub cycles: TraceList,
}

/// How a run ended, and what it made.
#[derive(Debug, Drop)]
pub struct Ended {
    /// How it ended.
    pub status: Status,
    /// What it made: where a `partition` is done.
    pub outcome: Option<Outcome>,
}
