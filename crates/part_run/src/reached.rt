//! What a run comes to.

use incidence::Hypergraph;
use pin_plain::Partition;
use round_log::{Trace, TraceList};

/// A partition, and how a run came to it.
#[derive(Drop)]
pub(crate) struct Reached {
    /// The hypergraph.
    pub h: Hypergraph,
    /// The partition of it.
    pub best: Partition,
    /// Its levels, and every round up to the sweeps at the end.
    pub trace: Trace,
    /// The traces of the cycles that followed.
    pub cycles: TraceList,
}
