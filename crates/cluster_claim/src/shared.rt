//! What the workers of a clustering share.

ghost use Rattle.std.specs.Prelude.{◌≡◌, ◌≤◌, length};
ghost use Rattle.cluster_claim.specs.Board.{IsBoard};

use crate::board::Words;
use incidence::Hypergraph;
use std::sync::atomic::AtomicUsize;

/// The table, its hypergraph, the heaviest that a cluster may be, the number of workers, the seed, and how many visits
/// of each worker's run are taken.
#[derive(Drop)]
pub(crate) struct Shared<'a> {
    pub(crate) words: &'a Words,
    pub(crate) h: &'a Hypergraph,
    pub(crate) cap: u64,
    pub(crate) workers: u32,
    pub(crate) seed: u64,
    pub(crate) taken: &'a [AtomicUsize],
    ghost board: { IsBoard words.now.key words.now.table_id h.now cap },
    ghost few: { workers ≤ 64 },
    ghost runs: { length taken.now ≡ workers },
}
