//! What the workers of a round share.

ghost use Rattle.std.specs.Prelude.{◌≡◌, ◌≤◌, length};
ghost use Rattle.hg_defs.specs.Hypergraph.{vertex_count};

use incidence::Hypergraph;
use move_table::Round;
use std::sync::atomic::{AtomicBool, AtomicUsize};

/// The round, its hypergraph, its numbers of blocks and of workers, the limit on a load, the marks of the vertices
/// that are still to be visited, how many vertices of each worker's run are taken, and whether a worker had no memory.
#[derive(Drop)]
pub(crate) struct Shared<'a> {
    pub(crate) round: &'a Round<'a>,
    pub(crate) h: &'a Hypergraph,
    pub(crate) k: u32,
    pub(crate) workers: u32,
    pub(crate) limit: u64,
    pub(crate) marks: &'a [AtomicBool],
    pub(crate) taken: &'a [AtomicUsize],
    pub(crate) refused: &'a AtomicBool,
    ghost hyper: { round.now.terms.part.hyper ≡ h.now },
    ghost blocks: { round.now.terms.part.k ≡ k },
    ghost few: { k ≤ 256 },
    ghost manned: { round.now.terms.workers ≡ workers },
    ghost shared: { workers ≤ 64 },
    ghost marked: { length marks.now ≡ vertex_count h.now },
    ghost runs: { length taken.now ≡ workers },
}
