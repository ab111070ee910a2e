//! The first partition of a descent.

ghost use Rattle.std.specs.Prelude.{◌≡◌, ◌≤◌, IfOk, None};
ghost use Rattle.hg_defs.specs.Hypergraph.{IsFixedWithin, Suits};
ghost use Rattle.hg_defs.specs.Partition.{IsPartition, Obeys, Fits};
ghost use Rattle.hg_defs.specs.Placement as placements;
ghost use Rattle.initial_place.specs.Cheapest.{IsNoDearer};

use crate::end::PlaceEnd;
use crate::named::named_best;
use crate::search::searched;
use hg_base::Blocks;
use incidence::Hypergraph;
use std::alloc::Global;
use std::thread::Threads;

/// A partition that fits, obeys the fixes, and costs no more than each of the nine named
/// placements that fits.
///
/// There are 2 to 256 blocks, each fix is `FREE` or one of them, and the counts of the blocks for
/// all vertices and nets are at most 2^26. Of 1 to 64 workers one alone starts no thread; with more of
/// them there are as many threads as processors. The same candidates are tried in either case.
pub fn place<R: Threads + Sync>(
    rt: &R,
    alloc: Global,
    h: &Hypergraph,
    k: u32,
    limit: u64,
    seed: u64,
    workers: u32,
) -> Result<Blocks, PlaceEnd>
    requires some { 2 ≤ k }
    requires few { k ≤ 256 }
    requires suits { Suits h.now k }
    requires fixed { IsFixedWithin h.now k }
    requires workers { (1 ≤ workers) × (workers ≤ 64) }
    ensures partition { IfOk result (IsPartition h.now k) }
    ensures fits { IfOk result (Fits h.now k limit) }
    ensures fixes { IfOk result (Obeys h.now) }
    ensures cost { IfOk result (IsNoDearer h.now k limit (placements.named h.now k seed)) }
    ensures none { result ≡ Err PlaceEnd.NoneFits → placements.named_best h.now k limit seed ≡ None }
{
    let named = named_best(rt, alloc, h, k, limit, seed, workers)?;
    Ok(searched(rt, alloc, h, k, limit, seed, named, workers)?)
}
