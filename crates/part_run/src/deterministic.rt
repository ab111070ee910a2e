//! Runs in the deterministic mode, whose partition doesn't depend on the number of workers.

ghost use Rattle.std.specs.Prelude.{◌≡◌, ℕ, ◌≤◌, None, IfOk, [], length};
ghost use Rattle.hg_defs.specs.Hypergraph.{IsHypergraph, IsFixedWithin, Suits};
ghost use Rattle.hg_defs.specs.LeastLoaded as placement;
ghost use Rattle.hg_defs.specs.Levels.{level};
ghost use Rattle.round_log.specs.Trace.{limit_of as limit_of_job};
ghost use Rattle.round_log.specs.TraceLaws.{IsPlaceableFor, IsSound};
ghost use Rattle.det_sync.specs.Descent.{AreDetLevels, IsDetDescent};
ghost use Rattle.part_run.specs.declared.words.Mode.TheVariants.{Deterministic};
ghost use Rattle.part_run.specs.Made.{IsJob, IsReached};

use crate::reached::Reached;
use det_sync::{det_descend, det_levels};
use hg_base::{Blocks, NoMemory};
use incidence::Hypergraph;
use initial_place::PlaceEnd;
use level_stack::LevelStack;
use pin_plain::Partition;
use round_log::{Job, Stop, Trace, TraceList};
use std::alloc::Global;
use std::thread::Threads;
use uncoarsen::settle_best;

/// The descent. Greedy placement fits on the file, and it is one of those that are tried.
fn synchronize<H: Threads + Sync>(
    rt: &H,
    alloc: Global,
    stack: LevelStack,
    stop: Stop,
    job: &Job,
    limit: u64,
) -> Result<(Hypergraph, Partition, Trace), NoMemory>
    requires job { IsJob job.now }
    requires sound { IsHypergraph stack.base }
    requires levels { AreDetLevels stack.base job.now.k stack.maps stop }
    requires suits { (i : ℕ) → i ≤ length stack.maps → Suits (level stack.base stack.maps i) job.now.k }
    requires fixed { IsFixedWithin stack.base job.now.k }
    requires placed { placement.overfills stack.base job.now.k limit ≡ None }
    ensures hypergraph { IfOk result (λ r. r.0 ≡ stack.base) }
    ensures partition { IfOk result (λ r. r.1 ≡ record {
      hyper = stack.base;
      k = job.now.k;
      limit = limit;
      blocks = r.2.last;
    }) }
    ensures trace { IfOk result (λ r. IsDetDescent stack.base job.now.k limit job.now.seed job.now.workers
        stack.maps stop r.2) }
    ensures sound { IfOk result (λ r. IsSound stack.base job.now.k limit r.2.last) }
{
    match det_descend(rt, alloc, stack, stop, job.k, limit, job.seed, job.workers) {
        Ok(reached) => Ok(reached),
        Err(PlaceEnd::NoneFits) => unreachable!(),
        Err(PlaceEnd::NoMemory) => Err(NoMemory),
    }
}

/// Pairs, takes the best named placement, makes synchronous rounds level by level, takes greedy
/// placement where that is cheaper, and sweeps. No cycle follows.
pub(crate) fn run_determined<H: Threads + Sync>(
    rt: &H,
    alloc: Global,
    job: &Job,
    limit: u64,
    h: Hypergraph,
    placed: Blocks,
) -> Result<Reached, NoMemory>
    requires job { IsJob job.now }
    requires ready { IsPlaceableFor h job.now }
    requires suits { Suits h job.now.k }
    requires limit { limit ≡ limit_of_job h job.now }
    requires placed { placed ≡ placement.greedy h job.now.k }
    ensures { IfOk result (IsReached Deterministic [] job.now h) }
{
    let (stack, stop) = det_levels(rt, alloc, h, job.k, job.workers)?;
    let (h, last, mut trace) = synchronize(rt, alloc, stack, stop, job, limit)?;
    let best = settle_best(rt, alloc, &h, last, placed, job.workers, &mut trace)?;
    Ok(Reached {
        h,
        best,
        trace,
        cycles: TraceList::new(alloc),
    })
}
