//! The end of a run on the file.

ghost use Rattle.std.specs.Prelude.{◌≡◌, ◌≤◌, IfOk};
ghost use Rattle.hg_defs.specs.Partition.{Fits};
ghost use Rattle.hg_defs.specs.LeastLoaded as placement;
ghost use Rattle.uncoarsen.specs.Settled.{SettlesBest};

use exact_cost::cost_with;
use hg_base::{Blocks, NoMemory};
use incidence::Hypergraph;
use pin_plain::Partition;
use round_log::{Chosen, Trace};
use std::alloc::Global;
use std::thread::Threads;

/// Takes the greedy partition in place of the last one exactly where it is cheaper, and sweeps until
/// no single allowed move makes the partition cheaper. The trace is given the choice and the sweeps.
///
/// Where there is no memory, the trace is not used any more.
pub fn settle_best<R: Threads + Sync>(
    rt: &R,
    alloc: Global,
    h: &Hypergraph,
    last: Partition,
    greedy: Blocks,
    workers: u32,
    trace: &mut Trace,
) -> Result<Partition, NoMemory>
    requires belongs { last.hyper ≡ h.now }
    requires workers { (1 ≤ workers) × (workers ≤ 64) }
    requires fits { Fits h.now last.k last.limit last.blocks }
    requires traced { trace.old.last ≡ last.blocks }
    requires greedy { greedy ≡ placement.greedy h.now last.k }
    requires greedy_fits { Fits h.now last.k last.limit greedy }
    ensures partition { IfOk result (λ q. q ≡ record last { blocks = q.blocks }) }
    ensures trace { IfOk result (λ q. SettlesBest h.now last.k last.limit trace.old trace.new q.blocks) }
{
    let k = last.k();
    let _blocks = last.blocks();
    let cost = last.cost_with(rt, h, workers);
    let cheaper = cost_with(rt, h.flat(), greedy.slice(), k, workers) < cost;
    let mut best = if cheaper {
        trace.chosen = Chosen::Greedy;
        Partition::of(alloc, h, k, last.limit(), greedy)?
    } else {
        trace.chosen = Chosen::Levels;
        last
    };
    best.settle_with(rt, alloc, h, workers, &mut trace.rounds)?;
    Ok(best)
}
