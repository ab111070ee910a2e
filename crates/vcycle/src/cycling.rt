//! One cycle, and several of them.

ghost use Rattle.std.specs.Prelude.{◌≡◌, ◌≢◌, ◌≤◌, ◌<◌, ◌^◌, All, AllPairs, IfOk, length, map};
ghost use Rattle.hg_defs.specs.Moves.{IsSettled};
ghost use Rattle.pin_plain.specs.Parted.{IsParted};
ghost use Rattle.round_log.specs.TraceLaws.{IsSound, IsSettledPartition};
ghost use Rattle.uncoarsen.specs.Refined.{tallies_with};
ghost use Rattle.vcycle.specs.Climb.{ClimbsInside};
ghost use Rattle.vcycle.specs.Cycles.{IsCycleBy, AreCyclesBy, rounds_of_cycles};

use coarsen::coarsen_inside;
use crew::Gate;
use hg_base::{Blocks, NoMemory};
use incidence::Hypergraph;
use level_stack::LevelStack;
use pin_plain::Partition;
use refiner::Refiner;
use round_log::{Stop, Trace, TraceList};
use std::alloc::Global;
use std::thread::Threads;
use uncoarsen::{Start, uncoarsen};

/// Coarsens a hypergraph inside the blocks of a partition. The descent starts on the coarsest level,
/// with that partition.
fn climb<R: Threads + Sync, G: Gate>(
    rt: &R,
    alloc: Global,
    h: Hypergraph,
    k: u32,
    blocks: Blocks,
    workers: u32,
    seed: u64,
    gate: &G,
) -> Result<(LevelStack, Stop, Start), NoMemory>
    requires parted { IsParted h k blocks }
    requires some { 1 ≤ workers }
    requires few { workers ≤ 64 }
    ensures { IfOk result (λ r. ClimbsInside h k blocks r.0 r.1 r.2.level r.2.blocks) }
{
    let (stack, stop, top) = coarsen_inside(rt, alloc, h, k, blocks.slice(), workers, seed, gate)?;
    let level = stack.depth() - 1;
    Ok((stack, stop, Start { level, blocks: top }))
}

/// Makes a cycle from a partition: coarsens inside its blocks, makes passes of the refiners on each
/// level from the coarsest one down, and sweeps until no single allowed move helps. Answers the
/// hypergraph, the partition after the cycle, and the trace.
///
/// There are 1 to 64 workers. The partition obeys the fixes and is within the limit. The refiners are
/// of different kinds, and each tallies the rounds of its kind. Where there is no memory, they may
/// have been changed.
pub fn cycle<R: Threads + Sync, G: Gate>(
    rt: &R,
    alloc: Global,
    h: Hypergraph,
    p: Partition,
    k: u32,
    limit: u64,
    workers: u32,
    seed: u64,
    gate: &G,
    refiners: &mut [Box<dyn Refiner>],
) -> Result<(Hypergraph, Partition, Trace), NoMemory>
    requires belongs { p ≡ record { hyper = h; k = k; limit = limit; blocks = p.blocks } }
    requires sound { IsSound h k limit p.blocks }
    requires workers { (1 ≤ workers) × (workers ≤ 64) }
    requires may_run { All (λ b. may_run b) refiners.old }
    requires kinds { AllPairs (λ a b. a ≢ b) (map (λ b. kind b) refiners.old) }
    requires tallied { All (λ b. ((tally b).rounds < 2 ^ 61) × ((tally b).gain < 2 ^ 61)) refiners.old }
    ensures may_run { All (λ b. may_run b) refiners.new }
    ensures kinds { map (λ b. kind b) refiners.new ≡ map (λ b. kind b) refiners.old }
    ensures hypergraph { IfOk result (λ r. r.0 ≡ h) }
    ensures partition { IfOk result (λ r. r.1 ≡ record { hyper = h; k = k; limit = limit; blocks = r.1.blocks }) }
    ensures cycle { IfOk result (λ r. IsCycleBy (map (λ b. kind b) refiners.old) h k limit workers r.2 p.blocks
        r.1.blocks) }
    ensures settled { IfOk result (λ r. IsSettledPartition h k limit r.1.blocks) }
    ensures tallies { IfOk result (λ r. map (λ b. tally b) refiners.new ≡ tallies_with r.2.rounds
        (map (λ b. kind b) refiners.old) (map (λ b. tally b) refiners.old)) }
{
    let _blocks = p.blocks();
    let (stack, stop, start) = climb(rt, alloc, h, k, p.into_blocks(), workers, seed, gate)?;
    let (h, mut last, mut trace) = uncoarsen(
        rt, alloc, stack, stop, start, k, limit, workers, seed, refiners,
    )?;
    last.settle_with(rt, alloc, &h, workers, &mut trace.rounds)?;
    Ok((h, last, trace))
}

/// Makes up to 8 cycles, one after the other, each from the partition of the one before it. The
/// first has the seed plus 1, modulo 2^64, and each later one the next seed. Answers the hypergraph,
/// the partition after the last cycle, and the trace of each.
///
/// What is asked of the partition and the refiners is as for [`cycle`].
pub fn cycles<R: Threads + Sync, G: Gate>(
    rt: &R,
    alloc: Global,
    h: Hypergraph,
    p: Partition,
    k: u32,
    limit: u64,
    workers: u32,
    seed: u64,
    count: u32,
    gate: &G,
    refiners: &mut [Box<dyn Refiner>],
) -> Result<(Hypergraph, Partition, TraceList), NoMemory>
    requires belongs { p ≡ record { hyper = h; k = k; limit = limit; blocks = p.blocks } }
    requires sound { IsSound h k limit p.blocks }
    requires workers { (1 ≤ workers) × (workers ≤ 64) }
    requires count { count ≤ 8 }
    requires may_run { All (λ b. may_run b) refiners.old }
    requires kinds { AllPairs (λ a b. a ≢ b) (map (λ b. kind b) refiners.old) }
    requires tallied { All (λ b. ((tally b).rounds < 2 ^ 60) × ((tally b).gain < 2 ^ 60)) refiners.old }
    ensures may_run { All (λ b. may_run b) refiners.new }
    ensures kinds { map (λ b. kind b) refiners.new ≡ map (λ b. kind b) refiners.old }
    ensures hypergraph { IfOk result (λ r. r.0 ≡ h) }
    ensures partition { IfOk result (λ r. r.1 ≡ record { hyper = h; k = k; limit = limit; blocks = r.1.blocks }) }
    ensures count { IfOk result (λ r. length r.2 ≡ count) }
    ensures cycles { IfOk result (λ r. AreCyclesBy (map (λ b. kind b) refiners.old) h k limit workers r.2 p.blocks
        r.1.blocks) }
    ensures sound { IfOk result (λ r. IsSound h k limit r.1.blocks) }
    ensures settled { IfOk result (λ r. IsSettled h k limit p.blocks → IsSettled h k limit r.1.blocks) }
    ensures tallies { IfOk result (λ r. map (λ b. tally b) refiners.new ≡ tallies_with (rounds_of_cycles r.2)
        (map (λ b. kind b) refiners.old) (map (λ b. tally b) refiners.old)) }
{
    let _blocks = p.blocks();
    let mut h = h;
    let mut p = p;
    let mut traces = TraceList::new(alloc);
    for i in 0..count {
        let seed = seed.wrapping_add(u64::from(i) + 1);
        let (same, better, trace) = cycle(
            rt, alloc, h, p, k, limit, workers, seed, gate, refiners,
        )?;
        traces.push(trace)?;
        h = same;
        p = better;
    }
    Ok((h, p, traces))
}
