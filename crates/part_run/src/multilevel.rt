//! Runs in which refiners race: the levels, the refiners on each of them, the sweeps, and the cycles.

ghost use Rattle.std.specs.Prelude.{◌≡◌, ◌≢◌, ◌≤◌, ◌<◌, ◌^◌, ◌++◌, None, IfOk, All, AllPairs, map};
ghost use Rattle.hg_defs.specs.Hypergraph.{IsHypergraph, Suits};
ghost use Rattle.hg_defs.specs.LeastLoaded as placement;
ghost use Rattle.round_log.specs.Trace.{limit_of as limit_of_job};
ghost use Rattle.round_log.specs.TraceLaws.{IsPlaceableFor};
ghost use Rattle.uncoarsen.specs.Start.{ArePartable, IsStartAt};
ghost use Rattle.uncoarsen.specs.Refined.{IsLegalBy, tallies_with};
ghost use Rattle.vcycle.specs.Cycles.{rounds_of_cycles};
ghost use Rattle.part_run.specs.declared.words.Mode.TheVariants.{Raced};
ghost use Rattle.part_run.specs.Made.{IsJob, IsReached};

use crate::reached::Reached;
use coarsen::coarsen;
use crew::OpenGate;
use hg_base::{Blocks, NoMemory};
use incidence::Hypergraph;
use initial_place::PlaceEnd;
use level_stack::LevelStack;
use pin_plain::Partition;
use refiner::Refiner;
use round_log::{Job, Trace};
use std::alloc::Global;
use std::thread::Threads;
use uncoarsen::{Start, descend, settle_best, uncoarsen};
use vcycle::cycles;

/// Where the descent begins. Greedy placement fits on the file, and it is one of those that are tried.
fn begin<H: Threads + Sync>(
    rt: &H,
    alloc: Global,
    stack: &LevelStack,
    k: u32,
    limit: u64,
    seed: u64,
    workers: u32,
) -> Result<Start, NoMemory>
    requires some { 2 ≤ k }
    requires few { k ≤ 256 }
    requires sound { IsHypergraph stack.now.base }
    requires levels { ArePartable stack.now k }
    requires placed { placement.overfills stack.now.base k limit ≡ None }
    requires workers { (1 ≤ workers) × (workers ≤ 64) }
    ensures { IfOk result (λ s. IsStartAt stack.now k limit seed s.level s.blocks) }
{
    match descend(rt, alloc, stack, k, limit, seed, workers) {
        Ok(start) => Ok(start),
        Err(PlaceEnd::NoneFits) => unreachable!(),
        Err(PlaceEnd::NoMemory) => Err(NoMemory),
    }
}

/// The descent: coarsens, places the coarsest level, refines level by level with the refiners, takes
/// greedy placement where that is cheaper, and sweeps.
fn run_descent<H: Threads + Sync>(
    rt: &H,
    alloc: Global,
    job: &Job,
    limit: u64,
    h: Hypergraph,
    placed: Blocks,
    refiners: &mut [Box<dyn Refiner>],
) -> Result<(Hypergraph, Partition, Trace), NoMemory>
    requires job { IsJob job.now }
    requires ready { IsPlaceableFor h job.now }
    requires suits { Suits h job.now.k }
    requires limit { limit ≡ limit_of_job h job.now }
    requires placed { placed ≡ placement.greedy h job.now.k }
    requires may_run { All (λ b. may_run b) refiners.old }
    requires kinds { AllPairs (λ a b. a ≢ b) (map (λ b. kind b) refiners.old) }
    requires tallied { All (λ b. ((tally b).rounds < 2 ^ 59) × ((tally b).gain < 2 ^ 59)) refiners.old }
    ensures hypergraph { IfOk result (λ r. r.0 ≡ h) }
    ensures partition { IfOk result (λ r. r.1 ≡ record {
      hyper = r.0;
      k = job.now.k;
      limit = limit;
      blocks = r.1.blocks;
    }) }
    ensures legal { IfOk result (λ r. IsLegalBy (map (λ b. kind b) refiners.old) h job.now r.2 r.1.blocks) }
    ensures may_run { All (λ b. may_run b) refiners.new }
    ensures kinds { map (λ b. kind b) refiners.new ≡ map (λ b. kind b) refiners.old }
    ensures tallies { IfOk result (λ r. map (λ b. tally b) refiners.new ≡ tallies_with r.2.rounds
        (map (λ b. kind b) refiners.old) (map (λ b. tally b) refiners.old)) }
    ensures tallied { IfOk result (λ _. All (λ b. ((tally b).rounds < 2 ^ 60) × ((tally b).gain < 2 ^ 60))
        refiners.new) }
{
    let _vertices = h.vertices();
    let (stack, stop) = coarsen(rt, alloc, h, job.k, job.workers, job.seed, &OpenGate)?;
    let start = begin(rt, alloc, &stack, job.k, limit, job.seed, job.workers)?;
    let (h, last, mut trace) = uncoarsen(
        rt,
        alloc,
        stack,
        stop,
        start,
        job.k,
        limit,
        job.workers,
        job.seed,
        refiners,
    )?;
    let best = settle_best(rt, alloc, &h, last, placed, job.workers, &mut trace)?;
    Ok((h, best, trace))
}

/// Runs the descent, and so many cycles after it.
///
/// Where there is no memory, the refiners may have been changed.
pub(crate) fn run_levels<H: Threads + Sync>(
    rt: &H,
    alloc: Global,
    job: &Job,
    limit: u64,
    count: u32,
    h: Hypergraph,
    placed: Blocks,
    refiners: &mut [Box<dyn Refiner>],
) -> Result<Reached, NoMemory>
    requires job { IsJob job.now }
    requires count { count ≤ 8 }
    requires ready { IsPlaceableFor h job.now }
    requires suits { Suits h job.now.k }
    requires limit { limit ≡ limit_of_job h job.now }
    requires placed { placed ≡ placement.greedy h job.now.k }
    requires may_run { All (λ b. may_run b) refiners.old }
    requires kinds { AllPairs (λ a b. a ≢ b) (map (λ b. kind b) refiners.old) }
    requires tallied { All (λ b. ((tally b).rounds < 2 ^ 59) × ((tally b).gain < 2 ^ 59)) refiners.old }
    ensures reached { IfOk result (IsReached (Raced count) (map (λ b. kind b) refiners.old) job.now h) }
    ensures may_run { All (λ b. may_run b) refiners.new }
    ensures kinds { map (λ b. kind b) refiners.new ≡ map (λ b. kind b) refiners.old }
    ensures tallies { IfOk result (λ r. map (λ b. tally b) refiners.new ≡ tallies_with
        (r.trace.rounds ++ rounds_of_cycles r.cycles) (map (λ b. kind b) refiners.old)
        (map (λ b. tally b) refiners.old)) }
{
    let (base, reached, trace) = run_descent(rt, alloc, job, limit, h, placed, refiners)?;
    let (h, best, cycles) = cycles(
        rt,
        alloc,
        base,
        reached,
        job.k,
        limit,
        job.workers,
        job.seed,
        count,
        &OpenGate,
        refiners,
    )?;
    Ok(Reached {
        h,
        best,
        trace,
        cycles,
    })
}
