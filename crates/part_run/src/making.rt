//! A whole run over a hypergraph: greedy placement, and the partition that a mode comes to.

ghost use Rattle.std.specs.Prelude.{◌≡◌, ◌≢◌, ◌≤◌, ◌<◌, ◌^◌, ◌++◌, MatchResult, IfOk, All, AllPairs, map};
ghost use Rattle.hg_defs.specs.Hypergraph.{IsHypergraph, IsWithinLimits, IsFixedWithin, Suits};
ghost use Rattle.hg_defs.specs.LeastLoaded as placement;
ghost use Rattle.round_log.specs.Trace.{limit_of as limit_of_job};
ghost use Rattle.round_log.specs.TraceLaws.{IsPlaceableFor};
ghost use Rattle.vcycle.specs.Cycles.{rounds_of_cycles};
ghost use Rattle.part_run.specs.Spelled.{HasFewCycles};
ghost use Rattle.part_run.specs.Answers.{IsPlaced, IsPlaceRefusal, TalliesIn, SparesIn, rounds_in};
ghost use Rattle.part_run.specs.Made.{IsJob, IsReached, IsMade};

use crate::deterministic::run_determined;
use crate::multilevel::run_levels;
use crate::reached::Reached;
use crate::words::Mode;
use crate::{Outcome, Status};
use exact_cost::cost_with;
use hg_base::{Blocks, FlatHyper, GreedyEnd, NoMemory, greedy, limit_of};
use incidence::Hypergraph;
use refiner::Refiner;
use round_log::Job;
use std::alloc::Global;
use std::thread::Threads;

/// What a run made of a hypergraph.
#[derive(Drop)]
pub(crate) struct Made {
    /// The hypergraph.
    pub h: Hypergraph,
    /// The cost of greedy placement.
    pub greedy: u64,
    /// The partition, and how the run came to it.
    pub outcome: Outcome,
}

/// Greedy placement, which is refused where it passes the limit.
fn place(alloc: Global, job: &Job, h: &FlatHyper, limit: u64) -> Result<Blocks, Status>
    requires job { IsJob job.now }
    requires fixed { IsFixedWithin h.now job.now.k }
    requires limit { limit ≡ limit_of_job h.now job.now }
    requires sound { IsHypergraph h.now }
    requires bounds { IsWithinLimits h.now }
    ensures answer { MatchResult result (IsPlaced job.now h.now) (IsPlaceRefusal job.now h.now) }
{
    match greedy(alloc, h, job.k, limit) {
        Ok(blocks) => Ok(blocks),
        Err(GreedyEnd::Overfills { vertex }) => Err(Status::Unplaced { vertex: vertex + 1 }),
        Err(GreedyEnd::NoMemory) => Err(Status::NoMemory),
    }
}

/// The partition that a mode comes to. In the deterministic mode the refiners aren't called.
fn reach<H: Threads + Sync>(
    rt: &H,
    alloc: Global,
    mode: Mode,
    job: &Job,
    limit: u64,
    h: Hypergraph,
    placed: Blocks,
    refiners: &mut [Box<dyn Refiner>],
) -> Result<Reached, NoMemory>
    requires job { IsJob job.now }
    requires cycles { HasFewCycles mode }
    requires ready { IsPlaceableFor h job.now }
    requires suits { Suits h job.now.k }
    requires limit { limit ≡ limit_of_job h job.now }
    requires placed { placed ≡ placement.greedy h job.now.k }
    requires may_run { All (λ b. may_run b) refiners.old }
    requires kinds { AllPairs (λ a b. a ≢ b) (map (λ b. kind b) refiners.old) }
    requires tallied { All (λ b. ((tally b).rounds < 2 ^ 59) × ((tally b).gain < 2 ^ 59)) refiners.old }
    ensures reached { IfOk result (IsReached mode (map (λ b. kind b) refiners.old) job.now h) }
    ensures may_run { All (λ b. may_run b) refiners.new }
    ensures kinds { map (λ b. kind b) refiners.new ≡ map (λ b. kind b) refiners.old }
    ensures tallies { IfOk result (λ r. TalliesIn mode (map (λ b. kind b) refiners.old)
        (r.trace.rounds ++ rounds_of_cycles r.cycles) (map (λ b. tally b) refiners.old)
        (map (λ b. tally b) refiners.new)) }
    ensures spared { SparesIn mode (map (λ b. tally b) refiners.old) (map (λ b. tally b) refiners.new) }
{
    match mode {
        Mode::Raced { cycles } => run_levels(rt, alloc, job, limit, cycles, h, placed, refiners),
        Mode::Deterministic => run_determined(rt, alloc, job, limit, h, placed),
    }
}

/// Partitions a hypergraph in a mode. Where it is refused for want of memory, refiners that race may
/// have been changed.
pub(crate) fn run_in<H: Threads + Sync>(
    rt: &H,
    alloc: Global,
    mode: Mode,
    job: &Job,
    flat: FlatHyper,
    refiners: &mut [Box<dyn Refiner>],
) -> Result<Made, Status>
    requires job { IsJob job.now }
    requires cycles { HasFewCycles mode }
    requires fixed { IsFixedWithin flat job.now.k }
    requires suits { Suits flat job.now.k }
    requires may_run { All (λ b. may_run b) refiners.old }
    requires kinds { AllPairs (λ a b. a ≢ b) (map (λ b. kind b) refiners.old) }
    requires tallied { All (λ b. ((tally b).rounds < 2 ^ 59) × ((tally b).gain < 2 ^ 59)) refiners.old }
    ensures answer { MatchResult result (IsMade mode (map (λ b. kind b) refiners.old) job.now flat)
        (IsPlaceRefusal job.now flat) }
    ensures may_run { All (λ b. may_run b) refiners.new }
    ensures kinds { map (λ b. kind b) refiners.new ≡ map (λ b. kind b) refiners.old }
    ensures tallies { IfOk result (λ made. TalliesIn mode (map (λ b. kind b) refiners.old) (rounds_in made.outcome)
        (map (λ b. tally b) refiners.old) (map (λ b. tally b) refiners.new)) }
    ensures spared { SparesIn mode (map (λ b. tally b) refiners.old) (map (λ b. tally b) refiners.new) }
{
    let _vertices = flat.vertices();
    let limit = limit_of(flat.total_weight(), job.k, job.eps);
    let placed = place(alloc, job, &flat, limit)?;
    let greedy = cost_with(rt, &flat, placed.slice(), job.k, job.workers);
    let h = Hypergraph::build_with(rt, alloc, flat, job.workers as usize)?;
    let reached = reach(rt, alloc, mode, job, limit, h, placed, refiners)?;
    let cost = reached.best.cost_with(rt, &reached.h, job.workers);
    Ok(Made {
        h: reached.h,
        greedy,
        outcome: Outcome {
            blocks: reached.best.into_blocks(),
            cost,
            trace: reached.trace,
            cycles: reached.cycles,
        },
    })
}
