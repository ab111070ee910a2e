//! The way down: passes on each level, and projections between two levels.

ghost use Rattle.std.specs.Prelude.{◌≡◌, ◌≢◌, ◌≤◌, ◌<◌, ◌^◌, ◌++◌, All, AllPairs, IfOk, length, map};
ghost use Rattle.hg_defs.specs.Partition.{IsPartition, Fits, Obeys};
ghost use Rattle.round_log.specs.TraceLaws.{IsSound};
ghost use Rattle.uncoarsen.specs.Start.{ArePartable, level_of};
ghost use Rattle.uncoarsen.specs.Refined.{IsRefinedDown, tallies_with};
ghost use Rattle.uncoarsen.specs.Passing.{RefinesDown};

use crate::beside::refine_and_leave;
use crate::passes::refine_level;
use crate::start::Start;
use hg_base::{Blocks, MapStack, NoMemory};
use incidence::Hypergraph;
use level_stack::LevelStack;
use pin_plain::Partition;
use refiner::{Log, Refiner, Task};
use round_log::{Chosen, Stop, Trace};
use std::alloc::Global;
use std::thread::Threads;

/// Refines a partition of a level, and its projections to all levels below: on each level each
/// refiner makes a pass, one after the other. The index of a level is made while the one above it is
/// refined; a level is dropped when it is left. Answers the file's hypergraph, the clusterings, and the
/// partition of the file, and logs the rounds.
///
/// There are 2 to 256 blocks and 1 to 64 workers. The refiners are of different kinds. Where there is
/// no memory, the log has whole rounds alone.
fn refine_down<R: Threads + Sync>(
    rt: &R,
    alloc: Global,
    stack: LevelStack,
    start: Start,
    k: u32,
    limit: u64,
    workers: u32,
    seed: u64,
    refiners: &mut [Box<dyn Refiner>],
    log: &mut Log,
) -> Result<(Hypergraph, MapStack, Partition), NoMemory>
    requires some { 2 ≤ k }
    requires few { k ≤ 256 }
    requires levels { ArePartable stack k }
    requires on_level { start.level ≤ length stack.maps }
    requires start { IsSound (level_of stack start.level) k limit start.blocks }
    requires workers { (1 ≤ workers) × (workers ≤ 64) }
    requires may_run { All (λ b. may_run b) refiners.old }
    requires kinds { AllPairs (λ a b. a ≢ b) (map (λ b. kind b) refiners.old) }
    requires tallied { All (λ b. ((tally b).rounds < 2 ^ 61) × ((tally b).gain < 2 ^ 61)) refiners.old }
    ensures may_run { All (λ b. may_run b) refiners.new }
    ensures kinds { map (λ b. kind b) refiners.new ≡ map (λ b. kind b) refiners.old }
    ensures base { IfOk result (λ r. r.0 ≡ stack.base) }
    ensures maps { IfOk result (λ r. r.1 ≡ stack.maps) }
    ensures down { IfOk result (λ r. RefinesDown (map (λ b. kind b) refiners.old) stack start.level start.blocks k
        limit workers (map (λ b. tally b) refiners.old) (map (λ b. tally b) refiners.new) log.old log.new r.2) }
{
    let Start { level: top, blocks } = start;
    let mut levels = stack.down_from(rt, alloc, top, workers as usize)?;
    let h = levels.level();
    let _vertices = h.vertices();
    let mut part = Partition::of(alloc, h, k, limit, blocks)?;
    for above in 0..top {
        let task = Task {
            level: top - above,
            workers,
            seed,
        };
        let (below, refined) = refine_and_leave(rt, alloc, levels, &task, part, refiners, log)?;
        levels = below;
        let h = levels.level();
        let _vertices = h.vertices();
        part = refined.project_with(rt, alloc, h, levels.map(), workers)?;
    }
    let task = Task {
        level: 0,
        workers,
        seed,
    };
    part = refine_level(alloc, levels.level(), &task, part, refiners, log)?;
    let (base, maps) = levels.into_base();
    Ok((base, maps, part))
}

/// Refines a first partition down to the file: on each level each refiner makes a pass, one after the
/// other, and between two levels the partition is projected. A level is dropped when it is left.
/// Answers the file's hypergraph, its partition, and the trace, which has all but the end: its choice is
/// the levels', and no sweep follows.
///
/// There are 2 to 256 blocks and 1 to 64 workers. The refiners are of different kinds. Each tallies
/// the rounds of its kind. Where there is no memory, the stack is dropped, and the refiners may have
/// been changed.
pub fn uncoarsen<R: Threads + Sync>(
    rt: &R,
    alloc: Global,
    stack: LevelStack,
    stop: Stop,
    start: Start,
    k: u32,
    limit: u64,
    workers: u32,
    seed: u64,
    refiners: &mut [Box<dyn Refiner>],
) -> Result<(Hypergraph, Partition, Trace), NoMemory>
    requires some { 2 ≤ k }
    requires few { k ≤ 256 }
    requires levels { ArePartable stack k }
    requires on_level { start.level ≤ length stack.maps }
    requires start { IsSound (level_of stack start.level) k limit start.blocks }
    requires workers { (1 ≤ workers) × (workers ≤ 64) }
    requires may_run { All (λ b. may_run b) refiners.old }
    requires kinds { AllPairs (λ a b. a ≢ b) (map (λ b. kind b) refiners.old) }
    requires tallied { All (λ b. ((tally b).rounds < 2 ^ 61) × ((tally b).gain < 2 ^ 61)) refiners.old }
    ensures may_run { All (λ b. may_run b) refiners.new }
    ensures kinds { map (λ b. kind b) refiners.new ≡ map (λ b. kind b) refiners.old }
    ensures hypergraph { IfOk result (λ r. r.0 ≡ stack.base) }
    ensures partition { IfOk result (λ r. r.1 ≡ record {
      hyper = stack.base;
      k = k;
      limit = limit;
      blocks = r.2.last;
    }) }
    ensures sound { IfOk result (λ r. IsSound stack.base k limit r.2.last) }
    ensures trace { IfOk result (λ r. IsRefinedDown (map (λ b. kind b) refiners.old) stack stop start.level
        start.blocks k limit workers r.2) }
    ensures tallies { IfOk result (λ r. map (λ b. tally b) refiners.new ≡ tallies_with r.2.rounds
        (map (λ b. kind b) refiners.old) (map (λ b. tally b) refiners.old)) }
{
    let first = start.blocks.copy()?;
    let level = start.level;
    let mut log = Log::new(alloc);
    let (base, maps, part) = refine_down(
        rt, alloc, stack, start, k, limit, workers, seed, refiners, &mut log,
    )?;
    let last = Blocks::from_vec(part.blocks().to_vec(alloc)?);
    let trace = Trace {
        maps,
        stop,
        start: level,
        first,
        rounds: log.into_rounds(),
        last,
        chosen: Chosen::Levels,
    };
    Ok((base, part, trace))
}
