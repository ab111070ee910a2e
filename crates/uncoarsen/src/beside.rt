//! The refinement of a level, while the index of the one below it is made.

ghost use Rattle.std.specs.Prelude.{◌≡◌, ◌≢◌, ◌-◌, ◌≤◌, ◌<◌, ◌^◌, All, AllPairs, IfOk, IfSome, IsSome, Some, map};
ghost use Rattle.std.specs.Thread.{IsSync};
ghost use Rattle.hg_defs.specs.Levels.{level};
ghost use Rattle.round_log.specs.TraceLaws.{IsSound};
ghost use Rattle.uncoarsen.specs.Passing.{RefinesLevel};

use crate::passes::refine_level;
use hg_base::NoMemory;
use incidence::Hypergraph;
use level_stack::{LevelsBelow, LevelsDown};
use pin_plain::Partition;
use refiner::{Log, Refiner, Task};
use std::alloc::Global;
use std::thread::{Threads, join_mut};

/// Goes down to the coarsest of some levels, and makes its index in this thread alone.
fn enter_taken<R: Threads + Sync>(
    rt: &R,
    alloc: Global,
    below: &mut Option<LevelsBelow>,
) -> Result<LevelsDown, NoMemory>
    requires { IsSome below.old }
    ensures { IfOk result (λ down. below.old ≡ Some down) }
{
    let Some(levels) = below.take() else {
        unreachable!()
    };
    levels.enter(rt, alloc, 1)
}

/// Does what [`refine_level`] does with a partition that it takes.
fn refine_taken(
    alloc: Global,
    h: &Hypergraph,
    task: &Task,
    part: &mut Option<Partition>,
    log: &mut Log,
    refiners: &mut [Box<dyn Refiner>],
) -> Result<Partition, NoMemory>
    requires some { IsSome part.old }
    requires may_run { All (λ b. may_run b) refiners.old }
    requires kinds { AllPairs (λ a b. a ≢ b) (map (λ b. kind b) refiners.old) }
    requires belongs { IfSome part.old (λ p. p.hyper ≡ h.now) }
    requires sound { IfSome part.old (λ p. IsSound h.now p.k p.limit p.blocks) }
    requires workers { (1 ≤ task.now.workers) × (task.now.workers ≤ 64) }
    requires tallied { All (λ b. ((tally b).rounds < 2 ^ 62) × ((tally b).gain < 2 ^ 62)) refiners.old }
    ensures may_run { All (λ b. may_run b) refiners.new }
    ensures kinds { map (λ b. kind b) refiners.new ≡ map (λ b. kind b) refiners.old }
    ensures level { IfOk result (λ q. IfSome part.old (λ p. RefinesLevel (map (λ b. kind b) refiners.old) h.now task.now
        p (map (λ b. tally b) refiners.old) (map (λ b. tally b) refiners.new) log.old log.new q)) }
{
    let Some(part) = part.take() else {
        unreachable!()
    };
    refine_level(alloc, h, task, part, refiners, log)
}

/// Refines a level in this thread, and goes down to the coarsest of those below it in a new one.
fn beside<R: Threads + Sync>(
    rt: &R,
    alloc: Global,
    h: &Hypergraph,
    below: LevelsBelow,
    task: &Task,
    part: Partition,
    refiners: &mut [Box<dyn Refiner>],
    log: &mut Log,
) -> Result<(LevelsDown, Partition), NoMemory>
    requires may_run { All (λ b. may_run b) refiners.old }
    requires kinds { AllPairs (λ a b. a ≢ b) (map (λ b. kind b) refiners.old) }
    requires belongs { part.hyper ≡ h.now }
    requires sound { IsSound h.now part.k part.limit part.blocks }
    requires workers { (1 ≤ task.now.workers) × (task.now.workers ≤ 64) }
    requires tallied { All (λ b. ((tally b).rounds < 2 ^ 62) × ((tally b).gain < 2 ^ 62)) refiners.old }
    ensures may_run { All (λ b. may_run b) refiners.new }
    ensures kinds { map (λ b. kind b) refiners.new ≡ map (λ b. kind b) refiners.old }
    ensures down { IfOk result (λ r. r.0 ≡ below) }
    ensures level { IfOk result (λ r. RefinesLevel (map (λ b. kind b) refiners.old) h.now task.now part
        (map (λ b. tally b) refiners.old) (map (λ b. tally b) refiners.new) log.old log.new r.1) }
{
    let mut levels = Some(below);
    let mut parts = Some(part);
    let mut front = ||
        requires { IsSync R.row × IsSome levels }
        ensures { IfOk result (λ down. levels.entry ≡ Some down) }
    { enter_taken(rt, alloc, &mut levels) };
    let mut back = ||
        requires some { IsSome parts }
        requires may_run { All (λ b. may_run b) refiners.now }
        requires kinds { AllPairs (λ a b. a ≢ b) (map (λ b. kind b) refiners.now) }
        requires belongs { IfSome parts (λ p. p.hyper ≡ h.now) }
        requires sound { IfSome parts (λ p. IsSound h.now p.k p.limit p.blocks) }
        requires workers { (1 ≤ task.now.workers) × (task.now.workers ≤ 64) }
        requires tallied { All (λ b. ((tally b).rounds < 2 ^ 62) × ((tally b).gain < 2 ^ 62)) refiners.now }
        ensures may_run { All (λ b. may_run b) refiners.exit.now }
        ensures kinds { map (λ b. kind b) refiners.exit.now ≡ map (λ b. kind b) refiners.entry.now }
        ensures level { IfOk result (λ q. IfSome parts.entry (λ p. RefinesLevel (map (λ b. kind b) refiners.entry.now)
            h.entry.now task.entry.now p (map (λ b. tally b) refiners.entry.now) (map (λ b. tally b) refiners.exit.now)
            log.entry.now log.exit.now q)) }
    { refine_taken(alloc, h, task, &mut parts, log, refiners) };
    let (down, refined) = join_mut(rt, &mut front, &mut back);
    Ok((down?, refined?))
}

/// Refines the level that a descent is on, and takes the descent to the level below, whose index is made
/// meanwhile. One worker does one after the other, and starts no thread.
pub(crate) fn refine_and_leave<R: Threads + Sync>(
    rt: &R,
    alloc: Global,
    levels: LevelsDown,
    task: &Task,
    part: Partition,
    refiners: &mut [Box<dyn Refiner>],
    log: &mut Log,
) -> Result<(LevelsDown, Partition), NoMemory>
    requires above { 0 < levels.number }
    requires may_run { All (λ b. may_run b) refiners.old }
    requires kinds { AllPairs (λ a b. a ≢ b) (map (λ b. kind b) refiners.old) }
    requires belongs { part.hyper ≡ level levels.base levels.maps levels.number }
    requires sound { IsSound part.hyper part.k part.limit part.blocks }
    requires workers { (1 ≤ task.now.workers) × (task.now.workers ≤ 64) }
    requires tallied { All (λ b. ((tally b).rounds < 2 ^ 62) × ((tally b).gain < 2 ^ 62)) refiners.old }
    ensures may_run { All (λ b. may_run b) refiners.new }
    ensures kinds { map (λ b. kind b) refiners.new ≡ map (λ b. kind b) refiners.old }
    ensures down { IfOk result (λ r. r.0 ≡ record levels { number = levels.number - 1 }) }
    ensures level { IfOk result (λ r. RefinesLevel (map (λ b. kind b) refiners.old) part.hyper task.now part
        (map (λ b. tally b) refiners.old) (map (λ b. tally b) refiners.new) log.old log.new r.1) }
{
    let (h, below) = levels.leave();
    if task.workers > 1 {
        return beside(rt, alloc, &h, below, task, part, refiners, log);
    }
    let refined = refine_level(alloc, &h, task, part, refiners, log)?;
    drop(h);
    let down = below.enter(rt, alloc, 1)?;
    Ok((down, refined))
}
