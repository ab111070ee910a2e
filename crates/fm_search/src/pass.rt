//! A pass of localized searches over one level.

ghost use Rattle.std.specs.Prelude.{◌≡◌, ◌+◌, ◌<◌, ◌≤◌, ◌^◌, IfOk, OnErr, All, length, false};
ghost use Rattle.hg_defs.specs.Partition.{Fits};
ghost use Rattle.hg_defs.specs.Cost as costs;
ghost use Rattle.round_log.specs.declared.record.Kind.TheVariants.{Search};
ghost use Rattle.round_log.specs.declared.record.LoggedRound.{LoggedRound};
ghost use Rattle.round_log.specs.Passes.{saved, HasPossible};
ghost use Rattle.refiner.specs.Logging.{LogsPass, LogsRounds};
ghost use Rattle.fm_search.specs.Memory.{IsMemoryFor};
ghost use Rattle.fm_search.specs.Logging.{LogsSearchRound, TalliesRound, last_of};

use crate::memory::Memory;
use crate::possible::{first_possible, is_possible};
use crate::race::race;
use crate::single::single_round;
use crew::Gate;
use hg_base::{Items, NoMemory};
use incidence::Hypergraph;
use pin_plain::Partition;
use refiner::{Log, Tally, Task};
use round_log::Kind;
use std::alloc::Global;
use std::thread::Threads;

/// A pass makes so many rounds at most.
const MOST_ROUNDS: u32 = 4;

/// Makes one round of a partition of this cost, where a move is possible, and logs it: a raced one, or the plain one of
/// the first possible move where the race moved nothing. Where there is no memory, nothing is logged.
fn log_round<H: Threads + Sync, G: Gate>(
    rt: &H,
    gate: &G,
    alloc: Global,
    h: &Hypergraph,
    task: &Task,
    p: Partition,
    cost: u64,
    log: &mut Log,
    memory: &mut Memory,
) -> Result<Partition, NoMemory>
    requires belongs { p.hyper ≡ h.now }
    requires fits { Fits h.now p.k p.limit p.blocks }
    requires cost { cost ≡ costs.cost h.now p.blocks }
    requires workers { (1 ≤ task.now.workers) × (task.now.workers ≤ 64) }
    requires memory { IsMemoryFor p.k memory.old }
    requires possible { HasPossible h.now p.k p.limit p.blocks }
    ensures round { IfOk result (λ q. LogsSearchRound h.now task.now p q log.old log.new) }
    ensures memory { IsMemoryFor p.k memory.new }
    ensures err { OnErr result (log.new ≡ log.old) }
{
    let _parted = p.blocks();
    let closed = race(rt, gate, alloc, h, task, p, cost, memory)?;
    if !closed.moves().is_empty() {
        return log.race(rt, alloc, h, Kind::Search, task.level, closed);
    }
    let mut part = closed.into_part();
    let Some(first) = first_possible(h, &part) else {
        unreachable!()
    };
    let round = single_round(rt, alloc, h, task.level, &mut part, cost, first)?;
    let mut rounds = Items::new(alloc);
    rounds.push(round)?;
    log.add(rounds)?;
    Ok(part)
}

/// Tallies the last round of a log, and answers how many of its moves it kept, and the cost after these.
fn tally_last(log: &Log, tally: &mut Tally) -> (u32, u64)
    requires some { 0 < length log.now }
    requires lower { (d : LoggedRound) → (last_of log.now d).after ≤ (last_of log.now d).before }
    requires room { (d : LoggedRound) → tally.old.gain + (last_of log.now d).before < 2 ^ 63 }
    requires few { tally.old.rounds < 2 ^ 63 }
    ensures kept { (d : LoggedRound) → result.0 ≡ (last_of log.now d).kept }
    ensures after { (d : LoggedRound) → result.1 ≡ (last_of log.now d).after }
    ensures count { tally.new.rounds ≡ tally.old.rounds + 1 }
    ensures gain { (d : LoggedRound) → tally.new.gain ≡ tally.old.gain + saved (last_of log.now d) }
{
    let rounds = log.rounds();
    let last = &rounds[rounds.len() - 1];
    tally.rounds += 1;
    tally.gain += last.before - last.after;
    (last.kept, last.after)
}

/// Makes one round of a partition of this cost, logs and tallies it, and answers how many of its moves it kept, and the
/// cost after these, beside the partition after them.
fn search_round<H: Threads + Sync, G: Gate>(
    rt: &H,
    gate: &G,
    tally: &mut Tally,
    alloc: Global,
    h: &Hypergraph,
    task: &Task,
    p: Partition,
    cost: u64,
    log: &mut Log,
    memory: &mut Memory,
) -> Result<(Partition, u32, u64), NoMemory>
    requires belongs { p.hyper ≡ h.now }
    requires fits { Fits h.now p.k p.limit p.blocks }
    requires cost { cost ≡ costs.cost h.now p.blocks }
    requires workers { (1 ≤ task.now.workers) × (task.now.workers ≤ 64) }
    requires memory { IsMemoryFor p.k memory.old }
    requires possible { HasPossible h.now p.k p.limit p.blocks }
    requires tallied { (tally.old.rounds < 2 ^ 62 + 4) × (tally.old.gain < 2 ^ 62 + 2 ^ 59) }
    ensures round { IfOk result (λ r. TalliesRound h.now task.now p r.0 log.old log.new tally.old tally.new r.1) }
    ensures cost { IfOk result (λ r. r.2 ≡ costs.cost h.now r.0.blocks) }
    ensures memory { IsMemoryFor p.k memory.new }
    ensures err { OnErr result ((log.new ≡ log.old) × (tally.new ≡ tally.old)) }
{
    let part = log_round(rt, gate, alloc, h, task, p, cost, log, memory)?;
    let (kept, after) = tally_last(log, tally);
    Ok((part, kept, after))
}

/// Makes a pass of localized searches over a level, from a partition that fits, and logs its rounds. Answers
/// the partition after them.
///
/// A round is made while a move is possible, fewer than four were made, and the one before kept a move. The
/// workers pass the gate before each seed that they draw. Where there is no memory, the rounds that were logged
/// are the first ones of a pass, the tally counts just them, and the partition is dropped.
pub fn search_pass<H: Threads + Sync, G: Gate>(
    rt: &H,
    gate: &G,
    tally: &mut Tally,
    alloc: Global,
    h: &Hypergraph,
    task: &Task,
    p: Partition,
    log: &mut Log,
) -> Result<Partition, NoMemory>
    requires belongs { p.hyper ≡ h.now }
    requires fits { Fits h.now p.k p.limit p.blocks }
    requires workers { (1 ≤ task.now.workers) × (task.now.workers ≤ 64) }
    requires tallied { (tally.old.rounds < 2 ^ 62) × (tally.old.gain < 2 ^ 62) }
    ensures pass { IfOk result (λ q. LogsPass Search h.now task.now p tally.old tally.new log.old log.new q) }
    ensures part { OnErr result (LogsRounds false Search h.now task.now p tally.old tally.new log.old log.new) }
{
    let mut cost = p.cost_with(rt, h, task.workers);
    let mut part = p;
    let mut memory = Memory::new(alloc);
    'rounds: for _ in 0..MOST_ROUNDS {
        if !is_possible(h, &part) {
            return Ok(part);
        }
        let (next, kept, after) = search_round(
            rt,
            gate,
            tally,
            alloc,
            h,
            task,
            part,
            cost,
            log,
            &mut memory,
        )?;
        part = next;
        cost = after;
        if kept == 0 {
            return Ok(part);
        }
    }
    Ok(part)
}
