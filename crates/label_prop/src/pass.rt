//! A whole pass.

ghost use Rattle.std.specs.Prelude.{◌≡◌, ◌+◌, ◌<◌, ◌≤◌, ◌^◌, IfOk, OnErr, false};
ghost use Rattle.hg_defs.specs.Partition.{Fits};
ghost use Rattle.refiner.specs.Logging.{LogsPass, LogsRounds};
ghost use Rattle.round_log.specs.declared.record.Kind.TheVariants.{Label};

use crate::marks::{all_marked, mark_all};
use crate::race::race_round;
use crate::settled::is_settled;
use crate::sweep::sweep_round;
use crew::Gate;
use hg_base::NoMemory;
use incidence::Hypergraph;
use pin_plain::Partition;
use refiner::{Log, Tally, Task};
use std::alloc::Global;
use std::thread::Threads;

/// So many rounds of a pass make the partition cheaper at most.
const MOST_LOWERING: u32 = 8;

/// Counts a round that saved something, or nothing.
fn count(tally: &mut Tally, saved: u64)
    requires rounds { tally.old.rounds + 1 < 2 ^ 64 }
    requires gain { tally.old.gain + saved < 2 ^ 64 }
    ensures { tally.new ≡ record { rounds = tally.old.rounds + 1; gain = tally.old.gain + saved } }
{
    tally.rounds += 1;
    tally.gain += saved;
}

/// Makes a pass of label propagation over one level, from a partition that fits, and logs its rounds.
/// Answers the partition after them. The workers of a raced round pass the gate before each vertex.
///
/// While the partition isn't settled, and fewer than eight rounds made it cheaper, a round is raced and
/// rolled back to its best prefix; where it didn't make the partition cheaper, the next round is a sweep.
/// Many moves of a raced round are made on the partition by threads, and a sweep begins with threads that
/// mark the vertices that need no visit.
/// Where there is no memory, the rounds that were logged are the first ones of a pass, each of them whole,
/// the tally counts just them, and the partition is dropped.
pub fn label_pass<H: Threads + Sync, G: Gate>(
    rt: &H,
    gate: &G,
    tally: &mut Tally,
    alloc: Global,
    h: &Hypergraph,
    task: &Task,
    p: Partition,
    log: &mut Log,
) -> Result<Partition, NoMemory>
    requires belongs { p.hyper ≡ h.now }
    requires fits { Fits h.now p.k p.limit p.blocks }
    requires workers { (1 ≤ task.now.workers) × (task.now.workers ≤ 64) }
    requires tallied { (tally.old.rounds < 2 ^ 62) × (tally.old.gain < 2 ^ 62) }
    ensures pass { IfOk result (λ q. LogsPass Label h.now task.now p tally.old tally.new log.old log.new q) }
    ensures part { OnErr result (LogsRounds false Label h.now task.now p tally.old tally.new log.old log.new) }
{
    let _blocks = p.blocks();
    let marks = all_marked(alloc, h)?;
    let mut part = p;
    let mut cost = part.cost_with(rt, h, task.workers);
    'turns: for _ in 0..MOST_LOWERING {
        let settled = is_settled(rt, alloc, h, &part, task.workers, marks.as_slice())?;
        if settled {
            return Ok(part);
        }
        let (raced, saved) = race_round(
            rt,
            gate,
            alloc,
            h,
            task,
            part,
            cost,
            marks.as_slice(),
            log,
        )?;
        count(tally, saved);
        part = raced;
        cost -= saved;
        if saved == 0 {
            let Some(saved) = sweep_round(rt, alloc, h, task, &mut part, cost, log)? else {
                return Ok(part);
            };
            count(tally, saved);
            cost -= saved;
            mark_all(marks.as_slice());
        }
    }
    Ok(part)
}
