//! A raced round.

ghost use Rattle.std.specs.Prelude.{◌≡◌, ◌<◌, ◌≤◌, true, length, vec_len, IfOk, OnErr};
ghost use Rattle.hg_defs.specs.Hypergraph.{vertex_count};
ghost use Rattle.hg_defs.specs.Partition.{Fits};
ghost use Rattle.hg_defs.specs.Cost as costs;
ghost use Rattle.hg_defs.specs.Replay.{replay};
ghost use Rattle.move_table.specs.Closing.{ArePassesOf};
ghost use Rattle.label_prop.specs.Workers.{IsIdlePass};
ghost use Rattle.label_prop.specs.LabelRounds.{LogsLabelRound};

use crate::marks::mark_undone;
use crate::shared::Shared;
use crate::worker::visit_run;
use crew::{Gate, each};
use hg_base::{Items, NoMemory};
use incidence::Hypergraph;
use move_table::{Closed, Pass, Passes, Round};
use pin_plain::Partition;
use refiner::{Log, Task};
use round_log::Kind;
use std::alloc::Global;
use std::sync::atomic::Ordering::SeqCst;
use std::sync::atomic::{AtomicBool, AtomicUsize};
use std::thread::Threads;

/// Lets each pass of a round visit marked vertices, of its run first, all at once. Answers the passes, or none where
/// a worker had no memory.
fn visit_all<H: Threads + Sync, G: Gate>(
    rt: &H,
    gate: &G,
    shared: &Shared<'_>,
    passes: Passes,
) -> Result<Passes, NoMemory>
    requires passes { ArePassesOf shared.now.round.now passes }
    ensures { IfOk result (λ done. ArePassesOf shared.now.round.now done) }
{
    let mut passes = passes.into_vec();
    each(
        rt,
        passes.as_mut_slice(),
        &|i, pass: &mut Pass|
            requires { (i < shared.now.workers) × IsIdlePass shared.now.round.now i pass.now }
            ensures { IsIdlePass shared.entry.now.round.now i pass.exit.now }
        {
            visit_run(shared, pass, gate, i as u32);
        },
    );
    if shared.refused.load(SeqCst) {
        return Err(NoMemory);
    }
    Ok(Items::from_vec(passes))
}

/// Counters of what is taken of the runs of so many workers, all 0.
fn none_taken(alloc: Global, workers: u32) -> Result<Vec<AtomicUsize>, NoMemory>
    ensures { IfOk result (λ taken. vec_len taken ≡ workers) }
{
    let mut taken = Vec::with_capacity(alloc, workers as usize)?;
    for _ in 0..workers {
        taken.push(AtomicUsize::new(0))?;
    }
    Ok(taken)
}

/// Opens a round over a partition that fits and has this cost, lets the workers visit the marked vertices, and closes
/// it.
fn close_race<H: Threads + Sync, G: Gate>(
    rt: &H,
    gate: &G,
    alloc: Global,
    h: &Hypergraph,
    p: Partition,
    cost: u64,
    workers: u32,
    marks: &[AtomicBool],
) -> Result<Closed, NoMemory>
    requires belongs { p.hyper ≡ h.now }
    requires marks { length marks.now ≡ vertex_count h.now }
    requires fits { Fits h.now p.k p.limit p.blocks }
    requires cost { cost ≡ costs.cost h.now p.blocks }
    requires some { 1 ≤ workers }
    requires few { workers ≤ 64 }
    ensures opening { IfOk result (λ c. c.opening ≡ p.blocks) }
    ensures part { IfOk result (λ c. c.part ≡ record p { blocks = replay c.opening c.moves }) }
    ensures gains { IfOk result (λ c. length c.gains ≡ workers) }
{
    let (_blocks, _vertices) = (p.blocks(), h.vertices());
    let (k, limit) = (p.k(), p.limit());
    let Ok((round, passes)) = Round::open_at(rt, alloc, h, p, workers, cost) else {
        return Err(NoMemory);
    };
    let taken = none_taken(alloc, workers)?;
    let shared = Shared {
        round: &round,
        h,
        k,
        workers,
        limit,
        marks,
        taken: taken.as_slice(),
        refused: &AtomicBool::new(false),
    };
    let passes = visit_all(rt, gate, &shared, passes)?;
    let Ok(closed) = round.close(rt, alloc, passes) else {
        return Err(NoMemory);
    };
    Ok(closed)
}

/// Makes a raced round from a partition that fits and has this cost, rolls it back to its best prefix, and logs it.
/// Answers the partition after the moves that were kept, and what they saved. Marked are then the vertices for which
/// the moves may have changed something since they were visited. Where there is no memory, nothing is logged.
pub(crate) fn race_round<H: Threads + Sync, G: Gate>(
    rt: &H,
    gate: &G,
    alloc: Global,
    h: &Hypergraph,
    task: &Task,
    p: Partition,
    cost: u64,
    marks: &[AtomicBool],
    log: &mut Log,
) -> Result<(Partition, u64), NoMemory>
    requires belongs { p.hyper ≡ h.now }
    requires fits { Fits h.now p.k p.limit p.blocks }
    requires cost { cost ≡ costs.cost h.now p.blocks }
    requires workers { (1 ≤ task.now.workers) × (task.now.workers ≤ 64) }
    requires marks { length marks.now ≡ vertex_count h.now }
    ensures ok { IfOk result (λ r. LogsLabelRound true h.now task.now p log.old log.new r.1 r.0) }
    ensures err { OnErr result (log.new ≡ log.old) }
{
    let _blocks = p.blocks();
    let closed = close_race(rt, gate, alloc, h, p, cost, task.workers, marks)?;
    let part = log.race(rt, alloc, h, Kind::Label, task.level, closed)?;
    let rounds = log.rounds();
    let round = &rounds[rounds.len() - 1];
    mark_undone(h, marks, round.moves.slice(), round.kept);
    let saved = round.before.saturating_sub(round.after);
    Ok((part, saved))
}
