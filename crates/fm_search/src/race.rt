//! A round that workers race.

ghost use Rattle.std.specs.Prelude.{◌≡◌, ◌<◌, ◌≤◌, IfOk, All, length, map};
ghost use Rattle.hg_defs.specs.Partition.{Fits};
ghost use Rattle.hg_defs.specs.Cost as costs;
ghost use Rattle.hg_defs.specs.Replay.{replay};
ghost use Rattle.move_core.specs.declared.account.Stage.TheVariants.{Idle};
ghost use Rattle.fm_search.specs.Standing.{standing_of};
ghost use Rattle.fm_search.specs.Memory.{IsMemoryFor};
ghost use Rattle.fm_search.specs.Workers.{AreWorkers, AreFreshWorkers, IsWorkerAt, IsFreshAt};

use crate::begin::open_round;
use crate::desk::Desk;
use crate::lots::lot_size;
use crate::memory::Memory;
use crate::mover::Mover;
use crate::opening::Known;
use crate::progress::Progress;
use crate::seeds::first_place;
use crate::shared::Shared;
use crate::told::Told;
use crate::worker::Worker;
use crew::{Gate, each};
use hg_base::{Items, NoMemory};
use incidence::Hypergraph;
use move_table::{Closed, Passes};
use pin_plain::Partition;
use refiner::Task;
use std::alloc::Global;
use std::thread::Threads;

/// The memory of a worker: one that was used before, or else a new one.
fn desk_for(alloc: Global, h: &Hypergraph, k: u32, desks: &mut Vec<Desk>) -> Result<Desk, NoMemory>
    requires few { k ≤ 256 }
    requires desks { All (λ d. d.blocks ≡ k) desks.old.items }
    ensures desk { IfOk result (λ d. d.blocks ≡ k) }
    ensures desks { All (λ d. d.blocks ≡ k) desks.new.items }
{
    match desks.pop() {
        Some(desk) => Ok(desk),
        None => Desk::make(alloc, h, k),
    }
}

/// Gives each pass the memory of a worker.
fn workers_of(
    alloc: Global,
    h: &Hypergraph,
    k: u32,
    passes: Passes,
    desks: &mut Vec<Desk>,
) -> Result<Vec<Worker>, NoMemory>
    requires few { k ≤ 256 }
    requires idle { All (λ p. p.view.account.stage ≡ Idle) passes }
    requires desks { All (λ d. d.blocks ≡ k) desks.old.items }
    ensures movers { IfOk result (λ workers. map (λ w. w.mover) workers.items ≡ map standing_of passes) }
    ensures blocks { IfOk result (λ workers. All (λ w. w.desk.blocks ≡ k) workers.items) }
    ensures desks { All (λ d. d.blocks ≡ k) desks.new.items }
{
    let mut workers = Vec::with_capacity(alloc, passes.len())?;
    'passes: for pass in passes.into_vec() {
        let desk = desk_for(alloc, h, k, desks)?;
        workers.push(Worker {
            mover: Mover::of(pass),
            desk,
            made: 0,
            apart: [0; 16],
        })?;
    }
    Ok(workers)
}

/// Takes the passes and the memory of the workers apart.
fn passes_of(
    alloc: Global,
    workers: Vec<Worker>,
    k: u32,
    desks: &mut Vec<Desk>,
) -> Result<Passes, NoMemory>
    requires blocks { All (λ w. w.desk.blocks ≡ k) workers.items }
    requires desks { All (λ d. d.blocks ≡ k) desks.old.items }
    ensures movers { IfOk result (λ passes. map standing_of passes ≡ map (λ w. w.mover) workers.items) }
    ensures idle { IfOk result (λ passes. All (λ p. p.view.account.stage ≡ Idle) passes) }
    ensures desks { All (λ d. d.blocks ≡ k) desks.new.items }
{
    let mut passes = Vec::with_capacity(alloc, workers.len())?;
    'workers: for worker in workers {
        let Worker {
            mover,
            desk,
            made: _,
            apart: _,
        } = worker;
        passes.push(mover.into_pass())?;
        desks.push(desk)?;
    }
    Ok(Items::from_vec(passes))
}

/// Lets each worker search, all at once.
fn search_all<H: Threads + Sync, G: Gate>(
    rt: &H,
    gate: &G,
    shared: &Shared<'_>,
    workers: &mut [Worker],
)
    requires fresh { AreFreshWorkers shared.now.round.now shared.now.k workers.old }
    requires few { length workers.old ≤ 64 }
    ensures workers { AreWorkers shared.now.round.now shared.now.k workers.new }
    ensures same { length workers.new ≡ length workers.old }
{
    each(
        rt,
        workers,
        &|i, worker: &mut Worker|
            requires { (i < 64) × IsFreshAt shared.now.round.now shared.now.k i worker.now }
            ensures { IsWorkerAt shared.entry.now.round.now shared.entry.now.k i worker.exit.now }
        { worker.run(shared, gate, i as u32) },
    );
}

/// Lets workers search from the vertices on cut nets of a partition of this cost, all at once, and closes the round.
pub(crate) fn race<H: Threads + Sync, G: Gate>(
    rt: &H,
    gate: &G,
    alloc: Global,
    h: &Hypergraph,
    task: &Task,
    p: Partition,
    cost: u64,
    memory: &mut Memory,
) -> Result<Closed, NoMemory>
    requires belongs { p.hyper ≡ h.now }
    requires fits { Fits h.now p.k p.limit p.blocks }
    requires cost { cost ≡ costs.cost h.now p.blocks }
    requires workers { (1 ≤ task.now.workers) × (task.now.workers ≤ 64) }
    requires memory { IsMemoryFor p.k memory.old }
    ensures opening { IfOk result (λ c. c.opening ≡ p.blocks) }
    ensures part { IfOk result (λ c. c.part ≡ record p { blocks = replay c.opening c.moves }) }
    ensures gains { IfOk result (λ c. length c.gains ≡ task.now.workers) }
    ensures memory { IsMemoryFor p.k memory.new }
{
    let (k, limit) = (p.k(), p.limit());
    let (round, passes, seeds) = open_round(
        rt,
        alloc,
        h,
        p,
        cost,
        task.workers,
        &mut memory.openings,
    )?;
    let first = first_place(seeds.len(), task.seed, task.level);
    let mut workers = workers_of(alloc, h, k, passes, &mut memory.desks)?;
    let progress = Progress::new();
    let told = Told::none(alloc, h.vertices())?;
    let shared = Shared {
        round: &round,
        h,
        k,
        limit,
        workers: task.workers,
        seeds: seeds.as_slice(),
        first,
        lot_size: lot_size(h, seeds.as_slice(), task.workers, k),
        progress: &progress,
        known: Known {
            openings: memory.openings.all.as_slice(),
            rows: memory.openings.rows.as_slice(),
        },
        told: &told,
    };
    search_all(rt, gate, &shared, workers.as_mut_slice());
    if progress.is_stopped() {
        return Err(NoMemory);
    }
    let passes = passes_of(alloc, workers, k, &mut memory.desks)?;
    match round.close(rt, alloc, passes) {
        Ok(closed) => Ok(closed),
        Err(_) => Err(NoMemory),
    }
}
