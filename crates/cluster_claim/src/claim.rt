//! Clustering by many workers at once.

ghost use Rattle.std.specs.Prelude.{◌≡◌, ◌+◌, ◌-◌, ◌*◌, ◌^◌, ◌<◌, ◌≤◌, ℕ, All, IfOk, [], ◌++◌};
ghost use Rattle.std.specs.Prelude.{length, map, replicate, slice_index, vec_len};
ghost use Rattle.std.specs.List.{range_with_len};
ghost use Rattle.std.specs.Slots.{slots_items, slots_len, IsFull};
ghost use Rattle.hg_defs.specs.Hypergraph.{vertex_count, IsWithinLimits};
ghost use Rattle.cluster_core.specs.declared.account.Stage.TheVariants as stage;
ghost use Rattle.hg_defs.specs.Numbering.{IsRooted};
ghost use Rattle.cluster_core.specs.Roots.{root_in};
ghost use Rattle.cluster_claim.specs.Board.{IsBoard};
ghost use Rattle.cluster_claim.specs.Steps.{IsPass};
ghost use Rattle.cluster_claim.specs.Workers.{IsWorker};

use crate::board::{Balanced, Key, View, Words};
use crate::pass::Pass;
use crate::ratings::Ratings;
use crate::shared::Shared;
use crate::worker::Worker;
use atomic_table::{Closed, Table};
use crew::{Gate, each};
use hg_base::{MapList, NoMemory};
use incidence::Hypergraph;
use std::alloc::Global;
use std::snapshot::Snapshot;
use std::sync::atomic::AtomicUsize;
use std::thread::Threads;

/// The words at the opening: no mark, and for each vertex its weight.
fn words_of(alloc: Global, h: &Hypergraph) -> Result<Vec<u64>, NoMemory>
    ensures { IfOk result (λ words. words.items ≡ replicate (vertex_count h.now) 0 ++ h.now.weights) }
{
    let mut words = vec![in alloc; 0u64; h.vertices() as usize]?;
    words.reserve(h.vertices() as usize)?;
    for v in 0..h.vertices() {
        words.push(h.vertex_weight(v))?;
    }
    Ok(words)
}

/// The table with its first pass.
fn open(
    alloc: Global,
    h: &Hypergraph,
    cap: u64,
    workers: u32,
) -> Result<(Table<(), View, Key, Balanced, Global>, Pass), NoMemory>
    requires vertex { 0 < vertex_count h.now }
    requires some { 1 ≤ workers }
    requires few { workers ≤ 64 }
    ensures board { IfOk result (λ t. IsBoard t.0.shared.key t.0.shared.table_id h.now cap) }
    ensures pass { IfOk result (λ t. IsPass t.0.shared.table_id stage.Idle t.1) }
    ensures spare { IfOk result (λ t. t.1.seat.me.0.spare + 1 ≡ workers) }
{
    let _vertices = h.vertices();
    let key = Key {
        graph: Snapshot::of(h),
        cap,
        workers,
    };
    let words = words_of(alloc, h)?;
    let (table, seat) = Table::of_words(alloc, words.as_slice(), &key)?;
    Ok((table, Pass { seat }))
}

/// Makes a worker with this pass. Its room is taken here, since the memory that a thread takes stays with
/// the thread's arena; the worker fills it.
fn worker_of(alloc: Global, words: &Words, h: &Hypergraph, pass: Pass) -> Result<Worker, NoMemory>
    requires { IsPass words.now.table_id stage.Idle pass }
    ensures { IfOk result (λ worker. IsWorker words.now.table_id (vertex_count h.now) worker) }
{
    Ok(Worker {
        pass,
        ratings: Ratings::room(alloc, h.vertices())?,
        lone: None,
        turn: 0,
        failed: false,
        apart: [0; 16],
    })
}

/// Makes the workers, each with a pass of its own; the first pass makes the others.
fn workers_of(
    alloc: Global,
    words: &Words,
    h: &Hypergraph,
    cap: u64,
    mut pass: Pass,
    workers: u32,
) -> Result<Vec<Worker>, NoMemory>
    requires board { IsBoard words.now.key words.now.table_id h.now cap }
    requires pass { IsPass words.now.table_id stage.Idle pass }
    requires spare { pass.seat.me.0.spare + 1 ≡ workers }
    ensures all { IfOk result (λ made. All (IsWorker words.now.table_id (vertex_count h.now)) made.items) }
    ensures count { IfOk result (λ made. length made.items ≡ workers) }
{
    let mut made = Vec::with_capacity(alloc, workers as usize)?;
    'others: for _ in 1..workers {
        let other = pass.split(words, h, cap);
        made.push(worker_of(alloc, words, h, other)?)?;
    }
    made.push(worker_of(alloc, words, h, pass)?)?;
    Ok(made)
}

/// Counters of what is taken of the runs of so many workers, all 0.
fn none_taken(alloc: Global, workers: u32) -> Result<Vec<AtomicUsize>, NoMemory>
    ensures { IfOk result (λ taken. vec_len taken ≡ workers) }
{
    let mut taken = Vec::with_capacity(alloc, workers as usize)?;
    for _ in 0..workers {
        taken.push(AtomicUsize::new(0))?;
    }
    Ok(taken)
}

/// Lets each worker make its visits, all at once.
fn visit_all<R: Threads + Sync, G: Gate>(rt: &R, gate: &G, shared: &Shared<'_>, made: &mut [Worker])
    requires all { All (IsWorker shared.now.words.now.table_id (vertex_count shared.now.h.now)) made.old }
    requires count { length made.old ≡ shared.now.workers }
    ensures all { All (IsWorker shared.now.words.now.table_id (vertex_count shared.now.h.now)) made.new }
{
    each(
        rt,
        made,
        &|i, worker: &mut Worker|
            requires { (i < shared.now.workers)
                × IsWorker shared.now.words.now.table_id (vertex_count shared.now.h.now) worker.now }
            ensures { IsWorker shared.entry.now.words.now.table_id (vertex_count shared.entry.now.h.now)
                worker.exit.now }
        { worker.run(shared, gate, i as u32) },
    );
}

/// Lets the workers share out the visits of all vertices.
fn race<R: Threads + Sync, G: Gate>(
    rt: &R,
    gate: &G,
    alloc: Global,
    words: &Words,
    h: &Hypergraph,
    cap: u64,
    seed: u64,
    made: &mut [Worker],
) -> Result<(), NoMemory>
    requires board { IsBoard words.now.key words.now.table_id h.now cap }
    requires few { length made.old ≤ 64 }
    requires all { All (IsWorker words.now.table_id (vertex_count h.now)) made.old }
    ensures all { All (IsWorker words.now.table_id (vertex_count h.now)) made.new }
{
    let workers = made.len() as u32;
    let taken = none_taken(alloc, workers)?;
    let shared = Shared {
        words,
        h,
        cap,
        workers,
        seed,
        taken: taken.as_slice(),
    };
    visit_all(rt, gate, &shared, made);
    Ok(())
}

/// Joins the passes of all workers.
fn join_all(words: &Words, h: &Hypergraph, cap: u64, mut made: Vec<Worker>)
    requires board { IsBoard words.now.key words.now.table_id h.now cap }
    requires all { All (IsWorker words.now.table_id (vertex_count h.now)) made.items }
{
    let Some(Worker { mut pass, .. }) = made.pop() else {
        return;
    };
    'rest: while let Some(Worker { pass: other, .. }) = made.pop() {
        pass.take_over(words, h, cap, other);
    }
}

/// The root that the mark of a vertex tells; one that isn't decided is its own root.
fn root_at(mark: u64, vertex: u32) -> u32
    requires { mark < 2 ^ 32 }
    ensures { result ≡ root_in mark vertex }
{
    if mark >= 2 { (mark - 2) as u32 } else { vertex }
}

/// The root that each mark tells.
fn roots_in(alloc: Global, closed: &Closed<(), Global>, vertices: u32) -> Result<MapList, NoMemory>
    requires full { IsFull closed.now.words }
    requires long { vertices ≤ slots_len closed.now.words }
    requires below { (v : ℕ) → v < vertices → slice_index (slots_items closed.now.words) v < 2 ^ 32 }
    ensures { IfOk result (λ roots. roots ≡ map (λ v. root_in (slice_index (slots_items closed.now.words) v) v)
        (range_with_len 0 vertices)) }
{
    let mut roots = Vec::with_capacity(alloc, vertices as usize)?;
    'vertices: for v in 0..vertices {
        let mark = closed.word(v as usize);
        roots.push(root_at(mark, v))?;
    }
    Ok(MapList::from_vec(roots))
}

/// Closes the table and reads the roots off it.
fn close(
    alloc: Global,
    table: Table<(), View, Key, Balanced, Global>,
    h: &Hypergraph,
    cap: u64,
) -> Result<MapList, NoMemory>
    requires { IsBoard table.shared.key table.shared.table_id h.now cap }
    ensures { IfOk result (λ roots. IsRooted h.now cap roots) }
{
    let closed = table.close();
    let roots = roots_in(alloc, &closed, h.vertices());
    closed.free();
    roots
}

/// Clusters a hypergraph with a vertex by 1 to 64 workers at once, and answers a root for each vertex.
///
/// A root is its own root. A cluster of several vertices weighs at most `cap` and has free vertices
/// alone. Each worker visits its run of the vertices in rising number, from a place that the seed
/// tells on, and goes round, and then what is left of the others' runs; it passes the gate before
/// each vertex. A vertex joins the neighbour's cluster with the highest rating that has room: the
/// sum over the nets of 2 to 1,000 pins that name it, each 1,000 times its weight by its other
/// pins. Which worker wins a vertex is left to the threads, so the answer may differ from run to
/// run where there are several.
pub fn cluster<R: Threads + Sync, G: Gate>(
    rt: &R,
    alloc: Global,
    h: &Hypergraph,
    cap: u64,
    workers: u32,
    seed: u64,
    gate: &G,
) -> Result<MapList, NoMemory>
    requires vertex { 0 < vertex_count h.now }
    requires some { 1 ≤ workers }
    requires few { workers ≤ 64 }
    ensures { IfOk result (λ roots. IsRooted h.now cap roots) }
{
    let (table, pass) = open(alloc, h, cap, workers)?;
    let words = &table.shared;
    let mut made = workers_of(alloc, words, h, cap, pass, workers)?;
    race(rt, gate, alloc, words, h, cap, seed, made.as_mut_slice())?;
    let failed = made.iter().any(|worker| worker.failed);
    join_all(words, h, cap, made);
    if failed {
        return Err(NoMemory);
    }
    close(alloc, table, h, cap)
}
