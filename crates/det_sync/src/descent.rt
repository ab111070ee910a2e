//! The descent from the coarsest level down to the file.

ghost use Rattle.std.specs.Prelude.{◌≡◌, ℕ, ◌≤◌, IfOk, Err, length, Some};
ghost use Rattle.hg_defs.specs.Hypergraph.{IsFixedWithin, Suits};
ghost use Rattle.hg_defs.specs.Levels.{level};
ghost use Rattle.hg_defs.specs.Partition.{IsPartition, Fits, Obeys};
ghost use Rattle.hg_defs.specs.Placement as placements;
ghost use Rattle.hg_defs.specs.Cost.{cost};
ghost use Rattle.initial_place.specs.declared.end.PlaceEnd.TheVariants.{NoneFits as none_fits};
ghost use Rattle.round_log.specs.Deterministic.{det_last};
ghost use Rattle.round_log.specs.TraceLaws.{IsSound};
ghost use Rattle.det_sync.specs.Descent.{AreDetLevels, IsDetDescent, IsFirstPlaced, NoneFitsAt, LogsDescent};

use crate::rounds::sync_level;
use hg_base::{Blocks, Items, MapStack, NoMemory};
use incidence::Hypergraph;
use initial_place::{PlaceEnd, named_best};
use level_stack::{LevelStack, LevelsDown};
use pin_plain::Partition;
use round_log::{Chosen, RoundList, Stop, Trace};
use std::alloc::Global;
use std::thread::Threads;

/// The best named placement on the level of a number. That of a finer level than the coarsest one is
/// rare: such a level has no index, so that one is made of a copy, for the placement alone.
fn best_on<R: Threads + Sync>(
    rt: &R,
    alloc: Global,
    stack: &LevelStack,
    i: u32,
    k: u32,
    limit: u64,
    seed: u64,
    workers: u32,
) -> Result<Blocks, PlaceEnd>
    requires level { i ≤ length stack.now.maps }
    requires some { 2 ≤ k }
    requires few { k ≤ 256 }
    requires fixed { IsFixedWithin (level stack.now.base stack.now.maps i) k }
    requires workers { (1 ≤ workers) × (workers ≤ 64) }
    ensures best { IfOk result (λ blocks. placements.named_best (level stack.now.base stack.now.maps i) k limit seed ≡
        Some blocks) }
    ensures none { result ≡ Err PlaceEnd.NoneFits → NoneFitsAt stack.now.base stack.now.maps k limit seed i }
    ensures partition { IfOk result (IsPartition (level stack.now.base stack.now.maps i) k) }
    ensures fixes { IfOk result (Obeys (level stack.now.base stack.now.maps i)) }
{
    if i == stack.depth() - 1 {
        return named_best(rt, alloc, stack.top(), k, limit, seed, workers);
    }
    let copy = stack.level(i).copy(alloc)?;
    let h = Hypergraph::build(alloc, copy)?;
    named_best(rt, alloc, &h, k, limit, seed, workers)
}

/// The coarsest level where a named placement fits, and the best of them there.
fn first_placed<R: Threads + Sync>(
    rt: &R,
    alloc: Global,
    stack: &LevelStack,
    k: u32,
    limit: u64,
    seed: u64,
    workers: u32,
) -> Result<(u32, Blocks), PlaceEnd>
    requires some { 2 ≤ k }
    requires few { k ≤ 256 }
    requires fixed { (i : ℕ) → i ≤ length stack.now.maps → IsFixedWithin (level stack.now.base stack.now.maps i) k }
    requires workers { (1 ≤ workers) × (workers ≤ 64) }
    ensures start { IfOk result (λ start. IsFirstPlaced stack.now.base stack.now.maps k limit seed start.0 start.1) }
    ensures none { result ≡ Err PlaceEnd.NoneFits → (i : ℕ) → i ≤ length stack.now.maps → NoneFitsAt stack.now.base
        stack.now.maps k limit seed i }
{
    let depth = stack.depth();
    for above in 0..depth {
        let level = depth - 1 - above;
        match best_on(rt, alloc, stack, level, k, limit, seed, workers) {
            Ok(placed) => return Ok((level, placed)),
            Err(PlaceEnd::NoneFits) => {}
            Err(PlaceEnd::NoMemory) => return Err(PlaceEnd::NoMemory),
        }
    }
    Err(PlaceEnd::NoneFits)
}

/// Takes a partition of the level that a descent is on down to the file: each level has its synchronous
/// rounds, and between two levels the partition is projected, which leaves its cost. A level is dropped
/// when it is left. Answers the file's hypergraph, the clusterings, and the partition of the file; the
/// rounds are appended to the log.
fn sync_down<R: Threads + Sync>(
    rt: &R,
    alloc: Global,
    mut levels: LevelsDown,
    start: u32,
    mut p: Partition,
    workers: u32,
    log: &mut RoundList,
) -> Result<(Hypergraph, MapStack, Partition), NoMemory>
    requires number { start ≡ levels.number }
    requires level { start ≤ length levels.maps }
    requires belongs { p.hyper ≡ level levels.base levels.maps start }
    requires fits { Fits p.hyper p.k p.limit p.blocks }
    requires suits { (i : ℕ) → i ≤ length levels.maps → Suits (level levels.base levels.maps i) p.k }
    requires fixed { (i : ℕ) → i ≤ length levels.maps → IsFixedWithin (level levels.base levels.maps i) p.k }
    requires some { 1 ≤ workers }
    requires few { workers ≤ 64 }
    ensures base { IfOk result (λ r. r.0 ≡ levels.base) }
    ensures maps { IfOk result (λ r. r.1 ≡ levels.maps) }
    ensures partition { IfOk result (λ r. r.2 ≡ record p { hyper = levels.base; blocks = r.2.blocks }) }
    ensures rounds { IfOk result (λ r. LogsDescent levels.base levels.maps p.k p.limit workers start p.blocks
        r.2.blocks log.old log.new) }
{
    let coarse = levels.level();
    let mut reached = p.cost(coarse);
    reached = sync_level(rt, alloc, coarse, &mut p, reached, start, workers, log)?;
    for above in 0..start {
        let level = start - 1 - above;
        levels = levels.descend(rt, alloc, workers as usize)?;
        let fine = levels.level();
        let _vertices = fine.vertices();
        p = p.project_with(rt, alloc, fine, levels.map(), workers)?;
        reached = sync_level(rt, alloc, fine, &mut p, reached, level, workers, log)?;
    }
    let (base, maps) = levels.into_base();
    Ok((base, maps, p))
}

/// The descent of the deterministic mode, with 1 to 64 workers: the file's hypergraph, its partition
/// before it is compared with the greedy one, and the trace so far.
///
/// The stack and the stop are those of [`det_levels`](crate::det_levels) for this `k`, from 2 to 256,
/// each level suits it, and the file is fixed to these blocks alone. The descent begins with the best
/// named placement of the coarsest level where one fits. Neither the partition nor the moves depend on
/// how many workers there are. Where none fits, or there is no memory, the stack is dropped.
pub fn det_descend<R: Threads + Sync>(
    rt: &R,
    alloc: Global,
    stack: LevelStack,
    stop: Stop,
    k: u32,
    limit: u64,
    seed: u64,
    workers: u32,
) -> Result<(Hypergraph, Partition, Trace), PlaceEnd>
    requires blocks { 2 ≤ k }
    requires few_blocks { k ≤ 256 }
    requires levels { AreDetLevels stack.base k stack.maps stop }
    requires suits { (i : ℕ) → i ≤ length stack.maps → Suits (level stack.base stack.maps i) k }
    requires fixed { IsFixedWithin stack.base k }
    requires some { 1 ≤ workers }
    requires few { workers ≤ 64 }
    ensures hypergraph { IfOk result (λ r. r.0 ≡ stack.base) }
    ensures partition { IfOk result (λ r. r.1 ≡ record {
      hyper = stack.base;
      k = k;
      limit = limit;
      blocks = r.2.last;
    }) }
    ensures trace { IfOk result (λ r. IsDetDescent stack.base k limit seed workers stack.maps stop r.2) }
    ensures function { IfOk result (λ r. det_last stack.base k limit seed ≡ Some r.2.last) }
    ensures sound { IfOk result (λ r. IsSound stack.base k limit r.2.last) }
    ensures none { result ≡ Err PlaceEnd.NoneFits → (i : ℕ) → i ≤ length stack.maps → NoneFitsAt stack.base
        stack.maps k limit seed i }
{
    let file = stack.level(0);
    let _vertices = file.vertices();
    let (start, first) = first_placed(rt, alloc, &stack, k, limit, seed, workers)?;
    let blocks = first.copy()?;
    let levels = stack.down_from(rt, alloc, start, workers as usize)?;
    let placed = Partition::of(alloc, levels.level(), k, limit, blocks)?;
    let mut rounds = RoundList::new(alloc);
    let (base, maps, p) = sync_down(rt, alloc, levels, start, placed, workers, &mut rounds)?;
    let reached = p.blocks();
    let copied = Vec::from_slice(alloc, reached)?;
    let last = Items::from_vec(copied);
    let trace = Trace {
        maps,
        stop,
        start,
        first,
        rounds,
        last,
        chosen: Chosen::Levels,
    };
    Ok((base, p, trace))
}
