//! Where a descent begins.

ghost use Rattle.std.specs.Prelude.{◌≡◌, ℕ, ◌≤◌, IfOk, Err, length};
ghost use Rattle.hg_defs.specs.Hypergraph.{IsFixedWithin, Suits};
ghost use Rattle.hg_defs.specs.Partition.{IsPartition, Fits, Obeys};
ghost use Rattle.hg_defs.specs.Placement as placements;
ghost use Rattle.initial_place.specs.Cheapest.{IsNoDearer};
ghost use Rattle.initial_place.specs.declared.end.PlaceEnd.TheVariants.{NoneFits as none_fits};
ghost use Rattle.uncoarsen.specs.Start.{ArePartable, IsStartAt, NoneFitsAt, level_of};

use hg_base::Blocks;
use incidence::Hypergraph;
use initial_place::{PlaceEnd, place};
use level_stack::LevelStack;
use std::alloc::Global;
use std::thread::Threads;

/// Where a descent begins: the number of a level, and a block for each of its vertices.
#[derive(Debug, Drop)]
pub struct Start {
    /// The level, 0 being the file's.
    pub level: u32,
    /// The block of each vertex of that level.
    pub blocks: Blocks,
}

/// A partition of the level of a number. That of a finer level than the coarsest one is rare: such a
/// level has no index, so that one is made of a copy, for the placement alone.
fn place_on<R: Threads + Sync>(
    rt: &R,
    alloc: Global,
    stack: &LevelStack,
    level: u32,
    k: u32,
    limit: u64,
    seed: u64,
    workers: u32,
) -> Result<Blocks, PlaceEnd>
    requires level { level ≤ length stack.now.maps }
    requires some { 2 ≤ k }
    requires few { k ≤ 256 }
    requires suits { Suits (level_of stack.now level) k }
    requires fixed { IsFixedWithin (level_of stack.now level) k }
    requires workers { (1 ≤ workers) × (workers ≤ 64) }
    ensures partition { IfOk result (IsPartition (level_of stack.now level) k) }
    ensures fits { IfOk result (Fits (level_of stack.now level) k limit) }
    ensures fixes { IfOk result (Obeys (level_of stack.now level)) }
    ensures cost { IfOk result (IsNoDearer (level_of stack.now level) k limit
        (placements.named (level_of stack.now level) k seed)) }
    ensures none { result ≡ Err PlaceEnd.NoneFits → NoneFitsAt stack.now k limit seed level }
{
    if level == stack.depth() - 1 {
        return place(rt, alloc, stack.top(), k, limit, seed, workers);
    }
    let copy = stack.level(level).copy(alloc)?;
    let h = Hypergraph::build(alloc, copy)?;
    place(rt, alloc, &h, k, limit, seed, workers)
}

/// A partition of the coarsest level on which one is found, from the coarsest level downwards.
///
/// There are 2 to 256 blocks, and each level suits them and is fixed to them alone. Of 1 to 64 workers one
/// alone starts no thread; where the descent begins doesn't depend on how many there are.
pub fn descend<R: Threads + Sync>(
    rt: &R,
    alloc: Global,
    stack: &LevelStack,
    k: u32,
    limit: u64,
    seed: u64,
    workers: u32,
) -> Result<Start, PlaceEnd>
    requires some { 2 ≤ k }
    requires few { k ≤ 256 }
    requires levels { ArePartable stack.now k }
    requires workers { (1 ≤ workers) × (workers ≤ 64) }
    ensures start { IfOk result (λ s. IsStartAt stack.now k limit seed s.level s.blocks) }
    ensures none { result ≡ Err PlaceEnd.NoneFits → (i : ℕ) → i ≤ length stack.now.maps → NoneFitsAt stack.now k limit
        seed i }
{
    let depth = stack.depth();
    for above in 0..depth {
        let level = depth - 1 - above;
        match place_on(rt, alloc, stack, level, k, limit, seed, workers) {
            Ok(blocks) => return Ok(Start { level, blocks }),
            Err(PlaceEnd::NoneFits) => {}
            Err(PlaceEnd::NoMemory) => return Err(PlaceEnd::NoMemory),
        }
    }
    Err(PlaceEnd::NoneFits)
}
