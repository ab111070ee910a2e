//! The search for a placement that is cheaper than the named ones.
//!
//! It tries candidates: a growing, recursive bisections, and perturbations of the best one. A candidate
//! is taken by exact tests alone.

ghost use Rattle.std.specs.Prelude.{◌≡◌, ◌≢◌, ◌<◌, ◌≤◌, IfOk, IsTrue, length};
ghost use Rattle.hg_defs.specs.Hypergraph.{vertex_count, fix_of, IsFixedWithin, Suits};
ghost use Rattle.hg_defs.specs.Partition.{IsPartition, Obeys, block_of};
ghost use Rattle.initial_place.specs.NoWorse.{IsNoWorse, IsCosted, IsJudged, TakesPlace, cheaper_of, cheapest_of};

use hg_base::{Blocks, FREE, NoMemory, cost_of};
use incidence::Hypergraph;
use pin_plain::Partition;
use place_search::Candidates;
use std::alloc::Global;
use std::thread::{Threads, map_indices};

/// The most cells that the table of pulls may have.
const MOST_CELLS: u64 = 1 << 23;

/// With fewer bisections than this several workers make each of them by two threads.
const FEW_TRIES: usize = 4;

/// A partition, and its cost.
#[derive(Drop)]
struct Costed {
    blocks: Blocks,
    cost: u64,
}

/// How many bisections and how many perturbations are tried: fewer where they cost more.
fn effort(h: &Hypergraph, k: u32) -> usize
    requires { k ≤ 256 }
    ensures { result ≤ 16 }
{
    let mut pins: u64 = 0;
    for e in 0..h.nets() {
        pins = pins.saturating_add(h.pins(e).len() as u64);
    }
    let cells = u64::from(h.vertices()) * u64::from(k) + u64::from(h.nets()) * u64::from(k) / 8;
    let unit = pins.saturating_add(cells).max(1);
    (200_000 / unit).max(2).min(16) as usize
}

/// Looks for a partition that is cheaper than a given one, fits and obeys the fixes. The answer
/// depends on the hypergraph, the number of blocks, the limit, the seed and the given one alone, and not
/// on how many workers there are: one alone makes the same candidates, in the calling thread.
pub(crate) fn searched<R: Threads + Sync>(
    rt: &R,
    alloc: Global,
    h: &Hypergraph,
    k: u32,
    limit: u64,
    seed: u64,
    best: Blocks,
    workers: u32,
) -> Result<Blocks, NoMemory>
    requires some { 2 ≤ k }
    requires few { k ≤ 256 }
    requires suits { Suits h.now k }
    requires fixed { IsFixedWithin h.now k }
    requires best { IsPartition h.now k best }
    ensures { IfOk result (IsNoWorse h.now k limit best) }
{
    let vertices = h.vertices();
    if vertices == 0 || u64::from(vertices) * u64::from(k) > MOST_CELLS {
        return Ok(best);
    }
    let candidates = Candidates::of(alloc, h, k)?;
    let tries = effort(h, k);
    let best = Costed {
        cost: cost_of(h.flat(), best.slice(), k),
        blocks: best,
    };
    if workers == 1 {
        let best = best_in_turn(rt, alloc, h, k, &candidates, limit, seed, tries, best)?;
        return Ok(best.blocks);
    }
    let best = best_of_tries(rt, alloc, h, k, &candidates, limit, seed, tries, best)?;
    let best = best_of_throws(rt, alloc, h, k, &candidates, limit, seed, tries, best)?;
    Ok(best.blocks)
}

/// Whether there is one block below `k` for each vertex.
fn is_partition(h: &Hypergraph, k: u32, blocks: &[u32]) -> bool
    ensures { IsTrue result → IsPartition h.now k blocks.now }
{
    blocks.len() == h.vertices() as usize && blocks.iter().all(|b| *b < k)
}

/// Whether each vertex that is fixed is in the block of its fix.
fn obeys(h: &Hypergraph, blocks: &[u32]) -> bool
    requires { length blocks.now ≡ vertex_count h.now }
    ensures { IsTrue result → Obeys h.now blocks.now }
{
    for v in 0..h.vertices() {
        if !obeys_at(h, blocks, v) {
            return false;
        }
    }
    true
}

/// Whether a vertex is free, or in the block of its fix.
fn obeys_at(h: &Hypergraph, blocks: &[u32], v: u32) -> bool
    requires vertex { v < vertex_count h.now }
    requires blocks { length blocks.now ≡ vertex_count h.now }
    ensures { IsTrue result → fix_of h.now v ≢ FREE → block_of blocks.now v ≡ fix_of h.now v }
{
    let fix = h.fix(v);
    fix == FREE || blocks[v as usize] == fix
}

/// A candidate beside its cost where it is a partition that fits and obeys the fixes, and else none.
fn admitted(
    alloc: Global,
    h: &Hypergraph,
    k: u32,
    limit: u64,
    candidate: Blocks,
) -> Result<Option<Costed>, NoMemory>
    requires some { 2 ≤ k }
    requires few { k ≤ 256 }
    requires suits { Suits h.now k }
    requires fixed { IsFixedWithin h.now k }
    ensures { IfOk result (IsJudged h.now k limit) }
{
    if !is_partition(h, k, candidate.slice()) || !obeys(h, candidate.slice()) {
        return Ok(None);
    }
    let partition = Partition::of(alloc, h, k, limit, candidate)?;
    if !partition.fits() {
        return Ok(None);
    }
    let cost = partition.cost(h);
    Ok(Some(Costed {
        blocks: partition.into_blocks(),
        cost,
    }))
}

/// A candidate where it costs less, and else the best one so far.
fn cheaper(best: Costed, candidate: Option<Costed>) -> Costed
    ensures { result ≡ cheaper_of best candidate }
{
    match candidate {
        Some(candidate) if candidate.cost < best.cost => candidate,
        _ => best,
    }
}

/// The cheapest of a growing, some bisections and a given partition. Threads make and judge them.
fn best_of_tries<R: Threads + Sync>(
    rt: &R,
    alloc: Global,
    h: &Hypergraph,
    k: u32,
    candidates: &Candidates,
    limit: u64,
    seed: u64,
    tries: usize,
    best: Costed,
) -> Result<Costed, NoMemory>
    requires some { 2 ≤ k }
    requires few { k ≤ 256 }
    requires suits { Suits h.now k }
    requires fixed { IsFixedWithin h.now k }
    requires candidates { candidates.now ≡ record { vertices = vertex_count h.now; blocks = k } }
    requires tries { tries ≤ 16 }
    requires best { IsCosted h.now k best }
    ensures { IfOk result (TakesPlace h.now k limit best.blocks) }
{
    let by_two = tries < FEW_TRIES;
    let tried = map_indices(
        rt,
        alloc,
        tries + 1,
        &|i: usize| -> Result<Option<Costed>, NoMemory>
            requires { (candidates.now.vertices ≡ vertex_count h.now) × (2 ≤ k) × (k ≤ 256) × Suits h.now k
                × IsFixedWithin h.now k }
            ensures { IfOk result (IsJudged h.entry.now k limit) }
        {
            let tried = candidates.tried(rt, alloc, h, limit, seed, i as u64, by_two)?;
            admitted(alloc, h, k, limit, tried)
        },
    )?;
    cheapest(best, tried)
}

/// The cheapest of some perturbations of a given partition, and itself. Threads make and judge them.
fn best_of_throws<R: Threads + Sync>(
    rt: &R,
    alloc: Global,
    h: &Hypergraph,
    k: u32,
    candidates: &Candidates,
    limit: u64,
    seed: u64,
    tries: usize,
    best: Costed,
) -> Result<Costed, NoMemory>
    requires some { 2 ≤ k }
    requires few { k ≤ 256 }
    requires suits { Suits h.now k }
    requires fixed { IsFixedWithin h.now k }
    requires candidates { candidates.now ≡ record { vertices = vertex_count h.now; blocks = k } }
    requires best { IsCosted h.now k best }
    ensures { IfOk result (TakesPlace h.now k limit best.blocks) }
{
    let start = best.blocks.slice();
    let thrown = map_indices(
        rt,
        alloc,
        tries,
        &|i: usize| -> Result<Option<Costed>, NoMemory>
            requires { (candidates.now.vertices ≡ vertex_count h.now) × (2 ≤ k) × (k ≤ 256) × Suits h.now k
                × IsFixedWithin h.now k × IsPartition h.now candidates.now.blocks start.now }
            ensures { IfOk result (IsJudged h.entry.now k limit) }
        {
            let thrown = candidates.thrown(alloc, h, start, limit, seed, i as u64)?;
            admitted(alloc, h, k, limit, thrown)
        },
    )?;
    cheapest(best, thrown)
}

/// The same as `best_of_tries` and then `best_of_throws`, by the calling thread alone, which compares each
/// candidate before it makes the next one, so that no more than one is kept beside the best.
fn best_in_turn<R: Threads + Sync>(
    rt: &R,
    alloc: Global,
    h: &Hypergraph,
    k: u32,
    candidates: &Candidates,
    limit: u64,
    seed: u64,
    tries: usize,
    best: Costed,
) -> Result<Costed, NoMemory>
    requires some { 2 ≤ k }
    requires few { k ≤ 256 }
    requires suits { Suits h.now k }
    requires fixed { IsFixedWithin h.now k }
    requires candidates { candidates.now ≡ record { vertices = vertex_count h.now; blocks = k } }
    requires tries { tries ≤ 16 }
    requires best { IsCosted h.now k best }
    ensures { IfOk result (TakesPlace h.now k limit best.blocks) }
{
    let mut best = best;
    for number in 0..tries as u64 + 1 {
        let tried = candidates.tried(rt, alloc, h, limit, seed, number, false)?;
        best = cheaper(best, admitted(alloc, h, k, limit, tried)?);
    }
    let start = best.blocks.copy()?;
    for throw in 0..tries as u64 {
        let thrown = candidates.thrown(alloc, h, start.slice(), limit, seed, throw)?;
        best = cheaper(best, admitted(alloc, h, k, limit, thrown)?);
    }
    Ok(best)
}

/// The cheapest of some judged candidates and a given partition, the first at a tie.
fn cheapest(
    best: Costed,
    candidates: Vec<Result<Option<Costed>, NoMemory>>,
) -> Result<Costed, NoMemory>
    ensures { IfOk result (λ cheapest. cheapest ≡ cheapest_of best candidates.items) }
{
    let mut best = best;
    for judged in candidates {
        best = cheaper(best, judged?);
    }
    Ok(best)
}
