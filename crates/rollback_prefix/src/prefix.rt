//! The prefix of moves that is worth keeping.

ghost use Rattle.std.specs.Prelude.{◌≡◌, ℕ, ◌+◌, ◌-◌, ◌<◌, ◌≤◌, ◌^◌, All, IfOk, OnOk, OnErr};
ghost use Rattle.std.specs.Prelude.{length, map, slice_index, slice_set, pos, ◌-ℤ◌};
ghost use Rattle.hg_defs.specs.Hypergraph.{vertex_count, IsHypergraph, IsWithinLimits};
ghost use Rattle.hg_defs.specs.Partition.{IsPartition, Fits};
ghost use Rattle.hg_defs.specs.Cost.{cost};
ghost use Rattle.hg_defs.specs.Replay.{replay_first, undone, best_prefix};
ghost use Rattle.pin_plain.specs.Parted.{IsLoaded, loads_after};
ghost use Rattle.rollback_prefix.specs.Steps.{StartFrom, EndAt, AreReplayGains, turned};
ghost use Rattle.rollback_prefix.specs.Loads.{overloaded};

use crate::gains::recalculate;
use hg_base::{Move, NoMemory};
use incidence::Hypergraph;
use pin_plain::Partition;
use std::alloc::Global;
use std::thread::Threads;

/// What is kept of moves: the length of their best prefix, and what it saves.
#[derive(Clone, Copy, Debug, PartialEq, Eq)]
pub struct Kept {
    /// So many moves are kept.
    pub length: u32,
    /// The cost before the moves less the cost after those that are kept.
    pub saved: u64,
}

/// The load of each block.
fn loads_of(alloc: Global, p: &Partition) -> Result<Vec<u64>, NoMemory>
    ensures { IfOk result (λ loads. IsLoaded p.now.hyper p.now.k p.now.blocks loads.items) }
{
    let mut loads = Vec::with_capacity(alloc, p.k() as usize)?;
    for b in 0..p.k() {
        loads.push(p.weight(b))?;
    }
    Ok(loads)
}

/// Undoes moves in a list of blocks and in their loads.
fn undo_in_lists(h: &Hypergraph, moves: &[Move], blocks: &mut [u32], loads: &mut [u64])
    requires partition { IsPartition h.now (length loads.old) blocks.old }
    requires moves { EndAt h.now (length loads.old) blocks.old moves.now }
    requires loaded { IsLoaded h.now (length loads.old) blocks.old loads.old }
    ensures blocks { blocks.new ≡ undone blocks.old moves.now }
    ensures loaded { IsLoaded h.now (length loads.old) blocks.new loads.new }
{
    let _vertices = h.vertices();
    for step in moves {
        let weight = h.vertex_weight(step.vertex);
        loads[step.to as usize] -= weight;
        loads[step.from as usize] += weight;
        blocks[step.vertex as usize] = step.from;
    }
}

/// Replaces the load of a block, and answers how many loads are past the limit then.
fn set_load(loads: &mut [u64], limit: u64, over: u32, b: u32, load: u64) -> u32
    requires block { b < length loads.old }
    requires few { length loads.old ≤ 256 }
    requires over { over ≡ overloaded limit loads.old }
    ensures loads { loads.new ≡ slice_set loads.old b load }
    ensures over { result ≡ overloaded limit loads.new }
{
    let others = over - u32::from(loads[b as usize] > limit);
    loads[b as usize] = load;
    others + u32::from(load > limit)
}

/// The shortest best prefix of moves that start from `before`, a partition with these loads, by the gains
/// that they have as they are replayed.
fn best_kept(
    h: &Hypergraph,
    before: &[u32],
    moves: &[Move],
    gains: &[i64],
    limit: u64,
    loads: &mut [u64],
) -> Kept
    requires few { length loads.old ≤ 256 }
    requires partition { IsPartition h.now (length loads.old) before.now }
    requires moves { StartFrom h.now (length loads.old) before.now moves.now }
    requires gains { AreReplayGains h.now before.now moves.now gains.now }
    requires loaded { IsLoaded h.now (length loads.old) before.now loads.old }
    requires fits { Fits h.now (length loads.old) limit before.now }
    ensures best { result.length ≡ best_prefix h.now (length loads.old) limit before.now moves.now }
    ensures within { result.length ≤ length moves.now }
    ensures saved { pos result.saved ≡ pos (cost h.now before.now) -ℤ pos (cost h.now (replay_first before.now moves.now
        result.length)) }
{
    let _vertices = h.vertices();
    let (mut kept, mut most, mut saved, mut over) = (0, 0, 0, 0);
    for (i, step) in moves.iter().enumerate() {
        let weight = h.vertex_weight(step.vertex);
        let left = loads[step.from as usize] - weight;
        over = set_load(loads, limit, over, step.from, left);
        let joined = loads[step.to as usize] + weight;
        over = set_load(loads, limit, over, step.to, joined);
        saved += gains[i];
        if over == 0 && saved > most {
            kept = i + 1;
            most = saved;
        }
    }
    Kept {
        length: kept as u32,
        saved: most as u64,
    }
}

/// The moves that take the vertices back, in the same order.
fn moves_back(alloc: Global, moves: &[Move]) -> Result<Vec<Move>, NoMemory>
    ensures { IfOk result (λ back. back.items ≡ map turned moves.now) }
{
    let back = moves
        .iter()
        .map(|step| Move {
            vertex: step.vertex,
            from: step.to,
            to: step.from,
            worker: step.worker,
            booked: step.booked,
        })
        .collect(alloc)?;
    Ok(back)
}

/// Undoes moves in a partition, one after the other, or all at once by so many threads where they are
/// many. The memory for the moves back is taken before the partition is changed.
fn undo<R: Threads + Sync>(
    rt: &R,
    alloc: Global,
    h: &Hypergraph,
    p: &mut Partition,
    moves: &[Move],
    workers: u32,
) -> Result<(), NoMemory>
    requires belongs { p.old.hyper ≡ h.now }
    requires vertices { All (λ m. m.vertex < vertex_count h.now) moves.now }
    requires blocks { All (λ m. m.from < p.old.k) moves.now }
    requires some { 1 ≤ workers }
    requires few { workers ≤ 64 }
    ensures ok { OnOk result (p.new ≡ record p.old { blocks = undone p.old.blocks moves.now }) }
    ensures refused { OnErr result (p.new ≡ p.old) }
{
    let back = moves_back(alloc, moves)?;
    p.replay_with(rt, h, back.as_slice(), workers);
    Ok(())
}

/// Undoes the moves behind the shortest best prefix: the shortest of those prefixes that fit and cost
/// no more than any prefix that fits. Answers its length, and what it saves, so that no cost need be
/// counted anew.
///
/// The partition stands after all the moves, which are of different vertices, and the partition before
/// them fits. The gains are recalculated as the moves are replayed, so that the moves may book what
/// they like. As many threads recalculate them as there are workers, 8 at most: see [`recalculate`]. So
/// many undo the moves where they are many. All memory is taken before the partition is changed.
pub fn keep_best<R: Threads + Sync>(
    rt: &R,
    alloc: Global,
    h: &Hypergraph,
    p: &mut Partition,
    moves: &[Move],
    workers: u32,
) -> Result<Kept, NoMemory>
    requires belongs { p.old.hyper ≡ h.now }
    requires moves { EndAt h.now p.old.k p.old.blocks moves.now }
    requires fits { Fits h.now p.old.k p.old.limit (undone p.old.blocks moves.now) }
    requires some { 1 ≤ workers }
    requires few { workers ≤ 64 }
    ensures length { IfOk result (λ kept. kept.length ≡ best_prefix h.now p.old.k p.old.limit (undone p.old.blocks
        moves.now) moves.now) }
    ensures saved { IfOk result (λ kept. pos kept.saved ≡ pos (cost h.now (undone p.old.blocks moves.now)) -ℤ pos
        (cost h.now (replay_first (undone p.old.blocks moves.now) moves.now kept.length))) }
    ensures partition { IfOk result (λ kept. p.new ≡ record p.old
        { blocks = replay_first (undone p.old.blocks moves.now) moves.now kept.length }) }
    ensures refused { OnErr result (p.new ≡ p.old) }
{
    let mut before = Vec::from_slice(alloc, p.blocks())?;
    let mut loads = loads_of(alloc, p)?;
    undo_in_lists(h, moves, before.as_mut_slice(), loads.as_mut_slice());
    let gains = recalculate(rt, alloc, h, p.k(), before.as_slice(), moves, workers)?;
    let kept = best_kept(
        h,
        before.as_slice(),
        moves,
        gains.slice(),
        p.limit(),
        loads.as_mut_slice(),
    );
    undo(rt, alloc, h, p, &moves[kept.length as usize..], workers)?;
    Ok(kept)
}

/// Undoes the moves behind the shortest best prefix, as [`keep_best`] does with so many workers, and answers
/// its length.
pub fn roll_back<R: Threads + Sync>(
    rt: &R,
    alloc: Global,
    h: &Hypergraph,
    p: &mut Partition,
    moves: &[Move],
    workers: u32,
) -> Result<u32, NoMemory>
    requires belongs { p.old.hyper ≡ h.now }
    requires moves { EndAt h.now p.old.k p.old.blocks moves.now }
    requires fits { Fits h.now p.old.k p.old.limit (undone p.old.blocks moves.now) }
    requires some { 1 ≤ workers }
    requires few { workers ≤ 64 }
    ensures kept { IfOk result (λ kept. kept ≡ best_prefix h.now p.old.k p.old.limit (undone p.old.blocks moves.now)
        moves.now) }
    ensures partition { IfOk result (λ kept. p.new ≡ record p.old
        { blocks = replay_first (undone p.old.blocks moves.now) moves.now kept }) }
    ensures refused { OnErr result (p.new ≡ p.old) }
{
    Ok(keep_best(rt, alloc, h, p, moves, workers)?.length)
}
