//! Synchronous rounds: all vertices wish at once, and the best wishes are granted while there is room.

ghost use Rattle.std.specs.Prelude.{◌≡◌, ℕ, ◌+◌, ◌-◌, ◌<◌, ◌≤◌, ◌^◌, ◌∷◌, length, map, take, replicate, All, IfOk};
ghost use Rattle.std.specs.Prelude.{OnOk, OnErr, ℤ, pos, ◌-ℤ◌, ◌≤ℤ◌, ◌<ℤ◌};
ghost use Rattle.hg_defs.specs.Sums.{total_z};
ghost use Rattle.hg_defs.specs.Hypergraph.{vertex_count};
ghost use Rattle.hg_defs.specs.Partition.{Fits};
ghost use Rattle.hg_defs.specs.Cost.{cost};
ghost use Rattle.hg_defs.specs.Moves.{IsSettled};
ghost use Rattle.hg_defs.specs.Replay.{replay};
ghost use Rattle.hg_defs.specs.Synchronous.{sync_moves, sync};
ghost use Rattle.det_sync.specs.Wishes.{AreWishes};
ghost use Rattle.pin_plain.specs.Parted.{IsLoaded};
ghost use Rattle.det_sync.specs.Rounds.{LogsSync, LogsSynced, StaysCost, unbooked, AreBooked, IsMostSaved};

use crate::wishes::{cuts_of, wishes_of};
use hg_base::{Gains, Items, Move, NoMemory};
use incidence::Hypergraph;
use pin_plain::{BestMove, Partition};
use rollback_prefix::recalculate;
use round_log::{Kind, LoggedRound, RoundList};
use std::alloc::{AllocError, Global};
use std::thread::Threads;

/// A level has so many rounds at most.
const MOST_ROUNDS: u32 = 8;

/// The load of each block.
fn loads_of(alloc: Global, p: &Partition) -> Result<Vec<u64>, AllocError>
    ensures { IfOk result (λ loads. IsLoaded p.now.hyper p.now.k p.now.blocks loads.items) }
{
    let mut loads = Vec::with_capacity(alloc, p.k() as usize)?;
    for b in 0..p.k() {
        loads.push(p.weight(b))?;
    }
    Ok(loads)
}

/// The moves of those of the wishes for which there still is room, one after the other. What they
/// book isn't known yet.
///
/// Whether there is room follows from the loads alone, so that no net is looked at.
fn admit(
    alloc: Global,
    h: &Hypergraph,
    p: &Partition,
    wishes: &[BestMove],
) -> Result<Vec<Move>, AllocError>
    requires belongs { p.now.hyper ≡ h.now }
    requires wishes { AreWishes h.now p.now.k p.now.limit p.now.blocks wishes.now }
    ensures { IfOk result (λ moves. moves.items ≡ map unbooked (sync_moves h.now p.now.k p.now.limit p.now.blocks)) }
{
    let _vertices = h.vertices();
    let blocks = p.blocks();
    let mut loads = loads_of(alloc, p)?;
    let mut moves = Vec::new(alloc);
    'wishes: for (_, v, to) in wishes {
        let weight = h.vertex_weight(*v);
        if loads[*to as usize] + weight > p.limit() {
            continue;
        }
        let from = blocks[*v as usize];
        loads[from as usize] -= weight;
        loads[*to as usize] += weight;
        moves.push(Move {
            vertex: *v,
            from,
            to: *to,
            worker: 0,
            booked: 0,
        })?;
    }
    Ok(moves)
}

/// Books each move with its gain.
fn book(moves: &mut [Move], gains: &[i64])
    requires { length gains.now ≡ length moves.old }
    ensures { AreBooked moves.old gains.now moves.new }
{
    for i in 0..moves.len() {
        moves[i].booked = gains[i];
    }
}

/// The moves that grant the wishes, one after the other, while there is room. Each is booked with its
/// gain in its turn.
///
/// The gains are those of all moves as they are replayed, net by net, many nets at the same time where
/// there are several workers.
fn grant<R: Threads + Sync>(
    rt: &R,
    alloc: Global,
    h: &Hypergraph,
    p: &Partition,
    wishes: &[BestMove],
    workers: u32,
) -> Result<Vec<Move>, NoMemory>
    requires belongs { p.now.hyper ≡ h.now }
    requires wishes { AreWishes h.now p.now.k p.now.limit p.now.blocks wishes.now }
    requires some { 1 ≤ workers }
    requires few { workers ≤ 64 }
    ensures { IfOk result (λ moves. moves.items ≡ sync_moves h.now p.now.k p.now.limit p.now.blocks) }
{
    let mut moves = admit(alloc, h, p, wishes)?;
    let gains = recalculate(rt, alloc, h, p.k(), p.blocks(), moves.as_slice(), workers)?;
    book(moves.as_mut_slice(), gains.slice());
    Ok(moves)
}

/// The shortest of the cheapest prefixes of moves, each of which saves what it books, from a partition
/// of this cost on: its length, the cost after it, and that after all moves.
fn best_of(before: u64, moves: &[Move]) -> (usize, u64, u64)
    requires { (i : ℕ) → i ≤ length moves.now → StaysCost (pos before -ℤ total_z (λ m. m.booked) (take i moves.now)) }
    ensures kept { IsMostSaved moves.now (length moves.now) result.0 }
    ensures after { pos result.1 ≡ pos before -ℤ total_z (λ m. m.booked) (take result.0 moves.now) }
    ensures made { pos result.2 ≡ pos before -ℤ total_z (λ m. m.booked) moves.now }
{
    let mut cost = before as i64;
    let (mut kept, mut least) = (0, cost);
    for i in 0..moves.len() {
        cost -= moves[i].booked;
        if cost < least {
            kept = i + 1;
            least = cost;
        }
    }
    (kept, least as u64, cost as u64)
}

/// Makes moves, one after the other.
fn make(h: &Hypergraph, p: &mut Partition, moves: &[Move])
    requires belongs { p.old.hyper ≡ h.now }
    requires vertices { All (λ m. m.vertex < vertex_count h.now) moves.now }
    requires blocks { All (λ m. m.to < p.old.k) moves.now }
    ensures { p.new ≡ record p.old { blocks = replay p.old.blocks moves.now } }
{
    for step in moves {
        p.shift(h, step.vertex, step.to);
    }
}

/// What the workers of a synchronous round book: the first of them all that was saved.
fn gains_of(alloc: Global, before: u64, made: u64, workers: u32) -> Result<Gains, AllocError>
    requires before { before < 2 ^ 57 }
    requires made { made < 2 ^ 57 }
    requires some { 1 ≤ workers }
    ensures { IfOk result (λ gains. gains ≡ (pos before -ℤ pos made) ∷ replicate (workers - 1) (pos 0)) }
{
    let mut gains = vec![in alloc; 0i64; workers as usize]?;
    gains[0] = before as i64 - made as i64;
    Ok(Items::from_vec(gains))
}

/// Grants the wishes of all vertices in a partition of this cost, keeps the best prefix of the moves,
/// and logs the round. Answers the cost of the partition that is left.
fn grant_best<R: Threads + Sync>(
    rt: &R,
    alloc: Global,
    h: &Hypergraph,
    p: &mut Partition,
    wishes: &[BestMove],
    before: u64,
    level: u32,
    workers: u32,
    log: &mut RoundList,
) -> Result<u64, NoMemory>
    requires belongs { p.old.hyper ≡ h.now }
    requires fits { Fits h.now p.old.k p.old.limit p.old.blocks }
    requires wishes { AreWishes h.now p.old.k p.old.limit p.old.blocks wishes.now }
    requires cost { before ≡ cost h.now p.old.blocks }
    requires some { 1 ≤ workers }
    requires few { workers ≤ 64 }
    ensures partition { OnOk result (p.new ≡ record p.old
        { blocks = sync h.now p.old.k p.old.limit p.old.blocks }) }
    ensures cost { IfOk result (λ after. after ≡ cost h.now p.new.blocks) }
    ensures round { OnOk result (LogsSync h.now p.old.k p.old.limit workers level p.old.blocks log.old log.new) }
    ensures refused { OnErr result (log.new ≡ log.old) }
{
    let _parted = p.blocks();
    let moves = grant(rt, alloc, h, p, wishes, workers)?;
    let steps = moves.as_slice();
    let (kept, after, made) = best_of(before, steps);
    let gains = gains_of(alloc, before, made, workers)?;
    make(h, p, &steps[..kept]);
    log.push(LoggedRound {
        kind: Kind::Label,
        level,
        moves: Items::from_vec(moves),
        kept: kept as u32,
        gains,
        before,
        made,
        after,
        first: 0,
        second: 0,
        region: Items::new(alloc),
        value: 0,
        tabled: false,
    })?;
    Ok(after)
}

/// A synchronous round of a partition that fits and isn't settled (the synchronous local search of
/// BiPart and of deterministic Mt-KaHyPar).
///
/// Every vertex wishes for its allowed move of the highest gain above 0, the lowest block at a tie, all
/// in the partition as it is given. The wishes are granted while there is room, by falling gain and
/// then by rising vertex, and the moves are rolled back to their best prefix. The round is appended to
/// the log as one of label propagation with a gain for each of the 1 to 64 workers, of which the first
/// made all moves. Neither the partition nor the moves depend on how many workers there are.
///
/// Where there is no memory, the log is as it was.
pub fn sync_round<R: Threads + Sync>(
    rt: &R,
    alloc: Global,
    h: &Hypergraph,
    mut p: Partition,
    level: u32,
    workers: u32,
    log: &mut RoundList,
) -> Result<Partition, NoMemory>
    requires belongs { p.hyper ≡ h.now }
    requires fits { Fits h.now p.k p.limit p.blocks }
    requires unsettled { IsSettled h.now p.k p.limit p.blocks → ⊥ }
    requires some { 1 ≤ workers }
    requires few { workers ≤ 64 }
    ensures partition { IfOk result (λ q. q ≡ record p { blocks = sync h.now p.k p.limit p.blocks }) }
    ensures cheaper { IfOk result (λ q. cost h.now q.blocks < cost h.now p.blocks) }
    ensures round { OnOk result (LogsSync h.now p.k p.limit workers level p.blocks log.old log.new) }
    ensures refused { OnErr result (log.new ≡ log.old) }
{
    let _parted = p.blocks();
    let before = p.cost(h);
    let cuts = cuts_of(alloc, h, workers)?;
    let wishes = wishes_of(rt, alloc, h, &p, cuts.as_slice(), workers)?;
    grant_best(
        rt,
        alloc,
        h,
        &mut p,
        wishes.as_slice(),
        before,
        level,
        workers,
        log,
    )?;
    Ok(p)
}

/// The synchronous rounds of a level from a partition of this cost on, until it is settled, 8 at most.
/// They are appended to the log. Answers the cost of the partition that is left.
pub(crate) fn sync_level<R: Threads + Sync>(
    rt: &R,
    alloc: Global,
    h: &Hypergraph,
    p: &mut Partition,
    before: u64,
    level: u32,
    workers: u32,
    log: &mut RoundList,
) -> Result<u64, NoMemory>
    requires belongs { p.old.hyper ≡ h.now }
    requires fits { Fits h.now p.old.k p.old.limit p.old.blocks }
    requires cost { before ≡ cost h.now p.old.blocks }
    requires some { 1 ≤ workers }
    requires few { workers ≤ 64 }
    ensures partition { OnOk result (p.new ≡ record p.old { blocks = p.new.blocks }) }
    ensures cost { IfOk result (λ after. after ≡ cost h.now p.new.blocks) }
    ensures fits { OnOk result (Fits h.now p.old.k p.old.limit p.new.blocks) }
    ensures rounds { OnOk result (LogsSynced h.now p.old.k p.old.limit workers level p.old.blocks p.new.blocks log.old
        log.new) }
{
    let cuts = cuts_of(alloc, h, workers)?;
    let mut reached = before;
    'rounds: for _made in 0..MOST_ROUNDS {
        let wishes = wishes_of(rt, alloc, h, p, cuts.as_slice(), workers)?;
        let listed = wishes.as_slice();
        if listed.is_empty() {
            return Ok(reached);
        }
        reached = grant_best(rt, alloc, h, p, listed, reached, level, workers, log)?;
    }
    Ok(reached)
}
