//! The gains of moves that are replayed, net by net.

ghost use Rattle.std.specs.Prelude.{◌≡◌, ℕ, ◌<◌, ◌≤◌, All, IfOk, length};
ghost use Rattle.std.specs.Prelude.{slice_index_or, vec_len, pos, ◌+ℤ◌, ◌+◌, ◌*◌, ◌^◌};
ghost use Rattle.hg_defs.specs.Hypergraph.{vertex_count};
ghost use Rattle.hg_defs.specs.Partition.{IsPartition};
ghost use Rattle.round_log.specs.Rounds.{IsOrder};
ghost use Rattle.rollback_prefix.specs.Gains.{IsReplay, AreSavingsOf, AreSmall};
ghost use Rattle.rollback_prefix.specs.Steps.{StartFrom, AreReplayGains};

use crate::nets::touched_nets;
use crate::pins::{add_net, find_places};
use crew::each;
use hg_base::{Gains, Items, Move, NoMemory};
use incidence::Hypergraph;
use round_log::order_of;
use std::alloc::Global;
use std::thread::Threads;

/// What each move gains by the nets of a part, or no memory to tell it.
type PartGains = Result<Vec<i64>, NoMemory>;

/// The nets are shared out into so many parts at most, however many workers there are.
const MOST_PARTS: u32 = 8;

/// There is a part for so many nets of the vertices that move: to start a thread costs as much as to replay them.
const NETS_A_PART: usize = 512;

/// Into how many parts the nets of the vertices that move are shared out.
fn count_parts(h: &Hypergraph, moves: &[Move], workers: u32) -> u32
    requires moves { All (λ m. m.vertex < vertex_count h.now) moves.now }
    requires some { 1 ≤ workers }
    ensures { (1 ≤ result) × (result ≤ workers) × (result ≤ 8) }
{
    let most = workers.min(MOST_PARTS) as usize;
    if most == 1 {
        return 1;
    }
    let mut nets = 0usize;
    for step in moves {
        nets = nets.saturating_add(h.nets_of(step.vertex).len());
    }
    (nets / NETS_A_PART).min(most).max(1) as u32
}

/// What each move gains by the nets of a part, whose numbers begin at `first` and end before `end`.
fn part_gains(
    alloc: Global,
    h: &Hypergraph,
    k: u32,
    before: &[u32],
    moves: &[Move],
    order: &[u32],
    first: u32,
    end: u32,
) -> PartGains
    requires replay { IsReplay h.now k before.now moves.now }
    requires order { IsOrder (vertex_count h.now) moves.now order.now }
    requires run { first ≤ end }
    ensures { IfOk result (λ gains. AreSavingsOf h.now before.now moves.now first end gains.items) }
{
    let nets = touched_nets(alloc, h, moves, first, end)?;
    let mut gains = vec![in alloc; 0i64; moves.len()]?;
    let mut counts = vec![in alloc; 0u32; k as usize]?;
    let mut places = Vec::new(alloc);
    for e in nets.as_slice() {
        find_places(h.pins(*e), order, &mut places)?;
        add_net(
            h,
            before,
            moves,
            *e,
            places.as_slice(),
            counts.as_mut_slice(),
            gains.as_mut_slice(),
        );
    }
    Ok(gains)
}

/// No gains yet for so many parts.
fn empty_parts(alloc: Global, parts: u32) -> Result<Vec<PartGains>, NoMemory>
    ensures { IfOk result (λ all. vec_len all ≡ parts) }
{
    let mut all = Vec::with_capacity(alloc, parts as usize)?;
    for _ in 0..parts {
        all.push(Err(NoMemory))?;
    }
    Ok(all)
}

/// Writes what each move gains by the nets of each part, or that there is no memory to tell it, by a
/// thread for each part. A part is a run of `share` numbers of nets, and there are as many parts as there
/// are places for their gains.
fn fill_parts<R: Threads + Sync>(
    rt: &R,
    alloc: Global,
    h: &Hypergraph,
    k: u32,
    before: &[u32],
    moves: &[Move],
    order: &[u32],
    share: u32,
    all: &mut [PartGains],
)
    requires replay { IsReplay h.now k before.now moves.now }
    requires order { IsOrder (vertex_count h.now) moves.now order.now }
    requires share { share ≤ 2 ^ 23 }
    requires few { length all.old ≤ 8 }
    ensures count { length all.new ≡ length all.old }
    ensures parts { (j : ℕ) (d : _) → j < length all.old → IfOk (slice_index_or all.new j d) (λ gains.
        AreSavingsOf h.now before.now moves.now (j * share) ((j + 1) * share) gains.items) }
{
    each(
        rt,
        all,
        &|part, gains: &mut PartGains|
            requires { (part < 8)
                × (share ≤ 2 ^ 23)
                × IsReplay h.now k before.now moves.now
                × IsOrder (vertex_count h.now) moves.now order.now }
            ensures { IfOk gains.exit.now (λ gains. AreSavingsOf h.entry.now before.entry.now moves.entry.now
                (part * share) ((part + 1) * share) gains.items) }
        {
            let first = part as u32 * share;
            *gains = part_gains(alloc, h, k, before, moves, order, first, first + share);
        },
    );
}

/// Adds the gains of a part to those of all.
fn add_part(gains: &mut [i64], part: &[i64])
    requires moves { length part.now ≡ length gains.old }
    requires small { AreSmall gains.old }
    requires part { AreSmall part.now }
    ensures { (i : ℕ) → i < length gains.old
        → slice_index_or gains.new i (pos 0) ≡ slice_index_or gains.old i (pos 0) +ℤ slice_index_or part.now i
        (pos 0) }
{
    for i in 0..gains.len() {
        gains[i] += part[i];
    }
}

/// What each move gains, by a thread for each of so many parts of the nets. The parts are runs of equally
/// many numbers, and so the last of them may reach past the nets.
fn gains_by_parts<R: Threads + Sync>(
    rt: &R,
    alloc: Global,
    h: &Hypergraph,
    k: u32,
    before: &[u32],
    moves: &[Move],
    order: &[u32],
    parts: u32,
) -> Result<Vec<i64>, NoMemory>
    requires replay { IsReplay h.now k before.now moves.now }
    requires order { IsOrder (vertex_count h.now) moves.now order.now }
    requires parts { (1 ≤ parts) × (parts ≤ 8) }
    ensures { IfOk result (λ gains. AreReplayGains h.now before.now moves.now gains.items) }
{
    let share = h.nets().div_ceil(parts);
    let mut all = empty_parts(alloc, parts)?;
    fill_parts(
        rt,
        alloc,
        h,
        k,
        before,
        moves,
        order,
        share,
        all.as_mut_slice(),
    );
    let mut gains = vec![in alloc; 0i64; moves.len()]?;
    for part in all.as_slice() {
        match part {
            Ok(part) => add_part(gains.as_mut_slice(), part.as_slice()),
            Err(none) => return Err(*none),
        }
    }
    Ok(gains)
}

/// What each move gains. The gains by a single part are those by all nets, so that a thread alone adds
/// none up.
fn gains_with<R: Threads + Sync>(
    rt: &R,
    alloc: Global,
    h: &Hypergraph,
    k: u32,
    before: &[u32],
    moves: &[Move],
    order: &[u32],
    workers: u32,
) -> Result<Vec<i64>, NoMemory>
    requires replay { IsReplay h.now k before.now moves.now }
    requires order { IsOrder (vertex_count h.now) moves.now order.now }
    requires some { 1 ≤ workers }
    ensures { IfOk result (λ gains. AreReplayGains h.now before.now moves.now gains.items) }
{
    let parts = count_parts(h, moves, workers);
    if parts == 1 {
        return part_gains(alloc, h, k, before, moves, order, 0, h.nets());
    }
    gains_by_parts(rt, alloc, h, k, before, moves, order, parts)
}

/// What each move gains where the moves are replayed, one after the other, from a partition into `k`
/// blocks: the cost before the move less the cost after it. The vertices of the moves differ, and
/// each move starts from its vertex's block.
///
/// A move gains what its vertex's nets save by it, and a net saves something only where one of its
/// pins moves. So each net with a pin that moves is replayed alone, through the moves of its pins in
/// their order (the recalculation of gains of Mt-KaHyPar), many nets at the same time: by as many
/// threads as there are workers, 8 at most, and fewer where the nets are few. Each thread lists and
/// replays those of these nets whose number lies in its own run: the numbers of all nets are shared out in
/// runs of equal length, one for each thread. A single worker starts no thread.
pub fn recalculate<R: Threads + Sync>(
    rt: &R,
    alloc: Global,
    h: &Hypergraph,
    k: u32,
    before: &[u32],
    moves: &[Move],
    workers: u32,
) -> Result<Gains, NoMemory>
    requires some { 2 ≤ k }
    requires few { k ≤ 256 }
    requires partition { IsPartition h.now k before.now }
    requires moves { StartFrom h.now k before.now moves.now }
    requires workers { (1 ≤ workers) × (workers ≤ 64) }
    ensures { IfOk result (AreReplayGains h.now before.now moves.now) }
{
    let order = order_of(alloc, h.vertices(), moves)?;
    let gains = gains_with(rt, alloc, h, k, before, moves, order.slice(), workers)?;
    Ok(Items::from_vec(gains))
}
