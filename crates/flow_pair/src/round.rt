//! A flow round: the moves that assign a region anew, and their record.

ghost use Rattle.std.specs.Prelude.{◌≡◌, ℕ, ◌+◌, ◌<◌, ◌≤◌, ◌^◌, ◌++◌, length, All, IfOk, OnOk, pos, ◌-ℤ◌};
ghost use Rattle.std.specs.List.Sorted.{IsStrictlyIncreasing};
ghost use Rattle.hg_defs.specs.Sums.{total_z};
ghost use Rattle.hg_defs.specs.Hypergraph.{vertex_count};
ghost use Rattle.hg_defs.specs.Moves.{moved};
ghost use Rattle.hg_defs.specs.Cost.{cost};
ghost use Rattle.hg_defs.specs.Replay.{replay};
ghost use Rattle.round_log.specs.Rounds.{changes, after_round};
ghost use Rattle.flow_pair.specs.PairEnds.{reassigned, IsPairEnd};
ghost use Rattle.flow_pair.specs.Turns.{change, IsRoundOf, RecordsFlow};

use crate::solve::PairEnd;
use flow_net::NoMemory;
use hg_base::{Gains, Move};
use incidence::Hypergraph;
use pin_plain::Partition;
use round_log::{Kind, LoggedRound, Moves};
use std::alloc::Global;

/// Moves a vertex to a block, and appends the move with its gain where the block is another one.
fn reassign(
    h: &Hypergraph,
    p: &mut Partition,
    v: u32,
    to: u32,
    moves: &mut Vec<Move>,
) -> Result<(), NoMemory>
    requires belongs { p.old.hyper ≡ h.now }
    requires vertex { v < vertex_count h.now }
    requires block { to < p.old.k }
    ensures partition { p.new ≡ record p.old { blocks = moved p.old.blocks v to } }
    ensures moves { OnOk result (moves.new.items ≡ moves.old.items ++ change h.now p.old.blocks v to) }
{
    let from = p.blocks()[v as usize];
    let booked = p.gain(h, v, to);
    p.shift(h, v, to);
    if from == to {
        return Ok(());
    }
    moves.push(Move {
        vertex: v,
        from,
        to,
        worker: 0,
        booked,
    })?;
    Ok(())
}

/// Moves the vertices of a region, in rising order, to their blocks. Answers the moves of those whose
/// blocks changed.
pub fn assign_region(
    alloc: Global,
    h: &Hypergraph,
    p: &mut Partition,
    region: &[u32],
    blocks: &[u32],
) -> Result<Moves, NoMemory>
    requires belongs { p.old.hyper ≡ h.now }
    requires rising { IsStrictlyIncreasing region.now }
    requires vertices { All (λ v. v < vertex_count h.now) region.now }
    requires count { length blocks.now ≡ length region.now }
    requires blocks { All (λ b. b < p.old.k) blocks.now }
    ensures partition { OnOk result (p.new ≡ record p.old
        { blocks = reassigned p.old.blocks region.now blocks.now }) }
    ensures moves { IfOk result (λ moves. moves ≡ changes h.now p.old.blocks (reassigned p.old.blocks region.now
        blocks.now) region.now) }
    ensures replayed { IfOk result (λ moves. replay p.old.blocks moves ≡ reassigned p.old.blocks region.now
        blocks.now) }
    ensures saved { IfOk result (λ moves. total_z (λ m. m.booked) moves ≡ pos (cost h.now p.old.blocks) -ℤ pos
        (cost h.now (reassigned p.old.blocks region.now blocks.now))) }
    ensures few { IfOk result (λ moves. length moves ≤ length region.now) }
{
    let _blocks = p.blocks();
    let mut moves = Vec::new(alloc);
    for (i, v) in region.iter().enumerate() {
        reassign(h, p, *v, blocks[i], &mut moves)?;
    }
    Ok(Moves::from_vec(moves))
}

/// The sum of what moves booked.
fn saved_by(moves: &[Move]) -> i128
    ensures { result ≡ total_z (λ m. m.booked) moves.now }
{
    let mut sum = 0i128;
    for step in moves {
        sum += i128::from(step.booked);
    }
    sum
}

/// The round of moves that assigned the region of a pair anew. The cost before it is known.
fn round_of(
    alloc: Global,
    level: u32,
    a: u32,
    b: u32,
    before: u64,
    end: &PairEnd,
    moves: Moves,
) -> Result<LoggedRound, NoMemory>
    requires small { before < 2 ^ 57 }
    requires few { length moves < 2 ^ 32 }
    requires saved { (after : ℕ) × (after ≤ before) × (total_z (λ m. m.booked) moves ≡ pos before -ℤ pos after) }
    ensures { IfOk result (IsRoundOf level a b before end.now moves) }
{
    let region = end.region.copy()?;
    let saved = saved_by(moves.slice());
    let mut gains = Gains::new(alloc);
    gains.push(saved as i64)?;
    let after = (i128::from(before) - saved) as u64;
    let kept = moves.len() as u32;
    Ok(LoggedRound {
        kind: Kind::Flow,
        level,
        moves,
        kept,
        gains,
        before,
        made: after,
        after,
        first: a,
        second: b,
        region,
        value: end.value,
        tabled: false,
    })
}

/// Assigns the region of a pair anew as its end says, and records that as a round. The cost before it
/// is known.
pub fn record_round(
    alloc: Global,
    h: &Hypergraph,
    level: u32,
    p: &mut Partition,
    a: u32,
    b: u32,
    before: u64,
    end: &PairEnd,
) -> Result<LoggedRound, NoMemory>
    requires belongs { p.old.hyper ≡ h.now }
    requires order { a < b }
    requires second { b < p.old.k }
    requires before { before ≡ cost h.now p.old.blocks }
    requires small { before < 2 ^ 57 }
    requires end { IsPairEnd h.now p.old.k p.old.limit p.old.blocks a b end.now }
    ensures round { IfOk result (RecordsFlow h.now p.old.k p.old.limit level p.old.blocks a b) }
    ensures partition { IfOk result (λ r. p.new ≡ record p.old { blocks = after_round p.old.blocks r }) }
    ensures assigned { OnOk result (p.new.blocks ≡ reassigned p.old.blocks end.now.region end.now.blocks) }
{
    let _parted = p.blocks();
    let moves = assign_region(alloc, h, p, end.region.slice(), end.blocks.slice())?;
    round_of(alloc, level, a, b, before, end, moves)
}

/// Writes the blocks that moves lead to.
fn make_moves(blocks: &mut [u32], moves: &[Move])
    requires { All (λ m. m.vertex < length blocks.old) moves.now }
    ensures { blocks.new ≡ replay blocks.old moves.now }
{
    for step in moves {
        blocks[step.vertex as usize] = step.to;
    }
}

/// Records the moves that assign the region of a pair anew, as its end says, as a round, and writes where they
/// lead. The cost before it is known. The blocks are those of a partition of the same hypergraph into as many
/// blocks, with the same limit, as the one that is lent. Where there is no memory, they may have been written.
pub fn record_moves(
    alloc: Global,
    h: &Hypergraph,
    level: u32,
    p: &Partition,
    blocks: &mut [u32],
    a: u32,
    b: u32,
    before: u64,
    end: &PairEnd,
    moves: &Moves,
) -> Result<LoggedRound, NoMemory>
    requires belongs { p.now.hyper ≡ h.now }
    requires vertices { length blocks.old ≡ vertex_count h.now }
    requires before { before ≡ cost h.now blocks.old }
    requires small { before < 2 ^ 57 }
    requires end { IsPairEnd h.now p.now.k p.now.limit blocks.old a b end.now }
    requires moves { moves.now ≡ changes h.now blocks.old (reassigned blocks.old end.now.region end.now.blocks)
        end.now.region }
    ensures round { IfOk result (RecordsFlow h.now p.now.k p.now.limit level blocks.old a b) }
    ensures assigned { OnOk result (blocks.new ≡ reassigned blocks.old end.now.region end.now.blocks) }
    ensures replayed { IfOk result (λ r. blocks.new ≡ after_round blocks.old r) }
{
    let _parted = p.blocks();
    let made = moves.copy()?;
    make_moves(blocks, made.slice());
    round_of(alloc, level, a, b, before, end, made)
}
