ghost use Rattle.std.specs.Prelude.{◌≡◌, ◌⊎◌, All, IfOk, OnOk, None, false};
ghost use Rattle.hg_defs.specs.Partition.{Fits};
ghost use Rattle.hg_defs.specs.Hypergraph.{vertex_count};
ghost use Rattle.move_table.specs.Calls.{IsPassOf, stage_of};
ghost use Rattle.round_log.specs.declared.record.Kind.TheVariants.{Label, Search};

use hg_base::{Blocks, FREE, FlatHyper, Items, Move, NoMemory};
use incidence::Hypergraph;
use move_table::{Closed, Pass, Round};
use pin_plain::Partition;
use refiner::Log;
use round_log::{Kind, LoggedRound, RoundList};
use std::alloc::Global;
use std::process::Abort;
use std::test::Fail;
use std::thread::Threads;

/// One round of this kind and level without moves.
fn one_round(alloc: Global, kind: Kind, level: u32) -> Result<RoundList, Fail>
    ensures { IfOk result (λ rounds. All (λ r. r.tabled ≡ false) rounds) }
{
    let mut rounds = Vec::new(alloc);
    rounds.push(LoggedRound {
        kind,
        level,
        moves: Items::new(alloc),
        kept: 0,
        gains: Items::new(alloc),
        before: 3,
        made: 3,
        after: 3,
        first: 0,
        second: 0,
        region: Items::new(alloc),
        value: 0,
        tabled: false,
    })?;
    Ok(Items::from_vec(rounds))
}

/// Two vertices and the net of both.
fn one_net(alloc: Global) -> Result<Hypergraph, NoMemory>
    ensures { IfOk result (λ h. vertex_count h ≡ 2) }
{
    let mut flat = FlatHyper::start(alloc, 2)?;
    flat.push_net(5, &[0, 1])?;
    Hypergraph::build(alloc, flat)
}

/// Six vertices and four nets.
fn four_nets(alloc: Global) -> Result<Hypergraph, NoMemory> {
    let mut flat = FlatHyper::start(alloc, 6)?;
    flat.push_net(2, &[0, 4])?;
    flat.push_net(3, &[1, 5])?;
    flat.push_net(2, &[3, 4])?;
    flat.push_net(7, &[4, 5])?;
    Hypergraph::build(alloc, flat)
}

/// A partition into two blocks, which fits.
fn parted(
    rt: &impl Abort,
    alloc: Global,
    h: &Hypergraph,
    limit: u64,
    blocks: &[u32],
) -> Result<Partition, Fail>
    ensures belongs { IfOk result (λ p. p.hyper ≡ h.now) }
    ensures blocks { IfOk result (λ p. p.k ≡ 2) }
    ensures fits { IfOk result (λ p. Fits h.now p.k p.limit p.blocks) }
{
    assert_eq!(rt; blocks.len(), h.vertices() as usize);
    assert!(rt; blocks.iter().all(|b| *b < 2));
    assert!(rt; h.suits(2));
    assert!(rt; h.fixed_within(2));
    let p = Partition::of(alloc, h, 2, limit, Blocks::from_vec(blocks.to_vec(alloc)?))?;
    assert!(rt; p.fits());
    Ok(p)
}

/// A round of two passes that is closed before they moved a vertex.
fn idle_race(
    rt: &(impl Threads + Sync),
    alloc: Global,
    h: &Hypergraph,
    p: Partition,
) -> Result<Closed, NoMemory>
    requires belongs { p.hyper ≡ h.now }
    requires fits { Fits h.now p.k p.limit p.blocks }
    ensures { IfOk result (λ c. c.part.hyper ≡ h.now) }
{
    let Ok((round, passes)) = Round::open(rt, alloc, h, p, 2) else {
        return Err(NoMemory);
    };
    let Ok(closed) = round.close(rt, alloc, passes) else {
        return Err(NoMemory);
    };
    Ok(closed)
}

#[test]
fn rounds_in_order(rt: HostRuntime) -> Result<(), Fail> {
    let alloc = rt.alloc();
    let mut log = Log::new(alloc);
    assert!(rt; log.rounds().is_empty());
    log.add(one_round(alloc, Kind::Label, 2)?)?;
    log.add(one_round(alloc, Kind::Flow, 0)?)?;
    assert_eq!(rt; log.rounds().len(), 2);
    let rounds = log.into_rounds();
    for (place, round) in rounds.slice().iter().enumerate() {
        let kind = if place == 0 { Kind::Label } else { Kind::Flow };
        assert_eq!(rt; round.kind, kind);
        assert_eq!(rt; round.level, if place == 0 { 2 } else { 0 });
    }
    Ok(())
}

#[test]
fn race_without_moves(rt: HostRuntime) -> Result<(), Fail> {
    let alloc = rt.alloc();
    let h = one_net(alloc)?;
    let closed = idle_race(&rt, alloc, &h, parted(&rt, alloc, &h, 2, &[0, 1])?)?;
    let mut log = Log::new(alloc);
    let p = log.race(&rt, alloc, &h, Kind::Label, 1, closed)?;
    assert_eq!(rt; p.blocks(), [0, 1].as_slice());
    assert_eq!(rt; log.rounds().len(), 1);
    for round in log.rounds() {
        assert_eq!(rt;
            (round.kind, round.level, round.tabled),
            (Kind::Label, 1, true)
        );
        assert_eq!(rt; (round.before, round.made, round.after), (5, 5, 5));
        assert_eq!(rt; (round.moves.len(), round.kept), (0, 0));
        assert_eq!(rt; round.gains.slice(), [0, 0].as_slice());
    }
    Ok(())
}

/// A vertex, and the block to which it goes.
#[derive(Clone, Copy)]
struct Step {
    vertex: u32,
    to: u32,
}

/// Claims a vertex, reserves its room, and carries it.
fn carry(
    rt: &impl Abort,
    h: &Hypergraph,
    round: &Round,
    pass: &mut Pass,
    step: Option<Step>,
) -> Result<(), Fail>
    requires same { round.now.terms.part.hyper ≡ h.now }
    requires blocks { round.now.terms.part.k ≡ 2 }
    requires belongs { IsPassOf round.now pass.old }
    requires idle { pass.old.view.account.stage ≡ stage_of None }
    ensures belongs { IsPassOf round.now pass.new }
    ensures idle { OnOk result (pass.new.view.account.stage ≡ stage_of None) }
    ensures number { pass.new.view.number ≡ pass.old.view.number }
{
    let Some(Step { vertex, to }) = step else {
        return Ok(());
    };
    assert!(rt; vertex < h.vertices() && h.fix(vertex) == FREE);
    assert!(rt; to < 2 && to != round.opening(vertex));
    assert!(rt; pass.claim(round, vertex));
    let grant = pass.reserve(round, vertex, to)?;
    pass.room()?;
    pass.carry(round, grant);
    Ok(())
}

/// Closes a round of two passes.
fn closed(
    rt: &(impl Threads + Sync),
    alloc: Global,
    h: &Hypergraph,
    round: Round,
    first: Pass,
    second: Pass,
) -> Result<Closed, Fail>
    requires same { round.terms.part.hyper ≡ h.now }
    requires two { round.terms.workers ≡ 2 }
    requires first { IsPassOf round first × (first.view.account.stage ≡ stage_of None) × (first.view.number ≡ 0) }
    requires second { IsPassOf round second × (second.view.account.stage ≡ stage_of None) × (second.view.number ≡ 1) }
    ensures { IfOk result (λ c. c.part.hyper ≡ h.now) }
{
    let mut passes = Vec::with_capacity(alloc, 2)?;
    passes.push(first)?;
    passes.push(second)?;
    let Ok(closed) = round.close(rt, alloc, Items::from_vec(passes)) else {
        return Err(Fail::new("no memory"));
    };
    Ok(closed)
}

/// A race of two passes that take turns, each step behind the one before.
fn race_in_turn(
    rt: &(impl Threads + Sync),
    abort: &impl Abort,
    alloc: Global,
    h: &Hypergraph,
    p: Partition,
    turns: &[[Option<Step>; 2]; 2],
) -> Result<Closed, Fail>
    requires belongs { p.hyper ≡ h.now }
    requires blocks { p.k ≡ 2 }
    requires fits { Fits h.now p.k p.limit p.blocks }
    ensures { IfOk result (λ c. c.part.hyper ≡ h.now) }
{
    let Ok((round, passes)) = Round::open(rt, alloc, h, p, 2) else {
        return Err(Fail::new("no memory"));
    };
    let mut passes = passes.into_vec();
    let (Some(mut second), Some(mut first)) = (passes.pop(), passes.pop()) else {
        return Err(Fail::new("no pass"));
    };
    carry(abort, h, &round, &mut first, turns[0][0])?;
    carry(abort, h, &round, &mut second, turns[0][1])?;
    carry(abort, h, &round, &mut first, turns[1][0])?;
    carry(abort, h, &round, &mut second, turns[1][1])?;
    closed(rt, alloc, h, round, first, second)
}

/// A race, and what is recorded of it: the moves as they were made, how many were kept, what each pass booked,
/// the costs before, after all moves and after those that were kept, and the blocks then.
#[derive(Clone, Copy)]
struct Row<'a> {
    name: &'a str,
    has_four_nets: bool,
    limit: u64,
    opening: &'a [u32],
    turns: [[Option<Step>; 2]; 2],
    moves: &'a [Move],
    kept: u32,
    gains: &'a [i64],
    costs: [u64; 3],
    blocks: &'a [u32],
}

const ROWS: &[Row<'static>] = &[
    // Each pass sees a net of weight 5 in one block or in two; after the first step it costs nothing.
    Row {
        name: "swap",
        has_four_nets: false,
        limit: 2,
        opening: &[0, 1],
        turns: [
            [
                Some(Step { vertex: 0, to: 1 }),
                Some(Step { vertex: 1, to: 0 }),
            ],
            [None, None],
        ],
        moves: &[
            Move {
                vertex: 0,
                from: 0,
                to: 1,
                worker: 0,
                booked: 5,
            },
            Move {
                vertex: 1,
                from: 1,
                to: 0,
                worker: 1,
                booked: -5,
            },
        ],
        kept: 1,
        gains: &[5, -5],
        costs: [5, 5, 0],
        blocks: &[1, 1],
    },
    // The costs are 10, 12, 9, 9 and 11, so two moves are kept.
    Row {
        name: "four moves",
        has_four_nets: true,
        limit: 4,
        opening: &[0, 0, 1, 0, 0, 1],
        turns: [
            [
                Some(Step { vertex: 0, to: 1 }),
                Some(Step { vertex: 1, to: 1 }),
            ],
            [
                Some(Step { vertex: 2, to: 0 }),
                Some(Step { vertex: 3, to: 1 }),
            ],
        ],
        moves: &[
            Move {
                vertex: 0,
                from: 0,
                to: 1,
                worker: 0,
                booked: -2,
            },
            Move {
                vertex: 1,
                from: 0,
                to: 1,
                worker: 1,
                booked: 3,
            },
            Move {
                vertex: 2,
                from: 1,
                to: 0,
                worker: 0,
                booked: 0,
            },
            Move {
                vertex: 3,
                from: 0,
                to: 1,
                worker: 1,
                booked: -2,
            },
        ],
        kept: 2,
        gains: &[-2, 1],
        costs: [10, 11, 9],
        blocks: &[1, 1, 1, 0, 0, 1],
    },
];

/// Whether the logged round is that of the row.
fn is_recorded(row: &Row<'_>, kind: Kind, level: u32, round: &LoggedRound) -> bool {
    round.kind == kind
        && round.level == level
        && round.moves.slice() == row.moves
        && round.kept == row.kept
        && round.gains.slice() == row.gains
        && round.before == row.costs[0]
        && round.made == row.costs[1]
        && round.after == row.costs[2]
        && round.first == 0
        && round.second == 0
        && round.region.is_empty()
        && round.value == 0
        && round.tabled
}

/// Whether a race is rolled back and recorded as its row says, behind a round that was logged before.
fn is_raced<R: Threads + Sync>(
    rt: &R,
    abort: &impl Abort,
    alloc: Global,
    row: &Row<'_>,
    kind: Kind,
) -> Result<bool, Fail>
    requires { (kind ≡ Label) ⊎ (kind ≡ Search) }
{
    let h = if row.has_four_nets {
        four_nets(alloc)?
    } else {
        one_net(alloc)?
    };
    let p = parted(abort, alloc, &h, row.limit, row.opening)?;
    let closed = race_in_turn(rt, abort, alloc, &h, p, &row.turns)?;
    let mut log = Log::new(alloc);
    log.add(one_round(alloc, Kind::Flow, 0)?)?;
    let p = log.race(rt, alloc, &h, kind, 3, closed)?;
    let is_last = match log.rounds().last() {
        Some(round) => is_recorded(row, kind, 3, round),
        None => false,
    };
    Ok(is_last && log.rounds().len() == 2 && p.blocks() == row.blocks)
}

#[test]
fn race_with_moves(rt: HostRuntime) -> Result<(), Fail> {
    for row in ROWS {
        assert!(rt;
            is_raced(&rt, &rt, rt.alloc(), row, Kind::Label)?,
            "{}",
            row.name
        );
        assert!(rt;
            is_raced(&rt, &rt, rt.alloc(), row, Kind::Search)?,
            "{}",
            row.name
        );
    }
    Ok(())
}
