ghost use Rattle.std.specs.Prelude.{◌≡◌, ◌<◌, ◌≤◌, ◌^◌, IfOk, OnOk, IsTrue, length};
ghost use Rattle.hg_defs.specs.Hypergraph.{IsFixedWithin};
ghost use Rattle.hg_defs.specs.Partition.{IsPartition, Fits};

mod tables;

use super::*;
use crate::open::loads_of;
use hg_base::{FlatHyper, Move, NoMemory, Objective};
use std::alloc::Global;
use std::process::Abort;
use std::test::Fail;
use tables::{BARE, FULL_NET, LAST_PLACE, REFUSALS, STOPS, SWAP, THREE, TOGETHER, WIDE};

/// A round, and what its books must tell at its end.
#[derive(Clone, Copy)]
struct Round<'a> {
    k: u32,
    limit: u64,
    blocks: &'a [u32],
    passes: u32,
    /// Each event, and what it must find.
    events: &'a [(Event, u64)],
    claimed: &'a [bool],
    names: &'a [u32],
    loads: &'a [u64],
    /// For each net its count in each block.
    counts: &'a [&'a [u64]],
    spreads: &'a [u64],
    next: u64,
    cursor: u64,
    /// For each pass its stage, gain and moves, or `None` where it has ended.
    accounts: &'a [Option<(Stage, i64, &'a [Move])>],
}

/// Two passes at the opening of a round over two vertices on a net.
const UNMOVED: Round = Round {
    k: 2,
    limit: 2,
    blocks: &[0, 0],
    passes: 2,
    events: &[],
    claimed: &[false, false],
    names: &[0, 0],
    loads: &[2, 0],
    counts: &[&[2, 0]],
    spreads: &[65],
    next: 0,
    cursor: 0,
    accounts: &[Some((Stage::Idle, 0, &[])), Some((Stage::Idle, 0, &[]))],
};

fn told(stage: Stage, gain: i64, moves: &[Move]) -> Option<(Stage, i64, &[Move])> {
    Some((stage, gain, moves))
}

fn idle(gain: i64, moves: &[Move]) -> Option<(Stage, i64, &[Move])> {
    told(Stage::Idle, gain, moves)
}

fn granted(vertex: u32, from: u32, to: u32, seen: u64) -> Stage {
    Stage::Granted {
        vertex,
        from,
        to,
        seen,
    }
}

fn refused(vertex: u32, to: u32, seen: u64) -> Stage {
    Stage::Refused { vertex, to, seen }
}

fn moved(vertex: u32, from: u32, to: u32, worker: u32, booked: i64) -> Move {
    Move {
        vertex,
        from,
        to,
        worker,
        booked,
    }
}

/// Two vertices of weight 1, on a net of weight 5.
fn pair(alloc: Global, objective: Objective) -> Result<FlatHyper, NoMemory> {
    let mut h = FlatHyper::start(alloc, 2)?;
    h.push_net(5, &[0, 1])?;
    h.set_objective(objective);
    Ok(h)
}

/// Vertices of these weights, at most 16 and each below 2^32, without nets.
fn loose(rt: &impl Abort, alloc: Global, weights: &[u32]) -> Result<FlatHyper, Fail> {
    assert!(rt; weights.len() <= 16);
    let mut h = FlatHyper::start(alloc, weights.len() as u32)?;
    for (v, weight) in weights.iter().enumerate() {
        h.set_vertex_weight(v as u32, u64::from(*weight));
    }
    Ok(h)
}

/// Vertices of weight 1, all on one net of weight 1.
fn one_net(rt: &impl Abort, alloc: Global, vertices: u32) -> Result<FlatHyper, Fail>
    requires { vertices ≤ 2 ^ 22 }
{
    let mut pins = Vec::new(alloc);
    for v in 0..vertices {
        pins.push(v)?;
    }
    let mut h = FlatHyper::start(alloc, vertices)?;
    assert_eq!(rt; pins.len(), vertices as usize);
    assert!(rt; pins.iter().all(|v| *v < vertices));
    h.push_net(1, &pins)?;
    Ok(h)
}

/// Asserts that a round may be opened over the blocks.
fn assert_sound(
    rt: &impl Abort,
    alloc: Global,
    h: &FlatHyper,
    blocks: &[u32],
    k: u32,
    limit: u64,
) -> Result<(), Fail>
    ensures partition { OnOk result (IsPartition h.now k blocks.now) }
    ensures fits { OnOk result (Fits h.now k limit blocks.now) }
    ensures fixed { OnOk result (IsFixedWithin h.now k) }
{
    assert_eq!(rt; blocks.len(), h.vertices() as usize);
    assert!(rt; blocks.iter().all(|b| *b < k));
    assert!(rt; h.fixed_within(k));
    let loads = loads_of(alloc, h, blocks, k)?;
    assert!(rt; loads.iter().all(|load| *load <= limit));
    Ok(())
}

/// Runs a list of events from the opening.
fn run_over(
    rt: &impl Abort,
    alloc: Global,
    h: &FlatHyper,
    round: &Round,
    events: &[Event],
) -> Result<Result<Books, RunEnd>, Fail>
    ensures graph { IfOk result (λ end. IfOk end (λ books. books.setup.graph ≡ h.now)) }
    ensures blocks { IfOk result (λ end. IfOk end (λ books. books.setup.blocks ≡ round.now.k)) }
{
    assert_sound(rt, alloc, h, round.blocks, round.k, round.limit)?;
    assert!(rt; 1 <= round.passes && round.passes <= 64);
    assert!(rt; events.len() < 1 << 32);
    Ok(run(
        alloc,
        h,
        round.blocks,
        round.k,
        round.limit,
        round.passes,
        events,
    ))
}

/// Makes the events of a round one by one, and compares what each finds.
fn step_over(rt: &impl Abort, alloc: Global, h: &FlatHyper, round: &Round) -> Result<Books, Fail>
    ensures graph { IfOk result (λ books. books.setup.graph ≡ h.now) }
    ensures blocks { IfOk result (λ books. books.setup.blocks ≡ round.now.k) }
{
    assert_sound(rt, alloc, h, round.blocks, round.k, round.limit)?;
    assert!(rt; 1 <= round.passes && round.passes <= 64);
    let mut books = Books::open(alloc, h, round.blocks, round.k, round.limit, round.passes)?;
    for (event, found) in round.events {
        assert!(rt; books.enabled(h, *event), "{event:?}");
        assert_eq!(rt; books.step(h, *event)?, *found, "{event:?}");
    }
    Ok(books)
}

fn compare_words(rt: &impl Abort, h: &FlatHyper, books: &Books, round: &Round)
    requires graph { books.now.setup.graph ≡ h.now }
    requires blocks { books.now.setup.blocks ≡ round.now.k }
{
    assert_eq!(rt; round.claimed.len(), h.vertices() as usize);
    assert_eq!(rt; round.names.len(), h.vertices() as usize);
    for v in 0..h.vertices() {
        assert_eq!(rt; books.claimed(v), round.claimed[v as usize], "vertex {v}");
        assert_eq!(rt; books.name(v), round.names[v as usize], "vertex {v}");
    }
    assert_eq!(rt; round.loads.len(), round.k as usize);
    for b in 0..round.k {
        assert_eq!(rt; books.load(b), round.loads[b as usize], "block {b}");
    }
    assert_eq!(rt; round.spreads.len(), h.nets() as usize);
    for e in 0..h.nets() {
        assert_eq!(rt; books.spread(e), round.spreads[e as usize], "net {e}");
    }
    assert_eq!(rt; (books.next(), books.cursor()), (round.next, round.cursor));
}

fn compare_counts(rt: &impl Abort, h: &FlatHyper, books: &Books, round: &Round)
    requires graph { books.now.setup.graph ≡ h.now }
    requires blocks { books.now.setup.blocks ≡ round.now.k }
{
    assert_eq!(rt; round.counts.len(), h.nets() as usize);
    for e in 0..h.nets() {
        let counts = round.counts[e as usize];
        assert_eq!(rt; counts.len(), round.k as usize);
        for b in 0..round.k {
            assert_eq!(rt;
                books.count(e, b),
                counts[b as usize],
                "net {e} in block {b}"
            );
        }
    }
}

/// Whether the pass is live.
fn is_live(h: &FlatHyper, books: &Books, pass: u32) -> bool
    requires { books.now.setup.graph ≡ h.now }
    ensures { IsTrue result → pass < length books.now.accounts }
{
    let word = Word::Next;
    books.enabled(h, Event::Peek { pass, word })
}

fn compare_accounts(rt: &impl Abort, h: &FlatHyper, books: &Books, round: &Round)
    requires { books.now.setup.graph ≡ h.now }
{
    assert!(rt; round.accounts.len() <= 64);
    for (pass, account) in round.accounts.iter().enumerate() {
        let pass = pass as u32;
        let live = is_live(h, books, pass);
        assert_eq!(rt; live, account.is_some(), "pass {pass}");
        if let Some((stage, gain, moves)) = account
            && live
        {
            assert_eq!(rt; books.stage(pass), *stage, "pass {pass}");
            assert_eq!(rt; books.gain(pass), *gain, "pass {pass}");
            assert_eq!(rt; books.moves(pass), *moves, "pass {pass}");
        }
    }
    assert!(rt; !is_live(h, books, round.accounts.len() as u32));
}

fn compare(rt: &impl Abort, h: &FlatHyper, books: &Books, round: &Round)
    requires graph { books.now.setup.graph ≡ h.now }
    requires blocks { books.now.setup.blocks ≡ round.now.k }
{
    compare_words(rt, h, books, round);
    compare_counts(rt, h, books, round);
    compare_accounts(rt, h, books, round);
}

/// Makes the events of a round, one by one and as a list.
fn try_round(rt: &impl Abort, alloc: Global, h: &FlatHyper, round: &Round) -> Result<(), Fail> {
    let stepped = step_over(rt, alloc, h, round)?;
    compare(rt, h, &stepped, round);
    let mut events = Vec::new(alloc);
    for (event, _found) in round.events {
        events.push(*event)?;
    }
    let ran = run_over(rt, alloc, h, round, &events)??;
    compare(rt, h, &ran, round);
    Ok(())
}

/// Asserts that a list of events stops at a place.
fn try_stop(
    rt: &impl Abort,
    alloc: Global,
    h: &FlatHyper,
    round: &Round,
    events: &[Event],
    at: u32,
) -> Result<(), Fail> {
    let end = run_over(rt, alloc, h, round, events)?.err();
    if end == Some(RunEnd::NoMemory) {
        return Err(Fail::from(NoMemory));
    }
    assert_eq!(rt; end, Some(RunEnd::NotEnabled { at }));
    Ok(())
}

#[test]
fn moves_together(rt: HostRuntime) -> Result<(), Fail> {
    for (objective, lost, won) in [
        (Objective::Connectivity, -5, 5),
        (Objective::CutNet, -5, 5),
        (Objective::ExternalDegree, -10, 10),
    ] {
        let h = pair(rt.alloc(), objective)?;
        let moves = [moved(0, 0, 1, 0, lost), moved(1, 0, 1, 1, won)];
        let round = Round {
            k: 2,
            limit: 2,
            blocks: &[0, 0],
            passes: 2,
            events: TOGETHER,
            claimed: &[true, true],
            names: &[1, 1],
            loads: &[0, 2],
            counts: &[&[0, 2]],
            spreads: &[65],
            next: 2,
            cursor: 0,
            accounts: &[idle(lost, &moves[..1]), idle(won, &moves[1..])],
        };
        try_round(&rt, rt.alloc(), &h, &round)?;
    }
    Ok(())
}

#[test]
fn swaps_book_nothing(rt: HostRuntime) -> Result<(), Fail> {
    let moves = [moved(0, 0, 1, 0, 0), moved(1, 1, 0, 1, 0)];
    let round = Round {
        k: 2,
        limit: 2,
        blocks: &[0, 1],
        passes: 2,
        events: SWAP,
        claimed: &[true, true],
        names: &[1, 0],
        loads: &[1, 1],
        counts: &[&[1, 1]],
        spreads: &[66],
        next: 2,
        cursor: 0,
        accounts: &[idle(0, &moves[..1]), idle(0, &moves[1..])],
    };
    for objective in [
        Objective::Connectivity,
        Objective::CutNet,
        Objective::ExternalDegree,
    ] {
        let h = pair(rt.alloc(), objective)?;
        try_round(&rt, rt.alloc(), &h, &round)?;
    }
    Ok(())
}

#[test]
fn refuses_the_second_of_two(rt: HostRuntime) -> Result<(), Fail> {
    let h = loose(&rt, rt.alloc(), &[1, 1, 1, 1, 1])?;
    for (events, load, second) in [
        (&LAST_PLACE[..4], 5, refused(1, 1, 4)),
        (LAST_PLACE, 4, Stage::Idle),
    ] {
        let round = Round {
            k: 2,
            limit: 4,
            blocks: &[0, 0, 1, 1, 1],
            passes: 2,
            events,
            claimed: &[true, true, false, false, false],
            names: &[0, 0, 1, 1, 1],
            loads: &[2, load],
            counts: &[],
            spreads: &[],
            next: 0,
            cursor: 0,
            accounts: &[told(granted(0, 0, 1, 3), 0, &[]), told(second, 0, &[])],
        };
        try_round(&rt, rt.alloc(), &h, &round)?;
    }
    Ok(())
}

#[test]
fn refuses_both_and_grants_again(rt: HostRuntime) -> Result<(), Fail> {
    let h = loose(&rt, rt.alloc(), &[3, 1, 1, 1])?;
    for (events, load, first, second) in [
        (&REFUSALS[..4], 6, refused(0, 1, 2), refused(1, 1, 5)),
        (REFUSALS, 3, Stage::Idle, granted(1, 0, 1, 2)),
    ] {
        let round = Round {
            k: 2,
            limit: 4,
            blocks: &[0, 0, 1, 1],
            passes: 2,
            events,
            claimed: &[true, true, false, false],
            names: &[0, 0, 1, 1],
            loads: &[4, load],
            counts: &[],
            spreads: &[],
            next: 0,
            cursor: 0,
            accounts: &[told(first, 0, &[]), told(second, 0, &[])],
        };
        try_round(&rt, rt.alloc(), &h, &round)?;
    }
    Ok(())
}

#[test]
fn three_passes_on_one_net(rt: HostRuntime) -> Result<(), Fail> {
    let mut h = FlatHyper::start(rt.alloc(), 3)?;
    h.push_net(4, &[0, 1, 2])?;
    let moves = [
        moved(0, 0, 1, 0, -4),
        moved(1, 0, 1, 1, 4),
        moved(2, 0, 1, 2, 0),
    ];
    let round = Round {
        k: 2,
        limit: 3,
        blocks: &[0, 0, 0],
        passes: 3,
        events: THREE,
        claimed: &[true, true, true],
        names: &[1, 1, 1],
        loads: &[0, 3],
        counts: &[&[0, 3]],
        spreads: &[65],
        next: 3,
        cursor: 0,
        accounts: &[
            idle(-4, &moves[..1]),
            idle(4, &moves[1..2]),
            idle(0, &moves[2..]),
        ],
    };
    try_round(&rt, rt.alloc(), &h, &round)
}

#[test]
fn net_of_most_pins(rt: HostRuntime) -> Result<(), Fail> {
    let h = one_net(&rt, rt.alloc(), 65535)?;
    let blocks = vec![in rt.alloc(); 0u32; 65535]?;
    let mut claimed = vec![in rt.alloc(); false; 65535]?;
    claimed[0] = true;
    let mut names = vec![in rt.alloc(); 0u32; 65535]?;
    names[0] = 1;
    let moves = [moved(0, 0, 1, 0, -1)];
    let round = Round {
        k: 2,
        limit: 65536,
        blocks: &blocks,
        passes: 1,
        events: FULL_NET,
        claimed: &claimed,
        names: &names,
        loads: &[65534, 1],
        counts: &[&[65534, 1]],
        spreads: &[66],
        next: 1,
        cursor: 0,
        accounts: &[idle(-1, &moves)],
    };
    try_round(&rt, rt.alloc(), &h, &round)
}

#[test]
fn seeds_peeks_splits_and_joins(rt: HostRuntime) -> Result<(), Fail> {
    let mut h = FlatHyper::start(rt.alloc(), 3)?;
    h.set_vertex_weight(1, 2);
    h.set_vertex_weight(2, 3);
    h.push_net(5, &[0, 1])?;
    h.push_net(4, &[1, 2])?;
    let moves = [moved(1, 0, 1, 0, -1), moved(2, 1, 0, 1, -4)];
    let round = Round {
        k: 2,
        limit: 5,
        blocks: &[0, 0, 1],
        passes: 1,
        events: WIDE,
        claimed: &[true, true, true],
        names: &[0, 1, 0],
        loads: &[4, 2],
        counts: &[&[1, 1], &[1, 1]],
        spreads: &[66, 66],
        next: 2,
        cursor: 3,
        accounts: &[idle(-5, &moves), None, None],
    };
    try_round(&rt, rt.alloc(), &h, &round)
}

#[test]
fn rounds_without_vertices(rt: HostRuntime) -> Result<(), Fail> {
    let h = FlatHyper::start(rt.alloc(), 0)?;
    let round = Round {
        k: 1,
        limit: 0,
        blocks: &[],
        passes: 2,
        events: BARE,
        claimed: &[],
        names: &[],
        loads: &[0],
        counts: &[],
        spreads: &[],
        next: 0,
        cursor: 2,
        accounts: &[idle(0, &[]), None, idle(0, &[])],
    };
    try_round(&rt, rt.alloc(), &h, &round)
}

#[test]
fn stops_at_the_first_disabled_event(rt: HostRuntime) -> Result<(), Fail> {
    let h = pair(rt.alloc(), Objective::Connectivity)?;
    try_round(&rt, rt.alloc(), &h, &UNMOVED)?;
    for (events, at) in STOPS {
        try_stop(&rt, rt.alloc(), &h, &UNMOVED, events, *at)?;
    }
    Ok(())
}

#[test]
fn claims_no_fixed_vertex(rt: HostRuntime) -> Result<(), Fail> {
    let mut h = pair(rt.alloc(), Objective::Connectivity)?;
    assert_eq!(rt; h.vertices(), 2);
    h.set_fix(1, 0);
    let events = [
        Event::Claim { pass: 0, vertex: 0 },
        Event::Claim { pass: 0, vertex: 1 },
    ];
    try_stop(&rt, rt.alloc(), &h, &UNMOVED, &events, 1)
}

#[test]
fn makes_at_most_64_passes(rt: HostRuntime) -> Result<(), Fail> {
    let h = pair(rt.alloc(), Objective::Connectivity)?;
    let round = Round {
        passes: 63,
        ..UNMOVED
    };
    let events = [
        Event::Split { pass: 62 },
        Event::Join { pass: 0, other: 63 },
        Event::Split { pass: 0 },
    ];
    try_stop(&rt, rt.alloc(), &h, &round, &events, 2)
}
