ghost use Rattle.std.specs.Prelude.{◌≡◌, ◌<◌, IfOk, OnOk};
ghost use Rattle.hg_defs.specs.Hypergraph.{vertex_count};
ghost use Rattle.hg_defs.specs.Partition.{Fits};
ghost use Rattle.move_core.specs.declared.account.Stage.TheVariants.{Idle};
ghost use Rattle.move_table.specs.Calls.{IsPassOf, granted};
ghost use Rattle.move_table.specs.Closing.{ArePassesOf};

use crate::{Closed, Full, Grant, Pass, Round};
use hg_base::{Blocks, FREE, FlatHyper, Items, Move, NoMemory, Objective, field};
use incidence::Hypergraph;
use pin_plain::Partition;
use std::alloc::Global;
use std::process::Abort;
use std::sync::atomic::AtomicU64;
use std::sync::atomic::Ordering::SeqCst;
use std::test::Fail;
use std::thread::{Threads, for_each_mut};

/// Two vertices in one net of weight 5.
fn one_net(alloc: Global, objective: Objective) -> Result<Hypergraph, NoMemory> {
    let mut flat = FlatHyper::start(alloc, 2)?;
    flat.push_net(5, &[0, 1])?;
    flat.set_objective(objective);
    Hypergraph::build(alloc, flat)
}

/// Seven vertices and four nets.
fn four_nets(alloc: Global) -> Result<Hypergraph, NoMemory> {
    let mut flat = FlatHyper::start(alloc, 7)?;
    flat.push_net(2, &[0, 1])?;
    flat.push_net(3, &[0, 6, 4, 5])?;
    flat.push_net(8, &[4, 5, 3])?;
    flat.push_net(7, &[1, 2, 3])?;
    Hypergraph::build(alloc, flat)
}

/// The numbers below another one.
fn numbers(alloc: Global, n: u32) -> Result<Vec<u32>, NoMemory> {
    let mut numbers = Vec::with_capacity(alloc, n as usize)?;
    for v in 0..n {
        numbers.push(v)?;
    }
    Ok(numbers)
}

/// Vertices and nets of weight 1, whose pins stand one net after the other, each net with so many.
fn netted(
    rt: &impl Abort,
    alloc: Global,
    objective: Objective,
    vertices: u32,
    size: usize,
    pins: &[u32],
) -> Result<Hypergraph, Fail> {
    assert!(rt; vertices <= 65_536 && size > 0);
    let mut flat = FlatHyper::start(alloc, vertices)?;
    flat.set_objective(objective);
    let mut given = 0;
    for net in pins.chunks(size) {
        assert!(rt; net.iter().all(|v| *v < vertices));
        assert!(rt; 0 < net.len() && net.len() <= 65_536 - given);
        given += net.len();
        flat.push_net(1, net)?;
    }
    Ok(Hypergraph::build(alloc, flat)?)
}

/// The partition of these blocks, which fits.
fn parted(
    rt: &impl Abort,
    alloc: Global,
    h: &Hypergraph,
    k: u32,
    limit: u64,
    blocks: Vec<u32>,
) -> Result<Partition, Fail>
    ensures belongs { IfOk result (λ p. p.hyper ≡ h.now) }
    ensures fits { IfOk result (λ p. Fits p.hyper p.k p.limit p.blocks) }
{
    assert!(rt; 2 <= k && k <= 256);
    assert_eq!(rt; blocks.len(), h.vertices() as usize);
    assert!(rt; blocks.iter().all(|b| *b < k));
    assert!(rt; h.suits(k));
    assert!(rt; h.fixed_within(k));
    let p = Partition::of(alloc, h, k, limit, Blocks::from_vec(blocks))?;
    assert!(rt; p.fits());
    Ok(p)
}

/// What a pass finds where it moves a vertex: the load of the new block, the pins of the first net in
/// the new block and in the old one, and the number of its blocks; and what it books.
#[derive(Clone, Copy)]
struct Finds {
    load: u64,
    pins: [u64; 2],
    blocks: i64,
    gain: i64,
}

/// Claims a vertex, and reserves its room in a block that has this load.
fn take(
    rt: &impl Abort,
    round: &Round,
    pass: &mut Pass,
    v: u32,
    to: u32,
    load: u64,
) -> Result<Grant, Fail>
    requires belongs { IsPassOf round.now pass.old }
    requires idle { pass.old.view.account.stage ≡ Idle }
    ensures belongs { IsPassOf round.now pass.new }
    ensures held { IfOk result (λ grant. pass.new.view.account.stage ≡ granted grant) }
    ensures number { pass.new.view.number ≡ pass.old.view.number }
    ensures vertex { v < vertex_count round.now.terms.part.hyper }
    ensures block { to < round.now.terms.part.k }
{
    assert!(rt; v < round.hyper().vertices() && round.hyper().fix(v) == FREE);
    assert!(rt; to < round.terms.part.k() && to != round.opening(v));
    assert!(rt; pass.claim(round, v));
    let grant = pass.reserve(round, v, to)?;
    assert_eq!(rt; (grant.seen, pass.held()), (load, Some(grant)));
    Ok(grant)
}

/// Claims a vertex, finds no room in a block that has this load, and gives the vertex back.
fn refuse(
    rt: &impl Abort,
    round: &Round,
    pass: &mut Pass,
    v: u32,
    to: u32,
    load: u64,
) -> Result<(), Fail>
    requires belongs { IsPassOf round.now pass.old }
    requires idle { pass.old.view.account.stage ≡ Idle }
    ensures belongs { IsPassOf round.now pass.new }
    ensures idle { OnOk result (pass.new.view.account.stage ≡ Idle) }
    ensures number { pass.new.view.number ≡ pass.old.view.number }
{
    assert!(rt; v < round.hyper().vertices() && round.hyper().fix(v) == FREE);
    assert!(rt; to < round.terms.part.k() && to != round.opening(v));
    assert!(rt; pass.claim(round, v));
    let Err(full) = pass.reserve(round, v, to) else {
        return Err(Fail::new("there was room"));
    };
    assert_eq!(rt; full, Full { seen: load });
    assert_eq!(rt; pass.peek_weight(round, to), load);
    pass.unclaim(round, v);
    Ok(())
}

/// Checks what a pass reads of the first net.
fn peek(rt: &impl Abort, round: &Round, pass: &mut Pass, from: u32, to: u32, finds: Finds)
    requires belongs { IsPassOf round.now pass.old }
    requires from { from < round.now.terms.part.k }
    requires to { to < round.now.terms.part.k }
    ensures belongs { IsPassOf round.now pass.new }
    ensures account { pass.new.view.account ≡ pass.old.view.account }
    ensures number { pass.new.view.number ≡ pass.old.view.number }
    ensures spare { pass.new.spare ≡ pass.old.spare }
{
    assert!(rt; 0 < round.hyper().nets() && to < 2);
    assert_eq!(rt; pass.peek_count(round, 0, to), finds.pins[0]);
    assert_eq!(rt; pass.peek_count(round, 0, from), finds.pins[1]);
    let counts = pass.peek_counts(round, 0, 0);
    assert_eq!(rt; field(counts, round.count_bits(0), to), finds.pins[0]);
    assert_eq!(rt; pass.peek_spread(round, 0), finds.blocks);
}

/// Claims a vertex, reserves its room, and carries it, one step after the other.
fn try_move(
    rt: &impl Abort,
    round: &Round,
    pass: &mut Pass,
    v: u32,
    to: u32,
    finds: Finds,
) -> Result<(), Fail>
    requires belongs { IsPassOf round.now pass.old }
    requires idle { pass.old.view.account.stage ≡ Idle }
    ensures belongs { IsPassOf round.now pass.new }
    ensures idle { OnOk result (pass.new.view.account.stage ≡ Idle) }
    ensures number { pass.new.view.number ≡ pass.old.view.number }
{
    let grant = take(rt, round, pass, v, to, finds.load)?;
    peek(rt, round, pass, round.opening(v), to, finds);
    pass.room()?;
    assert_eq!(rt; pass.carry(round, grant), finds.gain);
    assert_eq!(rt; (pass.peek_name(round, v), pass.held()), (to, None));
    Ok(())
}

/// Opens a round of two passes.
fn opened<'h>(
    rt: &(impl Threads + Sync + Abort),
    alloc: Global,
    h: &'h Hypergraph,
    p: Partition,
) -> Result<(Round<'h>, Pass, Pass), Fail>
    requires belongs { p.hyper ≡ h.now }
    requires fits { Fits p.hyper p.k p.limit p.blocks }
    ensures terms { IfOk result (λ r. r.0.terms ≡ record { part = p; workers = 2 }) }
    ensures seeds { IfOk result (λ r. (r.1.view.account.seeds ≡ 0) × (r.2.view.account.seeds ≡ 0)) }
    ensures first { IfOk result (λ r. IsPassOf r.0 r.1 × (r.1.view.account.stage ≡ Idle) × (r.1.view.number ≡ 0)) }
    ensures second { IfOk result (λ r. IsPassOf r.0 r.2 × (r.2.view.account.stage ≡ Idle) × (r.2.view.number ≡ 1)) }
{
    let Ok((round, passes)) = Round::open(rt, alloc, h, p, 2) else {
        return Err(Fail::new("no memory"));
    };
    let mut passes = passes.into_vec();
    let (Some(second), Some(first)) = (passes.pop(), passes.pop()) else {
        return Err(Fail::new("no pass"));
    };
    assert_eq!(rt; (first.number(), second.number()), (0, 1));
    Ok((round, first, second))
}

/// Closes a round of two passes, and tries it once more where there was no memory.
fn closed(
    rt: &(impl Threads + Sync),
    alloc: Global,
    round: Round,
    first: Pass,
    second: Pass,
) -> Result<Closed, Fail>
    requires two { round.terms.workers ≡ 2 }
    requires first { IsPassOf round first × (first.view.account.stage ≡ Idle) × (first.view.number ≡ 0) }
    requires second { IsPassOf round second × (second.view.account.stage ≡ Idle) × (second.view.number ≡ 1) }
{
    let mut passes = Vec::with_capacity(alloc, 2)?;
    passes.push(first)?;
    passes.push(second)?;
    match round.close(rt, alloc, Items::from_vec(passes)) {
        Ok(closed) => Ok(closed),
        Err((round, passes, NoMemory)) => match round.close(rt, alloc, passes) {
            Ok(closed) => Ok(closed),
            Err(_) => Err(Fail::new("no memory")),
        },
    }
}

/// Moves vertex 0 by one pass and then vertex 1 by another one.
fn try_both(
    rt: &(impl Threads + Sync + Abort),
    alloc: Global,
    h: &Hypergraph,
    p: Partition,
    to: [u32; 2],
    finds: [Finds; 2],
) -> Result<Closed, Fail>
    requires belongs { p.hyper ≡ h.now }
    requires fits { Fits p.hyper p.k p.limit p.blocks }
{
    let (round, mut first, mut second) = opened(rt, alloc, h, p)?;
    try_move(rt, &round, &mut first, 0, to[0], finds[0])?;
    try_move(rt, &round, &mut second, 1, to[1], finds[1])?;
    closed(rt, alloc, round, first, second)
}

/// What the first pin of a net in its new block finds, and what the second one does.
fn first_pin(load: u64, gain: i64) -> Finds {
    Finds {
        load,
        pins: [0, 2],
        blocks: 1,
        gain,
    }
}

fn second_pin(load: u64, gain: i64) -> Finds {
    Finds {
        load,
        pins: [1, 1],
        blocks: 2,
        gain,
    }
}

/// Whether a round left the moves of vertices 0 and 1, each by the pass of its number.
fn has_left(closed: &Closed, from: [u32; 2], to: [u32; 2], gains: [i64; 2]) -> bool {
    let first = Move {
        vertex: 0,
        from: from[0],
        to: to[0],
        worker: 0,
        booked: gains[0],
    };
    let second = Move {
        vertex: 1,
        from: from[1],
        to: to[1],
        worker: 1,
        booked: gains[1],
    };
    closed.moves() == [first, second].as_slice()
        && closed.part().blocks() == to.as_slice()
        && closed.gains() == gains.as_slice()
}

/// Tries two moves on one net.
fn try_row(
    rt: &(impl Threads + Sync + Abort),
    alloc: Global,
    objective: Objective,
    blocks: [u32; 2],
    to: [u32; 2],
    finds: [Finds; 2],
) -> Result<(), Fail> {
    let h = one_net(alloc, objective)?;
    let p = parted(rt, alloc, &h, 2, 2, blocks.to_vec(alloc)?)?;
    let closed = try_both(rt, alloc, &h, p, to, finds)?;
    assert!(rt; has_left(&closed, blocks, to, [finds[0].gain, finds[1].gain]));
    Ok(())
}

#[test]
fn moves_in_turn(rt: HostRuntime) -> Result<(), Fail> {
    for (objective, loss, gain) in [
        (Objective::Connectivity, -5, 5),
        (Objective::CutNet, -5, 5),
        (Objective::ExternalDegree, -10, 10),
    ] {
        let apart = [first_pin(0, loss), second_pin(1, gain)];
        try_row(&rt, rt.alloc(), objective, [0, 0], [1, 1], apart)?;
        let swap = [second_pin(1, gain), first_pin(0, loss)];
        try_row(&rt, rt.alloc(), objective, [0, 1], [1, 0], swap)?;
    }
    Ok(())
}

/// Tries two moves on a net of all vertices of the first block.
fn try_wide(
    rt: &(impl Threads + Sync + Abort),
    alloc: Global,
    vertices: u32,
    pins: u64,
) -> Result<(), Fail> {
    let all = numbers(alloc, vertices)?;
    let h = netted(
        rt,
        alloc,
        Objective::Connectivity,
        vertices,
        all.len(),
        all.as_slice(),
    )?;
    let p = parted(
        rt,
        alloc,
        &h,
        2,
        65_536,
        vec![in alloc; 0u32; vertices as usize]?,
    )?;
    let finds = [
        Finds {
            load: 0,
            pins: [0, pins],
            blocks: 1,
            gain: -1,
        },
        Finds {
            load: 1,
            pins: [1, pins.wrapping_sub(1)],
            blocks: 2,
            gain: 0,
        },
    ];
    let closed = try_both(rt, alloc, &h, p, [1, 1], finds)?;
    assert_eq!(rt; closed.gains(), [-1, 0].as_slice());
    Ok(())
}

#[test]
fn wide_counts(rt: HostRuntime) -> Result<(), Fail> {
    try_wide(&rt, rt.alloc(), 65_535, 65_535)
}

/// Makes the move of a grant, or gives the grant up, as a pass does without memory. Says whether it
/// moved.
fn end_grant(round: &Round, pass: &mut Pass, grant: Grant, moves: bool) -> bool
    requires belongs { IsPassOf round.now pass.old }
    requires held { pass.old.view.account.stage ≡ granted grant }
    ensures belongs { IsPassOf round.now pass.new }
    ensures idle { pass.new.view.account.stage ≡ Idle }
    ensures number { pass.new.view.number ≡ pass.old.view.number }
{
    let moved = moves && pass.room().is_ok();
    if moved {
        pass.carry(round, grant);
    } else {
        pass.cancel(round, grant);
    }
    moved
}

/// Moves the second vertex, or claims the third one and stops.
fn end_second(rt: &impl Abort, round: &Round, pass: &mut Pass, moves: bool) -> Result<(), Fail>
    requires belongs { IsPassOf round.now pass.old }
    requires idle { pass.old.view.account.stage ≡ Idle }
    ensures belongs { IsPassOf round.now pass.new }
    ensures idle { OnOk result (pass.new.view.account.stage ≡ Idle) }
    ensures number { pass.new.view.number ≡ pass.old.view.number }
{
    if moves {
        let grant = take(rt, round, pass, 1, 1, 3)?;
        end_grant(round, pass, grant, true);
        return Ok(());
    }
    assert!(rt; 2 < round.hyper().vertices() && round.hyper().fix(2) == FREE);
    assert!(rt; pass.claim(round, 2));
    Ok(())
}

/// The first pass has a grant while the second one is refused; then each ends.
fn try_refusal(
    rt: &(impl Threads + Sync + Abort),
    alloc: Global,
    h: &Hypergraph,
    p: Partition,
    moves: [bool; 2],
) -> Result<Closed, Fail>
    requires belongs { p.hyper ≡ h.now }
    requires fits { Fits p.hyper p.k p.limit p.blocks }
{
    let (round, mut first, mut second) = opened(rt, alloc, h, p)?;
    let grant = take(rt, &round, &mut first, 0, 1, 3)?;
    refuse(rt, &round, &mut second, 1, 1, 4)?;
    end_grant(&round, &mut first, grant, moves[0]);
    end_second(rt, &round, &mut second, moves[1])?;
    closed(rt, alloc, round, first, second)
}

/// Tries a row of moves that are made or given up.
fn try_ends(
    rt: &(impl Threads + Sync + Abort),
    alloc: Global,
    moves: [bool; 2],
    after: [u32; 5],
    count: usize,
) -> Result<(), Fail> {
    let h = netted(rt, alloc, Objective::Connectivity, 5, 1, &[])?;
    let p = parted(rt, alloc, &h, 2, 4, [0u32, 0, 1, 1, 1].to_vec(alloc)?)?;
    let closed = try_refusal(rt, alloc, &h, p, moves)?;
    assert_eq!(rt; closed.part().blocks(), after.as_slice());
    assert_eq!(rt; closed.gains(), [0, 0].as_slice());
    assert_eq!(rt; closed.moves().len(), count);
    Ok(())
}

#[test]
fn refusals(rt: HostRuntime) -> Result<(), Fail> {
    try_ends(&rt, rt.alloc(), [true, false], [1, 0, 1, 1, 1], 1)?;
    try_ends(&rt, rt.alloc(), [false, true], [0, 1, 1, 1, 1], 1)?;
    try_ends(&rt, rt.alloc(), [false, false], [0, 0, 1, 1, 1], 0)
}

/// Whether a round left the move of vertex 0 from block 0 to block 1, which cuts the net of weight
/// 5, or nothing.
fn has_left_one(closed: &Closed, moved: bool) -> bool {
    if !moved {
        return closed.moves().is_empty()
            && closed.part().blocks() == [0, 0].as_slice()
            && closed.gains() == [0, 0].as_slice();
    }
    let away = Move {
        vertex: 0,
        from: 0,
        to: 1,
        worker: 0,
        booked: -5,
    };
    closed.moves() == [away].as_slice()
        && closed.part().blocks() == [1, 0].as_slice()
        && closed.gains() == [-5, 0].as_slice()
}

/// Moves vertex 0 where there is room for its move, closes, and says whether it moved.
fn try_memory(
    rt: &(impl Threads + Sync + Abort),
    alloc: Global,
    h: &Hypergraph,
    p: Partition,
) -> Result<(Closed, bool), Fail>
    requires belongs { p.hyper ≡ h.now }
    requires fits { Fits p.hyper p.k p.limit p.blocks }
{
    let (round, mut first, second) = opened(rt, alloc, h, p)?;
    let grant = take(rt, &round, &mut first, 0, 1, 0)?;
    let moved = end_grant(&round, &mut first, grant, true);
    Ok((closed(rt, alloc, round, first, second)?, moved))
}

/// With ample memory the move is made and the first close answers. Where room for the move is
/// refused nothing has moved, and where a close is refused the next one leaves the same.
#[test]
fn refused_memory(rt: HostRuntime) -> Result<(), Fail> {
    let h = one_net(rt.alloc(), Objective::Connectivity)?;
    let p = parted(&rt, rt.alloc(), &h, 2, 2, vec![in rt.alloc(); 0u32; 2]?)?;
    let (closed, moved) = try_memory(&rt, rt.alloc(), &h, p)?;
    assert!(rt; has_left_one(&closed, moved));
    Ok(())
}

/// A vertex that another pass has, and the cursor.
fn try_shared(rt: &impl Abort, round: &Round, first: &mut Pass, second: &mut Pass)
    requires first { IsPassOf round.now first.old }
    requires second { IsPassOf round.now second.old }
    requires idle { (first.old.view.account.stage ≡ Idle) × (second.old.view.account.stage ≡ Idle) }
    requires seeds { (first.old.view.account.seeds ≡ 0) × (second.old.view.account.seeds ≡ 0) }
{
    assert!(rt; first.next_seed(round) == 0);
    assert!(rt; second.next_seed(round) == 1);
    assert!(rt; 3 < round.hyper().vertices() && round.hyper().fix(3) == FREE);
    assert!(rt; first.claim(round, 3));
    assert!(rt; !second.claim(round, 3));
}

#[test]
fn words_claims_and_seeds(rt: HostRuntime) -> Result<(), Fail> {
    let h = four_nets(rt.alloc())?;
    let p = parted(&rt, rt.alloc(), &h, 2, 7, vec![in rt.alloc(); 0u32; 7]?)?;
    let (round, mut first, mut second) = opened(&rt, rt.alloc(), &h, p)?;
    try_shared(&rt, &round, &mut first, &mut second);
    assert!(rt; round.words() == 26);
    Ok(())
}

/// Tries to move a vertex to the block behind its own, and gives it back where there is no room.
fn try_next(round: &Round, pass: &mut Pass, v: u32, refused: &AtomicU64)
    requires belongs { IsPassOf round.now pass.old }
    requires idle { pass.old.view.account.stage ≡ Idle }
    requires vertex { v < vertex_count round.now.terms.part.hyper }
    ensures belongs { IsPassOf round.now pass.new }
    ensures idle { pass.new.view.account.stage ≡ Idle }
    ensures number { pass.new.view.number ≡ pass.old.view.number }
{
    let k = round.terms.part.k();
    let from = round.opening(v);
    let to = if from + 1 < k { from + 1 } else { 0 };
    if to == from || round.hyper().fix(v) != FREE || !pass.claim(round, v) {
        return;
    }
    match pass.reserve(round, v, to) {
        Ok(grant) => {
            end_grant(round, pass, grant, true);
        }
        Err(Full { seen: _ }) => {
            refused.fetch_add(1, SeqCst);
            pass.unclaim(round, v);
        }
    }
}

/// Tries every vertex.
fn try_all(round: &Round, pass: &mut Pass, refused: &AtomicU64)
    requires belongs { IsPassOf round.now pass.old }
    requires idle { pass.old.view.account.stage ≡ Idle }
    ensures belongs { IsPassOf round.now pass.new }
    ensures idle { pass.new.view.account.stage ≡ Idle }
    ensures number { pass.new.view.number ≡ pass.old.view.number }
{
    for v in 0..round.hyper().vertices() {
        try_next(round, pass, v, refused);
    }
}

/// All passes try every vertex, each in a thread of its own.
fn race<R: Threads + Sync>(rt: &R, round: &Round, passes: &mut [Pass], refused: &AtomicU64)
    requires { ArePassesOf round.now passes.old }
    ensures { ArePassesOf round.now passes.new }
{
    for_each_mut(
        rt,
        passes,
        8,
        &|_, pass: &mut Pass|
            requires belongs { IsPassOf round.now pass.now }
            requires idle { pass.now.view.account.stage ≡ Idle }
            ensures belongs { IsPassOf round.entry.now pass.exit.now }
            ensures idle { pass.exit.now.view.account.stage ≡ Idle }
            ensures number { pass.exit.now.view.number ≡ pass.entry.now.view.number }
        { try_all(round, pass, refused) },
    );
}

/// A round of eight threads, which close it.
fn raced<R: Threads + Sync>(
    rt: &R,
    alloc: Global,
    h: &Hypergraph,
    p: Partition,
    refused: &AtomicU64,
) -> Result<Closed, Fail>
    requires belongs { p.hyper ≡ h.now }
    requires fits { Fits p.hyper p.k p.limit p.blocks }
    ensures { IfOk result (λ c. c.part.hyper ≡ h.now) }
{
    let Ok((round, mut passes)) = Round::open(rt, alloc, h, p, 8) else {
        return Err(Fail::new("no memory"));
    };
    race(rt, &round, passes.slice_mut(), refused);
    let Ok(closed) = round.close(rt, alloc, passes) else {
        return Err(Fail::new("no memory"));
    };
    Ok(closed)
}

/// The pins of nets of three: each vertex with the next one and with another.
fn triples(alloc: Global) -> Result<Vec<u32>, NoMemory> {
    let mut pins = Vec::with_capacity(alloc, 6_000)?;
    for v in 0..2_000u32 {
        for pin in [v, (v + 1) % 2_000, (v * v + 3) % 2_000] {
            pins.push(pin)?;
        }
    }
    Ok(pins)
}

/// The vertices in four blocks. The first ones lie before a block that is full, until the last ones
/// have left it.
fn four_blocks(alloc: Global) -> Result<Vec<u32>, NoMemory> {
    let mut blocks = Vec::with_capacity(alloc, 2_000)?;
    for v in 0..2_000u32 {
        blocks.push(match v {
            0..100 => 2,
            100..700 => 1,
            700..1_300 => 0,
            _ => 3,
        })?;
    }
    Ok(blocks)
}

/// Rounds of threads, whose gains are the difference of costs.
fn try_rounds<R: Threads + Sync + Abort>(
    rt: &R,
    alloc: Global,
    objective: Objective,
) -> Result<(), Fail> {
    let h = netted(rt, alloc, objective, 2_000, 3, triples(alloc)?.as_slice())?;
    let blocks = four_blocks(alloc)?;
    for _ in 0..100 {
        let p = parted(rt, alloc, &h, 4, 700, blocks.as_slice().to_vec(alloc)?)?;
        let before = p.cost(&h);
        let refused = AtomicU64::new(0);
        let closed = raced(rt, alloc, &h, p, &refused)?;
        assert!(rt; 0 < refused.load(SeqCst) && 100 < closed.moves().len());
        assert!(rt; closed.opening_cost() == before);
        let gains = closed
            .gains()
            .iter()
            .fold(0i64, |sum, gain| sum.wrapping_add(*gain));
        assert_eq!(rt; gains, before as i64 - closed.part().cost(&h) as i64);
    }
    Ok(())
}

#[test]
fn rounds_of_threads(rt: HostRuntime) -> Result<(), Fail> {
    try_rounds(&rt, rt.alloc(), Objective::Connectivity)?;
    try_rounds(&rt, rt.alloc(), Objective::CutNet)?;
    try_rounds(&rt, rt.alloc(), Objective::ExternalDegree)
}
