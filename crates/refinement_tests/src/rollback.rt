ghost use Rattle.std.specs.Prelude.{◌≡◌, ◌≤◌, IfOk};
ghost use Rattle.hg_defs.specs.Hypergraph.{vertex_count};
ghost use Rattle.hg_defs.specs.Replay.{undone};
ghost use Rattle.rollback_prefix.specs.Steps.{EndAt};

use hg_base::{Blocks, FlatHyper, Move, NoMemory};
use incidence::Hypergraph;
use pin_plain::Partition;
use rollback_prefix::{Kept, keep_best, recalculate, roll_back};
use std::alloc::Global;
use std::process::Abort;
use std::test::Fail;
use std::thread::Threads;

/// Six vertices, those numbered 1 and 2 of the weight, and nets of weights 2, 3, 2 and 7.
fn four_nets(alloc: Global, weight: u64) -> Result<Hypergraph, NoMemory>
    requires { weight ≤ 2 }
    ensures { IfOk result (λ h. vertex_count h ≡ 6) }
{
    let mut flat = FlatHyper::start(alloc, 6)?;
    flat.set_vertex_weight(1, weight);
    flat.set_vertex_weight(2, weight);
    flat.push_net(2, &[0, 4])?;
    flat.push_net(3, &[1, 5])?;
    flat.push_net(2, &[3, 4])?;
    flat.push_net(7, &[4, 5])?;
    Hypergraph::build(alloc, flat)
}

/// Two vertices and the net of both.
fn one_net(alloc: Global) -> Result<Hypergraph, NoMemory>
    ensures { IfOk result (λ h. vertex_count h ≡ 2) }
{
    let mut flat = FlatHyper::start(alloc, 2)?;
    flat.push_net(5, &[0, 1])?;
    Hypergraph::build(alloc, flat)
}

const FOUR: [Move; 4] = [
    Move {
        vertex: 0,
        from: 0,
        to: 1,
        worker: 0,
        booked: 0,
    },
    Move {
        vertex: 1,
        from: 0,
        to: 1,
        worker: 0,
        booked: 0,
    },
    Move {
        vertex: 2,
        from: 1,
        to: 0,
        worker: 0,
        booked: 0,
    },
    Move {
        vertex: 3,
        from: 0,
        to: 1,
        worker: 0,
        booked: 0,
    },
];

const SWAP: [Move; 2] = [
    Move {
        vertex: 0,
        from: 0,
        to: 1,
        worker: 0,
        booked: 0,
    },
    Move {
        vertex: 1,
        from: 1,
        to: 0,
        worker: 0,
        booked: 0,
    },
];

/// The partition of these blocks into two.
fn parted(
    rt: &impl Abort,
    alloc: Global,
    h: &Hypergraph,
    limit: u64,
    blocks: &[u32],
) -> Result<Partition, Fail>
    ensures { IfOk result (λ p. p ≡ record { hyper = h.now; k = 2; limit = limit; blocks = blocks.now }) }
{
    assert_eq!(rt; blocks.len(), h.vertices() as usize);
    assert!(rt; blocks.iter().all(|b| *b < 2));
    assert!(rt; h.suits(2));
    assert!(rt; h.fixed_within(2));
    let blocks = Blocks::from_vec(blocks.to_vec(alloc)?);
    Ok(Partition::of(alloc, h, 2, limit, blocks)?)
}

/// So many moves, which save so much.
fn kept(length: u32, saved: u64) -> Kept {
    Kept { length, saved }
}

/// Keeps the best of the moves, and checks how many these are, what they save and what they leave.
fn try_keep_best<R: Threads + Sync + Abort>(
    rt: &R,
    alloc: Global,
    h: &Hypergraph,
    limit: u64,
    before: &[u32],
    after: &[u32],
    moves: &[Move],
    kept: Kept,
    cost: u64,
) -> Result<(), Fail>
    requires moves { EndAt h.now 2 after.now moves.now }
    requires before { undone after.now moves.now ≡ before.now }
{
    assert!(rt; parted(rt, alloc, h, limit, before)?.fits());
    let mut p = parted(rt, alloc, h, limit, after)?;
    assert!(rt; keep_best(rt, alloc, h, &mut p, moves, 4)? == kept);
    assert_eq!(rt; p.cost(h), cost);
    Ok(())
}

/// Rolls the moves back, and checks how many are kept and what they leave.
fn try_roll_back<R: Threads + Sync + Abort>(
    rt: &R,
    alloc: Global,
    h: &Hypergraph,
    limit: u64,
    before: &[u32],
    after: &[u32],
    moves: &[Move],
    kept: u32,
    cost: u64,
) -> Result<(), Fail>
    requires moves { EndAt h.now 2 after.now moves.now }
    requires before { undone after.now moves.now ≡ before.now }
{
    assert!(rt; parted(rt, alloc, h, limit, before)?.fits());
    let mut p = parted(rt, alloc, h, limit, after)?;
    assert_eq!(rt; roll_back(rt, alloc, h, &mut p, moves, 4)?, kept);
    assert_eq!(rt; p.cost(h), cost);
    Ok(())
}

#[test]
fn gains(rt: HostRuntime) -> Result<(), Fail> {
    let alloc = rt.alloc();
    let h = four_nets(alloc, 1)?;
    let found = recalculate(&rt, alloc, &h, 2, &[0, 0, 1, 0, 0, 1], FOUR.as_slice(), 4)?;
    assert_eq!(rt; found.slice(), [-2, 3, 0, -2].as_slice());
    let h = one_net(alloc)?;
    let found = recalculate(&rt, alloc, &h, 2, &[0, 1], SWAP.as_slice(), 1)?;
    assert_eq!(rt; found.slice(), [5, -5].as_slice());
    Ok(())
}

#[test]
fn prefixes(rt: HostRuntime) -> Result<(), Fail> {
    let alloc = rt.alloc();
    let (before, after) = ([0, 0, 1, 0, 0, 1], [1, 1, 0, 1, 0, 1]);
    let h = four_nets(alloc, 1)?;
    try_keep_best(
        &rt,
        alloc,
        &h,
        4,
        &before,
        &after,
        FOUR.as_slice(),
        kept(2, 1),
        9,
    )?;
    let h = four_nets(alloc, 2)?;
    try_keep_best(
        &rt,
        alloc,
        &h,
        5,
        &before,
        &after,
        FOUR.as_slice(),
        kept(3, 1),
        9,
    )?;
    let h = one_net(alloc)?;
    let (before, after) = ([0, 1], [1, 0]);
    try_keep_best(
        &rt,
        alloc,
        &h,
        2,
        &before,
        &after,
        SWAP.as_slice(),
        kept(1, 5),
        0,
    )?;
    try_roll_back(&rt, alloc, &h, 2, &before, &after, SWAP.as_slice(), 1, 0)
}
