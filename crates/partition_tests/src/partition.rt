ghost use Rattle.std.specs.Prelude.{◌≡◌, ◌≤◌, ◌<◌, ◌^◌, All, length, IfOk};
ghost use Rattle.hg_defs.specs.Hypergraph.{vertex_count, net_count};

use hg_base::{Blocks, FlatHyper, Move, NoMemory, Objective};
use incidence::Hypergraph;
use pin_plain::{Partition, Ready};
use round_log::{Kind, Moves, RoundList};
use std::alloc::Global;
use std::test::Fail;
use std::thread::Threads;

/// Seven vertices of weight 1 and four nets of weights 2, 3, 8 and 7.
fn four_nets(alloc: Global) -> Result<FlatHyper, NoMemory>
    ensures vertices { IfOk result (λ h. vertex_count h ≡ 7) }
    ensures nets { IfOk result (λ h. net_count h ≡ 4) }
{
    let mut h = FlatHyper::start(alloc, 7)?;
    h.push_net(2, &[0, 1])?;
    h.push_net(3, &[0, 6, 4, 5])?;
    h.push_net(8, &[4, 5, 3])?;
    h.push_net(7, &[1, 2, 3])?;
    Ok(h)
}

/// Six vertices in a row, with a net of weight 1 between neighbours.
fn path(alloc: Global) -> Result<Hypergraph, NoMemory> {
    let mut flat = FlatHyper::start(alloc, 6)?;
    flat.push_net(1, &[0, 1])?;
    flat.push_net(1, &[1, 2])?;
    flat.push_net(1, &[2, 3])?;
    flat.push_net(1, &[3, 4])?;
    flat.push_net(1, &[4, 5])?;
    Hypergraph::build(alloc, flat)
}

/// The numbers below `n`.
fn numbers(alloc: Global, n: u32) -> Result<Vec<u32>, NoMemory>
    ensures below { IfOk result (λ ns. All (λ v. v < n) ns.items) }
    ensures count { IfOk result (λ ns. length ns.items ≡ n) }
{
    let mut numbers = Vec::with_capacity(alloc, n as usize)?;
    for v in 0..n {
        numbers.push(v)?;
    }
    Ok(numbers)
}

/// So many vertices, and one net of weight 3 that holds them all.
fn one_net(alloc: Global, vertices: u32) -> Result<Hypergraph, NoMemory>
    requires { vertices ≤ 2 ^ 22 }
    ensures vertices { IfOk result (λ h. vertex_count h ≡ vertices) }
    ensures nets { IfOk result (λ h. net_count h ≡ 1) }
{
    let mut flat = FlatHyper::start(alloc, vertices)?;
    let pins = numbers(alloc, vertices)?;
    flat.push_net(3, pins.as_slice())?;
    Hypergraph::build(alloc, flat)
}

/// The partition of these blocks.
fn parted(
    alloc: Global,
    h: &Hypergraph,
    k: u32,
    limit: u64,
    blocks: &[u32],
) -> Result<Partition, Fail>
    ensures hyper { IfOk result (λ p. p.hyper ≡ h.now) }
    ensures blocks { IfOk result (λ p. p.k ≡ k) }
{
    if k < 2 || k > 256 || !h.suits(k) || !h.fixed_within(k) {
        return Err(Fail::new("other blocks are needed"));
    }
    if blocks.len() != h.vertices() as usize || !blocks.iter().all(|b| *b < k) {
        return Err(Fail::new("no partition"));
    }
    let blocks = Blocks::from_vec(blocks.to_vec(alloc)?);
    Ok(Partition::of(alloc, h, k, limit, blocks)?)
}

/// Blocks of the path, and the cost that one sweep settles them at.
#[derive(Clone, Copy)]
struct Settling<'a> {
    k: u32,
    limit: u64,
    blocks: &'a [u32],
    cost: u64,
}

const SETTLINGS: &[Settling<'static>] = &[
    Settling {
        k: 2,
        limit: 4,
        blocks: &[0, 1, 0, 1, 0, 1],
        cost: 1,
    },
    Settling {
        k: 16,
        limit: 6,
        blocks: &[0, 1, 2, 3, 4, 5],
        cost: 0,
    },
];

/// Whether the log has one sweep alone, which lowers a cost of 5 to this one.
fn is_one_sweep(log: &RoundList, cost: u64) -> bool {
    match log.slice() {
        [round] => round.kind == Kind::Sweep && round.before == 5 && round.after == cost,
        _ => false,
    }
}

/// Whether the partition has this cost, and is settled or not.
fn stands_at(h: &Hypergraph, p: &Partition, cost: u64, is_settled: bool) -> bool
    requires { p.now.hyper ≡ h.now }
{
    p.cost(h) == cost && p.settled(h) == is_settled
}

/// Whether the blocks cost 5, and one sweep settles them at the row's cost.
fn is_settled(alloc: Global, h: &Hypergraph, row: &Settling<'_>) -> Result<bool, Fail> {
    let mut p = parted(alloc, h, row.k, row.limit, row.blocks)?;
    let begins = stands_at(h, &p, 5, false);
    let mut log = RoundList::new(alloc);
    let rounds = p.settle(alloc, h, &mut log)?;
    Ok(
        begins
            && rounds == 1
            && stands_at(h, &p, row.cost, true)
            && p.fits()
            && is_one_sweep(&log, row.cost),
    )
}

#[test]
fn settles_path(rt: HostRuntime) -> Result<(), Fail> {
    let h = path(rt.alloc())?;
    for row in SETTLINGS {
        assert!(rt; is_settled(rt.alloc(), &h, row)?, "{} blocks", row.k);
    }
    Ok(())
}

/// Whether there is one move alone, which takes this vertex to block 0, and saves 3.
fn is_alone(moves: &Moves, v: u32) -> bool {
    match moves.slice() {
        [step] => step.vertex == v && step.to == 0 && step.booked == 3,
        _ => false,
    }
}

/// Whether the log has one sweep alone, with this move alone.
fn moves_alone(log: &RoundList, v: u32) -> bool {
    match log.slice() {
        [round] => is_alone(&round.moves, v),
        _ => false,
    }
}

/// The partition in which this vertex is alone in block 1, and all others are in block 0.
fn one_apart(alloc: Global, h: &Hypergraph, vertices: u32, v: u32) -> Result<Partition, Fail>
    requires { v < vertices }
    ensures { IfOk result (λ p. p.hyper ≡ h.now) }
{
    let mut blocks = vec![in alloc; 0u32; vertices as usize]?;
    blocks[v as usize] = 1;
    parted(alloc, h, 2, u64::from(vertices), blocks.as_slice())
}

/// Whether one sweep of so many workers lets a vertex, alone in block 1, join all others of its net.
fn sweeps_alone<R: Threads + Sync>(
    rt: &R,
    alloc: Global,
    vertices: u32,
    v: u32,
    workers: u32,
) -> Result<bool, Fail>
    requires few { vertices ≤ 2 ^ 22 }
    requires vertex { v < vertices }
    requires some { 1 ≤ workers }
{
    let h = one_net(alloc, vertices)?;
    let mut p = one_apart(alloc, &h, vertices, v)?;
    let mut log = Moves::new(alloc);
    let moved = p.sweep_with(rt, alloc, &h, workers, &mut log)?;
    Ok(moved && is_alone(&log, v) && stands_at(&h, &p, 0, true))
}

/// Whether so many workers let a vertex, alone in block 1, join all others of its net, as one alone does.
fn joins<R: Threads + Sync>(
    rt: &R,
    alloc: Global,
    vertices: u32,
    v: u32,
    workers: u32,
) -> Result<bool, Fail>
    requires few { vertices ≤ 2 ^ 22 }
    requires vertex { v < vertices }
    requires workers { (1 ≤ workers) × (workers ≤ 64) }
{
    let h = one_net(alloc, vertices)?;
    let mut p = one_apart(alloc, &h, vertices, v)?;
    let mut q = one_apart(alloc, &h, vertices, v)?;
    let (mut log, mut other) = (RoundList::new(alloc), RoundList::new(alloc));
    let rounds = p.settle_with(rt, alloc, &h, workers, &mut log)?;
    let as_many = q.settle(alloc, &h, &mut other)?;
    Ok(
        (rounds == 1 && as_many == 1)
            && (moves_alone(&log, v) && moves_alone(&other, v))
            && stands_at(&h, &p, 0, true)
            && p.blocks() == q.blocks(),
    )
}

#[test]
fn settles_in_threads(rt: HostRuntime) -> Result<(), Fail> {
    // One thread alone, two with as many vertices, and three of which the last has fewer.
    for (workers, v) in [(1, 0), (2, 9_999), (3, 4_095)] {
        let alike = joins(&rt, rt.alloc(), 10_000, v, workers)?
            && sweeps_alone(&rt, rt.alloc(), 10_000, v, workers)?;
        assert!(rt; alike, "{workers} workers");
    }
    Ok(())
}

/// The blocks that a sweep of the four nets begins with, and those that it leaves.
const UNSWEPT: &[u32] = &[0, 1, 0, 1, 0, 1, 0];

const SWEPT: &[u32] = &[1, 1, 0, 1, 0, 1, 0];

/// Whether the log has the move of vertex 0 alone, which saves 2.
fn is_one_move(log: &Moves) -> bool {
    match log.slice() {
        [step] => step.vertex == 0 && step.from == 0 && step.to == 1 && step.booked == 2,
        _ => false,
    }
}

/// Whether the partition is the one that the sweep leaves, with its loads and the counts of the second net.
fn is_swept(h: &Hypergraph, p: &Partition) -> bool
    requires belongs { p.now.hyper ≡ h.now }
    requires nets { net_count h.now ≡ 4 }
    requires blocks { p.now.k ≡ 2 }
{
    p.blocks() == SWEPT
        && (p.cost(h) == 18 && p.limit() == 4)
        && (p.weight(0) == 3 && p.weight(1) == 4)
        && (p.count(1, 0) == 2 && p.count(1, 1) == 2)
}

/// Whether the first sweep moves one vertex, and the second one none.
fn sweeps_once(alloc: Global, h: &Hypergraph) -> Result<bool, Fail>
    requires { net_count h.now ≡ 4 }
{
    let mut p = parted(alloc, h, 2, 4, UNSWEPT)?;
    let begins = p.cost(h) == 20;
    let mut log = Moves::new(alloc);
    let moved = p.sweep(alloc, h, &mut log)?;
    let made = is_one_move(&log) && is_swept(h, &p) && p.k() == 2;
    let moved_again = p.sweep(alloc, h, &mut log)?;
    Ok(begins && moved && made && !moved_again && p.into_blocks().slice() == SWEPT)
}

#[test]
fn one_sweep(rt: HostRuntime) -> Result<(), Fail> {
    let h = Hypergraph::build(rt.alloc(), four_nets(rt.alloc())?)?;
    assert!(rt; sweeps_once(rt.alloc(), &h)?);
    Ok(())
}

/// An objective, and what three blocks of the four nets cost by it.
#[derive(Clone, Copy)]
struct Shifting {
    objective: Objective,
    cost: u64,
}

const SHIFTINGS: &[Shifting] = &[
    Shifting {
        objective: Objective::Connectivity,
        cost: 38,
    },
    Shifting {
        objective: Objective::CutNet,
        cost: 20,
    },
    Shifting {
        objective: Objective::ExternalDegree,
        cost: 58,
    },
];

/// Vertices, and the blocks that they are moved to.
const SHIFTS: &[(u32, u32)] = &[(0, 1), (2, 1), (3, 1), (4, 0), (5, 1), (6, 2)];

/// Moves a vertex, and says whether its gain was what the cost fell by.
fn saves_its_gain(h: &Hypergraph, p: &mut Partition, v: u32, to: u32) -> bool
    requires belongs { p.old.hyper ≡ h.now }
    requires vertex { v < vertex_count h.now }
    requires block { to < p.old.k }
    ensures hyper { p.new.hyper ≡ h.now }
{
    let before = p.cost(h) as i64;
    let gain = p.gain(h, v, to);
    p.shift(h, v, to);
    gain == before - p.cost(h) as i64
}

/// Whether each of the moves saves its gain.
fn save_their_gains(h: &Hypergraph, p: &mut Partition) -> bool
    requires { p.old.hyper ≡ h.now }
{
    for (v, to) in SHIFTS {
        if *v >= h.vertices() || *to >= p.k() || !saves_its_gain(h, p, *v, *to) {
            return false;
        }
    }
    true
}

/// Whether the blocks cost what they should, and each of the moves saves its gain.
fn is_shifted(alloc: Global, row: &Shifting) -> Result<bool, Fail> {
    let mut flat = four_nets(alloc)?;
    flat.set_objective(row.objective);
    let h = Hypergraph::build(alloc, flat)?;
    let mut p = parted(alloc, &h, 3, 3, &[0, 1, 2, 0, 1, 2, 0])?;
    Ok(p.cost(&h) == row.cost && save_their_gains(&h, &mut p))
}

#[test]
fn costs_and_gains(rt: HostRuntime) -> Result<(), Fail> {
    for row in SHIFTINGS {
        assert!(rt; is_shifted(rt.alloc(), row)?, "cost {}", row.cost);
    }
    Ok(())
}

/// The blocks that all seven vertices are fixed to.
const FIXED: &[u32] = &[0, 0, 0, 1, 1, 1, 0];

/// Fixes each vertex to its block.
fn fix_all(flat: &mut FlatHyper) {
    for v in 0..flat.vertices() {
        if let Some(block) = FIXED.get(v as usize)
            && *block < 2
        {
            flat.set_fix(v, *block);
        }
    }
}

/// Whether the fixed vertices are settled where they are.
fn is_kept(alloc: Global) -> Result<bool, Fail> {
    let mut flat = four_nets(alloc)?;
    fix_all(&mut flat);
    let h = Hypergraph::build(alloc, flat)?;
    let mut p = parted(alloc, &h, 2, 4, FIXED)?;
    let mut log = RoundList::new(alloc);
    let rounds = p.settle(alloc, &h, &mut log)?;
    Ok(rounds == 0 && p.cost(&h) == 10 && p.blocks() == FIXED)
}

#[test]
fn fixed_vertices_stay(rt: HostRuntime) -> Result<(), Fail> {
    assert!(rt; is_kept(rt.alloc())?);
    Ok(())
}

/// Whether so many pins of the net are left in block 0, and so many are in another block.
fn has_counts(p: &Partition, to: u32, left: u32, gone: u32) -> bool
    requires net { 0 < net_count p.now.hyper }
    requires block { to < p.now.k }
{
    p.count(0, 0) == left && p.count(0, to) == gone
}

/// Moves a vertex, and says whether its gain was this one.
fn leaves(h: &Hypergraph, p: &mut Partition, v: u32, to: u32, gain: i64) -> bool
    requires belongs { p.old.hyper ≡ h.now }
    requires vertex { v < vertex_count h.now }
    requires block { to < p.old.k }
    ensures hyper { p.new.hyper ≡ h.now }
    ensures blocks { p.new.k ≡ p.old.k }
{
    let found = p.gain(h, v, to);
    p.shift(h, v, to);
    found == gain
}

/// Whether one and then another of so many pins in one net go to block `to`.
fn leave_one_by_one(alloc: Global, pins: u32, to: u32) -> Result<bool, Fail>
    requires some { 2 ≤ pins }
    requires few { pins ≤ 2 ^ 22 }
    requires block { to < 5 }
{
    let h = one_net(alloc, pins)?;
    let zeros = vec![in alloc; 0u32; pins as usize]?;
    let mut p = parted(alloc, &h, 5, u64::from(pins), zeros.as_slice())?;
    let begins = has_counts(&p, to, pins, 0);
    let first = leaves(&h, &mut p, 0, to, -3) && has_counts(&p, to, pins - 1, 1);
    let second = leaves(&h, &mut p, 1, to, 0) && has_counts(&p, to, pins - 2, 2);
    Ok(begins && first && second && p.cost(&h) == 3 && p.weight(to) == 2)
}

#[test]
fn counts_of_wide_nets(rt: HostRuntime) -> Result<(), Fail> {
    // The last width of 16 bits, and the first of 32, at the end of a word and at its beginning.
    for (pins, to) in [(65_535, 3), (65_536, 1), (65_536, 4)] {
        assert!(rt; leave_one_by_one(rt.alloc(), pins, to)?, "{pins} pins");
    }
    Ok(())
}

/// The seven vertices in three places, of weights 2, 2 and 3, with the nets that are left.
fn three_places(alloc: Global) -> Result<Hypergraph, NoMemory>
    ensures { IfOk result (λ h. vertex_count h ≡ 3) }
{
    let mut flat = FlatHyper::start(alloc, 3)?;
    flat.set_vertex_weight(0, 2);
    flat.set_vertex_weight(1, 2);
    flat.set_vertex_weight(2, 3);
    flat.push_net(7, &[0, 1])?;
    flat.push_net(3, &[0, 2])?;
    flat.push_net(8, &[1, 2])?;
    Hypergraph::build(alloc, flat)
}

/// Whether the projected partition has the blocks of the places, their cost and their loads.
fn is_projected(h: &Hypergraph, p: &Partition) -> bool
    requires belongs { p.now.hyper ≡ h.now }
    requires blocks { p.now.k ≡ 2 }
{
    p.blocks() == [0, 0, 1, 1, 1, 1, 1].as_slice()
        && (p.cost(h) == 10 && p.weight(0) == 2 && p.weight(1) == 5)
}

/// Whether a partition of the places keeps its cost where it is projected.
fn projects(alloc: Global, coarse: &Hypergraph, fine: &Hypergraph) -> Result<bool, Fail>
    requires coarse { vertex_count coarse.now ≡ 3 }
    requires fine { vertex_count fine.now ≡ 7 }
{
    if !fine.suits(2) || !fine.fixed_within(2) {
        return Ok(false);
    }
    let p = parted(alloc, coarse, 2, 5, &[0, 1, 1])?;
    let q = p.project(alloc, fine, &[0, 0, 1, 1, 2, 2, 2])?;
    Ok(p.cost(coarse) == 10 && is_projected(fine, &q))
}

#[test]
fn projection(rt: HostRuntime) -> Result<(), Fail> {
    let fine = Hypergraph::build(rt.alloc(), four_nets(rt.alloc())?)?;
    let coarse = three_places(rt.alloc())?;
    assert!(rt; projects(rt.alloc(), &coarse, &fine)?);
    Ok(())
}

/// As many nets as vertices, each of weight 1, and of two vertices that follow on each other.
fn ring(alloc: Global, vertices: u32) -> Result<Hypergraph, NoMemory>
    requires { vertices ≤ 2 ^ 20 }
    ensures { IfOk result (λ h. vertex_count h ≡ vertices) }
{
    let mut flat = FlatHyper::start(alloc, vertices)?;
    for v in 0..vertices {
        flat.push_net(1, &[v, (v + 1) % vertices])?;
    }
    Hypergraph::build(alloc, flat)
}

/// The vertices by turns in three places.
fn by_turns(alloc: Global, vertices: u32) -> Result<Vec<u32>, NoMemory>
    ensures below { IfOk result (λ places. All (λ v. v < 3) places.items) }
    ensures count { IfOk result (λ places. length places.items ≡ vertices) }
{
    let mut places = Vec::with_capacity(alloc, vertices as usize)?;
    for v in 0..vertices {
        places.push(v % 3)?;
    }
    Ok(places)
}

/// Whether so many workers make the words that one alone makes, and two nets of three are cut.
fn counts_alike<R: Threads + Sync>(
    rt: &R,
    alloc: Global,
    p: &Partition,
    fine: &Hypergraph,
    map: &[u32],
    workers: u32,
) -> Result<bool, Fail>
    requires vertices { length map.now ≡ vertex_count fine.now }
    requires places { All (λ v. v < vertex_count p.now.hyper) map.now }
    requires blocks { p.now.k ≡ 2 }
    requires workers { (1 ≤ workers) × (workers ≤ 64) }
{
    if !fine.suits(2) || !fine.fixed_within(2) {
        return Ok(false);
    }
    let one = p.project(alloc, fine, map)?;
    let many = p.project_with(rt, alloc, fine, map, workers)?;
    if one.cost_with(rt, fine, 1) != 22_000 || many.cost_with(rt, fine, workers) != 22_000 {
        return Ok(false);
    }
    let one = one.into_ready(rt, fine, 1);
    let many = many.into_ready(rt, fine, workers);
    Ok(one.words() == many.words())
}

#[test]
fn projects_in_threads(rt: HostRuntime) -> Result<(), Fail> {
    let fine = ring(rt.alloc(), 33_000)?;
    let map = by_turns(rt.alloc(), 33_000)?;
    let coarse = one_net(rt.alloc(), 3)?;
    let p = parted(rt.alloc(), &coarse, 2, 3, &[0, 1, 1])?;
    // No thread beside this one, then up to three, as many as there are nets for.
    for workers in [1, 2, 3, 4, 9] {
        assert!(rt;
            counts_alike(&rt, rt.alloc(), &p, &fine, map.as_slice(), workers)?,
            "{workers} workers"
        );
    }
    Ok(())
}

/// So many moves of the vertices by turns, to three blocks by turns.
fn moves_by_turns(alloc: Global, vertices: u32, count: u32) -> Result<Vec<Move>, NoMemory>
    requires { 0 < vertices }
    ensures vertices { IfOk result (λ moves. All (λ m. m.vertex < vertices) moves.items) }
    ensures blocks { IfOk result (λ moves. All (λ m. m.to < 3) moves.items) }
{
    let mut moves = Vec::with_capacity(alloc, count as usize)?;
    for i in 0..count {
        moves.push(Move {
            vertex: i % vertices,
            from: 0,
            to: i % 3,
            worker: 0,
            booked: 0,
        })?;
    }
    Ok(moves)
}

/// Makes the moves by one shift each.
fn shift_each(h: &Hypergraph, p: &mut Partition, moves: &[Move])
    requires belongs { p.old.hyper ≡ h.now }
    requires vertices { All (λ m. m.vertex < vertex_count h.now) moves.now }
    requires blocks { All (λ m. m.to < p.old.k) moves.now }
    ensures { p.new.hyper ≡ h.now }
{
    for step in moves {
        p.shift(h, step.vertex, step.to);
    }
}

/// How many moves are made, and by how many workers.
#[derive(Clone, Copy)]
struct Replaying {
    moves: u32,
    workers: u32,
}

/// The last number of moves that are made one after the other, and the first that are made at once, by one worker
/// and by four; and so many that each vertex moves more than once.
const REPLAYINGS: &[Replaying] = &[
    Replaying {
        moves: 40,
        workers: 1,
    },
    Replaying {
        moves: 41,
        workers: 1,
    },
    Replaying {
        moves: 10,
        workers: 4,
    },
    Replaying {
        moves: 11,
        workers: 4,
    },
    Replaying {
        moves: 500,
        workers: 64,
    },
];

/// Whether the moves lead to the words that shifts lead to, and that the same blocks have if they are counted anew.
fn replays<R: Threads + Sync>(
    rt: &R,
    alloc: Global,
    h: &Hypergraph,
    row: &Replaying,
) -> Result<bool, Fail>
    requires { vertex_count h.now ≡ 200 }
{
    if row.workers < 1 || row.workers > 64 {
        return Err(Fail::new("other workers are needed"));
    }
    let blocks = by_turns(alloc, 200)?;
    let moves = moves_by_turns(alloc, 200, row.moves)?;
    let mut p = parted(alloc, h, 3, 200, blocks.as_slice())?;
    let mut q = parted(alloc, h, 3, 200, blocks.as_slice())?;
    p.replay_with(rt, h, moves.as_slice(), row.workers);
    shift_each(h, &mut q, moves.as_slice());
    let anew = parted(alloc, h, 3, 200, p.blocks())?;
    let cost = anew.cost_with(rt, h, row.workers);
    let same = p.cost_with(rt, h, row.workers) == cost && q.cost_with(rt, h, 1) == cost;
    let p = p.into_ready(rt, h, row.workers);
    let q = q.into_ready(rt, h, 1);
    let anew = anew.into_ready(rt, h, 1);
    Ok(same && p.words() == q.words() && p.words() == anew.words())
}

#[test]
fn replays_rounds(rt: HostRuntime) -> Result<(), Fail> {
    let h = ring(rt.alloc(), 200)?;
    for row in REPLAYINGS {
        assert!(rt; replays(&rt, rt.alloc(), &h, row)?, "{} moves", row.moves);
    }
    Ok(())
}

/// The blocks that a round begins with.
const OPENING: &[u32] = &[0, 0, 1, 1, 0, 0, 1];

/// A number of blocks, and the words with which a round in them begins.
#[derive(Clone, Copy)]
struct Opening<'a> {
    k: u32,
    words: &'a [u64],
}

/// By the counts of two blocks, and by the pins where there are four.
const OPENINGS: &[Opening<'static>] = &[
    Opening {
        k: 2,
        words: &[
            0, 0, 0, 0, 0, 0, 0, 0, 0, 0, 0, 1, 1, 0, 0, 1, 4, 3, 65, 2, 66, 259, 66, 258, 66, 513,
        ],
    },
    Opening {
        k: 4,
        words: &[
            0, 0, 0, 0, 0, 0, 0, 0, 0, 0, 0, 1, 1, 0, 0, 1, 4, 3, 0, 0, 65, 2, 66, 259, 66, 258,
            66, 513,
        ],
    },
];

/// Whether the partition has the words of the opening.
fn has_words(ready: &Ready, row: &Opening<'_>) -> bool {
    ready.k() == row.k
        && ready.limit() == 7
        && ready.blocks() == OPENING
        && ready.words() == row.words
}

/// Whether a round in so many blocks begins with these words, and the partition is given back.
fn is_opened(
    rt: &(impl Threads + Sync),
    alloc: Global,
    h: &Hypergraph,
    row: &Opening<'_>,
) -> Result<bool, Fail> {
    let p = parted(alloc, h, row.k, 7, OPENING)?;
    let cost = p.cost_with(rt, h, 2);
    let ready = p.into_ready(rt, h, 2);
    Ok(cost == 18 && has_words(&ready, row) && ready.into_partition().cost(h) == 18)
}

#[test]
fn words_of_a_round(rt: HostRuntime) -> Result<(), Fail> {
    let h = Hypergraph::build(rt.alloc(), four_nets(rt.alloc())?)?;
    for row in OPENINGS {
        assert!(rt; is_opened(&rt, rt.alloc(), &h, row)?, "{} blocks", row.k);
    }
    Ok(())
}
