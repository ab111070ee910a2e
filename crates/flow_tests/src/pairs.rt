ghost use Rattle.std.specs.Prelude.{◌≡◌, ◌<◌, All, IfOk, length};
ghost use Rattle.hg_defs.specs.Hypergraph.{vertex_count};
ghost use Rattle.hg_defs.specs.Partition.{Fits};
ghost use Rattle.flow_pair.specs.PairEnds.{IsPairEnd};

use flow_pair::{FlowPair, PairEnd, region_network, solve_pair};
use hg_base::{Blocks, FREE, FlatHyper, NoMemory, Objective};
use incidence::Hypergraph;
use pin_plain::Partition;
use refiner::{Log, Refiner, Tally, Task};
use std::alloc::Global;
use std::process::Abort;
use std::test::Fail;

/// Two vertices and the net of both.
fn one_net(alloc: Global) -> Result<Hypergraph, NoMemory> {
    let mut flat = FlatHyper::start(alloc, 2)?;
    flat.push_net(1, &[0, 1])?;
    Hypergraph::build(alloc, flat)
}

/// Four vertices in a row, with nets of weights 1, 5 and 1 between neighbours.
fn row_of_four(alloc: Global) -> Result<Hypergraph, NoMemory> {
    let mut flat = FlatHyper::start(alloc, 4)?;
    flat.push_net(1, &[0, 1])?;
    flat.push_net(5, &[1, 2])?;
    flat.push_net(1, &[2, 3])?;
    Hypergraph::build(alloc, flat)
}

/// Five vertices in a row, with nets of weights 1, 5, 1, 5 between neighbours, or of 5, 1, 5, 1.
fn row_of_five(alloc: Global, turned: bool) -> Result<Hypergraph, NoMemory> {
    let mut flat = FlatHyper::start(alloc, 5)?;
    if turned {
        flat.push_net(5, &[0, 1])?;
        flat.push_net(1, &[1, 2])?;
        flat.push_net(5, &[2, 3])?;
        flat.push_net(1, &[3, 4])?;
    } else {
        flat.push_net(1, &[0, 1])?;
        flat.push_net(5, &[1, 2])?;
        flat.push_net(1, &[2, 3])?;
        flat.push_net(5, &[3, 4])?;
    }
    Hypergraph::build(alloc, flat)
}

/// Three vertices with nets of weights 5 and 1, the second one without the last vertex.
fn three_vertices(alloc: Global, objective: Objective) -> Result<Hypergraph, NoMemory> {
    let mut flat = FlatHyper::start(alloc, 3)?;
    flat.push_net(5, &[0, 1, 2])?;
    flat.push_net(1, &[0, 1])?;
    flat.set_objective(objective);
    Hypergraph::build(alloc, flat)
}

/// Seven vertices with four nets, each vertex fixed to a block.
fn seven_fixed(alloc: Global) -> Result<Hypergraph, NoMemory> {
    let mut flat = FlatHyper::start(alloc, 7)?;
    flat.push_net(2, &[0, 1])?;
    flat.push_net(3, &[0, 6, 4, 5])?;
    flat.push_net(8, &[4, 5, 3])?;
    flat.push_net(7, &[1, 2, 3])?;
    flat.set_fix(0, 0);
    flat.set_fix(1, 0);
    flat.set_fix(2, 0);
    flat.set_fix(3, 1);
    flat.set_fix(4, 1);
    flat.set_fix(5, 1);
    flat.set_fix(6, 0);
    Hypergraph::build(alloc, flat)
}

/// Two rows of four vertices, with nets of weights 1, 5 and 1 between neighbours.
fn two_rows(alloc: Global, objective: Objective) -> Result<Hypergraph, NoMemory> {
    let mut flat = FlatHyper::start(alloc, 8)?;
    flat.push_net(1, &[0, 1])?;
    flat.push_net(5, &[1, 2])?;
    flat.push_net(1, &[2, 3])?;
    flat.push_net(1, &[4, 5])?;
    flat.push_net(5, &[5, 6])?;
    flat.push_net(1, &[6, 7])?;
    flat.set_objective(objective);
    Hypergraph::build(alloc, flat)
}

/// A pair of blocks of a partition, and what is expected of it.
#[derive(Drop)]
struct Row<'a> {
    k: u32,
    limit: u64,
    blocks: &'a [u32],
    pair: (u32, u32),
    region: &'a [u32],
    /// The blocks of the region afterwards.
    assigned: &'a [u32],
    value: u64,
    /// The costs before and after the round of the pair, which is the first one of a pass.
    costs: (u64, u64),
    /// How many rounds a pass has, and what they save.
    tally: (u64, u64),
}

/// The partition of these blocks.
fn parted(
    rt: &impl Abort,
    alloc: Global,
    h: &Hypergraph,
    k: u32,
    limit: u64,
    blocks: &[u32],
) -> Result<Partition, Fail>
    ensures belongs { IfOk result (λ p. p.hyper ≡ h.now) }
    ensures blocks { IfOk result (λ p. p.k ≡ k) }
    ensures fits { IfOk result (λ p. Fits h.now p.k p.limit p.blocks) }
{
    assert!(rt; 2 <= k && k <= 256);
    assert_eq!(rt; blocks.len(), h.vertices() as usize);
    assert!(rt; blocks.iter().all(|b| *b < k));
    assert!(rt; h.suits(k));
    assert!(rt; h.fixed_within(k));
    let p = Partition::of(alloc, h, k, limit, Blocks::from_vec(blocks.to_vec(alloc)?))?;
    assert!(rt; p.fits());
    Ok(p)
}

/// The greatest flow on the network of the region of a pair.
fn flow_of(
    alloc: Global,
    h: &Hypergraph,
    p: &Partition,
    a: u32,
    b: u32,
    end: &PairEnd,
) -> Result<u128, NoMemory>
    requires belongs { p.now.hyper ≡ h.now }
    requires order { a < b }
    requires blocks { b < p.now.k }
    requires end { IsPairEnd h.now p.now.k p.now.limit p.now.blocks a b end.now }
{
    let _blocks = p.blocks();
    let mut network = region_network(alloc, h, p, a, b, end.region.slice())?;
    Ok(network.max_flow(0, 1)?.value)
}

/// Compares the end of a pair, its network, and the first round of a pass with what is expected.
fn compare(rt: &impl Abort, alloc: Global, h: &Hypergraph, row: &Row<'_>) -> Result<(), Fail> {
    let p = parted(rt, alloc, h, row.k, row.limit, row.blocks)?;
    let (a, b) = row.pair;
    assert!(rt; a < b && b < row.k);
    let end = solve_pair(alloc, h, &p, a, b)?.ok_or("a net touches both")?;
    assert_eq!(rt; (end.region.slice(), end.value), (row.region, row.value));
    assert_eq!(rt; end.blocks.slice(), row.assigned);
    assert_eq!(rt; flow_of(alloc, h, &p, a, b, &end)?, u128::from(row.value));
    let task = Task {
        level: 2,
        workers: 1,
        seed: 1,
    };
    let mut log = Log::new(alloc);
    let mut refiner = FlowPair::new();
    let q = refiner.refine(alloc, h, &task, p, &mut log)?;
    let Tally { rounds, gain } = refiner.tally();
    assert_eq!(rt; (rounds, gain), row.tally);
    assert_eq!(rt; q.cost(h).saturating_add(gain), row.costs.0);
    assert_eq!(rt; log.rounds().len() as u64, rounds);
    let first = log.rounds().first().ok_or("a round was made")?;
    assert_eq!(rt; (first.first, first.second), row.pair);
    assert_eq!(rt;
        (first.region.slice(), first.value),
        (row.region, row.value)
    );
    assert_eq!(rt; (first.before, first.after), row.costs);
    assert_eq!(rt; (first.level, first.tabled), (2, false));
    Ok(())
}

#[test]
fn ends_and_passes(rt: HostRuntime) -> Result<(), Fail> {
    let alloc = rt.alloc();
    let pair = Row {
        k: 4,
        limit: 1,
        blocks: &[0, 1],
        pair: (0, 1),
        region: &[],
        assigned: &[],
        value: 1,
        costs: (1, 1),
        tally: (1, 0),
    };
    compare(&rt, alloc, &one_net(alloc)?, &pair)?;
    let fixed = Row {
        k: 2,
        limit: 4,
        blocks: &[0, 0, 0, 1, 1, 1, 0],
        pair: (0, 1),
        region: &[],
        assigned: &[],
        value: 10,
        costs: (10, 10),
        tally: (1, 0),
    };
    compare(&rt, alloc, &seven_fixed(alloc)?, &fixed)?;
    let four = Row {
        k: 2,
        limit: 3,
        blocks: &[0, 0, 1, 1],
        pair: (0, 1),
        region: &[1, 2],
        assigned: &[1, 1],
        value: 1,
        costs: (5, 1),
        tally: (1, 4),
    };
    compare(&rt, alloc, &row_of_four(alloc)?, &four)
}

#[test]
fn balanced_sides(rt: HostRuntime) -> Result<(), Fail> {
    let alloc = rt.alloc();
    let far = Row {
        k: 2,
        limit: 4,
        blocks: &[0, 0, 1, 1, 1],
        pair: (0, 1),
        region: &[1, 2, 3],
        assigned: &[0, 0, 1],
        value: 1,
        costs: (5, 1),
        tally: (1, 4),
    };
    compare(&rt, alloc, &row_of_five(alloc, false)?, &far)?;
    let near = Row {
        k: 2,
        limit: 4,
        blocks: &[0, 0, 0, 1, 1],
        pair: (0, 1),
        region: &[1, 2, 3],
        assigned: &[0, 1, 1],
        value: 1,
        costs: (5, 1),
        tally: (1, 4),
    };
    compare(&rt, alloc, &row_of_five(alloc, true)?, &near)
}

#[test]
fn objectives(rt: HostRuntime) -> Result<(), Fail> {
    let alloc = rt.alloc();
    for (objective, before, after, gain, twice) in [
        (Objective::Connectivity, 11, 5, 6, 1),
        (Objective::CutNet, 6, 5, 1, 1),
        (Objective::ExternalDegree, 17, 10, 7, 2),
    ] {
        let three = Row {
            k: 3,
            limit: 2,
            blocks: &[0, 1, 2],
            pair: (0, 1),
            region: &[0, 1],
            assigned: &[1, 1],
            value: 0,
            costs: (before, after),
            tally: (2, gain),
        };
        compare(&rt, alloc, &three_vertices(alloc, objective)?, &three)?;
        let h = two_rows(alloc, objective)?;
        let blocks = [0, 0, 3, 3, 1, 1, 2, 2];
        let rows = Row {
            k: 4,
            limit: 3,
            blocks: &blocks,
            pair: (0, 3),
            region: &[1, 2],
            assigned: &[3, 3],
            value: twice,
            costs: if twice == 2 { (20, 12) } else { (10, 6) },
            tally: if twice == 2 { (2, 16) } else { (2, 8) },
        };
        compare(&rt, alloc, &h, &rows)?;
        let p = parted(&rt, alloc, &h, 4, 3, &blocks)?;
        assert!(rt; solve_pair(alloc, &h, &p, 0, 1)?.is_none());
    }
    Ok(())
}

/// How many vertices and nets the random hypergraphs have.
const VERTICES: u32 = 14;

const NETS: u32 = 20;

/// Their blocks, and the vertices of each of them as bits.
const BLOCKS: [u32; 14] = [0, 0, 0, 0, 0, 0, 1, 1, 1, 1, 1, 1, 2, 2];

const SETS: [u32; 3] = [0x003f, 0x0fc0, 0x3000];

/// Three vertices, some of which may be the same.
fn some_pins(state: u32) -> [u32; 3]
    ensures vertices { All (λ v. v < VERTICES) result }
    ensures three { length result ≡ 3 }
{
    [
        (state >> 5) % VERTICES,
        (state >> 13) % VERTICES,
        (state >> 21) % VERTICES,
    ]
}

/// Random nets of up to three pins.
fn random_nets(alloc: Global, seed: u32) -> Result<FlatHyper, NoMemory>
    ensures { IfOk result (λ flat. vertex_count flat ≡ VERTICES) }
{
    let mut flat = FlatHyper::start(alloc, VERTICES)?;
    let mut state = seed;
    for _net in 0..NETS {
        state = state.wrapping_mul(1664525).wrapping_add(1013904223);
        let weight = u64::from(1 + (state >> 28) % 9);
        flat.push_net(weight, &some_pins(state))?;
    }
    Ok(flat)
}

/// A hypergraph of random nets, in which a fifth of the vertices is fixed to its block.
fn random(alloc: Global, objective: Objective, seed: u32) -> Result<Hypergraph, NoMemory> {
    let mut flat = random_nets(alloc, seed)?;
    let mut state = seed ^ 0x9e37_79b9;
    for v in 0..VERTICES {
        state = state.wrapping_mul(1664525).wrapping_add(1013904223);
        if (state >> 16) % 5 == 0 {
            flat.set_fix(v, v / 6);
        }
    }
    flat.set_objective(objective);
    Hypergraph::build(alloc, flat)
}

/// Vertices as bits.
fn bits_of(vertices: &[u32]) -> u32 {
    let mut set = 0;
    for v in vertices {
        set |= 1u32 << (v % 32);
    }
    set
}

/// The free vertices of a hypergraph as bits, and its nets with their pins as bits.
fn plain(alloc: Global, h: &Hypergraph) -> Result<(u32, Vec<(u32, u64)>), NoMemory> {
    let mut free = 0;
    for v in 0..h.vertices() {
        if h.fix(v) == FREE {
            free |= 1u32 << (v % 32);
        }
    }
    let mut nets = Vec::new(alloc);
    for e in 0..h.nets() {
        nets.push((bits_of(h.pins(e)), h.net_weight(e)))?;
    }
    Ok((free, nets))
}

/// What nets pay whose pins are in these sets.
fn cost_in(nets: &[(u32, u64)], objective: Objective, sets: [u32; 3]) -> u64 {
    let mut cost = 0u64;
    for (pins, weight) in nets {
        let touched = sets.iter().filter(|set| pins & **set != 0).count() as u64;
        let times = match objective {
            Objective::Connectivity => touched.saturating_sub(1),
            Objective::CutNet => u64::from(touched > 1),
            Objective::ExternalDegree => if touched > 1 { touched } else { 0 },
        };
        cost = cost.saturating_add(weight.saturating_mul(times));
    }
    cost
}

/// The blocks after some vertices of a region are assigned to the first one, and the others to the second.
fn assigned(region: u32, chosen: u32) -> [u32; 3] {
    [
        (SETS[0] & !region) | chosen,
        (SETS[1] & !region) | (region & !chosen),
        SETS[2],
    ]
}

/// The greater load of the first two blocks, where each vertex weighs 1.
fn greater_of(sets: [u32; 3]) -> u32 {
    sets[0].count_ones().max(sets[1].count_ones())
}

/// The least cost of an assignment of a region, by trying all, and what the first block gets: of the vertices
/// that it gets in each assignment of that cost and those that it gets in one, the choice with the lesser greater load.
fn cheapest(nets: &[(u32, u64)], objective: Objective, region: u32) -> (u64, u32) {
    let mut least = u64::MAX;
    let mut every = u32::MAX;
    let mut some = 0;
    for chosen in 0..1u32 << VERTICES {
        if chosen & !region == 0 {
            let cost = cost_in(nets, objective, assigned(region, chosen));
            if cost < least {
                (least, every, some) = (cost, u32::MAX, 0);
            }
            if cost == least {
                every &= chosen;
                some |= chosen;
            }
        }
    }
    if greater_of(assigned(region, some)) < greater_of(assigned(region, every)) {
        return (least, some);
    }
    (least, every)
}

/// The free vertices of a block on nets that touch another one, and those that share a net with them.
fn reached(nets: &[(u32, u64)], free: u32, block: u32, other: u32) -> u32 {
    let mut near = 0;
    for (pins, _) in nets {
        if pins & block != 0 && pins & other != 0 {
            near |= pins & block & free;
        }
    }
    let mut set = near;
    for (pins, _) in nets {
        if pins & near != 0 {
            set |= pins & block & free;
        }
    }
    set
}

/// The vertices of an end that are in the first block, as bits.
fn bits_in_first(end: &PairEnd) -> u32 {
    let mut set = 0;
    for (v, block) in end.region.slice().iter().zip(end.blocks.slice()) {
        if *block == 0 {
            set |= 1u32 << (v % 32);
        }
    }
    set
}

/// Compares the end of the first two blocks with all assignments of its region.
fn try_all(
    rt: &impl Abort,
    alloc: Global,
    objective: Objective,
    seed: u32,
    limit: u32,
) -> Result<(), Fail> {
    let h = random(alloc, objective, seed)?;
    let p = parted(rt, alloc, &h, 3, u64::from(limit), &BLOCKS)?;
    let (free, nets) = plain(alloc, &h)?;
    let nets = nets.as_slice();
    let end = solve_pair(alloc, &h, &p, 0, 1)?.ok_or("a net touches both")?;
    let region = bits_of(end.region.slice());
    let room = limit.saturating_sub(6);
    for (block, other) in [(SETS[0], SETS[1]), (SETS[1], SETS[0])] {
        let all = reached(nets, free, block, other);
        let taken = region & block;
        assert_eq!(rt;
            (taken & !all, taken.count_ones()),
            (0, room.min(all.count_ones()))
        );
    }
    let first = bits_in_first(&end);
    let now = assigned(region, first);
    let cost = cost_in(nets, objective, now);
    assert_eq!(rt; (cost, first), cheapest(nets, objective, region));
    let joined = [now[0] | now[1], 0, now[2]];
    assert_eq!(rt;
        cost,
        end.value.saturating_add(cost_in(nets, objective, joined))
    );
    Ok(())
}

#[test]
fn random_regions(rt: HostRuntime) -> Result<(), Fail> {
    for objective in [
        Objective::Connectivity,
        Objective::CutNet,
        Objective::ExternalDegree,
    ] {
        for seed in 0..8 {
            for limit in [8, 12] {
                try_all(&rt, rt.alloc(), objective, seed, limit)?;
            }
        }
    }
    Ok(())
}
