ghost use Rattle.std.specs.Prelude.{◌≡◌, ◌≤◌, length, OnOk};

use flow_net::{Arc, Network, Workspace};
use hg_base::NoMemory;
use std::alloc::Global;
use std::test::Fail;

/// How many nodes and arcs the random networks have.
const NODES: u32 = 6;

const ARCS: u32 = 14;

fn is_in_set(set: u32, node: u32) -> bool {
    (set >> (node % 32)) & 1 == 1
}

/// The least capacity of a cut between the first and the last node, by trying every side, and the nodes
/// that are on each side of that capacity and those that are on one.
fn least_cuts(arcs: &[Arc]) -> (u64, u32, u32) {
    let mut least = u64::MAX;
    let mut every = u32::MAX;
    let mut some = 0;
    for set in 0..1u32 << NODES {
        if is_in_set(set, 0) && !is_in_set(set, NODES - 1) {
            let mut sum = 0u64;
            for arc in arcs {
                if is_in_set(set, arc.from) && !is_in_set(set, arc.to) {
                    sum = sum.saturating_add(arc.cap);
                }
            }
            if sum < least {
                (least, every, some) = (sum, u32::MAX, 0);
            }
            if sum == least {
                every &= set;
                some |= set;
            }
        }
    }
    (least, every, some)
}

/// The nodes of a side as bits.
fn bits_of(side: &[bool]) -> u32 {
    let mut set = 0;
    for flag in side.iter().rev() {
        set = (set << 1) | u32::from(*flag);
    }
    set
}

/// Fills a network with random arcs of capacities up to 9.
fn fill(network: &mut Network, seed: u32) -> Result<(), NoMemory>
    ensures { OnOk result (network.new.nodes ≡ NODES) }
{
    network.clear(NODES);
    let mut state = seed;
    for _arc in 0..ARCS {
        state = state.wrapping_mul(1664525).wrapping_add(1013904223);
        let from = (state >> 8) % NODES;
        let to = (state >> 16) % NODES;
        network.arc(from, to, u64::from((state >> 24) % 10))?;
    }
    Ok(())
}

#[test]
fn random_networks(rt: HostRuntime) -> Result<(), Fail> {
    let mut space = Workspace::new(rt.alloc());
    let mut network = Network::new(rt.alloc(), NODES)?;
    for seed in 0..200 {
        fill(&mut network, seed)?;
        let cut = network.max_flow_in(&mut space, 0, NODES - 1)?;
        let (least, every, some) = least_cuts(network.arcs());
        assert_eq!(rt; cut.value, u128::from(least));
        assert_eq!(rt;
            (bits_of(cut.near.slice()), bits_of(cut.side.slice())),
            (every, some)
        );
    }
    Ok(())
}

#[test]
fn two_ways_and_a_bridge(rt: HostRuntime) -> Result<(), Fail> {
    let mut network = Network::new(rt.alloc(), 4)?;
    network.arc(0, 1, 3)?;
    network.arc(0, 2, 2)?;
    network.arc(1, 3, 2)?;
    network.arc(2, 3, 3)?;
    let bridge = network.arc(1, 2, 5)?;
    assert_eq!(rt; (bridge, network.nodes(), network.arcs().len()), (4, 4, 5));
    let cut = network.max_flow(0, 3)?;
    assert_eq!(rt; cut.value, 5);
    assert_eq!(rt; cut.side.slice(), [true, true, true, false].as_slice());
    assert_eq!(rt; cut.near.slice(), [true, false, false, false].as_slice());
    assert_eq!(rt;
        (network.flow_on(0), network.flow_on(1), network.flow_on(4)),
        (3, 2, 1)
    );
    Ok(())
}

/// The capacities of arcs from each of six nodes to the next one, and the least cuts between the two ends.
struct Row {
    caps: [u32; 5],
    value: u128,
    near: [bool; 6],
    side: [bool; 6],
}

const ROWS: &[Row] = &[
    Row {
        caps: [4, 3, 5, 3, 4],
        value: 3,
        near: [true, true, false, false, false, false],
        side: [true, true, true, true, false, false],
    },
    Row {
        caps: [9, 7, 2, 5, 8],
        value: 2,
        near: [true, true, true, false, false, false],
        side: [true, true, true, false, false, false],
    },
];

/// Compares the two extreme cuts of a row with what is expected.
fn is_right(alloc: Global, row: &Row) -> Result<bool, NoMemory> {
    let mut network = Network::new(alloc, NODES)?;
    for from in 0..NODES - 1 {
        network.arc(from, from + 1, u64::from(row.caps[from as usize]))?;
    }
    let cut = network.max_flow(0, NODES - 1)?;
    Ok(
        cut.value == row.value
            && cut.near.slice() == row.near.as_slice()
            && cut.side.slice() == row.side.as_slice(),
    )
}

#[test]
fn extreme_cuts(rt: HostRuntime) -> Result<(), Fail> {
    for row in ROWS {
        assert!(rt; is_right(rt.alloc(), row)?, "{:?}", row.caps);
    }
    Ok(())
}
