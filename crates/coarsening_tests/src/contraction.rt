ghost use Rattle.std.specs.Prelude.{◌≡◌, ◌<◌, ◌≤◌, ℕ, Contains, IfOk, IsTrue};
ghost use Rattle.hg_defs.specs.Hypergraph.{vertex_count, net_count};
ghost use Rattle.hg_defs.specs.Partition.{IsPartition};
ghost use Rattle.hg_defs.specs.Contraction.{IsFull};
ghost use Rattle.hg_defs.specs.Clustering.{cluster_count};

use contract_nets::{Merged, contract};
use hg_base::{FREE, FlatHyper, NoMemory, Objective};
use incidence::Hypergraph;
use std::alloc::Global;
use std::process::Abort;
use std::test::Fail;
use std::thread::Threads;

/// Seven vertices, the first with this fix, and four nets of weights 2, 3, 8 and 7.
fn four_nets(alloc: Global, fix: u32, objective: Objective) -> Result<Hypergraph, NoMemory>
    requires { fix ≤ 256 }
    ensures { IfOk result (λ h. vertex_count h ≡ 7) }
{
    let mut flat = FlatHyper::start(alloc, 7)?;
    flat.push_net(2, &[0, 1])?;
    flat.push_net(3, &[0, 4, 5, 6])?;
    flat.push_net(8, &[3, 4, 5])?;
    flat.push_net(7, &[1, 2, 3])?;
    flat.set_fix(0, fix);
    flat.set_objective(objective);
    Hypergraph::build(alloc, flat)
}

/// Whether each number below a count stands in a map.
fn uses_all(map: &[u32], count: u32) -> bool
    ensures { IsTrue result → (i : ℕ) → i < count → Contains map.now i }
{
    for i in 0..count {
        if !map.contains(&i) {
            return false;
        }
    }
    true
}

/// Whether a map has one of so many numbers for each vertex.
fn is_partition(h: &Hypergraph, map: &[u32], count: u32) -> bool
    ensures { IsTrue result → IsPartition h.now count map.now }
{
    map.len() == h.vertices() as usize && map.iter().all(|i| *i < count)
}

/// Whether a map has a number for each vertex, and these are exactly the numbers below a count.
fn is_full(h: &Hypergraph, map: &[u32], count: u32) -> bool
    ensures { IsTrue result → IsFull h.now map.now (cluster_count map.now) }
{
    is_partition(h, map, count) && uses_all(map, count)
}

/// A map, and what is expected of the contraction by it: for each cluster its weight and its fix,
/// the nets with their pins, and where each net went.
#[derive(Drop)]
struct Row<'a> {
    map: &'a [u32],
    clusters: &'a [(u64, u32)],
    nets: &'a [(u64, &'a [u32])],
    ledger: &'a [Merged],
}

/// Contracts by the map of a row, with so many workers, and compares.
fn compare<R: Abort + Threads + Sync>(
    rt: &R,
    alloc: Global,
    h: &Hypergraph,
    row: &Row<'_>,
    workers: u32,
) -> Result<(), Fail>
    requires some { 1 ≤ workers }
    requires few { workers ≤ 64 }
{
    let count = u32::try_from(row.clusters.len())?;
    assert!(rt; is_full(h, row.map, count));
    let (coarse, ledger) = contract(rt, alloc, h, row.map, workers)?;
    assert_eq!(rt; coarse.objective(), h.objective());
    assert_eq!(rt; coarse.vertices(), count);
    for (i, cluster) in row.clusters.iter().enumerate() {
        let found = (coarse.vertex_weight(i as u32), coarse.fix(i as u32));
        assert_eq!(rt; found, *cluster);
    }
    assert_eq!(rt; coarse.nets() as usize, row.nets.len());
    for (e, (weight, pins)) in row.nets.iter().enumerate() {
        assert_eq!(rt; coarse.net_weight(e as u32), *weight);
        assert_eq!(rt; coarse.pins(e as u32), *pins);
    }
    assert_eq!(rt; h.nets() as usize, row.ledger.len());
    for (e, merged) in row.ledger.iter().enumerate() {
        assert_eq!(rt; ledger.at(e as u32), *merged);
    }
    Ok(())
}

#[test]
fn contractions(rt: HostRuntime) -> Result<(), Fail> {
    let open = four_nets(rt.alloc(), FREE, Objective::Connectivity)?;
    let three = Row {
        map: &[0, 0, 1, 1, 2, 2, 2],
        clusters: &[(2, FREE), (2, FREE), (3, FREE)],
        nets: &[(7, &[0, 1]), (3, &[0, 2]), (8, &[1, 2])],
        ledger: &[
            Merged::Dropped,
            Merged::Into(1),
            Merged::Into(2),
            Merged::Into(0),
        ],
    };
    compare(&rt, rt.alloc(), &open, &three, 1)?;
    let two = Row {
        map: &[0, 0, 0, 1, 1, 1, 0],
        clusters: &[(4, FREE), (3, FREE)],
        nets: &[(10, &[0, 1])],
        ledger: &[
            Merged::Dropped,
            Merged::Into(0),
            Merged::Dropped,
            Merged::Into(0),
        ],
    };
    compare(&rt, rt.alloc(), &open, &two, 4)?;
    let fixed = four_nets(rt.alloc(), 1, Objective::ExternalDegree)?;
    let alone = Row {
        map: &[0, 1, 1, 1, 2, 2, 2],
        clusters: &[(1, 1), (3, FREE), (3, FREE)],
        nets: &[(2, &[0, 1]), (3, &[0, 2]), (8, &[1, 2])],
        ledger: &[
            Merged::Into(0),
            Merged::Into(1),
            Merged::Into(2),
            Merged::Dropped,
        ],
    };
    compare(&rt, rt.alloc(), &fixed, &alone, 64)
}
