ghost use Rattle.std.specs.Prelude.{◌≡◌, ◌+◌, ◌<◌, ◌≤◌, ℕ, Contains, IfOk, IsTrue, length};
ghost use Rattle.hg_defs.specs.Hypergraph.{vertex_count};
ghost use Rattle.hg_defs.specs.Partition.{IsPartition};
ghost use Rattle.hg_defs.specs.Contraction.{IsFull, IsApart};
ghost use Rattle.hg_defs.specs.Clustering.{cluster_count};

use contract_nets::{Merged, contract};
use hg_base::{FREE, FlatHyper, MapList, NoMemory};
use incidence::Hypergraph;
use level_stack::LevelStack;
use std::alloc::Global;
use std::process::Abort;
use std::test::Fail;
use std::thread::Threads;

/// Seven vertices and four nets of weights 2, 3, 8 and 7.
fn four_nets(alloc: Global) -> Result<Hypergraph, NoMemory>
    ensures { IfOk result (λ h. vertex_count h ≡ 7) }
{
    let mut flat = FlatHyper::start(alloc, 7)?;
    flat.push_net(2, &[0, 1])?;
    flat.push_net(3, &[0, 4, 5, 6])?;
    flat.push_net(8, &[3, 4, 5])?;
    flat.push_net(7, &[1, 2, 3])?;
    Hypergraph::build(alloc, flat)
}

/// Whether each number below a count stands in a map.
fn uses_all(map: &[u32], count: u32) -> bool
    ensures { IsTrue result → (i : ℕ) → i < count → Contains map.now i }
{
    for i in 0..count {
        if !map.contains(&i) {
            return false;
        }
    }
    true
}

/// Whether a map has one of so many numbers for each vertex.
fn is_partition(h: &Hypergraph, map: &[u32], count: u32) -> bool
    ensures { IsTrue result → IsPartition h.now count map.now }
{
    map.len() == h.vertices() as usize && map.iter().all(|i| *i < count)
}

/// Whether a map has a number for each vertex, and these are exactly the numbers below a count.
fn is_full(h: &Hypergraph, map: &[u32], count: u32) -> bool
    ensures { IsTrue result → IsFull h.now map.now (cluster_count map.now) }
{
    is_partition(h, map, count) && uses_all(map, count)
}

/// Whether every vertex is free; then none that isn't shares its cluster.
fn is_free(h: &Hypergraph, map: &[u32]) -> bool
    ensures { IsTrue result → IsApart h.now map.now }
{
    for v in 0..h.vertices() {
        if h.fix(v) != FREE {
            return false;
        }
    }
    true
}

/// Contracts the coarsest level by a map of so many clusters, and puts the next level on it.
fn climb<R: Abort + Threads + Sync>(
    rt: &R,
    alloc: Global,
    stack: &mut LevelStack,
    map: &[u32],
    count: u32,
) -> Result<(), Fail>
    requires { length stack.old.maps < 10 }
    ensures { IfOk result (λ ok. length stack.new.maps ≡ length stack.old.maps + 1) }
{
    let depth = stack.depth();
    assert!(rt; is_full(stack.top(), map, count));
    assert!(rt; is_free(stack.top(), map));
    let (coarse, ledger) = contract(rt, alloc, stack.top(), map, 2)?;
    let map = MapList::from_vec(map.to_vec(alloc)?);
    let pushed = stack.push(map, coarse, ledger);
    // A refused push leaves the stack as it was.
    let levels = if pushed.is_ok() { depth + 1 } else { depth };
    assert_eq!(rt; stack.depth(), levels);
    Ok(pushed?)
}

#[test]
fn three_levels(rt: HostRuntime) -> Result<(), Fail> {
    let mut stack = LevelStack::start(rt.alloc(), four_nets(rt.alloc())?)?;
    assert_eq!(rt; (stack.depth(), stack.top().vertices()), (1, 7));
    climb(&rt, rt.alloc(), &mut stack, &[0, 0, 1, 1, 2, 2, 2], 3)?;
    climb(&rt, rt.alloc(), &mut stack, &[0, 1, 1], 2)?;
    assert_eq!(rt; (stack.depth(), stack.top().vertices()), (3, 2));
    for (i, vertices, nets) in [(0, 7, 4), (1, 3, 3), (2, 2, 1)] {
        let level = stack.level(i);
        assert_eq!(rt; (level.vertices(), level.nets()), (vertices, nets));
    }
    assert_eq!(rt; stack.map(0), [0, 0, 1, 1, 2, 2, 2].as_slice());
    assert_eq!(rt; stack.level(1).nets(), 3);
    let ledger = stack.ledger(1);
    let went = [ledger.at(0), ledger.at(1), ledger.at(2)];
    assert_eq!(rt; went, [Merged::Into(0), Merged::Into(0), Merged::Dropped]);
    let top = stack.top();
    assert_eq!(rt; top.nets(), 1);
    assert_eq!(rt; (top.net_weight(0), top.vertex_weight(1)), (10, 5));
    let levels = stack.down_from(&rt, rt.alloc(), 1, 2)?;
    assert_eq!(rt; (levels.level().vertices(), levels.map().len()), (3, 3));
    let levels = levels.descend(&rt, rt.alloc(), 2)?;
    assert_eq!(rt; (levels.level().vertices(), levels.map().len()), (7, 7));
    let (base, maps) = levels.into_base();
    assert_eq!(rt; (base.vertices(), base.nets(), maps.len()), (7, 4, 2));
    let mut stack = LevelStack::start(rt.alloc(), base)?;
    climb(&rt, rt.alloc(), &mut stack, &[0, 0, 0, 1, 1, 1, 1], 2)?;
    let base = stack.base();
    assert_eq!(rt; (base.vertices(), base.nets()), (7, 4));
    Ok(())
}
