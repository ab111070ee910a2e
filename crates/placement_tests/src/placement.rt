ghost use Rattle.std.specs.Prelude.{◌≡◌, ◌≤◌, ◌<◌, ◌^◌, IfOk, length, All};
ghost use Rattle.hg_defs.specs.Hypergraph.{vertex_count};

use hg_base::{FlatHyper, NoMemory, cost_of};
use incidence::Hypergraph;
use initial_place::{PlaceEnd, named_best, place};
use std::alloc::Global;
use std::test::Fail;

/// Seven vertices of weight 1 and four nets of weights 2, 3, 8 and 7.
fn four_nets(alloc: Global) -> Result<Hypergraph, NoMemory>
    ensures { IfOk result (λ h. vertex_count h ≡ 7) }
{
    let mut h = FlatHyper::start(alloc, 7)?;
    h.push_net(2, &[0, 1])?;
    h.push_net(3, &[0, 6, 4, 5])?;
    h.push_net(8, &[4, 5, 3])?;
    h.push_net(7, &[1, 2, 3])?;
    Hypergraph::build(alloc, h)
}

/// Two groups of four vertices, the nets of three inside each, and one net between them. Vertex 0 is
/// fixed to block 1.
fn two_groups(alloc: Global) -> Result<Hypergraph, NoMemory>
    ensures { IfOk result (λ h. vertex_count h ≡ 8) }
{
    let mut h = FlatHyper::start(alloc, 8)?;
    h.push_net(1, &[0, 1, 2])?;
    h.push_net(1, &[1, 2, 3])?;
    h.push_net(1, &[0, 2, 3])?;
    h.push_net(1, &[0, 1, 3])?;
    h.push_net(1, &[4, 5, 6])?;
    h.push_net(1, &[5, 6, 7])?;
    h.push_net(1, &[4, 6, 7])?;
    h.push_net(1, &[4, 5, 7])?;
    h.push_net(1, &[3, 4])?;
    h.set_fix(0, 1);
    Hypergraph::build(alloc, h)
}

/// Vertices of these weights, at most 16, each below 2^32, without nets.
fn weighted(alloc: Global, weights: &[u32]) -> Result<Hypergraph, NoMemory>
    requires { length weights.now ≤ 16 }
{
    let mut h = FlatHyper::start(alloc, weights.len() as u32)?;
    for (v, weight) in weights.iter().enumerate() {
        h.set_vertex_weight(v as u32, u64::from(*weight));
    }
    Hypergraph::build(alloc, h)
}

#[test]
fn named_ones(rt: HostRuntime) -> Result<(), Fail> {
    let h = four_nets(rt.alloc())?;
    assert!(rt; h.fixed_within(2));
    // At seed 2 four of the nine cost 10, and the third is the first of them.
    for (seed, blocks) in [(1, [1, 1, 1, 0, 0, 0, 0]), (2, [1, 1, 0, 0, 0, 0, 1])] {
        let best = named_best(&rt, rt.alloc(), &h, 2, 4, seed, 1).expect(&rt, "one fits");
        assert_eq!(rt; best.slice(), blocks.as_slice());
    }
    let heavy = weighted(rt.alloc(), &[4, 4, 4])?;
    assert!(rt; heavy.fixed_within(2));
    let end = named_best(&rt, rt.alloc(), &heavy, 2, 6, 1, 1).err();
    assert_eq!(rt; end, Some(PlaceEnd::NoneFits));
    // At seed 13 the ninth alone fits.
    let five = weighted(rt.alloc(), &[3, 3, 2, 2, 2])?;
    assert!(rt; five.fixed_within(2));
    let ninth = named_best(&rt, rt.alloc(), &five, 2, 6, 13, 2).expect(&rt, "the ninth fits");
    assert_eq!(rt; ninth.slice(), [1, 1, 0, 0, 0].as_slice());
    Ok(())
}

#[test]
fn first_partition(rt: HostRuntime) -> Result<(), Fail> {
    let heavy = weighted(rt.alloc(), &[4, 4, 4])?;
    assert!(rt; heavy.fixed_within(2));
    assert!(rt; heavy.suits(2));
    let end = place(&rt, rt.alloc(), &heavy, 2, 6, 1, 1).err();
    assert_eq!(rt; end, Some(PlaceEnd::NoneFits));
    let h = four_nets(rt.alloc())?;
    assert!(rt; h.fixed_within(2));
    assert!(rt; h.suits(2));
    let blocks = place(&rt, rt.alloc(), &h, 2, 4, 1, 1).expect(&rt, "one fits");
    assert_eq!(rt; cost_of(h.flat(), blocks.slice(), 2), 10);
    Ok(())
}

#[test]
fn cheaper_than_named(rt: HostRuntime) -> Result<(), Fail> {
    // The best of the nine costs 6, and the one partition that cuts the net between alone costs 1.
    let h = two_groups(rt.alloc())?;
    assert!(rt; h.fixed_within(2));
    assert!(rt; h.suits(2));
    let best = named_best(&rt, rt.alloc(), &h, 2, 4, 1, 2).expect(&rt, "one fits");
    assert_eq!(rt; cost_of(h.flat(), best.slice(), 2), 6);
    let placed = place(&rt, rt.alloc(), &h, 2, 4, 1, 1).expect(&rt, "one fits");
    assert_eq!(rt; placed.slice(), [1, 1, 1, 1, 0, 0, 0, 0].as_slice());
    let placed = place(&rt, rt.alloc(), &h, 2, 4, 1, 8).expect(&rt, "one fits");
    assert_eq!(rt; placed.slice(), [1, 1, 1, 1, 0, 0, 0, 0].as_slice());
    Ok(())
}
