ghost use Rattle.std.specs.Prelude.{◌≡◌, ◌≤◌, IfOk, length};
ghost use Rattle.hg_defs.specs.Hypergraph.{vertex_count};

use super::*;
use std::alloc::Global;
use std::test::Fail;

/// Seven vertices of weight 1 and four nets of weights 2, 3, 8 and 7.
fn four_nets(alloc: Global) -> Result<FlatHyper, NoMemory>
    ensures { IfOk result (λ h. vertex_count h ≡ 7) }
{
    let mut h = FlatHyper::start(alloc, 7)?;
    h.push_net(2, &[0, 1])?;
    h.push_net(3, &[0, 6, 4, 5])?;
    h.push_net(8, &[4, 5, 3])?;
    h.push_net(7, &[1, 2, 3])?;
    Ok(h)
}

/// Vertices of these weights, at most 16, each below 2^32.
fn weighted(alloc: Global, weights: &[u32]) -> Result<FlatHyper, NoMemory>
    requires { length weights.now ≤ 16 }
{
    let mut h = FlatHyper::start(alloc, weights.len() as u32)?;
    for (v, weight) in weights.iter().enumerate() {
        h.set_vertex_weight(v as u32, u64::from(*weight));
    }
    Ok(h)
}

#[test]
fn readers(rt: HostRuntime) -> Result<(), Fail> {
    let mut h = four_nets(rt.alloc())?;
    assert_eq!(rt; (h.vertices(), h.nets(), h.total_weight()), (7, 4, 7));
    assert_eq!(rt; h.pins(1), [0, 4, 5, 6].as_slice());
    assert_eq!(rt;
        h.all_pins(),
        [0, 1, 0, 4, 5, 6, 3, 4, 5, 1, 2, 3].as_slice()
    );
    assert_eq!(rt; h.net_weight(2), 8);
    h.set_vertex_weight(3, 0);
    assert_eq!(rt; (h.vertex_weight(3), h.total_weight()), (0, 6));
    h.set_objective(Objective::CutNet);
    assert_eq!(rt; h.objective(), Objective::CutNet);
    h.set_fix(6, 2);
    assert_eq!(rt; (h.fix(6), h.fix(0)), (2, FREE));
    assert_eq!(rt; (h.fixed_within(2), h.fixed_within(3)), (false, true));
    let copy = h.copy(rt.alloc())?;
    assert_eq!(rt; (copy.nets(), copy.total_weight(), copy.fix(6)), (4, 6, 2));
    assert_eq!(rt; copy.pins(1), [0, 4, 5, 6].as_slice());
    let most = FlatHyper::start(rt.alloc(), 1 << 22)?;
    assert_eq!(rt; (most.suits(16), most.suits(17)), (true, false));
    Ok(())
}

#[test]
fn costs(rt: HostRuntime) -> Result<(), Fail> {
    let mut h = four_nets(rt.alloc())?;
    assert_eq!(rt; cost_of(&h, &[0, 0, 0, 1, 1, 1, 0], 2), 10);
    for (objective, cost) in [
        (Objective::Connectivity, 38),
        (Objective::CutNet, 20),
        (Objective::ExternalDegree, 58),
    ] {
        h.set_objective(objective);
        assert_eq!(rt; cost_of(&h, &[0, 1, 2, 0, 1, 2, 0], 3), cost);
    }
    Ok(())
}

#[test]
fn small_nets_cost_nothing(rt: HostRuntime) -> Result<(), Fail> {
    let mut h = FlatHyper::start(rt.alloc(), 3)?;
    h.push_net(1, &[2, 2, 2])?;
    h.push_net(5, &[])?;
    assert_eq!(rt; h.pins(0), [2].as_slice());
    assert_eq!(rt; cost_of(&h, &[0, 1, 1], 2), 0);
    Ok(())
}

#[test]
fn nets_from_arrays(rt: HostRuntime) -> Result<(), Fail> {
    let mut h = FlatHyper::start(rt.alloc(), 7)?;
    h.reserve(3, 9)?;
    h.push_nets(&[2, 3], &[0, 2, 6], &[0, 1, 0, 4, 5, 6])?;
    h.push_nets(&[8], &[0, 3], &[3, 4, 5])?;
    assert_eq!(rt; (h.vertices(), h.nets(), h.total_weight()), (7, 3, 7));
    assert_eq!(rt; h.pins(0), [0, 1].as_slice());
    assert_eq!(rt; h.pins(1), [0, 4, 5, 6].as_slice());
    assert_eq!(rt; h.pins(2), [3, 4, 5].as_slice());
    assert_eq!(rt;
        (h.net_weight(0), h.net_weight(1), h.net_weight(2)),
        (2, 3, 8)
    );
    Ok(())
}

#[test]
fn limits(rt: HostRuntime) {
    for (weight, k, eps, limit) in [
        (7, 2, 0, 4),
        (7, 3, 0, 3),
        (2, 4, 0, 1),
        (12, 2, 0, 6),
        (60, 4, 0, 15),
        (12884901885, 2, 0, 6442450943),
        (12884901885, 2, 334, 8594229557),
    ] {
        assert_eq!(rt; limit_of(weight, k, eps), limit);
    }
}

#[test]
fn greedy_placements(rt: HostRuntime) -> Result<(), Fail> {
    let mut h = four_nets(rt.alloc())?;
    assert!(rt; h.fixed_within(2));
    let blocks = greedy(rt.alloc(), &h, 2, 4)?;
    assert_eq!(rt; blocks.slice(), [0, 1, 0, 1, 0, 1, 0].as_slice());
    assert_eq!(rt; cost_of(&h, blocks.slice(), 2), 20);
    h.set_fix(0, 0);
    h.set_fix(3, 1);
    h.set_fix(6, 1);
    assert!(rt; h.fixed_within(2));
    let blocks = greedy(rt.alloc(), &h, 2, 4)?;
    assert_eq!(rt; blocks.slice(), [0, 0, 0, 1, 1, 0, 1].as_slice());
    assert_eq!(rt; cost_of(&h, blocks.slice(), 2), 18);
    Ok(())
}

#[test]
fn placement_in_order(rt: HostRuntime) -> Result<(), Fail> {
    let h = FlatHyper::start(rt.alloc(), 2)?;
    assert!(rt; h.fixed_within(2));
    let blocks = least_loaded(rt.alloc(), &h, 2, 1, &[1, 0])?;
    assert_eq!(rt; blocks.slice(), [1, 0].as_slice());
    Ok(())
}

#[test]
fn overfills(rt: HostRuntime) -> Result<(), Fail> {
    let odd = weighted(rt.alloc(), &[3, 3, 2, 2, 2])?;
    let heavy = weighted(rt.alloc(), &[50, 1, 1, 1, 1, 1, 1, 1, 1, 1, 1])?;
    let large = weighted(rt.alloc(), &[u32::MAX, u32::MAX, u32::MAX])?;
    for (h, k, limit, vertex) in [
        (&odd, 2, 6, 4),
        (&heavy, 4, 15, 0),
        (&large, 2, 6442450943, 2),
    ] {
        assert!(rt; 0 < k && k <= 256);
        assert!(rt; h.fixed_within(k));
        let end = greedy(rt.alloc(), h, k, limit).err();
        assert_eq!(rt; end, Some(GreedyEnd::Overfills { vertex }));
    }
    assert!(rt; large.fixed_within(2));
    let blocks = greedy(rt.alloc(), &large, 2, 8594229557)?;
    assert_eq!(rt; blocks.slice(), [0, 1, 0].as_slice());
    Ok(())
}

#[test]
fn packed_counts(rt: HostRuntime) {
    assert_eq!(rt;
        (bits_of(255), bits_of(256), bits_of(65535), bits_of(65536)),
        (8, 16, 16, 32)
    );
    assert_eq!(rt;
        (words_of(255, 9), words_of(65535, 5), words_of(65536, 5)),
        (2, 2, 3)
    );
    assert_eq!(rt; field(0x0807_0605_0403_0201, 8, 6), 7);
    assert_eq!(rt; field(0x0004_0003_0002_0001, 16, 2), 3);
    assert_eq!(rt; field(0x0004_0003_0002_0001, 32, 1), 0x0004_0003);
    assert_eq!(rt;
        (unit(8, 7), unit(16, 3), unit(32, 1)),
        (1 << 56, 1 << 48, 1 << 32)
    );
    assert_eq!(rt; raise_field(0xfffe_0000_ffff, 16, 2), 0xffff_0000_ffff);
    assert_eq!(rt; lower_field(0x0001_0000_0000, 32, 1), 0);
}

#[test]
fn lists(rt: HostRuntime) -> Result<(), Fail> {
    let mut map = MapList::new(rt.alloc());
    assert!(rt; map.is_empty());
    for number in [4, 5, 6] {
        map.push(number)?;
    }
    assert_eq!(rt; map.len(), 3);
    map.set(1, 7);
    map.slice_mut()[2] = 8;
    let mut maps = MapStack::new(rt.alloc());
    maps.push(map.copy()?)?;
    let copy = maps.copy()?.into_vec();
    assert_eq!(rt; copy.len(), 1);
    assert_eq!(rt; copy[0].slice(), [4, 7, 8].as_slice());
    assert_eq!(rt;
        MapList::from_vec(map.into_vec()).slice(),
        [4, 7, 8].as_slice()
    );
    Ok(())
}
