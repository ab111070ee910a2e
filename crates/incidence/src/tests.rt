ghost use Rattle.std.specs.Prelude.{◌≡◌, IfOk};
ghost use Rattle.hg_defs.specs.Hypergraph.{vertex_count, net_count};

use super::*;
use std::alloc::Global;
use std::test::Fail;

/// Seven vertices, the last fixed to block 1, and four nets of weights 2, 3, 8 and 7.
fn four_nets(alloc: Global) -> Result<Hypergraph, NoMemory>
    ensures vertices { IfOk result (λ h. vertex_count h ≡ 7) }
    ensures nets { IfOk result (λ h. net_count h ≡ 4) }
{
    let mut flat = FlatHyper::start(alloc, 7)?;
    flat.push_net(2, &[0, 1])?;
    flat.push_net(3, &[0, 6, 4, 5])?;
    flat.push_net(8, &[4, 5, 3])?;
    flat.push_net(7, &[1, 2, 3])?;
    flat.set_fix(6, 1);
    Hypergraph::build(alloc, flat)
}

#[test]
fn nets_of_vertices(rt: HostRuntime) -> Result<(), Fail> {
    let h = four_nets(rt.alloc())?;
    assert_eq!(rt; h.nets_of(0), [0, 1].as_slice());
    assert_eq!(rt; h.nets_of(1), [0, 3].as_slice());
    assert_eq!(rt; h.nets_of(2), [3].as_slice());
    assert_eq!(rt; h.nets_of(3), [2, 3].as_slice());
    assert_eq!(rt; h.nets_of(4), [1, 2].as_slice());
    assert_eq!(rt; h.nets_of(6), [1].as_slice());
    Ok(())
}

#[test]
fn index_by_threads(rt: HostRuntime) -> Result<(), Fail> {
    let mut flat = FlatHyper::start(rt.alloc(), 3)?;
    flat.push_net(1, &[2, 0])?;
    flat.push_net(1, &[1, 2])?;
    let h = Hypergraph::build_with(&rt, rt.alloc(), flat, 4)?;
    assert_eq!(rt; h.nets_of(0), [0].as_slice());
    assert_eq!(rt; h.nets_of(1), [1].as_slice());
    assert_eq!(rt; h.nets_of(2), [0, 1].as_slice());
    Ok(())
}

#[test]
fn readers(rt: HostRuntime) -> Result<(), Fail> {
    let h = four_nets(rt.alloc())?;
    assert_eq!(rt; (h.vertices(), h.nets(), h.total_weight()), (7, 4, 7));
    assert_eq!(rt; h.pins(1), [0, 4, 5, 6].as_slice());
    assert_eq!(rt; (h.net_weight(2), h.vertex_weight(3)), (8, 1));
    assert_eq!(rt; h.objective(), Objective::Connectivity);
    assert_eq!(rt; (h.fix(6), h.fix(0)), (1, FREE));
    assert_eq!(rt;
        (h.fixed_within(1), h.fixed_within(2), h.suits(2)),
        (false, true, true)
    );
    assert_eq!(rt; h.flat().pins(0), [0, 1].as_slice());
    let flat = h.into_flat();
    assert_eq!(rt; (flat.vertices(), flat.nets()), (7, 4));
    Ok(())
}
