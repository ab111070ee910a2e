ghost use Rattle.std.specs.Prelude.{◌≡◌, ◌<◌, ◌≤◌, ◌^◌, IfOk, length};
ghost use Rattle.hg_defs.specs.Hypergraph.{vertex_count};

use crate::{ClusterEvent, Marks, RunEnd, run};
use hg_base::{FlatHyper, NoMemory};
use std::alloc::Global;
use std::test::Fail;

/// Three vertices of weight 1 on a net, the last one fixed where it is wanted.
fn three(alloc: Global, last_fixed: bool) -> Result<FlatHyper, NoMemory>
    ensures { IfOk result (λ h. vertex_count h ≡ 3) }
{
    let mut h = FlatHyper::start(alloc, 3)?;
    h.push_net(1, &[0, 1, 2])?;
    if last_fixed {
        h.set_fix(2, 1);
    }
    Ok(h)
}

/// Pass 1 joins vertex 1 to the root 0 that it peeked; then pass 0 finds no room for vertex 2.
const JOINED: [ClusterEvent; 10] = [
    ClusterEvent::Take { pass: 0, vertex: 0 },
    ClusterEvent::Root { pass: 0, vertex: 0 },
    ClusterEvent::Take { pass: 1, vertex: 1 },
    ClusterEvent::Peek { pass: 1, vertex: 0 },
    ClusterEvent::Add {
        pass: 1,
        vertex: 1,
        root: 0,
    },
    ClusterEvent::Follow { pass: 1 },
    ClusterEvent::Take { pass: 0, vertex: 2 },
    ClusterEvent::Add {
        pass: 0,
        vertex: 2,
        root: 0,
    },
    ClusterEvent::TakeBack { pass: 0 },
    ClusterEvent::Root { pass: 0, vertex: 2 },
];

/// A taken vertex goes over with a Join, and the pass that ended makes nothing more.
const HANDED_OVER: [ClusterEvent; 7] = [
    ClusterEvent::Split { pass: 0 },
    ClusterEvent::Take { pass: 1, vertex: 1 },
    ClusterEvent::Take { pass: 0, vertex: 1 },
    ClusterEvent::Join { pass: 0, other: 1 },
    ClusterEvent::Root { pass: 0, vertex: 1 },
    ClusterEvent::Take { pass: 0, vertex: 1 },
    ClusterEvent::Peek { pass: 1, vertex: 1 },
];

#[test]
fn lists_of_events(rt: HostRuntime) -> Result<(), Fail> {
    let h = three(rt.alloc(), false)?;
    let Ok(marks) = run(rt.alloc(), &h, 2, 2, &JOINED) else {
        panic!(rt; "each event is enabled")
    };
    assert!(rt; marks.root(0) == Some(0) && marks.root(1) == Some(0) && marks.root(2) == Some(2));
    assert!(rt; marks.mass(0) == 2 && marks.mass(2) == 1);
    let Ok(marks) = run(rt.alloc(), &h, 2, 2, &JOINED[..9]) else {
        panic!(rt; "each event is enabled")
    };
    assert!(rt; marks.root(2).is_none() && marks.mass(0) == 2);
    let end = stop(run(rt.alloc(), &h, 2, 1, &HANDED_OVER));
    assert_eq!(rt; end, Some(RunEnd::NotEnabled { at: 6 }));
    let fixed = three(rt.alloc(), true)?;
    let end = stop(run(rt.alloc(), &fixed, 2, 2, &JOINED));
    assert_eq!(rt; end, Some(RunEnd::NotEnabled { at: 6 }));
    Ok(())
}

fn stop(end: Result<Marks, RunEnd>) -> Option<RunEnd> {
    end.err()
}
