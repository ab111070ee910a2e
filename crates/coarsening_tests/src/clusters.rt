ghost use Rattle.std.specs.Prelude.{◌≡◌, IfOk};
ghost use Rattle.hg_defs.specs.Hypergraph.{vertex_count};

use cluster_claim::cluster;
use crew::{Gate, OpenGate};
use hg_base::{FlatHyper, NoMemory};
use incidence::Hypergraph;
use std::alloc::Global;
use std::sync::atomic::AtomicBool;
use std::sync::atomic::Ordering::SeqCst;
use std::test::Fail;
use std::thread::Threads;

/// Three vertices on a net.
fn three(alloc: Global) -> Result<Hypergraph, NoMemory>
    ensures { IfOk result (λ h. vertex_count h ≡ 3) }
{
    let mut flat = FlatHyper::start(alloc, 3)?;
    flat.push_net(1, &[0, 1, 2])?;
    Hypergraph::build(alloc, flat)
}

/// Six vertices in a row, with a net between neighbours.
fn path(alloc: Global) -> Result<Hypergraph, NoMemory>
    ensures { IfOk result (λ h. vertex_count h ≡ 6) }
{
    let mut flat = FlatHyper::start(alloc, 6)?;
    flat.push_net(1, &[0, 1])?;
    flat.push_net(1, &[1, 2])?;
    flat.push_net(1, &[2, 3])?;
    flat.push_net(1, &[3, 4])?;
    flat.push_net(1, &[4, 5])?;
    Hypergraph::build(alloc, flat)
}

/// Four vertices in a ring, whose two heaviest nets have no vertex in common.
fn ring(alloc: Global, fixed: bool) -> Result<Hypergraph, NoMemory>
    ensures { IfOk result (λ h. vertex_count h ≡ 4) }
{
    let mut flat = FlatHyper::start(alloc, 4)?;
    flat.push_net(5, &[0, 1])?;
    flat.push_net(1, &[1, 2])?;
    flat.push_net(7, &[2, 3])?;
    flat.push_net(2, &[0, 3])?;
    if fixed {
        flat.set_fix(3, 1);
    }
    Hypergraph::build(alloc, flat)
}

/// Four vertices without nets.
fn loose(alloc: Global) -> Result<Hypergraph, NoMemory>
    ensures { IfOk result (λ h. vertex_count h ≡ 4) }
{
    Hypergraph::build(alloc, FlatHyper::start(alloc, 4)?)
}

/// Whether one worker puts 0 with 1, and 2 with 3.
fn pairs<R: Threads + Sync>(
    rt: &R,
    alloc: Global,
    h: &Hypergraph,
    seed: u64,
) -> Result<bool, NoMemory>
    requires { vertex_count h.now ≡ 4 }
{
    let roots = cluster(rt, alloc, h, 2, 1, seed, &OpenGate)?;
    Ok(match roots.slice() {
        [a, b, c, d] => a == b && c == d && a != c,
        _ => false,
    })
}

/// Whether one worker puts all but the last vertex together.
fn leaves_last<R: Threads + Sync>(
    rt: &R,
    alloc: Global,
    h: &Hypergraph,
    seed: u64,
) -> Result<bool, NoMemory>
    requires { vertex_count h.now ≡ 4 }
{
    let roots = cluster(rt, alloc, h, 4, 1, seed, &OpenGate)?;
    Ok(match roots.slice() {
        [a, b, c, d] => a == b && b == c && *d == 3,
        _ => false,
    })
}

/// How many vertices follow another one.
fn followers(roots: &[u32]) -> usize {
    roots
        .iter()
        .enumerate()
        .filter(|(v, root)| **root as usize != *v)
        .count()
}

#[test]
fn caps(rt: HostRuntime) -> Result<(), Fail> {
    let roots = cluster(&rt, rt.alloc(), &three(rt.alloc())?, 1, 2, 1, &OpenGate)?;
    assert_eq!(rt; followers(roots.slice()), 0);
    let roots = cluster(&rt, rt.alloc(), &path(rt.alloc())?, 3, 1, 1, &OpenGate)?;
    assert!(rt; followers(roots.slice()) > 0);
    let roots = cluster(&rt, rt.alloc(), &loose(rt.alloc())?, 2, 1, 5, &OpenGate)?;
    assert_eq!(rt; followers(roots.slice()), 2);
    Ok(())
}

#[test]
fn ratings(rt: HostRuntime) -> Result<(), Fail> {
    let open = ring(rt.alloc(), false)?;
    let fixed = ring(rt.alloc(), true)?;
    for seed in 0..8 {
        assert!(rt; pairs(&rt, rt.alloc(), &open, seed)?);
        assert!(rt; leaves_last(&rt, rt.alloc(), &fixed, seed)?);
    }
    Ok(())
}

#[test]
fn places_of_seeds(rt: HostRuntime) -> Result<(), Fail> {
    // The worker begins at the vertices 4, 1, 5, 0, 3 and 2.
    for (seed, expected) in [
        (0, [1, 1, 2, 3, 3, 5]),
        (1, [0, 0, 3, 3, 5, 5]),
        (2, [1, 1, 3, 3, 4, 4]),
        (4, [1, 1, 3, 3, 5, 5]),
        (7, [1, 1, 2, 2, 5, 5]),
        (9, [0, 1, 1, 4, 4, 5]),
    ] {
        let roots = cluster(&rt, rt.alloc(), &path(rt.alloc())?, 2, 1, seed, &OpenGate)?;
        assert_eq!(rt; roots.slice(), expected.as_slice());
    }
    Ok(())
}

/// In its first call of the gate each of two workers tells that it is there, and looks for the other.
#[derive(Drop)]
struct Meeting {
    here: [AtomicBool; 2],
    met: [AtomicBool; 2],
}

impl Gate for Meeting {
    fn pass(&self, worker: u32, turn: u64) {
        if turn > 0 || worker > 1 {
            return;
        }
        let me = worker as usize;
        self.here[me].store(true, SeqCst);
        for _ in 0..100_000_000 {
            if self.here[1 - me].load(SeqCst) {
                self.met[me].store(true, SeqCst);
                return;
            }
        }
    }
}

#[test]
fn workers_meet(rt: HostRuntime) -> Result<(), Fail> {
    let gate = Meeting {
        here: [AtomicBool::new(false), AtomicBool::new(false)],
        met: [AtomicBool::new(false), AtomicBool::new(false)],
    };
    let roots = cluster(&rt, rt.alloc(), &path(rt.alloc())?, 3, 2, 1, &gate)?;
    assert_eq!(rt; roots.len(), 6);
    assert!(rt; gate.met[0].load(SeqCst) && gate.met[1].load(SeqCst));
    Ok(())
}
