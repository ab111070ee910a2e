ghost use Rattle.std.specs.Prelude.{◌≡◌, ◌<◌, ◌≤◌, ◌^◌, All, IfOk, length};
ghost use Rattle.hg_defs.specs.Hypergraph.{vertex_count};

use coarsen::{coarsen, coarsen_inside, pair_sweep};
use crew::OpenGate;
use hg_base::{FlatHyper, NoMemory};
use incidence::Hypergraph;
use level_stack::LevelStack;
use round_log::Stop;
use std::alloc::Global;
use std::process::Abort;
use std::test::Fail;
use std::thread::Threads;

/// The vertices i, i + 1 and i * i + 3, modulo n.
fn pins_of(i: u32, n: u32) -> [u32; 3]
    requires vertex { i < n }
    requires few { n ≤ 2 ^ 20 }
    ensures below { All (λ v. v < n) result }
    ensures three { length result ≡ 3 }
{
    let square = u64::from(i) * u64::from(i);
    let third = (square + 3) % u64::from(n);
    [i, (i + 1) % n, third as u32]
}

/// As many vertices as nets; net i has the vertices i, i + 1 and i * i + 3, modulo their number.
fn ring(alloc: Global, vertices: u32) -> Result<Hypergraph, NoMemory>
    requires { vertices ≤ 2 ^ 20 }
    ensures { IfOk result (λ h. vertex_count h ≡ vertices) }
{
    let mut flat = FlatHyper::start(alloc, vertices)?;
    for i in 0..vertices {
        flat.push_net(1, &pins_of(i, vertices))?;
    }
    Hypergraph::build(alloc, flat)
}

/// The vertices by turns in each of `k` blocks.
fn by_turns(alloc: Global, vertices: u32, k: u32) -> Result<Vec<u32>, NoMemory>
    requires { 0 < k }
    ensures blocks { IfOk result (λ blocks. All (λ b. b < k) blocks.items) }
    ensures vertices { IfOk result (λ blocks. length blocks.items ≡ vertices) }
{
    let mut blocks = Vec::with_capacity(alloc, vertices as usize)?;
    for v in 0..vertices {
        blocks.push(v % k)?;
    }
    Ok(blocks)
}

/// The entry of a list at a place, or 0 past its end.
fn entry(list: &[u32], place: u32) -> u32 {
    list.get(place as usize).copied().unwrap_or(0)
}

/// The vertex of the coarsest level that a vertex of the finest one is in.
fn cluster_at_top(stack: &LevelStack, v: u32) -> u32 {
    let mut number = v;
    for i in 0..stack.depth() - 1 {
        number = entry(stack.map(i), number);
    }
    number
}

#[test]
fn pairs_of_seven(rt: HostRuntime) -> Result<(), Fail> {
    let mut flat = FlatHyper::start(rt.alloc(), 7)?;
    flat.push_net(2, &[0, 1])?;
    flat.push_net(3, &[0, 4, 5, 6])?;
    flat.push_net(8, &[3, 4, 5])?;
    flat.push_net(7, &[1, 2, 3])?;
    let h = Hypergraph::build(rt.alloc(), flat)?;
    let clusters = pair_sweep(rt.alloc(), &h, 2)?;
    assert_eq!(rt; clusters.slice(), [0, 0, 1, 1, 2, 2, 3].as_slice());
    Ok(())
}

#[test]
fn levels(rt: HostRuntime) -> Result<(), Fail> {
    let h = ring(rt.alloc(), 5000)?;
    let (stack, stop) = coarsen(&rt, rt.alloc(), h, 8, 2, 1, &OpenGate)?;
    assert!(rt; stack.depth() >= 2);
    assert!(rt; stack.top().vertices() <= 256 || !matches!(stop, Stop::Small));
    Ok(())
}

#[test]
fn levels_inside_blocks(rt: HostRuntime) -> Result<(), Fail> {
    let h = ring(rt.alloc(), 5000)?;
    let blocks = by_turns(rt.alloc(), 5000, 8)?;
    let (stack, stop, top) = coarsen_inside(&rt, rt.alloc(), h, 8, &blocks, 2, 1, &OpenGate)?;
    assert!(rt; stack.depth() >= 2);
    assert!(rt; stack.top().vertices() <= 256 || !matches!(stop, Stop::Small));
    assert_eq!(rt; top.len(), stack.top().vertices() as usize);
    for v in 0..5000 {
        let block = entry(top.slice(), cluster_at_top(&stack, v));
        assert_eq!(rt; block, entry(&blocks, v));
    }
    Ok(())
}

/// The first clustering of one worker, which the seed alone decides.
fn first_map<R: Abort + Threads + Sync>(
    rt: &R,
    alloc: Global,
    seed: u64,
) -> Result<Vec<u32>, Fail> {
    let h = ring(alloc, 300)?;
    let (stack, _stop) = coarsen(rt, alloc, h, 2, 1, seed, &OpenGate)?;
    assert!(rt; stack.depth() >= 2);
    Ok(stack.map(0).to_vec(alloc)?)
}

#[test]
fn maps_of_seeds(rt: HostRuntime) -> Result<(), Fail> {
    let first = first_map(&rt, rt.alloc(), 1)?;
    let second = first_map(&rt, rt.alloc(), 2)?;
    assert!(rt; first.as_slice() != second.as_slice());
    Ok(())
}
