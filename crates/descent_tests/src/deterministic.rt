ghost use Rattle.std.specs.Prelude.{◌≡◌, ◌≤◌, ℕ, length, IsTrue, IfOk};
ghost use Rattle.hg_defs.specs.Hypergraph.{vertex_count, Suits};
ghost use Rattle.hg_defs.specs.Levels.{level};

use det_sync::{det_descend, det_levels, sync_round};
use hg_base::{Blocks, FlatHyper, NoMemory};
use incidence::Hypergraph;
use level_stack::LevelStack;
use pin_plain::Partition;
use round_log::{RoundList, Stop};
use std::alloc::Global;
use std::process::Abort;
use std::test::Fail;
use std::thread::Threads;

/// Vertices in a row, each on a net with the next.
fn row(alloc: Global, vertices: u32) -> Result<Hypergraph, NoMemory>
    requires { vertices ≤ 1000 }
    ensures { IfOk result (λ h. vertex_count h ≡ vertices) }
{
    let mut flat = FlatHyper::start(alloc, vertices)?;
    for v in 1..vertices {
        flat.push_net(1, &[v - 1, v])?;
    }
    Hypergraph::build(alloc, flat)
}

/// The partition of these blocks into two, whose loads are at most 4.
fn parted(rt: &impl Abort, alloc: Global, h: &Hypergraph, blocks: &[u32]) -> Result<Partition, Fail>
    ensures { IfOk result (λ p. p ≡ record { hyper = h.now; k = 2; limit = 4; blocks = blocks.now }) }
{
    assert_eq!(rt; blocks.len(), h.vertices() as usize);
    assert!(rt; blocks.iter().all(|b| *b < 2));
    assert!(rt; h.suits(2));
    assert!(rt; h.fixed_within(2));
    let blocks = Blocks::from_vec(blocks.to_vec(alloc)?);
    Ok(Partition::of(alloc, h, 2, 4, blocks)?)
}

/// Makes a round, and checks the moves with what they book, how many are kept, the costs before them,
/// after them and after those kept, what all save, and the blocks that are left.
fn try_round<R: Threads + Sync + Abort>(
    rt: &R,
    alloc: Global,
    h: &Hypergraph,
    before: &[u32],
    moves: &[(u32, i64)],
    kept: u32,
    costs: (u64, u64, u64),
    saved: i64,
    after: &[u32],
    settled: bool,
) -> Result<(), Fail> {
    let p = parted(rt, alloc, h, before)?;
    assert!(rt; p.fits());
    assert!(rt; !p.settled(h));
    let mut log = RoundList::new(alloc);
    let q = sync_round(rt, alloc, h, p, 3, 2, &mut log)?;
    assert_eq!(rt; q.blocks(), after);
    assert_eq!(rt; q.settled(h), settled);
    for round in log.slice() {
        assert_eq!(rt; (round.level, round.kept, round.tabled), (3, kept, false));
        assert_eq!(rt; (round.before, round.made, round.after), costs);
        assert_eq!(rt; round.gains.slice(), [saved, 0].as_slice());
        assert_eq!(rt; round.moves.len(), moves.len());
        for (made, expected) in round.moves.slice().iter().zip(moves) {
            assert_eq!(rt; (made.vertex, made.booked), *expected);
        }
    }
    assert_eq!(rt; log.len(), 1);
    Ok(())
}

#[test]
fn rounds_of_row(rt: HostRuntime) -> Result<(), Fail> {
    let h = row(rt.alloc(), 6)?;
    try_round(
        &rt,
        rt.alloc(),
        &h,
        &[0, 1, 0, 1, 0, 1],
        &[(1, 2), (2, 0), (3, 0), (4, 0), (0, -1), (5, -1)],
        1,
        (5, 5, 3),
        0,
        &[0, 0, 0, 1, 0, 1],
        false,
    )?;
    try_round(
        &rt,
        rt.alloc(),
        &h,
        &[0, 0, 0, 1, 0, 1],
        &[(4, 2)],
        1,
        (3, 1, 1),
        2,
        &[0, 0, 0, 1, 1, 1],
        true,
    )
}

/// Whether each level suits so many blocks.
fn all_suit(stack: &LevelStack, k: u32) -> bool
    requires { k ≤ 256 }
    ensures { IsTrue result → (i : ℕ) → i ≤ length stack.now.maps → Suits (level stack.now.base stack.now.maps i) k }
{
    for i in 0..stack.depth() {
        if !stack.level(i).suits(k) {
            return false;
        }
    }
    true
}

/// The blocks of a row of 300 vertices in 8 blocks, with so many workers.
fn descended<R: Threads + Sync + Abort>(
    rt: &R,
    alloc: Global,
    workers: u32,
) -> Result<Partition, Fail>
    requires some { 1 ≤ workers }
    requires few { workers ≤ 64 }
{
    let h = row(alloc, 300)?;
    assert!(rt; h.fixed_within(8));
    let (stack, stop) = det_levels(rt, alloc, h, 8, workers)?;
    assert_eq!(rt; (stack.depth(), stack.top().vertices()), (2, 150));
    assert!(rt; matches!(stop, Stop::Small));
    assert!(rt; all_suit(&stack, 8));
    let (_, p, trace) = det_descend(rt, alloc, stack, stop, 8, 40, 1, workers).expect(
        rt, "one fits",
    );
    assert_eq!(rt; trace.start, 1);
    assert!(rt; p.fits());
    Ok(p)
}

#[test]
fn same_for_all_workers(rt: HostRuntime) -> Result<(), Fail> {
    let one = descended(&rt, rt.alloc(), 1)?;
    let eight = descended(&rt, rt.alloc(), 8)?;
    assert_eq!(rt; one.blocks(), eight.blocks());
    Ok(())
}
