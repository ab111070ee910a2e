ghost use Rattle.std.specs.Prelude.{◌≡◌, IfOk};
ghost use Rattle.hg_defs.specs.Hypergraph.{vertex_count};

use hg_base::{Blocks, FlatHyper, MapStack, NoMemory, greedy};
use incidence::Hypergraph;
use initial_place::PlaceEnd;
use level_stack::LevelStack;
use pin_plain::Partition;
use refiner::{Log, Refiner, Tally, Task};
use round_log::{Chosen, Kind, RoundList, Stop, Trace};
use std::alloc::Global;
use std::process::Abort;
use std::sync::Arc;
use std::sync::atomic::AtomicU64;
use std::sync::atomic::Ordering::SeqCst;
use std::test::Fail;
use std::thread::Threads;
use uncoarsen::{descend, settle_best, uncoarsen};

/// Four vertices of these weights and one net that holds the first two.
fn weighted(
    alloc: Global,
    first: u32,
    second: u32,
    third: u32,
    fourth: u32,
) -> Result<Hypergraph, NoMemory> {
    let mut h = FlatHyper::start(alloc, 4)?;
    h.set_vertex_weight(0, u64::from(first));
    h.set_vertex_weight(1, u64::from(second));
    h.set_vertex_weight(2, u64::from(third));
    h.set_vertex_weight(3, u64::from(fourth));
    h.push_net(5, &[0, 1])?;
    Hypergraph::build(alloc, h)
}

#[test]
fn begins_where_one_fits(rt: HostRuntime) -> Result<(), Fail> {
    // Three vertices of weight 4 don't fit two blocks of 6. Of 2, 2, 3, 3 in two blocks of 5 the net
    // is cut whatever fits.
    for (second, third, fourth, limit, found) in [
        (4, 4, 0, 6, None),
        (2, 3, 3, 5, Some((0, true))),
        (2, 3, 3, 6, Some((0, false))),
    ] {
        let h = weighted(rt.alloc(), second, second, third, fourth)?;
        assert!(rt; h.suits(2));
        assert!(rt; h.fixed_within(2));
        let stack = LevelStack::start(rt.alloc(), h)?;
        match descend(&rt, rt.alloc(), &stack, 2, limit, 1, 2) {
            Ok(start) => {
                let blocks = start.blocks.slice();
                let cut = blocks.first() != blocks.get(1);
                assert_eq!(rt; Some((start.level, cut)), found);
            }
            Err(end) => {
                assert_eq!(rt; (end, found), (PlaceEnd::NoneFits, None));
            }
        }
    }
    Ok(())
}

/// Four vertices and nets of weights 1, 3, 1 between them, in a row or across.
fn four(alloc: Global, across: bool) -> Result<Hypergraph, NoMemory>
    ensures { IfOk result (λ h. vertex_count h ≡ 4) }
{
    let mut flat = FlatHyper::start(alloc, 4)?;
    if across {
        flat.push_net(1, &[0, 2])?;
        flat.push_net(1, &[1, 3])?;
    } else {
        flat.push_net(1, &[0, 1])?;
        flat.push_net(3, &[1, 2])?;
        flat.push_net(1, &[2, 3])?;
    }
    Hypergraph::build(alloc, flat)
}

/// Ends a descent to these blocks, and looks at the end.
fn ends<R: Abort + Threads + Sync>(
    rt: &R,
    alloc: Global,
    h: &Hypergraph,
    limit: u64,
    blocks: &[u32],
    chosen: Chosen,
    rounds: usize,
    end: &[u32],
) -> Result<(), Fail> {
    assert_eq!(rt; blocks.len(), h.vertices() as usize);
    assert!(rt; blocks.iter().all(|b| *b < 2));
    assert!(rt; h.suits(2));
    assert!(rt; h.fixed_within(2));
    let mut trace = Trace {
        maps: MapStack::new(alloc),
        stop: Stop::Small,
        start: 0,
        first: Blocks::from_vec(blocks.to_vec(alloc)?),
        rounds: RoundList::new(alloc),
        last: Blocks::from_vec(blocks.to_vec(alloc)?),
        chosen: Chosen::Levels,
    };
    let placed = greedy(alloc, h.flat(), 2, limit).expect(rt, "it fits");
    let part = Partition::of(alloc, h, 2, limit, Blocks::from_vec(blocks.to_vec(alloc)?))?;
    assert!(rt; part.fits());
    let settled = settle_best(rt, alloc, h, part, placed, 2, &mut trace)?;
    assert_eq!(rt; settled.blocks(), end);
    assert_eq!(rt; (trace.chosen, trace.rounds.len()), (chosen, rounds));
    Ok(())
}

#[test]
fn ends_with_the_cheaper(rt: HostRuntime) -> Result<(), Fail> {
    // The greedy blocks are 0 1 0 1. At a tie they aren't taken.
    let alloc = rt.alloc();
    let across = four(alloc, true)?;
    ends(
        &rt,
        alloc,
        &across,
        2,
        &[0, 0, 1, 1],
        Chosen::Greedy,
        0,
        &[0, 1, 0, 1],
    )?;
    ends(
        &rt,
        alloc,
        &across,
        2,
        &[1, 0, 1, 0],
        Chosen::Levels,
        0,
        &[1, 0, 1, 0],
    )?;
    let row = four(alloc, false)?;
    ends(
        &rt,
        alloc,
        &row,
        3,
        &[0, 1, 0, 1],
        Chosen::Levels,
        1,
        &[1, 0, 0, 0],
    )?;
    Ok(())
}

/// Label propagation of settled partitions alone, which makes no round. It counts its calls.
#[derive(Drop)]
struct Rests {
    calls: Arc<AtomicU64, Global>,
}

impl Refiner for Rests {
    ghost use Rattle.round_log.specs.declared.record.Kind.TheVariants.{Label};
    ghost use Rattle.refiner.specs.declared.pass.Tally.{Tally};

    ghost may_run = { λ _. Unit {0} };

    ghost kind = { λ _. Label };

    ghost tally = { λ _. let none : Tally = record { rounds = 0; gain = 0 } in none };

    fn kind(&self) -> Kind {
        Kind::Label
    }

    fn tally(&self) -> Tally {
        Tally { rounds: 0, gain: 0 }
    }

    fn refine(
        &mut self,
        _alloc: Global,
        h: &Hypergraph,
        _task: &Task,
        p: Partition,
        _log: &mut Log,
    ) -> Result<Partition, NoMemory> {
        self.calls.fetch_add(1, SeqCst);
        if p.settled(h) { Ok(p) } else { Err(NoMemory) }
    }
}

#[test]
fn calls_the_box_on_the_level(rt: HostRuntime) -> Result<(), Fail> {
    let alloc = rt.alloc();
    let calls = Arc::new(alloc, AtomicU64::new(0))?;
    let across = four(alloc, true)?;
    assert!(rt; across.suits(2));
    assert!(rt; across.fixed_within(2));
    let stack = LevelStack::start(alloc, across)?;
    let Ok(start) = descend(&rt, alloc, &stack, 2, 2, 1, 3) else {
        return Err(NoMemory.into());
    };
    let mut refiners: [Box<dyn Refiner>; 1] = [Box::new(
        alloc,
        Rests {
            calls: Arc::try_clone(&calls)?,
        },
    )?];
    let (file, part, trace) = uncoarsen(
        &rt,
        alloc,
        stack,
        Stop::Small,
        start,
        2,
        2,
        3,
        1,
        &mut refiners,
    )?;
    assert_eq!(rt; calls.load(SeqCst), 1);
    assert_eq!(rt; part.cost(&file), 0);
    assert_eq!(rt;
        (trace.maps.len(), trace.start, trace.rounds.len()),
        (0, 0, 0)
    );
    assert_eq!(rt;
        (trace.first.slice(), trace.last.slice()),
        (part.blocks(), part.blocks())
    );
    assert_eq!(rt; trace.chosen, Chosen::Levels);
    Ok(())
}
