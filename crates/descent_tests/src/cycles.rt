ghost use Rattle.std.specs.Prelude.{◌≡◌, ℕ, List, IfOk, IsTrue};
ghost use Rattle.hg_defs.specs.Hypergraph.{vertex_count};
ghost use Rattle.hg_defs.specs.Partition.{Obeys};
ghost use Rattle.round_log.specs.TraceLaws.{IsSound};

use crew::OpenGate;
use hg_base::{Blocks, FREE, FlatHyper, NoMemory};
use incidence::Hypergraph;
use pin_plain::Partition;
use refiner::{Log, Refiner, Tally, Task};
use round_log::Kind;
use std::alloc::Global;
use std::process::Abort;
use std::sync::Arc;
use std::sync::atomic::AtomicU64;
use std::sync::atomic::Ordering::SeqCst;
use std::test::Fail;
use vcycle::{cycle, cycles};

/// Thirty-three pairs of vertices, each with a net of its own.
fn pairs(alloc: Global) -> Result<Hypergraph, NoMemory>
    ensures { IfOk result (λ h. vertex_count h ≡ 66) }
{
    let mut flat = FlatHyper::start(alloc, 66)?;
    for i in 0..33 {
        flat.push_net(1, &[2 * i, 2 * i + 1])?;
    }
    Hypergraph::build(alloc, flat)
}

/// A block for each of them: pairs in block 0 and in block 1 by turns, and the last two vertices in
/// these blocks.
fn by_turns(alloc: Global, first: u32, second: u32) -> Result<Vec<u32>, NoMemory> {
    let mut blocks = Vec::with_capacity(alloc, 66)?;
    for v in 0..64u32 {
        blocks.push(v / 2 % 2)?;
    }
    blocks.push(first)?;
    blocks.push(second)?;
    Ok(blocks)
}

/// Whether every vertex is free. Then every partition obeys the fixes.
fn is_free(h: &Hypergraph) -> bool
    ensures { IsTrue result → (p : List ℕ) → Obeys h.now p }
{
    for v in 0..h.vertices() {
        if h.fix(v) != FREE {
            return false;
        }
    }
    true
}

/// The partition of free vertices into two blocks, which is within the limit.
fn parted(
    rt: &impl Abort,
    alloc: Global,
    h: &Hypergraph,
    limit: u64,
    blocks: &[u32],
) -> Result<Partition, Fail>
    ensures partition { IfOk result (λ p. p ≡ record { hyper = h.now; k = 2; limit = limit; blocks = p.blocks }) }
    ensures sound { IfOk result (λ p. IsSound h.now 2 limit p.blocks) }
{
    assert_eq!(rt; blocks.len(), h.vertices() as usize);
    assert!(rt; blocks.iter().all(|b| *b < 2));
    assert!(rt; is_free(h));
    assert!(rt; h.suits(2));
    assert!(rt; h.fixed_within(2));
    let p = Partition::of(alloc, h, 2, limit, Blocks::from_vec(blocks.to_vec(alloc)?))?;
    assert!(rt; p.fits());
    Ok(p)
}

#[test]
fn of_nothing(rt: HostRuntime) -> Result<(), Fail> {
    let alloc = rt.alloc();
    let h = Hypergraph::build(alloc, FlatHyper::start(alloc, 0)?)?;
    let p = parted(&rt, alloc, &h, 0, &[])?;
    let (h, q, trace) = cycle(&rt, alloc, h, p, 2, 0, 1, 1, &OpenGate, &mut [])?;
    assert_eq!(rt; (h.vertices(), q.blocks().len()), (0, 0));
    assert_eq!(rt;
        (trace.maps.len(), trace.start, trace.rounds.len()),
        (0, 0, 0)
    );
    Ok(())
}

#[test]
fn joins_the_last_pair(rt: HostRuntime) -> Result<(), Fail> {
    // The two vertices of each pair become one, but not the last two, which are in different blocks
    // until the first of them is swept into that of the second.
    let alloc = rt.alloc();
    for (count, end) in [(0, 0), (1, 1), (2, 1)] {
        let h = pairs(alloc)?;
        let p = parted(&rt, alloc, &h, 34, by_turns(alloc, 0, 1)?.as_slice())?;
        let (h, q, traces) = cycles(&rt, alloc, h, p, 2, 34, 2, 1, count, &OpenGate, &mut [])?;
        assert_eq!(rt; h.vertices(), 66);
        assert_eq!(rt; q.blocks(), by_turns(alloc, end, 1)?.as_slice());
        assert_eq!(rt; traces.len(), count as usize);
        for (i, trace) in traces.slice().iter().enumerate() {
            let (clusters, sweeps) = if i == 0 { (34, 1) } else { (33, 0) };
            assert_eq!(rt;
                (trace.start, trace.first.len(), trace.rounds.len()),
                (1, clusters, sweeps)
            );
        }
    }
    Ok(())
}

/// Label propagation of settled partitions alone, which makes no round. It writes down the last digits
/// of the seeds that it is given, call after call.
#[derive(Drop)]
struct Rests {
    seeds: Arc<AtomicU64, Global>,
}

impl Refiner for Rests {
    ghost use Rattle.round_log.specs.declared.record.Kind.TheVariants.{Label};
    ghost use Rattle.refiner.specs.declared.pass.Tally.{Tally};

    ghost may_run = { λ _. Unit {0} };

    ghost kind = { λ _. Label };

    ghost tally = { λ _. let none : Tally = record { rounds = 0; gain = 0 } in none };

    fn kind(&self) -> Kind {
        Kind::Label
    }

    fn tally(&self) -> Tally {
        Tally { rounds: 0, gain: 0 }
    }

    fn refine(
        &mut self,
        _alloc: Global,
        h: &Hypergraph,
        task: &Task,
        p: Partition,
        _log: &mut Log,
    ) -> Result<Partition, NoMemory> {
        let before = self.seeds.load(SeqCst);
        self.seeds.store(before.wrapping_mul(10).wrapping_add(task.seed % 10), SeqCst);
        if p.settled(h) { Ok(p) } else { Err(NoMemory) }
    }
}

#[test]
fn gives_each_cycle_a_seed_of_its_own(rt: HostRuntime) -> Result<(), Fail> {
    // Three cycles call the refiner on two levels each.
    let alloc = rt.alloc();
    let seeds = Arc::new(alloc, AtomicU64::new(0))?;
    let mut refiners: [Box<dyn Refiner>; 1] = [Box::new(
        alloc,
        Rests {
            seeds: Arc::try_clone(&seeds)?,
        },
    )?];
    let h = pairs(alloc)?;
    let p = parted(&rt, alloc, &h, 34, by_turns(alloc, 1, 1)?.as_slice())?;
    let (_h, q, traces) = cycles(&rt, alloc, h, p, 2, 34, 2, 6, 3, &OpenGate, &mut refiners)?;
    assert_eq!(rt; seeds.load(SeqCst), 778899);
    assert_eq!(rt; q.blocks(), by_turns(alloc, 1, 1)?.as_slice());
    for trace in traces.slice() {
        assert_eq!(rt; (trace.start, trace.rounds.len()), (1, 0));
    }
    Ok(())
}
