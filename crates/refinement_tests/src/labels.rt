ghost use Rattle.std.specs.Prelude.{◌≡◌, ◌≤◌, IfOk};
ghost use Rattle.hg_defs.specs.Hypergraph.{vertex_count};
ghost use Rattle.hg_defs.specs.Partition.{Fits};

use crew::{Gate, OpenGate};
use hg_base::{Blocks, FlatHyper, NoMemory};
use incidence::Hypergraph;
use label_prop::{LabelProp, label_pass};
use pin_plain::Partition;
use refiner::{Log, Refiner, Tally, Task};
use round_log::Kind;
use std::alloc::Global;
use std::process::Abort;
use std::sync::atomic::AtomicBool;
use std::sync::atomic::Ordering::SeqCst;
use std::test::Fail;

/// Vertices in a row, with a net between neighbours.
fn path(alloc: Global, vertices: u32) -> Result<Hypergraph, NoMemory>
    requires { vertices ≤ 1000 }
    ensures { IfOk result (λ h. vertex_count h ≡ vertices) }
{
    let mut flat = FlatHyper::start(alloc, vertices)?;
    for v in 1..vertices {
        flat.push_net(1, &[v - 1, v])?;
    }
    Hypergraph::build(alloc, flat)
}

/// The partition of these blocks into `k`, which fits.
fn parted(
    rt: &impl Abort,
    alloc: Global,
    h: &Hypergraph,
    k: u32,
    limit: u64,
    blocks: &[u32],
) -> Result<Partition, Fail>
    ensures belongs { IfOk result (λ p. p.hyper ≡ h.now) }
    ensures fits { IfOk result (λ p. Fits h.now p.k p.limit p.blocks) }
{
    assert!(rt; k >= 2 && k <= 256);
    assert_eq!(rt; blocks.len(), h.vertices() as usize);
    assert!(rt; blocks.iter().all(|b| *b < k));
    assert!(rt; h.suits(k));
    assert!(rt; h.fixed_within(k));
    let blocks = Blocks::from_vec(blocks.to_vec(alloc)?);
    let p = Partition::of(alloc, h, k, limit, blocks)?;
    assert!(rt; p.fits());
    Ok(p)
}

#[test]
fn ends_at_cheapest(rt: HostRuntime) -> Result<(), Fail> {
    let alloc = rt.alloc();
    let h = path(alloc, 6)?;
    let p = parted(&rt, alloc, &h, 2, 4, &[0, 1, 0, 1, 0, 1])?;
    assert_eq!(rt; p.cost(&h), 5);
    let task = Task {
        level: 3,
        workers: 1,
        seed: 1,
    };
    let mut log = Log::new(alloc);
    let mut label = LabelProp::new(rt, OpenGate);
    let q = label.refine(alloc, &h, &task, p, &mut log)?;
    assert_eq!(rt; q.cost(&h), 1);
    assert_eq!(rt; label.kind(), Kind::Label);
    assert_eq!(rt; label.tally().gain, 4);
    assert_eq!(rt; label.tally().rounds, log.rounds().len() as u64);
    let Some(first) = log.rounds().first() else {
        return Err(Fail::new("no round"));
    };
    assert!(rt; !first.moves.is_empty());
    assert_eq!(rt; (first.level, first.tabled), (3, true));
    Ok(())
}

/// In its first call of the gate each of two workers tells that it is there, and looks for the other.
#[derive(Drop)]
struct Meeting {
    here: [AtomicBool; 2],
    met: [AtomicBool; 2],
}

impl Gate for Meeting {
    fn pass(&self, worker: u32, turn: u64) {
        if turn > 0 || worker > 1 {
            return;
        }
        let me = worker as usize;
        if self.here[me].swap(true, SeqCst) {
            return;
        }
        for _ in 0..100_000_000 {
            if self.here[1 - me].load(SeqCst) {
                self.met[me].store(true, SeqCst);
                return;
            }
        }
    }
}

#[test]
fn workers_meet(rt: HostRuntime) -> Result<(), Fail> {
    let alloc = rt.alloc();
    let gate = Meeting {
        here: [AtomicBool::new(false), AtomicBool::new(false)],
        met: [AtomicBool::new(false), AtomicBool::new(false)],
    };
    let h = path(alloc, 6)?;
    let p = parted(&rt, alloc, &h, 2, 4, &[0, 1, 0, 1, 0, 1])?;
    let task = Task {
        level: 0,
        workers: 2,
        seed: 1,
    };
    let mut tally = Tally { rounds: 0, gain: 0 };
    let mut log = Log::new(alloc);
    label_pass(&rt, &gate, &mut tally, alloc, &h, &task, p, &mut log)?;
    assert!(rt; gate.met[0].load(SeqCst) && gate.met[1].load(SeqCst));
    let Some(first) = log.rounds().first() else {
        return Err(Fail::new("no round"));
    };
    for (worker, vertex) in [(0, 0), (1, 3)] {
        assert!(rt;
            first
                .moves
                .slice()
                .iter()
                .any(|m| m.worker == worker && m.vertex == vertex)
        );
    }
    Ok(())
}

#[test]
fn many_workers(rt: HostRuntime) -> Result<(), Fail> {
    let alloc = rt.alloc();
    let task = Task {
        level: 0,
        workers: 8,
        seed: 1,
    };
    for (vertices, k, limit) in [(6, 2, 4), (12, 3, 5), (50, 2, 26), (64, 32, 3), (90, 5, 20)] {
        let h = path(alloc, vertices)?;
        let blocks: Vec<u32> = (0..vertices).map(|v| v % k).collect(alloc)?;
        let p = parted(&rt, alloc, &h, k, limit, blocks.as_slice())?;
        let before = p.cost(&h);
        let mut tally = Tally { rounds: 0, gain: 0 };
        let mut log = Log::new(alloc);
        let q = label_pass(&rt, &OpenGate, &mut tally, alloc, &h, &task, p, &mut log)?;
        let lowered = log.rounds().iter().filter(|r| r.after < r.before).count();
        assert!(rt; q.settled(&h) || lowered == 8);
        assert!(rt; q.fits());
        assert_eq!(rt; before.saturating_sub(q.cost(&h)), tally.gain);
        assert_eq!(rt; tally.rounds, log.rounds().len() as u64);
    }
    Ok(())
}
