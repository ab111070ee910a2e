ghost use Rattle.std.specs.Prelude.{◌≡◌, IfOk};
ghost use Rattle.hg_defs.specs.Partition.{Fits};

use crew::{Gate, OpenGate};
use fm_search::{FmSearch, search_pass};
use hg_base::{Blocks, FlatHyper, NoMemory};
use incidence::Hypergraph;
use pin_plain::Partition;
use refiner::{Log, Refiner, Tally, Task};
use round_log::Kind;
use std::alloc::Global;
use std::process::Abort;
use std::sync::atomic::AtomicBool;
use std::sync::atomic::Ordering::SeqCst;
use std::test::Fail;

/// Six vertices in a row, with a net between neighbours.
fn path(alloc: Global) -> Result<Hypergraph, NoMemory> {
    let mut flat = FlatHyper::start(alloc, 6)?;
    flat.push_net(1, &[0, 1])?;
    flat.push_net(1, &[1, 2])?;
    flat.push_net(1, &[2, 3])?;
    flat.push_net(1, &[3, 4])?;
    flat.push_net(1, &[4, 5])?;
    Hypergraph::build(alloc, flat)
}

/// Sixteen vertices, each with one other on a net.
fn pairs(alloc: Global) -> Result<Hypergraph, NoMemory> {
    let mut flat = FlatHyper::start(alloc, 16)?;
    flat.push_net(1, &[0, 1])?;
    flat.push_net(1, &[2, 3])?;
    flat.push_net(1, &[4, 5])?;
    flat.push_net(1, &[6, 7])?;
    flat.push_net(1, &[8, 9])?;
    flat.push_net(1, &[10, 11])?;
    flat.push_net(1, &[12, 13])?;
    flat.push_net(1, &[14, 15])?;
    Hypergraph::build(alloc, flat)
}

/// The partition of these blocks into two.
fn parted(
    rt: &impl Abort,
    alloc: Global,
    h: &Hypergraph,
    limit: u64,
    blocks: &[u32],
) -> Result<Partition, Fail>
    ensures belongs { IfOk result (λ p. p.hyper ≡ h.now) }
    ensures fits { IfOk result (λ p. Fits h.now p.k p.limit p.blocks) }
{
    assert_eq!(rt; blocks.len(), h.vertices() as usize);
    assert!(rt; blocks.iter().all(|b| *b < 2));
    assert!(rt; h.suits(2));
    assert!(rt; h.fixed_within(2));
    let blocks = Blocks::from_vec(blocks.to_vec(alloc)?);
    let p = Partition::of(alloc, h, 2, limit, blocks)?;
    assert!(rt; p.fits());
    Ok(p)
}

#[test]
fn leaves_local_optimum(rt: HostRuntime) -> Result<(), Fail> {
    let alloc = rt.alloc();
    let h = path(alloc)?;
    for seed in 0..8 {
        for workers in [1, 3] {
            assert!(rt; 1 <= workers && workers <= 64);
            let p = parted(&rt, alloc, &h, 4, &[0, 0, 1, 1, 0, 0])?;
            assert!(rt; p.cost(&h) == 2 && p.settled(&h));
            let task = Task {
                level: 2,
                workers,
                seed,
            };
            let mut refiner = FmSearch::new(rt, OpenGate);
            let mut log = Log::new(alloc);
            let q = refiner.refine(alloc, &h, &task, p, &mut log)?;
            assert_eq!(rt; refiner.kind(), Kind::Search);
            let tally = refiner.tally();
            assert_eq!(rt; tally.rounds, log.rounds().len() as u64);
            assert!(rt;
                log.rounds()
                    .iter()
                    .all(|round| round.kind == Kind::Search && round.level == 2)
            );
            if workers == 1 {
                assert_eq!(rt; q.cost(&h), 1);
                assert_eq!(rt; tally.gain, 1);
            }
        }
    }
    Ok(())
}

/// In its first call of the gate each of two workers tells that it is there, and looks for the other.
#[derive(Drop)]
struct Meeting {
    here: [AtomicBool; 2],
    met: [AtomicBool; 2],
}

impl Gate for Meeting {
    fn pass(&self, worker: u32, turn: u64) {
        if turn > 0 || worker > 1 {
            return;
        }
        let me = worker as usize;
        self.here[me].store(true, SeqCst);
        for _ in 0..100_000_000 {
            if self.here[1 - me].load(SeqCst) {
                self.met[me].store(true, SeqCst);
                return;
            }
        }
    }
}

#[test]
fn workers_meet(rt: HostRuntime) -> Result<(), Fail> {
    let alloc = rt.alloc();
    let gate = Meeting {
        here: [AtomicBool::new(false), AtomicBool::new(false)],
        met: [AtomicBool::new(false), AtomicBool::new(false)],
    };
    let h = pairs(alloc)?;
    let blocks = [0, 1, 0, 1, 0, 1, 0, 1, 0, 1, 0, 1, 0, 1, 0, 1];
    let p = parted(&rt, alloc, &h, 16, &blocks)?;
    let task = Task {
        level: 0,
        workers: 2,
        seed: 1,
    };
    let mut tally = Tally { rounds: 0, gain: 0 };
    let mut log = Log::new(alloc);
    let q = search_pass(&rt, &gate, &mut tally, alloc, &h, &task, p, &mut log)?;
    assert!(rt; gate.met[0].load(SeqCst) && gate.met[1].load(SeqCst));
    assert!(rt; q.cost(&h) < 8);
    Ok(())
}
