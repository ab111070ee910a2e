ghost use Rattle.std.specs.Prelude.{◌≡◌, IfOk};
ghost use Rattle.hg_defs.specs.Partition.{Fits};

use crew::{Gate, OpenGate};
use flow_round::{FlowRound, wave_pass};
use hg_base::{Blocks, FlatHyper, NoMemory, Objective};
use incidence::Hypergraph;
use pin_plain::Partition;
use refiner::{Log, Refiner, Tally, Task};
use std::alloc::Global;
use std::process::Abort;
use std::sync::atomic::AtomicBool;
use std::sync::atomic::Ordering::SeqCst;
use std::test::Fail;

/// Two vertices and the net of both.
fn one_net(alloc: Global) -> Result<Hypergraph, NoMemory> {
    let mut flat = FlatHyper::start(alloc, 2)?;
    flat.push_net(1, &[0, 1])?;
    Hypergraph::build(alloc, flat)
}

/// Four vertices in a row, with nets of weights 1, 5 and 1 between neighbours.
fn row_of_four(alloc: Global) -> Result<Hypergraph, NoMemory> {
    let mut flat = FlatHyper::start(alloc, 4)?;
    flat.push_net(1, &[0, 1])?;
    flat.push_net(5, &[1, 2])?;
    flat.push_net(1, &[2, 3])?;
    Hypergraph::build(alloc, flat)
}

/// Three vertices with nets of weights 5 and 1, the second one without the last vertex.
fn three_vertices(alloc: Global, objective: Objective) -> Result<Hypergraph, NoMemory> {
    let mut flat = FlatHyper::start(alloc, 3)?;
    flat.push_net(5, &[0, 1, 2])?;
    flat.push_net(1, &[0, 1])?;
    flat.set_objective(objective);
    Hypergraph::build(alloc, flat)
}

/// Seven vertices with four nets, each vertex fixed to a block.
fn seven_fixed(alloc: Global) -> Result<Hypergraph, NoMemory> {
    let mut flat = FlatHyper::start(alloc, 7)?;
    flat.push_net(2, &[0, 1])?;
    flat.push_net(3, &[0, 6, 4, 5])?;
    flat.push_net(8, &[4, 5, 3])?;
    flat.push_net(7, &[1, 2, 3])?;
    flat.set_fix(0, 0);
    flat.set_fix(1, 0);
    flat.set_fix(2, 0);
    flat.set_fix(3, 1);
    flat.set_fix(4, 1);
    flat.set_fix(5, 1);
    flat.set_fix(6, 0);
    Hypergraph::build(alloc, flat)
}

/// Two rows of four vertices, with nets of weights 1, 5 and 1 between neighbours.
fn two_rows(alloc: Global, objective: Objective) -> Result<Hypergraph, NoMemory> {
    let mut flat = FlatHyper::start(alloc, 8)?;
    flat.push_net(1, &[0, 1])?;
    flat.push_net(5, &[1, 2])?;
    flat.push_net(1, &[2, 3])?;
    flat.push_net(1, &[4, 5])?;
    flat.push_net(5, &[5, 6])?;
    flat.push_net(1, &[6, 7])?;
    flat.set_objective(objective);
    Hypergraph::build(alloc, flat)
}

/// The rows in the blocks 0 and 3, and 1 and 2.
const ROWS: [u32; 8] = [0, 0, 3, 3, 1, 1, 2, 2];

/// The partition of these blocks.
fn parted(
    rt: &impl Abort,
    alloc: Global,
    h: &Hypergraph,
    k: u32,
    limit: u64,
    blocks: &[u32],
) -> Result<Partition, Fail>
    ensures belongs { IfOk result (λ p. p.hyper ≡ h.now) }
    ensures fits { IfOk result (λ p. Fits h.now p.k p.limit p.blocks) }
{
    assert!(rt; 2 <= k && k <= 256);
    assert_eq!(rt; blocks.len(), h.vertices() as usize);
    assert!(rt; blocks.iter().all(|b| *b < k));
    assert!(rt; h.suits(k));
    assert!(rt; h.fixed_within(k));
    let p = Partition::of(alloc, h, k, limit, Blocks::from_vec(blocks.to_vec(alloc)?))?;
    assert!(rt; p.fits());
    Ok(p)
}

/// What a pass by two workers is asked to do.
const TASK: Task = Task {
    level: 1,
    workers: 2,
    seed: 1,
};

/// What is expected of a round: its pair, its value, the costs before and after it, and its region.
type Expected<'a> = ([u64; 5], &'a [u32]);

/// Compares the first rounds of a pass with what is expected.
fn compare(rt: &impl Abort, log: &Log, tally: Tally, wanted: &[Expected<'_>], gain: u64) {
    assert_eq!(rt;
        (tally.rounds, tally.gain),
        (log.rounds().len() as u64, gain)
    );
    assert!(rt; log.rounds().len() >= wanted.len());
    for (round, (numbers, region)) in log.rounds().iter().zip(wanted) {
        let pair = [u64::from(round.first), u64::from(round.second)];
        assert_eq!(rt;
            [pair[0], pair[1], round.value, round.before, round.after],
            *numbers
        );
        assert_eq!(rt;
            (round.region.slice(), round.level, round.tabled),
            (*region, 1, false)
        );
    }
}

#[test]
fn passes(rt: HostRuntime) -> Result<(), Fail> {
    let alloc = rt.alloc();
    let one = one_net(alloc)?;
    let seven = seven_fixed(alloc)?;
    let four = row_of_four(alloc)?;
    let rows: [(&Hypergraph, u32, u64, &[u32], Expected<'_>, u64); 3] = [
        (&one, 4, 1, &[0, 1], ([0, 1, 1, 1, 1], &[]), 0),
        (
            &seven,
            2,
            4,
            &[0, 0, 0, 1, 1, 1, 0],
            ([0, 1, 10, 10, 10], &[]),
            0,
        ),
        (&four, 2, 3, &[0, 0, 1, 1], ([0, 1, 1, 5, 1], &[1, 2]), 4),
    ];
    for (h, k, limit, blocks, wanted, gain) in rows {
        let mut log = Log::new(alloc);
        let mut refiner = FlowRound::new(rt, OpenGate);
        let p = parted(&rt, alloc, h, k, limit, blocks)?;
        refiner.refine(alloc, h, &TASK, p, &mut log)?;
        compare(&rt, &log, refiner.tally(), &[wanted], gain);
        assert_eq!(rt; log.rounds().len(), 1);
    }
    Ok(())
}

#[test]
fn objectives(rt: HostRuntime) -> Result<(), Fail> {
    let alloc = rt.alloc();
    for (objective, three, first, second, gains) in [
        (
            Objective::Connectivity,
            [0, 1, 0, 11, 5],
            [0, 3, 1, 10, 6],
            [1, 2, 1, 6, 2],
            (6, 8),
        ),
        (
            Objective::CutNet,
            [0, 1, 0, 6, 5],
            [0, 3, 1, 10, 6],
            [1, 2, 1, 6, 2],
            (1, 8),
        ),
        (
            Objective::ExternalDegree,
            [0, 1, 0, 17, 10],
            [0, 3, 2, 20, 12],
            [1, 2, 2, 12, 4],
            (7, 16),
        ),
    ] {
        let h = three_vertices(alloc, objective)?;
        let mut log = Log::new(alloc);
        let mut refiner = FlowRound::new(rt, OpenGate);
        let p = parted(&rt, alloc, &h, 3, 2, &[0, 1, 2])?;
        refiner.refine(alloc, &h, &TASK, p, &mut log)?;
        compare(&rt, &log, refiner.tally(), &[(three, &[0, 1])], gains.0);
        let h = two_rows(alloc, objective)?;
        let mut log = Log::new(alloc);
        let mut refiner = FlowRound::new(rt, OpenGate);
        let p = parted(&rt, alloc, &h, 4, 3, &ROWS)?;
        refiner.refine(alloc, &h, &TASK, p, &mut log)?;
        let wanted: [Expected<'_>; 2] = [(first, &[1, 2]), (second, &[5, 6])];
        compare(&rt, &log, refiner.tally(), &wanted, gains.1);
        assert_eq!(rt; log.rounds().len(), 2);
    }
    Ok(())
}

/// In its first call of the gate each of two workers tells that it is there, and looks for the other.
#[derive(Drop)]
struct Meeting {
    here: [AtomicBool; 2],
    met: [AtomicBool; 2],
}

impl Gate for Meeting {
    fn pass(&self, worker: u32, turn: u64) {
        if turn > 0 || worker > 1 {
            return;
        }
        let me = worker as usize;
        self.here[me].store(true, SeqCst);
        for _ in 0..10_000_000_000u64 {
            if self.here[1 - me].load(SeqCst) {
                self.met[me].store(true, SeqCst);
                return;
            }
        }
    }
}

#[test]
fn workers_meet(rt: HostRuntime) -> Result<(), Fail> {
    let alloc = rt.alloc();
    let gate = Meeting {
        here: [AtomicBool::new(false), AtomicBool::new(false)],
        met: [AtomicBool::new(false), AtomicBool::new(false)],
    };
    let h = two_rows(alloc, Objective::ExternalDegree)?;
    let mut log = Log::new(alloc);
    let mut tally = Tally { rounds: 0, gain: 0 };
    wave_pass(
        &rt,
        &gate,
        &mut tally,
        alloc,
        &h,
        &TASK,
        parted(&rt, alloc, &h, 4, 3, &ROWS)?,
        &mut log,
    )?;
    assert_eq!(rt; (tally.rounds, tally.gain), (2, 16));
    assert!(rt; gate.met[0].load(SeqCst) && gate.met[1].load(SeqCst));
    Ok(())
}
