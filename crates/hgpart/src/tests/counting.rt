//! Runs whose refiners are counted from outside.

ghost use Rattle.std.specs.Prelude.{◌≡◌, ◌≢◌, ◌<◌, ◌^◌, All, AllPairs, IfOk, map};

use super::{EMPTY, FIRST, PAIR, run_over};
use crew::OpenGate;
use flow_round::FlowRound;
use fm_search::FmSearch;
use hg_defs::NoMemory;
use incidence::Hypergraph;
use label_prop::LabelProp;
use part_run::Outcome;
use pin_plain::Partition;
use refiner::{Log, Refiner, Tally, Task};
use round_log::{Kind, LoggedRound, Trace};
use std::alloc::{AllocError, Global};
use std::marker::Model;
use std::sync::Arc;
use std::sync::atomic::AtomicU64;
use std::sync::atomic::Ordering::SeqCst;
use std::test::Fail;
use std::thread::Threads;

/// What was seen of a refiner: how often it was called and dropped, and the rounds that it logged, their moves,
/// those of them that are marked as raced, and what they saved.
#[derive(Drop)]
struct Seen {
    calls: AtomicU64,
    drops: AtomicU64,
    rounds: AtomicU64,
    moves: AtomicU64,
    marked: AtomicU64,
    saved: AtomicU64,
}

impl Seen {
    /// Nothing was seen yet.
    fn nothing() -> Self {
        Seen {
            calls: AtomicU64::new(0),
            drops: AtomicU64::new(0),
            rounds: AtomicU64::new(0),
            moves: AtomicU64::new(0),
            marked: AtomicU64::new(0),
            saved: AtomicU64::new(0),
        }
    }

    /// Counts a round.
    fn count(&self, round: &LoggedRound) {
        self.rounds.fetch_add(1, SeqCst);
        self.moves.fetch_add(round.moves.len() as u64, SeqCst);
        self.marked.fetch_add(u64::from(round.tabled), SeqCst);
        self.saved
            .fetch_add(round.before.wrapping_sub(round.after), SeqCst);
    }

    /// Counts what a refiner of this kind has to do in a descent: a call on each level, and its rounds.
    fn count_descent(&self, kind: Kind, trace: &Trace) {
        self.calls.fetch_add(u64::from(trace.start) + 1, SeqCst);
        for round in trace.rounds.slice() {
            if round.kind == kind {
                self.count(round);
            }
        }
    }

    /// The counts of all but the drops.
    fn counts(&self) -> [u64; 5] {
        [
            self.calls.load(SeqCst),
            self.rounds.load(SeqCst),
            self.moves.load(SeqCst),
            self.marked.load(SeqCst),
            self.saved.load(SeqCst),
        ]
    }
}

/// What a box tells of itself. Its drop is counted.
struct Witness(Arc<Seen>);

impl Witness {
    /// Counts a call, and the rounds that it logged behind the first ones.
    fn count_call(&self, log: &Log, first: usize) {
        self.0.calls.fetch_add(1, SeqCst);
        for round in log.rounds().iter().skip(first) {
            self.0.count(round);
        }
    }
}

impl Drop for Witness {
    fn drop(self) {
        self.0.drops.fetch_add(1, SeqCst);
        let Witness(_) = self;
    }
}

/// Label propagation that is counted. It is seen as its tally.
#[derive(Drop)]
struct CountedLabel<H: Threads + Sync + Drop> {
    inner: LabelProp<H, OpenGate>,
    witness: Witness,
}

impl<H: Threads + Sync + Drop> Model for CountedLabel<H> {
    ghost use Rattle.refiner.specs.declared.pass.Tally.{Tally};

    ghost Value = { Tally };

    ghost view = { λ c. c.inner };
}

impl<H: Threads + Sync + Drop> CountedLabel<H> {
    /// Makes a refiner that has done nothing.
    fn boxed(alloc: Global, rt: H, seen: &Arc<Seen>) -> Result<Box<Self>, AllocError>
        ensures { IfOk result (λ refiner. refiner.value ≡ record { rounds = 0; gain = 0 }) }
    {
        let refiner = CountedLabel {
            inner: LabelProp::new(rt, OpenGate),
            witness: Witness(seen.clone()?),
        };
        Ok(Box::new(alloc, refiner)?)
    }
}

impl<H: Threads + Sync + Drop> Refiner for CountedLabel<H> {
    ghost use Rattle.std.specs.Thread.{IsSync};
    ghost use Rattle.round_log.specs.declared.record.Kind.TheVariants.{Label};

    ghost may_run = { λ _. IsSync H.row };

    ghost kind = { λ _. Label };

    ghost tally = { λ t. t };

    fn kind(&self) -> Kind {
        Kind::Label
    }

    fn tally(&self) -> Tally {
        self.inner.tally()
    }

    fn refine(
        &mut self,
        alloc: Global,
        h: &Hypergraph,
        task: &Task,
        p: Partition,
        log: &mut Log,
    ) -> Result<Partition, NoMemory> {
        let first = log.rounds().len();
        let answer = self.inner.refine(alloc, h, task, p, log);
        self.witness.count_call(log, first);
        answer
    }
}

/// Localized searches that are counted. They are seen as their tally.
#[derive(Drop)]
struct CountedSearch<H: Threads + Sync + Drop> {
    inner: FmSearch<H, OpenGate>,
    witness: Witness,
}

impl<H: Threads + Sync + Drop> Model for CountedSearch<H> {
    ghost use Rattle.refiner.specs.declared.pass.Tally.{Tally};

    ghost Value = { Tally };

    ghost view = { λ c. c.inner };
}

impl<H: Threads + Sync + Drop> CountedSearch<H> {
    /// Makes a refiner that has done nothing.
    fn boxed(alloc: Global, rt: H, seen: &Arc<Seen>) -> Result<Box<Self>, AllocError>
        ensures { IfOk result (λ refiner. refiner.value ≡ record { rounds = 0; gain = 0 }) }
    {
        let refiner = CountedSearch {
            inner: FmSearch::new(rt, OpenGate),
            witness: Witness(seen.clone()?),
        };
        Ok(Box::new(alloc, refiner)?)
    }
}

impl<H: Threads + Sync + Drop> Refiner for CountedSearch<H> {
    ghost use Rattle.std.specs.Thread.{IsSync};
    ghost use Rattle.round_log.specs.declared.record.Kind.TheVariants.{Search};

    ghost may_run = { λ _. IsSync H.row };

    ghost kind = { λ _. Search };

    ghost tally = { λ t. t };

    fn kind(&self) -> Kind {
        Kind::Search
    }

    fn tally(&self) -> Tally {
        self.inner.tally()
    }

    fn refine(
        &mut self,
        alloc: Global,
        h: &Hypergraph,
        task: &Task,
        p: Partition,
        log: &mut Log,
    ) -> Result<Partition, NoMemory> {
        let first = log.rounds().len();
        let answer = self.inner.refine(alloc, h, task, p, log);
        self.witness.count_call(log, first);
        answer
    }
}

/// Flows that are counted. They are seen as their tally.
#[derive(Drop)]
struct CountedFlow<H: Threads + Sync + Drop> {
    inner: FlowRound<H, OpenGate>,
    witness: Witness,
}

impl<H: Threads + Sync + Drop> Model for CountedFlow<H> {
    ghost use Rattle.refiner.specs.declared.pass.Tally.{Tally};

    ghost Value = { Tally };

    ghost view = { λ c. c.inner };
}

impl<H: Threads + Sync + Drop> CountedFlow<H> {
    /// Makes a refiner that has done nothing.
    fn boxed(alloc: Global, rt: H, seen: &Arc<Seen>) -> Result<Box<Self>, AllocError>
        ensures { IfOk result (λ refiner. refiner.value ≡ record { rounds = 0; gain = 0 }) }
    {
        let refiner = CountedFlow {
            inner: FlowRound::new(rt, OpenGate),
            witness: Witness(seen.clone()?),
        };
        Ok(Box::new(alloc, refiner)?)
    }
}

impl<H: Threads + Sync + Drop> Refiner for CountedFlow<H> {
    ghost use Rattle.std.specs.Thread.{IsSync};
    ghost use Rattle.round_log.specs.declared.record.Kind.TheVariants.{Flow};

    ghost may_run = { λ _. IsSync H.row };

    ghost kind = { λ _. Flow };

    ghost tally = { λ t. t };

    fn kind(&self) -> Kind {
        Kind::Flow
    }

    fn tally(&self) -> Tally {
        self.inner.tally()
    }

    fn refine(
        &mut self,
        alloc: Global,
        h: &Hypergraph,
        task: &Task,
        p: Partition,
        log: &mut Log,
    ) -> Result<Partition, NoMemory> {
        let first = log.rounds().len();
        let answer = self.inner.refine(alloc, h, task, p, log);
        self.witness.count_call(log, first);
        answer
    }
}

/// Words and a hypergraph file, or none for the one that is generated.
#[derive(Clone, Copy)]
struct Row<'a> {
    words: &'a str,
    graph: Option<&'a [u8]>,
}

const ROWS: &[Row<'static>] = &[
    Row {
        words: "partition g 2 0",
        graph: Some(EMPTY),
    },
    Row {
        words: "partition g 3 0 cycles=1 workers=8",
        graph: Some(EMPTY),
    },
    Row {
        words: "partition g 4 0 workers=1",
        graph: Some(PAIR),
    },
    Row {
        words: "partition g 4 0 cycles=1 workers=2",
        graph: Some(PAIR),
    },
    Row {
        words: "partition g 2 0 workers=1",
        graph: Some(FIRST),
    },
    Row {
        words: "partition g 2 0 cycles=1 workers=2 cost=cut",
        graph: Some(FIRST),
    },
    Row {
        words: "partition g 2 0 workers=8 cost=soed",
        graph: Some(FIRST),
    },
    Row {
        words: "partition g 2 0.03 workers=1",
        graph: None,
    },
    Row {
        words: "partition g 3 0.03 workers=2",
        graph: None,
    },
    Row {
        words: "partition g 2 0.03 workers=8",
        graph: None,
    },
    Row {
        words: "partition g 2 0.03 cycles=1 workers=1",
        graph: None,
    },
    Row {
        words: "partition g 3 0.1 cycles=2 workers=8 cost=cut",
        graph: None,
    },
    Row {
        words: "selfrun 300 2",
        graph: None,
    },
];

/// What was seen of three refiners that did nothing yet.
fn three_unseen(alloc: Global) -> Result<[Arc<Seen>; 3], AllocError> {
    Ok([
        Arc::new(alloc, Seen::nothing())?,
        Arc::new(alloc, Seen::nothing())?,
        Arc::new(alloc, Seen::nothing())?,
    ])
}

/// The file of a generated hypergraph of 300 vertices, which two and three blocks coarsen.
fn generated<H: Threads + Sync>(rt: &H, alloc: Global) -> Result<Vec<u8>, Fail> {
    let mut none: [Box<dyn Refiner>; 0] = [];
    let made = run_over(rt, alloc, "generate 300", b"", b"", &mut none)?;
    Ok(made.out)
}

/// Whether what was seen of a refiner of this kind, and what it tallied, is what the outcome tells.
fn agrees(outcome: &Outcome, kind: Kind, tally: Tally, seen: &Seen) -> bool {
    let wanted = Seen::nothing();
    wanted.count_descent(kind, &outcome.trace);
    for trace in outcome.cycles.slice() {
        wanted.count_descent(kind, trace);
    }
    let [_, rounds, _, _, saved] = seen.counts();
    seen.counts() == wanted.counts() && (tally.rounds, tally.gain) == (rounds, saved)
}

/// Whether a run is done, on several levels where its file is generated, and what was seen of each refiner is what
/// the outcome tells. None was dropped yet.
fn is_counted<H: Threads + Sync>(
    rt: &H,
    alloc: Global,
    row: &Row<'_>,
    made: &[u8],
    refiners: &mut [Box<dyn Refiner>],
    seen: &[Arc<Seen>],
) -> Result<bool, Fail>
    requires may_run { All (λ b. may_run b) refiners.old }
    requires kinds { AllPairs (λ a b. a ≢ b) (map (λ b. kind b) refiners.old) }
    requires tallied { All (λ b. ((tally b).rounds < 2 ^ 59) × ((tally b).gain < 2 ^ 59)) refiners.old }
{
    let graph = row.graph.unwrap_or(made);
    let ran = run_over(rt, alloc, row.words, graph, b"", refiners)?;
    let Some(outcome) = &ran.ended.outcome else {
        return Ok(false);
    };
    for (refiner, seen) in refiners.iter().zip(seen) {
        if !agrees(outcome, refiner.kind(), refiner.tally(), seen) {
            return Ok(false);
        }
    }
    Ok(are_dropped(seen, 0) && outcome.trace.maps.is_empty() == row.graph.is_some())
}

/// Whether each refiner was dropped so many times.
fn are_dropped(seen: &[Arc<Seen>], times: u64) -> bool {
    seen.iter().all(|seen| seen.drops.load(SeqCst) == times)
}

#[test]
fn counts_are_those_of_the_trace(rt: HostRuntime) -> Result<(), Fail> {
    let made = generated(&rt, rt.alloc())?;
    for row in ROWS {
        let seen = three_unseen(rt.alloc())?;
        {
            let mut refiners: [Box<dyn Refiner>; 3] = [
                CountedLabel::boxed(rt.alloc(), rt, &seen[0])?,
                CountedSearch::boxed(rt.alloc(), rt, &seen[1])?,
                CountedFlow::boxed(rt.alloc(), rt, &seen[2])?,
            ];
            assert!(rt;
                is_counted(&rt, rt.alloc(), row, made.as_slice(), &mut refiners, &seen)?,
                "{}",
                row.words
            );
        }
        assert!(rt; are_dropped(&seen, 1), "{}", row.words);
    }
    Ok(())
}
