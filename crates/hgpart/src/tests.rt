//! Whole runs with the three refiners.

ghost use Rattle.std.specs.Prelude.{◌≡◌, ◌≢◌, ◌<◌, ◌^◌, All, AllPairs, map};

use crew::OpenGate;
use flow_round::FlowRound;
use fm_search::FmSearch;
use hg_io::{MemSink, MemSource};
use label_prop::LabelProp;
use part_run::{Ended, Status, run};
use refiner::Refiner;
use std::alloc::{AllocError, Global};
use std::test::Fail;
use std::thread::Threads;

mod counting;
mod drawn;

/// Seven vertices, four nets of weights 2, 3, 8 and 7.
const FIRST: &[u8] = b"4 7 1\n2 1 2\n3 1 7 5 6\n8 5 6 4\n7 2 3 4\n";

/// Two vertices in one net.
const PAIR: &[u8] = b"1 2\n1 2\n";

/// No vertex, and no net.
const EMPTY: &[u8] = b"0 0\n";

/// Words and a hypergraph, and the texts of the run.
#[derive(Clone, Copy)]
struct Row<'a> {
    words: &'a str,
    graph: &'a [u8],
    out: &'a [u8],
    report: &'a [u8],
}

const ROWS: &[Row<'static>] = &[
    Row {
        words: "partition g 2 0",
        graph: EMPTY,
        out: b"",
        report: b"vertices 0\nnets 0\nweight 0\nblocks 2\nlimit 0\nseed 1\nworkers 4\ngreedy 0\nlevels 1\nstart 0\n\
            first 0\nchosen levels\ncost 0\nload 0 0\nload 1 0\n",
    },
    Row {
        words: "partition g 4 0",
        graph: PAIR,
        out: b"0\n1\n",
        report: b"vertices 2\nnets 1\nweight 2\nblocks 4\nlimit 1\nseed 1\nworkers 4\ngreedy 1\nlevels 1\nstart 0\n\
            first 1\nround 0 flow 0 1 region 0 value 1 before 1 after 1\nchosen levels\ncost 1\nload 0 1\nload 1 1\n\
            load 2 0\nload 3 0\n",
    },
    Row {
        words: "partition g 4 0 cycles=1",
        graph: PAIR,
        out: b"0\n1\n",
        report: b"vertices 2\nnets 1\nweight 2\nblocks 4\nlimit 1\nseed 1\nworkers 4\ngreedy 1\nlevels 1\nstart 0\n\
            first 1\nround 0 flow 0 1 region 0 value 1 before 1 after 1\nchosen levels\n\
            cycle 1 levels 1 before 1 after 1\nround 0 flow 0 1 region 0 value 1 before 1 after 1\ncost 1\nload 0 1\n\
            load 1 1\nload 2 0\nload 3 0\n",
    },
];

/// The words, parted by blanks.
fn words_of(alloc: Global, text: &str) -> Result<Vec<String>, AllocError> {
    let mut words = Vec::new(alloc);
    for word in text.split_whitespace() {
        words.push(String::from_str(alloc, word)?)?;
    }
    Ok(words)
}

/// How a run ended, and what it wrote.
#[derive(Drop)]
struct Ran {
    ended: Ended,
    out: Vec<u8>,
    report: Vec<u8>,
}

/// Runs the words over a hypergraph file and a fix file in memory, with these refiners.
fn run_over<H: Threads + Sync>(
    rt: &H,
    alloc: Global,
    words: &str,
    graph: &[u8],
    extra: &[u8],
    refiners: &mut [Box<dyn Refiner>],
) -> Result<Ran, Fail>
    requires may_run { All (λ b. may_run b) refiners.old }
    requires kinds { AllPairs (λ a b. a ≢ b) (map (λ b. kind b) refiners.old) }
    requires tallied { All (λ b. ((tally b).rounds < 2 ^ 59) × ((tally b).gain < 2 ^ 59)) refiners.old }
{
    let words = words_of(alloc, words)?;
    let mut graph = MemSource::of(Vec::from_slice(alloc, graph)?, Vec::new(alloc), 4096);
    let mut extra = MemSource::of(Vec::from_slice(alloc, extra)?, Vec::new(alloc), 4096);
    let mut out = MemSink::of(alloc, 4096, Vec::new(alloc), 4096)?;
    let mut report = MemSink::of(alloc, 65_536, Vec::new(alloc), 4096)?;
    let ended = run(
        rt,
        alloc,
        words.as_slice(),
        &mut graph,
        &mut extra,
        &mut out,
        &mut report,
        refiners,
    );
    Ok(Ran {
        ended,
        out: Vec::from_slice(alloc, out.got())?,
        report: Vec::from_slice(alloc, report.got())?,
    })
}

/// Whether a run with these refiners is done, and writes the texts of its row.
fn writes<H: Threads + Sync>(
    rt: &H,
    alloc: Global,
    row: &Row<'_>,
    refiners: &mut [Box<dyn Refiner>],
) -> Result<bool, Fail>
    requires may_run { All (λ b. may_run b) refiners.old }
    requires kinds { AllPairs (λ a b. a ≢ b) (map (λ b. kind b) refiners.old) }
    requires tallied { All (λ b. ((tally b).rounds < 2 ^ 59) × ((tally b).gain < 2 ^ 59)) refiners.old }
{
    let made = run_over(rt, alloc, row.words, row.graph, b"", refiners)?;
    Ok(
        made.ended.status == Status::Done
            && made.out.as_slice() == row.out
            && made.report.as_slice() == row.report,
    )
}

#[test]
fn rows(rt: HostRuntime) -> Result<(), Fail> {
    for row in ROWS {
        let mut refiners: [Box<dyn Refiner>; 3] = [
            Box::new(rt.alloc(), LabelProp::new(rt, OpenGate))?,
            Box::new(rt.alloc(), FmSearch::new(rt, OpenGate))?,
            Box::new(rt.alloc(), FlowRound::new(rt, OpenGate))?,
        ];
        assert!(rt;
            writes(&rt, rt.alloc(), row, &mut refiners)?,
            "{}",
            row.words
        );
    }
    Ok(())
}
