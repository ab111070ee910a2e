use hg_io::{MemSink, MemSource};
use part_run::{Ended, Status, run};
use refiner::Refiner;
use std::alloc::{AllocError, Global};
use std::test::Fail;
use std::thread::Threads;

mod failing;
mod files;
mod hostile;
mod modes;
mod runs;
mod texts;

/// Seven vertices, four nets of weights 2, 3, 8 and 7.
const FIRST: &[u8] = b"4 7 1\n2 1 2\n3 1 7 5 6\n8 5 6 4\n7 2 3 4\n";

/// Two vertices in one net.
const PAIR: &[u8] = b"1 2\n1 2\n";

/// A command with its files, and the texts that it writes where nothing fails.
#[derive(Clone, Copy)]
struct Case<'a> {
    words: &'a str,
    graph: &'a [u8],
    extra: &'a [u8],
    out: &'a [u8],
    report: &'a [u8],
}

/// The call of each end that fails, counted from 1, or 0 for none; how many bytes `out` has room for, and how many
/// an end takes or gives at a time.
#[derive(Clone, Copy)]
struct Faults {
    graph: u32,
    extra: u32,
    out: u32,
    report: u32,
    room: usize,
    step: usize,
}

const NONE: Faults = Faults {
    graph: 0,
    extra: 0,
    out: 0,
    report: 0,
    room: 10_000,
    step: 1000,
};

/// What a run made of its ends: its status and outcome, and what the sinks got.
#[derive(Drop)]
struct Ran {
    ended: Ended,
    out: Vec<u8>,
    report: Vec<u8>,
}

/// The words, parted by blanks.
fn words_of(alloc: Global, text: &str) -> Result<Vec<String>, AllocError> {
    let mut words = Vec::new(alloc);
    for word in text.split_whitespace() {
        words.push(String::from_str(alloc, word)?)?;
    }
    Ok(words)
}

/// A source of these bytes, with one call that fails.
fn source(alloc: Global, bytes: &[u8], call: u32, step: usize) -> Result<MemSource, AllocError> {
    Ok(MemSource::of(
        Vec::from_slice(alloc, bytes)?,
        vec![in alloc; call]?,
        step.max(1),
    ))
}

/// Carries out a command over ends in memory, with no refiner.
fn run_over<H: Threads + Sync>(
    rt: &H,
    alloc: Global,
    case: &Case<'_>,
    faults: Faults,
) -> Result<Ran, Fail> {
    let mut refiners: [Box<dyn Refiner>; 0] = [];
    let step = faults.step.max(1);
    let words = words_of(alloc, case.words)?;
    let mut graph = source(alloc, case.graph, faults.graph, step)?;
    let mut extra = source(alloc, case.extra, faults.extra, step)?;
    let mut out = MemSink::of(alloc, faults.room, vec![in alloc; faults.out]?, step)?;
    let mut report = MemSink::of(alloc, 10_000, vec![in alloc; faults.report]?, step)?;
    let ended = run(
        rt,
        alloc,
        words.as_slice(),
        &mut graph,
        &mut extra,
        &mut out,
        &mut report,
        &mut refiners,
    );
    Ok(Ran {
        ended,
        out: Vec::from_slice(alloc, out.got())?,
        report: Vec::from_slice(alloc, report.got())?,
    })
}

/// Whether a run ends with the status, and the two sinks got these texts. Only a run that is done has an outcome.
fn ends<H: Threads + Sync>(
    rt: &H,
    alloc: Global,
    case: &Case<'_>,
    faults: Faults,
    status: Status,
    wrote: (&[u8], &[u8]),
) -> Result<bool, Fail> {
    let made = run_over(rt, alloc, case, faults)?;
    Ok(
        made.ended.status == status
            && made.out.as_slice() == wrote.0
            && made.report.as_slice() == wrote.1
            && (status == Status::Done || made.ended.outcome.is_none()),
    )
}

/// Whether a run with no fault is done, and writes the texts of its case.
fn is_done<H: Threads + Sync>(rt: &H, alloc: Global, case: &Case<'_>) -> Result<bool, Fail> {
    ends(rt, alloc, case, NONE, Status::Done, (case.out, case.report))
}

/// Whether a run over these files is refused with the status, and writes nothing.
fn is_refused<H: Threads + Sync>(
    rt: &H,
    alloc: Global,
    words: &str,
    graph: &[u8],
    extra: &[u8],
    status: Status,
) -> Result<bool, Fail> {
    let case = Case {
        words,
        graph,
        extra,
        out: b"",
        report: b"",
    };
    ends(rt, alloc, &case, NONE, status, (b"", b""))
}
