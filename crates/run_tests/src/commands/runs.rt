//! Runs that are done: what they write, and what they hand back.

use super::{Case, FIRST, NONE, PAIR, is_done, run_over};
use std::alloc::Global;
use std::test::Fail;
use std::thread::Threads;

/// Three vertices of the largest weight in one net of the largest weight.
const HEAVY: &[u8] = b"1 3 11\n4294967295 1 2 3\n4294967295\n4294967295\n4294967295\n";

const PARTITIONED: &[Case<'static>] = &[
    Case {
        words: "partition g 4 0",
        graph: PAIR,
        extra: b"",
        out: b"0\n1\n",
        report: b"vertices 2\nnets 1\nweight 2\nblocks 4\nlimit 1\nseed 1\nworkers 4\ngreedy 1\nlevels 1\nstart 0\n\
            first 1\nchosen levels\ncost 1\nload 0 1\nload 1 1\nload 2 0\nload 3 0\n",
    },
    Case {
        words: "partition - 2 0",
        graph: b"0 0\n",
        extra: b"",
        out: b"",
        report: b"vertices 0\nnets 0\nweight 0\nblocks 2\nlimit 0\nseed 1\nworkers 4\ngreedy 0\nlevels 1\nstart 0\n\
            first 0\nchosen levels\ncost 0\nload 0 0\nload 1 0\n",
    },
    Case {
        words: "partition - 2 0 cycles=2",
        graph: b"0 0\n",
        extra: b"",
        out: b"",
        report: b"vertices 0\nnets 0\nweight 0\nblocks 2\nlimit 0\nseed 1\nworkers 4\ngreedy 0\nlevels 1\nstart 0\n\
            first 0\nchosen levels\ncycle 1 levels 1 before 0 after 0\ncycle 2 levels 1 before 0 after 0\ncost 0\n\
            load 0 0\nload 1 0\n",
    },
    Case {
        words: "partition - 2 0 mode=det",
        graph: b"0 0\n",
        extra: b"",
        out: b"",
        report: b"vertices 0\nnets 0\nweight 0\nblocks 2\nlimit 0\nseed 1\nworkers 4\ngreedy 0\nlevels 1\nstart 0\n\
            first 0\nchosen levels\ncost 0\nload 0 0\nload 1 0\n",
    },
    Case {
        words: "partition g 4 0 cycles=1",
        graph: PAIR,
        extra: b"",
        out: b"0\n1\n",
        report: b"vertices 2\nnets 1\nweight 2\nblocks 4\nlimit 1\nseed 1\nworkers 4\ngreedy 1\nlevels 1\nstart 0\n\
            first 1\nchosen levels\ncycle 1 levels 1 before 1 after 1\ncost 1\nload 0 1\nload 1 1\nload 2 0\n\
            load 3 0\n",
    },
    Case {
        words: "partition g 2 0 fix=f workers=1 seed=7 cost=soed mode=det",
        graph: FIRST,
        extra: b"0\n0\n0\n1\n1\n1\n0\n",
        out: b"0\n0\n0\n1\n1\n1\n0\n",
        report: b"vertices 7\nnets 4\nweight 7\nblocks 2\nlimit 4\nseed 7\nworkers 1\nobjective soed\ngreedy 20\n\
            levels 1\nstart 0\nfirst 20\nchosen levels\ncost 20\nload 0 4\nload 1 3\n",
    },
    Case {
        words: "partition g 2 0 fix=f workers=1 seed=7 cost=soed",
        graph: FIRST,
        extra: b"0\n0\n0\n1\n1\n1\n0\n",
        out: b"0\n0\n0\n1\n1\n1\n0\n",
        report: b"vertices 7\nnets 4\nweight 7\nblocks 2\nlimit 4\nseed 7\nworkers 1\nobjective soed\ngreedy 20\n\
            levels 1\nstart 0\nfirst 20\nchosen levels\ncost 20\nload 0 4\nload 1 3\n",
    },
    Case {
        words: "partition g 2 0.334",
        graph: HEAVY,
        extra: b"",
        out: b"0\n1\n0\n",
        report: b"vertices 3\nnets 1\nweight 12884901885\nblocks 2\nlimit 8594229557\nseed 1\nworkers 4\n\
            greedy 4294967295\nlevels 1\nstart 0\nfirst 4294967295\nchosen levels\ncost 4294967295\n\
            load 0 8589934590\nload 1 4294967295\n",
    },
];

const EVALUATED: &[Case<'static>] = &[
    Case {
        words: "evaluate g p 2 0",
        graph: FIRST,
        extra: b"0\n0\n0\n1\n1\n1\n0\n",
        out: b"",
        report: b"vertices 7\nnets 4\nweight 7\nblocks 2\nlimit 4\ncost 10\nload 0 4\nload 1 3\nfits yes\n",
    },
    Case {
        words: "evaluate g p 2 0.2",
        graph: FIRST,
        extra: b"0\n0\n0\n0\n0\n0\n0\n",
        out: b"",
        report: b"vertices 7\nnets 4\nweight 7\nblocks 2\nlimit 4\ncost 0\nload 0 7\nload 1 0\nfits no\n",
    },
    Case {
        words: "evaluate g p 2 0.75",
        graph: b"0 7\n",
        extra: b"0\n0\n0\n0\n0\n0\n0\n",
        out: b"",
        report: b"vertices 7\nnets 0\nweight 7\nblocks 2\nlimit 7\ncost 0\nload 0 7\nload 1 0\nfits yes\n",
    },
    Case {
        words: "evaluate g p 2 100.000",
        graph: b"0 1\n",
        extra: b"1\n",
        out: b"",
        report: b"vertices 1\nnets 0\nweight 1\nblocks 2\nlimit 101\ncost 0\nload 0 0\nload 1 1\nfits yes\n",
    },
    Case {
        words: "evaluate g p 3 0",
        graph: FIRST,
        extra: b"0\n1\n2\n0\n1\n2\n0\n",
        out: b"",
        report: b"vertices 7\nnets 4\nweight 7\nblocks 3\nlimit 3\ncost 38\nload 0 3\nload 1 2\nload 2 2\nfits yes\n",
    },
    Case {
        words: "evaluate g p 3 0 cost=cut",
        graph: FIRST,
        extra: b"0\n1\n2\n0\n1\n2\n0\n",
        out: b"",
        report: b"vertices 7\nnets 4\nweight 7\nblocks 3\nlimit 3\nobjective cut\ncost 20\nload 0 3\nload 1 2\n\
            load 2 2\nfits yes\n",
    },
    Case {
        words: "evaluate g p 3 0 cost=soed",
        graph: FIRST,
        extra: b"0\n1\n2\n0\n1\n2\n0\n",
        out: b"",
        report: b"vertices 7\nnets 4\nweight 7\nblocks 3\nlimit 3\nobjective soed\ncost 58\nload 0 3\nload 1 2\n\
            load 2 2\nfits yes\n",
    },
    Case {
        words: "selfrun 4 2",
        graph: b"",
        extra: b"",
        out: b"",
        report: b"vertices 4\nnets 4\nblocks 2\nlimit 2\ngreedy 4\nfits yes\nsettled yes\nabove greedy no\n\
            gains exact yes\n",
    },
    Case {
        words: "generate 4",
        graph: b"",
        extra: b"",
        out: b"4 4\n1 2 4\n1 2 3\n3 4\n1 4\n",
        report: b"",
    },
];

#[test]
fn partitions(rt: HostRuntime) -> Result<(), Fail> {
    for case in PARTITIONED {
        assert!(rt; is_done(&rt, rt.alloc(), case)?, "{}", case.words);
    }
    Ok(())
}

#[test]
fn evaluates_generates_and_tries(rt: HostRuntime) -> Result<(), Fail> {
    for case in EVALUATED {
        assert!(rt; is_done(&rt, rt.alloc(), case)?, "{}", case.words);
    }
    Ok(())
}

/// The number behind a label at the head of one of the lines.
pub(super) fn number_behind<'a>(text: &'a str, label: &str) -> Option<&'a str> {
    for line in text.split('\n') {
        if let Some(number) = line.strip_prefix(label) {
            return Some(number);
        }
    }
    None
}

/// Whether a report tells a number behind a label.
pub(super) fn tells(report: &[u8], label: &str, number: &str) -> bool {
    match str::from_utf8(report) {
        Ok(report) => match number_behind(report, label) {
            Some(told) => told == number,
            None => false,
        },
        Err(_) => false,
    }
}

/// Whether two reports tell the same number behind a label.
pub(super) fn agree(one: &[u8], other: &[u8], label: &str) -> bool {
    match str::from_utf8(one) {
        Ok(one) => match number_behind(one, label) {
            Some(number) => tells(other, label, number),
            None => false,
        },
        Err(_) => false,
    }
}

/// Words of a run on the first file, and those that evaluate what it writes.
#[derive(Clone, Copy)]
struct Pair<'a> {
    words: &'a str,
    evaluation: &'a str,
}

const PAIRS: &[Pair<'static>] = &[
    Pair {
        words: "partition g 2 0",
        evaluation: "evaluate g p 2 0",
    },
    Pair {
        words: "partition g 2 0 cost=cut workers=1",
        evaluation: "evaluate g p 2 0 cost=cut",
    },
    Pair {
        words: "partition g 2 0 fix=f",
        evaluation: "evaluate g p 2 0",
    },
];

/// Whether what a run wrote is a partition that `evaluate` takes, at the cost that is reported, and it fits. The
/// report tells the cost of greedy placement, which is 20.
fn is_evaluated<H: Threads + Sync>(rt: &H, alloc: Global, pair: &Pair<'_>) -> Result<bool, Fail> {
    let case = Case {
        words: pair.words,
        graph: FIRST,
        extra: b"0\n-1\n-1\n-1\n-1\n-1\n-1\n",
        out: b"",
        report: b"",
    };
    let made = run_over(rt, alloc, &case, NONE)?;
    let evaluation = Case {
        words: pair.evaluation,
        extra: made.out.as_slice(),
        ..case
    };
    let told = run_over(rt, alloc, &evaluation, NONE)?;
    let report = made.report.as_slice();
    let other = told.report.as_slice();
    Ok(
        tells(report, "greedy ", "20")
            && tells(other, "fits ", "yes")
            && agree(report, other, "cost ")
            && agree(report, other, "load 1 "),
    )
}

#[test]
fn written_partitions_are_evaluated(rt: HostRuntime) -> Result<(), Fail> {
    for pair in PAIRS {
        assert!(rt; is_evaluated(&rt, rt.alloc(), pair)?, "{}", pair.words);
    }
    Ok(())
}

/// The blocks of the first file's fixed vertices.
const FIXED: &[u32] = &[0, 0, 0, 1, 1, 1, 0];

/// Whether the outcome of a run in which every vertex is fixed has what was written, and a trace that ends there.
fn has_the_partition<H: Threads + Sync>(rt: &H, alloc: Global) -> Result<bool, Fail> {
    let case = Case {
        words: "partition g 2 0 fix=f",
        graph: FIRST,
        extra: b"0\n0\n0\n1\n1\n1\n0\n",
        out: b"",
        report: b"",
    };
    let made = run_over(rt, alloc, &case, NONE)?;
    let Some(outcome) = &made.ended.outcome else {
        return Ok(false);
    };
    Ok(
        outcome.cost == 10
            && outcome.blocks.slice() == FIXED
            && outcome.trace.last.slice() == FIXED
            && outcome.trace.maps.is_empty()
            && outcome.cycles.is_empty(),
    )
}

#[test]
fn outcome_has_the_partition(rt: HostRuntime) -> Result<(), Fail> {
    assert!(rt; has_the_partition(&rt, rt.alloc())?);
    Ok(())
}
