//! Runs whose ends fail.

use super::hostile::head;
use super::{Case, FIRST, Faults, NONE, PAIR, ends};
use hmetis_read::{LineKind, What};
use part_run::Status;
use part_text::PartKind;
use std::alloc::Global;
use std::test::Fail;
use std::thread::Threads;

/// Faults of ends that give and take one byte at a time.
const BYTES: Faults = Faults { step: 1, ..NONE };

/// The number of the call behind so many.
fn call_behind(count: usize) -> Result<u32, Fail> {
    Ok(u32::try_from(count)?.saturating_add(1))
}

/// Whether a run with a fault in writing ends as it must: it meets the fault, or is done.
fn ends_writing<H: Threads + Sync>(
    rt: &H,
    alloc: Global,
    case: &Case<'_>,
    faults: Faults,
    is_met: bool,
    wrote: (&[u8], &[u8]),
) -> Result<bool, Fail> {
    let status = if is_met {
        Status::WriteFault
    } else {
        Status::Done
    };
    ends(rt, alloc, case, faults, status, wrote)
}

/// Whether what was sent is the head of the text, and the report got nothing, where `out` fails behind each number of
/// pieces, by one call and for want of room, and not at all.
fn cuts_out<H: Threads + Sync>(rt: &H, alloc: Global, case: &Case<'_>) -> Result<bool, Fail> {
    for sent in 0..=case.out.len() {
        let is_met = sent < case.out.len();
        let report = if is_met { b"".as_slice() } else { case.report };
        let by_call = Faults {
            out: call_behind(sent)?,
            ..BYTES
        };
        let by_room = Faults {
            room: sent,
            ..BYTES
        };
        let wrote = (head(case.out, sent), report);
        if !ends_writing(rt, alloc, case, by_call, is_met, wrote)?
            || !ends_writing(rt, alloc, case, by_room, is_met, wrote)?
        {
            return Ok(false);
        }
    }
    Ok(true)
}

/// Whether `out` got its whole text, and the report its head, where the report fails behind each number of bytes, and
/// not at all.
fn cuts_report<H: Threads + Sync>(rt: &H, alloc: Global, case: &Case<'_>) -> Result<bool, Fail> {
    for sent in 0..=case.report.len() {
        let is_met = sent < case.report.len();
        let faults = Faults {
            report: call_behind(sent)?,
            ..BYTES
        };
        let wrote = (case.out, head(case.report, sent));
        if !ends_writing(rt, alloc, case, faults, is_met, wrote)? {
            return Ok(false);
        }
    }
    Ok(true)
}

/// Whether a run with a fault in reading ends as it must: it meets the fault and writes nothing, or is done.
fn ends_reading<H: Threads + Sync>(
    rt: &H,
    alloc: Global,
    case: &Case<'_>,
    faults: Faults,
    is_met: bool,
) -> Result<bool, Fail> {
    if is_met {
        return ends(rt, alloc, case, faults, Status::ReadFault, (b"", b""));
    }
    ends(
        rt,
        alloc,
        case,
        faults,
        Status::Done,
        (case.out, case.report),
    )
}

/// Lets `graph` fail behind each number of bytes, at the call that finds its end too, and not at all.
fn cuts_graph<H: Threads + Sync>(rt: &H, alloc: Global, case: &Case<'_>) -> Result<bool, Fail> {
    for read in 0..case.graph.len().saturating_add(2) {
        let faults = Faults {
            graph: call_behind(read)?,
            ..BYTES
        };
        if !ends_reading(rt, alloc, case, faults, read <= case.graph.len())? {
            return Ok(false);
        }
    }
    Ok(true)
}

/// The same of `extra`.
fn cuts_extra<H: Threads + Sync>(rt: &H, alloc: Global, case: &Case<'_>) -> Result<bool, Fail> {
    for read in 0..case.extra.len().saturating_add(2) {
        let faults = Faults {
            extra: call_behind(read)?,
            ..BYTES
        };
        if !ends_reading(rt, alloc, case, faults, read <= case.extra.len())? {
            return Ok(false);
        }
    }
    Ok(true)
}

const PAIRED: Case<'static> = Case {
    words: "partition g 4 0",
    graph: PAIR,
    extra: b"",
    out: b"0\n1\n",
    report: b"vertices 2\nnets 1\nweight 2\nblocks 4\nlimit 1\nseed 1\nworkers 4\ngreedy 1\nlevels 1\nstart 0\n\
        first 1\nchosen levels\ncost 1\nload 0 1\nload 1 1\nload 2 0\nload 3 0\n",
};

const FIXED: Case<'static> = Case {
    words: "partition g 2 0 fix=f workers=1",
    graph: FIRST,
    extra: b"0\n0\n0\n1\n1\n1\n0\n",
    out: b"0\n0\n0\n1\n1\n1\n0\n",
    report: b"vertices 7\nnets 4\nweight 7\nblocks 2\nlimit 4\nseed 1\nworkers 1\ngreedy 10\nlevels 1\nstart 0\n\
        first 10\nchosen levels\ncost 10\nload 0 4\nload 1 3\n",
};

const EVALUATED: Case<'static> = Case {
    words: "evaluate g p 2 0",
    graph: FIRST,
    extra: b"0\n0\n0\n1\n1\n1\n0\n",
    out: b"",
    report: b"vertices 7\nnets 4\nweight 7\nblocks 2\nlimit 4\ncost 10\nload 0 4\nload 1 3\nfits yes\n",
};

const GENERATED: Case<'static> = Case {
    words: "generate 3",
    graph: b"",
    extra: b"",
    out: b"3 3\n1 2\n2 3\n1 2 3\n",
    report: b"",
};

const TRIED: Case<'static> = Case {
    words: "selfrun 4 2",
    graph: b"",
    extra: b"",
    out: b"",
    report: b"vertices 4\nnets 4\nblocks 2\nlimit 2\ngreedy 4\nfits yes\nsettled yes\nabove greedy no\n\
        gains exact yes\n",
};

#[test]
fn sinks_that_fail(rt: HostRuntime) -> Result<(), Fail> {
    for case in &[PAIRED, FIXED, EVALUATED, GENERATED, TRIED] {
        assert!(rt; cuts_out(&rt, rt.alloc(), case)?, "{}", case.words);
        assert!(rt; cuts_report(&rt, rt.alloc(), case)?, "{}", case.words);
    }
    Ok(())
}

#[test]
fn sources_that_fail(rt: HostRuntime) -> Result<(), Fail> {
    for case in &[PAIRED, FIXED, EVALUATED] {
        assert!(rt; cuts_graph(&rt, rt.alloc(), case)?, "{}", case.words);
    }
    for case in &[FIXED, EVALUATED] {
        assert!(rt; cuts_extra(&rt, rt.alloc(), case)?, "{}", case.words);
    }
    Ok(())
}

/// Whether ends that take three bytes at a time fail as those of one byte do.
fn cuts_pieces<H: Threads + Sync>(rt: &H, alloc: Global, sent: usize) -> Result<bool, Fail> {
    let pieces = Faults { step: 3, ..NONE };
    let call = call_behind(sent)?;
    let bytes = sent.saturating_mul(3);
    let out = Faults {
        out: call,
        ..pieces
    };
    let report = Faults {
        report: call,
        ..pieces
    };
    let begun = (head(FIXED.out, bytes), b"".as_slice());
    let told = (FIXED.out, head(FIXED.report, bytes));
    Ok(
        ends_writing(rt, alloc, &FIXED, out, true, begun)?
            && ends_writing(rt, alloc, &FIXED, report, true, told)?,
    )
}

#[test]
fn sinks_that_fail_in_pieces(rt: HostRuntime) -> Result<(), Fail> {
    for sent in 0..5usize {
        assert!(rt; cuts_pieces(&rt, rt.alloc(), sent)?);
    }
    Ok(())
}

/// A run whose ends fail where it would go on, and the status of the first cause.
#[derive(Clone, Copy)]
struct First<'a> {
    words: &'a str,
    graph: &'a [u8],
    extra: &'a [u8],
    faults: Faults,
    status: Status,
}

/// Every end fails.
const ALL: Faults = Faults {
    graph: 1,
    extra: 1,
    out: 1,
    report: 1,
    ..BYTES
};

/// Every end but `graph` fails.
const BEHIND_GRAPH: Faults = Faults { graph: 0, ..ALL };

/// Every sink fails.
const WRITTEN: Faults = Faults {
    extra: 0,
    ..BEHIND_GRAPH
};

/// Five vertices that don't fit into two blocks.
const HEAVY: &[u8] = b"0 5 10\n3\n3\n2\n2\n2\n";

const FIRSTS: &[First<'static>] = &[
    First {
        words: "partition g 1 0",
        graph: PAIR,
        extra: b"",
        faults: ALL,
        status: Status::Usage,
    },
    First {
        words: "evaluate g - 2 0",
        graph: PAIR,
        extra: b"",
        faults: ALL,
        status: Status::Usage,
    },
    First {
        words: "generate 0",
        graph: PAIR,
        extra: b"",
        faults: ALL,
        status: Status::Usage,
    },
    First {
        words: "partition g 2 0",
        graph: b"2 3\n1 2\n",
        extra: b"",
        faults: ALL,
        status: Status::ReadFault,
    },
    First {
        words: "partition g 2 0 fix=f",
        graph: b"2 3\n1 2\n",
        extra: b"x",
        faults: BEHIND_GRAPH,
        status: Status::Malformed {
            line: 3,
            kind: LineKind::MissingLine,
        },
    },
    First {
        words: "evaluate g p 2 0",
        graph: b"2 3\n1 2\n",
        extra: b"x",
        faults: BEHIND_GRAPH,
        status: Status::Malformed {
            line: 3,
            kind: LineKind::MissingLine,
        },
    },
    First {
        words: "partition g 17 0 fix=f",
        graph: b"0 4194304\n",
        extra: b"x",
        faults: BEHIND_GRAPH,
        status: Status::TooLarge {
            line: 0,
            what: What::Words,
        },
    },
    First {
        words: "evaluate g p 17 0",
        graph: b"0 4194304\n",
        extra: b"x",
        faults: BEHIND_GRAPH,
        status: Status::TooLarge {
            line: 0,
            what: What::Words,
        },
    },
    First {
        words: "partition g 2 0 fix=f",
        graph: HEAVY,
        extra: b"-1\n",
        faults: BEHIND_GRAPH,
        status: Status::ReadFault,
    },
    First {
        words: "partition g 2 0 fix=f",
        graph: HEAVY,
        extra: b"-1\n",
        faults: WRITTEN,
        status: Status::BadFix {
            line: 2,
            kind: PartKind::MissingLine,
        },
    },
    First {
        words: "partition g 2 0",
        graph: HEAVY,
        extra: b"",
        faults: BEHIND_GRAPH,
        status: Status::Unplaced { vertex: 5 },
    },
    First {
        words: "selfrun 131073 256",
        graph: PAIR,
        extra: b"",
        faults: ALL,
        status: Status::TooLarge {
            line: 0,
            what: What::Words,
        },
    },
    First {
        words: "partition g 2 0",
        graph: PAIR,
        extra: b"",
        faults: BEHIND_GRAPH,
        status: Status::WriteFault,
    },
    First {
        words: "evaluate g p 2 0",
        graph: PAIR,
        extra: b"0\n1\n",
        faults: WRITTEN,
        status: Status::WriteFault,
    },
    First {
        words: "generate 3",
        graph: PAIR,
        extra: b"",
        faults: ALL,
        status: Status::WriteFault,
    },
    First {
        words: "selfrun 4 2",
        graph: PAIR,
        extra: b"",
        faults: ALL,
        status: Status::WriteFault,
    },
];

/// Whether a run is refused with the status of its first cause, and writes nothing.
fn is_first<H: Threads + Sync>(rt: &H, alloc: Global, row: &First<'_>) -> Result<bool, Fail> {
    let case = Case {
        words: row.words,
        graph: row.graph,
        extra: row.extra,
        out: b"",
        report: b"",
    };
    ends(rt, alloc, &case, row.faults, row.status, (b"", b""))
}

#[test]
fn first_causes(rt: HostRuntime) -> Result<(), Fail> {
    for row in FIRSTS {
        assert!(rt; is_first(&rt, rt.alloc(), row)?, "{}", row.words);
    }
    Ok(())
}

/// Every source fails.
const UNREAD: Faults = Faults {
    graph: 1,
    extra: 1,
    ..BYTES
};

/// `extra` fails.
const WITHOUT_EXTRA: Faults = Faults { extra: 1, ..BYTES };

/// Sources that a command leaves alone may fail.
#[test]
fn sources_left_alone(rt: HostRuntime) -> Result<(), Fail> {
    for case in &[GENERATED, TRIED] {
        assert!(rt;
            ends_reading(&rt, rt.alloc(), case, UNREAD, false)?,
            "{}",
            case.words
        );
    }
    assert!(rt; ends_reading(&rt, rt.alloc(), &PAIRED, WITHOUT_EXTRA, false)?);
    Ok(())
}
