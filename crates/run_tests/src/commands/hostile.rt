//! Files and words that are refused: nothing is written, and the first cause is answered.

use super::{Case, FIRST, is_done, is_refused};
use hmetis_read::{LineKind, What};
use part_run::Status;
use part_text::PartKind;
use std::alloc::{AllocError, Global};
use std::test::Fail;
use std::thread::Threads;

const MISUSED: &[&str] = &[
    "",
    "partition g 1 0",
    "partition g 257 0",
    "partition g 2 0.0301",
    "partition g 2 .5",
    "partition g 2 1.",
    "partition g 2 100.001",
    "partition g 2 0 workers=65",
    "partition g 2 0 seed=1 seed=1",
    "partition g 2 0 cost=km2",
    "partition g 2 0 cost=cut cost=cut",
    "partition g 2 0 fix=-",
    "partition g 2 0 cycles=9",
    "partition g 2 0 cycles=1 mode=det",
    "evaluate g - 2 0",
    "generate 0",
    "selfrun 4 1",
    "selfrun 4",
];

#[test]
fn words_that_are_no_command(rt: HostRuntime) -> Result<(), Fail> {
    for words in MISUSED {
        assert!(rt;
            is_refused(&rt, rt.alloc(), words, b"", b"", Status::Usage)?,
            "{}",
            *words
        );
    }
    Ok(())
}

/// A run over two files, and the status that refuses it.
#[derive(Clone, Copy)]
struct Refused<'a> {
    words: &'a str,
    graph: &'a [u8],
    extra: &'a [u8],
    status: Status,
}

const REFUSED: &[Refused<'static>] = &[
    Refused {
        words: "partition g 2 0",
        graph: b"",
        extra: b"",
        status: Status::Malformed {
            line: 1,
            kind: LineKind::NoHeader,
        },
    },
    Refused {
        words: "partition g 2 0",
        graph: b"2 3\n1 2\n",
        extra: b"",
        status: Status::Malformed {
            line: 3,
            kind: LineKind::MissingLine,
        },
    },
    Refused {
        words: "partition g 2 0",
        graph: b"4194305 1\n",
        extra: b"",
        status: Status::TooLarge {
            line: 1,
            what: What::Nets,
        },
    },
    Refused {
        words: "partition g 17 0",
        graph: b"0 4194304\n",
        extra: b"",
        status: Status::TooLarge {
            line: 0,
            what: What::Words,
        },
    },
    Refused {
        words: "partition g 2 0",
        graph: b"0 5 10\n3\n3\n2\n2\n2\n",
        extra: b"",
        status: Status::Unplaced { vertex: 5 },
    },
    Refused {
        words: "partition g 4 0",
        graph: b"0 11 10\n50\n1\n1\n1\n1\n1\n1\n1\n1\n1\n1\n",
        extra: b"",
        status: Status::Unplaced { vertex: 1 },
    },
    Refused {
        words: "partition g 2 0",
        graph: b"1 3 11\n4294967295 1 2 3\n4294967295\n4294967295\n4294967295\n",
        extra: b"",
        status: Status::Unplaced { vertex: 3 },
    },
    Refused {
        words: "partition g 2 0 fix=f",
        graph: b"0 7\n",
        extra: b"0\n0\n0\n0\n0\n-1\n-1\n",
        status: Status::Unplaced { vertex: 5 },
    },
    Refused {
        words: "partition g 2 0 fix=f",
        graph: b"0 2\n",
        extra: b"-1\n-2\n",
        status: Status::BadFix {
            line: 2,
            kind: PartKind::NotNumber,
        },
    },
    Refused {
        words: "partition g 2 0 fix=f",
        graph: b"0 2\n",
        extra: b"-1\n2\n",
        status: Status::BadFix {
            line: 2,
            kind: PartKind::BlockRange,
        },
    },
    Refused {
        words: "partition g 2 0 fix=f",
        graph: b"0 2\n",
        extra: b"-1\n-1 0\n",
        status: Status::BadFix {
            line: 2,
            kind: PartKind::FieldCount,
        },
    },
    Refused {
        words: "partition g 2 0 fix=f",
        graph: b"0 2\n",
        extra: b"-1\n",
        status: Status::BadFix {
            line: 2,
            kind: PartKind::MissingLine,
        },
    },
    Refused {
        words: "evaluate g p 2 0",
        graph: b"0 2\n",
        extra: b"0\n2\n",
        status: Status::BadPartition {
            line: 2,
            kind: PartKind::BlockRange,
        },
    },
    Refused {
        words: "evaluate g p 2 0",
        graph: b"0 0\n",
        extra: b"0\n",
        status: Status::BadPartition {
            line: 1,
            kind: PartKind::ExtraLine,
        },
    },
    Refused {
        words: "selfrun 131073 256",
        graph: b"",
        extra: b"",
        status: Status::TooLarge {
            line: 0,
            what: What::Words,
        },
    },
];

#[test]
fn refused_runs_write_nothing(rt: HostRuntime) -> Result<(), Fail> {
    for row in REFUSED {
        assert!(rt;
            is_refused(&rt, rt.alloc(), row.words, row.graph, row.extra, row.status)?,
            "{}",
            row.words
        );
    }
    Ok(())
}

/// A file, and the status that refuses it.
#[derive(Clone, Copy)]
struct Hostile<'a> {
    bytes: &'a [u8],
    status: Status,
}

/// Numbers that would be small where 2^8, 2^32 or 2^64 wraps, signs, and bytes that are no digits.
const GRAPHS: &[Hostile<'static>] = &[
    Hostile {
        bytes: b"1 2\n1\0 2\n",
        status: Status::Malformed {
            line: 2,
            kind: LineKind::NotNumber,
        },
    },
    Hostile {
        bytes: b"1 2\n1\r2 2\n",
        status: Status::Malformed {
            line: 2,
            kind: LineKind::NotNumber,
        },
    },
    Hostile {
        bytes: b"1 2\n1\x0b2\n",
        status: Status::Malformed {
            line: 2,
            kind: LineKind::NotNumber,
        },
    },
    Hostile {
        bytes: b"1 2\n1 \xff\n",
        status: Status::Malformed {
            line: 2,
            kind: LineKind::NotNumber,
        },
    },
    Hostile {
        bytes: b"1 2\n1 +2\n",
        status: Status::Malformed {
            line: 2,
            kind: LineKind::NotNumber,
        },
    },
    Hostile {
        bytes: b"1 2\n1 -1\n",
        status: Status::Malformed {
            line: 2,
            kind: LineKind::NotNumber,
        },
    },
    Hostile {
        bytes: b"1 2\n1 0x2\n",
        status: Status::Malformed {
            line: 2,
            kind: LineKind::NotNumber,
        },
    },
    Hostile {
        bytes: b"1 2\r\r\n1 2\n",
        status: Status::Malformed {
            line: 1,
            kind: LineKind::NotNumber,
        },
    },
    Hostile {
        bytes: b"\xef\xbb\xbf1 2\n1 2\n",
        status: Status::Malformed {
            line: 1,
            kind: LineKind::NotNumber,
        },
    },
    Hostile {
        bytes: b"1 2\n999999999999999999999999999999 2\n",
        status: Status::Malformed {
            line: 2,
            kind: LineKind::PinRange,
        },
    },
    Hostile {
        bytes: b"1 2\n1 4294967297\n",
        status: Status::Malformed {
            line: 2,
            kind: LineKind::PinRange,
        },
    },
    Hostile {
        bytes: b"1 2\n1 18446744073709551617\n",
        status: Status::Malformed {
            line: 2,
            kind: LineKind::PinRange,
        },
    },
    Hostile {
        bytes: b"1 2 1\n999999999999999999999999999999 1\n",
        status: Status::Malformed {
            line: 2,
            kind: LineKind::WeightRange,
        },
    },
    Hostile {
        bytes: b"1 2 1\n18446744073709551617 1 2\n",
        status: Status::Malformed {
            line: 2,
            kind: LineKind::WeightRange,
        },
    },
    Hostile {
        bytes: b"0 1 10\n4294967296\n",
        status: Status::Malformed {
            line: 2,
            kind: LineKind::WeightRange,
        },
    },
    Hostile {
        bytes: b"1 2 999999999999999999999999999999\n",
        status: Status::Malformed {
            line: 1,
            kind: LineKind::BadFormat,
        },
    },
    Hostile {
        bytes: b"1 2 18446744073709551627\n",
        status: Status::Malformed {
            line: 1,
            kind: LineKind::BadFormat,
        },
    },
    Hostile {
        bytes: b"999999999999999999999999999999 2\n",
        status: Status::TooLarge {
            line: 1,
            what: What::Nets,
        },
    },
    Hostile {
        bytes: b"18446744073709551617 2\n1 2\n",
        status: Status::TooLarge {
            line: 1,
            what: What::Nets,
        },
    },
    Hostile {
        bytes: b"1 4294967298\n1 2\n",
        status: Status::TooLarge {
            line: 1,
            what: What::Vertices,
        },
    },
    Hostile {
        bytes: b"4194304 4194304 11\n",
        status: Status::Malformed {
            line: 2,
            kind: LineKind::MissingLine,
        },
    },
];

#[test]
fn hostile_graphs(rt: HostRuntime) -> Result<(), Fail> {
    for row in GRAPHS {
        assert!(rt;
            is_refused(
                &rt,
                rt.alloc(),
                "partition g 2 0",
                row.bytes,
                b"",
                row.status
            )?
        );
    }
    Ok(())
}

/// A partition or fix file for two vertices, and what is wrong with its second line.
#[derive(Clone, Copy)]
struct Broken<'a> {
    bytes: &'a [u8],
    kind: PartKind,
}

const EXTRAS: &[Broken<'static>] = &[
    Broken {
        bytes: b"0\n256\n",
        kind: PartKind::BlockRange,
    },
    Broken {
        bytes: b"0\n4294967295\n",
        kind: PartKind::BlockRange,
    },
    Broken {
        bytes: b"0\n4294967297\n",
        kind: PartKind::BlockRange,
    },
    Broken {
        bytes: b"0\n18446744073709551615\n",
        kind: PartKind::BlockRange,
    },
    Broken {
        bytes: b"0\n18446744073709551617\n",
        kind: PartKind::BlockRange,
    },
    Broken {
        bytes: b"0\n1\0\n",
        kind: PartKind::NotNumber,
    },
    Broken {
        bytes: b"0\n\xff\n",
        kind: PartKind::NotNumber,
    },
    Broken {
        bytes: b"0\n--1\n",
        kind: PartKind::NotNumber,
    },
    Broken {
        bytes: b"0\n1 1\n",
        kind: PartKind::FieldCount,
    },
];

/// Whether the file is refused as a fix file and as a partition.
fn is_broken<H: Threads + Sync>(rt: &H, alloc: Global, row: &Broken<'_>) -> Result<bool, Fail> {
    let pair = b"0 2\n".as_slice();
    let (line, kind) = (2, row.kind);
    let fix = Status::BadFix { line, kind };
    let part = Status::BadPartition { line, kind };
    Ok(
        is_refused(rt, alloc, "partition g 256 0 fix=f", pair, row.bytes, fix)?
            && is_refused(rt, alloc, "evaluate g p 256 0", pair, row.bytes, part)?,
    )
}

#[test]
fn hostile_extras(rt: HostRuntime) -> Result<(), Fail> {
    for row in EXTRAS {
        assert!(rt; is_broken(&rt, rt.alloc(), row)?);
    }
    Ok(())
}

/// The first bytes of a text, as many as are asked, or all.
pub(super) fn head(text: &[u8], count: usize) -> &[u8] {
    text.get(..count).unwrap_or(text)
}

/// The last length of a head of the first file that is refused for a cause, the line, and the cause.
#[derive(Clone, Copy)]
struct Cut {
    length: usize,
    line: u32,
    kind: LineKind,
}

const CUTS: &[Cut] = &[
    Cut {
        length: 0,
        line: 1,
        kind: LineKind::NoHeader,
    },
    Cut {
        length: 2,
        line: 1,
        kind: LineKind::HeaderCount,
    },
    Cut {
        length: 6,
        line: 2,
        kind: LineKind::MissingLine,
    },
    Cut {
        length: 12,
        line: 3,
        kind: LineKind::MissingLine,
    },
    Cut {
        length: 22,
        line: 4,
        kind: LineKind::MissingLine,
    },
    Cut {
        length: 30,
        line: 5,
        kind: LineKind::MissingLine,
    },
];

/// Whether the heads of the first file from a length to the cut's are refused at its line.
fn are_cut<H: Threads + Sync>(rt: &H, alloc: Global, from: usize, cut: Cut) -> Result<bool, Fail> {
    let Cut { length, line, kind } = cut;
    let status = Status::Malformed { line, kind };
    let extra = b"0\n0\n1\n2\n2\n2\n0\n".as_slice();
    for count in from..=length {
        let graph = head(FIRST, count);
        if !is_refused(rt, alloc, "partition g 2 0", graph, extra, status)?
            || !is_refused(rt, alloc, "evaluate g p 3 0", graph, extra, status)?
        {
            return Ok(false);
        }
    }
    Ok(true)
}

#[test]
fn cut_graphs(rt: HostRuntime) -> Result<(), Fail> {
    let mut from = 0;
    for cut in CUTS {
        assert!(rt; are_cut(&rt, rt.alloc(), from, *cut)?);
        from = cut.length.saturating_add(1);
    }
    Ok(())
}

/// The evaluation of the first file in three blocks, at this cost.
fn evaluation(alloc: Global, cost: u32) -> Result<String, AllocError> {
    format!(in alloc;
        "vertices 7\nnets 4\nweight 7\nblocks 3\nlimit 3\ncost {cost}\nload 0 3\nload 1 1\nload 2 3\nfits yes\n"
    )
}

/// Whether so many bytes of the first file are a whole file with a shorter last net, at this cost.
fn is_shorter<H: Threads + Sync>(
    rt: &H,
    alloc: Global,
    length: usize,
    cost: u32,
) -> Result<bool, Fail> {
    let report = evaluation(alloc, cost)?;
    let case = Case {
        words: "evaluate g p 3 0",
        graph: head(FIRST, length),
        extra: b"0\n0\n1\n2\n2\n2\n0\n",
        out: b"",
        report: report.as_bytes(),
    };
    is_done(rt, alloc, &case)
}

/// The costs where 31 and more bytes of the first file are left.
const COSTS: &[u32] = &[3, 3, 3, 3, 10, 10, 17, 17];

#[test]
fn shorter_last_nets(rt: HostRuntime) -> Result<(), Fail> {
    let mut length = 31usize;
    for cost in COSTS {
        assert!(rt; is_shorter(&rt, rt.alloc(), length, *cost)?);
        length = length.saturating_add(1);
    }
    Ok(())
}

/// How many bytes of a file are left, the line that is wrong then, and what it lacks.
#[derive(Clone, Copy)]
struct Left {
    length: usize,
    line: u32,
    kind: PartKind,
}

const FIXES: &[Left] = &[
    Left {
        length: 0,
        line: 1,
        kind: PartKind::MissingLine,
    },
    Left {
        length: 1,
        line: 1,
        kind: PartKind::NotNumber,
    },
    Left {
        length: 2,
        line: 2,
        kind: PartKind::MissingLine,
    },
    Left {
        length: 3,
        line: 2,
        kind: PartKind::MissingLine,
    },
    Left {
        length: 4,
        line: 2,
        kind: PartKind::NotNumber,
    },
];

const PARTS: &[Left] = &[
    Left {
        length: 0,
        line: 1,
        kind: PartKind::MissingLine,
    },
    Left {
        length: 1,
        line: 2,
        kind: PartKind::MissingLine,
    },
    Left {
        length: 2,
        line: 2,
        kind: PartKind::MissingLine,
    },
];

#[test]
fn cut_extras(rt: HostRuntime) -> Result<(), Fail> {
    let pair = b"0 2\n".as_slice();
    for left in FIXES {
        let Left { length, line, kind } = *left;
        let status = Status::BadFix { line, kind };
        let extra = head(b"-1\n-1\n", length);
        assert!(rt;
            is_refused(
                &rt,
                rt.alloc(),
                "partition g 2 0 fix=f",
                pair,
                extra,
                status
            )?
        );
    }
    for left in PARTS {
        let Left { length, line, kind } = *left;
        let status = Status::BadPartition { line, kind };
        let extra = head(b"0\n1\n", length);
        assert!(rt; is_refused(&rt, rt.alloc(), "evaluate g p 2 0", pair, extra, status)?);
    }
    Ok(())
}
