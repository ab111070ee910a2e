//! Runs in the deterministic mode and with cycles, and the words that choose them.

use super::runs::{agree, number_behind, tells};
use super::{Case, NONE, Ran, run_over};
use hg_text::number;
use part_run::Status;
use std::alloc::Global;
use std::test::Fail;
use std::thread::Threads;

/// A fix file for 300 vertices, of which the first two and the last are fixed.
fn some_fixes(alloc: Global) -> Result<String, Fail> {
    let mut text = String::from_str(alloc, "0\n3\n")?;
    for _ in 0..297 {
        text.push_str("-1\n")?;
    }
    text.push_str("2\n")?;
    Ok(text)
}

/// What a run makes of a graph and fixes.
fn made_of<H: Threads + Sync>(
    rt: &H,
    alloc: Global,
    words: &str,
    graph: &[u8],
    extra: &[u8],
) -> Result<Ran, Fail> {
    let case = Case {
        words,
        graph,
        extra,
        out: b"",
        report: b"",
    };
    run_over(rt, alloc, &case, NONE)
}

/// Words of two runs that differ in workers, those that evaluate what they write, and the blocks that it begins with.
#[derive(Clone, Copy)]
struct Twice<'a> {
    one: &'a str,
    eight: &'a str,
    evaluation: &'a str,
    head: &'a [u8],
}

const TWICE: &[Twice<'static>] = &[
    Twice {
        one: "partition g 4 0.03 mode=det workers=1",
        eight: "partition g 4 0.03 mode=det workers=8",
        evaluation: "evaluate g p 4 0.03",
        head: b"",
    },
    Twice {
        one: "partition g 4 0.03 mode=det cost=cut workers=1",
        eight: "partition g 4 0.03 workers=8 cost=cut mode=det",
        evaluation: "evaluate g p 4 0.03 cost=cut",
        head: b"",
    },
    Twice {
        one: "partition g 4 0.03 fix=f mode=det cost=soed workers=1",
        eight: "partition g 4 0.03 fix=f mode=det cost=soed workers=8",
        evaluation: "evaluate g p 4 0.03 cost=soed",
        head: b"0\n3\n",
    },
];

/// Whether both runs write the same, and that is a partition that fits, at the cost that is reported.
fn is_same<H: Threads + Sync>(
    rt: &H,
    alloc: Global,
    graph: &[u8],
    fixes: &[u8],
    twice: &Twice<'_>,
) -> Result<bool, Fail> {
    let made = made_of(rt, alloc, twice.one, graph, fixes)?;
    let again = made_of(rt, alloc, twice.eight, graph, fixes)?;
    let told = made_of(rt, alloc, twice.evaluation, graph, made.out.as_slice())?;
    Ok(
        made.ended.status == Status::Done
            && again.ended.status == Status::Done
            && made.out.as_slice().starts_with(twice.head)
            && again.out.as_slice() == made.out.as_slice()
            && tells(told.report.as_slice(), "fits ", "yes")
            && agree(made.report.as_slice(), told.report.as_slice(), "cost "),
    )
}

#[test]
fn workers_change_nothing_that_is_written(rt: HostRuntime) -> Result<(), Fail> {
    let graph = made_of(&rt, rt.alloc(), "generate 300", b"", b"")?.out;
    let fixes = some_fixes(rt.alloc())?;
    for twice in TWICE {
        assert!(rt;
            is_same(&rt, rt.alloc(), graph.as_slice(), fixes.as_bytes(), twice)?,
            "{}",
            twice.one
        );
    }
    Ok(())
}

/// The costs before and after a cycle, behind the label of its line.
fn costs_of_cycle(report: &[u8], label: &str) -> Option<(u64, u64)> {
    let report = str::from_utf8(report).ok()?;
    let mut words = number_behind(report, label)?.split_whitespace();
    let _levels = words.next()?;
    let _before = words.next()?;
    let before = number(words.next()?.as_bytes()).ok()?;
    let _after = words.next()?;
    let after = number(words.next()?.as_bytes()).ok()?;
    Some((before, after))
}

/// Whether a run with two cycles tells both, none raises the cost, and the second begins where the first ended and
/// ends at the cost of the run.
fn cycles_fall<H: Threads + Sync>(
    rt: &H,
    alloc: Global,
    graph: &[u8],
    fixes: &[u8],
    words: &str,
) -> Result<bool, Fail> {
    let made = made_of(rt, alloc, words, graph, fixes)?;
    let Some(outcome) = &made.ended.outcome else {
        return Ok(false);
    };
    let report = made.report.as_slice();
    let Some((first, between)) = costs_of_cycle(report, "cycle 1 levels ") else {
        return Ok(false);
    };
    let Some((again, last)) = costs_of_cycle(report, "cycle 2 levels ") else {
        return Ok(false);
    };
    Ok(
        made.ended.status == Status::Done
            && outcome.cycles.len() == 2
            && between <= first
            && again == between
            && last <= again
            && last == outcome.cost,
    )
}

const CYCLED: &[&str] = &[
    "partition g 4 0.03 cycles=2",
    "partition g 4 0.03 cost=cut cycles=2",
    "partition g 4 0.03 cost=soed fix=f cycles=2",
];

#[test]
fn cycles_raise_no_cost(rt: HostRuntime) -> Result<(), Fail> {
    let graph = made_of(&rt, rt.alloc(), "generate 300", b"", b"")?.out;
    let fixes = some_fixes(rt.alloc())?;
    for words in CYCLED {
        assert!(rt;
            cycles_fall(&rt, rt.alloc(), graph.as_slice(), fixes.as_bytes(), words)?,
            "{}",
            *words
        );
    }
    Ok(())
}

/// Words, and the cost and the number of cycles of the run that they spell, where they spell one. Over eight made
/// vertices a race costs 5, and the deterministic mode 6.
#[derive(Clone, Copy)]
struct Chosen<'a> {
    words: &'a str,
    made: Option<(u64, usize)>,
}

const CHOSEN: &[Chosen<'static>] = &[
    Chosen {
        words: "partition g 2 0",
        made: Some((5, 0)),
    },
    Chosen {
        words: "partition g 2 0 mode=det",
        made: Some((6, 0)),
    },
    Chosen {
        words: "partition g 2 0 seed=1 mode=det workers=3",
        made: Some((6, 0)),
    },
    Chosen {
        words: "partition g 2 0 cycles=0",
        made: Some((5, 0)),
    },
    Chosen {
        words: "partition g 2 0 cycles=8",
        made: Some((5, 8)),
    },
    Chosen {
        words: "partition g 2 0 cycles=08 cost=cut",
        made: Some((5, 8)),
    },
    Chosen {
        words: "partition g 2 0 cycles=9",
        made: None,
    },
    Chosen {
        words: "partition g 2 0 cycles=-1",
        made: None,
    },
    Chosen {
        words: "partition g 2 0 cycles=",
        made: None,
    },
    Chosen {
        words: "partition g 2 0 cycles",
        made: None,
    },
    Chosen {
        words: "partition g 2 0 cycles=18446744073709551616",
        made: None,
    },
    Chosen {
        words: "partition g 2 0 mode=",
        made: None,
    },
    Chosen {
        words: "partition g 2 0 mode=x",
        made: None,
    },
    Chosen {
        words: "partition g 2 0 mode=det1",
        made: None,
    },
    Chosen {
        words: "partition g 2 0 mode=det mode=det",
        made: None,
    },
    Chosen {
        words: "partition g 2 0 cycles=1 cycles=1",
        made: None,
    },
    Chosen {
        words: "partition g 2 0 mode=det cycles=0",
        made: None,
    },
    Chosen {
        words: "partition g 2 0 cycles=0 mode=det",
        made: None,
    },
    Chosen {
        words: "partition g 2 0 cycles=1 seed=1 mode=det",
        made: None,
    },
    Chosen {
        words: "evaluate g p 2 0 mode=det",
        made: None,
    },
    Chosen {
        words: "selfrun 4 2 cycles=1",
        made: None,
    },
];

/// Whether the words spell a run of this cost and so many cycles, or are no command.
fn is_chosen<H: Threads + Sync>(
    rt: &H,
    alloc: Global,
    graph: &[u8],
    chosen: &Chosen<'_>,
) -> Result<bool, Fail> {
    let made = made_of(rt, alloc, chosen.words, graph, b"")?;
    Ok(match (&made.ended.outcome, chosen.made) {
        (Some(outcome), Some(wanted)) => (outcome.cost, outcome.cycles.len()) == wanted,
        (None, None) => made.ended.status == Status::Usage,
        _ => false,
    })
}

#[test]
fn modes_of_words(rt: HostRuntime) -> Result<(), Fail> {
    let graph = made_of(&rt, rt.alloc(), "generate 8", b"", b"")?.out;
    for chosen in CHOSEN {
        assert!(rt;
            is_chosen(&rt, rt.alloc(), graph.as_slice(), chosen)?,
            "{}",
            chosen.words
        );
    }
    Ok(())
}
