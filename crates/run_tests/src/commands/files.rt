//! The places that words name, and runs over files.

use super::words_of;
use hg_io::{AnySink, AnySource, Place};
use part_run::{Names, Status, names, run};
use refiner::Refiner;
use std::alloc::Global;
use std::test::Fail;
use std::thread::Threads;
use std::{env, fs, io, process};

/// A place that is wanted: a stream or none, or the file of this name.
#[derive(Clone, Copy)]
enum Wanted<'a> {
    Input,
    Output,
    Errors,
    Nothing,
    File(&'a str),
}

/// Whether the place is the one that is wanted.
fn is_place(place: &Place, wanted: Wanted<'_>) -> bool {
    match (place, wanted) {
        (Place::Input, Wanted::Input)
        | (Place::Output, Wanted::Output)
        | (Place::Errors, Wanted::Errors)
        | (Place::Nothing, Wanted::Nothing) => true,
        (Place::File(file), Wanted::File(name)) => file.text() == name,
        _ => false,
    }
}

/// Words, and the places that they name.
#[derive(Clone, Copy)]
struct Named<'a> {
    words: &'a str,
    graph: Wanted<'a>,
    extra: Wanted<'a>,
    out: Wanted<'a>,
    report: Wanted<'a>,
}

const NAMED: &[Named<'static>] = &[
    Named {
        words: "partition a.hgr 04 0.03",
        graph: Wanted::File("a.hgr"),
        extra: Wanted::Nothing,
        out: Wanted::File("a.hgr.part.4"),
        report: Wanted::Output,
    },
    Named {
        words: "partition - 4 0.03 fix=f=g",
        graph: Wanted::Input,
        extra: Wanted::File("f=g"),
        out: Wanted::Output,
        report: Wanted::Errors,
    },
    Named {
        words: "evaluate - p 2 0",
        graph: Wanted::Input,
        extra: Wanted::File("p"),
        out: Wanted::Nothing,
        report: Wanted::Output,
    },
    Named {
        words: "generate 4",
        graph: Wanted::Nothing,
        extra: Wanted::Nothing,
        out: Wanted::Output,
        report: Wanted::Nothing,
    },
];

/// Whether the words name the places that are wanted.
fn is_named(alloc: Global, named: &Named<'_>) -> Result<bool, Fail> {
    let Names {
        graph,
        extra,
        out,
        report,
    } = names(alloc, words_of(alloc, named.words)?.as_slice())?;
    Ok(
        is_place(&graph, named.graph)
            && is_place(&extra, named.extra)
            && is_place(&out, named.out)
            && is_place(&report, named.report),
    )
}

#[test]
fn named_places(rt: HostRuntime) -> Result<(), Fail> {
    for named in NAMED {
        assert!(rt; is_named(rt.alloc(), named)?, "{}", named.words);
    }
    Ok(())
}

/// Runs the words over the places that they name, standard streams being left out.
fn run_over_files<H: Threads + Sync>(
    rt: &HostRuntime,
    threads: &H,
    text: &str,
) -> Result<Status, Fail> {
    let alloc = rt.alloc();
    let words = words_of(alloc, text)?;
    let names = names(alloc, words.as_slice())?;
    let nothing = b"".as_slice();
    let mut graph = AnySource::at(rt, nothing, names.graph);
    let mut extra = AnySource::at(rt, nothing, names.extra);
    let mut out = AnySink::at(rt, io::sink(), io::sink(), names.out);
    let mut report = AnySink::at(rt, io::sink(), io::sink(), names.report);
    let mut refiners: [Box<dyn Refiner>; 0] = [];
    Ok(
        run(
            threads,
            alloc,
            words.as_slice(),
            &mut graph,
            &mut extra,
            &mut out,
            &mut report,
            &mut refiners,
        )
        .status,
    )
}

/// Whether each command is carried out over files, and refuses a partition in place of a graph.
fn runs_on_disk<H: Threads + Sync>(rt: &HostRuntime, threads: &H) -> Result<bool, Fail> {
    let alloc = rt.alloc();
    let dir = env::temp_dir(rt)?;
    let id = process::id(rt.process());
    let graph = format!(in alloc; "{}/part_run-{id}.hgr", dir.as_str())?;
    let part = format!(in alloc; "{graph}.part.2")?;
    fs::write(rt, graph.as_str(), "3 4\n1 2\n2 3\n3 4\n")?;
    let words = format!(in alloc; "partition {graph} 2 0")?;
    let made = run_over_files(rt, threads, words.as_str())? == Status::Done;
    let length = fs::read(rt, part.as_str())?.len();
    let words = format!(in alloc; "evaluate {graph} {part} 2 0")?;
    let evaluated = run_over_files(rt, threads, words.as_str())? == Status::Done;
    let words = format!(in alloc; "evaluate {part} {graph} 2 0")?;
    let turned = run_over_files(rt, threads, words.as_str())? == Status::Done;
    let generated = run_over_files(rt, threads, "generate 4")? == Status::Done;
    fs::remove_file(rt, graph.as_str())?;
    fs::remove_file(rt, part.as_str())?;
    Ok(made && length == 8 && evaluated && !turned && generated)
}

#[test]
fn runs_over_files(rt: HostRuntime) -> Result<(), Fail> {
    assert!(rt; runs_on_disk(&rt, &rt)?);
    Ok(())
}
