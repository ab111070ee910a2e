//! `hgpart`: cuts hypergraphs into blocks of bounded weight, evaluates partitions, and makes
//! hypergraphs to try it on.
#![tactic(auto)]

ghost use Rattle.std.specs.Prelude.{◌≡◌, ◌≢◌, ◌<◌, ◌^◌, All, AllPairs, map};

mod pages;
#[cfg(test)]
mod tests;

use crate::pages::keep_pages;
use crew::OpenGate;
use flow_round::FlowRound;
use fm_search::FmSearch;
use hg_defs::NoMemory;
use hg_io::{AnySink, AnySource, Place, StdSink};
use label_prop::LabelProp;
use part_run::{Status, names, put_status, run};
use refiner::Refiner;
use std::env;
use std::fs::File;
use std::io::{self, ErrorKind};
use std::process::ExitCode;
use std::thread::Threads;

/// The words of the command line behind the program's name. They are at fault where one isn't text.
fn words(rt: &HostRuntime) -> Result<Vec<String>, Status> {
    let mut words = Vec::new(rt.alloc());
    let arguments = match env::args(rt) {
        Ok(arguments) => arguments,
        Err(error) if error.kind() == ErrorKind::OutOfMemory => return Err(Status::NoMemory),
        Err(_) => return Err(Status::Usage),
    };
    for word in arguments.skip(1) {
        if words.push(word).is_err() {
            return Err(Status::NoMemory);
        }
    }
    Ok(words)
}

/// Carries out the command that the words spell, over files and the standard streams, with these refiners.
fn carry_out<H: Threads + Sync>(
    rt: HostRuntime,
    threads: &H,
    words: &[String],
    refiners: &mut [Box<dyn Refiner>],
) -> Status
    requires may_run { All (λ b. may_run b) refiners.old }
    requires kinds { AllPairs (λ a b. a ≢ b) (map (λ b. kind b) refiners.old) }
    requires tallied { All (λ b. ((tally b).rounds < 2 ^ 59) × ((tally b).gain < 2 ^ 59)) refiners.old }
{
    let names = match names(rt.alloc(), words) {
        Ok(names) => names,
        Err(NoMemory) => return Status::NoMemory,
    };
    let mut graph = AnySource::at(rt, rt.stdin(), names.graph);
    let mut extra = AnySource::at(rt, rt.stdin(), names.extra);
    let mut out = AnySink::at(rt, rt.stdout(), rt.stderr(), names.out);
    let mut report = AnySink::at(rt, rt.stdout(), rt.stderr(), names.report);
    run(
        threads,
        rt.alloc(),
        words,
        &mut graph,
        &mut extra,
        &mut out,
        &mut report,
        refiners,
    )
    .status
}

/// Tells how the program ends.
fn end(rt: HostRuntime, status: Status) -> ExitCode {
    let mut errors = StdSink::over(rt.stderr());
    let _ = put_status(&mut errors, &status);
    ExitCode::from(status.code())
}

/// Gives the numbers of standard streams that are closed to a folder, which can be neither read nor
/// written. The next files that are opened would have them otherwise, and get what is meant for a stream.
fn hold_closed(rt: &HostRuntime) -> [Result<File, io::Error>; 3] {
    [
        File::open(rt, "/"),
        File::open(rt, "/"),
        File::open(rt, "/"),
    ]
}

fn main(rt: HostRuntime) -> ExitCode {
    let _held = hold_closed(&rt);
    keep_pages(rt.alloc());
    let words = match words(&rt) {
        Ok(words) => words,
        Err(status) => return end(rt, status),
    };
    let Ok(label) = Box::new(rt.alloc(), LabelProp::new(rt, OpenGate)) else {
        return end(rt, Status::NoMemory);
    };
    let Ok(search) = Box::new(rt.alloc(), FmSearch::new(rt, OpenGate)) else {
        return end(rt, Status::NoMemory);
    };
    let Ok(flow) = Box::new(rt.alloc(), FlowRound::new(rt, OpenGate)) else {
        return end(rt, Status::NoMemory);
    };
    let mut refiners: [Box<dyn Refiner>; 3] = [label, search, flow];
    end(rt, carry_out(rt, &rt, words.as_slice(), &mut refiners))
}
