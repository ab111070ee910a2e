//! The top call.

ghost use Rattle.std.specs.Prelude.{◌≡◌, ◌≢◌, ◌≤◌, ◌<◌, ◌^◌, map, string_bytes, MatchResult, Ok, Err, None, Some};
ghost use Rattle.std.specs.Prelude.{All, AllPairs, IfSome};
ghost use Rattle.part_run.specs.Wanted.{wanted};
ghost use Rattle.part_run.specs.Reads.{feed_of};
ghost use Rattle.part_run.specs.Answers.{inputs_of, outputs_of, port_of, IsEnd};
ghost use Rattle.part_run.specs.Answers.{TalliesIn, Spares, mode_of, rounds_in};
ghost use Rattle.part_run.specs.declared.status.Status.TheVariants.{Done};

use crate::evaluate::evaluate;
use crate::generate::generate;
use crate::partition::partition;
use crate::selfrun::self_run;
use crate::words::{Command, parse};
use crate::{Ended, Outcome, Status};
use hg_io::{Sink, Source};
use refiner::Refiner;
use std::alloc::Global;
use std::thread::Threads;

/// The end of a command that makes an outcome.
fn with_outcome(answer: Result<Outcome, Status>) -> Ended
    ensures { MatchResult answer
        (λ outcome. result ≡ record { status = Done; outcome = Some outcome })
        (λ status. result ≡ record { status = status; outcome = None }) }
{
    match answer {
        Ok(outcome) => Ended {
            status: Status::Done,
            outcome: Some(outcome),
        },
        Err(status) => Ended {
            status,
            outcome: None,
        },
    }
}

/// The end of a command that makes none.
fn without_outcome(answer: Result<(), Status>) -> Ended
    ensures { MatchResult answer
        (λ _. result ≡ record { status = Done; outcome = None })
        (λ status. result ≡ record { status = status; outcome = None }) }
{
    match answer {
        Ok(()) => Ended {
            status: Status::Done,
            outcome: None,
        },
        Err(status) => Ended {
            status,
            outcome: None,
        },
    }
}

/// Carries out the command that the words spell.
///
/// `graph` gives the hypergraph file, and `extra` the partition file of `evaluate` or the fix file of
/// `partition`. `out` gets the partition, or the hypergraph of `generate`, and `report` the report, the
/// evaluation or the summary. A run that is refused for another cause than a fault in writing has
/// written nothing. `partition` and `selfrun` refine by the refiners, which are of different kinds and
/// tally what they did, in each cycle too; the deterministic mode and the other commands leave them alone.
/// Where a run ends with want of memory or a fault in writing, the refiners may have tallied rounds of it.
pub fn run<H: Threads + Sync, S: Source, X: Source, K: Sink, R: Sink>(
    rt: &H,
    alloc: Global,
    words: &[String],
    graph: &mut S,
    extra: &mut X,
    out: &mut K,
    report: &mut R,
    refiners: &mut [Box<dyn Refiner>],
) -> Ended
    requires may_run { All (λ b. may_run b) refiners.old }
    requires kinds { AllPairs (λ a b. a ≢ b) (map (λ b. kind b) refiners.old) }
    requires tallied { All (λ b. ((tally b).rounds < 2 ^ 59) × ((tally b).gain < 2 ^ 59)) refiners.old }
    ensures end { let inputs = inputs_of (feed_of (S.left graph.old) (S.faults graph.old))
        (feed_of (X.left extra.old) (X.faults extra.old)) in
        let inputs_after = inputs_of (feed_of (S.left graph.new) (S.faults graph.new))
        (feed_of (X.left extra.new) (X.faults extra.new)) in
        let outputs = outputs_of (port_of (K.got out.old) (K.faults out.old) (K.held out.old))
        (port_of (R.got report.old) (R.faults report.old) (R.held report.old)) in
        let outputs_after = outputs_of (port_of (K.got out.new) (K.faults out.new) (K.held out.new))
        (port_of (R.got report.new) (R.faults report.new) (R.held report.new)) in
        IsEnd (map (λ b. kind b) refiners.old) (wanted (map string_bytes words.now)) inputs inputs_after outputs
        outputs_after result }
    ensures graph_later { S.faults graph.old ≤ S.faults graph.new }
    ensures extra_later { X.faults extra.old ≤ X.faults extra.new }
    ensures out_later { K.faults out.old ≤ K.faults out.new }
    ensures report_later { R.faults report.old ≤ R.faults report.new }
    ensures may_run { All (λ b. may_run b) refiners.new }
    ensures kinds { map (λ b. kind b) refiners.new ≡ map (λ b. kind b) refiners.old }
    ensures tallies { IfSome result.outcome (λ outcome. TalliesIn (mode_of (wanted (map string_bytes words.now)))
        (map (λ b. kind b) refiners.old) (rounds_in outcome) (map (λ b. tally b) refiners.old)
        (map (λ b. tally b) refiners.new)) }
    ensures spared { Spares (wanted (map string_bytes words.now)) (map (λ b. tally b) refiners.old)
        (map (λ b. tally b) refiners.new) }
{
    match parse(words) {
        None => Ended {
            status: Status::Usage,
            outcome: None,
        },
        Some(Command::Partition(p)) => with_outcome(partition(
            rt, alloc, &p, graph, extra, out, report, refiners,
        )),
        Some(Command::Evaluate(e)) => without_outcome(evaluate(
            rt, alloc, &e, graph, extra, out, report,
        )),
        Some(Command::Generate(n)) => without_outcome(generate(alloc, n, out, report)),
        Some(Command::SelfRun(trial)) => with_outcome(self_run(
            rt, alloc, trial, out, report, refiners,
        )),
    }
}
