//! The command `selfrun`: a whole run on a made hypergraph, and its summary.

ghost use Rattle.std.specs.Prelude.{◌≡◌, ◌≢◌, ◌≤◌, ◌<◌, ◌^◌, MatchResult, IfOk, All, AllPairs, map};
ghost use Rattle.hg_defs.specs.Cost.{cost};
ghost use Rattle.hg_defs.specs.LeastLoaded.{greedy};
ghost use Rattle.round_log.specs.Trace.{limit_of as limit_of_job};
ghost use Rattle.trace_text.specs.Summary.{summary_text};
ghost use Rattle.part_run.specs.Answers.{outputs_of, port_of, IsSent, IsCutOff, IsSummedUp};
ghost use Rattle.part_run.specs.Answers.{trial_job, IsTrialRefusal, TalliesIn, rounds_in};
ghost use Rattle.part_run.specs.declared.words.Mode.TheVariants.{Raced};
ghost use Rattle.part_run.specs.Made.{IsJob};

use crate::balance::Trial;
use crate::making::{Made, run_in};
use crate::words::Mode;
use crate::{Outcome, Status};
use hg_base::limit_of;
use hg_io::{Failed, Sink};
use hg_make::make;
use hmetis_read::What;
use refiner::Refiner;
use round_log::Job;
use std::alloc::Global;
use std::thread::Threads;
use trace_text::put_summary;

/// What is asked of the run: an imbalance of 30 thousandths, seed 1 and 4 workers.
fn job_of(trial: Trial) -> Job
    ensures value { result ≡ trial_job trial.k }
    ensures bounds { IsJob result }
{
    Job {
        k: trial.k,
        eps: 30,
        seed: 1,
        workers: 4,
    }
}

/// Partitions a made hypergraph with the refiners, and writes the summary to the report.
pub(crate) fn self_run<H: Threads + Sync, K: Sink, R: Sink>(
    rt: &H,
    alloc: Global,
    trial: Trial,
    out: &mut K,
    report: &mut R,
    refiners: &mut [Box<dyn Refiner>],
) -> Result<Outcome, Status>
    requires may_run { All (λ b. may_run b) refiners.old }
    requires kinds { AllPairs (λ a b. a ≢ b) (map (λ b. kind b) refiners.old) }
    requires tallied { All (λ b. ((tally b).rounds < 2 ^ 59) × ((tally b).gain < 2 ^ 59)) refiners.old }
    ensures answer { let outputs = outputs_of (port_of (K.got out.old) (K.faults out.old) (K.held out.old))
        (port_of (R.got report.old) (R.faults report.old) (R.held report.old)) in
        let outputs_after = outputs_of (port_of (K.got out.new) (K.faults out.new) (K.held out.new))
        (port_of (R.got report.new) (R.faults report.new) (R.held report.new)) in
        MatchResult result
        (IsSummedUp (map (λ b. kind b) refiners.old) trial.vertices trial.k outputs outputs_after)
        (IsTrialRefusal trial.vertices trial.k outputs outputs_after) }
    ensures out_later { K.faults out.old ≤ K.faults out.new }
    ensures report_later { R.faults report.old ≤ R.faults report.new }
    ensures may_run { All (λ b. may_run b) refiners.new }
    ensures kinds { map (λ b. kind b) refiners.new ≡ map (λ b. kind b) refiners.old }
    ensures tallies { IfOk result (λ outcome. TalliesIn (Raced 0) (map (λ b. kind b) refiners.old)
        (rounds_in outcome) (map (λ b. tally b) refiners.old) (map (λ b. tally b) refiners.new)) }
{
    let h = make(alloc, trial.vertices)?;
    if !h.suits(trial.k) {
        return Err(Status::TooLarge {
            line: 0,
            what: What::Words,
        });
    }
    let job = job_of(trial);
    let mode = Mode::Raced { cycles: 0 };
    let made = run_in(rt, alloc, mode, &job, h, refiners)?;
    match write_summary(report, &job, &made) {
        Ok(()) => Ok(made.outcome),
        Err(Failed) => Err(Status::WriteFault),
    }
}

/// Writes the summary of a run, and sends it on.
fn write_summary<R: Sink>(report: &mut R, job: &Job, made: &Made) -> Result<(), Failed>
    requires job { IsJob job.now }
    requires greedy { made.now.greedy ≡ cost made.now.h (greedy made.now.h job.now.k) }
    ensures answer { let old = port_of (R.got report.old) (R.faults report.old) (R.held report.old) in
        let new = port_of (R.got report.new) (R.faults report.new) (R.held report.new) in
        let text = summary_text made.now.h job.now.k (limit_of_job made.now.h job.now) in
        MatchResult result (λ _. IsSent old new text) (λ _. IsCutOff old new text) }
    ensures later { R.faults report.old ≤ R.faults report.new }
{
    let h = made.h.flat();
    let _vertices = h.vertices();
    let limit = limit_of(h.total_weight(), job.k, job.eps);
    put_summary(report, h, job.k, limit, made.greedy)?;
    report.flush()
}
