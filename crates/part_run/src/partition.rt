//! The command `partition`: from a graph to a partition and its report.

ghost use Rattle.std.specs.Prelude.{◌≡◌, ◌≢◌, ◌≤◌, ◌<◌, ◌^◌, MatchResult, IfOk, All, AllPairs, length, map};
ghost use Rattle.hg_defs.specs.Hypergraph.{IsFixedWithin, IsHypergraph, Suits, vertex_count};
ghost use Rattle.round_log.specs.declared.record.Kind.{Kind};
ghost use Rattle.part_text.specs.Part.{part_text};
ghost use Rattle.part_run.specs.Reads.{feed_of, IsFixedBy, IsFixRefusal};
ghost use Rattle.part_run.specs.Answers.{inputs_of, outputs_of, port_of, IsSent, IsCutOff};
ghost use Rattle.part_run.specs.Answers.{IsAccepted, IsInputRefusal, job_for};
ghost use Rattle.part_run.specs.Answers.{IsWritten, IsWriteRefusal, IsPartitioned};
ghost use Rattle.part_run.specs.Answers.{IsPartitionRefused, report_for, TalliesIn, SparesIn, rounds_in};
ghost use Rattle.part_run.specs.Made.{IsJob, IsMade, IsReportable};
ghost use Rattle.part_run.specs.Spelled.{partitioning_of, HasFewCycles};

use crate::making::{Made, run_in};
use crate::reading::{read_fixes, read_graph};
use crate::words::Partitioning;
use crate::{Outcome, Status};
use hg_base::{Blocks, FREE, FlatHyper};
use hg_io::{Failed, Sink, Source};
use part_text::put_part;
use refiner::Refiner;
use round_log::Job;
use std::alloc::Global;
use std::thread::Threads;
use trace_text::put_report;

/// Fixes each vertex as the list says, whose entries are `FREE` or blocks.
fn fix_all(h: &mut FlatHyper, fixes: &[u32])
    requires vertices { length fixes.now ≡ vertex_count h.old }
    requires within { All (λ f. f ≤ FREE) fixes.now }
    ensures { h.new ≡ record h.old { fixes = fixes.now } }
{
    for v in 0..h.vertices() {
        h.set_fix(v, fixes[v as usize]);
    }
}

/// The hypergraph with the fixes that the extra source spells for `k` blocks.
fn with_fixes<X: Source>(
    alloc: Global,
    extra: &mut X,
    mut h: FlatHyper,
    k: u32,
) -> Result<FlatHyper, Status>
    requires { k ≤ 256 }
    ensures answer { let old = feed_of (X.left extra.old) (X.faults extra.old) in
        let new = feed_of (X.left extra.new) (X.faults extra.new) in
        MatchResult result (IsFixedBy k old new h) (IsFixRefusal (vertex_count h) k old new) }
    ensures within { IfOk result (λ fixed. IsFixedWithin fixed k) }
    ensures later { X.faults extra.old ≤ X.faults extra.new }
{
    let fixes = read_fixes(alloc, extra, h.vertices(), k)?;
    fix_all(&mut h, fixes.slice());
    Ok(h)
}

/// The hypergraph that a partition is asked of: that of the graph, with the chosen objective and the
/// fixes of the extra source where a fix file is named.
fn accept<H: Threads + Sync, S: Source, X: Source>(
    rt: &H,
    alloc: Global,
    p: &Partitioning<'_>,
    graph: &mut S,
    extra: &mut X,
) -> Result<FlatHyper, Status>
    ensures answer { let inputs = inputs_of (feed_of (S.left graph.old) (S.faults graph.old))
        (feed_of (X.left extra.old) (X.faults extra.old)) in
        let inputs_after = inputs_of (feed_of (S.left graph.new) (S.faults graph.new))
        (feed_of (X.left extra.new) (X.faults extra.new)) in
        MatchResult result
        (IsAccepted (partitioning_of p.now) inputs inputs_after)
        (IsInputRefusal (partitioning_of p.now) inputs inputs_after) }
    ensures within { IfOk result (λ h. IsFixedWithin h p.now.balance.k) }
    ensures suits { IfOk result (λ h. Suits h p.now.balance.k) }
    ensures graph_later { S.faults graph.old ≤ S.faults graph.new }
    ensures extra_later { X.faults extra.old ≤ X.faults extra.new }
{
    let mut h = read_graph(rt, alloc, graph, p.balance.k, p.workers.count)?;
    h.set_objective(p.objective);
    match p.fix {
        None => Ok(h),
        Some(_) => with_fixes(alloc, extra, h, p.balance.k),
    }
}

/// Writes the partition, and then its report.
fn deliver<H: Threads + Sync, K: Sink, R: Sink>(
    rt: &H,
    job: &Job,
    made: &Made,
    out: &mut K,
    report: &mut R,
) -> Result<(), Status>
    requires reportable { IsReportable job.now made.now }
    ensures answer { let outputs = outputs_of (port_of (K.got out.old) (K.faults out.old) (K.held out.old))
        (port_of (R.got report.old) (R.faults report.old) (R.held report.old)) in
        let outputs_after = outputs_of (port_of (K.got out.new) (K.faults out.new) (K.held out.new))
        (port_of (R.got report.new) (R.faults report.new) (R.held report.new)) in
        let text = part_text made.now.outcome.blocks in
        let report_text = report_for job.now made.now.h made.now.outcome in
        MatchResult result
        (λ _. IsWritten outputs outputs_after text report_text)
        (IsWriteRefusal outputs outputs_after text report_text) }
    ensures out_later { K.faults out.old ≤ K.faults out.new }
    ensures report_later { R.faults report.old ≤ R.faults report.new }
{
    if write_blocks(out, &made.outcome.blocks).is_err() {
        return Err(Status::WriteFault);
    }
    if write_report(rt, report, job, made).is_err() {
        return Err(Status::WriteFault);
    }
    Ok(())
}

/// Writes the report of a run, and sends it on.
fn write_report<H: Threads + Sync, R: Sink>(
    rt: &H,
    report: &mut R,
    job: &Job,
    made: &Made,
) -> Result<(), Failed>
    requires reportable { IsReportable job.now made.now }
    ensures answer { let old = port_of (R.got report.old) (R.faults report.old) (R.held report.old) in
        let new = port_of (R.got report.new) (R.faults report.new) (R.held report.new) in
        let text = report_for job.now made.now.h made.now.outcome in
        MatchResult result (λ _. IsSent old new text) (λ _. IsCutOff old new text) }
    ensures later { R.faults report.old ≤ R.faults report.new }
{
    let outcome = &made.outcome;
    put_report(
        rt,
        report,
        &made.h,
        job,
        made.greedy,
        &outcome.trace,
        &outcome.cycles,
        outcome.blocks.slice(),
    )?;
    report.flush()
}

/// Writes the partition, and sends it on; where there is no vertex the sink isn't called.
fn write_blocks<K: Sink>(out: &mut K, blocks: &Blocks) -> Result<(), Failed>
    ensures answer { let old = port_of (K.got out.old) (K.faults out.old) (K.held out.old) in
        let new = port_of (K.got out.new) (K.faults out.new) (K.held out.new) in
        MatchResult result (λ _. IsSent old new (part_text blocks.now))
        (λ _. IsCutOff old new (part_text blocks.now)) }
    ensures later { K.faults out.old ≤ K.faults out.new }
{
    if blocks.is_empty() {
        return Ok(());
    }
    put_part(out, blocks.slice())?;
    out.flush()
}

/// What the words ask of the run.
fn job_of(p: &Partitioning<'_>) -> Job
    ensures value { result ≡ job_for (partitioning_of p.now) }
    ensures bounds { IsJob result }
{
    Job {
        k: p.balance.k,
        eps: p.balance.eps,
        seed: p.seed,
        workers: p.workers.count,
    }
}

/// Partitions: reads what the words name, makes a partition in the mode that they ask for, and writes it
/// and its report.
pub(crate) fn partition<H: Threads + Sync, S: Source, X: Source, K: Sink, R: Sink>(
    rt: &H,
    alloc: Global,
    p: &Partitioning<'_>,
    graph: &mut S,
    extra: &mut X,
    out: &mut K,
    report: &mut R,
    refiners: &mut [Box<dyn Refiner>],
) -> Result<Outcome, Status>
    requires cycles { HasFewCycles p.now.mode }
    requires may_run { All (λ b. may_run b) refiners.old }
    requires kinds { AllPairs (λ a b. a ≢ b) (map (λ b. kind b) refiners.old) }
    requires tallied { All (λ b. ((tally b).rounds < 2 ^ 59) × ((tally b).gain < 2 ^ 59)) refiners.old }
    ensures answer { let inputs = inputs_of (feed_of (S.left graph.old) (S.faults graph.old))
        (feed_of (X.left extra.old) (X.faults extra.old)) in
        let inputs_after = inputs_of (feed_of (S.left graph.new) (S.faults graph.new))
        (feed_of (X.left extra.new) (X.faults extra.new)) in
        let outputs = outputs_of (port_of (K.got out.old) (K.faults out.old) (K.held out.old))
        (port_of (R.got report.old) (R.faults report.old) (R.held report.old)) in
        let outputs_after = outputs_of (port_of (K.got out.new) (K.faults out.new) (K.held out.new))
        (port_of (R.got report.new) (R.faults report.new) (R.held report.new)) in
        let kinds = map (λ b. kind b) refiners.old in
        MatchResult result
        (IsPartitioned kinds (partitioning_of p.now) inputs inputs_after outputs outputs_after)
        (IsPartitionRefused kinds (partitioning_of p.now) inputs inputs_after outputs outputs_after) }
    ensures graph_later { S.faults graph.old ≤ S.faults graph.new }
    ensures extra_later { X.faults extra.old ≤ X.faults extra.new }
    ensures out_later { K.faults out.old ≤ K.faults out.new }
    ensures report_later { R.faults report.old ≤ R.faults report.new }
    ensures may_run { All (λ b. may_run b) refiners.new }
    ensures kinds { map (λ b. kind b) refiners.new ≡ map (λ b. kind b) refiners.old }
    ensures tallies { IfOk result (λ outcome. TalliesIn p.now.mode (map (λ b. kind b) refiners.old)
        (rounds_in outcome) (map (λ b. tally b) refiners.old) (map (λ b. tally b) refiners.new)) }
    ensures spared { SparesIn p.now.mode (map (λ b. tally b) refiners.old) (map (λ b. tally b) refiners.new) }
{
    let flat = accept(rt, alloc, p, graph, extra)?;
    let _vertices = flat.vertices();
    let job = job_of(p);
    let made = run_in(rt, alloc, p.mode, &job, flat, refiners)?;
    deliver(rt, &job, &made, out, report)?;
    Ok(made.outcome)
}
