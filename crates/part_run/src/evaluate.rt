//! The command `evaluate`: from a graph and a partition file to the evaluation.

ghost use Rattle.std.specs.Prelude.{◌≡◌, ◌≤◌, MatchResult};
ghost use Rattle.hg_defs.specs.Partition.{IsPartition};
ghost use Rattle.trace_text.specs.Evaluation.{evaluation_text};
ghost use Rattle.part_run.specs.Answers.{inputs_of, outputs_of, port_of, IsSent, IsCutOff};
ghost use Rattle.part_run.specs.Answers.{IsEvaluated, IsEvaluationRefused};
ghost use Rattle.part_run.specs.Reads.{feed_of};
ghost use Rattle.part_run.specs.Spelled.{evaluation_of};

use crate::Status;
use crate::balance::Balance;
use crate::reading::{read_blocks, read_graph};
use crate::words::Evaluation;
use hg_base::FlatHyper;
use hg_io::{Failed, Sink, Source};
use std::alloc::Global;
use std::thread::Threads;
use trace_text::put_evaluation;

/// Evaluates: reads the graph and the partition file, and writes the evaluation to the report.
pub(crate) fn evaluate<H: Threads + Sync, S: Source, X: Source, K: Sink, R: Sink>(
    rt: &H,
    alloc: Global,
    e: &Evaluation<'_>,
    graph: &mut S,
    extra: &mut X,
    out: &mut K,
    report: &mut R,
) -> Result<(), Status>
    ensures answer { let inputs = inputs_of (feed_of (S.left graph.old) (S.faults graph.old))
        (feed_of (X.left extra.old) (X.faults extra.old)) in
        let inputs_after = inputs_of (feed_of (S.left graph.new) (S.faults graph.new))
        (feed_of (X.left extra.new) (X.faults extra.new)) in
        let outputs = outputs_of (port_of (K.got out.old) (K.faults out.old) (K.held out.old))
        (port_of (R.got report.old) (R.faults report.old) (R.held report.old)) in
        let outputs_after = outputs_of (port_of (K.got out.new) (K.faults out.new) (K.held out.new))
        (port_of (R.got report.new) (R.faults report.new) (R.held report.new)) in
        MatchResult result
        (λ _. IsEvaluated (evaluation_of e.now) inputs inputs_after outputs outputs_after)
        (IsEvaluationRefused (evaluation_of e.now) inputs inputs_after outputs outputs_after) }
    ensures graph_later { S.faults graph.old ≤ S.faults graph.new }
    ensures extra_later { X.faults extra.old ≤ X.faults extra.new }
    ensures out_later { K.faults out.old ≤ K.faults out.new }
    ensures report_later { R.faults report.old ≤ R.faults report.new }
{
    let balance = e.balance;
    let mut h = match read_graph(rt, alloc, graph, balance.k, 1) {
        Ok(h) => h,
        Err(status) => return Err(status),
    };
    let blocks = match read_blocks(alloc, extra, h.vertices(), balance.k) {
        Ok(blocks) => blocks,
        Err(status) => return Err(status),
    };
    h.set_objective(e.objective);
    match write_evaluation(report, &h, balance, blocks.slice()) {
        Ok(()) => Ok(()),
        Err(Failed) => Err(Status::WriteFault),
    }
}

/// Writes the evaluation of a partition, and sends it on.
pub(crate) fn write_evaluation<R: Sink>(
    report: &mut R,
    h: &FlatHyper,
    balance: Balance,
    blocks: &[u32],
) -> Result<(), Failed>
    requires partition { IsPartition h.now balance.k blocks.now }
    ensures answer { let old = port_of (R.got report.old) (R.faults report.old) (R.held report.old) in
        let new = port_of (R.got report.new) (R.faults report.new) (R.held report.new) in
        let text = evaluation_text h.now balance.k balance.eps blocks.now in
        MatchResult result (λ _. IsSent old new text) (λ _. IsCutOff old new text) }
    ensures later { R.faults report.old ≤ R.faults report.new }
{
    put_evaluation(report, h, balance.k, balance.eps, blocks)?;
    report.flush()
}
