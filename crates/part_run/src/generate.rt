//! The command `generate`: the text of a made hypergraph.

ghost use Rattle.std.specs.Prelude.{◌≤◌, ◌≢◌, ◌^◌, [], MatchResult};
ghost use Rattle.hg_defs.specs.Hypergraph.{Hyper};
ghost use Rattle.hg_make.specs.Made.{made};
ghost use Rattle.hg_make.specs.Text.{hypergraph_text};
ghost use Rattle.part_run.specs.Answers.{outputs_of, port_of, IsSent, IsCutOff, IsWritten, IsGenerationRefusal};

use crate::Status;
use hg_base::FlatHyper;
use hg_io::{Failed, Sink};
use hg_make::{make, put_hypergraph};
use std::alloc::Global;

/// Writes the text of the hypergraph that is made of `n`.
pub(crate) fn generate<K: Sink, R: Sink>(
    alloc: Global,
    n: u32,
    out: &mut K,
    report: &mut R,
) -> Result<(), Status>
    requires least { 1 ≤ n }
    requires most { n ≤ 2 ^ 22 }
    ensures answer { let outputs = outputs_of (port_of (K.got out.old) (K.faults out.old) (K.held out.old))
        (port_of (R.got report.old) (R.faults report.old) (R.held report.old)) in
        let outputs_after = outputs_of (port_of (K.got out.new) (K.faults out.new) (K.held out.new))
        (port_of (R.got report.new) (R.faults report.new) (R.held report.new)) in
        MatchResult result
        (λ _. IsWritten outputs outputs_after (hypergraph_text (made n)) [])
        (IsGenerationRefusal n outputs outputs_after) }
    ensures out_later { K.faults out.old ≤ K.faults out.new }
    ensures report_later { R.faults report.old ≤ R.faults report.new }
{
    let h = match make(alloc, n) {
        Ok(h) => h,
        Err(_) => return Err(Status::NoMemory),
    };
    match write_hypergraph(out, &h) {
        Ok(()) => Ok(()),
        Err(Failed) => Err(Status::WriteFault),
    }
}

/// Writes the text of a hypergraph, and sends it on.
fn write_hypergraph<K: Sink>(out: &mut K, h: &FlatHyper) -> Result<(), Failed>
    requires { hypergraph_text h.now ≢ [] }
    ensures answer { let old = port_of (K.got out.old) (K.faults out.old) (K.held out.old) in
        let new = port_of (K.got out.new) (K.faults out.new) (K.held out.new) in
        MatchResult result (λ _. IsSent old new (hypergraph_text h.now))
        (λ _. IsCutOff old new (hypergraph_text h.now)) }
    ensures later { K.faults out.old ≤ K.faults out.new }
{
    put_hypergraph(out, h)?;
    out.flush()
}
