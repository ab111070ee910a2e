ghost use Rattle.std.specs.Prelude.{◌≡◌, All, length, suc};
ghost use Rattle.hg_io.specs.Faults.{HasCause};
ghost use Rattle.hg_io.specs.Transfers.{PutsAll, Writes};
ghost use Rattle.hg_defs.specs.Partition.{IsPartition};
ghost use Rattle.hg_defs.specs.Cost.{cost};
ghost use Rattle.hg_defs.specs.LeastLoaded.{greedy as greedy_placement};
ghost use Rattle.trace_text.specs.Report.{IsPrintable, IsJob, chosen_text, cycle_text, cycles_text};
ghost use Rattle.trace_text.specs.Report.{asked_text, descent_text, report_text, last_cost};

use crate::fields::{Field, put_fields};
use crate::first::first_cost;
use crate::lines::{put_line, put_loads, put_objective, put_sizes};
use crate::loads::sum_loads;
use crate::rounds::{put_refined, put_swept};
use exact_cost::cost_with;
use hg_base::{FlatHyper, limit_of};
use hg_io::{Failed, Pen, Sink};
use incidence::Hypergraph;
use round_log::{Chosen, Job, LoggedRound, Trace, TraceList};
use std::thread::Threads;

/// Writes the report of a run: what it was asked, the cost of greedy placement, which is `greedy`, the
/// levels, every round of the descent and of the cycles, and the exact cost and the loads of `blocks`,
/// which has one block below `job.k` for each vertex.
///
/// The clusterings of each trace lead from `h` to the level of its first partition, whose cost is
/// printed: it is that on `h` of the partition carried down, and so no level is built. The costs are
/// summed by at most `job.workers` threads. It takes no memory over a sink that takes none.
pub fn put_report<H: Threads + Sync, K: Sink>(
    rt: &H,
    sink: &mut K,
    h: &Hypergraph,
    job: &Job,
    greedy: u64,
    trace: &Trace,
    cycles: &TraceList,
    blocks: &[u32],
) -> Result<(), Failed>
    requires job { IsJob job.now }
    requires partition { IsPartition h.now job.now.k blocks.now }
    requires greedy { greedy ≡ cost h.now (greedy_placement h.now job.now.k) }
    requires trace { IsPrintable h.now job.now.k trace.now }
    requires cycles { All (IsPrintable h.now job.now.k) cycles.now }
    ensures bytes { PutsAll (K.got sink.old) (K.got sink.new) result
        (report_text h.now job.now trace.now cycles.now blocks.now) }
    ensures cause { HasCause (K.faults sink.old) (K.faults sink.new) result }
{
    let flat = h.flat();
    let all_loads = sum_loads(flat, blocks);
    let mut pen = Pen::new();
    put_asked(&mut pen, sink, flat, job, greedy)?;
    put_descent(rt, &mut pen, sink, flat, trace, job.workers)?;
    put_cycles(rt, &mut pen, sink, flat, cycles.slice(), job.workers)?;
    let cost = cost_with(rt, flat, blocks, job.k, job.workers);
    put_line(&mut pen, sink, b"cost ", cost)?;
    put_loads(&mut pen, sink, &all_loads[..job.k as usize])?;
    pen.end(sink)
}

/// What the run was asked, and the cost of greedy placement.
fn put_asked<K: Sink>(
    pen: &mut Pen,
    sink: &mut K,
    h: &FlatHyper,
    job: &Job,
    greedy: u64,
) -> Result<(), Failed>
    requires job { IsJob job.now }
    requires greedy { greedy ≡ cost h.now (greedy_placement h.now job.now.k) }
    ensures bytes { Writes (K.got sink.old) (K.got sink.new) pen.old pen.new result (asked_text h.now job.now) }
    ensures cause { HasCause (K.faults sink.old) (K.faults sink.new) result }
{
    let _vertices = h.vertices();
    let limit = limit_of(h.total_weight(), job.k, job.eps);
    put_sizes(pen, sink, h, job.k, limit)?;
    put_line(pen, sink, b"seed ", job.seed)?;
    put_line(pen, sink, b"workers ", u64::from(job.workers))?;
    put_objective(pen, sink, h.objective())?;
    put_line(pen, sink, b"greedy ", greedy)
}

/// The levels, the first partition and the rounds of a descent.
fn put_descent<H: Threads + Sync, K: Sink>(
    rt: &H,
    pen: &mut Pen,
    sink: &mut K,
    h: &FlatHyper,
    trace: &Trace,
    workers: u32,
) -> Result<(), Failed>
    requires { IsPrintable h.now 256 trace.now }
    ensures bytes { Writes (K.got sink.old) (K.got sink.new) pen.old pen.new result (descent_text h.now trace.now) }
    ensures cause { HasCause (K.faults sink.old) (K.faults sink.new) result }
{
    put_line(pen, sink, b"levels ", level_count(trace))?;
    put_line(pen, sink, b"start ", u64::from(trace.start))?;
    put_line(pen, sink, b"first ", first_cost(rt, h, trace, workers))?;
    put_refined(pen, sink, trace.rounds.slice())?;
    put_chosen(pen, sink, trace.chosen)?;
    put_swept(pen, sink, trace.rounds.slice())
}

/// How many hypergraphs there are, that of the file included.
fn level_count(trace: &Trace) -> u64
    ensures { result ≡ suc (length trace.now.maps) }
{
    trace.maps.slice().len() as u64 + 1
}

fn put_chosen<K: Sink>(pen: &mut Pen, sink: &mut K, chosen: Chosen) -> Result<(), Failed>
    ensures bytes { Writes (K.got sink.old) (K.got sink.new) pen.old pen.new result (chosen_text chosen) }
    ensures cause { HasCause (K.faults sink.old) (K.faults sink.new) result }
{
    match chosen {
        Chosen::Levels => pen.write(sink, b"chosen levels\n"),
        Chosen::Greedy => pen.write(sink, b"chosen greedy\n"),
    }
}

fn put_cycles<H: Threads + Sync, K: Sink>(
    rt: &H,
    pen: &mut Pen,
    sink: &mut K,
    h: &FlatHyper,
    cycles: &[Trace],
    workers: u32,
) -> Result<(), Failed>
    requires { All (IsPrintable h.now 256) cycles.now }
    ensures bytes { Writes (K.got sink.old) (K.got sink.new) pen.old pen.new result (cycles_text h.now cycles.now) }
    ensures cause { HasCause (K.faults sink.old) (K.faults sink.new) result }
{
    'cycles: for (i, cycle) in cycles.iter().enumerate() {
        put_cycle(rt, pen, sink, h, i as u64 + 1, cycle, workers)?;
    }
    Ok(())
}

/// The costs before and after a cycle, and its rounds.
fn put_cycle<H: Threads + Sync, K: Sink>(
    rt: &H,
    pen: &mut Pen,
    sink: &mut K,
    h: &FlatHyper,
    number: u64,
    cycle: &Trace,
    workers: u32,
) -> Result<(), Failed>
    requires { IsPrintable h.now 256 cycle.now }
    ensures bytes { Writes (K.got sink.old) (K.got sink.new) pen.old pen.new result
        (cycle_text h.now (number, cycle.now)) }
    ensures cause { HasCause (K.faults sink.old) (K.faults sink.new) result }
{
    let before = first_cost(rt, h, cycle, workers);
    let fields = [
        Field {
            label: b"cycle ",
            value: number,
        },
        Field {
            label: b" levels ",
            value: level_count(cycle),
        },
        Field {
            label: b" before ",
            value: before,
        },
        Field {
            label: b" after ",
            value: last_cost(before, cycle.rounds.slice()),
        },
    ];
    put_fields(pen, sink, &fields)?;
    pen.write(sink, b"\n")?;
    put_refined(pen, sink, cycle.rounds.slice())?;
    put_swept(pen, sink, cycle.rounds.slice())
}

/// The cost after the last round, or where there is none the first cost.
fn last_cost(first: u64, rounds: &[LoggedRound]) -> u64
    ensures { result ≡ last_cost first rounds.now }
{
    match rounds.last() {
        Some(round) => round.after,
        None => first,
    }
}
