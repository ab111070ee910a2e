//! A worker: how it visits the vertices of its run, and what is left of the others.

ghost use Rattle.std.specs.Prelude.{◌≡◌, ◌<◌, ◌≤◌};
ghost use Rattle.hg_defs.specs.Hypergraph.{vertex_count};
ghost use Rattle.label_prop.specs.Workers.{IsIdlePass};

use crate::marks::mark_stirred;
use crate::scores::Scores;
use crate::shared::Shared;
use crew::{Gate, span_of};
use hg_base::{FREE, NoMemory};
use move_table::Pass;
use std::sync::atomic::Ordering::SeqCst;

/// A worker takes so many vertices of a run at once.
const SHARE: usize = 256;

/// Whether a block seems to have room for a vertex. Other workers may be there first, and a vertex that is told
/// otherwise makes no step on the load, which all of them share.
#[tactic(auto, using(crate::proofs::IdleLaws::peeked))]
fn has_room(shared: &Shared<'_>, pass: &mut Pass, v: u32, to: u32) -> bool
    requires vertex { v < vertex_count shared.now.h.now }
    requires block { to < shared.now.k }
    requires pass { IsIdlePass shared.now.round.now pass.old.view.number pass.old }
    ensures { IsIdlePass shared.now.round.now pass.old.view.number pass.new }
{
    let load = pass.peek_weight(shared.round, to);
    load.saturating_add(shared.h.vertex_weight(v)) <= shared.limit
}

/// Visits a vertex: a free one goes to the block where it saves most, if there is room, and those who may gain by
/// that are marked. If there is none, it is marked itself, and the next round tries again.
fn visit(shared: &Shared<'_>, pass: &mut Pass, scores: &mut Scores, v: u32) -> Result<(), NoMemory>
    requires blocks { scores.old.k ≡ shared.now.k }
    requires pass { IsIdlePass shared.now.round.now pass.old.view.number pass.old }
    requires vertex { v < vertex_count shared.now.h.now }
    ensures blocks { scores.new.k ≡ scores.old.k }
    ensures pass { IsIdlePass shared.now.round.now pass.old.view.number pass.new }
{
    let (round, h) = (shared.round, shared.h);
    if h.fix(v) != FREE {
        return Ok(());
    }
    let Some(to) = scores.best_block(round, pass, h, v) else {
        return Ok(());
    };
    if !has_room(shared, pass, v, to) {
        shared.marks[v as usize].store(true, SeqCst);
        return Ok(());
    }
    if !pass.claim(round, v) {
        return Ok(());
    }
    pass.room()?;
    match pass.reserve(round, v, to) {
        Ok(grant) => {
            pass.carry(round, grant);
            mark_stirred(shared, pass, v, round.opening(v), to);
        }
        Err(_) => {
            pass.unclaim(round, v);
            shared.marks[v as usize].store(true, SeqCst);
        }
    }
    Ok(())
}

/// Visits the marked vertices from one number up to before another one, in rising number, and passes the gate before
/// each. Where there is no memory, or another worker has said so, it stops.
fn visit_share<G: Gate>(
    shared: &Shared<'_>,
    pass: &mut Pass,
    gate: &G,
    scores: &mut Scores,
    turn: &mut u64,
    from: u32,
    to: u32,
) -> Result<(), NoMemory>
    requires blocks { scores.old.k ≡ shared.now.k }
    requires pass { IsIdlePass shared.now.round.now pass.old.view.number pass.old }
    requires within { to ≤ vertex_count shared.now.h.now }
    ensures blocks { scores.new.k ≡ scores.old.k }
    ensures pass { IsIdlePass shared.now.round.now pass.old.view.number pass.new }
{
    let number = pass.number();
    for v in from..to {
        let mark = &shared.marks[v as usize];
        if !mark.load(SeqCst) {
            continue;
        }
        if shared.refused.load(SeqCst) {
            return Err(NoMemory);
        }
        gate.pass(number, *turn);
        *turn = turn.wrapping_add(1);
        mark.store(false, SeqCst);
        visit(shared, pass, scores, v)?;
    }
    Ok(())
}

/// Takes shares of a run, one after the other, until all of it is taken, and visits their marked vertices.
fn visit_shares<G: Gate>(
    shared: &Shared<'_>,
    pass: &mut Pass,
    gate: &G,
    scores: &mut Scores,
    turn: &mut u64,
    run: u32,
) -> Result<(), NoMemory>
    requires blocks { scores.old.k ≡ shared.now.k }
    requires pass { IsIdlePass shared.now.round.now pass.old.view.number pass.old }
    requires run { run < shared.now.workers }
    ensures blocks { scores.new.k ≡ scores.old.k }
    ensures pass { IsIdlePass shared.now.round.now pass.old.view.number pass.new }
{
    let span = span_of(shared.h.vertices(), shared.workers, run);
    let (first, end) = (span.from as usize, span.to as usize);
    for _ in span.from..span.to {
        let from = shared.taken[run as usize]
            .fetch_add(SHARE, SeqCst)
            .saturating_add(first);
        if from >= end {
            return Ok(());
        }
        let to = from.saturating_add(SHARE).min(end);
        visit_share(shared, pass, gate, scores, turn, from as u32, to as u32)?;
    }
    Ok(())
}

/// Visits the marked vertices of a worker's run in rising number, and then those of other runs that nobody has taken
/// yet, since not all processors are equally fast. It passes the gate before each. Where there is no memory, it says
/// so to the others; where another worker has said so, it stops.
pub(crate) fn visit_run<G: Gate>(shared: &Shared<'_>, pass: &mut Pass, gate: &G, worker: u32)
    requires pass { IsIdlePass shared.now.round.now pass.old.view.number pass.old }
    requires worker { worker < shared.now.workers }
    ensures { IsIdlePass shared.now.round.now pass.old.view.number pass.new }
{
    let mut scores = Scores::new(shared.k);
    let mut turn = 0u64;
    for others in 0..shared.workers {
        let mut run = worker + others;
        if run >= shared.workers {
            run -= shared.workers;
        }
        if visit_shares(shared, pass, gate, &mut scores, &mut turn, run).is_err() {
            shared.refused.store(true, SeqCst);
            return;
        }
    }
}
