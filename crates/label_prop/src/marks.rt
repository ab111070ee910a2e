//! Which vertices are still to be visited: a mark for each.
//!
//! A round visits the marked vertices alone, and all others would gain no more than they did. Whoever visits a
//! vertex takes its mark away before it reads anything, and whoever moves one marks those around it that may gain
//! by that afterwards. Where two workers bring a net to a new block at once, neither may see it: what is missed so
//! is found when the whole partition is asked whether it is settled.

ghost use Rattle.std.specs.Prelude.{◌≡◌, ◌<◌, All, IfOk, length};
ghost use Rattle.hg_defs.specs.Hypergraph.{vertex_count};
ghost use Rattle.label_prop.specs.Workers.{IsIdlePass};

use crate::shared::Shared;
use hg_base::{Move, NoMemory, Objective};
use incidence::Hypergraph;
use move_table::Pass;
use std::alloc::Global;
use std::sync::atomic::AtomicBool;
use std::sync::atomic::Ordering::SeqCst;

/// Nets of more pins are passed over: where one of their pins moves, little changes for the others.
const MOST_PINS: usize = 1000;

/// A mark for each vertex, all of which are set.
pub(crate) fn all_marked(alloc: Global, h: &Hypergraph) -> Result<Vec<AtomicBool>, NoMemory>
    ensures { IfOk result (λ marks. length marks.items ≡ vertex_count h.now) }
{
    let vertices = h.vertices();
    let mut marks = Vec::with_capacity(alloc, vertices as usize)?;
    for _v in 0..vertices {
        marks.push(AtomicBool::new(true))?;
    }
    Ok(marks)
}

/// Marks all vertices.
pub(crate) fn mark_all(marks: &[AtomicBool]) {
    for mark in marks {
        mark.store(true, SeqCst);
    }
}

/// Marks the pins of a net. A mark is read first, since most are set already, and to set one takes longer.
fn mark_pins(marks: &[AtomicBool], pins: &[u32])
    requires { All (λ v. v < length marks.now) pins.now }
{
    for v in pins {
        let mark = &marks[*v as usize];
        if !mark.load(SeqCst) {
            mark.store(true, SeqCst);
        }
    }
}

/// Marks the pins of a vertex's nets, but for large ones.
fn mark_around(h: &Hypergraph, marks: &[AtomicBool], v: u32)
    requires vertex { v < vertex_count h.now }
    requires marks { length marks.now ≡ vertex_count h.now }
{
    for e in h.nets_of(v) {
        let pins = h.pins(*e);
        if pins.len() <= MOST_PINS {
            mark_pins(marks, pins);
        }
    }
}

/// Whether other pins of a net of `size` pins may gain more since one of them went from a block that has `old` of
/// them now to one that has `new`: all others as their net came to a new block, the one that was left
/// behind alone, and where a net pays for being cut the last one that the new block lacks.
fn stirs(objective: Objective, old: u64, new: u64, size: usize) -> bool {
    let last = new.wrapping_add(1) == size as u64 && objective != Objective::Connectivity;
    old == 1 || new <= 1 || last
}

/// Marks the vertices that may gain more since a vertex went from a block to another, by the counts of its nets as
/// they are peeked now. The pins of large nets are left as they are, and the one pin of a net is the vertex itself.
#[tactic(auto, using(crate::proofs::IdleLaws::peeked))]
pub(crate) fn mark_stirred(shared: &Shared<'_>, pass: &mut Pass, v: u32, from: u32, to: u32)
    requires vertex { v < vertex_count shared.now.h.now }
    requires from { from < shared.now.k }
    requires to { to < shared.now.k }
    requires pass { IsIdlePass shared.now.round.now pass.old.view.number pass.old }
    ensures { IsIdlePass shared.now.round.now pass.old.view.number pass.new }
{
    let (round, h) = (shared.round, shared.h);
    let objective = h.objective();
    for e in h.nets_of(v) {
        let pins = h.pins(*e);
        if pins.len() < 2 || pins.len() > MOST_PINS {
            continue;
        }
        let old = pass.peek_count(round, *e, from);
        let new = pass.peek_count(round, *e, to);
        if stirs(objective, old, new, pins.len()) {
            mark_pins(shared.marks, pins);
        }
    }
}

/// Marks the vertices around the moves behind the first `kept` ones, which were undone.
pub(crate) fn mark_undone(h: &Hypergraph, marks: &[AtomicBool], moves: &[Move], kept: u32)
    requires vertices { All (λ m. m.vertex < vertex_count h.now) moves.now }
    requires marks { length marks.now ≡ vertex_count h.now }
{
    for (i, step) in moves.iter().enumerate() {
        if i >= kept as usize {
            mark_around(h, marks, step.vertex);
        }
    }
}
