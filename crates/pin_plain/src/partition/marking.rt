//! The marks with which the first sweep begins: threads look for the vertices that need no visit.

ghost use Rattle.std.specs.Prelude.{◌≡◌, ℕ, ◌+◌, ◌<◌, ◌≤◌, List, IfOk, length};
ghost use Rattle.hg_defs.specs.Hypergraph.{vertex_count, IsWithinLimits};
ghost use Rattle.pin_plain.specs.Quiet.{AreQuiet, AreQuietFrom};

use crate::partition::Partition;
use crate::scores::Scores;
use crew::each_chunk;
use hg_base::NoMemory;
use incidence::Hypergraph;
use std::alloc::Global;
use std::thread::Threads;

/// There is a thread more for each so many vertices or nets: to start it takes as long as to look at a thousand vertices
/// of few nets, and the few vertices of a coarse level have many.
const LEAST_ITEMS: u32 = 4096;

/// A mark for each vertex, and none is marked.
pub(super) fn unmarked(alloc: Global, h: &Hypergraph) -> Result<Vec<bool>, NoMemory>
    ensures count { IfOk result (λ marks. length marks.items ≡ vertex_count h.now) }
    ensures quiet { IfOk result (λ marks. (k : ℕ) (p : List ℕ) → AreQuiet h.now k p marks.items) }
    ensures bounds { IsWithinLimits h.now }
{
    Ok(vec![in alloc; false; h.vertices() as usize]?)
}

/// Marks those of the vertices from a first one on that are quiet.
fn mark_run(h: &Hypergraph, p: &Partition, first: usize, marks: &mut [bool])
    requires belongs { p.now.hyper ≡ h.now }
    requires vertices { first + length marks.old ≤ vertex_count h.now }
    ensures { AreQuietFrom h.now p.now.k p.now.blocks first (length marks.old) marks.new }
{
    let _vertices = h.vertices();
    let mut scores = Scores::new();
    for i in 0..marks.len() {
        marks[i] = scores.seek(&p.lend(h), (first + i) as u32).quiet;
    }
}

/// Marks the quiet vertices, so many by each thread.
fn mark_runs<R: Threads + Sync>(
    rt: &R,
    h: &Hypergraph,
    p: &Partition,
    share: usize,
    marks: &mut [bool],
)
    requires belongs { p.now.hyper ≡ h.now }
    requires some { 0 < share }
    requires all { length marks.old ≡ vertex_count h.now }
    ensures { AreQuiet h.now p.now.k p.now.blocks marks.new }
{
    each_chunk(
        rt,
        marks,
        share,
        &|first: usize, part: &mut [bool]|
            requires { (first + length part.now ≤ vertex_count h.now) × (p.now.hyper ≡ h.now) }
            ensures { AreQuietFrom h.entry.now p.entry.now.k p.entry.now.blocks first (length part.entry.now)
                part.exit.now }
        { mark_run(h, p, first, part) },
    );
}

/// A mark for each vertex, and those that are marked are quiet. Threads look for them, each in a run of the
/// vertices, of which there are no more than workers.
///
/// A single thread marks none: the sweep that follows looks at the vertices anyway.
pub(super) fn quiet_marks<R: Threads + Sync>(
    rt: &R,
    alloc: Global,
    h: &Hypergraph,
    p: &Partition,
    workers: u32,
) -> Result<Vec<bool>, NoMemory>
    requires belongs { p.now.hyper ≡ h.now }
    requires some { 1 ≤ workers }
    ensures quiet { IfOk result (λ marks. AreQuiet h.now p.now.k p.now.blocks marks.items) }
    ensures bounds { IsWithinLimits h.now }
{
    let mut marks = unmarked(alloc, h)?;
    let threads = workers.min(h.vertices().max(h.nets()) / LEAST_ITEMS + 1);
    if threads == 1 {
        return Ok(marks);
    }
    let share = h.vertices().div_ceil(threads).max(1);
    mark_runs(rt, h, p, share as usize, marks.as_mut_slice());
    Ok(marks)
}
