//! The vertices on cut nets: all others have no wish.

ghost use Rattle.std.specs.Prelude.{◌≡◌, ◌+◌, ◌-◌, ◌<◌, ◌≤◌, IfOk, length, filter};
ghost use Rattle.std.specs.List.{range_with_len};
ghost use Rattle.hg_defs.specs.Hypergraph.{vertex_count, net_count};
ghost use Rattle.det_sync.specs.CutNets as cuts;
ghost use Rattle.det_sync.specs.CutNets.{is_cut, AreCutFrom, AreCutMarks};

use crew::each_chunk;
use hg_base::NoMemory;
use incidence::Hypergraph;
use pin_plain::Partition;
use std::alloc::{AllocError, Global};
use std::thread::Threads;

/// A thread looks at so many nets at least: to start it costs as much.
const LEAST_NETS: u32 = 8192;

/// Whether a net touches two blocks or more.
///
/// The count of one pin's block tells it, however many pins there are.
fn touches_two(h: &Hypergraph, p: &Partition, e: u32) -> bool
    requires belongs { p.now.hyper ≡ h.now }
    requires net { e < net_count h.now }
    ensures { result ≡ is_cut h.now p.now.blocks e }
{
    let pins = h.pins(e);
    let blocks = p.blocks();
    let Some(v) = pins.first() else {
        return false;
    };
    (p.count(e, blocks[*v as usize]) as usize) < pins.len()
}

/// Marks those of the nets from a first one on that are cut.
fn mark_cut(h: &Hypergraph, p: &Partition, first: usize, marks: &mut [bool])
    requires belongs { p.now.hyper ≡ h.now }
    requires nets { first + length marks.old ≤ net_count h.now }
    ensures { AreCutFrom h.now p.now.blocks first (length marks.old) marks.new }
{
    let _nets = h.nets();
    for i in 0..marks.len() {
        marks[i] = touches_two(h, p, (first + i) as u32);
    }
}

/// A mark for each net, and those of the cut nets are set. Threads look for them, each in a run of the
/// nets, of which there are no more than workers.
pub(crate) fn cut_marks<R: Threads + Sync>(
    rt: &R,
    alloc: Global,
    h: &Hypergraph,
    p: &Partition,
    workers: u32,
) -> Result<Vec<bool>, AllocError>
    requires belongs { p.now.hyper ≡ h.now }
    requires some { 1 ≤ workers }
    ensures { IfOk result (λ marks. AreCutMarks h.now p.now.blocks marks.items) }
{
    let mut marks = vec![in alloc; false; h.nets() as usize]?;
    let share = h.nets().div_ceil(workers).max(LEAST_NETS) as usize;
    each_chunk(
        rt,
        marks.as_mut_slice(),
        share,
        &|first: usize, part: &mut [bool]|
            requires { (first + length part.now ≤ net_count h.now) × (p.now.hyper ≡ h.now) }
            ensures { AreCutFrom h.entry.now p.entry.now.blocks first (length part.entry.now) part.exit.now }
        { mark_cut(h, p, first, part) },
    );
    Ok(marks)
}

/// Whether one of the marked nets holds a vertex.
fn is_held(h: &Hypergraph, marks: &[bool], v: u32) -> bool
    requires vertex { v < vertex_count h.now }
    requires marks { length marks.now ≡ net_count h.now }
    ensures { result ≡ cuts.is_held h.now marks.now v }
{
    h.nets_of(v).iter().any(|e| marks[*e as usize])
}

/// The vertices from a first one on, and before an end, that marked nets hold, in rising number.
pub(crate) fn held_between(
    alloc: Global,
    h: &Hypergraph,
    marks: &[bool],
    first: u32,
    end: u32,
) -> Result<Vec<u32>, AllocError>
    requires marks { length marks.now ≡ net_count h.now }
    requires ordered { first ≤ end }
    requires within { end ≤ vertex_count h.now }
    ensures { IfOk result (λ held. held.items ≡ filter (cuts.is_held h.now marks.now)
        (range_with_len first (end - first))) }
{
    let mut held = Vec::with_capacity(alloc, (end - first) as usize)?;
    for v in first..end {
        if !is_held(h, marks, v) {
            continue;
        }
        held.push(v)?;
    }
    Ok(held)
}
