//! The wishes of all vertices in one partition.

ghost use Rattle.std.specs.Prelude.{◌≡◌, ℕ, ◌+◌, ◌-◌, ◌<◌, ◌≤◌, IfOk, length, slice_index_or, vec_len};
ghost use Rattle.std.specs.List.{range_with_len};
ghost use Rattle.std.specs.List.Sorted.{IsPermutation, IsSorted};
ghost use Rattle.hg_defs.specs.Hypergraph.{vertex_count, vertices};
ghost use Rattle.pin_plain.specs.BestMoves.{best_moves};
ghost use Rattle.det_sync.specs.CutNets.{AreCutMarks};
ghost use Rattle.det_sync.specs.Wishes.{AreWishes, AreCuts, part_at, wish_cmp};

use crate::cut::{cut_marks, held_between};
use crew::each;
use hg_base::NoMemory;
use incidence::Hypergraph;
use pin_plain::{BestMove, Partition};
use rayon::prelude::par_sort_unstable;
use std::alloc::{AllocError, Global};
use std::thread::Threads;

/// The wishes of some of the vertices, or no memory to tell them.
type PartWishes = Result<Vec<BestMove>, NoMemory>;

/// A part has vertices on so many nets at least, but for the last one: to start a thread costs as much
/// as to look at them.
const LEAST_NETS: usize = 1024;

/// Each of several workers has so many parts, since one may take longer than another.
const MOST_PARTS: u32 = 2;

/// On how many nets the vertices are, each counted for each of its vertices.
fn pin_count(h: &Hypergraph) -> usize {
    let mut pins = 0usize;
    for v in 0..h.vertices() {
        pins = pins.saturating_add(h.nets_of(v).len());
    }
    pins
}

/// Where the vertices are cut into parts, from 0 to their number: into one part for a single worker, and
/// two for each of several, whose vertices are on about as many nets as those of another one.
pub(crate) fn cuts_of(alloc: Global, h: &Hypergraph, workers: u32) -> Result<Vec<u32>, AllocError>
    requires some { 1 ≤ workers }
    ensures { IfOk result (λ cuts. AreCuts (vertex_count h.now) cuts.items) }
{
    let parts = workers as usize * workers.min(MOST_PARTS) as usize;
    let share = pin_count(h).div_ceil(parts).max(LEAST_NETS);
    let mut cuts = Vec::new(alloc);
    cuts.push(0)?;
    let mut pins = 0usize;
    for v in 0..h.vertices() {
        if pins >= share {
            cuts.push(v)?;
            pins = 0;
        }
        pins = pins.saturating_add(h.nets_of(v).len());
    }
    cuts.push(h.vertices())?;
    Ok(cuts)
}

/// The wishes of the vertices from a first one on, and before an end. Only those that cut nets hold are
/// asked, since a vertex whose nets lie in its block can save nothing.
fn part_wishes(
    alloc: Global,
    h: &Hypergraph,
    p: &Partition,
    marks: &[bool],
    first: u32,
    end: u32,
) -> PartWishes
    requires belongs { p.now.hyper ≡ h.now }
    requires marks { AreCutMarks h.now p.now.blocks marks.now }
    requires ordered { first ≤ end }
    requires within { end ≤ vertex_count h.now }
    ensures { IfOk result (λ wishes. wishes.items ≡ best_moves h.now p.now.k p.now.limit p.now.blocks
        (range_with_len first (end - first))) }
{
    let _parted = p.blocks();
    let held = held_between(alloc, h, marks, first, end)?;
    p.best_moves(alloc, h, held.as_slice())
}

/// No wishes yet for each of so many parts.
fn no_wishes(alloc: Global, parts: usize) -> Result<Vec<PartWishes>, NoMemory>
    ensures { IfOk result (λ made. vec_len made ≡ parts) }
{
    let mut made = Vec::with_capacity(alloc, parts)?;
    for _ in 0..parts {
        made.push(Ok(Vec::new(alloc)))?;
    }
    Ok(made)
}

/// Writes the wishes of part `j` down.
fn fill_part(
    alloc: Global,
    h: &Hypergraph,
    p: &Partition,
    marks: &[bool],
    cuts: &[u32],
    j: usize,
    part: &mut PartWishes,
)
    requires belongs { p.now.hyper ≡ h.now }
    requires marks { AreCutMarks h.now p.now.blocks marks.now }
    requires cuts { AreCuts (vertex_count h.now) cuts.now }
    requires part { j + 1 < length cuts.now }
    ensures { IfOk part.new (λ wishes. wishes.items ≡ best_moves h.now p.now.k p.now.limit p.now.blocks
        (part_at cuts.now j)) }
{
    *part = part_wishes(alloc, h, p, marks, cuts[j], cuts[j + 1]);
}

/// The wishes of the vertices of each part, in a thread of its own.
fn wishes_by_part<R: Threads + Sync>(
    rt: &R,
    alloc: Global,
    h: &Hypergraph,
    p: &Partition,
    marks: &[bool],
    cuts: &[u32],
) -> Result<Vec<PartWishes>, NoMemory>
    requires belongs { p.now.hyper ≡ h.now }
    requires marks { AreCutMarks h.now p.now.blocks marks.now }
    requires cuts { AreCuts (vertex_count h.now) cuts.now }
    ensures whole { IfOk result (λ parts. vec_len parts + 1 ≡ length cuts.now) }
    ensures parts { IfOk result (λ parts. (j : ℕ) (d : _) → j < vec_len parts
        → IfOk (slice_index_or parts.items j d) (λ wishes. wishes.items ≡ best_moves h.now p.now.k p.now.limit
        p.now.blocks (part_at cuts.now j))) }
{
    let mut parts = no_wishes(alloc, cuts.len() - 1)?;
    each(
        rt,
        parts.as_mut_slice(),
        &|j: usize, part: &mut PartWishes|
            requires { (j + 1 < length cuts.now)
                × AreCuts (vertex_count h.now) cuts.now
                × AreCutMarks h.now p.now.blocks marks.now
                × (p.now.hyper ≡ h.now) }
            ensures { IfOk part.exit.now (λ wishes. wishes.items ≡ best_moves h.entry.now p.entry.now.k
                p.entry.now.limit p.entry.now.blocks (part_at cuts.entry.now j)) }
        { fill_part(alloc, h, p, marks, cuts, j, part) },
    );
    Ok(parts)
}

/// The wishes of all vertices, in rising number.
///
/// What a vertex wishes follows from the partition alone, so that neither a schedule nor where the
/// vertices are cut into parts shows.
fn all_wishes<R: Threads + Sync>(
    rt: &R,
    alloc: Global,
    h: &Hypergraph,
    p: &Partition,
    marks: &[bool],
    cuts: &[u32],
) -> Result<Vec<BestMove>, NoMemory>
    requires belongs { p.now.hyper ≡ h.now }
    requires marks { AreCutMarks h.now p.now.blocks marks.now }
    requires cuts { AreCuts (vertex_count h.now) cuts.now }
    ensures { IfOk result (λ wishes. wishes.items ≡ best_moves h.now p.now.k p.now.limit p.now.blocks
        (vertices h.now)) }
{
    let parts = wishes_by_part(rt, alloc, h, p, marks, cuts)?;
    let mut wishes = Vec::new(alloc);
    for part in parts.as_slice() {
        match part {
            Ok(part) => wishes.extend_from_slice(part.as_slice())?,
            Err(none) => return Err(*none),
        }
    }
    Ok(wishes)
}

/// Sorts wishes: those that would save most first, and of those that would save as much that of the lowest
/// vertex first. A single worker starts no thread.
fn sort_wishes<R: Threads + Sync>(rt: &R, wishes: &mut [BestMove], workers: u32)
    ensures permutation { IsPermutation wishes.old wishes.new }
    ensures len { length wishes.new ≡ length wishes.old }
    ensures sorted { IsSorted wish_cmp wishes.new }
{
    if workers == 1 {
        wishes.sort_unstable();
    } else {
        par_sort_unstable(rt, wishes);
    }
}

/// The wishes of all vertices in a partition: those that would save most first, and of those that
/// would save as much that of the lowest vertex first. There are 1 to 64 workers.
pub(crate) fn wishes_of<R: Threads + Sync>(
    rt: &R,
    alloc: Global,
    h: &Hypergraph,
    p: &Partition,
    cuts: &[u32],
    workers: u32,
) -> Result<Vec<BestMove>, NoMemory>
    requires belongs { p.now.hyper ≡ h.now }
    requires cuts { AreCuts (vertex_count h.now) cuts.now }
    requires some { 1 ≤ workers }
    ensures { IfOk result (λ wishes. AreWishes h.now p.now.k p.now.limit p.now.blocks wishes.items) }
{
    let _parted = p.blocks();
    let marks = cut_marks(rt, alloc, h, p, workers)?;
    let mut wishes = all_wishes(rt, alloc, h, p, marks.as_slice(), cuts)?;
    sort_wishes(rt, wishes.as_mut_slice(), workers);
    Ok(wishes)
}
