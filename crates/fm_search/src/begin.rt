//! How a round of searches begins: what its vertices may do is read while its words are copied.

ghost use Rattle.std.specs.Prelude.{◌≡◌, ◌+◌, ◌<◌, ◌≤◌, ◌^◌, All, IfOk, OnOk, length, vec_len};
ghost use Rattle.hg_defs.specs.Hypergraph.{vertex_count};
ghost use Rattle.hg_defs.specs.Partition.{Fits};
ghost use Rattle.hg_defs.specs.Cost as costs;
ghost use Rattle.move_table.specs.Calls.{AreFresh};
ghost use Rattle.move_table.specs.Standing.{IsTerms};
ghost use Rattle.fm_search.specs.Opened.{IsBelow};

use crate::cells::{Cell, start_of};
use crate::opening::{LEAST_NETS, Opening, read_marked, read_own};
use crate::openings::Openings;
use crate::seeds::{blank_marks, cut_marks, mark_all, marked, united};
use hg_base::NoMemory;
use incidence::Hypergraph;
use move_table::{Begun, Passes, Round, Terms};
use pin_plain::Partition;
use std::alloc::Global;
use std::thread::Threads;

/// To read what a vertex may do takes as long as to copy the words of so many.
const VERTICES_A_READING: u64 = 10;

/// To read a vertex's whole row takes as long as to copy the words of so many.
const VERTICES_A_ROW: u64 = 30;

/// What a round begins with, and the marked places.
fn begin_and_list(alloc: Global, terms: &Terms, cut: &[bool]) -> Result<(Begun, Vec<u32>), NoMemory>
    requires over { IsTerms terms.now }
    requires marks { length cut.now < 2 ^ 32 }
    ensures begun { IfOk result (λ r. r.0.terms ≡ terms.now) }
    ensures below { IfOk result (λ r. All (λ v. v < length cut.now) r.1.items) }
    ensures few { IfOk result (λ r. vec_len r.1 ≤ length cut.now) }
{
    let begun = Begun::new(alloc, terms)?;
    let seeds = marked(alloc, cut)?;
    Ok((begun, seeds))
}

/// Reads what the marked vertices may do by at most one thread fewer than there are workers, which this one starts. It
/// copies the words of the round and lists the marked vertices meanwhile, and then reads those of them from a first one
/// on.
fn read_beside<H: Threads + Sync>(
    rt: &H,
    alloc: Global,
    h: &Hypergraph,
    terms: &Terms,
    cut: &[bool],
    first: usize,
    all: &mut [Opening],
    rows: &mut [Cell],
) -> Result<(Begun, Vec<u32>), NoMemory>
    requires belongs { terms.now.part.hyper ≡ h.now }
    requires over { IsTerms terms.now }
    requires workers { 2 ≤ terms.now.workers }
    requires marks { length cut.now ≡ vertex_count h.now }
    requires long { length all.old ≡ vertex_count h.now }
    requires first { first ≤ length all.old }
    requires below { All (IsBelow terms.now.part.k) all.old }
    ensures long { length all.new ≡ length all.old }
    ensures below { All (IsBelow terms.now.part.k) all.new }
    ensures begun { IfOk result (λ r. r.0.terms ≡ terms.now) }
    ensures seeds { IfOk result (λ r. All (λ v. v < length cut.now) r.1.items) }
    ensures few { IfOk result (λ r. vec_len r.1 ≤ length cut.now) }
{
    let _blocks = terms.part.blocks();
    let _vertices = h.vertices();
    let threads = terms.workers - 1;
    let (theirs, mine) = all.split_at_mut(first);
    let place = start_of(first as u32, terms.part.k()).min(rows.len());
    let (their_rows, my_rows) = rows.split_at_mut(place);
    let mut own = || -> Result<(Begun, Vec<u32>), NoMemory>
        requires { IsTerms terms.now × (terms.now.part.hyper ≡ h.now) × (terms.now.part.k ≤ 256)
            × (length cut.now ≡ vertex_count h.now) × (length cut.now < 2 ^ 32)
            × (first + length mine.now ≤ vertex_count h.now) × All (IsBelow terms.now.part.k) mine.now }
        ensures long { length mine.exit.now ≡ length mine.entry.now }
        ensures below { All (IsBelow terms.entry.now.part.k) mine.exit.now }
        ensures begun { IfOk result (λ r. r.0.terms ≡ terms.entry.now) }
        ensures seeds { IfOk result (λ r. All (λ v. v < length cut.entry.now) r.1.items) }
        ensures few { IfOk result (λ r. vec_len r.1 ≤ length cut.entry.now) }
    {
        let begun = begin_and_list(alloc, terms, cut);
        read_own(h, terms, cut, first, mine, my_rows);
        begun
    };
    read_marked(rt, h, terms, cut, threads, theirs, their_rows, &mut own)
}

/// How many vertices of a level this thread reads, beside copying the words of them all, so that it takes as long as
/// each of the other workers does for its share of the rest, if all of them read, `due` are to be read, and the words
/// of `copies` are copied in the time of one reading.
fn own_share(vertices: u32, due: u32, workers: u32, copies: u64) -> u32
    ensures { result ≤ vertices }
{
    let (all, due, workers) = (u64::from(vertices), u64::from(due), u64::from(workers));
    let to_read = due.saturating_mul(copies);
    let to_copy = all.saturating_mul(workers.saturating_sub(1));
    let spare = to_read.saturating_sub(to_copy);
    let share = all.saturating_mul(spare) / to_read.saturating_mul(workers).max(1);
    share.min(all) as u32
}

/// Begins with the words of a round and the marked vertices, and has all workers read what these may do. `due` is taken
/// for how many vertices are to be read, and decides only how many of them this thread reads.
fn begin_beside<H: Threads + Sync>(
    rt: &H,
    alloc: Global,
    h: &Hypergraph,
    terms: &Terms,
    cut: &[bool],
    due: u32,
    openings: &mut Openings,
) -> Result<(Begun, Vec<u32>), NoMemory>
    requires belongs { terms.now.part.hyper ≡ h.now }
    requires over { IsTerms terms.now }
    requires workers { 2 ≤ terms.now.workers }
    requires marks { length cut.now ≡ vertex_count h.now }
    requires below { All (IsBelow terms.now.part.k) openings.old.all.items }
    requires full { vec_len openings.old.all ≡ vertex_count h.now }
    ensures below { All (IsBelow terms.now.part.k) openings.new.all.items }
    ensures full { vec_len openings.new.all ≡ vertex_count h.now }
    ensures begun { IfOk result (λ r. r.0.terms ≡ terms.now) }
    ensures seeds { IfOk result (λ r. All (λ v. v < length cut.now) r.1.items) }
    ensures few { IfOk result (λ r. vec_len r.1 ≤ length cut.now) }
{
    let vertices = h.vertices();
    let copies = if openings.rows.is_empty() {
        VERTICES_A_READING
    } else {
        VERTICES_A_ROW
    };
    let own = own_share(vertices, due, terms.workers, copies);
    let first = (vertices - own) as usize;
    let (all, rows) = (openings.all.as_mut_slice(), openings.rows.as_mut_slice());
    read_beside(rt, alloc, h, terms, cut, first, all, rows)
}

/// Marks the vertices on cut nets by at most one thread fewer than there are workers, which this one starts. It forgets
/// meanwhile what vertices may do that may have changed. Answers how many are forgotten, or less.
fn mark_beside<H: Threads + Sync>(
    rt: &H,
    alloc: Global,
    h: &Hypergraph,
    terms: &Terms,
    openings: &mut Openings,
) -> Result<(Vec<bool>, u32), NoMemory>
    requires belongs { terms.now.part.hyper ≡ h.now }
    requires workers { (2 ≤ terms.now.workers) × (terms.now.workers ≤ 64) }
    requires below { All (IsBelow terms.now.part.k) openings.old.all.items }
    ensures below { All (IsBelow terms.now.part.k) openings.new.all.items }
    ensures full { OnOk result (vec_len openings.new.all ≡ vertex_count h.now) }
    ensures marks { IfOk result (λ r. vec_len r.0 ≡ vertex_count h.now) }
{
    let mut cuts = blank_marks(alloc, h, terms.workers - 1)?;
    let mut own = || -> Result<u32, NoMemory>
        requires { (terms.now.part.hyper ≡ h.now) × All (IsBelow terms.now.part.k) openings.now.all.items }
        ensures below { All (IsBelow terms.entry.now.part.k) openings.exit.now.all.items }
        ensures full { OnOk result (vec_len openings.exit.now.all ≡ vertex_count h.entry.now) }
    { openings.forget(h, terms) };
    let due = mark_all(rt, h, terms, cuts.as_mut_slice(), &mut own)?;
    let cut = united(alloc, h, cuts.as_slice())?;
    Ok((cut, due))
}

/// Begins with the words of a round and the marked vertices, and reads what these may do, all in this thread.
fn begin_alone(
    alloc: Global,
    h: &Hypergraph,
    terms: &Terms,
    openings: &mut Openings,
) -> Result<(Begun, Vec<u32>), NoMemory>
    requires belongs { terms.now.part.hyper ≡ h.now }
    requires over { IsTerms terms.now }
    requires below { All (IsBelow terms.now.part.k) openings.old.all.items }
    ensures below { All (IsBelow terms.now.part.k) openings.new.all.items }
    ensures full { OnOk result (vec_len openings.new.all ≡ vertex_count h.now) }
    ensures begun { IfOk result (λ r. r.0.terms ≡ terms.now) }
    ensures seeds { IfOk result (λ r. All (λ v. v < vertex_count h.now) r.1.items) }
    ensures few { IfOk result (λ r. vec_len r.1 ≤ vertex_count h.now) }
{
    let _vertices = h.vertices();
    openings.forget(h, terms)?;
    let cut = cut_marks(alloc, h, terms)?;
    let cut = cut.as_slice();
    let (all, rows) = (openings.all.as_mut_slice(), openings.rows.as_mut_slice());
    read_own(h, terms, cut, 0, all, rows);
    begin_and_list(alloc, terms, cut)
}

/// Opens a round over a partition of this cost, reads what the vertices on cut nets may do, and lists these. One worker
/// does one after the other, and starts no thread, nor do several on a small level.
pub(crate) fn open_round<'h, H: Threads + Sync>(
    rt: &H,
    alloc: Global,
    h: &'h Hypergraph,
    p: Partition,
    cost: u64,
    workers: u32,
    openings: &mut Openings,
) -> Result<(Round<'h>, Passes, Vec<u32>), NoMemory>
    requires belongs { p.hyper ≡ h.now }
    requires fits { Fits h.now p.k p.limit p.blocks }
    requires cost { cost ≡ costs.cost h.now p.blocks }
    requires workers { (1 ≤ workers) × (workers ≤ 64) }
    requires below { All (IsBelow p.k) openings.old.all.items }
    ensures below { All (IsBelow p.k) openings.new.all.items }
    ensures full { OnOk result (vec_len openings.new.all ≡ vertex_count h.now) }
    ensures terms { IfOk result (λ r. r.0.terms ≡ record { part = p; workers = workers }) }
    ensures passes { IfOk result (λ r. AreFresh r.0.table r.0.terms r.1) }
    ensures seeds { IfOk result (λ r. All (λ v. v < vertex_count h.now) r.2.items) }
    ensures few { IfOk result (λ r. vec_len r.2 ≤ vertex_count h.now) }
{
    let part = p.into_ready(rt, h, workers);
    let _blocks = part.blocks();
    let terms = Terms { part, workers };
    let _vertices = h.vertices();
    let (begun, seeds) = if workers > 1 && h.nets() >= LEAST_NETS {
        let (cut, due) = mark_beside(rt, alloc, h, &terms, openings)?;
        begin_beside(rt, alloc, h, &terms, cut.as_slice(), due, openings)?
    } else {
        begin_alone(alloc, h, &terms, openings)?
    };
    let (round, passes) = Round::of(h, terms, cost, begun);
    Ok((round, passes, seeds))
}
