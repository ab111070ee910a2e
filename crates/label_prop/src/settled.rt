//! Whether a partition is settled: the marked vertices are asked first.
//!
//! After a raced round most of those that gain are marked, and they are few, so that one that gains is found
//! long before all vertices are looked at.

ghost use Rattle.std.specs.Prelude.{◌≡◌, ◌<◌, ◌≤◌, ◌↔◌, All, IfOk, IsTrue, length};
ghost use Rattle.hg_defs.specs.Hypergraph.{vertex_count};
ghost use Rattle.hg_defs.specs.Moves.{IsSettled};
ghost use Rattle.label_prop.specs.Runs.{AreNotes, IsSettledRun};

use crew::{each, span_of};
use hg_base::NoMemory;
use incidence::Hypergraph;
use pin_plain::Partition;
use std::alloc::Global;
use std::sync::atomic::Ordering::SeqCst;
use std::sync::atomic::{AtomicBool, AtomicUsize};
use std::thread::Threads;

/// So many vertices are asked at once at most.
const MOST_LISTED: usize = 64;

/// A run has so many vertices or nets at least: to start a thread takes as long as to ask a thousand vertices of few
/// nets, and the few vertices of a coarse level have many.
const LEAST_ITEMS: u32 = 4096;

/// There are so many runs at most: `span_of` cuts no more.
const MOST_RUNS: u32 = 64;

/// Whether one of the listed vertices has a move that makes the partition cheaper.
fn one_gains(alloc: Global, h: &Hypergraph, p: &Partition, listed: &[u32]) -> Result<bool, NoMemory>
    requires belongs { p.now.hyper ≡ h.now }
    requires vertices { All (λ v. v < vertex_count h.now) listed.now }
    ensures { IfOk result (λ gains. IsTrue gains → IsSettled h.now p.now.k p.now.limit p.now.blocks → ⊥) }
{
    let best = p.best_moves(alloc, h, listed)?;
    Ok(!best.is_empty())
}

/// Whether one of the marked vertices has a move that makes the partition cheaper. They are asked in rising
/// number, a few at a time.
fn marked_gains(
    alloc: Global,
    h: &Hypergraph,
    p: &Partition,
    marks: &[AtomicBool],
) -> Result<bool, NoMemory>
    requires belongs { p.now.hyper ≡ h.now }
    requires marks { length marks.now ≡ vertex_count h.now }
    ensures { IfOk result (λ gains. IsTrue gains → IsSettled h.now p.now.k p.now.limit p.now.blocks → ⊥) }
{
    let mut listed = Vec::with_capacity(alloc, MOST_LISTED)?;
    for v in 0..h.vertices() {
        if !marks[v as usize].load(SeqCst) {
            continue;
        }
        listed.push(v)?;
        if listed.len() >= MOST_LISTED {
            if one_gains(alloc, h, p, listed.as_slice())? {
                return Ok(true);
            }
            listed.clear();
        }
    }
    one_gains(alloc, h, p, listed.as_slice())
}

/// Whether all are marked.
fn all_set(marks: &[AtomicBool]) -> bool {
    for mark in marks {
        if !mark.load(SeqCst) {
            return false;
        }
    }
    true
}

/// Whether none of the vertices of a run gains.
fn ask_run(h: &Hypergraph, p: &Partition, runs: u32, place: u32) -> bool
    requires belongs { p.now.hyper ≡ h.now }
    requires run { (place < runs) × (runs ≤ 64) }
    ensures { IsTrue result ↔ IsSettledRun h.now p.now.k p.now.limit p.now.blocks runs place }
{
    let run = span_of(h.vertices(), runs, place);
    p.settled_within(h, run.from, run.to)
}

/// Asks runs that nobody took yet, until there is none or a vertex gains, and notes which ones are settled. There are
/// as many notes as runs.
fn ask_some(
    h: &Hypergraph,
    p: &Partition,
    runs: u32,
    next: &AtomicUsize,
    gains: &AtomicBool,
    notes: &mut Vec<bool>,
)
    requires belongs { p.now.hyper ≡ h.now }
    requires runs { runs ≤ 64 }
    requires notes { AreNotes h.now p.now.k p.now.limit p.now.blocks runs notes.old.items }
    ensures { AreNotes h.now p.now.k p.now.limit p.now.blocks runs notes.new.items }
{
    for _ in 0..runs {
        if gains.load(SeqCst) {
            return;
        }
        let place = next.fetch_add(1, SeqCst);
        if place >= notes.len() {
            return;
        }
        if !ask_run(h, p, runs, place as u32) {
            gains.store(true, SeqCst);
            return;
        }
        notes[place] = true;
    }
}

/// Whether none of the vertices of a run gains. Where a list notes that none does, they aren't asked.
fn is_settled_run(h: &Hypergraph, p: &Partition, runs: u32, lists: &[Vec<bool>], place: u32) -> bool
    requires belongs { p.now.hyper ≡ h.now }
    requires run { (place < runs) × (runs ≤ 64) }
    requires lists { All (λ notes. AreNotes h.now p.now.k p.now.limit p.now.blocks runs notes.items) lists.now }
    ensures { IsTrue result ↔ IsSettledRun h.now p.now.k p.now.limit p.now.blocks runs place }
{
    for notes in lists {
        if notes[place as usize] {
            return true;
        }
    }
    ask_run(h, p, runs, place)
}

/// Whether no single allowed move makes the partition cheaper. The runs that no list notes are asked in rising order.
fn ask_rest(h: &Hypergraph, p: &Partition, runs: u32, lists: &[Vec<bool>]) -> bool
    requires belongs { p.now.hyper ≡ h.now }
    requires runs { (1 ≤ runs) × (runs ≤ 64) }
    requires lists { All (λ notes. AreNotes h.now p.now.k p.now.limit p.now.blocks runs notes.items) lists.now }
    ensures { IsTrue result ↔ IsSettled h.now p.now.k p.now.limit p.now.blocks }
{
    for place in 0..runs {
        if !is_settled_run(h, p, runs, lists, place) {
            return false;
        }
    }
    true
}

/// Whether no single allowed move makes the partition cheaper, by a thread for each list. They take runs until a vertex
/// gains, and then this thread asks those that none of them noted.
fn ask_runs<H: Threads + Sync>(
    rt: &H,
    h: &Hypergraph,
    p: &Partition,
    runs: u32,
    lists: &mut [Vec<bool>],
) -> bool
    requires belongs { p.now.hyper ≡ h.now }
    requires runs { (1 ≤ runs) × (runs ≤ 64) }
    requires lists { All (λ notes. AreNotes h.now p.now.k p.now.limit p.now.blocks runs notes.items) lists.old }
    ensures { IsTrue result ↔ IsSettled h.now p.now.k p.now.limit p.now.blocks }
{
    let next = AtomicUsize::new(0);
    let gains = AtomicBool::new(false);
    each(
        rt,
        lists,
        &|_i, notes: &mut Vec<bool>|
            requires { (runs ≤ 64) × (p.now.hyper ≡ h.now) × AreNotes h.now p.now.k p.now.limit p.now.blocks runs
                notes.now.items }
            ensures { AreNotes h.entry.now p.entry.now.k p.entry.now.limit p.entry.now.blocks runs
                notes.exit.now.items }
        {
            ask_some(h, p, runs, &next, &gains, notes);
        },
    );
    ask_rest(h, p, runs, lists)
}

/// Whether no single allowed move makes the partition cheaper, by so many threads, which share so many runs.
fn settled_in_runs<H: Threads + Sync>(
    rt: &H,
    alloc: Global,
    h: &Hypergraph,
    p: &Partition,
    threads: u32,
    runs: u32,
) -> Result<bool, NoMemory>
    requires belongs { p.now.hyper ≡ h.now }
    requires runs { (1 ≤ runs) × (runs ≤ 64) }
    ensures { IfOk result (λ settled. IsTrue settled ↔ IsSettled h.now p.now.k p.now.limit p.now.blocks) }
{
    let mut lists = Vec::with_capacity(alloc, threads as usize)?;
    for _ in 0..threads {
        lists.push(vec![in alloc; false; runs as usize]?)?;
    }
    Ok(ask_runs(rt, h, p, runs, lists.as_mut_slice()))
}

/// Whether no single allowed move makes the partition cheaper. Where a marked vertex gains, no other one is asked.
/// Where all are marked, the marks tell nothing, and each vertex is asked once. There are more runs than threads, so
/// that none waits long for a slower one.
pub(crate) fn is_settled<H: Threads + Sync>(
    rt: &H,
    alloc: Global,
    h: &Hypergraph,
    p: &Partition,
    workers: u32,
    marks: &[AtomicBool],
) -> Result<bool, NoMemory>
    requires belongs { p.now.hyper ≡ h.now }
    requires workers { (1 ≤ workers) × (workers ≤ 64) }
    requires marks { length marks.now ≡ vertex_count h.now }
    ensures { IfOk result (λ settled. IsTrue settled ↔ IsSettled h.now p.now.k p.now.limit p.now.blocks) }
{
    if !all_set(marks) && marked_gains(alloc, h, p, marks)? {
        return Ok(false);
    }
    let runs = (h.vertices().max(h.nets()) / LEAST_ITEMS + 1).min(MOST_RUNS);
    let threads = workers.min(runs);
    if threads == 1 {
        return Ok(p.settled(h));
    }
    settled_in_runs(rt, alloc, h, p, threads, runs)
}
