//! The cut nets of runs of the nets, in a list for each block.

ghost use Rattle.std.specs.Prelude.{◌≡◌, ◌≢◌, ℕ, ◌<◌, ◌≤◌, ◌&&◌, ◌++◌, [], All, Contains, IfOk, OnOk, length};
ghost use Rattle.std.specs.Prelude.{replicate, slice_index_or, slice_set, IsTrue, true, vec_len};
ghost use Rattle.hg_defs.specs.Hypergraph.{net_count, net_of};
ghost use Rattle.hg_defs.specs.Partition.{block_of};
ghost use Rattle.round_log.specs.Rounds.{has_pin};
ghost use Rattle.flow_pair.specs.CutNets.{AreCutListsIn, AreCutListsOfRun, AreJoined, IsNotedIn, KeepNets};

use crate::cut::is_cut;
use crew::{each, span_of};
use flow_net::NoMemory;
use hg_base::Verts;
use incidence::Hypergraph;
use pin_plain::Partition;
use std::alloc::Global;
use std::mem;
use std::thread::Threads;

/// A thread looks at so many nets at least: to start it costs as much.
const LEAST_NETS: u32 = 16384;

/// The lists of a run of the nets, or no memory for them.
type RunLists = Result<Vec<Verts>, NoMemory>;

/// A list for each block without nets.
fn empty_lists(alloc: Global, k: u32) -> Result<Vec<Verts>, NoMemory>
    ensures { IfOk result (λ lists. lists.items ≡ replicate k []) }
{
    let mut lists = Vec::with_capacity(alloc, k as usize)?;
    for _ in 0..k {
        lists.push(Verts::new(alloc))?;
    }
    Ok(lists)
}

/// Whether a net is the last one of a list.
fn ends_in(list: &[u32], e: u32) -> bool
    ensures { IsTrue result → Contains list.now e }
{
    match list.last() {
        Some(last) => *last == e,
        None => false,
    }
}

/// Appends a net to the list of a block, unless it is the last one there.
fn note(lists: &mut Vec<Verts>, block: u32, e: u32) -> Result<(), NoMemory>
    requires { block < length lists.old.items }
    ensures kept { OnOk result ((m : ℕ) → e < m → KeepNets m lists.old.items lists.new.items) }
    ensures noted { OnOk result (Contains (slice_index_or lists.new.items block []) e) }
{
    if ends_in(lists[block as usize].slice(), e) {
        return Ok(());
    }
    lists[block as usize].push(e)
}

/// Notes a net for the block of each of its pins.
fn note_all(lists: &mut Vec<Verts>, blocks: &[u32], pins: &[u32], e: u32) -> Result<(), NoMemory>
    requires pins { All (λ v. v < length blocks.now) pins.now }
    requires blocks { All (λ b. b < length lists.old.items) blocks.now }
    ensures kept { OnOk result ((m : ℕ) → e < m → KeepNets m lists.old.items lists.new.items) }
    ensures noted { OnOk result (All (λ v. Contains (slice_index_or lists.new.items (block_of blocks.now v) []) e)
        pins.now) }
{
    for v in pins {
        note(lists, blocks[*v as usize], e)?;
    }
    Ok(())
}

/// Notes a net for the block of each of its pins, where it touches two blocks.
fn note_cut(lists: &mut Vec<Verts>, h: &Hypergraph, p: &Partition, e: u32) -> Result<(), NoMemory>
    requires belongs { p.now.hyper ≡ h.now }
    requires net { e < net_count h.now }
    requires lists { length lists.old.items ≡ p.now.k }
    ensures kept { OnOk result (KeepNets (net_count h.now) lists.old.items lists.new.items) }
    ensures noted { OnOk result (IsNotedIn h.now p.now.blocks e lists.new.items) }
{
    if !is_cut(h, p, e) {
        return Ok(());
    }
    note_all(lists, p.blocks(), h.pins(e), e)?;
    Ok(())
}

/// The nets of a run that touch two blocks, in the list of the block of each of their pins.
pub(crate) fn cut_lists_in(
    alloc: Global,
    h: &Hypergraph,
    p: &Partition,
    from: u32,
    to: u32,
) -> Result<Vec<Verts>, NoMemory>
    requires belongs { p.now.hyper ≡ h.now }
    requires within { to ≤ net_count h.now }
    ensures { IfOk result (λ lists. AreCutListsIn h.now p.now.k p.now.blocks from to lists.items) }
{
    let mut lists = empty_lists(alloc, p.k())?;
    for e in from..to {
        note_cut(&mut lists, h, p, e)?;
    }
    Ok(lists)
}

/// No lists yet for so many runs.
fn empty_runs(alloc: Global, count: u32) -> Result<Vec<RunLists>, NoMemory>
    ensures { IfOk result (λ runs. vec_len runs ≡ count) }
{
    let mut runs = Vec::with_capacity(alloc, count as usize)?;
    for _ in 0..count {
        runs.push(Ok(Vec::new(alloc)))?;
    }
    Ok(runs)
}

/// Writes for each run of the nets the lists of those that touch two blocks, or that there is no memory for them, by a
/// thread for each. There are as many runs as there are places for their lists.
fn find_in_runs<R: Threads + Sync>(
    rt: &R,
    alloc: Global,
    h: &Hypergraph,
    p: &Partition,
    runs: &mut [RunLists],
)
    requires belongs { p.now.hyper ≡ h.now }
    requires few { length runs.old ≤ 64 }
    ensures count { length runs.new ≡ length runs.old }
    ensures cut { (i : ℕ) (d : _) → i < length runs.old → IfOk (slice_index_or runs.new i d) (λ lists. AreCutListsOfRun
        h.now p.now.k p.now.blocks (length runs.old) i lists.items) }
{
    let count = runs.len() as u32;
    each(
        rt,
        runs,
        &|i, lists: &mut RunLists|
            requires { (i < count) × (count ≤ 64) × (p.now.hyper ≡ h.now) }
            ensures { IfOk lists.exit.now (λ lists. AreCutListsOfRun h.entry.now p.entry.now.k p.entry.now.blocks count
                i lists.items) }
        {
            let run = span_of(h.nets(), count, i as u32);
            *lists = cut_lists_in(alloc, h, p, run.from, run.to);
        },
    );
}

/// For each run of the nets the lists of those that touch two blocks, or no memory for them. Threads look for them, a
/// run each, of which there are no more than workers.
fn cut_lists_by_run<R: Threads + Sync>(
    rt: &R,
    alloc: Global,
    h: &Hypergraph,
    p: &Partition,
    workers: u32,
) -> Result<Vec<RunLists>, NoMemory>
    requires belongs { p.now.hyper ≡ h.now }
    requires workers { (1 ≤ workers) × (workers ≤ 64) }
    ensures some { IfOk result (λ runs. 0 < vec_len runs) }
    ensures cut { IfOk result (λ runs. (i : ℕ) (d : _) → i < vec_len runs → IfOk (slice_index_or runs.items i d)
        (λ lists. AreCutListsOfRun h.now p.now.k p.now.blocks (vec_len runs) i lists.items)) }
{
    let count = workers.min(1 + h.nets() / LEAST_NETS);
    let mut runs = empty_runs(alloc, count)?;
    find_in_runs(rt, alloc, h, p, runs.as_mut_slice());
    Ok(runs)
}

/// Appends nets to the list of a block.
fn append_to(
    alloc: Global,
    lists: &mut Vec<Verts>,
    block: usize,
    nets: &[u32],
) -> Result<(), NoMemory>
    requires { block < length lists.old.items }
    ensures { OnOk result (lists.new.items ≡ slice_set lists.old.items block (slice_index_or lists.old.items block []
        ++ nets.now)) }
{
    let mut list = mem::replace(&mut lists[block], Verts::new(alloc)).into_vec();
    list.extend_from_slice(nets)?;
    lists[block] = Verts::from_vec(list);
    Ok(())
}

/// Appends to the list of each block the one that a run has for it.
fn append_all(alloc: Global, lists: &mut Vec<Verts>, run: &[Verts]) -> Result<(), NoMemory>
    requires { length run.now ≡ length lists.old.items }
    ensures { OnOk result (AreJoined lists.old.items run.now lists.new.items) }
{
    for block in 0..run.len() {
        append_to(alloc, lists, block, run[block].slice())?;
    }
    Ok(())
}

/// The nets that touch two blocks, in the list of the block of each of their pins. Threads find those of runs, and this
/// one then appends the lists of the others to those of the first run.
pub(crate) fn cut_lists_with<R: Threads + Sync>(
    rt: &R,
    alloc: Global,
    h: &Hypergraph,
    p: &Partition,
    workers: u32,
) -> Result<Vec<Verts>, NoMemory>
    requires belongs { p.now.hyper ≡ h.now }
    requires workers { (1 ≤ workers) × (workers ≤ 64) }
    ensures { IfOk result (λ lists. AreCutListsIn h.now p.now.k p.now.blocks 0 (net_count h.now) lists.items) }
{
    let mut runs = cut_lists_by_run(rt, alloc, h, p, workers)?;
    let mut lists = mem::replace(&mut runs[0], Ok(Vec::new(alloc)))?;
    for i in 1..runs.len() {
        let Ok(run) = &runs[i] else {
            return Err(NoMemory);
        };
        append_all(alloc, &mut lists, run.as_slice())?;
    }
    Ok(lists)
}
