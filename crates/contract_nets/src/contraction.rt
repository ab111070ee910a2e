//! The contraction of a hypergraph.

ghost use Rattle.std.specs.Prelude.{◌≡◌, ◌≢◌, ◌<◌, ◌≤◌, ◌^◌, ℕ, length, slice_index, replicate};
ghost use Rattle.std.specs.Prelude.{All, Contains, IfOk, OnOk};
ghost use Rattle.std.specs.Prelude as images;
ghost use Rattle.contract_nets.specs.Nets.{all_nets};
ghost use Rattle.hg_defs.specs.Hypergraph.{vertex_count, net_count, net_of};
ghost use Rattle.hg_defs.specs.Contraction.{IsFull, image};
ghost use Rattle.hg_defs.specs.Contraction as contraction;
ghost use Rattle.hg_defs.specs.Clustering.{cluster_count};
ghost use Rattle.contract_nets.specs.Images.{over};
ghost use Rattle.contract_nets.specs.Cuts.{AreEnds};
ghost use Rattle.contract_nets.specs.Keys.{IsKey, net_of_key};
ghost use Rattle.contract_nets.specs.Ledger.{IsLedger};
ghost use Rattle.contract_nets.specs.Merging.{mapped_net, merged, AreWithin, ArePlaces};

use crate::images::{Images, map_nets};
use crate::keys::{Key, sort_keys};
use crate::ledger::{DROPPED, MergeLedger};
use crate::merging::{add_nets, merge_nets, write_places};
use crate::nets::Nets;
use crate::vertices::vertices_of;
use hg_base::{FlatHyper, NoMemory};
use incidence::Hypergraph;
use std::alloc::Global;
use std::snapshot::Snapshot;
use std::thread::{Threads, join_mut};

/// So many threads at most work on a contraction.
const MOST_THREADS: u32 = 8;

/// Contracts a hypergraph by a map that gives each vertex the number of its cluster and uses
/// every number below the count of clusters. Where each vertex that isn't free is alone in its
/// cluster, its fix is kept; the contract doesn't ask for it.
///
/// A cluster becomes a vertex of the weight of all its vertices, with the fix of the one that
/// isn't free. A net becomes the set of its pins' clusters; nets of fewer than two are dropped,
/// equal ones are merged and their weights added, and the coarse nets stand in lexicographic order
/// of their pins. The ledger tells where each net went. The method is that of Mt-KaHyPar.
///
/// It works in at most so many threads as there are workers, and in at most eight.
pub fn contract(
    rt: &(impl Threads + Sync),
    alloc: Global,
    h: &Hypergraph,
    map: &[u32],
    workers: u32,
) -> Result<(Hypergraph, MergeLedger), NoMemory>
    requires full { IsFull h.now map.now (cluster_count map.now) }
    requires some { 1 ≤ workers }
    requires few { workers ≤ 64 }
    ensures coarse { IfOk result (λ pair. pair.0 ≡ contraction.contract h.now map.now (cluster_count map.now)) }
    ensures ledger { IfOk result (λ pair. IsLedger h.now map.now pair.0 pair.1) }
{
    let mut places = vec![in alloc; DROPPED; h.nets() as usize]?;
    let threads = workers.min(MOST_THREADS);
    let coarse = merge(rt, alloc, h, map, threads, places.as_mut_slice())?;
    Ok((
        Hypergraph::build_with(rt, alloc, coarse, threads as usize)?,
        MergeLedger::from_places(places),
    ))
}

/// The coarse hypergraph; writes the place of each net into a list that has `DROPPED` throughout. Where the coarse nets
/// stand in one list, as those that one thread made do, this thread does the one after the other, and lets go of the
/// images and keys in between, so that it never holds them beside the coarse hypergraph.
fn merge(
    rt: &(impl Threads + Sync),
    alloc: Global,
    h: &Hypergraph,
    map: &[u32],
    threads: u32,
    places: &mut [u32],
) -> Result<FlatHyper, NoMemory>
    requires full { IsFull h.now map.now (cluster_count map.now) }
    requires threads { 0 < threads }
    requires places { places.old ≡ replicate (net_count h.now) DROPPED }
    ensures coarse { IfOk result (λ coarse. coarse ≡ contraction.contract h.now map.now (cluster_count map.now)) }
    ensures placed { IfOk result (λ coarse. ArePlaces (images.map (mapped_net map.now) h.now.nets)
        (images.map (λ e. e.pins) coarse.nets) places.new) }
    ensures all { OnOk result ((e : ℕ) → e < net_count h.now → 2 ≤ length (image map.now (net_of h.now e)) →
        slice_index places.new e ≢ DROPPED) }
{
    let (nets, keys) = sorted_nets(rt, alloc, h, map, threads)?;
    let (lists, ends) = merge_nets(rt, alloc, &nets, &keys, threads)?;
    if lists.len() > 1 {
        return coarse_and_places(rt, alloc, h, map, &lists, &nets, &keys, &ends, places);
    }
    write_places(Snapshot::of(&nets), &keys, &ends, places);
    drop(ends);
    drop(keys);
    drop(nets);
    coarse_of(alloc, h, map, &lists)
}

/// The nets over the clusters, and the sorted keys of those with two pins or more.
fn sorted_nets<'a>(
    rt: &(impl Threads + Sync),
    alloc: Global,
    h: &'a Hypergraph,
    map: &'a [u32],
    threads: u32,
) -> Result<(Images<'a>, Vec<Key>), NoMemory>
    requires full { IsFull h.now map.now (cluster_count map.now) }
    requires threads { 0 < threads }
    ensures images { IfOk result (λ pair. pair.0 ≡ over h.now map.now) }
    ensures keys { IfOk result (λ pair. All (IsKey pair.0) pair.1.items) }
    ensures limits { IfOk result (λ pair. AreWithin (merged (images.map (net_of_key pair.0) pair.1.items))) }
    ensures nets { IfOk result (λ pair. merged (images.map (net_of_key pair.0) pair.1.items)
        ≡ (contraction.contract h.now map.now (cluster_count map.now)).nets) }
    ensures all { IfOk result (λ pair. (e : ℕ) → e < net_count h.now → 2 ≤ length (image map.now (net_of h.now e)) →
        Contains (images.map (λ key. key.1) pair.1.items) e) }
{
    let _vertices = h.vertices();
    let (nets, lists) = map_nets(rt, alloc, h, map, threads)?;
    let keys = sort_keys(rt, alloc, &nets, lists, threads)?;
    Ok((nets, keys))
}

/// The coarse hypergraph, made by this thread, while a new one writes the place of each net.
fn coarse_and_places(
    rt: &(impl Threads + Sync),
    alloc: Global,
    h: &Hypergraph,
    map: &[u32],
    lists: &[Nets],
    nets: &Images<'_>,
    keys: &[Key],
    ends: &[bool],
    places: &mut [u32],
) -> Result<FlatHyper, NoMemory>
    requires full { IsFull h.now map.now (cluster_count map.now) }
    requires lists { all_nets lists.now ≡ (contraction.contract h.now map.now (cluster_count map.now)).nets }
    requires keys { All (IsKey nets.now) keys.now }
    requires ends { AreEnds nets.now keys.now ends.now }
    requires limits { AreWithin (merged (images.map (net_of_key nets.now) keys.now)) }
    requires places { places.old ≡ replicate (net_count nets.now) DROPPED }
    ensures coarse { IfOk result (λ coarse. coarse ≡ contraction.contract h.now map.now (cluster_count map.now)) }
    ensures placed { ArePlaces nets.now.nets
        (images.map (λ e. e.pins) (merged (images.map (net_of_key nets.now) keys.now))) places.new }
    ensures all { All (λ key. slice_index places.new key.1 ≢ DROPPED) keys.now }
{
    let mut front = ||
        requires { All (IsKey nets.now) keys.now × AreEnds nets.now keys.now ends.now
            × AreWithin (merged (images.map (net_of_key nets.now) keys.now))
            × (places.now ≡ replicate (net_count nets.now) DROPPED) }
        ensures placed { ArePlaces nets.entry.now.nets
            (images.map (λ e. e.pins) (merged (images.map (net_of_key nets.entry.now) keys.entry.now)))
            places.exit.now }
        ensures all { All (λ key. slice_index places.exit.now key.1 ≢ DROPPED) keys.entry.now }
    { write_places(Snapshot::of(nets), keys, ends, places) };
    let mut back = || -> Result<FlatHyper, NoMemory>
        requires { IsFull h.now map.now (cluster_count map.now)
            × (all_nets lists.now ≡ (contraction.contract h.now map.now (cluster_count map.now)).nets) }
        ensures { IfOk result (λ coarse.
            coarse ≡ contraction.contract h.entry.now map.entry.now (cluster_count map.entry.now)) }
    { coarse_of(alloc, h, map, lists) };
    let ((), coarse) = join_mut(rt, &mut front, &mut back);
    coarse
}

/// The coarse hypergraph with the nets of lists, which are its nets.
fn coarse_of(
    alloc: Global,
    h: &Hypergraph,
    map: &[u32],
    lists: &[Nets],
) -> Result<FlatHyper, NoMemory>
    requires full { IsFull h.now map.now (cluster_count map.now) }
    requires lists { all_nets lists.now ≡ (contraction.contract h.now map.now (cluster_count map.now)).nets }
    ensures { IfOk result (λ coarse. coarse ≡ contraction.contract h.now map.now (cluster_count map.now)) }
{
    let _vertices = h.vertices();
    let mut coarse = vertices_of(alloc, h, map, count_clusters(map))?;
    add_nets(&mut coarse, lists)?;
    Ok(coarse)
}

/// How many clusters a full clustering has: one more than its greatest number, or 0 where there is none.
pub fn count_clusters(clusters: &[u32]) -> u32
    requires { All (λ i. i < 2 ^ 22) clusters.now }
    ensures { result ≡ cluster_count clusters.now }
{
    let mut count = 0;
    for i in clusters {
        count = count.max(*i + 1);
    }
    count
}
