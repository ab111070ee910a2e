//! The clustering of a level: raced, then paired to the end.

ghost use Rattle.std.specs.Prelude.{◌≡◌, ℕ, ◌+◌, ◌-◌, ◌*◌, ◌<◌, ◌≤◌, ◌^◌, length, All, IsTrue, ◌↔◌, IfOk, max};
ghost use Rattle.hg_defs.specs.Hypergraph.{vertex_count, total_weight};
ghost use Rattle.hg_defs.specs.Partition.{IsPartition};
ghost use Rattle.hg_defs.specs.Clustering.{cluster_count, IsClustering, IsInside, Shrinks};
ghost use Rattle.hg_defs.specs.Clustering as clusterings;
ghost use Rattle.hg_defs.specs.Pairing.{split_by};
ghost use Rattle.round_log.specs.Trace.{IsGoodClustering};
ghost use Rattle.coarsen.specs.Numbers.{IsByRoot};

use crate::pairing::{pair_all, pair_within};
use cluster_claim::cluster;
use crew::Gate;
use hg_base::{MapList, NoMemory};
use incidence::Hypergraph;
use std::alloc::Global;
use std::thread::Threads;

/// The heaviest that a cluster may be: an eighth of an even share of the weight, rounded up.
pub fn cluster_cap(weight: u64, k: u32) -> u64
    requires weight { weight < 2 ^ 54 }
    requires some { 0 < k }
    ensures { result ≡ clusterings.cluster_cap weight k }
{
    let parts = 8 * u64::from(k);
    ((weight + (parts - 1)) / parts).max(1)
}

/// The heaviest that a cluster may be in one pass of the raced clustering, so that it joins about
/// four vertices.
fn pass_cap(h: &Hypergraph, cap: u64) -> u64
    requires { 0 < vertex_count h.now }
    ensures { result ≤ cap }
{
    let _vertices = h.vertices();
    let vertices = u64::from(h.vertices());
    let four = (4 * h.total_weight() + (vertices - 1)) / vertices;
    cap.min(four.max(1))
}

/// A maximal clustering of a level within the cap of `k` blocks.
pub(crate) fn cluster_level<R: Threads + Sync, G: Gate>(
    rt: &R,
    alloc: Global,
    h: &Hypergraph,
    k: u32,
    workers: u32,
    seed: u64,
    gate: &G,
) -> Result<MapList, NoMemory>
    requires vertex { 0 < vertex_count h.now }
    requires blocks { 0 < k }
    requires some { 1 ≤ workers }
    requires few { workers ≤ 64 }
    ensures good { IfOk result (λ clusters. (number : ℕ) → IsGoodClustering k number h.now clusters) }
    ensures by_root { IfOk result IsByRoot }
{
    let _vertices = h.vertices();
    let cap = cluster_cap(h.total_weight(), k);
    let roots = cluster(rt, alloc, h, pass_cap(h, cap), workers, seed, gate)?;
    pair_all(alloc, h, cap, roots.into_vec())
}

/// A clustering of a level inside the `k` blocks of a partition, within the cap of `k` blocks, to
/// which no pair of single vertices of one block can be added.
pub(crate) fn cluster_inside<R: Threads + Sync, G: Gate>(
    rt: &R,
    alloc: Global,
    h: &Hypergraph,
    k: u32,
    blocks: &[u32],
    workers: u32,
    seed: u64,
    gate: &G,
) -> Result<MapList, NoMemory>
    requires vertex { 0 < vertex_count h.now }
    requires blocks { 0 < k }
    requires partition { IsPartition h.now k blocks.now }
    requires some { 1 ≤ workers }
    requires few { workers ≤ 64 }
    ensures inside { IfOk result (IsInside h.now (clusterings.cluster_cap (total_weight h.now) k) blocks.now) }
    ensures by_root { IfOk result IsByRoot }
{
    let _vertices = h.vertices();
    let cap = cluster_cap(h.total_weight(), k);
    let raced = cluster(rt, alloc, h, pass_cap(h, cap), workers, seed, gate)?;
    let roots = split_roots(h, blocks, raced.into_vec());
    pair_within(alloc, h, cap, k, blocks, roots)
}

/// Makes each vertex whose root lies in another block its own root.
fn split_roots(h: &Hypergraph, blocks: &[u32], mut roots: Vec<u32>) -> Vec<u32>
    requires blocks { length blocks.now ≡ vertex_count h.now }
    requires roots { length roots.items ≡ vertex_count h.now }
    requires below { All (λ r. r < vertex_count h.now) roots.items }
    ensures { result.items ≡ split_by blocks.now roots.items }
{
    for v in 0..h.vertices() {
        let root = roots[v as usize];
        if blocks[root as usize] != blocks[v as usize] {
            roots[v as usize] = v;
        }
    }
    roots
}

/// Whether this many clusters are a twentieth fewer than the vertices.
pub fn is_twentieth_fewer(h: &Hypergraph, clusters: u32) -> bool
    requires { clusters ≤ vertex_count h.now }
    ensures { IsTrue result ↔ (vertex_count h.now ≤ 20 * (vertex_count h.now - clusters)) }
{
    let vertices = u64::from(h.vertices());
    20 * (vertices - u64::from(clusters)) >= vertices
}
