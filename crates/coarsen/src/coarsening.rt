//! Whole coarsenings: levels are clustered and contracted while they are large.

ghost use Rattle.std.specs.Prelude.{◌≡◌, ◌<◌, ◌≤◌, length, All, IfOk};
ghost use Rattle.hg_defs.specs.Partition.{IsPartition};
ghost use Rattle.hg_defs.specs.Levels.{coarsest, lifted, lifted_to};
ghost use Rattle.round_log.specs.Trace.{IsGoodClustering, AreContracted, IsStop};
ghost use Rattle.round_log.specs.Cycles.{IsInsideAt};
ghost use Rattle.coarsen.specs.Numbers.{IsByRoot, IsStopByRoot};

use crate::clustering::{cluster_inside, cluster_level, is_twentieth_fewer};
use contract_nets::{contract, count_clusters};
use crew::Gate;
use hg_base::{Blocks, NoMemory};
use incidence::Hypergraph;
use level_stack::LevelStack;
use round_log::Stop;
use std::alloc::{AllocError, Global};
use std::thread::Threads;

/// Coarsens a hypergraph for `k` blocks, with 1 to 64 workers that pass the gate before each vertex.
///
/// A level with more than `32 * k` vertices is clustered within the cap of `k` blocks and contracted,
/// where the clustering removes at least a twentieth of its vertices. Otherwise that clustering is
/// the stop. Clusters are numbered by rising root.
pub fn coarsen<R: Threads + Sync, G: Gate>(
    rt: &R,
    alloc: Global,
    h: Hypergraph,
    k: u32,
    workers: u32,
    seed: u64,
    gate: &G,
) -> Result<(LevelStack, Stop), NoMemory>
    requires blocks { 0 < k }
    requires some { 1 ≤ workers }
    requires few { workers ≤ 64 }
    ensures base { IfOk result (λ pair. pair.0.base ≡ h) }
    ensures levels { IfOk result (λ pair. AreContracted (IsGoodClustering k) 0 h k pair.0.maps) }
    ensures stop { IfOk result (λ pair. IsStop (IsGoodClustering k) (length pair.0.maps) (coarsest h pair.0.maps) k
        pair.1) }
    ensures numbered { IfOk result (λ pair. All IsByRoot pair.0.maps) }
    ensures stop_numbered { IfOk result (λ pair. IsStopByRoot pair.1) }
{
    let mut stack = LevelStack::start(alloc, h)?;
    'levels: while u64::from(stack.top().vertices()) > 32 * u64::from(k) {
        let clusters = cluster_level(rt, alloc, stack.top(), k, workers, seed, gate)?;
        let count = count_clusters(clusters.slice());
        if !is_twentieth_fewer(stack.top(), count) {
            return Ok((stack, Stop::Stuck(clusters)));
        }
        let (coarse, ledger) = contract(rt, alloc, stack.top(), clusters.slice(), workers)?;
        stack.push(clusters, coarse, ledger)?;
    }
    Ok((stack, Stop::Small))
}

/// Coarsens a hypergraph as [`coarsen`] does, inside the `k` blocks of a partition: no cluster has
/// vertices of two blocks. Answers the partition of the coarsest level beside the stack and the stop.
pub fn coarsen_inside<R: Threads + Sync, G: Gate>(
    rt: &R,
    alloc: Global,
    h: Hypergraph,
    k: u32,
    blocks: &[u32],
    workers: u32,
    seed: u64,
    gate: &G,
) -> Result<(LevelStack, Stop, Blocks), NoMemory>
    requires blocks { 0 < k }
    requires partition { IsPartition h k blocks.now }
    requires some { 1 ≤ workers }
    requires few { workers ≤ 64 }
    ensures base { IfOk result (λ all. all.0.base ≡ h) }
    ensures levels { IfOk result (λ all. AreContracted (IsInsideAt k all.0.maps blocks.now) 0 h k all.0.maps) }
    ensures stop { IfOk result (λ all. IsStop (IsInsideAt k all.0.maps blocks.now) (length all.0.maps)
        (coarsest h all.0.maps) k all.1) }
    ensures top { IfOk result (λ all. all.2 ≡ lifted_to blocks.now all.0.maps (length all.0.maps)) }
    ensures numbered { IfOk result (λ all. All IsByRoot all.0.maps) }
    ensures stop_numbered { IfOk result (λ all. IsStopByRoot all.1) }
{
    let mut stack = LevelStack::start(alloc, h)?;
    let mut current = Vec::from_slice(alloc, blocks)?;
    'levels: while u64::from(stack.top().vertices()) > 32 * u64::from(k) {
        let clusters = cluster_inside(rt, alloc, stack.top(), k, &current, workers, seed, gate)?;
        let count = count_clusters(clusters.slice());
        if !is_twentieth_fewer(stack.top(), count) {
            return Ok((stack, Stop::Stuck(clusters), Blocks::from_vec(current)));
        }
        let above = lift_blocks(alloc, &current, clusters.slice(), count)?;
        let (coarse, ledger) = contract(rt, alloc, stack.top(), clusters.slice(), workers)?;
        stack.push(clusters, coarse, ledger)?;
        current = above;
    }
    Ok((stack, Stop::Small, Blocks::from_vec(current)))
}

/// The block of the first vertex of each cluster.
fn lift_blocks(
    alloc: Global,
    blocks: &[u32],
    clusters: &[u32],
    count: u32,
) -> Result<Vec<u32>, AllocError>
    requires vertices { length clusters.now ≡ length blocks.now }
    requires below { All (λ i. i < count) clusters.now }
    ensures { IfOk result (λ above. above.items ≡ lifted blocks.now clusters.now count) }
{
    let mut above = vec![in alloc; 0u32; count as usize]?;
    for v in (0..blocks.len()).rev() {
        above[clusters[v] as usize] = blocks[v];
    }
    Ok(above)
}
