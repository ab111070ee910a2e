//! The levels of the deterministic mode.

ghost use Rattle.std.specs.Prelude.{◌≡◌, ◌<◌, ◌≤◌, IfOk};
ghost use Rattle.det_sync.specs.Descent.{AreDetLevels};

use coarsen::{cluster_cap, is_twentieth_fewer, pair_sweep};
use contract_nets::{contract, count_clusters};
use hg_base::NoMemory;
use incidence::Hypergraph;
use level_stack::LevelStack;
use round_log::Stop;
use std::alloc::Global;
use std::thread::Threads;

/// Coarsens a hypergraph for `k` blocks by pairing alone, so that the levels follow from the
/// hypergraph and `k`, whatever the number of workers that contract.
///
/// A level with more than `32 * k` vertices is paired within the cap of `k` blocks and contracted,
/// where the pairing removes at least a twentieth of its vertices. Otherwise that pairing is the stop.
pub fn det_levels<R: Threads + Sync>(
    rt: &R,
    alloc: Global,
    h: Hypergraph,
    k: u32,
    workers: u32,
) -> Result<(LevelStack, Stop), NoMemory>
    requires blocks { 0 < k }
    requires some { 1 ≤ workers }
    requires few { workers ≤ 64 }
    ensures base { IfOk result (λ pair. pair.0.base ≡ h) }
    ensures levels { IfOk result (λ pair. AreDetLevels h k pair.0.maps pair.1) }
{
    let mut stack = LevelStack::start(alloc, h)?;
    'levels: while u64::from(stack.top().vertices()) > 32 * u64::from(k) {
        let level = stack.top();
        let cap = cluster_cap(level.total_weight(), k);
        let clusters = pair_sweep(alloc, level, cap)?;
        let count = count_clusters(clusters.slice());
        if !is_twentieth_fewer(level, count) {
            return Ok((stack, Stop::Stuck(clusters)));
        }
        let (coarse, ledger) = contract(rt, alloc, level, clusters.slice(), workers)?;
        stack.push(clusters, coarse, ledger)?;
    }
    Ok((stack, Stop::Small))
}
