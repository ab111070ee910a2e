//! The cost, summed by a thread for each run of the nets.

ghost use Rattle.std.specs.Prelude.{◌≡◌, ◌<◌, ◌≤◌, ◌^◌, length};
ghost use Rattle.hg_defs.specs.Sums.{total};
ghost use Rattle.hg_defs.specs.Hypergraph.{vertex_count, net_count, net_of, IsWithinLimits};
ghost use Rattle.hg_defs.specs.Partition.{IsPartition};
ghost use Rattle.hg_defs.specs.Cost.{connectivity, cost};
ghost use Rattle.exact_cost.specs.Carrying.{carried_down, AllLead};
ghost use Rattle.exact_cost.specs.Paying.{IsPaid, IsPaidByRun};

use crate::carrying::block_below;
use crew::{each, span_of};
use hg_base::{BlockSet, FlatHyper, MapList, price};
use std::thread::Threads;

/// A thread takes so many nets at least.
const LEAST_NETS: u32 = 8192;

/// The nets are cut into so many runs at most.
const MOST_RUNS: usize = 64;

/// How many blocks the pins of a net touch, where the blocks are carried down.
fn touched(h: &FlatHyper, maps: &[MapList], blocks: &[u32], e: u32) -> u64
    requires net { e < net_count h.now }
    requires leads { AllLead (vertex_count h.now) maps.now blocks.now }
    ensures value { result ≡ connectivity (carried_down (vertex_count h.now) maps.now blocks.now) (net_of h.now e).pins }
    ensures bound { result ≤ length (net_of h.now e).pins }
{
    let mut seen = BlockSet::new();
    let mut count = 0;
    'pins: for v in h.pins(e) {
        count += u64::from(seen.insert(block_below(maps, blocks, *v)));
    }
    count
}

/// What a run of nets pays.
fn cost_of_run(h: &FlatHyper, maps: &[MapList], blocks: &[u32], from: u32, to: u32) -> u64
    requires run { (from ≤ to) × (to ≤ net_count h.now) }
    requires bounds { IsWithinLimits h.now }
    requires leads { AllLead (vertex_count h.now) maps.now blocks.now }
    ensures { IsPaid h.now (carried_down (vertex_count h.now) maps.now blocks.now) from to result }
{
    let objective = h.objective();
    let mut sum = 0;
    'nets: for e in from..to {
        sum += h.net_weight(e) * price(objective, touched(h, maps, blocks, e));
    }
    sum
}

/// What each run of the nets pays, by a thread for each. There are as many runs as there are sums, which together are
/// the cost.
fn sum_runs<R: Threads + Sync>(
    rt: &R,
    h: &FlatHyper,
    maps: &[MapList],
    blocks: &[u32],
    sums: &mut [u64],
)
    requires runs { (1 ≤ length sums.old) × (length sums.old ≤ 64) }
    requires bounds { IsWithinLimits h.now }
    requires leads { AllLead (vertex_count h.now) maps.now blocks.now }
    ensures { total (λ s. s) sums.new ≡ cost h.now (carried_down (vertex_count h.now) maps.now blocks.now) }
{
    let runs = sums.len() as u32;
    each(
        rt,
        sums,
        &|i, sum: &mut u64|
            requires { (i < runs) × (runs ≤ 64) × IsWithinLimits h.now × AllLead (vertex_count h.now) maps.now
                blocks.now }
            ensures { IsPaidByRun h.entry.now (carried_down (vertex_count h.entry.now) maps.entry.now blocks.entry.now)
                runs i sum.exit.now }
        {
            let run = span_of(h.nets(), runs, i as u32);
            *sum = cost_of_run(h, maps, blocks, run.from, run.to);
        },
    );
}

/// The sum of all.
fn add_all(sums: &[u64]) -> u64
    requires { total (λ s. s) sums.now < 2 ^ 57 }
    ensures { result ≡ total (λ s. s) sums.now }
{
    let mut all = 0;
    'sums: for sum in sums {
        all += *sum;
    }
    all
}

/// The exact cost, by the objective of `h`, of blocks that are carried down to its vertices through some clusterings:
/// the first has an entry for each vertex of `h`, the entries of each are places in the next, and those of the last
/// are places in `blocks`.
///
/// It is summed by at most `workers` threads, and by no more than one for each 8,192 nets. It takes no memory.
pub fn cost_below<R: Threads + Sync>(
    rt: &R,
    h: &FlatHyper,
    maps: &[MapList],
    blocks: &[u32],
    workers: u32,
) -> u64
    requires { AllLead (vertex_count h.now) maps.now blocks.now }
    ensures value { result ≡ cost h.now (carried_down (vertex_count h.now) maps.now blocks.now) }
    ensures bound { result < 2 ^ 57 }
{
    let runs = workers
        .min(h.nets() / LEAST_NETS)
        .clamp(1, MOST_RUNS as u32);
    let mut all = [0; MOST_RUNS];
    let sums = &mut all[..runs as usize];
    sum_runs(rt, h, maps, blocks, sums);
    add_all(sums)
}

/// Does what `hg_base::cost_of` does, by at most `workers` threads, and by no more than one for each 8,192 nets. It
/// takes no memory.
pub fn cost_with<R: Threads + Sync>(
    rt: &R,
    h: &FlatHyper,
    blocks: &[u32],
    k: u32,
    workers: u32,
) -> u64
    requires k { k ≤ 256 }
    requires partition { IsPartition h.now k blocks.now }
    ensures value { result ≡ cost h.now blocks.now }
    ensures bound { result < 2 ^ 57 }
{
    cost_below(rt, h, &[], blocks, workers)
}
