//! The cost of a partition, by the numbers of blocks that its nets touch, summed by one thread, or by several.

ghost use Rattle.std.specs.Prelude.{◌≡◌, ℕ, ◌+◌, ◌*◌, ◌<◌, ◌≤◌, ◌^◌, length};
ghost use Rattle.std.specs.Thread.{IsSync};
ghost use Rattle.hg_defs.specs.Hypergraph.{net_count, net_of};
ghost use Rattle.hg_defs.specs.Cost.{cost};
ghost use Rattle.hg_defs.specs.Cost as costs;
ghost use Rattle.pin_plain.specs.Costs.{IsCostOfRun};
ghost use Rattle.pin_plain.specs.Counts.{all_words, HaveSpreads};

use crate::tallies::{Nets, share_of};
use hg_base::{Objective, price};
use incidence::Hypergraph;
use std::thread;
use std::thread::Threads;

/// A thread sums what so many nets pay at least: less is summed in the time in which threads start.
const LEAST_NETS: u32 = 32768;

/// What a net pays for the number of blocks that it touches. No branch asks first whether it is cut: cut nets stand
/// among the others in no order, and a branch that is guessed wrong takes longer than to read a weight.
fn cost_at(h: &Hypergraph, e: u32, objective: Objective, touched: u64) -> u64
    requires net { e < net_count h.now }
    requires fits { (net_of h.now e).weight * costs.price objective touched < 2 ^ 57 }
    ensures { result ≡ (net_of h.now e).weight * costs.price objective touched }
{
    h.net_weight(e) * price(objective, touched)
}

/// What a run of nets pays.
fn cost_of_run(nets: &Nets<'_>, words: &[u64], from: u32, to: u32) -> u64
    requires run { (from ≤ to) × (to ≤ net_count nets.now.h.now) }
    requires all { length words.now ≡ all_words nets.now.h.now nets.now.k }
    requires spreads { HaveSpreads nets.now.h.now nets.now.k nets.now.blocks.now (net_count nets.now.h.now) words.now }
    ensures { IsCostOfRun nets.now.h.now nets.now.blocks.now from to result }
{
    let objective = nets.h.objective();
    let mut sum = 0;
    for e in from..to {
        let touched = words[nets.starts[e as usize] as usize - 1] - 64;
        sum += cost_at(nets.h, e, objective, touched);
    }
    sum
}

/// What a run of nets pays, by a thread for each share of it: this one starts all others, one after the other, and
/// takes the last share.
#[cycle(costs)]
fn cost_of_shares<R: Threads + Sync>(
    rt: &R,
    nets: &Nets<'_>,
    words: &[u64],
    share: u32,
    from: u32,
    to: u32,
) -> u64
    requires some { 0 < share }
    requires run { (from ≤ to) × (to ≤ net_count nets.now.h.now) }
    requires all { length words.now ≡ all_words nets.now.h.now nets.now.k }
    requires spreads { HaveSpreads nets.now.h.now nets.now.k nets.now.blocks.now (net_count nets.now.h.now) words.now }
    ensures { IsCostOfRun nets.now.h.now nets.now.blocks.now from to result }
{
    if to - from <= share {
        return cost_of_run(nets, words, from, to);
    }
    let mid = from + share;
    let first = || -> u64
        requires { (from ≤ mid) × (mid ≤ net_count nets.now.h.now) × (length words.now ≡ all_words nets.now.h.now
            nets.now.k) × HaveSpreads nets.now.h.now nets.now.k nets.now.blocks.now (net_count nets.now.h.now)
            words.now }
        ensures { IsCostOfRun nets.entry.now.h.now nets.entry.now.blocks.now from mid result }
    { cost_of_run(nets, words, from, mid) };
    let others = || -> u64
        requires { IsSync R.row × (0 < share) × (mid ≤ to) × (to ≤ net_count nets.now.h.now) × (length words.now ≡
            all_words nets.now.h.now nets.now.k) × HaveSpreads nets.now.h.now nets.now.k nets.now.blocks.now
            (net_count nets.now.h.now) words.now }
        ensures { IsCostOfRun nets.entry.now.h.now nets.entry.now.blocks.now mid to result }
    { cost_of_shares(rt, nets, words, share, mid, to) };
    let (low, high) = thread::join(rt, first, others);
    low + high
}

/// The cost, by the numbers of blocks that the nets touch.
pub fn cost_by_spreads(nets: &Nets<'_>, words: &[u64]) -> u64
    requires all { length words.now ≡ all_words nets.now.h.now nets.now.k }
    requires spreads { HaveSpreads nets.now.h.now nets.now.k nets.now.blocks.now (net_count nets.now.h.now) words.now }
    ensures value { result ≡ cost nets.now.h.now nets.now.blocks.now }
    ensures bound { result < 2 ^ 57 }
{
    cost_of_run(nets, words, 0, nets.h.nets())
}

/// Does what [`cost_by_spreads`] does in at most so many threads, and in no more than one for each 32,768 nets.
pub fn cost_with<R: Threads + Sync>(rt: &R, nets: &Nets<'_>, words: &[u64], workers: u32) -> u64
    requires some { 1 ≤ workers }
    requires all { length words.now ≡ all_words nets.now.h.now nets.now.k }
    requires spreads { HaveSpreads nets.now.h.now nets.now.k nets.now.blocks.now (net_count nets.now.h.now) words.now }
    ensures value { result ≡ cost nets.now.h.now nets.now.blocks.now }
    ensures bound { result < 2 ^ 57 }
{
    let count = nets.h.nets();
    let share = share_of(count, workers, LEAST_NETS);
    cost_of_shares(rt, nets, words, share, 0, count)
}
