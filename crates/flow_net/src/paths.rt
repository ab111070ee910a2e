//! Flow along the levels: the rest of a way from the source to the sink, and blocking flows.

ghost use Rattle.std.specs.Prelude.{◌≡◌, ◌≢◌, ℕ, ◌+◌, ◌-◌, ◌*◌, ◌^◌, ◌<◌, ◌≤◌, length, slice_index, IfSome};
ghost use Rattle.flow_net.specs.Residual.{tail, IsStep, IsTree, IsOpen, IsBounded, IsRaised, IsMarked, Carries};

use crate::residual::{Halves, mate};

/// The least rest on the way from the source to the sink.
pub(crate) fn least_rest(halves: Halves<'_>, levels: &[u32], ways: &[u32], rests: &[u64]) -> u64
    requires rests { length rests.now ≡ length halves.heads.now }
    requires levels { length levels.now ≡ length halves.firsts.now }
    requires ways { length ways.now ≡ length levels.now }
    requires tree { IsTree halves.heads.now levels.now ways.now halves.sink }
    requires reached { 0 < slice_index levels.now halves.source }
    ensures carried { Carries halves.entry.heads.now rests.now ways.now result (slice_index levels.now
        halves.entry.source - 1) halves.entry.source }
    ensures positive { IsOpen rests.now levels.now ways.now halves.entry.sink → 0 < result }
{
    let mut node = halves.source;
    let mut least = u64::MAX;
    for _step in 1..levels[node as usize] {
        let half = ways[node as usize];
        least = least.min(rests[half as usize]);
        node = halves.heads[half as usize];
    }
    least
}

/// Raises the flow on the way from the source to the sink by an amount. Answers the first node on
/// the way from which it takes no more.
pub(crate) fn push(
    halves: Halves<'_>,
    levels: &[u32],
    ways: &[u32],
    amount: u64,
    rests: &mut [u64],
) -> u32
    requires rests { length rests.old ≡ length halves.heads.now }
    requires levels { length levels.now ≡ length halves.firsts.now }
    requires ways { length ways.now ≡ length levels.now }
    requires bounded { IsBounded rests.old }
    requires tree { IsTree halves.heads.now levels.now ways.now halves.sink }
    requires reached { 0 < slice_index levels.now halves.source }
    requires carried { Carries halves.heads.now rests.old ways.now amount (slice_index levels.now halves.source - 1)
        halves.source }
    ensures node { result < length levels.now }
    ensures raised { IsRaised halves.entry.heads.now halves.entry.source halves.entry.sink amount rests.old rests.new }
{
    let mut node = halves.source;
    let mut full = halves.sink;
    for _step in 1..levels[node as usize] {
        let half = ways[node as usize] as usize;
        let back = mate(ways[node as usize]) as usize;
        rests[half] -= amount;
        rests[back] += amount;
        if rests[half] == 0 && full == halves.sink {
            full = node;
        }
        node = halves.heads[half];
    }
    full
}

/// One more than the first half from a place in the list of a node on that has a rest and leads a level
/// lower; 0 where none is left.
fn seek(halves: Halves<'_>, levels: &[u32], rests: &[u64], node: u32, start: u32) -> u32
    requires rests { length rests.now ≡ length halves.heads.now }
    requires levels { length levels.now ≡ length halves.firsts.now }
    requires node { node < length levels.now }
    requires within { start ≤ length halves.heads.now }
    requires leaves { 0 < start → tail halves.heads.now (start - 1) ≡ node }
    ensures step { 0 < result → IsStep halves.entry.heads.now levels.now node (result - 1) }
    ensures rest { 0 < result → 0 < slice_index rests.now (result - 1) }
{
    let high = levels[node as usize];
    if high < 2 {
        return 0;
    }
    let mut at = start;
    while at > 0 {
        let half = at - 1;
        if rests[half as usize] > 0 && levels[halves.heads[half as usize] as usize] == high - 1 {
            return at;
        }
        at = halves.nexts[half as usize];
    }
    0
}

/// One step of the search for a way down the levels, from a node other than the sink: along the next
/// of its halves that has a rest and leads a level lower, and back where none is left. Answers the node
/// reached, or none where none is left at the source.
fn step(
    halves: Halves<'_>,
    levels: &[u32],
    rests: &[u64],
    node: u32,
    ways: &mut [u32],
    currents: &mut [u32],
    entries: &mut [u32],
) -> Option<u32>
    requires rests { length rests.now ≡ length halves.heads.now }
    requires levels { length levels.now ≡ length halves.firsts.now }
    requires ways { length ways.old ≡ length levels.now }
    requires currents { length currents.old ≡ length levels.now }
    requires entries { length entries.old ≡ length levels.now }
    requires node { node < length levels.now }
    requires tree { IsTree halves.heads.now levels.now ways.old halves.sink }
    requires marked { IsMarked halves.heads.now currents.old entries.old }
    ensures node { IfSome result (λ next. next < length levels.now) }
    ensures tree { IsTree halves.entry.heads.now levels.now ways.new halves.entry.sink }
    ensures marked { IsMarked halves.entry.heads.now currents.new entries.new }
{
    let at = seek(halves, levels, rests, node, currents[node as usize]);
    currents[node as usize] = at;
    if at == 0 {
        if node == halves.source {
            return None;
        }
        let entry = entries[node as usize];
        let back = halves.heads[mate(entry) as usize];
        currents[back as usize] = halves.nexts[entry as usize];
        return Some(back);
    }
    let half = at - 1;
    let next = halves.heads[half as usize];
    ways[node as usize] = half;
    entries[next as usize] = half;
    Some(next)
}

/// Where the node is the sink, raises the flow on the way there by its least rest, and answers the first
/// node on the way from which it takes no more. Answers any other node.
fn push_at_sink(
    halves: Halves<'_>,
    levels: &[u32],
    ways: &[u32],
    node: u32,
    rests: &mut [u64],
) -> u32
    requires rests { length rests.old ≡ length halves.heads.now }
    requires levels { length levels.now ≡ length halves.firsts.now }
    requires ways { length ways.now ≡ length levels.now }
    requires bounded { IsBounded rests.old }
    requires node { node < length levels.now }
    requires tree { IsTree halves.heads.now levels.now ways.now halves.sink }
    requires reached { 0 < slice_index levels.now halves.source }
    ensures node { result < length levels.now }
    ensures raised { IsRaised halves.entry.heads.now halves.entry.source halves.entry.sink 0 rests.old rests.new }
{
    if node != halves.sink {
        return node;
    }
    let amount = least_rest(halves, levels, ways, rests);
    push(halves, levels, ways, amount, rests)
}

/// Raises the flow along ways down the levels until none of them takes more.
pub(crate) fn block(
    halves: Halves<'_>,
    levels: &[u32],
    ways: &mut [u32],
    currents: &mut [u32],
    entries: &mut [u32],
    rests: &mut [u64],
)
    requires rests { length rests.old ≡ length halves.heads.now }
    requires levels { length levels.now ≡ length halves.firsts.now }
    requires ways { length ways.old ≡ length levels.now }
    requires currents { length currents.old ≡ length levels.now }
    requires entries { length entries.old ≡ length levels.now }
    requires bounded { IsBounded rests.old }
    requires entered { (v : ℕ) → v < length entries.old → slice_index entries.old v < length halves.heads.now }
    requires tree { IsTree halves.heads.now levels.now ways.old halves.sink }
    requires reached { 0 < slice_index levels.now halves.source }
    ensures entered { (v : ℕ) → v < length entries.new → slice_index entries.new v < length halves.entry.heads.now }
    ensures raised { IsRaised halves.entry.heads.now halves.entry.source halves.entry.sink 0 rests.old rests.new }
{
    currents.copy_from_slice(halves.firsts);
    let mut node = halves.source;
    // Each step back passes over a half, which happens once at most, and between two of them there are at
    // most as many steps down the levels as there are nodes.
    let steps = (halves.heads.len() + 1) * (levels.len() + 3);
    for _step in 0..steps {
        let start = push_at_sink(halves, levels, ways, node, rests);
        match step(halves, levels, rests, start, ways, currents, entries) {
            None => return,
            Some(next) => node = next,
        }
    }
}
