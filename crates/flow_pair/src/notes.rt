//! What the pins of the nets of a region are: noted for runs of the nets, by a thread for each run.

ghost use Rattle.std.specs.Prelude.{◌≡◌, ◌<◌, ◌≤◌, ◌^◌, ◌++◌, ◌&&◌, ◌||◌, [], ◌∷◌, All, IfOk, OnOk, length, not};
ghost use Rattle.std.specs.Prelude.{nat_eq, slice_index_or, true, vec_len, ℕ};
ghost use Rattle.std.specs.Set.{is_member};
ghost use Rattle.hg_defs.specs.Hypergraph.{vertex_count, net_count, net_of};
ghost use Rattle.hg_defs.specs.Partition.{block_of};
ghost use Rattle.flow_pair.specs.Notes.{AreNotes, IsNote, IsNotedRun};
ghost use Rattle.flow_pair.specs.PairNetwork.{has_pin_outside};
ghost use Rattle.flow_pair.specs.ShortNetwork.{inner_nodes};

use crate::pair::Pair;
use crew::{each, span_of};
use flow_net::NoMemory;
use std::alloc::Global;
use std::thread::Threads;

/// A thread more notes nets for each so many: to start one costs as much.
const LEAST_NETS: usize = 4096;

/// What the pins of a net are.
#[derive(Clone, Copy, Debug)]
pub(crate) struct Note {
    /// Where the nodes of those in the region begin in a list, and where they end.
    pub(crate) from: usize,
    pub(crate) to: usize,
    /// Whether others are in the first block, and in the second one.
    pub(crate) outside: (bool, bool),
    /// What the net pays for touching both blocks.
    pub(crate) price: u64,
}

/// The notes of a run of nets.
#[derive(Drop)]
pub(crate) struct Notes {
    /// The nodes of all its nets, one net after the other.
    pub(crate) nodes: Vec<u32>,
    pub(crate) nets: Vec<Note>,
    /// Whether there was memory for all of them.
    pub(crate) whole: bool,
}

/// Notes a pin: its node where it is in the region, and else its block.
fn note_pin(
    pair: Pair<'_>,
    v: u32,
    nodes: &mut Vec<u32>,
    outside: (bool, bool),
) -> Result<(bool, bool), NoMemory>
    requires vertex { v < vertex_count pair.h.now }
    ensures nodes { OnOk result (nodes.new.items ≡ nodes.old.items ++ inner_nodes pair.entry.region.now (v ∷ [])) }
    ensures first { IfOk result (λ r. r.0 ≡ (outside.0 || (nat_eq (block_of pair.entry.blocks.now v) pair.entry.first &&
        not (is_member nat_eq pair.entry.region.now v)))) }
    ensures second { IfOk result (λ r. r.1 ≡ (outside.1 || (nat_eq (block_of pair.entry.blocks.now v) pair.entry.second
        && not (is_member nat_eq pair.entry.region.now v)))) }
{
    let place = pair.place(v);
    if place < pair.region.len() {
        nodes.push(2 + place as u32)?;
        return Ok(outside);
    }
    let block = pair.blocks[v as usize];
    Ok((
        outside.0 || block == pair.first,
        outside.1 || block == pair.second,
    ))
}

/// Appends the nodes of those pins of a net that are in the region. Answers whether others are in the first
/// block, and in the second one.
fn note_pins(pair: Pair<'_>, e: u32, nodes: &mut Vec<u32>) -> Result<(bool, bool), NoMemory>
    requires net { e < net_count pair.h.now }
    ensures nodes { OnOk result (nodes.new.items ≡ nodes.old.items ++ inner_nodes pair.entry.region.now (net_of
        pair.entry.h.now e).pins) }
    ensures first { IfOk result (λ r. r.0 ≡ has_pin_outside pair.entry.blocks.now pair.entry.region.now (net_of
        pair.entry.h.now e) pair.entry.first) }
    ensures second { IfOk result (λ r. r.1 ≡ has_pin_outside pair.entry.blocks.now pair.entry.region.now (net_of
        pair.entry.h.now e) pair.entry.second) }
{
    let mut outside = (false, false);
    let pins = pair.h.pins(e);
    for v in pins {
        outside = note_pin(pair, *v, nodes, outside)?;
    }
    Ok(outside)
}

/// Notes a net, and appends its nodes.
fn note_net(pair: Pair<'_>, e: u32, nodes: &mut Vec<u32>) -> Result<Note, NoMemory>
    requires net { e < net_count pair.h.now }
    ensures nodes { OnOk result (nodes.new.items ≡ nodes.old.items ++ inner_nodes pair.entry.region.now (net_of
        pair.entry.h.now e).pins) }
    ensures note { IfOk result (IsNote pair.entry.h.now pair.entry.blocks.now pair.entry.first pair.entry.second
        pair.entry.region.now nodes.new.items (net_of pair.entry.h.now e)) }
{
    let from = nodes.len();
    let outside = note_pins(pair, e, nodes)?;
    Ok(Note {
        from,
        to: nodes.len(),
        outside,
        price: pair.net_price(e),
    })
}

/// Notes nets, from the first one on.
fn note_nets(
    pair: Pair<'_>,
    nets: &[u32],
    nodes: &mut Vec<u32>,
    notes: &mut Vec<Note>,
) -> Result<(), NoMemory>
    requires { All (λ e. e < net_count pair.h.now) nets.now }
    ensures { OnOk result (AreNotes pair.entry.h.now pair.entry.blocks.now pair.entry.first pair.entry.second
        pair.entry.region.now nets.now nodes.new.items notes.new.items) }
{
    nodes.clear();
    notes.clear();
    for e in nets {
        notes.push(note_net(pair, *e, nodes)?)?;
    }
    Ok(())
}

impl Notes {
    /// Makes notes of no nets, which take no memory yet.
    fn new(alloc: Global) -> Self {
        Notes {
            nodes: Vec::new(alloc),
            nets: Vec::new(alloc),
            whole: true,
        }
    }

    /// Notes nets, in place of those before.
    pub(crate) fn note(&mut self, pair: Pair<'_>, nets: &[u32])
        requires { All (λ e. e < net_count pair.h.now) nets.now }
        ensures { self.new.whole ≡ true → AreNotes pair.entry.h.now pair.entry.blocks.now pair.entry.first
            pair.entry.second pair.entry.region.now nets.now self.new.nodes.items self.new.nets.items }
    {
        self.whole = note_nets(pair, nets, &mut self.nodes, &mut self.nets).is_ok();
    }
}

/// Makes notes for so many runs at least.
pub(crate) fn make_runs(alloc: Global, runs: &mut Vec<Notes>, count: usize) -> Result<(), NoMemory>
    ensures { OnOk result (count ≤ vec_len runs.new) }
{
    while runs.len() < count {
        runs.push(Notes::new(alloc))?;
    }
    Ok(())
}

/// In how many runs so many nets are noted by at most so many threads.
pub(crate) fn count_runs(nets: usize, threads: u32) -> usize
    requires { 1 ≤ threads }
    ensures { (1 ≤ result) × (result ≤ 64) }
{
    (threads.min(64) as usize).min(1 + nets / LEAST_NETS)
}

/// Notes nets, by a thread for each run of them. There are as many runs as there are places for their notes.
pub(crate) fn note_runs<R: Threads + Sync>(rt: &R, pair: Pair<'_>, nets: &[u32], runs: &mut [Notes])
    requires nets { All (λ e. e < net_count pair.h.now) nets.now }
    requires few { length nets.now < 2 ^ 32 }
    requires runs { length runs.old ≤ 64 }
    ensures count { length runs.new ≡ length runs.old }
    ensures noted { (i : ℕ) (d : _) → i < length runs.old → IsNotedRun pair.entry.h.now pair.entry.blocks.now
        pair.entry.first pair.entry.second pair.entry.region.now nets.now (length runs.old) i (slice_index_or runs.new i
        d) }
{
    let count = runs.len() as u32;
    each(
        rt,
        runs,
        &|i, run: &mut Notes|
            requires { (i < count) × (count ≤ 64) × (length nets.now < 2 ^ 32) × All (λ e. e < net_count pair.h.now)
                nets.now }
            ensures { IsNotedRun pair.entry.h.now pair.entry.blocks.now pair.entry.first pair.entry.second
                pair.entry.region.now nets.entry.now count i run.exit.now }
        {
            let span = span_of(nets.len() as u32, count, i as u32);
            run.note(pair, &nets[span.from as usize..span.to as usize]);
        },
    );
}
