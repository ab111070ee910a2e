//! Nets in order, with equal neighbours merged, part by part.

ghost use Rattle.std.specs.Prelude.{◌≡◌, ℕ, ◌+◌, ◌<◌, ◌≤◌, ◌^◌, ◌++◌, [], map, length, replicate, All, IfOk, OnOk};
ghost use Rattle.std.specs.Prelude.{vec_len, slice_index, slice_index_or, ◌≢◌, ◌↔◌, IsTrue};
ghost use Rattle.contract_nets.specs.Nets.{all_nets};
ghost use Rattle.hg_defs.specs.Hypergraph.{vertex_count, net_count, IsNet, IsWithinLimits};
ghost use Rattle.contract_nets.specs.Merging.{merged, AreWithin, ArePlaces};
ghost use Rattle.contract_nets.specs.Keys.{net_of_key, IsKey};
ghost use Rattle.contract_nets.specs.Cuts.{IsEnd, AreEnds, AreCuts};
ghost use Rattle.contract_nets.specs.Parts.{IsMergedPart, IsEmptyPart};

use crate::cuts::cuts_of;
use crate::images::Images;
use crate::keys::{Key, have_same_pins};
use crate::ledger::DROPPED;
use crate::nets::Nets;
use crew::each;
use hg_base::{FlatHyper, NoMemory};
use std::alloc::Global;
use std::mem;
use std::snapshot::Snapshot;
use std::thread::Threads;

/// Some nets with equal neighbours merged, and for each key that they are made of whether it ends its net: whether it
/// is the last one that was merged into it.
#[derive(Drop)]
struct MergedPart {
    nets: Nets,
    ends: Vec<bool>,
}

/// The nets of sorted keys, with equal neighbours merged: in lists that follow one another, each of
/// which a thread makes, and which are so many at most. And for each key whether it ends its net.
pub(crate) fn merge_nets<R: Threads + Sync>(
    rt: &R,
    alloc: Global,
    nets: &Images<'_>,
    keys: &[Key],
    threads: u32,
) -> Result<(Vec<Nets>, Vec<bool>), NoMemory>
    requires keys { All (IsKey nets.now) keys.now }
    requires threads { 0 < threads }
    requires limits { AreWithin (merged (map (net_of_key nets.now) keys.now)) }
    ensures nets { IfOk result (λ pair. all_nets pair.0.items ≡ merged (map (net_of_key nets.now) keys.now)) }
    ensures ends { IfOk result (λ pair. AreEnds nets.now keys.now pair.1.items) }
{
    let cuts = cuts_of(alloc, nets, keys, threads)?;
    let mut lists = Vec::new(alloc);
    let mut ends = Vec::with_capacity(alloc, keys.len())?;
    for part in merge_parts(rt, alloc, nets, keys, &cuts)? {
        let MergedPart {
            nets: list,
            ends: more,
        } = part?;
        ends.extend_from_slice(&more)?;
        lists.push(list)?;
    }
    Ok((lists, ends))
}

/// The merged nets of each part, or no memory for one. Their room is made here, since the memory
/// that a thread takes stays with the thread's arena.
fn merge_parts<R: Threads + Sync>(
    rt: &R,
    alloc: Global,
    nets: &Images<'_>,
    keys: &[Key],
    cuts: &[usize],
) -> Result<Vec<Result<MergedPart, NoMemory>>, NoMemory>
    requires keys { All (IsKey nets.now) keys.now }
    requires limits { AreWithin (merged (map (net_of_key nets.now) keys.now)) }
    requires cuts { AreCuts nets.now keys.now (length keys.now) cuts.now }
    ensures count { IfOk result (λ parts. vec_len parts + 1 ≡ length cuts.now) }
    ensures each { IfOk result (λ parts. (j : ℕ) (d : _) → j < vec_len parts →
        IfOk (slice_index_or parts.items j d) (IsMergedPart nets.now keys.now cuts.now j)) }
{
    let mut parts = empty_parts(alloc, nets, cuts)?;
    each(
        rt,
        parts.as_mut_slice(),
        &|j: usize, part: &mut Result<MergedPart, NoMemory>|
            requires { (j + 1 < length cuts.now) × All (IsKey nets.now) keys.now
                × AreWithin (merged (map (net_of_key nets.now) keys.now))
                × AreCuts nets.now keys.now (length keys.now) cuts.now × IfOk part.now IsEmptyPart }
            ensures { IfOk part.exit.now (IsMergedPart nets.entry.now keys.entry.now cuts.entry.now j) }
        { fill_part(nets, keys, cuts, j, part) },
    );
    Ok(parts)
}

/// No nets for each part. A part has room for twice the average of the pins, since nets of many pins come first.
fn empty_parts(
    alloc: Global,
    nets: &Images<'_>,
    cuts: &[usize],
) -> Result<Vec<Result<MergedPart, NoMemory>>, NoMemory>
    requires some { 0 < length cuts.now }
    requires rising { (j : ℕ) → j + 1 < length cuts.now → slice_index cuts.now j ≤ slice_index cuts.now (j + 1) }
    ensures count { IfOk result (λ parts. vec_len parts + 1 ≡ length cuts.now) }
    ensures empty { IfOk result (λ parts. All (λ one. IfOk one IsEmptyPart) parts.items) }
{
    let room = nets.mean_pins().saturating_mul(2);
    let mut parts = Vec::new(alloc);
    for j in 0..cuts.len() - 1 {
        let count = cuts[j + 1] - cuts[j];
        parts.push(Ok(MergedPart {
            nets: Nets::with_room(alloc, count, count.saturating_mul(room))?,
            ends: Vec::with_capacity(alloc, count)?,
        }))?;
    }
    Ok(parts)
}

/// Writes the merged nets of part `j` into their room. The thread has their lengths to itself meanwhile, since a line
/// of the cache that holds those of two parts would go to and fro between threads.
fn fill_part(
    nets: &Images<'_>,
    keys: &[Key],
    cuts: &[usize],
    j: usize,
    part: &mut Result<MergedPart, NoMemory>,
)
    requires part { j + 1 < length cuts.now }
    requires keys { All (IsKey nets.now) keys.now }
    requires limits { AreWithin (merged (map (net_of_key nets.now) keys.now)) }
    requires cuts { AreCuts nets.now keys.now (length keys.now) cuts.now }
    requires empty { IfOk part.old IsEmptyPart }
    ensures { IfOk part.new (IsMergedPart nets.now keys.now cuts.now j) }
{
    let Ok(mut room) = mem::replace(part, Err(NoMemory)) else {
        return;
    };
    *part = match merge_keys(
        nets,
        &keys[cuts[j]..cuts[j + 1]],
        &mut room.nets,
        &mut room.ends,
    ) {
        Ok(()) => Ok(room),
        Err(refused) => Err(refused),
    };
}

/// Gives an empty list the nets of the keys, in this order, with equal neighbours merged; notes for each key whether
/// it ends its net.
fn merge_keys(
    nets: &Images<'_>,
    keys: &[Key],
    list: &mut Nets,
    ends: &mut Vec<bool>,
) -> Result<(), NoMemory>
    requires keys { All (IsKey nets.now) keys.now }
    requires no_nets { list.old ≡ [] }
    requires no_ends { ends.old.items ≡ [] }
    requires limits { AreWithin (merged (map (net_of_key nets.now) keys.now)) }
    ensures nets { OnOk result (list.new ≡ merged (map (net_of_key nets.now) keys.now)) }
    ensures ends { OnOk result (AreEnds nets.now keys.now ends.new.items) }
{
    let mut weight = 0;
    for i in 0..keys.len() {
        let e = keys[i].1;
        weight += nets.net_weight(e);
        let end = ends_net(nets, keys, i);
        ends.push(end)?;
        if end {
            list.push(weight, nets.pins(e))?;
            weight = 0;
        }
    }
    Ok(())
}

/// Whether key `i` is the last one of its net: the next one has other pins, or there is none.
fn ends_net(nets: &Images<'_>, keys: &[Key], i: usize) -> bool
    requires keys { All (IsKey nets.now) keys.now }
    requires below { i < length keys.now }
    ensures { IsTrue result ↔ IsEnd nets.now keys.now i }
{
    i + 1 == keys.len() || !have_same_pins(nets, &keys[i], &keys[i + 1])
}

/// Adds the nets of lists to a hypergraph without nets, one list after the other, with room for no
/// more than these.
pub(crate) fn add_nets(coarse: &mut FlatHyper, lists: &[Nets]) -> Result<(), NoMemory>
    requires none { coarse.old.nets ≡ [] }
    requires nets { All (IsNet (vertex_count coarse.old)) (all_nets lists.now) }
    requires limits { IsWithinLimits (record coarse.old { nets = all_nets lists.now }) }
    ensures { OnOk result (coarse.new ≡ record coarse.old { nets = all_nets lists.now }) }
{
    reserve_all(coarse, lists)?;
    for k in 0..lists.len() {
        lists[k].add_to(coarse)?;
    }
    Ok(())
}

/// Makes room for the nets of lists in a hypergraph.
fn reserve_all(coarse: &mut FlatHyper, lists: &[Nets]) -> Result<(), NoMemory>
    ensures { coarse.new ≡ coarse.old }
{
    let mut nets: usize = 0;
    let mut pins: usize = 0;
    for list in lists {
        nets = nets.saturating_add(list.len());
        pins = pins.saturating_add(list.pins());
    }
    coarse.reserve(nets, pins)
}

/// Writes the place of each net of the keys among the merged ones. No pins are compared, since it is known which keys
/// end their nets.
pub(crate) fn write_places(
    nets: Snapshot<Images<'_>>,
    keys: &[Key],
    ends: &[bool],
    places: &mut [u32],
)
    requires keys { All (IsKey nets.value) keys.now }
    requires ends { AreEnds nets.value keys.now ends.now }
    requires limits { AreWithin (merged (map (net_of_key nets.value) keys.now)) }
    requires places { places.old ≡ replicate (net_count nets.value) DROPPED }
    ensures placed { ArePlaces nets.entry.value.nets
        (map (λ e. e.pins) (merged (map (net_of_key nets.entry.value) keys.now))) places.new }
    ensures all { All (λ key. slice_index places.new key.1 ≢ DROPPED) keys.now }
{
    let mut place = 0;
    for i in 0..keys.len() {
        places[keys[i].1 as usize] = place;
        place += u32::from(ends[i]);
    }
}
