//! The nets over the clusters: each has the set of its pins' clusters for pins.

ghost use Rattle.std.specs.Prelude.{◌≡◌, ℕ, ◌+◌, ◌*◌, ◌^◌, ◌<◌, ◌≤◌, map, length, All, slice_index, slice_index_or};
ghost use Rattle.std.specs.Prelude.{IfOk, OnOk, vec_len, []};
ghost use Rattle.std.specs.List.Sorted.{IsStrictlyIncreasing};
ghost use Rattle.std.specs.Ordering.{nat_cmp};
ghost use Rattle.hg_defs.specs.Sorting.{set_of};
ghost use Rattle.hg_defs.specs.Hypergraph.{vertex_count, net_count, net_of};
ghost use Rattle.hg_defs.specs.Clustering.{cluster_count};
ghost use Rattle.contract_nets.specs.Keys.{rest_of, keys_from};
ghost use Rattle.contract_nets.specs.Images.{over, IsPart};
ghost use Rattle.contract_nets.specs.Ranges.{all_keys};
ghost use Rattle.contract_nets.specs.Mapped.{keys_in, IsMapped, IsBare};

use crate::keys::{Key, push_key};
use crew::each;
use hg_base::NoMemory;
use incidence::Hypergraph;
use std::alloc::{AllocError, Global};
use std::marker::Model;
use std::mem;
use std::snapshot::Snapshot;
use std::thread::Threads;

/// A part has so many nets at least, but for the last one: to start a thread for it costs as much
/// as a thousand nets.
const LEAST_NETS: u32 = 4096;

/// The images of some nets, one list after the other, and where each starts.
#[derive(Debug, Drop)]
pub(crate) struct Part {
    starts: Vec<u32>,
    pins: Vec<u32>,
}

impl Model for Part {
    ghost use Rattle.contract_nets.specs.Images.{Lists};

    ghost Value = { Lists };

    ghost view = { λ part. record { starts = part.starts.items; pins = part.pins.items } };
}

/// The images of all nets of a hypergraph, in parts of a size. As a hypergraph its vertices are the
/// clusters, whose weights and fixes say nothing.
#[derive(Drop)]
pub(crate) struct Images<'a> {
    h: &'a Hypergraph,
    clusters: Snapshot<&'a [u32]>,
    parts: Vec<Part>,
    size: u32,
}

impl<'a> Model for Images<'a> {
    ghost use Rattle.std.specs.Prelude.{replicate};
    ghost use Rattle.hg_defs.specs.Hypergraph.{Hyper};
    ghost use Rattle.hg_defs.specs.Clustering.{cluster_count};
    ghost use Rattle.contract_nets.specs.Images.{over, ArePartsOf};

    ghost Value = { Hyper };

    ghost view = { λ images. over images.h.now images.clusters.value.now };

    ghost invariant = { λ images. ArePartsOf images.h.now images.clusters.value.now images.size images.parts.items };
}

impl Images<'_> {
    /// How many nets there are.
    pub(crate) fn nets(&self) -> u32
        ensures count { result ≡ net_count self.now }
        ensures few { vertex_count self.now ≤ 2 ^ 22 }
    {
        self.h.nets()
    }

    /// How many pins a net has on average, rounded up.
    pub(crate) fn mean_pins(&self) -> usize {
        let mut pins: usize = 0;
        for part in &self.parts {
            pins = pins.saturating_add(part.pins.len());
        }
        pins.div_ceil(self.h.nets().max(1) as usize)
    }

    /// The clusters of a net.
    pub(crate) fn pins(&self, e: u32) -> &[u32]
        requires { e < net_count self.now }
        ensures value { result.now ≡ (net_of self.now e).pins }
        ensures rising { IsStrictlyIncreasing result.now }
        ensures below { All (λ i. i < vertex_count self.now) result.now }
    {
        let _vertices = self.h.vertices();
        let part = &self.parts[(e / self.size) as usize];
        let at = (e % self.size) as usize;
        &part.pins[part.starts[at] as usize..part.starts[at + 1] as usize]
    }

    /// The clusters of a net behind the first two; none for a number that no net has.
    pub(crate) fn rest(&self, e: u32) -> &[u32]
        ensures { result.now ≡ rest_of self.now e }
    {
        if e >= self.nets() {
            return &[];
        }
        let pins = self.pins(e);
        if pins.len() < 2 {
            return &[];
        }
        &pins[2..]
    }

    /// The weight of a net.
    pub(crate) fn net_weight(&self, e: u32) -> u64
        requires { e < net_count self.now }
        ensures value { result ≡ (net_of self.now e).weight }
        ensures bound { result < 2 ^ 54 }
    {
        self.h.net_weight(e)
    }
}

/// The images of some nets, and the keys of those with two pins or more.
#[derive(Drop)]
struct Mapped {
    part: Part,
    keys: Vec<Key>,
}

/// The images of all nets, and the keys of those with two pins or more in lists that follow one another, in the order
/// of the nets: made part by part, by as many threads as there are parts, which are so many at most.
pub(crate) fn map_nets<'a, R: Threads + Sync>(
    rt: &R,
    alloc: Global,
    h: &'a Hypergraph,
    clusters: &'a [u32],
    threads: u32,
) -> Result<(Images<'a>, Vec<Vec<Key>>), NoMemory>
    requires vertices { length clusters.now ≡ vertex_count h.now }
    requires few { cluster_count clusters.now ≤ 2 ^ 22 }
    requires threads { 0 < threads }
    ensures images { IfOk result (λ pair. pair.0 ≡ over h.now clusters.now) }
    ensures keys { IfOk result (λ pair. all_keys (map (λ list. list.items) pair.1.items)
        ≡ keys_from (over h.now clusters.now) 0 (net_count h.now)) }
{
    let size = h.nets().div_ceil(threads).max(LEAST_NETS);
    let mut parts = Vec::new(alloc);
    let mut lists = Vec::new(alloc);
    for mapped in map_parts(rt, alloc, h, clusters, size)? {
        let Mapped { part, keys } = mapped?;
        lists.push(keys)?;
        parts.push(part)?;
    }
    let images = Images {
        h,
        clusters: Snapshot::of(&clusters),
        parts,
        size,
    };
    Ok((images, lists))
}

/// The parts of this size with their keys, or no memory for one. Their room is made here, since the
/// memory that a thread takes stays with the thread's arena.
fn map_parts<R: Threads + Sync>(
    rt: &R,
    alloc: Global,
    h: &Hypergraph,
    clusters: &[u32],
    size: u32,
) -> Result<Vec<Result<Mapped, NoMemory>>, NoMemory>
    requires vertices { length clusters.now ≡ vertex_count h.now }
    requires size { 0 < size }
    ensures all { IfOk result (λ parts. net_count h.now ≤ vec_len parts * size) }
    ensures each { IfOk result (λ parts. (j : ℕ) (d : _) → j < vec_len parts →
        IfOk (slice_index_or parts.items j d) (IsMapped h.now clusters.now size j)) }
{
    let mut parts = empty_parts(alloc, h, size)?;
    each(
        rt,
        parts.as_mut_slice(),
        &|j: usize, part: &mut Result<Mapped, NoMemory>|
            requires { (j * size < net_count h.now) × (length clusters.now ≡ vertex_count h.now)
                × IfOk part.now IsBare }
            ensures { IfOk part.exit.now (IsMapped h.entry.now clusters.entry.now size j) }
        { fill_part(alloc, h, clusters, size, j, part) },
    );
    Ok(parts)
}

/// Parts without lists and keys, with room for those of all nets.
fn empty_parts(
    alloc: Global,
    h: &Hypergraph,
    size: u32,
) -> Result<Vec<Result<Mapped, NoMemory>>, NoMemory>
    requires { 0 < size }
    ensures all { IfOk result (λ parts. net_count h.now ≤ vec_len parts * size) }
    ensures begins { IfOk result (λ parts. (j : ℕ) → j < vec_len parts → j * size < net_count h.now) }
    ensures empty { IfOk result (λ parts. All (λ one. IfOk one IsBare) parts.items) }
{
    let nets = h.nets();
    let mut parts = Vec::new(alloc);
    for j in 0..nets.div_ceil(size) {
        let count = size.min(nets - j * size);
        let starts = Vec::with_capacity(alloc, count as usize + 1)?;
        let pins = Vec::with_capacity(alloc, pin_sum(h, j * size, count))?;
        let keys = Vec::with_capacity(alloc, count as usize)?;
        parts.push(Ok(Mapped {
            part: Part { starts, pins },
            keys,
        }))?;
    }
    Ok(parts)
}

/// Writes the lists and the keys of part `j` into their room. The thread has their lengths to itself meanwhile, since a
/// line of the cache that holds those of two parts would go to and fro between threads.
fn fill_part(
    alloc: Global,
    h: &Hypergraph,
    clusters: &[u32],
    size: u32,
    j: usize,
    part: &mut Result<Mapped, NoMemory>,
)
    requires vertices { length clusters.now ≡ vertex_count h.now }
    requires begins { j * size < net_count h.now }
    requires empty { IfOk part.old IsBare }
    ensures { IfOk part.new (IsMapped h.now clusters.now size j) }
{
    let Ok(mut room) = mem::replace(part, Err(NoMemory)) else {
        return;
    };
    *part = match map_part(alloc, h, clusters, size, j, &mut room.part, &mut room.keys) {
        Ok(()) => Ok(room),
        Err(refused) => Err(refused),
    };
}

/// Part `j` of the nets, and its keys.
fn map_part(
    alloc: Global,
    h: &Hypergraph,
    clusters: &[u32],
    size: u32,
    j: usize,
    part: &mut Part,
    keys: &mut Vec<Key>,
) -> Result<(), NoMemory>
    requires vertices { length clusters.now ≡ vertex_count h.now }
    requires begins { j * size < net_count h.now }
    requires empty { part.old ≡ record { starts = []; pins = [] } }
    requires none { keys.old.items ≡ [] }
    ensures part { OnOk result (IsPart h.now clusters.now size j part.new) }
    ensures keys { OnOk result (keys.new.items ≡ keys_in h.now clusters.now size j) }
{
    let nets = h.nets();
    let from = (j * size as usize) as u32;
    let mut numbers = Vec::new(alloc);
    part.starts.push(0u32)?;
    for i in 0..size.min(nets - from) {
        map_pins(&mut numbers, clusters, h.pins(from + i))?;
        part.pins.extend_from_slice(numbers.as_slice())?;
        part.starts.push(part.pins.len() as u32)?;
        push_key(keys, from + i, numbers.as_slice())?;
    }
    Ok(())
}

/// How many pins some nets have together.
fn pin_sum(h: &Hypergraph, from: u32, count: u32) -> usize
    requires { from + count ≤ net_count h.now }
{
    let _nets = h.nets();
    let mut sum: usize = 0;
    for i in 0..count {
        sum = sum.saturating_add(h.pins(from + i).len());
    }
    sum
}

/// Writes the set of the clusters of pins into a list.
fn map_pins(numbers: &mut Vec<u32>, clusters: &[u32], pins: &[u32]) -> Result<(), AllocError>
    requires { All (λ v. v < length clusters.now) pins.now }
    ensures { OnOk result (numbers.new.items ≡ set_of nat_cmp (map (slice_index clusters.now) pins.now)) }
{
    numbers.clear();
    for v in pins {
        numbers.push(clusters[*v as usize])?;
    }
    numbers.sort_unstable();
    numbers.dedup();
    Ok(())
}
