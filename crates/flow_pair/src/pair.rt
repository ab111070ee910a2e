//! A pair of blocks with a region, lent to those who build its network.

ghost use Rattle.std.specs.Prelude.{◌≡◌, ◌+◌, ◌*◌, ◌<◌, ◌≤◌, ◌^◌, length, All, OnOk, nat_eq, ◌||◌};
ghost use Rattle.std.specs.List.{position_or_len};
ghost use Rattle.std.specs.Set.{is_member};
ghost use Rattle.std.specs.List.Sorted.{IsStrictlyIncreasing};
ghost use Rattle.hg_defs.specs.Hypergraph.{vertex_count, net_count, net_of, total_net_weight};
ghost use Rattle.flow_pair.specs.PairNetwork.{node_of, net_price, unbounded, leaves_pair, ArePlaces};
ghost use Rattle.hg_defs.specs.Partition.{block_of};

use flow_net::NoMemory;
use hg_base::Objective;
use incidence::Hypergraph;
use pin_plain::Partition;

/// Two blocks of a partition of a hypergraph, and a region of vertices in strictly rising order.
#[derive(Clone, Copy)]
pub(crate) struct Pair<'a> {
    pub(crate) h: &'a Hypergraph,
    pub(crate) blocks: &'a [u32],
    pub(crate) first: u32,
    pub(crate) second: u32,
    pub(crate) region: &'a [u32],
    /// The place of each vertex of the region. What other vertices have doesn't matter.
    pub(crate) places: &'a [u32],
    /// More than all nets can pay.
    pub(crate) most: u64,
    ghost all: { length blocks.now ≡ vertex_count h.now },
    ghost rising: { IsStrictlyIncreasing region.now },
    ghost vertices: { All (λ v. v < vertex_count h.now) region.now },
    ghost long: { length places.now ≡ vertex_count h.now },
    ghost placed: { ArePlaces region.now places.now },
    ghost small: { length region.now ≤ 2 ^ 22 },
    ghost above: { most ≡ unbounded h.now },
    ghost bounded: { most ≤ 2 ^ 56 },
}

/// More than all nets of a hypergraph can pay together.
pub(crate) fn more_than_all(h: &Hypergraph) -> u64
    ensures value { result ≡ unbounded h.now }
    ensures bound { result ≤ 2 ^ 56 }
{
    let mut weight = 0;
    for e in 0..h.nets() {
        weight += h.net_weight(e);
    }
    2 * weight + 1
}

/// The place of a number in a rising list, or the list's length where it is not there.
fn place_of(list: &[u32], v: u32) -> usize
    requires { IsStrictlyIncreasing list.now }
    ensures { result ≡ position_or_len (nat_eq v) list.now }
{
    match list.binary_search(&v) {
        Ok(place) => place,
        Err(_) => list.len(),
    }
}

/// Whether a number is in a rising list.
pub(crate) fn contains(list: &[u32], v: u32) -> bool
    requires { IsStrictlyIncreasing list.now }
    ensures { result ≡ is_member nat_eq list.now v }
{
    place_of(list, v) < list.len()
}

/// Writes the places of the vertices of a region.
fn write_places(region: &[u32], places: &mut [u32])
    requires few { length region.now ≤ 2 ^ 22 }
    requires rising { IsStrictlyIncreasing region.now }
    requires vertices { All (λ v. v < length places.old) region.now }
    ensures long { length places.new ≡ length places.old }
    ensures placed { ArePlaces region.now places.new }
{
    for i in 0..region.len() {
        places[region[i] as usize] = i as u32;
    }
}

/// Writes the places of the vertices of a region into a list, which is made long enough.
pub(crate) fn place_region(
    h: &Hypergraph,
    region: &[u32],
    places: &mut Vec<u32>,
) -> Result<(), NoMemory>
    requires rising { IsStrictlyIncreasing region.now }
    requires vertices { All (λ v. v < vertex_count h.now) region.now }
    ensures long { OnOk result (length places.new.items ≡ vertex_count h.now) }
    ensures placed { OnOk result (ArePlaces region.now places.new.items) }
{
    places.resize(h.vertices() as usize, 0)?;
    write_places(region, places.as_mut_slice());
    Ok(())
}

impl<'a> Pair<'a> {
    /// Lends two blocks of a partition, and a region with the places of its vertices.
    pub(crate) fn of(
        h: &'a Hypergraph,
        p: &'a Partition,
        first: u32,
        second: u32,
        region: &'a [u32],
        places: &'a [u32],
        most: u64,
    ) -> Pair<'a>
        requires belongs { p.now.hyper ≡ h.now }
        requires rising { IsStrictlyIncreasing region.now }
        requires vertices { All (λ v. v < vertex_count h.now) region.now }
        requires long { length places.now ≡ vertex_count h.now }
        requires placed { ArePlaces region.now places.now }
        requires most { (most ≡ unbounded h.now) × (most ≤ 2 ^ 56) }
        ensures hyper { result.h.now ≡ h.now }
        ensures blocks { result.blocks.now ≡ p.now.blocks }
        ensures first { result.first ≡ first }
        ensures second { result.second ≡ second }
        ensures region { result.region.now ≡ region.now }
    {
        Pair {
            h,
            blocks: p.blocks(),
            first,
            second,
            region,
            places,
            most,
        }
    }

    /// The place of a vertex in the region, or the region's length where it is not there.
    pub(crate) fn place(&self, v: u32) -> usize
        requires { v < vertex_count self.now.h.now }
        ensures { result ≡ position_or_len (nat_eq v) self.now.region.now }
    {
        let place = self.places[v as usize] as usize;
        if place < self.region.len() && self.region[place] == v {
            return place;
        }
        self.region.len()
    }

    /// The node of a vertex of one of the blocks.
    pub(crate) fn node_of(&self, v: u32) -> u32
        requires { v < vertex_count self.now.h.now }
        ensures value { result ≡ node_of self.now.blocks.now self.now.first self.now.region.now v }
        ensures below { result < 2 + length self.now.region.now }
    {
        let place = self.place(v);
        if place < self.region.len() {
            return 2 + place as u32;
        }
        if self.blocks[v as usize] == self.first {
            0
        } else {
            1
        }
    }

    /// Whether a vertex is in one of the blocks.
    pub(crate) fn holds(&self, v: u32) -> bool
        requires { v < vertex_count self.now.h.now }
        ensures { result ≡ (nat_eq (block_of self.now.blocks.now v) self.now.first || nat_eq (block_of
            self.now.blocks.now v) self.now.second) }
    {
        let block = self.blocks[v as usize];
        block == self.first || block == self.second
    }

    /// Whether a net has a pin in neither block.
    fn leaves(&self, pins: &[u32]) -> bool
        requires { All (λ v. v < vertex_count self.now.h.now) pins.now }
        ensures { result ≡ leaves_pair self.now.blocks.now self.now.first self.now.second pins.now }
    {
        for v in pins {
            let block = self.blocks[*v as usize];
            if block != self.first && block != self.second {
                return true;
            }
        }
        false
    }

    /// What a net pays for touching both blocks.
    pub(crate) fn net_price(&self, e: u32) -> u64
        requires { e < net_count self.now.h.now }
        ensures value { result ≡ net_price self.now.h.now self.now.blocks.now self.now.first self.now.second (net_of
            self.now.h.now e) }
        ensures bound { result < 2 ^ 55 }
    {
        let weight = self.h.net_weight(e);
        let pins = self.h.pins(e);
        match self.h.objective() {
            Objective::Connectivity => weight,
            Objective::CutNet => { if self.leaves(pins) { 0 } else { weight } }
            Objective::ExternalDegree => {
                if self.leaves(pins) {
                    weight
                } else {
                    2 * weight
                }
            }
        }
    }
}
