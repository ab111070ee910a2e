//! The flow network of a region.

ghost use Rattle.std.specs.Prelude.{◌≡◌, ◌≢◌, ◌+◌, ◌*◌, ◌^◌, ◌<◌, ◌≤◌, List, [], ◌∷◌, ◌++◌};
ghost use Rattle.std.specs.Prelude.{length, map, All, IfOk, OnOk};
ghost use Rattle.std.specs.List.{flat_map};
ghost use Rattle.std.specs.List.Sorted.{IsStrictlyIncreasing};
ghost use Rattle.std.specs.Ordering.{nat_cmp};
ghost use Rattle.hg_defs.specs.Hypergraph.{vertex_count, net_count, net_of};
ghost use Rattle.hg_defs.specs.Incidence.{nets_of};
ghost use Rattle.hg_defs.specs.Sorting.{set_of};
ghost use Rattle.flow_pair.specs.PairNetwork.{pin_arcs, net_arcs, joined_nets, pair_network, AreOfPair};
ghost use Rattle.flow_pair.specs.PairNetwork.{ArePlaces, Extends, IsIdle};
ghost use Rattle.flow_pair.specs.Sides.{touching_nets};

use crate::cut::touching_nets_of;
use crate::distinct::distinct_of_many;
use crate::pair::{Pair, more_than_all, place_region};
use crate::region::make_spots;
use flow_net::{Network, NoMemory};
use incidence::Hypergraph;
use pin_plain::Partition;
use std::alloc::Global;

/// Adds the arcs between the node of a pin and those of its net, where the pin is in one of the blocks.
fn add_pin(pair: Pair<'_>, network: &mut Network, at: u32, v: u32) -> Result<(), NoMemory>
    requires vertex { v < vertex_count pair.h.now }
    requires nodes { at + 1 < network.old.nodes }
    requires few { network.old.nodes ≤ 2 ^ 26 }
    requires region { 2 + length pair.region.now ≤ network.old.nodes }
    requires room { length network.old.arcs + 2 ≤ 2 ^ 28 }
    requires idle { IsIdle network.old }
    ensures extended { OnOk result (Extends network.old network.new 0 (pin_arcs pair.entry.h.now
        pair.entry.blocks.now pair.entry.first pair.entry.second pair.entry.region.now at (v ∷ []))) }
{
    if pair.holds(v) {
        let node = pair.node_of(v);
        network.arc(node, at, pair.most)?;
        network.arc(at + 1, node, pair.most)?;
    }
    Ok(())
}

/// Adds the arcs of the pins of a net.
fn add_pins(pair: Pair<'_>, network: &mut Network, at: u32, pins: &[u32]) -> Result<(), NoMemory>
    requires vertices { All (λ v. v < vertex_count pair.h.now) pins.now }
    requires nodes { at + 1 < network.old.nodes }
    requires few { network.old.nodes ≤ 2 ^ 26 }
    requires region { 2 + length pair.region.now ≤ network.old.nodes }
    requires room { length network.old.arcs + 2 * length pins.now ≤ 2 ^ 28 }
    requires idle { IsIdle network.old }
    ensures extended { OnOk result (Extends network.old network.new 0 (pin_arcs pair.entry.h.now
        pair.entry.blocks.now pair.entry.first pair.entry.second pair.entry.region.now at pins.now)) }
    ensures few { OnOk result (length network.new.arcs ≤ length network.old.arcs + 2 * length pins.now) }
{
    for v in pins {
        add_pin(pair, network, at, *v)?;
    }
    Ok(())
}

/// Adds a net.
fn add_net(pair: Pair<'_>, network: &mut Network, e: u32) -> Result<(), NoMemory>
    requires net { e < net_count pair.h.now }
    requires nodes { network.old.nodes + 2 ≤ 2 ^ 26 }
    requires region { 2 + length pair.region.now ≤ network.old.nodes }
    requires room { length network.old.arcs + 1 + 2 * length (net_of pair.h.now e).pins ≤ 2 ^ 28 }
    requires idle { IsIdle network.old }
    ensures extended { OnOk result (Extends network.old network.new 2 (net_arcs pair.entry.h.now
        pair.entry.blocks.now pair.entry.first pair.entry.second pair.entry.region.now network.old.nodes
        (net_of pair.entry.h.now e))) }
    ensures few { OnOk result (length network.new.arcs ≤ length network.old.arcs + 1 + 2 * length (net_of
        pair.entry.h.now e).pins) }
{
    let at = network.nodes();
    network.add_nodes(2);
    network.arc(at, at + 1, pair.net_price(e))?;
    add_pins(pair, network, at, pair.h.pins(e))
}

/// Adds some nets.
fn add_nets(pair: Pair<'_>, network: &mut Network, nets: &[u32]) -> Result<(), NoMemory>
    requires nets { All (λ e. e < net_count pair.h.now) nets.now }
    requires joined { map (net_of pair.h.now) nets.now ≡ joined_nets pair.h.now pair.blocks.now pair.first pair.second
        pair.region.now }
    requires nodes { network.old.nodes ≡ 2 + length pair.region.now }
    requires arcs { network.old.arcs ≡ [] }
    requires flows { network.old.flows ≡ [] }
    ensures { OnOk result (network.new ≡ pair_network pair.entry.h.now pair.entry.blocks.now pair.entry.first
        pair.entry.second pair.entry.region.now) }
{
    let _nets = pair.h.nets();
    for e in nets {
        add_net(pair, network, *e)?;
    }
    Ok(())
}

/// The nets that join the network of a region: those that touch both blocks, which are given, and those of
/// its vertices.
pub(crate) fn nets_of_pair(
    alloc: Global,
    spots: &mut [usize],
    pair: Pair<'_>,
    touching: &[u32],
) -> Result<Vec<u32>, NoMemory>
    requires touching { touching.now ≡ touching_nets pair.h.now pair.blocks.now pair.first pair.second }
    requires spots { net_count pair.h.now ≤ length spots.old }
    ensures nets { IfOk result (λ nets. All (λ e. e < net_count pair.entry.h.now) nets.items) }
    ensures joined { IfOk result (λ nets. map (net_of pair.entry.h.now) nets.items ≡ joined_nets pair.entry.h.now
        pair.entry.blocks.now pair.entry.first pair.entry.second pair.entry.region.now) }
{
    let mut nets = Vec::from_slice(alloc, touching)?;
    for v in pair.region {
        nets.extend_from_slice(pair.h.nets_of(*v))?;
    }
    distinct_of_many(alloc, spots, nets)
}

/// The nets that hold a vertex of a region.
fn nets_of_region(
    alloc: Global,
    spots: &mut [usize],
    h: &Hypergraph,
    region: &[u32],
) -> Result<Vec<u32>, NoMemory>
    requires vertices { All (λ v. v < vertex_count h.now) region.now }
    requires spots { net_count h.now ≤ length spots.old }
    ensures size { length spots.new ≡ length spots.old }
    ensures nets { IfOk result (λ nets. nets.items ≡ set_of nat_cmp (flat_map (nets_of h.now) region.now)) }
{
    let mut nets = Vec::new(alloc);
    for v in region {
        nets.extend_from_slice(h.nets_of(*v))?;
    }
    distinct_of_many(alloc, spots, nets)
}

/// Writes the places of the vertices of a region, and answers the nets that hold one of them.
pub(crate) fn open_region(
    alloc: Global,
    spots: &mut Vec<usize>,
    places: &mut Vec<u32>,
    h: &Hypergraph,
    region: &[u32],
) -> Result<Vec<u32>, NoMemory>
    requires rising { IsStrictlyIncreasing region.now }
    requires vertices { All (λ v. v < vertex_count h.now) region.now }
    ensures spots { OnOk result (net_count h.now ≤ length spots.new.items) }
    ensures long { OnOk result (length places.new.items ≡ vertex_count h.now) }
    ensures placed { OnOk result (ArePlaces region.now places.new.items) }
    ensures nets { IfOk result (λ nets. nets.items ≡ set_of nat_cmp (flat_map (nets_of h.now) region.now)) }
{
    make_spots(spots, h)?;
    place_region(h, region, places)?;
    nets_of_region(alloc, spots.as_mut_slice(), h, region)
}

/// A network of the source, the sink and the region alone.
pub(crate) fn bare_network(alloc: Global, pair: Pair<'_>) -> Result<Network, NoMemory>
    ensures { IfOk result (λ network. network ≡ record
        { nodes = 2 + length pair.entry.region.now; arcs = []; flows = [] }) }
{
    Network::new(alloc, 2 + pair.region.len() as u32)
}

/// The flow network of a region of two blocks. Node 0, its source, stands for the first block outside
/// the region, and node 1, its sink, for the second one; the vertices of the region follow in order.
/// Each net that has a pin in the region, or pins outside of it in both blocks, has two nodes, between
/// which flows what it pays for touching both blocks.
pub fn region_network(
    alloc: Global,
    h: &Hypergraph,
    p: &Partition,
    a: u32,
    b: u32,
    region: &[u32],
) -> Result<Network, NoMemory>
    requires belongs { p.now.hyper ≡ h.now }
    requires order { a < b }
    requires blocks { b < p.now.k }
    requires rising { IsStrictlyIncreasing region.now }
    requires vertices { All (λ v. v < vertex_count h.now) region.now }
    requires pair { AreOfPair p.now.blocks a b region.now }
    ensures { IfOk result (λ network. network ≡ pair_network h.now p.now.blocks a b region.now) }
{
    let touching = touching_nets_of(alloc, h, p, a, b)?;
    let mut places = Vec::new(alloc);
    place_region(h, region, &mut places)?;
    let pair = Pair::of(h, p, a, b, region, places.as_slice(), more_than_all(h));
    let mut spots = vec![in alloc; 0usize; h.nets() as usize]?;
    let nets = nets_of_pair(alloc, spots.as_mut_slice(), pair, touching.as_slice())?;
    let mut network = bare_network(alloc, pair)?;
    add_nets(pair, &mut network, nets.as_slice())?;
    Ok(network)
}
