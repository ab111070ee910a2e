//! The network that the solver makes of a region: without pins outside of it, and without nets that are cut
//! whatever the region does, whose cost is known beforehand.

ghost use Rattle.std.specs.Prelude.{◌≡◌, ◌+◌, ◌*◌, ◌^◌, ◌<◌, ◌≤◌, [], ◌&&◌, ℕ};
ghost use Rattle.std.specs.Prelude.{length, map, slice_index_or, if◌then◌else◌, All, IfOk, OnOk};
ghost use Rattle.std.specs.List.{flat_map};
ghost use Rattle.std.specs.Ordering.{nat_cmp};
ghost use Rattle.hg_defs.specs.Hypergraph.{net_count, net_of};
ghost use Rattle.hg_defs.specs.Incidence.{nets_of};
ghost use Rattle.hg_defs.specs.Sorting.{set_of};
ghost use Rattle.hg_defs.specs.Sums.{total};
ghost use Rattle.flow_pair.specs.Notes.{AreNotes, IsNotedRun};
ghost use Rattle.flow_pair.specs.PairNetwork.{net_price, Extends, IsIdle};
ghost use Rattle.flow_pair.specs.ShortNetwork.{arcs_to_each, arcs_from_each, source_arcs, sink_arcs, inner_arcs};
ghost use Rattle.flow_pair.specs.ShortNetwork.{end_arcs, end_count, outer_count, inner_count, short_count};
ghost use Rattle.flow_pair.specs.ShortNetwork.{all_short_arcs, inside_nets, fixed_price, fixed_cost, short_network};
ghost use Rattle.flow_pair.specs.Sides.{touching_nets};

use crate::distinct::without;
use crate::network::bare_network;
use crate::notes::{Note, Notes};
use crate::pair::Pair;
use crew::span_of;
use flow_net::{Network, NoMemory};
use std::alloc::Global;

/// The nodes of the two blocks outside the region.
const SOURCE: u32 = 0;

const SINK: u32 = 1;

/// The network of a region, and what the nets pay that are cut whatever the region does.
#[derive(Drop)]
pub(crate) struct ShortNetwork {
    pub(crate) network: Network,
    pub(crate) fixed: u64,
}

/// Adds an arc from a node to each of some.
fn fan_out(network: &mut Network, at: u32, nodes: &[u32], cap: u64) -> Result<(), NoMemory>
    requires at { at < network.old.nodes }
    requires nodes { All (λ n. n < network.old.nodes) nodes.now }
    requires cap { cap ≤ 2 ^ 62 }
    requires room { length network.old.arcs + length nodes.now ≤ 2 ^ 28 }
    requires idle { IsIdle network.old }
    ensures { OnOk result (Extends network.old network.new 0 (arcs_to_each cap at nodes.now)) }
{
    for n in nodes {
        network.arc(at, *n, cap)?;
    }
    Ok(())
}

/// Adds an arc from each of some nodes to a node.
fn fan_in(network: &mut Network, at: u32, nodes: &[u32], cap: u64) -> Result<(), NoMemory>
    requires at { at < network.old.nodes }
    requires nodes { All (λ n. n < network.old.nodes) nodes.now }
    requires cap { cap ≤ 2 ^ 62 }
    requires room { length network.old.arcs + length nodes.now ≤ 2 ^ 28 }
    requires idle { IsIdle network.old }
    ensures extended { OnOk result (Extends network.old network.new 0 (arcs_from_each cap at nodes.now)) }
    ensures few { OnOk result (length network.new.arcs ≡ length network.old.arcs + length nodes.now) }
{
    for n in nodes {
        network.arc(*n, at, cap)?;
    }
    Ok(())
}

/// Adds a net that has pins outside in the first block.
fn add_at_source(
    network: &mut Network,
    nodes: &[u32],
    price: u64,
    most: u64,
) -> Result<(), NoMemory>
    requires few { network.old.nodes + 2 ≤ 2 ^ 26 }
    requires ends { 2 ≤ network.old.nodes }
    requires nodes { All (λ n. n < network.old.nodes) nodes.now }
    requires price { price ≤ 2 ^ 62 }
    requires most { most ≤ 2 ^ 62 }
    requires room { length network.old.arcs + 1 + 2 * length nodes.now ≤ 2 ^ 28 }
    requires idle { IsIdle network.old }
    ensures { OnOk result (Extends network.old network.new (outer_count nodes.now) (source_arcs most price
        network.old.nodes nodes.now)) }
{
    if nodes.is_empty() {
        return Ok(());
    }
    if nodes.len() == 1 {
        network.arc(SOURCE, nodes[0], price)?;
        return Ok(());
    }
    let at = network.nodes();
    network.add_nodes(1);
    network.arc(SOURCE, at, price)?;
    fan_out(network, at, nodes, most)
}

/// Adds a net that has pins outside in the second block.
fn add_at_sink(network: &mut Network, nodes: &[u32], price: u64, most: u64) -> Result<(), NoMemory>
    requires few { network.old.nodes + 2 ≤ 2 ^ 26 }
    requires ends { 2 ≤ network.old.nodes }
    requires nodes { All (λ n. n < network.old.nodes) nodes.now }
    requires price { price ≤ 2 ^ 62 }
    requires most { most ≤ 2 ^ 62 }
    requires room { length network.old.arcs + 1 + 2 * length nodes.now ≤ 2 ^ 28 }
    requires idle { IsIdle network.old }
    ensures { OnOk result (Extends network.old network.new (outer_count nodes.now) (sink_arcs most price
        network.old.nodes nodes.now)) }
{
    if nodes.is_empty() {
        return Ok(());
    }
    if nodes.len() == 1 {
        network.arc(nodes[0], SINK, price)?;
        return Ok(());
    }
    let at = network.nodes();
    network.add_nodes(1);
    network.arc(at, SINK, price)?;
    fan_in(network, at, nodes, most)
}

/// Adds a net that has no pins outside in the two blocks.
fn add_within(network: &mut Network, nodes: &[u32], price: u64, most: u64) -> Result<(), NoMemory>
    requires few { network.old.nodes + 2 ≤ 2 ^ 26 }
    requires nodes { All (λ n. n < network.old.nodes) nodes.now }
    requires price { price ≤ 2 ^ 62 }
    requires most { most ≤ 2 ^ 62 }
    requires room { length network.old.arcs + 1 + 2 * length nodes.now ≤ 2 ^ 28 }
    requires idle { IsIdle network.old }
    ensures { OnOk result (Extends network.old network.new (inner_count nodes.now) (inner_arcs most price
        network.old.nodes nodes.now)) }
{
    if nodes.len() < 2 {
        return Ok(());
    }
    if nodes.len() == 2 {
        network.arc(nodes[0], nodes[1], price)?;
        network.arc(nodes[1], nodes[0], price)?;
        return Ok(());
    }
    let at = network.nodes();
    network.add_nodes(2);
    network.arc(at, at + 1, price)?;
    fan_in(network, at, nodes, most)?;
    fan_out(network, at + 1, nodes, most)
}

/// Adds a net of these nodes, as its note says. Answers what it pays whatever the region does.
fn add_short(network: &mut Network, nodes: &[u32], note: Note, most: u64) -> Result<u64, NoMemory>
    requires few { network.old.nodes + 2 ≤ 2 ^ 26 }
    requires ends { 2 ≤ network.old.nodes }
    requires nodes { All (λ n. n < network.old.nodes) nodes.now }
    requires price { note.price ≤ 2 ^ 62 }
    requires most { most ≤ 2 ^ 62 }
    requires room { length network.old.arcs + 1 + 2 * length nodes.now ≤ 2 ^ 28 }
    requires idle { IsIdle network.old }
    ensures extended { OnOk result (Extends network.old network.new (end_count note.outside.0 note.outside.1
        nodes.now) (end_arcs note.outside.0 note.outside.1 most note.price network.old.nodes nodes.now)) }
    ensures fixed { IfOk result (λ fixed. fixed ≡ (if note.outside.0 && note.outside.1 then note.price else 0)) }
{
    match note.outside {
        (true, true) => return Ok(note.price),
        (true, false) => add_at_source(network, nodes, note.price, most)?,
        (false, true) => add_at_sink(network, nodes, note.price, most)?,
        (false, false) => add_within(network, nodes, note.price, most)?,
    }
    Ok(0)
}

/// Adds a run of nets that were noted. Answers what they pay whatever the region does.
fn add_run(
    pair: Pair<'_>,
    network: &mut Network,
    nets: &[u32],
    run: &Notes,
) -> Result<u64, NoMemory>
    requires noted { AreNotes pair.h.now pair.blocks.now pair.first pair.second pair.region.now nets.now
        run.now.nodes.items run.now.nets.items }
    requires few { network.old.nodes + 2 * length nets.now ≤ 2 ^ 26 }
    requires region { 2 + length pair.region.now ≤ network.old.nodes }
    requires room { length network.old.arcs + length nets.now + 2 * total (λ e. length (net_of pair.h.now e).pins)
        nets.now ≤ 2 ^ 28 }
    requires idle { IsIdle network.old }
    requires bounded { total (fixed_price pair.h.now pair.blocks.now pair.first pair.second pair.region.now) (map
        (net_of pair.h.now) nets.now) ≤ 2 ^ 56 }
    ensures extended { OnOk result (Extends network.old network.new (total (short_count pair.entry.blocks.now
        pair.entry.first pair.entry.second pair.entry.region.now) (map (net_of pair.entry.h.now) nets.now))
        (all_short_arcs pair.entry.h.now pair.entry.blocks.now pair.entry.first pair.entry.second
        pair.entry.region.now network.old.nodes (map (net_of pair.entry.h.now) nets.now))) }
    ensures few { OnOk result (network.new.nodes ≤ network.old.nodes + 2 * length nets.now) }
    ensures short { OnOk result (length network.new.arcs ≤ length network.old.arcs + length nets.now + 2 * total (λ e.
        length (net_of pair.entry.h.now e).pins) nets.now) }
    ensures fixed { IfOk result (λ fixed. fixed ≡ total (fixed_price pair.entry.h.now pair.entry.blocks.now
        pair.entry.first pair.entry.second pair.entry.region.now) (map (net_of pair.entry.h.now) nets.now)) }
{
    let notes = run.nets.as_slice();
    let nodes = run.nodes.as_slice();
    let mut fixed = 0;
    for i in 0..nets.len() {
        let note = notes[i];
        fixed += add_short(network, &nodes[note.from..note.to], note, pair.most)?;
    }
    Ok(fixed)
}

/// Adds the nets with a pin in the region, run after run. Answers what they pay whatever the region does.
fn add_runs(
    pair: Pair<'_>,
    network: &mut Network,
    nets: &[u32],
    runs: &[Notes],
) -> Result<u64, NoMemory>
    requires inside { map (net_of pair.h.now) nets.now ≡ inside_nets pair.h.now pair.region.now }
    requires some { 0 < length runs.now }
    requires runs { length runs.now ≤ 64 }
    requires noted { (i : ℕ) (d : _) → i < length runs.now → IsNotedRun pair.h.now pair.blocks.now pair.first
        pair.second pair.region.now nets.now (length runs.now) i (slice_index_or runs.now i d) }
    requires nodes { network.old.nodes ≡ 2 + length pair.region.now }
    requires arcs { network.old.arcs ≡ [] }
    requires flows { network.old.flows ≡ [] }
    ensures network { OnOk result (network.new ≡ short_network pair.entry.h.now pair.entry.blocks.now pair.entry.first
        pair.entry.second pair.entry.region.now) }
    ensures fixed { IfOk result (λ fixed. fixed ≡ total (fixed_price pair.entry.h.now pair.entry.blocks.now
        pair.entry.first pair.entry.second pair.entry.region.now)
        (inside_nets pair.entry.h.now pair.entry.region.now)) }
{
    let _nets = pair.h.nets();
    let mut fixed = 0;
    for i in 0..runs.len() {
        let run = &runs[i];
        if !run.whole {
            return Err(NoMemory);
        }
        let span = span_of(nets.len() as u32, runs.len() as u32, i as u32);
        let part = &nets[span.from as usize..span.to as usize];
        fixed += add_run(pair, network, part, run)?;
    }
    Ok(fixed)
}

/// What some nets pay that touch both blocks.
fn price_of(pair: Pair<'_>, nets: &[u32]) -> u64
    requires nets { All (λ e. e < net_count pair.h.now) nets.now }
    requires bounded { total (λ e. net_price pair.h.now pair.blocks.now pair.first pair.second (net_of pair.h.now e))
        nets.now ≤ 2 ^ 56 }
    ensures { result ≡ total (λ e. net_price pair.entry.h.now pair.entry.blocks.now pair.entry.first pair.entry.second
        (net_of pair.entry.h.now e)) nets.entry.now }
{
    let mut price = 0;
    for e in nets {
        price += pair.net_price(*e);
    }
    price
}

/// The short network of a region of two blocks, given the nets that hold a vertex of it, which were noted, and those
/// that touch both blocks.
pub(crate) fn build_short(
    alloc: Global,
    spots: &mut [usize],
    pair: Pair<'_>,
    nets: &[u32],
    runs: &[Notes],
    touching: &[u32],
) -> Result<ShortNetwork, NoMemory>
    requires nets { nets.now ≡ set_of nat_cmp (flat_map (nets_of pair.h.now) pair.region.now) }
    requires some { 0 < length runs.now }
    requires runs { length runs.now ≤ 64 }
    requires noted { (i : ℕ) (d : _) → i < length runs.now → IsNotedRun pair.h.now pair.blocks.now pair.first
        pair.second pair.region.now nets.now (length runs.now) i (slice_index_or runs.now i d) }
    requires touching { touching.now ≡ touching_nets pair.h.now pair.blocks.now pair.first pair.second }
    requires spots { net_count pair.h.now ≤ length spots.old }
    ensures network { IfOk result (λ short. short.network ≡ short_network pair.entry.h.now pair.entry.blocks.now
        pair.entry.first pair.entry.second pair.entry.region.now) }
    ensures fixed { IfOk result (λ short. short.fixed ≡ fixed_cost pair.entry.h.now pair.entry.blocks.now
        pair.entry.first pair.entry.second pair.entry.region.now) }
{
    let others = without(alloc, spots, touching, nets)?;
    let mut network = bare_network(alloc, pair)?;
    let inside = add_runs(pair, &mut network, nets, runs)?;
    let fixed = inside + price_of(pair, others.as_slice());
    Ok(ShortNetwork { network, fixed })
}
