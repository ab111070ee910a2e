//! The nets that touch two blocks.

ghost use Rattle.std.specs.Prelude.{◌≡◌, ◌<◌, ◌++◌, ◌&&◌, All, IfOk, OnOk, filter, not, nat_eq, slice_index};
ghost use Rattle.std.specs.List.{list_any, flat_map};
ghost use Rattle.hg_defs.specs.Hypergraph.{vertex_count, net_count, net_of};
ghost use Rattle.hg_defs.specs.Incidence.{nets_of};
ghost use Rattle.hg_defs.specs.Partition.{block_of};
ghost use Rattle.round_log.specs.Rounds.{has_pin};
ghost use Rattle.flow_pair.specs.CutNets.{HoldsTouching};
ghost use Rattle.flow_pair.specs.Sides.{touching_nets};

use crate::distinct::{distinct, push_if};
use flow_net::NoMemory;
use hg_base::Move;
use incidence::Hypergraph;
use pin_plain::Partition;
use std::alloc::Global;

/// Whether a net has pins in both blocks.
fn touches(h: &Hypergraph, p: &Partition, a: u32, b: u32, e: u32) -> bool
    requires belongs { p.now.hyper ≡ h.now }
    requires net { e < net_count h.now }
    requires first { a < p.now.k }
    requires second { b < p.now.k }
    ensures { result ≡ (has_pin p.now.blocks (net_of h.now e) a && has_pin p.now.blocks (net_of h.now e) b) }
{
    if p.count(e, a) == 0 {
        return false;
    }
    p.count(e, b) != 0
}

/// The nets that touch both blocks of a pair, looked for among all nets.
pub(crate) fn touching_nets_of(
    alloc: Global,
    h: &Hypergraph,
    p: &Partition,
    a: u32,
    b: u32,
) -> Result<Vec<u32>, NoMemory>
    requires belongs { p.now.hyper ≡ h.now }
    requires first { a < p.now.k }
    requires second { b < p.now.k }
    ensures { IfOk result (λ nets. nets.items ≡ touching_nets h.now p.now.blocks a b) }
{
    let mut nets = Vec::new(alloc);
    for e in 0..h.nets() {
        push_if(&mut nets, touches(h, p, a, b, e), e)?;
    }
    Ok(nets)
}

/// The nets that touch both blocks of a pair, all of which are among some nets.
pub(crate) fn nets_between(
    alloc: Global,
    h: &Hypergraph,
    p: &Partition,
    a: u32,
    b: u32,
    nets: &[u32],
) -> Result<Vec<u32>, NoMemory>
    requires belongs { p.now.hyper ≡ h.now }
    requires first { a < p.now.k }
    requires second { b < p.now.k }
    requires nets { All (λ e. e < net_count h.now) nets.now }
    requires all { HoldsTouching h.now p.now.blocks a b nets.now }
    ensures { IfOk result (λ found. found.items ≡ touching_nets h.now p.now.blocks a b) }
{
    let mut found = Vec::new(alloc);
    for e in nets {
        push_if(&mut found, touches(h, p, a, b, *e), *e)?;
    }
    Ok(distinct(found))
}

/// Whether one of some nets touches both blocks of a pair.
pub(crate) fn any_between(h: &Hypergraph, p: &Partition, a: u32, b: u32, nets: &[u32]) -> bool
    requires belongs { p.now.hyper ≡ h.now }
    requires first { a < p.now.k }
    requires second { b < p.now.k }
    requires nets { All (λ e. e < net_count h.now) nets.now }
    ensures { result ≡ list_any (λ e. has_pin p.now.blocks (net_of h.now e) a && has_pin p.now.blocks (net_of h.now e)
        b) nets.now }
{
    for e in nets {
        if touches(h, p, a, b, *e) {
            return true;
        }
    }
    false
}

/// Whether not all pins of a net are in the block of the first one. The count of that block tells it, however many
/// pins there are.
pub(crate) fn is_cut(h: &Hypergraph, p: &Partition, e: u32) -> bool
    requires belongs { p.now.hyper ≡ h.now }
    requires net { e < net_count h.now }
    ensures { result ≡ list_any (λ v. not (nat_eq (block_of p.now.blocks v) (block_of p.now.blocks (slice_index (net_of
        h.now e).pins 0)))) (net_of h.now e).pins }
{
    let pins = h.pins(e);
    let blocks = p.blocks();
    let Some(v) = pins.first() else {
        return false;
    };
    (p.count(e, blocks[*v as usize]) as usize) < pins.len()
}

/// Appends the nets of the vertices that moved.
pub(crate) fn add_nets_of(
    h: &Hypergraph,
    moves: &[Move],
    list: &mut Vec<u32>,
) -> Result<(), NoMemory>
    requires { All (λ m. m.vertex < vertex_count h.now) moves.now }
    ensures { OnOk result (list.new.items ≡ list.old.items ++ flat_map (λ m. nets_of h.now m.vertex) moves.now) }
{
    for step in moves {
        list.extend_from_slice(h.nets_of(step.vertex))?;
    }
    Ok(())
}
