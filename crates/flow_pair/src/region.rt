//! The region of a pair of blocks, in proportion to the nets that touch both.

ghost use Rattle.std.specs.Prelude.{◌≡◌, ◌≢◌, ℕ, ◌-◌, ◌<◌, ◌≤◌, [], ◌∷◌, ◌++◌, length, filter, not, All, IfOk, OnOk};
ghost use Rattle.std.specs.Prelude.{nat_eq, if◌then◌else◌};
ghost use Rattle.std.specs.List.{flat_map, list_any};
ghost use Rattle.std.specs.List.Sorted.{IsStrictlyIncreasing};
ghost use Rattle.std.specs.Ordering.{nat_cmp};
ghost use Rattle.std.specs.Set.{is_member};
ghost use Rattle.hg_defs.specs.Hypergraph.{vertices, vertex_count, net_count, net_of};
ghost use Rattle.hg_defs.specs.Partition.{load, Fits};
ghost use Rattle.hg_defs.specs.Sorting.{set_of};
ghost use Rattle.round_log.specs.Rounds.{is_near, is_next, taken, side, region};
ghost use Rattle.flow_pair.specs.Sides.{touching_nets, is_free_in, free_pins, is_small, small_nets};
ghost use Rattle.flow_pair.specs.Sides as sides;
ghost use Rattle.flow_pair.specs.Sides.{TakesAll, WeighsAtLeast, IsNoted};

use crate::distinct::{distinct_of_many, is_kept, note_places, push_if, without};
use crate::pair::contains;
use flow_net::NoMemory;
use hg_base::{FREE, Verts};
use incidence::Hypergraph;
use pin_plain::Partition;
use std::alloc::Global;
use std::thread::{Threads, join_mut};

/// The most pins of a net through which a region grows.
const MOST_PINS: usize = 1000;

/// A region is formed by two threads where so many nets touch both blocks: to form it from fewer takes little longer
/// than to start one.
const LEAST_NETS: usize = 1024;

/// So many vertices are asked in the time in which a net of a near vertex and its pins are listed.
const VERTICES_A_NET: usize = 64;

/// The least weight of a vertex, or the greatest number where there is none.
pub(crate) fn least_weight(h: &Hypergraph) -> u64
    ensures value { result ≡ sides.least_weight h.now }
    ensures bound { WeighsAtLeast h.now result }
{
    let mut least = u64::MAX;
    for v in 0..h.vertices() {
        least = least.min(h.vertex_weight(v));
    }
    least
}

/// Whether a vertex is free and in a block.
fn may_leave(h: &Hypergraph, blocks: &[u32], block: u32, v: u32) -> bool
    requires all { length blocks.now ≡ vertex_count h.now }
    requires vertex { v < vertex_count h.now }
    ensures { result ≡ is_free_in h.now blocks.now block v }
{
    if blocks[v as usize] != block {
        return false;
    }
    h.fix(v) == FREE
}

/// Appends the free ones of some vertices that are in a block.
fn add_free(
    h: &Hypergraph,
    blocks: &[u32],
    block: u32,
    vertices: &[u32],
    list: &mut Vec<u32>,
) -> Result<(), NoMemory>
    requires all { length blocks.now ≡ vertex_count h.now }
    requires vertices { All (λ v. v < vertex_count h.now) vertices.now }
    ensures { OnOk result (list.new.items ≡ list.old.items ++ filter (is_free_in h.now blocks.now block) vertices.now) }
{
    for v in vertices {
        push_if(list, may_leave(h, blocks, block, *v), *v)?;
    }
    Ok(())
}

/// The free vertices of a block on some nets.
fn free_on(
    alloc: Global,
    spots: &mut [usize],
    h: &Hypergraph,
    blocks: &[u32],
    block: u32,
    nets: &[u32],
) -> Result<Vec<u32>, NoMemory>
    requires all { length blocks.now ≡ vertex_count h.now }
    requires nets { All (λ e. e < net_count h.now) nets.now }
    requires spots { vertex_count h.now ≤ length spots.old }
    ensures size { length spots.new ≡ length spots.old }
    ensures list { IfOk result (λ list. list.items ≡ set_of nat_cmp (flat_map (free_pins h.now blocks.now block)
        nets.now)) }
    ensures below { IfOk result (λ list. All (λ v. v < vertex_count h.now) list.items) }
{
    let mut list = Vec::new(alloc);
    for e in nets {
        add_free(h, blocks, block, h.pins(*e), &mut list)?;
    }
    distinct_of_many(alloc, spots, list)
}

/// Whether a net has at most 1,000 pins.
fn is_grown_through(h: &Hypergraph, e: u32) -> bool
    requires { e < net_count h.now }
    ensures { result ≡ is_small h.now e }
{
    h.pins(e).len() <= MOST_PINS
}

/// Appends the nets of at most 1,000 pins.
fn add_small(h: &Hypergraph, nets: &[u32], list: &mut Vec<u32>) -> Result<(), NoMemory>
    requires { All (λ e. e < net_count h.now) nets.now }
    ensures { OnOk result (list.new.items ≡ list.old.items ++ filter (is_small h.now) nets.now) }
{
    for e in nets {
        push_if(list, is_grown_through(h, *e), *e)?;
    }
    Ok(())
}

/// The nets of at most 1,000 pins that hold some of the vertices, a net as often as it holds one.
fn all_small_nets_of(alloc: Global, h: &Hypergraph, vertices: &[u32]) -> Result<Vec<u32>, NoMemory>
    requires { All (λ v. v < vertex_count h.now) vertices.now }
    ensures { IfOk result (λ list. list.items ≡ flat_map (small_nets h.now) vertices.now) }
{
    let mut list = Vec::new(alloc);
    for v in vertices {
        add_small(h, h.nets_of(*v), &mut list)?;
    }
    Ok(list)
}

/// The nets of at most 1,000 pins that hold some of the vertices.
fn small_nets_of(
    alloc: Global,
    spots: &mut [usize],
    h: &Hypergraph,
    vertices: &[u32],
) -> Result<Vec<u32>, NoMemory>
    requires vertices { All (λ v. v < vertex_count h.now) vertices.now }
    requires spots { net_count h.now ≤ length spots.old }
    ensures size { length spots.new ≡ length spots.old }
    ensures list { IfOk result (λ list. list.items ≡ set_of nat_cmp (flat_map (small_nets h.now) vertices.now)) }
{
    let list = all_small_nets_of(alloc, h, vertices)?;
    distinct_of_many(alloc, spots, list)
}

/// Takes a vertex where there is room for it. Answers the room that is left.
fn take(h: &Hypergraph, v: u32, room: u64, list: &mut Vec<u32>) -> Result<u64, NoMemory>
    requires { v < vertex_count h.now }
    ensures { IfOk result (TakesAll h.now room (v ∷ []) list.old.items list.new.items) }
{
    let weight = h.vertex_weight(v);
    if weight > room {
        return Ok(room);
    }
    list.push(v)?;
    Ok(room - weight)
}

/// Takes vertices, one after the other, where there is room for them. Answers the room that is left.
fn take_all(
    h: &Hypergraph,
    vertices: &[u32],
    room: u64,
    list: &mut Vec<u32>,
) -> Result<u64, NoMemory>
    requires { All (λ v. v < vertex_count h.now) vertices.now }
    ensures { IfOk result (TakesAll h.now room vertices.now list.old.items list.new.items) }
{
    let mut left = room;
    for v in vertices {
        left = take(h, *v, left, list)?;
    }
    Ok(left)
}

/// Takes the vertices of a block that are next to near ones, in rising number, where there is room for them: they are
/// listed by the pins of the small nets of the near ones.
fn take_listed(
    alloc: Global,
    spots: &mut [usize],
    h: &Hypergraph,
    p: &Partition,
    from: u32,
    to: u32,
    near: &[u32],
    room: u64,
    list: &mut Vec<u32>,
) -> Result<(), NoMemory>
    requires belongs { p.now.hyper ≡ h.now }
    requires near { near.now ≡ filter (is_near h.now p.now.blocks from to) (vertices h.now) }
    requires spots { (vertex_count h.now ≤ length spots.old) × (net_count h.now ≤ length spots.old) }
    ensures size { length spots.new ≡ length spots.old }
    ensures next { OnOk result (list.new.items ≡ list.old.items ++ taken h.now room (filter (is_next h.now p.now.blocks
        from to) (vertices h.now))) }
{
    let small = small_nets_of(alloc, spots, h, near)?;
    let reached = free_on(alloc, spots, h, p.blocks(), from, small.as_slice())?;
    let next = without(alloc, spots, reached.as_slice(), near)?;
    take_all(h, next.as_slice(), room, list)?;
    Ok(())
}

/// Whether one of some nets is in a list, each of whose nets has a spot that tells where.
fn has_noted(list: &[u32], spots: &[usize], nets: &[u32]) -> bool
    requires noted { All (IsNoted spots.now list.now) list.now }
    requires spots { All (λ e. e < length spots.now) nets.now }
    ensures { result ≡ list_any (is_member nat_eq list.now) nets.now }
{
    for e in nets {
        if is_kept(list, list.len(), spots[*e as usize], *e) {
            return true;
        }
    }
    false
}

/// Whether a free vertex of a block is on one of some nets, and isn't near itself.
fn is_reached(
    h: &Hypergraph,
    blocks: &[u32],
    from: u32,
    near: &[u32],
    small: &[u32],
    spots: &[usize],
    v: u32,
) -> bool
    requires all { length blocks.now ≡ vertex_count h.now }
    requires vertex { v < vertex_count h.now }
    requires near { IsStrictlyIncreasing near.now }
    requires noted { All (IsNoted spots.now small.now) small.now }
    requires spots { net_count h.now ≤ length spots.now }
    ensures { result ≡ sides.is_reached h.now blocks.now from near.now small.now v }
{
    may_leave(h, blocks, from, v) && has_noted(small, spots, h.nets_of(v)) && !contains(near, v)
}

/// Takes the vertices that are reached from near ones, in rising number, while there is room for the lightest vertex.
fn take_reached(
    h: &Hypergraph,
    blocks: &[u32],
    from: u32,
    near: &[u32],
    small: &[u32],
    spots: &[usize],
    room: u64,
    least: u64,
    list: &mut Vec<u32>,
) -> Result<(), NoMemory>
    requires all { length blocks.now ≡ vertex_count h.now }
    requires near { IsStrictlyIncreasing near.now }
    requires noted { All (IsNoted spots.now small.now) small.now }
    requires spots { net_count h.now ≤ length spots.now }
    requires least { WeighsAtLeast h.now least }
    ensures { OnOk result (list.new.items ≡ list.old.items ++ taken h.now room (filter (sides.is_reached h.now
        blocks.now from near.now small.now) (vertices h.now))) }
{
    let mut left = room;
    for v in 0..h.vertices() {
        if left < least {
            return Ok(());
        }
        if h.vertex_weight(v) > left {
            continue;
        }
        if !is_reached(h, blocks, from, near, small, spots, v) {
            continue;
        }
        left = take(h, v, left, list)?;
    }
    Ok(())
}

/// Takes the vertices of a block that are next to near ones, in rising number, where there is room for them: all
/// vertices are asked whether they are, up to the one with which the room is used up.
fn take_scanned(
    alloc: Global,
    spots: &mut [usize],
    h: &Hypergraph,
    p: &Partition,
    from: u32,
    to: u32,
    near: &[u32],
    room: u64,
    least: u64,
    list: &mut Vec<u32>,
) -> Result<(), NoMemory>
    requires belongs { p.now.hyper ≡ h.now }
    requires near { near.now ≡ filter (is_near h.now p.now.blocks from to) (vertices h.now) }
    requires least { WeighsAtLeast h.now least }
    requires spots { (vertex_count h.now ≤ length spots.old) × (net_count h.now ≤ length spots.old) }
    ensures size { length spots.new ≡ length spots.old }
    ensures next { OnOk result (list.new.items ≡ list.old.items ++ taken h.now room (filter (is_next h.now p.now.blocks
        from to) (vertices h.now))) }
{
    let small = all_small_nets_of(alloc, h, near)?;
    note_places(small.as_slice(), spots);
    let small = small.as_slice();
    take_reached(h, p.blocks(), from, near, small, spots, room, least, list)?;
    Ok(())
}

/// Whether to ask all vertices takes no longer than to list the pins of the nets of the near ones.
fn scan_pays(h: &Hypergraph, near: &[u32]) -> bool
    requires { All (λ v. v < vertex_count h.now) near.now }
{
    let mut nets = 0usize;
    for v in near {
        nets = nets.saturating_add(h.nets_of(*v).len());
    }
    nets.saturating_mul(VERTICES_A_NET) >= h.vertices() as usize
}

/// What one block may send to the other one, in the order in which it is taken: free vertices on the nets that touch
/// both, and then those on small nets that hold one of these. Where there is no room for the lightest vertex, no more
/// of them are looked for.
fn take_side(
    alloc: Global,
    spots: &mut [usize],
    h: &Hypergraph,
    p: &Partition,
    from: u32,
    to: u32,
    nets: &[u32],
    least: u64,
) -> Result<Vec<u32>, NoMemory>
    requires belongs { p.now.hyper ≡ h.now }
    requires fits { Fits p.now.hyper p.now.k p.now.limit p.now.blocks }
    requires to { to < p.now.k }
    requires nets { nets.now ≡ touching_nets h.now p.now.blocks from to }
    requires least { WeighsAtLeast h.now least }
    requires spots { (vertex_count h.now ≤ length spots.old) × (net_count h.now ≤ length spots.old) }
    ensures size { length spots.new ≡ length spots.old }
    ensures side { IfOk result (λ list. list.items ≡ side h.now p.now.limit p.now.blocks from to) }
{
    let blocks = p.blocks();
    let mut list = Vec::new(alloc);
    let room = p.limit() - p.weight(to);
    if room < least {
        return Ok(list);
    }
    let near = free_on(alloc, spots, h, blocks, from, nets)?;
    let left = take_all(h, near.as_slice(), room, &mut list)?;
    if left < least {
        return Ok(list);
    }
    let near = near.as_slice();
    if scan_pays(h, near) {
        take_scanned(alloc, spots, h, p, from, to, near, left, least, &mut list)?;
    } else {
        take_listed(alloc, spots, h, p, from, to, near, left, &mut list)?;
    }
    Ok(list)
}

/// Makes as many spots as there are vertices or nets, whichever are more.
pub(crate) fn make_spots(spots: &mut Vec<usize>, h: &Hypergraph) -> Result<(), NoMemory>
    ensures { OnOk result ((vertex_count h.now ≤ length spots.new.items) × (net_count h.now ≤ length spots.new.items)) }
{
    let count = h.vertices().max(h.nets()) as usize;
    spots.resize(count, 0)?;
    Ok(())
}

/// What one block may send to the other one, with spots that are made first.
fn side_of(
    alloc: Global,
    spots: &mut Vec<usize>,
    h: &Hypergraph,
    p: &Partition,
    from: u32,
    to: u32,
    nets: &[u32],
    least: u64,
) -> Result<Vec<u32>, NoMemory>
    requires belongs { p.now.hyper ≡ h.now }
    requires fits { Fits p.now.hyper p.now.k p.now.limit p.now.blocks }
    requires to { to < p.now.k }
    requires nets { nets.now ≡ touching_nets h.now p.now.blocks from to }
    requires least { WeighsAtLeast h.now least }
    ensures { IfOk result (λ list. list.items ≡ side h.now p.now.limit p.now.blocks from to) }
{
    make_spots(spots, h)?;
    take_side(alloc, spots.as_mut_slice(), h, p, from, to, nets, least)
}

/// The region that two sides make up.
fn joined(
    alloc: Global,
    spots: &mut Vec<usize>,
    h: &Hypergraph,
    firsts: Vec<u32>,
    seconds: Vec<u32>,
) -> Result<Verts, NoMemory>
    requires { All (λ v. v < vertex_count h.now) (firsts.items ++ seconds.items) }
    ensures { IfOk result (λ region. region ≡ set_of nat_cmp (firsts.items ++ seconds.items)) }
{
    make_spots(spots, h)?;
    let mut list = firsts;
    list.extend_from_slice(seconds.as_slice())?;
    let region = distinct_of_many(alloc, spots.as_mut_slice(), list)?;
    Ok(Verts::from_vec(region))
}

/// The region of a pair, formed from the nets that touch both blocks.
pub(crate) fn form_region(
    alloc: Global,
    spots: &mut Vec<usize>,
    h: &Hypergraph,
    p: &Partition,
    a: u32,
    b: u32,
    nets: &[u32],
    least: u64,
) -> Result<Verts, NoMemory>
    requires belongs { p.now.hyper ≡ h.now }
    requires fits { Fits p.now.hyper p.now.k p.now.limit p.now.blocks }
    requires order { a < b }
    requires blocks { b < p.now.k }
    requires nets { nets.now ≡ touching_nets h.now p.now.blocks a b }
    requires least { WeighsAtLeast h.now least }
    ensures { IfOk result (λ list. list ≡ region h.now p.now.limit p.now.blocks a b) }
{
    let _blocks = p.blocks();
    let firsts = side_of(alloc, spots, h, p, a, b, nets, least)?;
    let seconds = side_of(alloc, spots, h, p, b, a, nets, least)?;
    joined(alloc, spots, h, firsts, seconds)
}

/// Whether a block has room for the lightest vertex.
fn has_room(p: &Partition, block: u32, least: u64) -> bool
    requires { block < p.now.k }
{
    p.limit().saturating_sub(p.weight(block)) >= least
}

/// Whether it pays to form the region of a pair by two threads, one for each block: many nets touch both blocks, and
/// neither of them is full.
fn two_pay(p: &Partition, a: u32, b: u32, nets: &[u32], least: u64) -> bool
    requires order { a < b }
    requires blocks { b < p.now.k }
{
    nets.len() >= LEAST_NETS && has_room(p, a, least) && has_room(p, b, least)
}

/// Does what [`form_region`] does. Where that pays, a new thread forms the side of the first block, with other spots,
/// and this one that of the second block.
pub(crate) fn form_region_with<R: Threads + Sync>(
    rt: &R,
    alloc: Global,
    spots: &mut Vec<usize>,
    others: &mut Vec<usize>,
    h: &Hypergraph,
    p: &Partition,
    a: u32,
    b: u32,
    nets: &[u32],
    least: u64,
) -> Result<Verts, NoMemory>
    requires belongs { p.now.hyper ≡ h.now }
    requires fits { Fits p.now.hyper p.now.k p.now.limit p.now.blocks }
    requires order { a < b }
    requires blocks { b < p.now.k }
    requires nets { nets.now ≡ touching_nets h.now p.now.blocks a b }
    requires least { WeighsAtLeast h.now least }
    ensures { IfOk result (λ list. list ≡ region h.now p.now.limit p.now.blocks a b) }
{
    if !two_pay(p, a, b, nets, least) {
        return form_region(alloc, spots, h, p, a, b, nets, least);
    }
    let _blocks = p.blocks();
    let mut front = ||
        requires belongs { p.now.hyper ≡ h.now }
        requires fits { Fits p.now.hyper p.now.k p.now.limit p.now.blocks }
        requires to { b < p.now.k }
        requires nets { nets.now ≡ touching_nets h.now p.now.blocks a b }
        requires least { WeighsAtLeast h.now least }
        ensures { IfOk result (λ list. list.items ≡ side h.entry.now p.entry.now.limit p.entry.now.blocks a b) }
    { side_of(alloc, others, h, p, a, b, nets, least) };
    let mut back = ||
        requires belongs { p.now.hyper ≡ h.now }
        requires fits { Fits p.now.hyper p.now.k p.now.limit p.now.blocks }
        requires to { a < p.now.k }
        requires nets { nets.now ≡ touching_nets h.now p.now.blocks b a }
        requires least { WeighsAtLeast h.now least }
        ensures { IfOk result (λ list. list.items ≡ side h.entry.now p.entry.now.limit p.entry.now.blocks b a) }
    { side_of(alloc, spots, h, p, b, a, nets, least) };
    let (firsts, seconds) = join_mut(rt, &mut front, &mut back);
    joined(alloc, spots, h, firsts?, seconds?)
}
