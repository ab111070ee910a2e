//! The pairing sweep: single vertices of a net are joined two by two.

ghost use Rattle.std.specs.Prelude.{◌≡◌, ◌≢◌, ◌+◌, ◌-◌, ◌<◌, ◌≤◌, ◌^◌, ℕ, [], ◌∷◌, length, map, filter, All};
ghost use Rattle.std.specs.Prelude.{AllPairs, IfOk, OnOk, nat_eq, false, slice_index_or, ◌&&◌};
ghost use Rattle.std.specs.List.{range_with_len};
ghost use Rattle.std.specs.List.Sorted.{IsStrictlyIncreasing};
ghost use Rattle.hg_defs.specs.Hypergraph.{vertex_count, net_count, net_of, vertices};
ghost use Rattle.hg_defs.specs.Partition.{block_of};
ghost use Rattle.hg_defs.specs.Clustering.{IsClustering, IsMaximal, IsSingleton, is_small};
ghost use Rattle.hg_defs.specs.Numbering.{IsRooted, numbered};
ghost use Rattle.hg_defs.specs.Pairing.{lightest_first, pair_up, paired_from, paired_inside, paired};
ghost use Rattle.hg_defs.specs.Pairing as pairing;
ghost use Rattle.hg_defs.specs.Sorting.{sorted, lower_first};
ghost use Rattle.coarsen.specs.Marks.{AreMarked, AreFewer, weighed};
ghost use Rattle.coarsen.specs.Numbers.{IsByRoot};

use crate::marks::{count_on_nets, count_singles, mark_singles};
use crate::numbering::number_clusters;
use hg_base::{MapList, NoMemory};
use incidence::Hypergraph;
use std::alloc::{AllocError, Global};

/// Larger nets aren't looked at.
const MOST_PINS: usize = 1000;

/// A vertex beside its weight.
type Rank = (u64, u32);

/// Pairs the vertices, each alone at first: the nets of at most 1,000 pins are visited in rising
/// number, and on each the two lightest single vertices, the lower number first at a tie, are
/// joined while they weigh at most the cap together. The clusters are numbered by the rising lower
/// vertices of the pairs.
pub fn pair_sweep(alloc: Global, h: &Hypergraph, cap: u64) -> Result<MapList, NoMemory>
    ensures paired { IfOk result (λ clusters. clusters ≡ paired h.now cap) }
    ensures clustering { IfOk result (IsClustering h.now cap) }
    ensures maximal { IfOk result (IsMaximal h.now cap) }
{
    pair_all(alloc, h, cap, all_alone(alloc, h)?)
}

/// Each vertex as its own root.
fn all_alone(alloc: Global, h: &Hypergraph) -> Result<Vec<u32>, AllocError>
    ensures { IfOk result (λ roots. roots.items ≡ vertices h.now) }
{
    let mut roots = Vec::new(alloc);
    for v in 0..h.vertices() {
        roots.push(v)?;
    }
    Ok(roots)
}

/// Pairs single vertices of a clustering by roots, and numbers the clusters by rising root.
pub(crate) fn pair_all(
    alloc: Global,
    h: &Hypergraph,
    cap: u64,
    roots: Vec<u32>,
) -> Result<MapList, NoMemory>
    requires { IsRooted h.now cap roots.items }
    ensures paired { IfOk result (λ clusters. clusters ≡ numbered (paired_from h.now cap roots.items)) }
    ensures by_root { IfOk result IsByRoot }
    ensures clustering { IfOk result (IsClustering h.now cap) }
    ensures maximal { IfOk result (IsMaximal h.now cap) }
{
    let _vertices = h.vertices();
    let blocks = vec![in alloc; 0u32; roots.len()]?;
    pair_within(alloc, h, cap, 1, &blocks, roots)
}

/// Pairs single vertices of a clustering by roots inside the `k` blocks of a partition, and numbers
/// the clusters by rising root.
pub(crate) fn pair_within(
    alloc: Global,
    h: &Hypergraph,
    cap: u64,
    k: u32,
    blocks: &[u32],
    mut roots: Vec<u32>,
) -> Result<MapList, NoMemory>
    requires rooted { IsRooted h.now cap roots.items }
    requires blocks { length blocks.now ≡ vertex_count h.now }
    ensures { IfOk result (λ clusters. clusters ≡ numbered (paired_inside h.now cap k blocks.now roots.items)) }
{
    let _vertices = h.vertices();
    pair_nets(alloc, h, cap, k, blocks, roots.as_mut_slice())?;
    number_clusters(alloc, roots.as_mut_slice())?;
    Ok(MapList::from_vec(roots))
}

/// Pairs single vertices of a clustering by roots, net by net.
///
/// Pairing makes no vertex single, so a net with fewer than two single vertices at first is never looked at.
fn pair_nets(
    alloc: Global,
    h: &Hypergraph,
    cap: u64,
    k: u32,
    blocks: &[u32],
    roots: &mut [u32],
) -> Result<(), NoMemory>
    requires rooted { IsRooted h.now cap roots.old }
    requires blocks { length blocks.now ≡ vertex_count h.now }
    ensures { OnOk result (roots.new ≡ paired_inside h.now cap k blocks.now roots.old) }
{
    let mut single = vec![in alloc; false; h.vertices() as usize]?;
    mark_singles(h, roots, single.as_mut_slice());
    let counts = count_on_nets(alloc, h, single.as_slice())?;
    let mut ranks = Vec::new(alloc);
    for e in 0..h.nets() {
        if counts[e as usize] >= 2 {
            pair_net(
                h,
                cap,
                k,
                blocks,
                e,
                roots,
                single.as_mut_slice(),
                &mut ranks,
            )?;
        }
    }
    Ok(())
}

/// Pairs the single vertices of a net, block by block.
fn pair_net(
    h: &Hypergraph,
    cap: u64,
    k: u32,
    blocks: &[u32],
    e: u32,
    roots: &mut [u32],
    single: &mut [bool],
    ranks: &mut Vec<Rank>,
) -> Result<(), AllocError>
    requires net { e < net_count h.now }
    requires rooted { IsRooted h.now cap roots.old }
    requires marked { AreMarked h.now roots.old single.old }
    requires blocks { length blocks.now ≡ vertex_count h.now }
    ensures paired { OnOk result (roots.new ≡ pairing.pair_nets h.now cap k (block_of blocks.now) roots.old
        (net_of h.now e ∷ [])) }
    ensures rooted { OnOk result (IsRooted h.now cap roots.new) }
    ensures marked { OnOk result (AreMarked h.now roots.new single.new) }
    ensures fewer { OnOk result (AreFewer single.old single.new) }
{
    let pins = h.pins(e);
    if pins.len() > MOST_PINS || count_singles(pins, single) < 2 {
        return Ok(());
    }
    for b in 0..k {
        pair_block(h, cap, blocks, b, pins, roots, single, ranks)?;
    }
    Ok(())
}

/// Pairs the single vertices of a block among the pins of a net.
fn pair_block(
    h: &Hypergraph,
    cap: u64,
    blocks: &[u32],
    b: u32,
    pins: &[u32],
    roots: &mut [u32],
    single: &mut [bool],
    ranks: &mut Vec<Rank>,
) -> Result<(), AllocError>
    requires rising { IsStrictlyIncreasing pins.now }
    requires pins { All (λ v. v < vertex_count h.now) pins.now }
    requires rooted { IsRooted h.now cap roots.old }
    requires marked { AreMarked h.now roots.old single.old }
    requires blocks { length blocks.now ≡ vertex_count h.now }
    ensures paired { OnOk result (roots.new ≡ pair_up h.now cap 1 (λ v. 0) roots.old
        (lightest_first h.now cap 1 (block_of blocks.now) roots.old b pins.now)) }
    ensures rooted { OnOk result (IsRooted h.now cap roots.new) }
    ensures marked { OnOk result (AreMarked h.now roots.new single.new) }
    ensures fewer { OnOk result (AreFewer single.old single.new) }
{
    rank_singles(h, blocks, b, pins, single, ranks)?;
    ranks.sort_unstable();
    join_ranks(h, cap, ranks, roots, single);
    Ok(())
}

/// Lists the single vertices of a block among the pins, beside their weights.
fn rank_singles(
    h: &Hypergraph,
    blocks: &[u32],
    b: u32,
    pins: &[u32],
    single: &[bool],
    ranks: &mut Vec<Rank>,
) -> Result<(), AllocError>
    requires pins { All (λ v. v < vertex_count h.now) pins.now }
    requires single { length single.now ≡ vertex_count h.now }
    requires blocks { length blocks.now ≡ vertex_count h.now }
    ensures { OnOk result (ranks.new.items ≡ map (weighed h.now)
        (filter (λ v. slice_index_or single.now v false && nat_eq (block_of blocks.now v) b) pins.now)) }
{
    ranks.clear();
    for v in pins {
        if single[*v as usize] && blocks[*v as usize] == b {
            ranks.push((h.vertex_weight(*v), *v))?;
        }
    }
    Ok(())
}

/// Joins single vertices two by two, as far as two weigh at most the cap.
fn join_ranks(h: &Hypergraph, cap: u64, ranks: &[Rank], roots: &mut [u32], single: &mut [bool])
    requires singles { All (λ rank. IsSingleton h.now roots.old rank.1) ranks.now }
    requires apart { AllPairs (λ a b. a.1 ≢ b.1) ranks.now }
    requires rooted { IsRooted h.now cap roots.old }
    requires marked { AreMarked h.now roots.old single.old }
    ensures paired { roots.new ≡ pair_up h.now cap 1 (λ v. 0) roots.old (map (λ rank. rank.1) ranks.now) }
    ensures rooted { IsRooted h.now cap roots.new }
    ensures marked { AreMarked h.now roots.new single.new }
    ensures fewer { AreFewer single.old single.new }
{
    let mut i = 0;
    while i + 1 < ranks.len() {
        let u = ranks[i].1;
        let v = ranks[i + 1].1;
        if h.vertex_weight(u) + h.vertex_weight(v) > cap {
            return;
        }
        roots[u.max(v) as usize] = u.min(v);
        single[u as usize] = false;
        single[v as usize] = false;
        i += 2;
    }
}
