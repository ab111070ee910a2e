//! The cheapest assignment of the region of a pair of blocks.

ghost use Rattle.std.specs.Prelude.{◌≡◌, ◌≢◌, ℕ, ◌+◌, ◌^◌, ◌<◌, ◌≤◌, [], ◌↔◌, length, slice_index};
ghost use Rattle.std.specs.Prelude.{slice_index_or, if◌then◌else◌, IfOk, IfSome, IsNone};
ghost use Rattle.std.specs.List.{flat_map};
ghost use Rattle.std.specs.Ordering.{nat_cmp};
ghost use Rattle.hg_defs.specs.Hypergraph.{net_count};
ghost use Rattle.hg_defs.specs.Incidence.{nets_of};
ghost use Rattle.hg_defs.specs.Partition.{Fits};
ghost use Rattle.hg_defs.specs.Sorting.{set_of};
ghost use Rattle.flow_net.specs.Flow.{is_in};
ghost use Rattle.round_log.specs.Rounds.{touching};
ghost use Rattle.round_log.specs.Rounds as rounds;
ghost use Rattle.flow_pair.specs.CutNets.{AreCutLists};
ghost use Rattle.flow_pair.specs.Notes.{IsNotedRun};
ghost use Rattle.flow_pair.specs.PairEnds.{IsPairEnd};
ghost use Rattle.flow_pair.specs.Sides.{touching_nets, WeighsAtLeast};
ghost use Rattle.flow_pair.specs.Sides as sides;

use crate::balance::balanced_side;
use crate::cut::touching_nets_of;
use crate::cut_nets::CutNets;
use crate::network::open_region;
use crate::notes::{Notes, count_runs, make_runs, note_runs};
use crate::pair::{Pair, more_than_all};
use crate::region::{form_region, form_region_with, least_weight, make_spots};
use crate::short::build_short;
use flow_net::{NoMemory, Workspace};
use hg_base::{Blocks, Verts};
use incidence::Hypergraph;
use pin_plain::Partition;
use std::alloc::Global;
use std::marker::Model;
use std::snapshot::Snapshot;
use std::thread::Threads;

/// The end of a pair of blocks.
#[derive(Debug, Drop)]
pub struct PairEnd {
    /// The vertices that were assigned anew, in rising order.
    pub region: Verts,
    /// The block of each of them.
    pub blocks: Blocks,
    /// What the nets pay that touch both blocks afterwards.
    pub value: u64,
}

/// The block of each vertex of a region: the first one for those on the side of the source.
fn blocks_of(alloc: Global, side: &[bool], count: usize, a: u32, b: u32) -> Result<Blocks, NoMemory>
    requires { 2 + count ≤ length side.now }
    ensures count { IfOk result (λ blocks. length blocks ≡ count) }
    ensures each { IfOk result (λ blocks. (i : ℕ) → i < length blocks → slice_index blocks i ≡ (if is_in side.now (2
        + i) then a else b)) }
{
    let mut blocks = Vec::with_capacity(alloc, count)?;
    for i in 0..count {
        blocks.push(if side[2 + i] { a } else { b })?;
    }
    Ok(Blocks::from_vec(blocks))
}

/// The cheapest assignment of a region to its pair, with what the nets pay that touch both blocks afterwards, given the
/// nets that hold a vertex of it, which were noted, and those that touch both blocks before: of the two extreme minimum
/// cuts the one by which the greater load of the two blocks is lesser.
fn solve_region(
    space: &mut Workspace,
    spots: &mut [usize],
    alloc: Global,
    p: &Partition,
    pair: Pair<'_>,
    nets: &[u32],
    runs: &[Notes],
    touching: &[u32],
) -> Result<(Blocks, u64), NoMemory>
    requires belongs { p.now.hyper ≡ pair.h.now }
    requires blocks { p.now.blocks ≡ pair.blocks.now }
    requires fits { Fits p.now.hyper p.now.k p.now.limit p.now.blocks }
    requires order { pair.first < pair.second }
    requires second { pair.second < p.now.k }
    requires region { pair.region.now ≡ rounds.region pair.h.now p.now.limit p.now.blocks pair.first pair.second }
    requires nets { nets.now ≡ set_of nat_cmp (flat_map (nets_of pair.h.now) pair.region.now) }
    requires some { 0 < length runs.now }
    requires runs { length runs.now ≤ 64 }
    requires noted { (i : ℕ) (d : _) → i < length runs.now → IsNotedRun pair.h.now pair.blocks.now pair.first
        pair.second pair.region.now nets.now (length runs.now) i (slice_index_or runs.now i d) }
    requires touching { touching.now ≡ touching_nets pair.h.now p.now.blocks pair.first pair.second }
    requires spots { net_count pair.h.now ≤ length spots.old }
    ensures { IfOk result (λ r. IsPairEnd pair.entry.h.now p.now.k p.now.limit p.now.blocks pair.entry.first
        pair.entry.second (record { region = pair.entry.region.now; blocks = r.0; value = r.1 })) }
{
    let _blocks = p.blocks();
    let mut short = build_short(alloc, spots, pair, nets, runs, touching)?;
    let cut = short.network.max_flow_in(space, 0, 1)?;
    let (a, b) = (pair.first, pair.second);
    let (near, far) = (cut.near.slice(), cut.side.slice());
    let side = balanced_side(pair.h, p, a, b, pair.region, near, far);
    let blocks = blocks_of(alloc, side, pair.region.len(), a, b)?;
    Ok((blocks, cut.value as u64 + short.fixed))
}

/// What solves one pair after the other of a hypergraph, in the same memory. It is seen as the
/// hypergraph.
#[derive(Drop)]
pub struct PairSolver {
    hyper: Snapshot<Hypergraph>,
    alloc: Global,
    space: Workspace,
    /// The places of vertices in the region of a pair.
    places: Vec<u32>,
    /// Spots of the vertices and nets, for lists that have many of them more than once.
    spots: Vec<usize>,
    /// Those for a second thread.
    others: Vec<usize>,
    /// Notes of the nets of a region, a run for each thread.
    runs: Vec<Notes>,
    /// More than all nets can pay.
    most: u64,
    /// The least weight of a vertex.
    least: u64,
}

impl Model for PairSolver {
    ghost use Rattle.std.specs.Prelude.{◌≡◌, ◌≤◌, ◌^◌};
    ghost use Rattle.hg_defs.specs.Hypergraph.{Hyper};
    ghost use Rattle.flow_pair.specs.PairNetwork.{unbounded};
    ghost use Rattle.flow_pair.specs.Sides.{least_weight, WeighsAtLeast};

    ghost Value = { Hyper };

    ghost view = { λ s. s.hyper.value };

    ghost invariant = { λ s. (s.most ≡ unbounded s.hyper.value) × (s.most ≤ 2 ^ 56)
        × (s.least ≡ least_weight s.hyper.value) × WeighsAtLeast s.hyper.value s.least };
}

impl PairSolver {
    /// Makes a solver, which takes no memory yet.
    pub fn new(alloc: Global, h: &Hypergraph) -> Self
        ensures { result ≡ h.now }
    {
        PairSolver {
            hyper: Snapshot::of(h),
            alloc,
            space: Workspace::new(alloc),
            places: Vec::new(alloc),
            spots: Vec::new(alloc),
            others: Vec::new(alloc),
            runs: Vec::new(alloc),
            most: more_than_all(h),
            least: least_weight(h),
        }
    }

    /// Makes another solver of the same hypergraph, which takes no memory yet either. It spares the way over all
    /// vertices and nets: what [`new`](Self::new) found there is taken over.
    pub fn another(&self, alloc: Global, h: &Hypergraph) -> Self
        requires { self.now ≡ h.now }
        ensures { result ≡ self.now }
    {
        PairSolver {
            hyper: Snapshot::of(h),
            alloc,
            space: Workspace::new(alloc),
            places: Vec::new(alloc),
            spots: Vec::new(alloc),
            others: Vec::new(alloc),
            runs: Vec::new(alloc),
            most: self.most,
            least: self.least,
        }
    }

    /// The least weight of a vertex, or the greatest number where there is none.
    pub fn least_weight(&self) -> u64
        ensures value { result ≡ sides.least_weight self.now }
        ensures bound { WeighsAtLeast self.now result }
    {
        self.least
    }

    /// The nets that touch both blocks of a pair, in rising order, looked for among the cut nets.
    pub fn nets_between(
        &mut self,
        h: &Hypergraph,
        p: &Partition,
        cut: &CutNets,
        a: u32,
        b: u32,
    ) -> Result<Vec<u32>, NoMemory>
        requires hyper { self.old ≡ h.now }
        requires belongs { p.now.hyper ≡ h.now }
        requires cut { AreCutLists h.now p.now.k p.now.blocks cut.now }
        requires order { a < b }
        requires second { b < p.now.k }
        ensures hyper { self.new ≡ self.old }
        ensures nets { IfOk result (λ nets. nets.items ≡ touching_nets h.now p.now.blocks a b) }
    {
        make_spots(&mut self.spots, h)?;
        cut.between(self.alloc, self.spots.as_mut_slice(), h, p, a, b)
    }

    /// The cheapest assignment of the region of a pair of blocks to the two, found by a maximum flow,
    /// or none where no net has pins in both. The nets that do are given, in rising order.
    pub fn solve(
        &mut self,
        h: &Hypergraph,
        p: &Partition,
        a: u32,
        b: u32,
        nets: &[u32],
    ) -> Result<Option<PairEnd>, NoMemory>
        requires hyper { self.old ≡ h.now }
        requires belongs { p.now.hyper ≡ h.now }
        requires fits { Fits p.now.hyper p.now.k p.now.limit p.now.blocks }
        requires order { a < b }
        requires blocks { b < p.now.k }
        requires nets { nets.now ≡ touching_nets h.now p.now.blocks a b }
        ensures hyper { self.new ≡ self.old }
        ensures none { IfOk result (λ found. IsNone found ↔ (touching h.now p.now.blocks a b ≡ [])) }
        ensures end { IfOk result (λ found. IfSome found (IsPairEnd h.now p.now.k p.now.limit p.now.blocks a b)) }
    {
        if nets.is_empty() {
            return Ok(None);
        }
        let _blocks = p.blocks();
        let spots = &mut self.spots;
        let region = form_region(self.alloc, spots, h, p, a, b, nets, self.least)?;
        let inside = open_region(self.alloc, spots, &mut self.places, h, region.slice())?;
        make_runs(self.alloc, &mut self.runs, 1)?;
        let runs = &mut self.runs.as_mut_slice()[..1];
        let places = self.places.as_slice();
        let pair = Pair::of(h, p, a, b, region.slice(), places, self.most);
        let inside = inside.as_slice();
        runs[0].note(pair, inside);
        let space = &mut self.space;
        let spots = spots.as_mut_slice();
        let (blocks, value) = solve_region(space, spots, self.alloc, p, pair, inside, runs, nets)?;
        Ok(Some(PairEnd {
            region,
            blocks,
            value,
        }))
    }

    /// Does what [`solve`](Self::solve) does, by at most so many threads. Where many nets touch both blocks, two form
    /// the region, one for each block, unless a block is full. Where many nets hold a vertex of it, each notes a run of
    /// them.
    pub fn solve_with<R: Threads + Sync>(
        &mut self,
        rt: &R,
        threads: u32,
        h: &Hypergraph,
        p: &Partition,
        a: u32,
        b: u32,
        nets: &[u32],
    ) -> Result<Option<PairEnd>, NoMemory>
        requires threads { 1 ≤ threads }
        requires hyper { self.old ≡ h.now }
        requires belongs { p.now.hyper ≡ h.now }
        requires fits { Fits p.now.hyper p.now.k p.now.limit p.now.blocks }
        requires order { a < b }
        requires blocks { b < p.now.k }
        requires nets { nets.now ≡ touching_nets h.now p.now.blocks a b }
        ensures hyper { self.new ≡ self.old }
        ensures none { IfOk result (λ found. IsNone found ↔ (touching h.now p.now.blocks a b ≡ [])) }
        ensures end { IfOk result (λ found. IfSome found (IsPairEnd h.now p.now.k p.now.limit p.now.blocks a b)) }
    {
        if threads == 1 || nets.is_empty() {
            return self.solve(h, p, a, b, nets);
        }
        let _blocks = p.blocks();
        let (spots, others) = (&mut self.spots, &mut self.others);
        let region = form_region_with(rt, self.alloc, spots, others, h, p, a, b, nets, self.least)?;
        let inside = open_region(self.alloc, spots, &mut self.places, h, region.slice())?;
        let count = count_runs(inside.len(), threads);
        make_runs(self.alloc, &mut self.runs, count)?;
        let runs = &mut self.runs.as_mut_slice()[..count];
        let places = self.places.as_slice();
        let pair = Pair::of(h, p, a, b, region.slice(), places, self.most);
        let inside = inside.as_slice();
        note_runs(rt, pair, inside, runs);
        let space = &mut self.space;
        let spots = spots.as_mut_slice();
        let (blocks, value) = solve_region(space, spots, self.alloc, p, pair, inside, runs, nets)?;
        Ok(Some(PairEnd {
            region,
            blocks,
            value,
        }))
    }
}

/// The cheapest assignment of the region of a pair of blocks to the two, found by a maximum flow, or
/// none where no net has pins in both.
pub fn solve_pair(
    alloc: Global,
    h: &Hypergraph,
    p: &Partition,
    a: u32,
    b: u32,
) -> Result<Option<PairEnd>, NoMemory>
    requires belongs { p.now.hyper ≡ h.now }
    requires fits { Fits p.now.hyper p.now.k p.now.limit p.now.blocks }
    requires order { a < b }
    requires blocks { b < p.now.k }
    ensures none { IfOk result (λ found. IsNone found ↔ (touching h.now p.now.blocks a b ≡ [])) }
    ensures end { IfOk result (λ found. IfSome found (IsPairEnd h.now p.now.k p.now.limit p.now.blocks a b)) }
{
    let nets = touching_nets_of(alloc, h, p, a, b)?;
    PairSolver::new(alloc, h).solve(h, p, a, b, nets.as_slice())
}
