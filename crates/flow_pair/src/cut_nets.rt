//! The cut nets of a partition, block by block.

ghost use Rattle.std.specs.Prelude.{◌≡◌, ◌<◌, ◌≤◌, [], All, IfOk, OnOk, length, slice_index_or, false, ◌↔◌};
ghost use Rattle.hg_defs.specs.Hypergraph.{vertex_count, net_count};
ghost use Rattle.round_log.specs.Rounds.{touching};
ghost use Rattle.flow_pair.specs.CutNets.{AreCutLists, with_nets};
ghost use Rattle.flow_pair.specs.Sides.{touching_nets};

use crate::cut::{add_nets_of, any_between, nets_between};
use crate::cut_lists::{cut_lists_in, cut_lists_with};
use crate::distinct::common_of;
use flow_net::NoMemory;
use hg_base::{Move, Verts};
use incidence::Hypergraph;
use pin_plain::Partition;
use std::alloc::Global;
use std::marker::Model;
use std::mem;
use std::thread::Threads;

/// Appends the nets of the vertices that moved to the list of a block.
fn extend_list(
    alloc: Global,
    h: &Hypergraph,
    moves: &[Move],
    lists: &mut Vec<Verts>,
    block: u32,
) -> Result<(), NoMemory>
    requires moves { All (λ m. m.vertex < vertex_count h.now) moves.now }
    requires block { block < length lists.old.items }
    ensures { OnOk result (lists.new.items ≡ with_nets h.now moves.now lists.old.items block) }
{
    let place = block as usize;
    let mut list = mem::replace(&mut lists[place], Verts::new(alloc)).into_vec();
    add_nets_of(h, moves, &mut list)?;
    lists[place] = Verts::from_vec(list);
    Ok(())
}

/// For each block the nets that touch it and another one, and maybe others. It is seen as these lists.
#[derive(Debug, Drop)]
pub struct CutNets {
    lists: Vec<Verts>,
}

impl Model for CutNets {
    ghost use Rattle.std.specs.Prelude.{ℕ, List};

    ghost Value = { List (List ℕ) };

    ghost view = { λ c. c.lists.items };
}

impl CutNets {
    /// The cut nets of a partition, found in one walk over all nets.
    pub fn of(alloc: Global, h: &Hypergraph, p: &Partition) -> Result<Self, NoMemory>
        requires { p.now.hyper ≡ h.now }
        ensures { IfOk result (AreCutLists h.now p.now.k p.now.blocks) }
    {
        let lists = cut_lists_in(alloc, h, p, 0, h.nets())?;
        Ok(CutNets { lists })
    }

    /// The cut nets of a partition, for which the workers look all at once, each in a run of the nets. There are as
    /// many runs as workers, or fewer where the nets are few.
    pub fn of_with<R: Threads + Sync>(
        rt: &R,
        alloc: Global,
        h: &Hypergraph,
        p: &Partition,
        workers: u32,
    ) -> Result<Self, NoMemory>
        requires belongs { p.now.hyper ≡ h.now }
        requires workers { (1 ≤ workers) × (workers ≤ 64) }
        ensures { IfOk result (AreCutLists h.now p.now.k p.now.blocks) }
    {
        let lists = cut_lists_with(rt, alloc, h, p, workers)?;
        Ok(CutNets { lists })
    }

    /// The nets that touch both blocks of a pair, in rising order. Each net has a spot, in which anything may
    /// stand.
    pub(crate) fn between(
        &self,
        alloc: Global,
        spots: &mut [usize],
        h: &Hypergraph,
        p: &Partition,
        a: u32,
        b: u32,
    ) -> Result<Vec<u32>, NoMemory>
        requires belongs { p.now.hyper ≡ h.now }
        requires cut { AreCutLists h.now p.now.k p.now.blocks self.now }
        requires order { a < b }
        requires second { b < p.now.k }
        requires spots { net_count h.now ≤ length spots.old }
        ensures size { length spots.new ≡ length spots.old }
        ensures nets { IfOk result (λ nets. nets.items ≡ touching_nets h.now p.now.blocks a b) }
    {
        let firsts = self.lists[a as usize].slice();
        let seconds = self.lists[b as usize].slice();
        let both = common_of(alloc, spots, firsts, seconds)?;
        nets_between(alloc, h, p, a, b, both.as_slice())
    }

    /// Whether a net touches both blocks of a pair. The shorter one of their lists is looked through, up to the
    /// first such net.
    pub fn touch(&self, h: &Hypergraph, p: &Partition, a: u32, b: u32) -> bool
        requires belongs { p.now.hyper ≡ h.now }
        requires cut { AreCutLists h.now p.now.k p.now.blocks self.now }
        requires order { a < b }
        requires second { b < p.now.k }
        ensures { (result ≡ false) ↔ (touching h.now p.now.blocks a b ≡ []) }
    {
        let firsts = self.lists[a as usize].slice();
        let seconds = self.lists[b as usize].slice();
        if firsts.len() < seconds.len() {
            return any_between(h, p, a, b, firsts);
        }
        any_between(h, p, a, b, seconds)
    }

    /// How long the list of a block is. A net may stand in it more than once.
    pub fn len_of(&self, a: u32) -> usize
        requires { a < length self.now }
        ensures { result ≡ length (slice_index_or self.now a []) }
    {
        self.lists[a as usize].len()
    }

    /// Adds the nets of vertices that moved between two blocks to the lists of both.
    pub fn add_nets_of(
        &mut self,
        alloc: Global,
        h: &Hypergraph,
        moves: &[Move],
        a: u32,
        b: u32,
    ) -> Result<(), NoMemory>
        requires moves { All (λ m. m.vertex < vertex_count h.now) moves.now }
        requires first { a < length self.old }
        requires second { b < length self.old }
        ensures { OnOk result (self.new ≡ with_nets h.now moves.now (with_nets h.now moves.now self.old a) b) }
    {
        extend_list(alloc, h, moves, &mut self.lists, a)?;
        extend_list(alloc, h, moves, &mut self.lists, b)
    }
}
