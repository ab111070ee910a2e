//! The plain partition.

ghost use Rattle.std.specs.Prelude.{◌≡◌, ◌≢◌, ℕ, ◌+◌, ◌-◌, ◌<◌, ◌≤◌, ◌^◌, All, length, map, slice_index};
ghost use Rattle.std.specs.Prelude.{slice_set, IsTrue, ◌↔◌, IfOk};
ghost use Rattle.hg_defs.specs.Hypergraph.{vertex_count, net_count, net_of, Suits, IsFixedWithin};
ghost use Rattle.hg_defs.specs.Partition.{IsPartition, block_of, load, Fits};
ghost use Rattle.hg_defs.specs.Cost.{cost};
ghost use Rattle.hg_defs.specs.Pins.{pins_in};
ghost use Rattle.hg_defs.specs.Moves.{moved, gain};
ghost use Rattle.hg_defs.specs.Contraction.{after};
ghost use Rattle.pin_plain.specs.Counts.{all_words, HasStarts, HasWidths};
ghost use Rattle.pin_plain.specs.Parted.{IsParted, IsLoaded, IsTallied, loads_after, KeepsCost};

mod best;
mod marking;
mod ready;
mod replay;
mod stride;
mod sweep;

use crate::costs::{cost_by_spreads, cost_with};
use crate::counts::{Layout, count, lay_out, move_pin};
use crate::gains::saved_and_lost;
use crate::lent::Lent;
use crate::tallies::{Nets, tally, tally_with};
pub use best::BestMove;
use hg_base::{Blocks, Items, NoMemory};
use incidence::Hypergraph;
pub use ready::Ready;
use std::alloc::Global;
use std::marker::Model;
use std::snapshot::Snapshot;
use std::thread::Threads;

/// A partition of a hypergraph into `k` blocks, with the load of each block and the pin counts of
/// each net.
///
/// It doesn't hold the hypergraph: the calls that need it are given it again.
#[derive(Drop)]
pub struct Partition {
    hyper: Snapshot<Hypergraph>,
    k: u32,
    limit: u64,
    blocks: Blocks,
    loads: Vec<u64>,
    starts: Vec<u32>,
    widths: Vec<u8>,
    words: Vec<u64>,
}

impl Model for Partition {
    ghost use Rattle.pin_plain.specs.Parted.{Parted, IsTallied};

    ghost Value = { Parted };

    ghost view = { λ p. record { hyper = p.hyper.value; k = p.k; limit = p.limit; blocks = p.blocks } };

    ghost invariant = { λ p. IsTallied p.hyper.value p.k p.blocks p.loads.items p.starts.items p.widths.items
        p.words.items };
}

/// Adds up the loads anew: the weight of each vertex goes to the load of its block.
fn add_weights(h: &Hypergraph, blocks: &[u32], loads: &mut [u64])
    requires { IsPartition h.now (length loads.old) blocks.now }
    ensures { IsLoaded h.now (length loads.old) blocks.now loads.new }
{
    loads.fill(0);
    for v in 0..h.vertices() {
        loads[blocks[v as usize] as usize] += h.vertex_weight(v);
    }
}

/// Takes a weight from one load and adds it to another one.
fn move_weight(loads: &mut [u64], weight: u64, from: u32, to: u32)
    requires from { from < length loads.old }
    requires to { to < length loads.old }
    requires held { weight ≤ slice_index loads.old from }
    requires room { slice_index loads.old to + weight < 2 ^ 64 }
    requires other { to ≢ from }
    ensures { loads.new ≡ loads_after loads.old from to weight }
{
    loads[from as usize] -= weight;
    loads[to as usize] += weight;
}

/// The block of the place of each vertex.
fn mapped(alloc: Global, blocks: &[u32], map: &[u32]) -> Result<Vec<u32>, NoMemory>
    requires { All (λ v. v < length blocks.now) map.now }
    ensures { IfOk result (λ mapped. mapped.items ≡ after blocks.now map.now) }
{
    Ok(map.iter().map(|v| blocks[*v as usize]).collect(alloc)?)
}

/// The loads of the blocks, where the counts of each net stand, and the words for them.
#[derive(Drop)]
struct Laid {
    loads: Vec<u64>,
    layout: Layout,
    words: Vec<u64>,
}

/// Adds up the loads, lays out the counts, and takes the words for them.
fn lay(alloc: Global, h: &Hypergraph, k: u32, blocks: &[u32]) -> Result<Laid, NoMemory>
    requires some { 2 ≤ k }
    requires few { k ≤ 256 }
    requires partition { IsPartition h.now k blocks.now }
    requires suits { Suits h.now k }
    ensures loads { IfOk result (λ l. IsLoaded h.now k blocks.now l.loads.items) }
    ensures starts { IfOk result (λ l. HasStarts h.now k l.layout.starts.items) }
    ensures widths { IfOk result (λ l. HasWidths h.now l.layout.widths.items) }
    ensures words { IfOk result (λ l. length l.words.items ≡ all_words h.now k) }
{
    let mut loads = vec![in alloc; 0u64; k as usize]?;
    let layout = lay_out(alloc, h, k)?;
    let words = vec![in alloc; 0u64; layout.words as usize]?;
    add_weights(h, blocks, loads.as_mut_slice());
    Ok(Laid {
        loads,
        layout,
        words,
    })
}

/// The partition of the blocks, whose counts are made.
fn made(h: &Hypergraph, k: u32, limit: u64, blocks: Blocks, laid: Laid) -> Partition
    requires { IsTallied h.now k blocks laid.loads.items laid.layout.starts.items laid.layout.widths.items
        laid.words.items }
    ensures { result ≡ record { hyper = h.now; k = k; limit = limit; blocks = blocks } }
{
    Partition {
        hyper: Snapshot::of(h),
        k,
        limit,
        blocks,
        loads: laid.loads,
        starts: laid.layout.starts,
        widths: laid.layout.widths,
        words: laid.words,
    }
}

impl Partition {
    /// Makes a partition of the blocks, one below `k` for each vertex, `k` being from 2 to 256.
    pub fn of(
        alloc: Global,
        h: &Hypergraph,
        k: u32,
        limit: u64,
        blocks: Blocks,
    ) -> Result<Self, NoMemory>
        requires some { 2 ≤ k }
        requires few { k ≤ 256 }
        requires partition { IsPartition h.now k blocks }
        requires suits { Suits h.now k }
        requires fixed { IsFixedWithin h.now k }
        ensures { IfOk result (λ p. p ≡ record { hyper = h.now; k = k; limit = limit; blocks = blocks }) }
    {
        let _vertices = h.vertices();
        let mut laid = lay(alloc, h, k, blocks.slice())?;
        let nets = Nets {
            h,
            k,
            blocks: blocks.slice(),
            starts: laid.layout.starts.as_slice(),
        };
        tally(&nets, laid.words.as_mut_slice());
        Ok(made(h, k, limit, blocks, laid))
    }

    /// Does what [`of`](Self::of) does with at most so many threads.
    fn of_with<R: Threads + Sync>(
        rt: &R,
        alloc: Global,
        h: &Hypergraph,
        k: u32,
        limit: u64,
        blocks: Blocks,
        workers: u32,
    ) -> Result<Self, NoMemory>
        requires some { 2 ≤ k }
        requires few { k ≤ 256 }
        requires partition { IsPartition h.now k blocks }
        requires suits { Suits h.now k }
        requires fixed { IsFixedWithin h.now k }
        requires workers { 1 ≤ workers }
        ensures { IfOk result (λ p. p ≡ record { hyper = h.now; k = k; limit = limit; blocks = blocks }) }
    {
        let _vertices = h.vertices();
        let mut laid = lay(alloc, h, k, blocks.slice())?;
        let nets = Nets {
            h,
            k,
            blocks: blocks.slice(),
            starts: laid.layout.starts.as_slice(),
        };
        tally_with(rt, &nets, workers, laid.words.as_mut_slice());
        Ok(made(h, k, limit, blocks, laid))
    }

    /// The block of each vertex.
    pub fn blocks(&self) -> &[u32]
        ensures value { result.now ≡ self.now.blocks }
        ensures parted { IsParted self.now.hyper self.now.k self.now.blocks }
    {
        self.blocks.slice()
    }

    /// Gives the block of each vertex, in the same memory.
    pub fn into_blocks(self) -> Blocks
        ensures { result ≡ self.blocks }
    {
        self.blocks
    }

    /// The number of blocks.
    pub fn k(&self) -> u32
        ensures { result ≡ self.now.k }
    {
        self.k
    }

    /// The limit on the load of a block.
    pub fn limit(&self) -> u64
        ensures { result ≡ self.now.limit }
    {
        self.limit
    }

    /// The load of a block: the weight of its vertices.
    pub fn weight(&self, b: u32) -> u64
        requires { b < self.now.k }
        ensures { result ≡ load self.now.hyper self.now.blocks b }
    {
        self.loads[b as usize]
    }

    /// Whether no block is loaded past the limit.
    pub fn fits(&self) -> bool
        ensures { IsTrue result ↔ Fits self.now.hyper self.now.k self.now.limit self.now.blocks }
    {
        self.loads.iter().all(|load| *load <= self.limit)
    }

    /// The cost of the partition of its hypergraph, by the hypergraph's objective.
    pub fn cost(&self, h: &Hypergraph) -> u64
        requires { self.now.hyper ≡ h.now }
        ensures value { result ≡ cost h.now self.now.blocks }
        ensures bound { result < 2 ^ 57 }
    {
        let nets = Nets {
            h,
            k: self.k,
            blocks: self.blocks.slice(),
            starts: self.starts.as_slice(),
        };
        cost_by_spreads(&nets, self.words.as_slice())
    }

    /// Does what [`cost`](Self::cost) does in at most so many threads.
    pub fn cost_with<R: Threads + Sync>(&self, rt: &R, h: &Hypergraph, workers: u32) -> u64
        requires belongs { self.now.hyper ≡ h.now }
        requires some { 1 ≤ workers }
        ensures value { result ≡ cost h.now self.now.blocks }
        ensures bound { result < 2 ^ 57 }
    {
        let nets = Nets {
            h,
            k: self.k,
            blocks: self.blocks.slice(),
            starts: self.starts.as_slice(),
        };
        cost_with(rt, &nets, self.words.as_slice(), workers)
    }

    /// How many pins of a net are in a block.
    pub fn count(&self, e: u32, b: u32) -> u32
        requires net { e < net_count self.now.hyper }
        requires block { b < self.now.k }
        ensures { result ≡ pins_in self.now.blocks (net_of self.now.hyper e).pins b }
    {
        let starts = self.starts.as_slice();
        let widths = self.widths.as_slice();
        count(
            self.words.as_slice(),
            starts[e as usize],
            u32::from(widths[e as usize]),
            b,
        )
    }

    /// Moves a vertex to a block.
    pub fn shift(&mut self, h: &Hypergraph, v: u32, to: u32)
        requires belongs { self.old.hyper ≡ h.now }
        requires vertex { v < vertex_count h.now }
        requires block { to < self.old.k }
        ensures { self.new ≡ record self.old { blocks = moved self.old.blocks v to } }
    {
        let from = self.blocks.slice()[v as usize];
        if from == to {
            return;
        }
        move_pin(
            h,
            self.k,
            self.blocks.slice(),
            self.starts.as_slice(),
            self.widths.as_slice(),
            self.words.as_mut_slice(),
            v,
            to,
        );
        move_weight(self.loads.as_mut_slice(), h.vertex_weight(v), from, to);
        self.blocks.set(v as usize, to);
    }

    /// What is lent to those who score moves.
    fn lend<'a>(&'a self, h: &'a Hypergraph) -> Lent<'a>
        requires { self.now.hyper ≡ h.now }
        ensures hyper { result.h.now ≡ h.now }
        ensures k { result.k ≡ self.now.k }
        ensures limit { result.limit ≡ self.now.limit }
        ensures blocks { result.blocks.now ≡ self.now.blocks }
    {
        Lent {
            h,
            k: self.k,
            limit: self.limit,
            blocks: self.blocks.slice(),
            loads: self.loads.as_slice(),
            starts: self.starts.as_slice(),
            words: self.words.as_slice(),
        }
    }

    /// How much lower the cost becomes where a vertex goes to a block.
    pub fn gain(&self, h: &Hypergraph, v: u32, to: u32) -> i64
        requires belongs { self.now.hyper ≡ h.now }
        requires vertex { v < vertex_count h.now }
        requires block { to < self.now.k }
        ensures { result ≡ gain h.now self.now.blocks v to }
    {
        if self.blocks()[v as usize] == to {
            return 0;
        }
        let (saved, lost) = saved_and_lost(&self.lend(h), v, to);
        saved as i64 - lost as i64
    }

    /// The blocks of a finer hypergraph that gives each vertex the block of its place in the map.
    fn finer_blocks(
        &self,
        alloc: Global,
        fine: &Hypergraph,
        map: &[u32],
    ) -> Result<Blocks, NoMemory>
        requires vertices { length map.now ≡ vertex_count fine.now }
        requires places { All (λ v. v < vertex_count self.now.hyper) map.now }
        ensures value { IfOk result (λ q. q ≡ after self.now.blocks map.now) }
        ensures partition { IfOk result (λ q. IsPartition fine.now self.now.k q) }
        ensures cost { IfOk result (λ q. KeepsCost self.now.hyper self.now.blocks fine.now map.now q) }
        ensures some { 2 ≤ self.now.k }
        ensures few { self.now.k ≤ 256 }
    {
        let blocks = mapped(alloc, self.blocks.slice(), map)?;
        Ok(Items::from_vec(blocks))
    }

    /// The partition of a finer hypergraph that gives each vertex the block of its place in the map.
    pub fn project(&self, alloc: Global, fine: &Hypergraph, map: &[u32]) -> Result<Self, NoMemory>
        requires vertices { length map.now ≡ vertex_count fine.now }
        requires places { All (λ v. v < vertex_count self.now.hyper) map.now }
        requires suits { Suits fine.now self.now.k }
        requires fixed { IsFixedWithin fine.now self.now.k }
        ensures value { IfOk result (λ p. p ≡ record {
          hyper = fine.now;
          k = self.now.k;
          limit = self.now.limit;
          blocks = after self.now.blocks map.now;
        }) }
        ensures cost { IfOk result (λ p. KeepsCost self.now.hyper self.now.blocks fine.now map.now p.blocks) }
    {
        let blocks = self.finer_blocks(alloc, fine, map)?;
        Partition::of(alloc, fine, self.k, self.limit, blocks)
    }

    /// Does what [`project`](Self::project) does: the counts are made by at most so many threads, and by no more
    /// than one for each 8,192 nets.
    pub fn project_with<R: Threads + Sync>(
        &self,
        rt: &R,
        alloc: Global,
        fine: &Hypergraph,
        map: &[u32],
        workers: u32,
    ) -> Result<Self, NoMemory>
        requires vertices { length map.now ≡ vertex_count fine.now }
        requires places { All (λ v. v < vertex_count self.now.hyper) map.now }
        requires suits { Suits fine.now self.now.k }
        requires fixed { IsFixedWithin fine.now self.now.k }
        requires workers { 1 ≤ workers }
        ensures value { IfOk result (λ p. p ≡ record {
          hyper = fine.now;
          k = self.now.k;
          limit = self.now.limit;
          blocks = after self.now.blocks map.now;
        }) }
        ensures cost { IfOk result (λ p. KeepsCost self.now.hyper self.now.blocks fine.now map.now p.blocks) }
    {
        let blocks = self.finer_blocks(alloc, fine, map)?;
        Partition::of_with(rt, alloc, fine, self.k, self.limit, blocks, workers)
    }
}
