//! Placement into the least loaded block, and greedy placement.

ghost use Rattle.std.specs.Prelude.{◌≡◌, ℕ, ◌+◌, ◌<◌, ◌≤◌, List, length, map, filter, not, All, IfOk, OnOk};
ghost use Rattle.std.specs.Prelude.{IfErr, nat_le, if◌then◌else◌, slice_index, slice_set};
ghost use Rattle.hg_base.specs.Placing.{EndsPlacing, rank_of};
ghost use Rattle.hg_defs.specs.Hypergraph.{vertex_count, vertices, weight_of, is_free, IsFree};
ghost use Rattle.hg_defs.specs.Hypergraph.{IsFixedWithin, IsHypergraph};
ghost use Rattle.hg_defs.specs.LeastLoaded.{least, unplaced, placing_order, first_overfilling, overfills};
ghost use Rattle.hg_defs.specs.LeastLoaded as placements;
ghost use Rattle.hg_defs.specs.Partition.{IsPartition, Obeys, Fits};
ghost use Rattle.hg_defs.specs.PlacementLaws.{ListsFree};
ghost use Rattle.hg_base.specs.GreedyEnd.{HasCause};

use crate::hyper::FlatHyper;
use crate::list::Blocks;
use crate::loads::Loads;
use hg_defs::{FREE, NoMemory};
use std::alloc::{AllocError, Global};
use std::cmp::Reverse;
use std::marker::Model;

/// Why a placement into the least loaded block ended without a partition.
#[derive(Clone, Copy, Debug, PartialEq, Eq)]
pub enum GreedyEnd {
    /// The placing of this vertex takes its block past the limit, and that of none before it does.
    Overfills {
        /// The vertex.
        vertex: u32,
    },
    /// There was no memory left.
    NoMemory,
}

impl From<AllocError> for GreedyEnd {
    ghost use Rattle.hg_base.specs.declared.placement.GreedyEnd.TheVariants.{NoMemory as no_memory};

    ghost from_gives = { λ _ end. end ≡ no_memory };

    fn from(_error: AllocError) -> Self {
        GreedyEnd::NoMemory
    }
}

impl From<NoMemory> for GreedyEnd {
    ghost use Rattle.hg_base.specs.declared.placement.GreedyEnd.TheVariants.{NoMemory as no_memory};

    ghost from_gives = { λ _ end. end ≡ no_memory };

    fn from(_error: NoMemory) -> Self {
        GreedyEnd::NoMemory
    }
}

/// A vertex beside its weight. Sorted, the heavier ones go first, and at equal weights the lower
/// numbers.
type Rank = (Reverse<u64>, u32);

/// The loads and the blocks while vertices are placed.
#[derive(Drop)]
struct Placing {
    loads: Loads,
    blocks: Vec<u32>,
}

impl Model for Placing {
    ghost use Rattle.std.specs.Prelude.{length, ◌≤◌};
    ghost use Rattle.hg_defs.specs.LeastLoaded.{Placing as State};

    ghost Value = { State };

    ghost view = { λ s. record { loads = s.loads; blocks = s.blocks.items } };
}

impl Placing {
    /// Nothing is placed yet.
    fn start(alloc: Global, h: &FlatHyper, k: u32) -> Result<Self, NoMemory>
        ensures state { IfOk result (λ placing. placing ≡ unplaced h.now k) }
        ensures sound { OnOk result (IsHypergraph h.now) }
    {
        Ok(Placing {
            loads: Loads::start(alloc, k)?,
            blocks: vec![in alloc; 0u32; h.vertices() as usize]?,
        })
    }

    /// Places a vertex of this weight, unless that takes the block past the limit.
    fn place(&mut self, v: u32, weight: u64, block: u32, limit: u64) -> bool
        requires vertex { v < length self.old.blocks }
        requires block { block < length self.old.loads }
        ensures fits { result ≡ nat_le (slice_index self.old.loads block + weight) limit }
        ensures placed { self.new ≡ (if result then record {
          loads = slice_set self.old.loads block (slice_index self.old.loads block + weight);
          blocks = slice_set self.old.blocks v block;
        } else self.old) }
    {
        match self.loads.load(block).checked_add(weight) {
            Some(load) if load <= limit => {
                self.loads.set(block, load);
                self.blocks[v as usize] = block;
                true
            }
            _ => false,
        }
    }

    /// The blocks of the vertices.
    fn into_blocks(self) -> Vec<u32>
        ensures { result.items ≡ self.blocks }
    {
        let Placing { loads: _, blocks } = self;
        blocks
    }

    /// Places the vertices that are fixed, in rising number. Answers the first that overfills.
    fn place_fixed(&mut self, h: &FlatHyper, limit: u64) -> Option<u32>
        requires blocks { length self.old.blocks ≡ vertex_count h.now }
        requires fixed { IsFixedWithin h.now (length self.old.loads) }
        ensures { EndsPlacing h.now limit self.old (filter (λ v. not (is_free h.now v)) (vertices h.now)) result
            self.new }
    {
        for v in 0..h.vertices() {
            let fix = h.fix(v);
            if fix != FREE && !self.place(v, h.vertex_weight(v), fix, limit) {
                return Some(v);
            }
        }
        None
    }

    /// Places free vertices in this order, each in the least loaded block. Answers the first that
    /// overfills.
    fn place_free(&mut self, h: &FlatHyper, ranks: &[Rank], limit: u64) -> Option<u32>
        requires blocks { length self.old.blocks ≡ vertex_count h.now }
        requires some { 0 < length self.old.loads }
        requires few { length self.old.loads ≤ 256 }
        requires vertices { All (λ rank. rank.1 < vertex_count h.now) ranks.now }
        requires free { All (λ rank. IsFree h.now rank.1) ranks.now }
        requires weights { All (λ rank. rank.0.0 ≡ weight_of h.now rank.1) ranks.now }
        ensures { EndsPlacing h.now limit self.old (map (λ rank. rank.1) ranks.now) result self.new }
    {
        for rank in ranks {
            let block = self.loads.least();
            if !self.place(rank.1, rank.0.0, block, limit) {
                return Some(rank.1);
            }
        }
        None
    }
}

/// Places the vertices, each at once for good: first those that are fixed, by rising number, each
/// in the block of its fix, and then the free ones in the given order, each in the least loaded
/// block so far, the first at a tie.
///
/// There are 1 to 256 blocks, each fix is `FREE` or one of them, and the order has each free
/// vertex once.
pub fn least_loaded(
    alloc: Global,
    h: &FlatHyper,
    k: u32,
    limit: u64,
    order: &[u32],
) -> Result<Blocks, GreedyEnd>
    requires some { 0 < k }
    requires few { k ≤ 256 }
    requires fixed { IsFixedWithin h.now k }
    requires listed { ListsFree h.now order.now }
    ensures ok { IfOk result (λ blocks. blocks ≡ placements.least_loaded h.now k order.now) }
    ensures within { OnOk result (first_overfilling h.now limit (unplaced h.now k) (placing_order h.now order.now) ≡
        None) }
    ensures cause { IfErr result (HasCause (first_overfilling h.now limit (unplaced h.now k)
        (placing_order h.now order.now))) }
    ensures partition { IfOk result (IsPartition h.now k) }
    ensures fixes { IfOk result (Obeys h.now) }
    ensures fits { IfOk result (Fits h.now k limit) }
{
    let ranks = ranks_of(alloc, h, order)?;
    place_ranks(alloc, h, k, limit, &ranks)
}

/// Places the vertices as [`least_loaded`] does, the free ones by falling weight, those of equal
/// weight by rising number. There are 1 to 256 blocks, and each fix is `FREE` or one of them.
pub fn greedy(alloc: Global, h: &FlatHyper, k: u32, limit: u64) -> Result<Blocks, GreedyEnd>
    requires some { 0 < k }
    requires few { k ≤ 256 }
    requires fixed { IsFixedWithin h.now k }
    ensures ok { IfOk result (λ blocks. blocks ≡ placements.greedy h.now k) }
    ensures within { OnOk result (overfills h.now k limit ≡ None) }
    ensures cause { IfErr result (HasCause (overfills h.now k limit)) }
    ensures partition { IfOk result (IsPartition h.now k) }
    ensures fixes { IfOk result (Obeys h.now) }
    ensures fits { IfOk result (Fits h.now k limit) }
{
    let ranks = heaviest_first(alloc, h)?;
    place_ranks(alloc, h, k, limit, &ranks)
}

/// Places the fixed vertices, and then the free ones in the order of their ranks.
fn place_ranks(
    alloc: Global,
    h: &FlatHyper,
    k: u32,
    limit: u64,
    ranks: &[Rank],
) -> Result<Blocks, GreedyEnd>
    requires some { 0 < k }
    requires few { k ≤ 256 }
    requires fixed { IsFixedWithin h.now k }
    requires listed { ListsFree h.now (map (λ rank. rank.1) ranks.now) }
    requires weights { All (λ rank. rank.0.0 ≡ weight_of h.now rank.1) ranks.now }
    ensures ok { IfOk result (λ blocks. blocks ≡ placements.least_loaded h.now k (map (λ rank. rank.1) ranks.now)) }
    ensures within { OnOk result (first_overfilling h.now limit (unplaced h.now k)
        (placing_order h.now (map (λ rank. rank.1) ranks.now)) ≡ None) }
    ensures cause { IfErr result (HasCause (first_overfilling h.now limit (unplaced h.now k)
        (placing_order h.now (map (λ rank. rank.1) ranks.now)))) }
    ensures partition { IfOk result (IsPartition h.now k) }
    ensures fixes { IfOk result (Obeys h.now) }
    ensures fits { IfOk result (Fits h.now k limit) }
{
    let mut placing = Placing::start(alloc, h, k)?;
    if let Some(vertex) = placing.place_fixed(h, limit) {
        return Err(GreedyEnd::Overfills { vertex });
    }
    if let Some(vertex) = placing.place_free(h, ranks, limit) {
        return Err(GreedyEnd::Overfills { vertex });
    }
    Ok(Blocks::from_vec(placing.into_blocks()))
}

/// The ranks of vertices, in the same order.
fn ranks_of(alloc: Global, h: &FlatHyper, order: &[u32]) -> Result<Vec<Rank>, AllocError>
    requires { All (λ v. v < vertex_count h.now) order.now }
    ensures { IfOk result (λ ranks. ranks.items ≡ map (rank_of h.now) order.now) }
{
    order
        .iter()
        .map(|v| (Reverse(h.vertex_weight(*v)), *v))
        .collect(alloc)
}

/// The ranks of the free vertices, in order.
fn heaviest_first(alloc: Global, h: &FlatHyper) -> Result<Vec<Rank>, AllocError>
    ensures order { IfOk result (λ ranks. map (λ rank. rank.1) ranks.items ≡ placements.heaviest_first h.now) }
    ensures weights { IfOk result (λ ranks. All (λ rank. rank.0.0 ≡ weight_of h.now rank.1) ranks.items) }
{
    let mut ranks = Vec::new(alloc);
    for v in 0..h.vertices() {
        if h.fix(v) == FREE {
            ranks.push((Reverse(h.vertex_weight(v)), v))?;
        }
    }
    ranks.sort_unstable();
    Ok(ranks)
}
