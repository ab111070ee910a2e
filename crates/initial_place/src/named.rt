//! The nine named placements, and the best of them.

ghost use Rattle.std.specs.Prelude.{◌≡◌, ℕ, ◌<◌, ◌≤◌, ◌^◌, ◌-◌, List, [], ◌∷◌, ◌++◌, IfOk, OnOk, Some, None};
ghost use Rattle.hg_defs.specs.Hypergraph.{IsFixedWithin};
ghost use Rattle.hg_defs.specs.Partition.{IsPartition, Obeys};
ghost use Rattle.hg_defs.specs.Placement as placements;
ghost use Rattle.initial_place.specs.Leading.{Leads, IsTried};

use crate::end::PlaceEnd;
use crate::orders::drawn_order;
use hg_base::{Blocks, GreedyEnd, NoMemory, cost_of, greedy, least_loaded};
use incidence::Hypergraph;
use std::alloc::Global;
use std::marker::Model;
use std::thread::Threads;

/// How many of the named placements have an order that is drawn.
const DRAWN: u64 = 8;

/// The cheapest placement so far, and its cost.
#[derive(Drop)]
struct Leader {
    blocks: Option<Blocks>,
    cost: u64,
}

impl Model for Leader {
    ghost use Rattle.initial_place.specs.Leading.{Leader as State};

    ghost Value = { State };

    ghost view = { λ s. record { blocks = s.blocks; cost = s.cost } };
}

impl Leader {
    /// None was tried yet.
    fn start() -> Self
        ensures { result ≡ record { blocks = None; cost = 2 ^ 64 - 1 } }
    {
        Leader {
            blocks: None,
            cost: u64::MAX,
        }
    }

    /// Takes the next placement where it is within the limit and cheaper.
    fn consider(
        &mut self,
        h: &Hypergraph,
        k: u32,
        placed: Result<Blocks, GreedyEnd>,
    ) -> Result<(), NoMemory>
        requires few { k ≤ 256 }
        requires partition { IfOk placed (IsPartition h.now k) }
        ensures { (l : ℕ) (ps : List (List ℕ)) (q : List ℕ) → Leads h.now k l ps self.old →
            IsTried h.now k l q placed → OnOk result (Leads h.now k l (ps ++ q ∷ []) self.new) }
    {
        match placed {
            Ok(blocks) => {
                let cost = cost_of(h.flat(), blocks.slice(), k);
                if cost < self.cost {
                    self.cost = cost;
                    let _dearer = self.blocks.replace(blocks);
                }
                Ok(())
            }
            Err(GreedyEnd::Overfills { vertex: _ }) => Ok(()),
            Err(GreedyEnd::NoMemory) => Err(NoMemory),
        }
    }

    /// The placement that leads.
    fn into_blocks(self) -> Option<Blocks>
        ensures { result ≡ self.blocks }
    {
        let Leader { blocks, cost: _ } = self;
        blocks
    }
}

/// The cheapest of the nine named placements that fit, the first at a tie.
///
/// Placement 0 is greedy. Placement 1 + s, for s from 0 to 7, takes the free vertices by rising
/// words of the generator of the seed and the stream s. There are 2 to 256 blocks, and each fix is
/// `FREE` or one of them. Of 1 to 64 workers one alone starts no thread; the answer doesn't depend on
/// how many there are.
pub fn named_best<R: Threads + Sync>(
    rt: &R,
    alloc: Global,
    h: &Hypergraph,
    k: u32,
    limit: u64,
    seed: u64,
    workers: u32,
) -> Result<Blocks, PlaceEnd>
    requires some { 2 ≤ k }
    requires few { k ≤ 256 }
    requires fixed { IsFixedWithin h.now k }
    requires workers { (1 ≤ workers) × (workers ≤ 64) }
    ensures best { IfOk result (λ blocks. placements.named_best h.now k limit seed ≡ Some blocks) }
    ensures none { result ≡ Err PlaceEnd.NoneFits → placements.named_best h.now k limit seed ≡ None }
    ensures partition { IfOk result (IsPartition h.now k) }
    ensures fixes { IfOk result (Obeys h.now) }
{
    let _vertices = h.vertices();
    let mut leader = Leader::start();
    leader.consider(h, k, greedy(alloc, h.flat(), k, limit))?;
    'streams: for stream in 0..DRAWN {
        let order = drawn_order(rt, alloc, h, seed, stream, workers)?;
        leader.consider(
            h,
            k,
            least_loaded(alloc, h.flat(), k, limit, order.as_slice()),
        )?;
    }
    leader.into_blocks().ok_or(PlaceEnd::NoneFits)
}
