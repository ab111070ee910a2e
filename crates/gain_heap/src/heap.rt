//! A priority queue of vertices by their gains.

ghost use Rattle.std.specs.Prelude.{◌≡◌, ◌<◌, [], ◌∷◌, IfNone, IfSome, OnErr, OnOk};
ghost use Rattle.std.specs.List.Sorted.{IsPermutation};
ghost use Rattle.gain_heap.specs.Offers.{IsHighest};

use crate::offer::Offer;
use hg_defs::NoMemory;
use std::alloc::Global;
use std::collections::BinaryHeap;
use std::marker::Model;

/// Offers of the vertices below a bound, the highest first. Nothing is looked up in it: whoever takes an offer that no
/// longer holds drops it or offers the vertex anew. It is seen as that bound, and its offers in no order of meaning.
#[derive(Drop)]
pub struct GainHeap {
    heap: BinaryHeap<Offer>,
    vertices: u32,
}

impl Model for GainHeap {
    ghost use Rattle.std.specs.Prelude.{◌<◌, All};
    ghost use Rattle.std.specs.BinaryHeap.{IsHeap, heap_items};
    ghost use Rattle.gain_heap.specs.Offers.{Held, rank};

    ghost Value = { Held };

    ghost view = { λ q. record { vertices = q.vertices; offers = heap_items q.heap } };

    ghost invariant = { λ q. All (λ offer. offer.vertex < q.vertices) (heap_items q.heap)
        × IsHeap rank (heap_items q.heap) };
}

impl GainHeap {
    /// An empty heap.
    pub fn start(alloc: Global, vertices: u32) -> Self
        ensures { result ≡ record { vertices = vertices; offers = [] } }
    {
        GainHeap {
            heap: BinaryHeap::new(alloc),
            vertices,
        }
    }

    /// Adds an offer.
    pub fn push(&mut self, offer: Offer) -> Result<(), NoMemory>
        requires { offer.vertex < self.old.vertices }
        ensures bound { self.new.vertices ≡ self.old.vertices }
        ensures added { OnOk result (IsPermutation (offer ∷ self.old.offers) self.new.offers) }
        ensures kept { OnErr result (self.new.offers ≡ self.old.offers) }
    {
        self.heap.push(offer)?;
        Ok(())
    }

    /// Takes the highest offer.
    pub fn pop(&mut self) -> Option<Offer>
        ensures bound { self.new.vertices ≡ self.old.vertices }
        ensures vertex { IfSome result (λ offer. offer.vertex < self.old.vertices) }
        ensures highest { IfSome result (λ offer. IsHighest offer self.old.offers) }
        ensures taken { IfSome result (λ offer. IsPermutation self.old.offers (offer ∷ self.new.offers)) }
        ensures empty { IfNone result (self.old.offers ≡ []) }
        ensures kept { IfNone result (self.new.offers ≡ self.old.offers) }
    {
        self.heap.pop()
    }

    /// Drops all offers.
    pub fn clear(&mut self)
        ensures { self.new ≡ record { vertices = self.old.vertices; offers = [] } }
    {
        self.heap.clear();
    }
}
