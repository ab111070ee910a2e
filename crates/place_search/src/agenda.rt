//! Which vertices are looked at next, and which of them may move.

ghost use Rattle.std.specs.Prelude.{◌≡◌, ℕ, ◌<◌, ◌≤◌, IfOk, IfSome};

use crate::cells::{Cells, Labels};
use crate::draws::Draws;
use gain_heap::{GainHeap, Offer};
use hg_base::NoMemory;
use std::alloc::Global;
use std::marker::Model;

/// A queue of vertices, the locks on them, a list of them, and random numbers.
#[derive(Drop)]
pub(crate) struct Agenda {
    vertices: u32,
    queue: GainHeap,
    locked: Cells<bool>,
    fixed: Cells<bool>,
    order: Labels,
    draws: Draws,
}

impl Model for Agenda {
    ghost use Rattle.std.specs.Prelude.{◌≡◌, ℕ};
    ghost use Rattle.place_search.specs.Shapes.{Range};

    ghost Value = { ℕ };

    ghost view = { λ s. s.vertices };

    ghost invariant = { λ s.
        (s.queue.vertices ≡ s.vertices)
        × (s.locked ≡ s.vertices)
        × (s.fixed ≡ s.vertices)
        × (s.order ≡ record { count = s.vertices; bound = s.vertices }) };
}

impl Agenda {
    /// Nothing is queued, and nothing locked.
    pub(crate) fn start(
        alloc: Global,
        vertices: u32,
        fixed: Cells<bool>,
        draws: Draws,
    ) -> Result<Self, NoMemory>
        requires vertices { 0 < vertices }
        requires fixed { fixed ≡ vertices }
        ensures { IfOk result (λ agenda. agenda ≡ vertices) }
    {
        Ok(Agenda {
            vertices,
            queue: GainHeap::start(alloc, vertices),
            locked: Cells::of(vec![in alloc; false; vertices as usize]?),
            fixed,
            order: Labels::start(alloc, vertices, vertices, 0)?,
            draws,
        })
    }

    /// Empties the queue, and locks the fixed vertices alone.
    pub(crate) fn begin(&mut self)
        ensures { self.new ≡ self.old }
    {
        self.queue.clear();
        self.locked.copy_from(&self.fixed);
    }

    /// Whether a vertex is locked.
    pub(crate) fn is_locked(&self, v: u32) -> bool
        requires { v < self.now }
    {
        self.locked.get(v)
    }

    /// Locks a vertex.
    pub(crate) fn lock(&mut self, v: u32)
        requires { v < self.old }
        ensures { self.new ≡ self.old }
    {
        self.locked.set(v, true);
    }

    /// Puts an offer into the queue.
    pub(crate) fn push(&mut self, offer: Offer) -> Result<(), NoMemory>
        requires { offer.vertex < self.old }
        ensures { self.new ≡ self.old }
    {
        self.queue.push(offer)
    }

    /// Puts a vertex into the queue by its gain, with a drawn tie.
    pub(crate) fn offer(&mut self, vertex: u32, gain: i64) -> Result<(), NoMemory>
        requires { vertex < self.old }
        ensures { self.new ≡ self.old }
    {
        let tie = i64::from(self.draws.word());
        self.queue.push(Offer { gain, tie, vertex })
    }

    /// Takes the highest offer from the queue.
    pub(crate) fn pop(&mut self) -> Option<Offer>
        ensures same { self.new ≡ self.old }
        ensures vertex { IfSome result (λ offer. offer.vertex < self.old) }
    {
        self.queue.pop()
    }

    /// Writes a vertex down at a place.
    pub(crate) fn write_down(&mut self, place: u32, v: u32)
        requires place { place < self.old }
        requires vertex { v < self.old }
        ensures { self.new ≡ self.old }
    {
        self.order.set(place, v);
    }

    /// The vertex that is written down at a place.
    pub(crate) fn written(&self, place: u32) -> u32
        requires { place < self.now }
        ensures { result < self.now }
    {
        self.order.get(place)
    }

    /// Any number.
    pub(crate) fn word(&mut self) -> u32
        ensures { self.new ≡ self.old }
    {
        self.draws.word()
    }

    /// A drawn number below `bound`.
    pub(crate) fn below(&mut self, bound: u32) -> u32
        requires { 0 < bound }
        ensures same { self.new ≡ self.old }
        ensures below { result < bound }
    {
        self.draws.below(bound)
    }
}
