//! A candidate of two sides: how one side is grown out of the other one, repaired and improved.

ghost use Rattle.std.specs.Prelude.{◌≡◌, ℕ, ◌+◌, ◌<◌, ◌≤◌, IfOk, IfSome};
ghost use Rattle.hg_defs.specs.Hypergraph.{vertex_count, net_count};
ghost use Rattle.place_search.specs.Shapes.{Range, Shape, IsShapeOf};

use crate::agenda::Agenda;
use crate::cells::{Cells, Labels};
use crate::draws::Draws;
use crate::edges::Edges;
use crate::moves::{MOST_OFFERS, ROUNDS, patience};
use crate::sides::Sides;
use gain_heap::Offer;
use hg_base::NoMemory;
use incidence::Hypergraph;
use std::alloc::Global;
use std::marker::Model;

/// A candidate of two sides, and what is to be done with it.
#[derive(Drop)]
pub(crate) struct Halving {
    sides: Sides,
    agenda: Agenda,
    heaviest: u64,
}

impl Model for Halving {
    ghost use Rattle.std.specs.Prelude.{◌≡◌};
    ghost use Rattle.place_search.specs.Shapes.{Shape};

    ghost Value = { Shape };

    ghost view = { λ s. s.sides };

    ghost invariant = { λ s. s.agenda ≡ s.sides.vertices };
}

impl Halving {
    /// Makes a candidate of vertices of these weights, all on side 0.
    pub(crate) fn start(
        alloc: Global,
        h: &Hypergraph,
        edges: &Edges,
        weights: Cells<u64>,
        fixed: Cells<bool>,
        limits: Cells<u64>,
        draws: Draws,
    ) -> Result<Self, NoMemory>
        requires vertices { 0 < vertex_count h.now }
        requires edges { edges.now.bound ≡ vertex_count h.now }
        requires weights { weights ≡ vertex_count h.now }
        requires fixed { fixed ≡ vertex_count h.now }
        requires limits { limits ≡ 2 }
        ensures { IfOk result (λ search. search ≡ record {
          vertices = vertex_count h.now;
          nets = net_count h.now;
          blocks = 2;
        }) }
    {
        let vertices = h.vertices();
        let mut heaviest = 0;
        for v in 0..vertices {
            heaviest = weights.get(v).max(heaviest);
        }
        Ok(Halving {
            sides: Sides::start(alloc, h, edges, weights, limits)?,
            agenda: Agenda::start(alloc, vertices, fixed, draws)?,
            heaviest,
        })
    }

    /// Any number.
    pub(crate) fn word(&mut self) -> u32
        ensures { self.new ≡ self.old }
    {
        self.agenda.word()
    }

    /// The overload, and twice the cost.
    pub(crate) fn rank(&self) -> (u64, i64) {
        self.sides.rank()
    }

    /// The sides of the vertices.
    pub(crate) fn labels(&self) -> &Labels
        ensures { result.now ≡ record { count = self.now.vertices; bound = 2 } }
    {
        self.sides.labels()
    }

    /// How many vertices there are.
    fn vertices(&self) -> u32
        ensures { result ≡ self.now.vertices }
    {
        self.sides.vertices()
    }

    /// Empties the queue, and locks the fixed vertices alone.
    fn begin(&mut self)
        ensures { self.new ≡ self.old }
    {
        self.agenda.begin();
        self.sides.forget();
    }

    /// Puts a vertex into the queue.
    fn enqueue(&mut self, v: u32) -> Result<(), NoMemory>
        requires { v < self.old.vertices }
        ensures { self.new ≡ self.old }
    {
        self.agenda.offer(v, self.sides.gain(v))
    }

    /// Takes a vertex of which the gain has changed.
    fn take_touched(&mut self) -> Option<u32>
        ensures same { self.new ≡ self.old }
        ensures vertex { IfSome result (λ v. v < self.old.vertices) }
    {
        self.sides.take_touched()
    }

    /// Moves a vertex to the other side.
    fn shift(&mut self, h: &Hypergraph, edges: &Edges, v: u32)
        requires suits { IsShapeOf h.now self.old }
        requires edges { edges.now.bound ≡ self.old.vertices }
        requires vertex { v < self.old.vertices }
        ensures { self.new ≡ self.old }
    {
        self.sides.shift(h, edges, v);
    }

    /// Saves the gains.
    fn save(&mut self)
        ensures { self.new ≡ self.old }
    {
        self.sides.save();
    }

    /// Puts a vertex into the queue, where the other side has room for it.
    fn offer(&mut self, v: u32, slack: u64) -> Result<(), NoMemory>
        requires { v < self.old.vertices }
        ensures { self.new ≡ self.old }
    {
        if !self.agenda.is_locked(v) && self.sides.may_cross(v, slack) {
            self.enqueue(v)?;
        }
        Ok(())
    }

    /// Puts the vertices on the boundary into the queue.
    fn offer_boundary(&mut self, slack: u64) -> Result<(), NoMemory>
        ensures { self.new ≡ self.old }
    {
        for v in 0..self.vertices() {
            if self.sides.may_move(v) {
                self.offer(v, slack)?;
            }
        }
        Ok(())
    }

    /// Puts the vertices of which the gain has changed into the queue.
    fn offer_touched(&mut self, slack: u64) -> Result<(), NoMemory>
        ensures { self.new ≡ self.old }
    {
        for _ in 0..self.vertices() {
            let Some(v) = self.take_touched() else {
                break;
            };
            self.offer(v, slack)?;
        }
        Ok(())
    }

    /// Takes the vertex of the highest gain from the queue, which is offered again where its gain has fallen.
    fn next_move(&mut self, slack: u64) -> Result<Option<u32>, NoMemory>
        ensures same { self.new ≡ self.old }
        ensures vertex { IfOk result (λ next. IfSome next (λ v. v < self.old.vertices)) }
    {
        for _ in 0..MOST_OFFERS {
            let Some(offer) = self.agenda.pop() else {
                return Ok(None);
            };
            let v = offer.vertex;
            if self.agenda.is_locked(v) || !self.sides.may_cross(v, slack) {
                continue;
            }
            let gain = self.sides.gain(v);
            if gain >= offer.gain {
                return Ok(Some(v));
            }
            self.agenda.push(Offer { gain, ..offer })?;
        }
        Ok(None)
    }

    /// Makes a move, which is written down at this place.
    fn make(&mut self, h: &Hypergraph, edges: &Edges, place: u32, v: u32)
        requires suits { IsShapeOf h.now self.old }
        requires edges { edges.now.bound ≡ self.old.vertices }
        requires place { place < self.old.vertices }
        requires vertex { v < self.old.vertices }
        ensures { self.new ≡ self.old }
    {
        self.agenda.lock(v);
        self.agenda.write_down(place, v);
        self.sides.shift(h, edges, v);
    }

    /// Undoes the moves at the places from `kept` up to `made`, before which gains of this cost were saved.
    fn undo(&mut self, h: &Hypergraph, kept: u32, made: u32, cost: i64)
        requires suits { IsShapeOf h.now self.old }
        requires made { made ≤ self.old.vertices }
        ensures { self.new ≡ self.old }
    {
        for place in kept..made {
            self.sides.take_back(h, self.agenda.written(place));
        }
        self.sides.restore(cost);
    }

    /// Moves vertices by falling gains, each once, with this slack on the limits, and keeps the
    /// prefix of least overload and cost. Answers whether it is better than before.
    fn pass(&mut self, h: &Hypergraph, edges: &Edges, slack: u64) -> Result<bool, NoMemory>
        requires suits { IsShapeOf h.now self.old }
        requires edges { edges.now.bound ≡ self.old.vertices }
        ensures { self.new ≡ self.old }
    {
        self.begin();
        self.offer_boundary(slack)?;
        let mut best = self.rank();
        self.save();
        let mut kept = 0;
        let mut made = 0;
        for place in 0..self.vertices() {
            let Some(v) = self.next_move(slack)? else {
                break;
            };
            self.make(h, edges, place, v);
            made = place + 1;
            let rank = self.rank();
            if rank < best {
                best = rank;
                kept = made;
                self.save();
            } else if made - kept >= patience(best.0) {
                break;
            }
            self.offer_touched(slack)?;
        }
        self.undo(h, kept, made, best.1);
        Ok(kept > 0)
    }

    /// Makes passes until they help no longer.
    fn improve(&mut self, h: &Hypergraph, edges: &Edges) -> Result<(), NoMemory>
        requires suits { IsShapeOf h.now self.old }
        requires edges { edges.now.bound ≡ self.old.vertices }
        ensures { self.new ≡ self.old }
    {
        for _ in 0..ROUNDS {
            let loose = self.pass(h, edges, self.heaviest)?;
            let strict = self.pass(h, edges, 0)?;
            if !loose && !strict {
                break;
            }
        }
        Ok(())
    }

    /// Puts what a vertex does for its overfull side into the queue.
    fn offer_relief(&mut self, v: u32) -> Result<(), NoMemory>
        requires { v < self.old.vertices }
        ensures { self.new ≡ self.old }
    {
        if !self.agenda.is_locked(v) {
            if let Some(gain) = self.sides.relief(v) {
                self.agenda.push(Offer {
                    gain,
                    tie: i64::from(v),
                    vertex: v,
                })?;
            }
        }
        Ok(())
    }

    /// Takes the best relief from the queue, which is offered again where it has fallen.
    fn next_relief(&mut self) -> Result<Option<u32>, NoMemory>
        ensures same { self.new ≡ self.old }
        ensures vertex { IfOk result (λ next. IfSome next (λ v. v < self.old.vertices)) }
    {
        for _ in 0..MOST_OFFERS {
            let Some(offer) = self.agenda.pop() else {
                return Ok(None);
            };
            let v = offer.vertex;
            let Some(gain) = self.sides.relief(v) else {
                continue;
            };
            if gain >= offer.gain {
                return Ok(Some(v));
            }
            self.agenda.push(Offer { gain, ..offer })?;
        }
        Ok(None)
    }

    /// Moves vertices out of an overfull side, while there is room for them on the other one.
    fn repair(&mut self, h: &Hypergraph, edges: &Edges) -> Result<(), NoMemory>
        requires suits { IsShapeOf h.now self.old }
        requires edges { edges.now.bound ≡ self.old.vertices }
        ensures { self.new ≡ self.old }
    {
        if self.rank().0 == 0 {
            return Ok(());
        }
        self.begin();
        for v in 0..self.vertices() {
            self.offer_relief(v)?;
        }
        for _ in 0..self.vertices() {
            let Some(v) = self.next_relief()? else {
                break;
            };
            self.shift(h, edges, v);
        }
        Ok(())
    }

    /// A free vertex of side 1 that isn't locked, from a drawn one on.
    fn drawn(&mut self) -> Option<u32>
        requires { 0 < self.old.vertices }
        ensures same { self.new ≡ self.old }
        ensures vertex { IfSome result (λ v. v < self.old.vertices) }
    {
        let vertices = self.vertices();
        let start = self.agenda.below(vertices);
        self.first(start, vertices).or(self.first(0, start))
    }

    /// The first vertex from `low` up to `high` that is on side 1 and isn't locked.
    fn first(&self, low: u32, high: u32) -> Option<u32>
        requires { high ≤ self.now.vertices }
        ensures { IfSome result (λ v. v < self.now.vertices) }
    {
        for v in low..high {
            if !self.agenda.is_locked(v) && self.sides.side(v) == 1 {
                return Some(v);
            }
        }
        None
    }

    /// Whether side 0 comes nearer to a load by a vertex, and stays within the most.
    fn comes_nearer(&self, v: u32, target: u64, most: u64) -> bool
        requires { v < self.now.vertices }
    {
        let before = self.sides.load(0);
        let after = before.saturating_add(self.sides.weight(v));
        after <= most && after.saturating_sub(target) <= target.saturating_sub(before)
    }

    /// Takes the vertex of side 1 that gains most from the queue, and locks it. Those that don't bring side 0 nearer to
    /// its load are locked, too.
    fn next_grown(&mut self, target: u64, most: u64) -> Result<Option<u32>, NoMemory>
        ensures same { self.new ≡ self.old }
        ensures vertex { IfOk result (λ next. IfSome next (λ v. v < self.old.vertices)) }
    {
        for _ in 0..MOST_OFFERS {
            let Some(offer) = self.agenda.pop() else {
                return Ok(None);
            };
            let v = offer.vertex;
            if self.agenda.is_locked(v) || self.sides.side(v) == 0 {
                continue;
            }
            let gain = self.sides.gain(v);
            if gain < offer.gain {
                self.agenda.push(Offer { gain, ..offer })?;
                continue;
            }
            self.agenda.lock(v);
            if self.comes_nearer(v, target, most) {
                return Ok(Some(v));
            }
        }
        Ok(None)
    }

    /// The next vertex from the queue or, where it is empty, a drawn one.
    fn grown_or_drawn(&mut self, target: u64, most: u64) -> Result<Option<u32>, NoMemory>
        requires vertices { 0 < self.old.vertices }
        ensures same { self.new ≡ self.old }
        ensures vertex { IfOk result (λ next. IfSome next (λ v. v < self.old.vertices)) }
    {
        if let Some(v) = self.next_grown(target, most)? {
            return Ok(Some(v));
        }
        let Some(v) = self.drawn() else {
            return Ok(None);
        };
        self.enqueue(v)?;
        self.next_grown(target, most)
    }

    /// Puts the vertices of side 1 of which the gain has changed into the queue.
    fn offer_grown(&mut self) -> Result<(), NoMemory>
        ensures { self.new ≡ self.old }
    {
        for _ in 0..self.vertices() {
            let Some(v) = self.take_touched() else {
                break;
            };
            if !self.agenda.is_locked(v) && self.sides.side(v) == 1 {
                self.enqueue(v)?;
            }
        }
        Ok(())
    }

    /// Grows side 0 out of side 1 to a load, from a drawn vertex on. No locked vertex moves.
    fn grow(
        &mut self,
        h: &Hypergraph,
        edges: &Edges,
        target: u64,
        most: u64,
    ) -> Result<(), NoMemory>
        requires suits { IsShapeOf h.now self.old }
        requires edges { edges.now.bound ≡ self.old.vertices }
        requires vertices { 0 < self.old.vertices }
        ensures { self.new ≡ self.old }
    {
        self.begin();
        for _ in 0..self.vertices() {
            if self.sides.load(0) >= target {
                break;
            }
            let Some(v) = self.grown_or_drawn(target, most)? else {
                break;
            };
            self.shift(h, edges, v);
            self.offer_grown()?;
        }
        Ok(())
    }

    /// Grows side 0 out of side 1 to a load, from these sides on, and improves that.
    pub(crate) fn attempt(
        &mut self,
        h: &Hypergraph,
        edges: &Edges,
        start: &Labels,
        target: u64,
        most: u64,
    ) -> Result<(), NoMemory>
        requires suits { IsShapeOf h.now self.old }
        requires edges { edges.now.bound ≡ self.old.vertices }
        requires vertices { 0 < self.old.vertices }
        requires start { start.now ≡ record { count = self.old.vertices; bound = 2 } }
        ensures { self.new ≡ self.old }
    {
        self.sides.reset(h, edges, start);
        self.grow(h, edges, target, most)?;
        self.repair(h, edges)?;
        self.improve(h, edges)
    }
}
