//! The moves that make a candidate better: passes with undoing, and the repair of overfull blocks.

ghost use Rattle.std.specs.Prelude.{◌≡◌, ◌≢◌, ℕ, ◌+◌, ◌<◌, ◌≤◌, IfOk, OnOk, IfSome};
ghost use Rattle.hg_defs.specs.Hypergraph.{vertex_count, net_count};
ghost use Rattle.place_search.specs.Shapes.{Range, Shape, IsShapeOf, IsMoveWithin};

use crate::agenda::Agenda;
use crate::cells::{Cells, Labels};
use crate::draws::Draws;
use crate::tables::Tables;
use gain_heap::Offer;
use hg_base::NoMemory;
use incidence::Hypergraph;
use std::alloc::Global;
use std::marker::Model;

/// How many moves are made without a better partition until a pass ends.
const PATIENCE: u32 = 20;

/// The same while no partition of the pass is within the limits.
const OVERFULL_PATIENCE: u32 = 200;

/// How many times two passes are made at most.
pub(crate) const ROUNDS: u32 = 10;

/// How many offers are looked at for a move at most.
pub(crate) const MOST_OFFERS: u32 = 1 << 24;

/// A candidate: its tables, and the room to make moves and to undo them.
#[derive(Drop)]
pub(crate) struct Search {
    pub(crate) tables: Tables,
    pub(crate) agenda: Agenda,
    origins: Labels,
    heaviest: u64,
}

/// How many moves are made without a better partition until a pass ends, of which the best so far passes the
/// limits by this much: more while it does.
pub(crate) fn patience(overload: u64) -> u32 {
    if overload > 0 {
        OVERFULL_PATIENCE
    } else {
        PATIENCE
    }
}

impl Model for Search {
    ghost use Rattle.std.specs.Prelude.{◌≡◌, ◌<◌};
    ghost use Rattle.place_search.specs.Shapes.{Range, Shape};

    ghost Value = { Shape };

    ghost view = { λ s. s.tables };

    ghost invariant = { λ s.
        (s.agenda ≡ s.tables.vertices)
        × (s.origins ≡ record { count = s.tables.vertices; bound = s.tables.blocks }) };
}

impl Search {
    /// Makes a candidate of vertices of these weights, all in block 0.
    pub(crate) fn start(
        alloc: Global,
        h: &Hypergraph,
        weights: Cells<u64>,
        fixed: Cells<bool>,
        blocks: u32,
        limits: Cells<u64>,
        draws: Draws,
    ) -> Result<Self, NoMemory>
        requires vertices { 0 < vertex_count h.now }
        requires some { 0 < blocks }
        requires weights { weights ≡ vertex_count h.now }
        requires fixed { fixed ≡ vertex_count h.now }
        requires limits { limits ≡ blocks }
        ensures { IfOk result (λ search. search ≡ record {
          vertices = vertex_count h.now;
          nets = net_count h.now;
          blocks = blocks;
        }) }
    {
        let vertices = h.vertices();
        let tables = Tables::start(alloc, h, blocks, weights, limits)?;
        let mut search = Search {
            tables,
            agenda: Agenda::start(alloc, vertices, fixed, draws)?,
            origins: Labels::start(alloc, vertices, blocks, 0)?,
            heaviest: 0,
        };
        search.weigh();
        Ok(search)
    }

    /// Finds the heaviest vertex.
    fn weigh(&mut self)
        ensures { self.new ≡ self.old }
    {
        let mut heaviest = 0;
        for v in 0..self.tables.vertices() {
            heaviest = self.tables.weight(v).max(heaviest);
        }
        self.heaviest = heaviest;
    }

    /// The weight of the heaviest vertex.
    pub(crate) fn heaviest(&self) -> u64 {
        self.heaviest
    }

    /// How many vertices there are.
    pub(crate) fn vertices(&self) -> u32
        ensures { result ≡ self.now.vertices }
    {
        self.tables.vertices()
    }

    /// How many blocks there are.
    pub(crate) fn blocks(&self) -> u32
        ensures { result ≡ self.now.blocks }
    {
        self.tables.blocks()
    }

    /// Empties the queue, and locks the fixed vertices alone.
    pub(crate) fn begin(&mut self)
        ensures { self.new ≡ self.old }
    {
        self.agenda.begin();
        self.tables.forget();
    }

    /// Whether a vertex is locked.
    pub(crate) fn is_locked(&self, v: u32) -> bool
        requires { v < self.now.vertices }
    {
        self.agenda.is_locked(v)
    }

    /// Locks a vertex.
    pub(crate) fn lock(&mut self, v: u32)
        requires { v < self.old.vertices }
        ensures { self.new ≡ self.old }
    {
        self.agenda.lock(v);
    }

    /// Takes the highest offer from the queue.
    pub(crate) fn pop(&mut self) -> Option<Offer>
        ensures same { self.new ≡ self.old }
        ensures vertex { IfSome result (λ offer. offer.vertex < self.old.vertices) }
    {
        self.agenda.pop()
    }

    /// Puts the best move of a vertex into the queue.
    fn offer(&mut self, v: u32, slack: u64) -> Result<(), NoMemory>
        requires { v < self.old.vertices }
        ensures { self.new ≡ self.old }
    {
        if let Some((gain, _to)) = self.tables.best_move(v, slack) {
            self.agenda.offer(v, gain)?;
        }
        Ok(())
    }

    /// Puts the moves of the vertices on the boundary into the queue.
    fn offer_boundary(&mut self, slack: u64) -> Result<(), NoMemory>
        ensures { self.new ≡ self.old }
    {
        for v in 0..self.vertices() {
            if !self.is_locked(v) && self.tables.may_move(v) {
                self.offer(v, slack)?;
            }
        }
        Ok(())
    }

    /// Puts the moves of the vertices of which a gain has risen into the queue.
    fn offer_touched(&mut self, slack: u64) -> Result<(), NoMemory>
        ensures { self.new ≡ self.old }
    {
        for _ in 0..self.vertices() {
            let Some(v) = self.take_touched() else {
                break;
            };
            if !self.is_locked(v) {
                self.offer(v, slack)?;
            }
        }
        Ok(())
    }

    /// Takes a vertex of which a gain has risen.
    pub(crate) fn take_touched(&mut self) -> Option<u32>
        ensures same { self.new ≡ self.old }
        ensures vertex { IfSome result (λ v. v < self.old.vertices) }
    {
        self.tables.take_touched()
    }

    /// Takes the best move from the queue, which is offered again where its gain has fallen.
    fn next_move(&mut self, slack: u64) -> Result<Option<(u32, u32)>, NoMemory>
        ensures same { self.new ≡ self.old }
        ensures within { IfOk result (λ next. IfSome next (IsMoveWithin self.old)) }
    {
        for _ in 0..MOST_OFFERS {
            let Some(offer) = self.agenda.pop() else {
                return Ok(None);
            };
            let v = offer.vertex;
            if self.agenda.is_locked(v) {
                continue;
            }
            let Some((now, to)) = self.tables.best_move(v, slack) else {
                continue;
            };
            if now >= offer.gain {
                return Ok(Some((v, to)));
            }
            self.agenda.push(Offer { gain: now, ..offer })?;
        }
        Ok(None)
    }

    /// Makes a move, which is written down at this place.
    fn make(&mut self, h: &Hypergraph, place: u32, v: u32, to: u32)
        requires suits { IsShapeOf h.now self.old }
        requires place { place < self.old.vertices }
        requires vertex { v < self.old.vertices }
        requires block { to < self.old.blocks }
        ensures { self.new ≡ self.old }
    {
        self.agenda.lock(v);
        self.agenda.write_down(place, v);
        self.origins.set(v, self.tables.block(v));
        self.tables.shift(h, v, to);
    }

    /// Undoes the moves at the places from `kept` up to `made`, the last one first.
    fn undo(&mut self, h: &Hypergraph, kept: u32, made: u32)
        requires suits { IsShapeOf h.now self.old }
        requires made { made ≤ self.old.vertices }
        ensures { self.new ≡ self.old }
    {
        for place in (kept..made).rev() {
            self.undo_one(h, place);
        }
    }

    /// Undoes the move at a place.
    fn undo_one(&mut self, h: &Hypergraph, place: u32)
        requires suits { IsShapeOf h.now self.old }
        requires place { place < self.old.vertices }
        ensures { self.new ≡ self.old }
    {
        let v = self.agenda.written(place);
        self.tables.shift(h, v, self.origins.get(v));
    }

    /// Moves vertices by falling gains, each once, with this slack on the limits, and keeps the
    /// prefix of least overload and cost. Answers whether it is better than before.
    fn pass(&mut self, h: &Hypergraph, slack: u64) -> Result<bool, NoMemory>
        requires suits { IsShapeOf h.now self.old }
        ensures { self.new ≡ self.old }
    {
        self.begin();
        self.offer_boundary(slack)?;
        let mut best = self.rank();
        let mut kept = 0;
        let mut made = 0;
        for place in 0..self.vertices() {
            let Some((v, to)) = self.next_move(slack)? else {
                break;
            };
            self.make(h, place, v, to);
            made = place + 1;
            let rank = self.rank();
            if rank < best {
                best = rank;
                kept = made;
            } else if made - kept >= patience(best.0) {
                break;
            }
            self.offer_touched(slack)?;
        }
        self.undo(h, kept, made);
        Ok(kept > 0)
    }

    /// The overload and the cost.
    pub(crate) fn rank(&self) -> (u64, i64) {
        (self.tables.overload(), self.tables.cost())
    }

    /// Makes passes until they help no longer.
    pub(crate) fn improve(&mut self, h: &Hypergraph) -> Result<(), NoMemory>
        requires suits { IsShapeOf h.now self.old }
        ensures { self.new ≡ self.old }
    {
        for _ in 0..ROUNDS {
            let loose = self.pass(h, self.heaviest())?;
            let strict = self.pass(h, 0)?;
            if !loose && !strict {
                break;
            }
        }
        Ok(())
    }

    /// Puts what a vertex does for its overfull block into the queue.
    fn offer_relief(&mut self, v: u32) -> Result<(), NoMemory>
        requires { v < self.old.vertices }
        ensures { self.new ≡ self.old }
    {
        if !self.agenda.is_locked(v) {
            if let Some((rate, _to)) = self.tables.relief(v) {
                self.agenda.push(Offer {
                    gain: rate,
                    tie: i64::from(v),
                    vertex: v,
                })?;
            }
        }
        Ok(())
    }

    /// Takes the best relief from the queue, which is offered again where it has fallen.
    fn next_relief(&mut self) -> Result<Option<(u32, u32)>, NoMemory>
        ensures same { self.new ≡ self.old }
        ensures within { IfOk result (λ next. IfSome next (IsMoveWithin self.old)) }
    {
        for _ in 0..MOST_OFFERS {
            let Some(offer) = self.agenda.pop() else {
                return Ok(None);
            };
            let v = offer.vertex;
            let Some((now, to)) = self.tables.relief(v) else {
                continue;
            };
            if now >= offer.gain {
                return Ok(Some((v, to)));
            }
            self.agenda.push(Offer { gain: now, ..offer })?;
        }
        Ok(None)
    }

    /// Moves vertices out of overfull blocks, while there is room for them elsewhere.
    pub(crate) fn repair(&mut self, h: &Hypergraph) -> Result<(), NoMemory>
        requires suits { IsShapeOf h.now self.old }
        ensures { self.new ≡ self.old }
    {
        if self.tables.overload() == 0 {
            return Ok(());
        }
        self.begin();
        for v in 0..self.vertices() {
            self.offer_relief(v)?;
        }
        for _ in 0..self.vertices() {
            if self.tables.overload() == 0 {
                break;
            }
            let Some((v, to)) = self.next_relief()? else {
                break;
            };
            self.shift(h, v, to);
        }
        Ok(())
    }

    /// Moves a vertex to a block.
    pub(crate) fn shift(&mut self, h: &Hypergraph, v: u32, to: u32)
        requires suits { IsShapeOf h.now self.old }
        requires vertex { v < self.old.vertices }
        requires block { to < self.old.blocks }
        ensures { self.new ≡ self.old }
    {
        self.tables.shift(h, v, to);
    }

    /// Puts each vertex into its block of these.
    pub(crate) fn reset(&mut self, h: &Hypergraph, labels: &Labels)
        requires suits { IsShapeOf h.now self.old }
        requires labels { labels.now ≡ record { count = self.old.vertices; bound = self.old.blocks } }
        ensures { self.new ≡ self.old }
    {
        self.tables.reset(h, labels);
    }

    /// The load of a block.
    pub(crate) fn load(&self, b: u32) -> u64
        requires { b < self.now.blocks }
    {
        self.tables.load(b)
    }

    /// The blocks of the vertices.
    pub(crate) fn labels(&self) -> &Labels
        ensures { result.now ≡ record { count = self.now.vertices; bound = self.now.blocks } }
    {
        self.tables.labels()
    }
}
