//! The tables of a candidate of two sides: loads, pin counts and gains.

ghost use Rattle.std.specs.Prelude.{◌≡◌, ℕ, ◌+◌, ◌<◌, ◌≤◌, IfOk, IfSome};
ghost use Rattle.hg_defs.specs.Hypergraph.{vertex_count, net_count};
ghost use Rattle.place_search.specs.Shapes.{Size, Range, Shape, IsShapeOf};

use crate::cells::{Cells, Grid, Labels};
use crate::edges::{Edge, Edges};
use crate::listed::Listed;
use crate::tables::{MOST_HELP, cell_count, rate_of};
use crate::tally::Tally;
use hg_base::NoMemory;
use incidence::Hypergraph;
use std::alloc::Global;
use std::marker::Model;

/// Two sides with their loads, the pins of each large net on them, and the gains.
///
/// The gain of a vertex is by how much cutting costs less with it on the other side. Costs and gains count each net
/// twice, as edges do. Small nets are edges, and no nets of the hypergraph that goes with these tables.
#[derive(Drop)]
pub(crate) struct Sides {
    vertices: u32,
    nets: u32,
    sides: Labels,
    weights: Cells<u64>,
    loads: Cells<u64>,
    limits: Cells<u64>,
    tallies: Grid<Tally>,
    gains: Cells<i64>,
    saved: Cells<i64>,
    whole: Cells<i64>,
    touched: Listed,
    cost: i64,
}

impl Model for Sides {
    ghost use Rattle.std.specs.Prelude.{◌≡◌};
    ghost use Rattle.place_search.specs.Shapes.{Shape};

    ghost Value = { Shape };

    ghost view = { λ s. record { vertices = s.vertices; nets = s.nets; blocks = 2 } };

    ghost invariant = { λ s.
        (s.sides ≡ record { count = s.vertices; bound = 2 })
        × (s.weights ≡ s.vertices)
        × (s.loads ≡ 2)
        × (s.limits ≡ 2)
        × (s.tallies ≡ record { rows = s.nets; columns = 2 })
        × (s.gains ≡ s.vertices)
        × (s.saved ≡ s.vertices)
        × (s.whole ≡ s.vertices)
        × (s.touched ≡ s.vertices) };
}

/// Twice the weight of the nets of a vertex.
fn weight_of_nets(h: &Hypergraph, edges: &Edges, v: u32) -> i64
    requires vertex { v < vertex_count h.now }
    requires edges { edges.now.bound ≡ vertex_count h.now }
{
    let mut whole: i64 = 0;
    for place in edges.start(v)..edges.end(v) {
        whole = whole.wrapping_add(edges.edge(place).weight);
    }
    for e in h.nets_of(v) {
        whole = whole.wrapping_add((h.net_weight(*e) as i64).wrapping_mul(2));
    }
    whole
}

impl Sides {
    /// Makes tables for sides of these limits and vertices of these weights, all on side 0.
    pub(crate) fn start(
        alloc: Global,
        h: &Hypergraph,
        edges: &Edges,
        weights: Cells<u64>,
        limits: Cells<u64>,
    ) -> Result<Self, NoMemory>
        requires edges { edges.now.bound ≡ vertex_count h.now }
        requires weights { weights ≡ vertex_count h.now }
        requires limits { limits ≡ 2 }
        ensures { IfOk result (λ sides. sides ≡ record {
          vertices = vertex_count h.now;
          nets = net_count h.now;
          blocks = 2;
        }) }
    {
        let vertices = h.vertices();
        let nets = h.nets();
        let mut sides = Sides {
            vertices,
            nets,
            sides: Labels::start(alloc, vertices, 2, 0)?,
            weights,
            loads: Cells::of(vec![in alloc; 0u64; 2]?),
            limits,
            tallies: Grid::of(vec![in alloc; Tally::none(); cell_count(nets, 2)]?, nets, 2),
            gains: Cells::of(vec![in alloc; 0i64; vertices as usize]?),
            saved: Cells::of(vec![in alloc; 0i64; vertices as usize]?),
            whole: Cells::of(vec![in alloc; 0i64; vertices as usize]?),
            touched: Listed::start(alloc, vertices)?,
            cost: 0,
        };
        for v in 0..vertices {
            sides.weigh_nets(h, edges, v);
        }
        Ok(sides)
    }

    /// Sets the weight of the nets of a vertex.
    fn weigh_nets(&mut self, h: &Hypergraph, edges: &Edges, v: u32)
        requires suits { IsShapeOf h.now self.old }
        requires edges { edges.now.bound ≡ self.old.vertices }
        requires vertex { v < self.old.vertices }
        ensures { self.new ≡ self.old }
    {
        let whole = weight_of_nets(h, edges, v);
        self.whole.set(v, whole);
    }

    /// Puts each vertex on its side of these.
    pub(crate) fn reset(&mut self, h: &Hypergraph, edges: &Edges, sides: &Labels)
        requires suits { IsShapeOf h.now self.old }
        requires edges { edges.now.bound ≡ self.old.vertices }
        requires sides { sides.now ≡ record { count = self.old.vertices; bound = 2 } }
        ensures { self.new ≡ self.old }
    {
        self.clear();
        self.sides.copy_from(sides);
        for v in 0..h.vertices() {
            self.seat(v);
            self.count_edges(edges, v);
        }
        for e in 0..h.nets() {
            self.count_net(h, e);
        }
        self.forget();
    }

    /// Forgets the loads, the counts, the gains and the cost.
    fn clear(&mut self)
        ensures { self.new ≡ self.old }
    {
        self.loads.fill(0);
        self.tallies.fill(Tally::none());
        self.gains.fill(0);
        self.cost = 0;
    }

    /// Loads the side of a vertex with it.
    fn seat(&mut self, v: u32)
        requires { v < self.old.vertices }
        ensures { self.new ≡ self.old }
    {
        let side = self.sides.get(v);
        let load = self.loads.get(side).wrapping_add(self.weights.get(v));
        self.loads.set(side, load);
    }

    /// Counts what the edges of a vertex do to its gain and the cost.
    fn count_edges(&mut self, edges: &Edges, v: u32)
        requires edges { edges.now.bound ≡ self.old.vertices }
        requires vertex { v < self.old.vertices }
        ensures { self.new ≡ self.old }
    {
        for place in edges.start(v)..edges.end(v) {
            self.count_edge(v, edges.edge(place));
        }
    }

    /// Counts what an edge of a vertex does to its gain and, at the higher end, the cost.
    fn count_edge(&mut self, v: u32, edge: Edge)
        requires vertex { v < self.old.vertices }
        requires head { edge.head < self.old.vertices }
        ensures { self.new ≡ self.old }
    {
        if self.sides.get(edge.head) == self.sides.get(v) {
            self.raise(v, edge.weight.wrapping_neg());
            return;
        }
        self.raise(v, edge.weight);
        if edge.head < v {
            self.cost = self.cost.wrapping_add(edge.weight);
        }
    }

    /// Counts the pins of a net, with what they do to the gains and the cost.
    fn count_net(&mut self, h: &Hypergraph, e: u32)
        requires suits { IsShapeOf h.now self.old }
        requires net { e < self.old.nets }
        ensures { self.new ≡ self.old }
    {
        for u in h.pins(e) {
            self.count_pin(e, *u);
        }
        let weight = (h.net_weight(e) as i64).wrapping_mul(2);
        let (low, high) = (self.tallies.get(e, 0), self.tallies.get(e, 1));
        if low.pins == 0 || high.pins == 0 {
            self.raise_pins(h, e, weight.wrapping_neg());
            return;
        }
        self.cost = self.cost.wrapping_add(weight);
        self.raise_only(low, weight);
        self.raise_only(high, weight);
    }

    /// Counts a pin.
    fn count_pin(&mut self, e: u32, u: u32)
        requires net { e < self.old.nets }
        requires vertex { u < self.old.vertices }
        ensures { self.new ≡ self.old }
    {
        let side = self.sides.get(u);
        self.tallies.set(e, side, self.tallies.get(e, side).with(u));
    }

    /// Forgets which vertices were touched.
    pub(crate) fn forget(&mut self)
        ensures { self.new ≡ self.old }
    {
        for _ in 0..self.vertices {
            if self.take_touched().is_none() {
                break;
            }
        }
    }

    /// Takes a vertex of which the gain has changed.
    pub(crate) fn take_touched(&mut self) -> Option<u32>
        ensures same { self.new ≡ self.old }
        ensures vertex { IfSome result (λ v. v < self.old.vertices) }
    {
        self.touched.take()
    }

    /// The sides of the vertices.
    pub(crate) fn labels(&self) -> &Labels
        ensures { result.now ≡ record { count = self.now.vertices; bound = 2 } }
    {
        &self.sides
    }

    /// How many vertices there are.
    pub(crate) fn vertices(&self) -> u32
        ensures { result ≡ self.now.vertices }
    {
        self.vertices
    }

    /// The side of a vertex.
    pub(crate) fn side(&self, v: u32) -> u32
        requires { v < self.now.vertices }
        ensures { result < 2 }
    {
        self.sides.get(v)
    }

    /// The gain of a vertex.
    pub(crate) fn gain(&self, v: u32) -> i64
        requires { v < self.now.vertices }
    {
        self.gains.get(v)
    }

    /// The weight of a vertex.
    pub(crate) fn weight(&self, v: u32) -> u64
        requires { v < self.now.vertices }
    {
        self.weights.get(v)
    }

    /// The load of a side.
    pub(crate) fn load(&self, side: u32) -> u64
        requires { side < 2 }
    {
        self.loads.get(side)
    }

    /// By how much a side passes its limit.
    fn excess(&self, side: u32) -> u64
        requires { side < 2 }
    {
        self.loads.get(side).saturating_sub(self.limits.get(side))
    }

    /// By how much the sides pass their limits together, and twice the cost.
    pub(crate) fn rank(&self) -> (u64, i64) {
        (self.excess(0).saturating_add(self.excess(1)), self.cost)
    }

    /// Whether a vertex has a net with a pin on the other side, or its own side is overfull.
    pub(crate) fn may_move(&self, v: u32) -> bool
        requires { v < self.now.vertices }
    {
        self.gains.get(v) != self.whole.get(v).wrapping_neg() || self.excess(self.sides.get(v)) > 0
    }

    /// Whether the other side has room for a vertex within its limit and the slack.
    pub(crate) fn may_cross(&self, v: u32, slack: u64) -> bool
        requires { v < self.now.vertices }
    {
        let to = 1 - self.sides.get(v);
        let load = self.loads.get(to).saturating_add(self.weights.get(v));
        load <= self.limits.get(to).saturating_add(slack)
    }

    /// What an overfull side loses by a vertex, for its weight, as a gain, where the other one has room.
    pub(crate) fn relief(&self, v: u32) -> Option<i64>
        requires { v < self.now.vertices }
    {
        let over = self.excess(self.sides.get(v));
        let helps = over.min(self.weights.get(v)).min(MOST_HELP) as i64;
        if helps == 0 || !self.may_cross(v, 0) {
            return None;
        }
        Some(rate_of(self.gain(v), helps))
    }

    /// Adds to the gain of a vertex.
    fn raise(&mut self, u: u32, weight: i64)
        requires { u < self.old.vertices }
        ensures { self.new ≡ self.old }
    {
        let gain = self.gains.get(u).wrapping_add(weight);
        self.gains.set(u, gain);
        self.touched.add(u);
    }

    /// Adds to the gain of each pin of a net.
    fn raise_pins(&mut self, h: &Hypergraph, e: u32, weight: i64)
        requires suits { IsShapeOf h.now self.old }
        requires net { e < self.old.nets }
        ensures { self.new ≡ self.old }
    {
        for u in h.pins(e) {
            self.raise(*u, weight);
        }
    }

    /// Adds to the gain of the pin of a side, where there is one alone.
    fn raise_only(&mut self, tally: Tally, weight: i64)
        ensures { self.new ≡ self.old }
    {
        let u = tally.only();
        if tally.pins == 1 && u < self.vertices {
            self.raise(u, weight);
        }
    }

    /// Tells the other end of an edge that a vertex has come to a side.
    fn stretch(&mut self, edge: Edge, to: u32)
        requires { edge.head < self.old.vertices }
        ensures { self.new ≡ self.old }
    {
        let twice = edge.weight.wrapping_mul(2);
        if self.sides.get(edge.head) == to {
            self.raise(edge.head, twice.wrapping_neg());
        } else {
            self.raise(edge.head, twice);
        }
    }

    /// Tells the other pins of a net that a vertex has come to a side.
    fn cross(&mut self, h: &Hypergraph, e: u32, v: u32, to: u32)
        requires suits { IsShapeOf h.now self.old }
        requires net { e < self.old.nets }
        requires side { to < 2 }
        ensures { self.new ≡ self.old }
    {
        let weight = (h.net_weight(e) as i64).wrapping_mul(2);
        let before = self.tallies.get(e, to);
        let after = self.tallies.get(e, 1 - to).without(v);
        self.tallies.set(e, to, before.with(v));
        self.tallies.set(e, 1 - to, after);
        if before.pins == 0 {
            self.raise_pins(h, e, weight);
        }
        self.raise_only(before, weight.wrapping_neg());
        if after.pins == 0 {
            self.raise_pins(h, e, weight.wrapping_neg());
        }
        self.raise_only(after, weight);
    }

    /// Moves the label and the weight of a vertex to a side.
    fn relabel(&mut self, v: u32, to: u32)
        requires vertex { v < self.old.vertices }
        requires side { to < 2 }
        ensures { self.new ≡ self.old }
    {
        let weight = self.weights.get(v);
        self.sides.set(v, to);
        self.loads
            .set(1 - to, self.loads.get(1 - to).wrapping_sub(weight));
        self.loads.set(to, self.loads.get(to).wrapping_add(weight));
    }

    /// Moves a vertex to the other side. What it gained it would lose on its way back.
    pub(crate) fn shift(&mut self, h: &Hypergraph, edges: &Edges, v: u32)
        requires suits { IsShapeOf h.now self.old }
        requires edges { edges.now.bound ≡ self.old.vertices }
        requires vertex { v < self.old.vertices }
        ensures { self.new ≡ self.old }
    {
        let to = 1 - self.sides.get(v);
        let back = self.gains.get(v).wrapping_neg();
        self.cost = self.cost.wrapping_add(back);
        self.relabel(v, to);
        for place in edges.start(v)..edges.end(v) {
            self.stretch(edges.edge(place), to);
        }
        for e in h.nets_of(v) {
            self.cross(h, *e, v, to);
        }
        self.gains.set(v, back);
    }

    /// Saves the gains.
    pub(crate) fn save(&mut self)
        ensures { self.new ≡ self.old }
    {
        self.saved.copy_from(&self.gains);
    }

    /// Takes the saved gains and the cost that went with them, where all moves since are taken back.
    pub(crate) fn restore(&mut self, cost: i64)
        ensures { self.new ≡ self.old }
    {
        self.cost = cost;
        self.gains.copy_from(&self.saved);
    }

    /// Takes the last move of a vertex back, but for the gains.
    pub(crate) fn take_back(&mut self, h: &Hypergraph, v: u32)
        requires suits { IsShapeOf h.now self.old }
        requires vertex { v < self.old.vertices }
        ensures { self.new ≡ self.old }
    {
        let to = 1 - self.sides.get(v);
        self.relabel(v, to);
        for e in h.nets_of(v) {
            self.recount(*e, v, to);
        }
    }

    /// Counts a pin on another side.
    fn recount(&mut self, e: u32, v: u32, to: u32)
        requires net { e < self.old.nets }
        requires side { to < 2 }
        ensures { self.new ≡ self.old }
    {
        self.tallies.set(e, to, self.tallies.get(e, to).with(v));
        self.tallies
            .set(e, 1 - to, self.tallies.get(e, 1 - to).without(v));
    }
}
