//! The tables of a candidate: loads, pin counts, and what gains are made of.

ghost use Rattle.std.specs.Prelude.{◌≡◌, ℕ, ◌*◌, ◌<◌, ◌≤◌, IfOk, IfSome, pos, ◌<ℤ◌};
ghost use Rattle.hg_defs.specs.Hypergraph.{vertex_count, net_count};
ghost use Rattle.place_search.specs.Shapes.{Size, Range, Shape, IsShapeOf};

use crate::cells::{Cells, Grid, Labels};
use crate::listed::Listed;
use crate::tally::Tally;
use hg_base::NoMemory;
use incidence::Hypergraph;
use std::alloc::Global;
use std::marker::Model;

/// The most that a vertex is said to take from an overfull block.
pub(crate) const MOST_HELP: u64 = 1 << 40;

/// How many cells a table of so many rows and columns has.
pub(crate) fn cell_count(rows: u32, columns: u32) -> usize
    ensures { result ≡ rows * columns }
{
    rows as usize * columns as usize
}

/// A gain for what it helps: a loss counts less where more is helped, a gain more.
pub(crate) fn rate_of(gain: i64, helps: i64) -> i64
    requires { pos 0 <ℤ helps }
{
    if gain > 0 {
        gain.saturating_mul(helps)
    } else {
        gain.saturating_mul(1024) / helps
    }
}

/// A partition with its loads, its pin counts, and the parts of the gains.
///
/// The gain of a vertex in a block is the weight of its nets in which it is the only pin of its
/// own block, less the weight of all its nets, plus the weight of those with a pin in that block.
#[derive(Drop)]
pub(crate) struct Tables {
    vertices: u32,
    nets: u32,
    blocks: u32,
    labels: Labels,
    weights: Cells<u64>,
    loads: Cells<u64>,
    limits: Cells<u64>,
    tallies: Grid<Tally>,
    pulls: Grid<i64>,
    alone: Cells<i64>,
    whole: Cells<i64>,
    touched: Listed,
    overload: u64,
    cost: i64,
}

impl Model for Tables {
    ghost use Rattle.std.specs.Prelude.{◌≡◌};
    ghost use Rattle.place_search.specs.Shapes.{Shape};

    ghost Value = { Shape };

    ghost view = { λ s. record { vertices = s.vertices; nets = s.nets; blocks = s.blocks } };

    ghost invariant = { λ s.
        (s.labels ≡ record { count = s.vertices; bound = s.blocks })
        × (s.weights ≡ s.vertices)
        × (s.loads ≡ s.blocks)
        × (s.limits ≡ s.blocks)
        × (s.tallies ≡ record { rows = s.nets; columns = s.blocks })
        × (s.pulls ≡ record { rows = s.vertices; columns = s.blocks })
        × (s.alone ≡ s.vertices)
        × (s.whole ≡ s.vertices)
        × (s.touched ≡ s.vertices) };
}

impl Tables {
    /// Makes tables for the blocks of these limits and vertices of these weights, all in block 0.
    pub(crate) fn start(
        alloc: Global,
        h: &Hypergraph,
        blocks: u32,
        weights: Cells<u64>,
        limits: Cells<u64>,
    ) -> Result<Self, NoMemory>
        requires some { 0 < blocks }
        requires weights { weights ≡ vertex_count h.now }
        requires limits { limits ≡ blocks }
        ensures { IfOk result (λ tables. tables ≡ record {
          vertices = vertex_count h.now;
          nets = net_count h.now;
          blocks = blocks;
        }) }
    {
        let vertices = h.vertices();
        let nets = h.nets();
        let mut tables = Tables {
            vertices,
            nets,
            blocks,
            labels: Labels::start(alloc, vertices, blocks, 0)?,
            weights,
            loads: Cells::of(vec![in alloc; 0u64; blocks as usize]?),
            limits,
            tallies: Grid::of(
                vec![in alloc; Tally::none(); cell_count(nets, blocks)]?,
                nets,
                blocks,
            ),
            pulls: Grid::of(
                vec![in alloc; 0i64; cell_count(vertices, blocks)]?,
                vertices,
                blocks,
            ),
            alone: Cells::of(vec![in alloc; 0i64; vertices as usize]?),
            whole: Cells::of(vec![in alloc; 0i64; vertices as usize]?),
            touched: Listed::start(alloc, vertices)?,
            overload: 0,
            cost: 0,
        };
        for e in 0..nets {
            tables.weigh_net(h, e);
        }
        Ok(tables)
    }

    /// Adds the weight of a net to that of each of its pins.
    fn weigh_net(&mut self, h: &Hypergraph, e: u32)
        requires suits { IsShapeOf h.now self.old }
        requires net { e < self.old.nets }
        ensures { self.new ≡ self.old }
    {
        let weight = h.net_weight(e) as i64;
        for u in h.pins(e) {
            self.add_whole(*u, weight);
        }
    }

    /// Adds to the weight of the nets of a vertex.
    fn add_whole(&mut self, u: u32, weight: i64)
        requires { u < self.old.vertices }
        ensures { self.new ≡ self.old }
    {
        let whole = self.whole.get(u).wrapping_add(weight);
        self.whole.set(u, whole);
    }

    /// Puts each vertex into its block of these.
    pub(crate) fn reset(&mut self, h: &Hypergraph, labels: &Labels)
        requires suits { IsShapeOf h.now self.old }
        requires labels { labels.now ≡ record { count = self.old.vertices; bound = self.old.blocks } }
        ensures { self.new ≡ self.old }
    {
        self.clear();
        for v in 0..h.vertices() {
            self.seat(v, labels.get(v));
        }
        self.weigh_loads();
        for e in 0..h.nets() {
            self.count_net(h, e);
        }
        self.forget();
    }

    /// Forgets the loads, the counts, the gains and the cost.
    fn clear(&mut self)
        ensures { self.new ≡ self.old }
    {
        self.loads.fill(0);
        self.tallies.fill(Tally::none());
        self.pulls.fill(0);
        self.alone.fill(0);
        self.cost = 0;
    }

    /// Puts a vertex into a block, whose load grows.
    fn seat(&mut self, v: u32, block: u32)
        requires vertex { v < self.old.vertices }
        requires block { block < self.old.blocks }
        ensures { self.new ≡ self.old }
    {
        self.labels.set(v, block);
        let load = self.loads.get(block).wrapping_add(self.weights.get(v));
        self.loads.set(block, load);
    }

    /// Counts the pins of a net, with what they do to the gains and the cost.
    fn count_net(&mut self, h: &Hypergraph, e: u32)
        requires suits { IsShapeOf h.now self.old }
        requires net { e < self.old.nets }
        ensures { self.new ≡ self.old }
    {
        let weight = h.net_weight(e) as i64;
        for u in h.pins(e) {
            self.count_pin(h, e, *u, weight);
        }
        for u in h.pins(e) {
            self.count_alone(e, *u, weight);
        }
        if !h.pins(e).is_empty() {
            self.cost = self.cost.wrapping_sub(weight);
        }
    }

    /// Counts a pin, the first of its block with what it pulls.
    fn count_pin(&mut self, h: &Hypergraph, e: u32, u: u32, weight: i64)
        requires suits { IsShapeOf h.now self.old }
        requires net { e < self.old.nets }
        requires vertex { u < self.old.vertices }
        ensures { self.new ≡ self.old }
    {
        let block = self.labels.get(u);
        let before = self.tallies.get(e, block);
        self.tallies.set(e, block, before.with(u));
        if before.pins == 0 {
            self.cost = self.cost.wrapping_add(weight);
            self.pull_pins(h, e, block, weight);
        }
    }

    /// Tells a pin where it is alone in its block.
    fn count_alone(&mut self, e: u32, u: u32, weight: i64)
        requires net { e < self.old.nets }
        requires vertex { u < self.old.vertices }
        ensures { self.new ≡ self.old }
    {
        if self.tallies.get(e, self.labels.get(u)).pins == 1 {
            self.leave_alone(u, weight);
        }
    }

    /// Forgets which vertices were touched.
    pub(crate) fn forget(&mut self)
        ensures { self.new ≡ self.old }
    {
        for _ in 0..self.vertices {
            if self.take_touched().is_none() {
                break;
            }
        }
    }

    /// Takes a vertex of which a gain has risen.
    pub(crate) fn take_touched(&mut self) -> Option<u32>
        ensures same { self.new ≡ self.old }
        ensures vertex { IfSome result (λ v. v < self.old.vertices) }
    {
        self.touched.take()
    }

    /// The blocks of the vertices.
    pub(crate) fn labels(&self) -> &Labels
        ensures { result.now ≡ record { count = self.now.vertices; bound = self.now.blocks } }
    {
        &self.labels
    }

    /// How many vertices there are.
    pub(crate) fn vertices(&self) -> u32
        ensures { result ≡ self.now.vertices }
    {
        self.vertices
    }

    /// How many blocks there are.
    pub(crate) fn blocks(&self) -> u32
        ensures { result ≡ self.now.blocks }
    {
        self.blocks
    }

    /// The connectivity cost, which leads the search.
    pub(crate) fn cost(&self) -> i64 {
        self.cost
    }

    /// The weight of a vertex.
    pub(crate) fn weight(&self, v: u32) -> u64
        requires { v < self.now.vertices }
    {
        self.weights.get(v)
    }

    /// The load of a block.
    pub(crate) fn load(&self, b: u32) -> u64
        requires { b < self.now.blocks }
    {
        self.loads.get(b)
    }

    /// By how much the blocks pass their limits, all together.
    pub(crate) fn overload(&self) -> u64 {
        self.overload
    }

    /// By how much a block passes its limit.
    fn excess(&self, b: u32) -> u64
        requires { b < self.now.blocks }
    {
        self.loads.get(b).saturating_sub(self.limits.get(b))
    }

    /// The sum of what the blocks pass their limits by.
    fn sum_of_excess(&self) -> u64 {
        let mut sum: u64 = 0;
        for b in 0..self.blocks {
            sum = sum.wrapping_add(self.excess(b));
        }
        sum
    }

    /// Sums up by how much the blocks pass their limits.
    fn weigh_loads(&mut self)
        ensures { self.new ≡ self.old }
    {
        let sum = self.sum_of_excess();
        self.overload = sum;
    }

    /// Replaces the load of a block.
    fn reload(&mut self, b: u32, load: u64)
        requires { b < self.old.blocks }
        ensures { self.new ≡ self.old }
    {
        let before = self.excess(b);
        self.loads.set(b, load);
        self.overload = self
            .overload
            .wrapping_sub(before)
            .wrapping_add(self.excess(b));
    }

    /// Whether a vertex has a net with a pin in another block, or its block is overfull.
    pub(crate) fn may_move(&self, v: u32) -> bool
        requires { v < self.now.vertices }
    {
        let from = self.labels.get(v);
        for b in 0..self.blocks {
            if b != from && self.pulls.get(v, b) > 0 {
                return true;
            }
        }
        self.loads.get(from) > self.limits.get(from)
    }

    /// The block with room in which an overfull block loses least by a vertex, for its weight, and
    /// that loss as a gain.
    pub(crate) fn relief(&self, v: u32) -> Option<(i64, u32)>
        requires { v < self.now.vertices }
        ensures { IfSome result (λ best. best.1 < self.now.blocks) }
    {
        let from = self.labels.get(v);
        let weight = self.weights.get(v);
        let over = self.excess(from);
        let helps = over.min(weight).min(MOST_HELP) as i64;
        if helps == 0 {
            return None;
        }
        let mut best = from;
        let mut highest = i64::MIN;
        for b in 0..self.blocks {
            if b == from || !self.has_room(b, weight, 0) {
                continue;
            }
            let rate = rate_of(self.gain(v, b), helps);
            if best == from || rate > highest {
                best = b;
                highest = rate;
            }
        }
        if best == from {
            return None;
        }
        Some((highest, best))
    }

    /// The block of a vertex.
    pub(crate) fn block(&self, v: u32) -> u32
        requires { v < self.now.vertices }
        ensures { result < self.now.blocks }
    {
        self.labels.get(v)
    }

    /// How much lower the cost is after a move.
    pub(crate) fn gain(&self, v: u32, to: u32) -> i64
        requires vertex { v < self.now.vertices }
        requires block { to < self.now.blocks }
    {
        self.alone
            .get(v)
            .wrapping_sub(self.whole.get(v))
            .wrapping_add(self.pulls.get(v, to))
    }

    /// Whether a weight more would keep a block within its limit and the slack.
    pub(crate) fn has_room(&self, b: u32, weight: u64, slack: u64) -> bool
        requires { b < self.now.blocks }
    {
        self.loads.get(b).saturating_add(weight) <= self.limits.get(b).saturating_add(slack)
    }

    /// The block with room to which the pull is the strongest, the least loaded at a tie, and the
    /// gain there.
    pub(crate) fn best_move(&self, v: u32, slack: u64) -> Option<(i64, u32)>
        requires { v < self.now.vertices }
        ensures { IfSome result (λ best. best.1 < self.now.blocks) }
    {
        let from = self.labels.get(v);
        let weight = self.weights.get(v);
        let mut best = from;
        let mut strongest = i64::MIN;
        for b in 0..self.blocks {
            let pull = self.pulls.get(v, b);
            if pull < strongest || b == from || !self.has_room(b, weight, slack) {
                continue;
            }
            let lighter = self.loads.get(b) < self.loads.get(best);
            if best == from || pull > strongest || lighter {
                best = b;
                strongest = pull;
            }
        }
        if best == from {
            return None;
        }
        Some((self.gain(v, best), best))
    }

    /// Adds to the pull of a block on each pin of a net.
    fn pull_pins(&mut self, h: &Hypergraph, e: u32, block: u32, weight: i64)
        requires suits { IsShapeOf h.now self.old }
        requires net { e < self.old.nets }
        requires block { block < self.old.blocks }
        ensures { self.new ≡ self.old }
    {
        for u in h.pins(e) {
            self.pull(*u, block, weight);
        }
    }

    /// Adds to the pull of a block on a vertex.
    fn pull(&mut self, u: u32, block: u32, weight: i64)
        requires vertex { u < self.old.vertices }
        requires block { block < self.old.blocks }
        ensures { self.new ≡ self.old }
    {
        let pull = self.pulls.get(u, block).wrapping_add(weight);
        self.pulls.set(u, block, pull);
        self.touched.add(u);
    }

    /// Adds to what a vertex gains by leaving the nets in which it is alone.
    fn leave_alone(&mut self, u: u32, weight: i64)
        requires { u < self.old.vertices }
        ensures { self.new ≡ self.old }
    {
        let alone = self.alone.get(u).wrapping_add(weight);
        self.alone.set(u, alone);
        self.touched.add(u);
    }

    /// Tells the pin of a block, where there is one alone, that it is so, or no longer.
    fn tell_only(&mut self, tally: Tally, weight: i64)
        ensures { self.new ≡ self.old }
    {
        let u = tally.only();
        if tally.pins == 1 && u < self.vertices {
            self.leave_alone(u, weight);
        }
    }

    /// Counts a pin more in a block, and answers whether it is alone there.
    fn enter(&mut self, h: &Hypergraph, e: u32, v: u32, block: u32, weight: i64) -> bool
        requires suits { IsShapeOf h.now self.old }
        requires net { e < self.old.nets }
        requires block { block < self.old.blocks }
        ensures { self.new ≡ self.old }
    {
        let before = self.tallies.get(e, block);
        self.tallies.set(e, block, before.with(v));
        if before.pins == 0 {
            self.pull_pins(h, e, block, weight);
        }
        self.tell_only(before, weight.wrapping_neg());
        before.pins == 0
    }

    /// Counts a pin less in a block.
    fn leave(&mut self, h: &Hypergraph, e: u32, v: u32, block: u32, weight: i64)
        requires suits { IsShapeOf h.now self.old }
        requires net { e < self.old.nets }
        requires block { block < self.old.blocks }
        ensures { self.new ≡ self.old }
    {
        let after = self.tallies.get(e, block).without(v);
        self.tallies.set(e, block, after);
        if after.pins == 0 {
            self.pull_pins(h, e, block, weight.wrapping_neg());
        }
        self.tell_only(after, weight);
    }

    /// Labels a vertex anew, and moves its weight.
    fn relabel(&mut self, v: u32, from: u32, to: u32)
        requires vertex { v < self.old.vertices }
        requires from { from < self.old.blocks }
        requires to { to < self.old.blocks }
        ensures { self.new ≡ self.old }
    {
        let weight = self.weights.get(v);
        self.cost = self.cost.wrapping_sub(self.gain(v, to));
        self.labels.set(v, to);
        let left = self.loads.get(from).wrapping_sub(weight);
        self.reload(from, left);
        let entered = self.loads.get(to).wrapping_add(weight);
        self.reload(to, entered);
    }

    /// Moves a vertex to a block.
    pub(crate) fn shift(&mut self, h: &Hypergraph, v: u32, to: u32)
        requires suits { IsShapeOf h.now self.old }
        requires vertex { v < self.old.vertices }
        requires block { to < self.old.blocks }
        ensures { self.new ≡ self.old }
    {
        let from = self.block(v);
        if from == to {
            return;
        }
        self.relabel(v, from, to);
        let mut alone: i64 = 0;
        for e in h.nets_of(v) {
            let weight = h.net_weight(*e) as i64;
            if self.enter(h, *e, v, to, weight) {
                alone = alone.wrapping_add(weight);
            }
            self.leave(h, *e, v, from, weight);
        }
        self.alone.set(v, alone);
    }
}
