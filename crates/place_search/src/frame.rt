//! A part of the vertices, and its bisection.

ghost use Rattle.std.specs.Prelude.{◌≡◌, ℕ, ◌+◌, ◌*◌, ◌<◌, ◌≤◌, IfOk, IsTrue};
ghost use Rattle.hg_defs.specs.Hypergraph.{vertex_count, net_count};
ghost use Rattle.place_search.specs.Shapes.{Range, Part};

use crate::cells::{Cells, Labels};
use crate::draws::Draws;
use crate::edges::Edges;
use crate::halving::Halving;
use crate::moves::Search;
use hg_base::{FREE, NoMemory};
use incidence::Hypergraph;
use std::alloc::Global;
use std::marker::Model;

/// The fix of a vertex that takes no part.
pub(crate) const IDLE: u32 = FREE + 1;

/// How many times a part is bisected, of which the best is taken.
const TRIES: u32 = 4;

/// A part of the vertices, and the blocks into which it goes.
#[derive(Drop)]
pub(crate) struct Frame {
    vertices: u32,
    whole: u32,
    all: u32,
    names: Labels,
    weights: Cells<u64>,
    fixes: Cells<u32>,
    first: u32,
    blocks: u32,
}

impl Model for Frame {
    ghost use Rattle.std.specs.Prelude.{◌≡◌, ◌+◌, ◌<◌, ◌≤◌};
    ghost use Rattle.place_search.specs.Shapes.{Range, Part};

    ghost Value = { Part };

    ghost view = { λ s. record { vertices = s.vertices; whole = s.whole; all = s.all; blocks = s.blocks } };

    ghost invariant = { λ s.
        (s.names ≡ record { count = s.vertices; bound = s.whole })
        × (s.weights ≡ s.vertices)
        × (s.fixes ≡ s.vertices)
        × (0 < s.whole)
        × (0 < s.blocks)
        × (s.first + s.blocks ≤ s.all) };
}

impl Frame {
    /// A part of so many vertices of the whole, which goes into the blocks from `first` on.
    pub(crate) fn start(
        alloc: Global,
        vertices: u32,
        whole: u32,
        all: u32,
        first: u32,
        blocks: u32,
    ) -> Result<Self, NoMemory>
        requires whole { 0 < whole }
        requires some { 0 < blocks }
        requires within { first + blocks ≤ all }
        ensures { IfOk result (λ frame. frame ≡ record {
          vertices = vertices;
          whole = whole;
          all = all;
          blocks = blocks;
        }) }
    {
        Ok(Frame {
            vertices,
            whole,
            all,
            names: Labels::start(alloc, vertices, whole, 0)?,
            weights: Cells::of(vec![in alloc; 0u64; vertices as usize]?),
            fixes: Cells::of(vec![in alloc; FREE; vertices as usize]?),
            first,
            blocks,
        })
    }

    /// Says which vertex of the whole a vertex is, its weight and its fix.
    pub(crate) fn describe(&mut self, v: u32, name: u32, weight: u64, fix: u32)
        requires vertex { v < self.old.vertices }
        requires name { name < self.old.whole }
        ensures { self.new ≡ self.old }
    {
        self.names.set(v, name);
        self.weights.set(v, weight);
        self.fixes.set(v, fix);
    }

    /// How many vertices there are.
    pub(crate) fn vertices(&self) -> u32
        ensures { result ≡ self.now.vertices }
    {
        self.vertices
    }

    /// Into how many blocks they go.
    pub(crate) fn blocks(&self) -> u32
        ensures { result ≡ self.now.blocks }
    {
        self.blocks
    }

    /// The weight of all vertices.
    fn total(&self) -> u64 {
        let mut total: u64 = 0;
        for v in 0..self.vertices {
            total = total.saturating_add(self.weights.get(v));
        }
        total
    }

    /// How many blocks go to the first side.
    fn low_blocks(&self) -> u32 {
        self.blocks / 2
    }

    /// How many blocks go to the second side.
    fn high_blocks(&self) -> u32 {
        self.blocks - self.blocks / 2
    }

    /// Whether there is something to be bisected: two blocks and a vertex.
    pub(crate) fn is_divisible(&self) -> bool
        ensures { IsTrue result → (2 ≤ self.now.blocks) × (0 < self.now.vertices) }
    {
        self.blocks >= 2 && self.vertices > 0
    }

    /// The limit of a side of so many blocks, where each block may have `limit`: the slack is shared
    /// evenly over the levels of the recursion.
    fn side_limit(&self, total: u64, blocks: u32, limit: u64) -> u64 {
        let all = u64::from(self.blocks);
        let side = u64::from(blocks);
        let most = limit.saturating_mul(side);
        if blocks == 1 && self.blocks == 2 {
            return most;
        }
        let depth = u64::from(u32::BITS - (self.blocks - 1).leading_zeros());
        let slack = limit.saturating_mul(all).saturating_sub(total) / depth.max(1);
        let share = total.saturating_add(slack).saturating_mul(side) / all;
        share.saturating_add(1).min(most)
    }

    /// The side of a vertex at first: the second one, but where it is fixed to a block of the first.
    fn first_side(&self, v: u32) -> u32
        requires { v < self.now.vertices }
        ensures { result < 2 }
    {
        let fix = self.fixes.get(v);
        if fix < self.first.saturating_add(self.low_blocks()) {
            0
        } else {
            1
        }
    }

    /// The sides at first.
    fn first_sides(&self, alloc: Global) -> Result<Labels, NoMemory>
        ensures { IfOk result (λ sides. sides ≡ record { count = self.now.vertices; bound = 2 }) }
    {
        let mut sides = Labels::start(alloc, self.vertices, 2, 1)?;
        for v in 0..self.vertices {
            sides.set(v, self.first_side(v));
        }
        Ok(sides)
    }

    /// Whether each vertex is fixed, or takes no part.
    fn fixed(&self, alloc: Global) -> Result<Cells<bool>, NoMemory>
        ensures { IfOk result (λ fixed. fixed ≡ self.now.vertices) }
    {
        let mut fixed = Cells::of(vec![in alloc; false; self.vertices as usize]?);
        for v in 0..self.vertices {
            fixed.set(v, self.fixes.get(v) != FREE);
        }
        Ok(fixed)
    }

    /// A copy of the weights.
    fn copied_weights(&self, alloc: Global) -> Result<Cells<u64>, NoMemory>
        ensures { IfOk result (λ weights. weights ≡ self.now.vertices) }
    {
        let mut weights = Cells::of(vec![in alloc; 0u64; self.vertices as usize]?);
        for v in 0..self.vertices {
            weights.set(v, self.weights.get(v));
        }
        Ok(weights)
    }

    /// The load to which the first side is grown: its share, or at every other try a drawn load
    /// with which both sides are within their limits.
    fn target(&self, attempt: u32, total: u64, limits: (u64, u64), word: u32) -> u64 {
        let share = total.saturating_mul(u64::from(self.low_blocks())) / u64::from(self.blocks);
        let least = total.saturating_sub(limits.1);
        let most = limits.0.min(total);
        if attempt % 2 == 0 || most <= least {
            return share;
        }
        let steps = (most - least).saturating_mul(u64::from(word % 1024)) / 1024;
        least.saturating_add(steps)
    }

    /// The limits of the two sides.
    fn limits(&self, total: u64, limit: u64) -> (u64, u64) {
        (
            self.side_limit(total, self.low_blocks(), limit),
            self.side_limit(total, self.high_blocks(), limit),
        )
    }

    /// A candidate of two sides.
    fn halving(
        &self,
        alloc: Global,
        h: &Hypergraph,
        edges: &Edges,
        limits: (u64, u64),
        draws: Draws,
    ) -> Result<Halving, NoMemory>
        requires part { self.now.vertices ≡ vertex_count h.now }
        requires edges { edges.now.bound ≡ vertex_count h.now }
        requires vertices { 0 < self.now.vertices }
        ensures { IfOk result (λ search. search ≡ record {
          vertices = self.now.vertices;
          nets = net_count h.now;
          blocks = 2;
        }) }
    {
        let weights = self.copied_weights(alloc)?;
        let fixed = self.fixed(alloc)?;
        let limits = Cells::of(vec![in alloc; limits.0, limits.1]?);
        Halving::start(alloc, h, edges, weights, fixed, limits, draws)
    }

    /// A candidate of all blocks, each with the same limit.
    pub(crate) fn search_all(
        &self,
        alloc: Global,
        h: &Hypergraph,
        limit: u64,
        draws: Draws,
    ) -> Result<Search, NoMemory>
        requires part { self.now.vertices ≡ vertex_count h.now }
        requires vertices { 0 < self.now.vertices }
        ensures { IfOk result (λ search. search ≡ record {
          vertices = self.now.vertices;
          nets = net_count h.now;
          blocks = self.now.blocks;
        }) }
    {
        let weights = self.copied_weights(alloc)?;
        let fixed = self.fixed(alloc)?;
        let limits = Cells::of(vec![in alloc; limit; self.blocks as usize]?);
        Search::start(alloc, h, weights, fixed, self.blocks, limits, draws)
    }

    /// The last block for each vertex, but that of its fix where it is fixed.
    pub(crate) fn last_block(&self, alloc: Global) -> Result<Labels, NoMemory>
        ensures { IfOk result (λ labels. labels ≡ record { count = self.now.vertices; bound = self.now.blocks }) }
    {
        let last = self.blocks - 1;
        let mut labels = Labels::start(alloc, self.vertices, self.blocks, last)?;
        for v in 0..self.vertices {
            labels.set(v, self.fixes.get(v).min(last));
        }
        Ok(labels)
    }

    /// Bisects the part, of which the small nets are edges, by the best of some tries.
    pub(crate) fn bisect(
        &self,
        alloc: Global,
        h: &Hypergraph,
        edges: &Edges,
        limit: u64,
        draws: Draws,
    ) -> Result<Labels, NoMemory>
        requires part { self.now.vertices ≡ vertex_count h.now }
        requires edges { edges.now.bound ≡ vertex_count h.now }
        requires vertices { 0 < self.now.vertices }
        ensures { IfOk result (λ sides. sides ≡ record { count = self.now.vertices; bound = 2 }) }
    {
        let total = self.total();
        let limits = self.limits(total, limit);
        let start = self.first_sides(alloc)?;
        let mut best = self.first_sides(alloc)?;
        let mut search = self.halving(alloc, h, edges, limits, draws)?;
        let mut least = (u64::MAX, i64::MAX);
        for attempt in 0..TRIES {
            let word = search.word();
            let target = self.target(attempt, total, limits, word);
            search.attempt(h, edges, &start, target, limits.0)?;
            let rank = search.rank();
            if rank < least {
                least = rank;
                best.copy_from(search.labels());
            }
        }
        Ok(best)
    }

    /// Numbers the vertices of a side that take part; the others get the number of all vertices.
    /// Answers how many there are.
    pub(crate) fn number(&self, sides: &Labels, side: u32, numbers: &mut Labels) -> u32
        requires sides { sides.now.count ≡ self.now.vertices }
        requires numbers { numbers.old ≡ record { count = self.now.vertices; bound = self.now.vertices + 1 } }
        ensures same { numbers.new ≡ numbers.old }
        ensures count { result ≤ self.now.vertices }
    {
        let mut count = 0;
        for v in 0..self.vertices {
            if sides.get(v) == side && self.fixes.get(v) != IDLE {
                numbers.set(v, count);
                count += 1;
            } else {
                numbers.set(v, self.vertices);
            }
        }
        count
    }

    /// The part of the vertices that are numbered below `count`, which goes into the blocks of a side.
    pub(crate) fn side(
        &self,
        alloc: Global,
        numbers: &Labels,
        count: u32,
        side: u32,
    ) -> Result<Frame, NoMemory>
        requires numbers { numbers.now.count ≡ self.now.vertices }
        requires vertices { 0 < self.now.vertices }
        requires two { 2 ≤ self.now.blocks }
        ensures vertices { IfOk result (λ frame. frame.vertices ≡ count) }
        ensures whole { IfOk result (λ frame. frame.whole ≡ self.now.whole) }
        ensures all { IfOk result (λ frame. frame.all ≡ self.now.all) }
    {
        let all = self.all;
        let low = self.blocks / 2;
        let mut frame = if side == 0 {
            Frame::start(alloc, count, self.whole, all, self.first, low)?
        } else {
            Frame::start(
                alloc,
                count,
                self.whole,
                all,
                self.first + low,
                self.blocks - low,
            )?
        };
        self.describe_side(numbers, count, &mut frame);
        Ok(frame)
    }

    /// Describes the vertices that are numbered below `count` in a part of so many vertices.
    fn describe_side(&self, numbers: &Labels, count: u32, frame: &mut Frame)
        requires numbers { numbers.now.count ≡ self.now.vertices }
        requires vertices { frame.old.vertices ≡ count }
        requires whole { frame.old.whole ≡ self.now.whole }
        ensures { frame.new ≡ frame.old }
    {
        for v in 0..self.vertices {
            let number = numbers.get(v);
            if number < count {
                frame.describe(
                    number,
                    self.names.get(v),
                    self.weights.get(v),
                    self.fixes.get(v),
                );
            }
        }
    }

    /// Labels all vertices by the first block of the part.
    pub(crate) fn settle(&self, labels: &mut Labels)
        requires { labels.old ≡ record { count = self.now.whole; bound = self.now.all } }
        ensures { labels.new ≡ labels.old }
    {
        for v in 0..self.vertices {
            labels.set(self.names.get(v), self.first);
        }
    }
}
