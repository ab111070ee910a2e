//! Blocks that are grown out of another one, and vertices that are thrown into a block.

ghost use Rattle.std.specs.Prelude.{◌≡◌, ℕ, ◌+◌, ◌<◌, ◌≤◌, ◌^◌, IfOk, IfSome};
ghost use Rattle.place_search.specs.Shapes.{Range, Shape, IsShapeOf};

use crate::cells::Labels;
use crate::moves::Search;
use gain_heap::Offer;
use hg_base::NoMemory;
use incidence::Hypergraph;

/// How many offers are looked at for a vertex at most.
const MOST_OFFERS: u32 = 1 << 24;

/// The most pins of a net through which a ball grows.
const MOST_PINS: usize = 50;

impl Search {
    /// A vertex of a block that isn't locked, from a drawn one on.
    pub(crate) fn drawn_from(&mut self, block: u32) -> Option<u32>
        requires { 0 < self.old.vertices }
        ensures same { self.new ≡ self.old }
        ensures vertex { IfSome result (λ v. v < self.old.vertices) }
    {
        let start = self.draw_vertex();
        self.first_from(start, self.vertices(), block)
            .or(self.first_from(0, start, block))
    }

    /// A drawn vertex.
    fn draw_vertex(&mut self) -> u32
        requires { 0 < self.old.vertices }
        ensures same { self.new ≡ self.old }
        ensures vertex { result < self.old.vertices }
    {
        let vertices = self.vertices();
        self.agenda.below(vertices)
    }

    /// The first vertex from `low` up to `high` that is in a block and isn't locked.
    fn first_from(&self, low: u32, high: u32, block: u32) -> Option<u32>
        requires { high ≤ self.now.vertices }
        ensures { IfSome result (λ v. v < self.now.vertices) }
    {
        for v in low..high {
            if !self.is_locked(v) && self.tables.block(v) == block {
                return Some(v);
            }
        }
        None
    }

    /// Puts a vertex into the queue by its gain in a block.
    fn offer_to(&mut self, v: u32, block: u32, tie: i64) -> Result<(), NoMemory>
        requires vertex { v < self.old.vertices }
        requires block { block < self.old.blocks }
        ensures { self.new ≡ self.old }
    {
        let gain = self.tables.gain(v, block);
        self.agenda.push(Offer {
            gain,
            tie,
            vertex: v,
        })
    }

    /// Whether a block comes nearer to a load by a vertex, and stays within the most.
    fn comes_nearer(&self, v: u32, block: u32, target: u64, most: u64) -> bool
        requires vertex { v < self.now.vertices }
        requires block { block < self.now.blocks }
    {
        let before = self.tables.load(block);
        let after = before.saturating_add(self.tables.weight(v));
        after <= most && after.saturating_sub(target) <= target.saturating_sub(before)
    }

    /// Takes the vertex of the block `from` that gains most in another block from the queue, and
    /// locks it. Those that don't bring the other block nearer to its load are locked, too.
    fn next_grown(
        &mut self,
        block: u32,
        from: u32,
        target: u64,
        most: u64,
    ) -> Result<Option<u32>, NoMemory>
        requires block { block < self.old.blocks }
        ensures same { self.new ≡ self.old }
        ensures vertex { IfOk result (λ next. IfSome next (λ v. v < self.old.vertices)) }
    {
        for _ in 0..MOST_OFFERS {
            let Some(
                Offer {
                    gain,
                    tie,
                    vertex: v,
                },
            ) = self.pop()
            else {
                return Ok(None);
            };
            if self.is_locked(v) || self.tables.block(v) != from {
                continue;
            }
            if self.tables.gain(v, block) < gain {
                self.offer_to(v, block, tie)?;
                continue;
            }
            self.lock(v);
            if self.comes_nearer(v, block, target, most) {
                return Ok(Some(v));
            }
        }
        Ok(None)
    }

    /// Puts the vertices of a block of which a gain has risen into the queue.
    fn offer_touched_of(&mut self, block: u32, from: u32) -> Result<(), NoMemory>
        requires { block < self.old.blocks }
        ensures { self.new ≡ self.old }
    {
        for _ in 0..self.vertices() {
            let Some(v) = self.take_touched() else {
                break;
            };
            if !self.is_locked(v) && self.tables.block(v) == from {
                let tie = i64::from(self.agenda.word());
                self.offer_to(v, block, tie)?;
            }
        }
        Ok(())
    }

    /// Grows a block out of another one to a load, from a vertex on; where nothing is left to grow
    /// to, from a drawn one on. No locked vertex moves.
    pub(crate) fn grow(
        &mut self,
        h: &Hypergraph,
        block: u32,
        from: u32,
        target: u64,
        most: u64,
    ) -> Result<(), NoMemory>
        requires suits { IsShapeOf h.now self.old }
        requires vertices { 0 < self.old.vertices }
        requires block { block < self.old.blocks }
        ensures { self.new ≡ self.old }
    {
        self.begin();
        for _ in 0..self.vertices() {
            if self.tables.load(block) >= target {
                break;
            }
            let Some(v) = self.grown_or_drawn(block, from, target, most)? else {
                break;
            };
            self.shift(h, v, block);
            self.offer_touched_of(block, from)?;
        }
        Ok(())
    }

    /// The next vertex from the queue or, where it is empty, a drawn one, which is locked.
    fn grown_or_drawn(
        &mut self,
        block: u32,
        from: u32,
        target: u64,
        most: u64,
    ) -> Result<Option<u32>, NoMemory>
        requires vertices { 0 < self.old.vertices }
        requires block { block < self.old.blocks }
        ensures same { self.new ≡ self.old }
        ensures vertex { IfOk result (λ next. IfSome next (λ v. v < self.old.vertices)) }
    {
        if let Some(v) = self.next_grown(block, from, target, most)? {
            return Ok(Some(v));
        }
        let Some(v) = self.drawn_from(from) else {
            return Ok(None);
        };
        self.offer_to(v, block, 0)?;
        self.next_grown(block, from, target, most)
    }

    /// Grows all blocks but the last one out of it, each to its share of what is left.
    pub(crate) fn grow_all(&mut self, h: &Hypergraph, most: u64) -> Result<(), NoMemory>
        requires suits { IsShapeOf h.now self.old }
        requires vertices { 0 < self.old.vertices }
        requires blocks { 0 < self.old.blocks }
        ensures { self.new ≡ self.old }
    {
        let last = self.blocks() - 1;
        for block in 0..last {
            let left = self
                .tables
                .load(last)
                .saturating_add(self.tables.load(block));
            self.grow(h, block, last, left / u64::from(last - block + 1), most)?;
        }
        Ok(())
    }

    /// Adds the pins of a net to the vertices that are written down, while those are fewer than `most`.
    fn add_pins(&mut self, h: &Hypergraph, e: u32, count: u32, most: u32) -> u32
        requires suits { IsShapeOf h.now self.old }
        requires net { e < self.old.nets }
        requires count { count ≤ most }
        requires most { most ≤ self.old.vertices }
        ensures same { self.new ≡ self.old }
        ensures count { result ≤ most }
    {
        let mut count = count;
        let pins = h.pins(e);
        if pins.len() > MOST_PINS {
            return count;
        }
        for u in pins {
            if count < most && !self.is_locked(*u) {
                self.write_down(count, *u);
                count += 1;
            }
        }
        count
    }

    /// Locks a vertex and writes it down at a place.
    fn write_down(&mut self, place: u32, v: u32)
        requires place { place < self.old.vertices }
        requires vertex { v < self.old.vertices }
        ensures { self.new ≡ self.old }
    {
        self.lock(v);
        self.agenda.write_down(place, v);
    }

    /// Writes down a ball of vertices round a drawn one, and answers how many there are.
    fn ball(&mut self, h: &Hypergraph, most: u32) -> u32
        requires suits { IsShapeOf h.now self.old }
        requires some { 0 < most }
        requires most { most ≤ self.old.vertices }
        ensures same { self.new ≡ self.old }
        ensures count { result ≤ self.old.vertices }
    {
        self.begin();
        let start = self.draw_vertex();
        self.write_down(0, start);
        let mut count = 1;
        for place in 0..most {
            if place >= count || count >= most {
                break;
            }
            for e in h.nets_of(self.agenda.written(place)) {
                count = self.add_pins(h, *e, count, most);
            }
        }
        count
    }

    /// Throws a ball of vertices into a drawn block, as far as there is room.
    pub(crate) fn scatter(&mut self, h: &Hypergraph)
        requires suits { IsShapeOf h.now self.old }
        requires vertices { 0 < self.old.vertices }
        requires blocks { 0 < self.old.blocks }
        ensures { self.new ≡ self.old }
    {
        let share = self.agenda.below(30) + 10;
        let most = (self.vertices() / share).max(2).min(self.vertices());
        let count = self.ball(h, most);
        let blocks = self.blocks();
        let block = self.agenda.below(blocks);
        self.begin();
        for place in 0..count {
            self.throw(h, place, block);
        }
    }

    /// Throws the vertex at a place into a block, where it is free and there is room.
    fn throw(&mut self, h: &Hypergraph, place: u32, block: u32)
        requires suits { IsShapeOf h.now self.old }
        requires place { place < self.old.vertices }
        requires block { block < self.old.blocks }
        ensures { self.new ≡ self.old }
    {
        let v = self.agenda.written(place);
        if !self.is_locked(v)
            && self
                .tables
                .has_room(block, self.tables.weight(v), self.heaviest())
        {
            self.tables.shift(h, v, block);
        }
    }
}
