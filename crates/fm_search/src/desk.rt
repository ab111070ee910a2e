//! What a worker remembers while it searches. It is made once a pass, and used for all its searches.

ghost use Rattle.std.specs.Prelude.{◌≡◌, ◌≢◌, ◌*◌, ◌<◌, ◌≤◌, All, IfOk, IfSome, OnOk, vec_len};
ghost use Rattle.hg_defs.specs.Hypergraph.{vertex_count};
ghost use Rattle.fm_search.specs.Standing.{IsOf, size_for};
ghost use Rattle.fm_search.specs.Opened.{IsBelow};

use crate::cells::{BLANK, Cell, Used, start_of};
use crate::change::Change;
use crate::mover::Mover;
use crate::opening::{Known, Opening};
use crate::reading::{Choice, approach, best_block, read_vertex};
use crate::shared::Shared;
use crate::told::Told;
use gain_heap::{GainHeap, Offer};
use hg_base::NoMemory;
use incidence::Hypergraph;
use std::alloc::Global;
use std::marker::Model;

/// A worker keeps the cells of so many blocks at most, beside one row of them.
const MOST_CELLS: usize = 1 << 20;

/// What a worker remembers of a vertex.
#[derive(Clone, Copy)]
pub(crate) struct Mark {
    /// The search in which it was read or offered last.
    search: u32,
    /// Its row of cells; 0 where it was offered unread.
    row: u32,
    /// The round in which the worker moved it or found it taken.
    round: u32,
    /// Whether it waits to be offered.
    listed: bool,
}

/// Makes room for so many cells.
fn reach(cells: &mut Vec<Cell>, count: usize) -> Result<(), NoMemory>
    ensures kept { vec_len cells.old ≤ vec_len cells.new }
    ensures ok { OnOk result (count ≤ vec_len cells.new) }
{
    if cells.len() < count {
        cells.resize(count, BLANK)?;
    }
    Ok(())
}

/// Makes room for so many rows.
fn reach_rows(used: &mut Vec<Used>, count: usize) -> Result<(), NoMemory>
    ensures kept { vec_len used.old ≤ vec_len used.new }
    ensures ok { OnOk result (count ≤ vec_len used.new) }
{
    if used.len() < count {
        used.resize(count, Used::none())?;
    }
    Ok(())
}

/// What a worker remembers while it searches: a mark for each vertex, the search that walked each net last, and
/// for the vertices that were read in this search, or whose rows were drawn up, a row of cells and which of them are
/// used. Contracts see how large it is.
#[derive(Drop)]
pub(crate) struct Desk {
    alloc: Global,
    k: u32,
    search: u32,
    round: u32,
    next: u32,
    marks: Vec<Mark>,
    walked: Vec<u32>,
    cells: Vec<Cell>,
    used: Vec<Used>,
    listed: Vec<u32>,
    queue: GainHeap,
}

impl Model for Desk {
    ghost use Rattle.std.specs.Prelude.{◌≡◌, ◌+◌, ◌*◌, ◌<◌, ◌≤◌, All, vec_len};
    ghost use Rattle.fm_search.specs.Standing.{Size};

    ghost Value = { Size };

    ghost view = { λ d. record { vertices = vec_len d.marks; nets = vec_len d.walked; blocks = d.k } };

    ghost invariant = { λ d. (d.queue.vertices ≡ vec_len d.marks) × (d.k ≤ 256)
        × All (λ m. m.row * d.k + d.k ≤ vec_len d.cells) d.marks.items
        × All (λ m. m.row < vec_len d.used) d.marks.items
        × All (λ v. v < vec_len d.marks) d.listed.items };
}

impl Desk {
    /// Takes room for searches of a hypergraph and so many blocks, and leaves it to the worker to fill it.
    pub(crate) fn make(alloc: Global, h: &Hypergraph, k: u32) -> Result<Self, NoMemory>
        requires { k ≤ 256 }
        ensures { IfOk result (λ d. d.blocks ≡ k) }
    {
        Ok(Desk {
            alloc,
            k,
            search: 0,
            round: 0,
            next: 1,
            marks: Vec::with_capacity(alloc, h.vertices() as usize)?,
            walked: Vec::with_capacity(alloc, h.nets() as usize)?,
            cells: Vec::new(alloc),
            used: Vec::new(alloc),
            listed: Vec::new(alloc),
            queue: GainHeap::start(alloc, 0),
        })
    }

    /// Fills its room for the vertices and nets of a hypergraph, unless it is filled by now.
    pub(crate) fn fill(&mut self, h: &Hypergraph) -> Result<(), NoMemory>
        ensures blocks { self.new.blocks ≡ self.old.blocks }
        ensures full { OnOk result (self.new ≡ size_for h.now self.old.blocks) }
    {
        let (vertices, nets) = (h.vertices() as usize, h.nets() as usize);
        if self.marks.len() == vertices && self.walked.len() == nets {
            return Ok(());
        }
        let mark = Mark {
            search: 0,
            row: 0,
            round: 0,
            listed: false,
        };
        reach(&mut self.cells, self.k as usize)?;
        reach_rows(&mut self.used, 1)?;
        self.walked.resize(nets, 0)?;
        self.listed.clear();
        self.marks.resize(vertices, mark)?;
        self.queue = GainHeap::start(self.alloc, h.vertices());
        Ok(())
    }

    /// Begins a round, in which no vertex is gone yet.
    pub(crate) fn begin_round(&mut self)
        ensures { self.new ≡ self.old }
    {
        self.round = self.round.wrapping_add(1);
    }

    /// Begins a search, which has read nothing.
    pub(crate) fn begin_search(&mut self)
        ensures { self.new ≡ self.old }
    {
        self.search = self.search.wrapping_add(1);
        self.next = 1;
        self.queue.clear();
    }

    /// Whether the worker moved a vertex in this round, or found it taken.
    pub(crate) fn is_gone(&self, v: u32) -> bool
        requires { v < self.now.vertices }
    {
        self.marks[v as usize].round == self.round
    }

    /// A vertex was moved, or can't be.
    pub(crate) fn leave(&mut self, v: u32)
        requires { v < self.old.vertices }
        ensures { self.new ≡ self.old }
    {
        self.marks[v as usize].round = self.round;
    }

    /// Adds an offer.
    pub(crate) fn offer(&mut self, gain: i64, pull: i64, v: u32) -> Result<(), NoMemory>
        requires { v < self.old.vertices }
        ensures { self.new ≡ self.old }
    {
        self.queue.push(Offer {
            gain,
            tie: pull,
            vertex: v,
        })
    }

    /// Adds an offer of a vertex that isn't read in this search yet.
    pub(crate) fn offer_unread(&mut self, gain: i64, pull: i64, v: u32) -> Result<(), NoMemory>
        requires { v < self.old.vertices }
        ensures { self.new ≡ self.old }
    {
        let mark = &mut self.marks[v as usize];
        mark.search = self.search;
        mark.row = 0;
        self.offer(gain, pull, v)
    }

    /// Takes the highest offer.
    pub(crate) fn pop(&mut self) -> Option<Offer>
        ensures same { self.new ≡ self.old }
        ensures vertex { IfSome result (λ offer. offer.vertex < self.old.vertices) }
    {
        self.queue.pop()
    }

    /// Takes a vertex that was listed.
    pub(crate) fn unlist(&mut self) -> Option<u32>
        ensures same { self.new ≡ self.old }
        ensures vertex { IfSome result (λ v. v < self.old.vertices) }
    {
        let v = self.listed.pop()?;
        self.marks[v as usize].listed = false;
        Some(v)
    }

    /// Peeks at the nets of the listed vertices that will be read.
    pub(crate) fn approach(&self, shared: &Shared<'_>, mover: &mut Mover)
        requires belongs { IsOf shared.now.round.now mover.old }
        requires vertices { self.now.vertices ≡ vertex_count shared.now.h.now }
        ensures mover { mover.new ≡ mover.old }
    {
        'listed: for v in self.listed.as_slice() {
            if !self.is_read(*v) {
                approach(shared, mover, *v);
            }
        }
    }

    /// Walks a net, and tells whether it is the first time in this search.
    pub(crate) fn walk(&mut self, e: u32) -> bool
        requires { e < self.old.nets }
        ensures { self.new ≡ self.old }
    {
        let first = self.walked[e as usize] != self.search;
        self.walked[e as usize] = self.search;
        first
    }

    /// Takes a row for a vertex that has none. Tells whether there was one for it.
    fn take_row(&mut self, v: u32) -> Result<bool, NoMemory>
        requires { v < self.old.vertices }
        ensures { self.new ≡ self.old }
    {
        let row = self.next;
        let start = start_of(row, self.k);
        if start >= MOST_CELLS {
            return Ok(false);
        }
        reach(&mut self.cells, start + self.k as usize)?;
        reach_rows(&mut self.used, row as usize + 1)?;
        self.next = row.wrapping_add(1);
        let mark = &mut self.marks[v as usize];
        mark.search = self.search;
        mark.row = row;
        Ok(true)
    }

    /// Reads the gains of a vertex in `block` into its row, anew where it has one. Tells whether there was a
    /// row for it.
    pub(crate) fn read(
        &mut self,
        shared: &Shared<'_>,
        mover: &mut Mover,
        v: u32,
        block: u32,
    ) -> Result<bool, NoMemory>
        requires belongs { IsOf shared.now.round.now mover.old }
        requires blocks { self.old.blocks ≡ shared.now.k }
        requires marked { v < self.old.vertices }
        requires vertex { v < vertex_count shared.now.h.now }
        requires block { block < shared.now.k }
        ensures same { self.new ≡ self.old }
        ensures mover { mover.new ≡ mover.old }
    {
        if !self.is_read(v) && !self.take_row(v)? {
            return Ok(false);
        }
        let number = self.marks[v as usize].row;
        let start = start_of(number, self.k);
        let row = &mut self.cells.as_mut_slice()[start..start + self.k as usize];
        let used = &mut self.used[number as usize];
        *used = Used::none();
        read_vertex(shared, mover, row, used, v, block);
        Ok(true)
    }

    /// Where a vertex in `block` gains most, by its row.
    pub(crate) fn choose(
        &self,
        shared: &Shared<'_>,
        mover: &mut Mover,
        v: u32,
        block: u32,
    ) -> Option<Choice>
        requires belongs { IsOf shared.now.round.now mover.old }
        requires blocks { self.now.blocks ≡ shared.now.k }
        requires marked { v < self.now.vertices }
        requires vertex { v < vertex_count shared.now.h.now }
        requires block { block < shared.now.k }
        ensures mover { mover.new ≡ mover.old }
        ensures block { IfSome result (λ c. c.to < shared.now.k) }
        ensures other { IfSome result (λ c. c.to ≢ block) }
    {
        let number = self.marks[v as usize].row;
        let start = start_of(number, self.k);
        let row = &self.cells.as_slice()[start..start + self.k as usize];
        best_block(shared, mover, row, &self.used[number as usize], v, block)
    }

    /// Whether a vertex has a row in this search: it was read, or its row was drawn up.
    pub(crate) fn is_read(&self, v: u32) -> bool
        requires { v < self.now.vertices }
    {
        let mark = &self.marks[v as usize];
        mark.search == self.search && mark.row > 0
    }

    /// Changes the row of a vertex in `block` by a change on one of its nets.
    fn adjust(&mut self, v: u32, block: u32, change: &Change)
        requires vertex { v < self.old.vertices }
        requires from { change.now.from < self.old.blocks }
        requires to { change.now.to < self.old.blocks }
        ensures { self.new ≡ self.old }
    {
        let number = self.marks[v as usize].row;
        let start = start_of(number, self.k);
        let row = &mut self.cells.as_mut_slice()[start..start + self.k as usize];
        change.adjust(row, &mut self.used[number as usize], block);
    }

    /// Lets a vertex wait to be offered.
    fn list(&mut self, v: u32) -> Result<(), NoMemory>
        requires { v < self.old.vertices }
        ensures { self.new ≡ self.old }
    {
        self.marks[v as usize].listed = true;
        self.listed.push(v)?;
        Ok(())
    }

    /// Draws up the row of a vertex in `block` where it is known what the vertex may do: from its whole row, or else in
    /// two blocks, where only the difference of its cells matters, so that its own is left blank.
    pub(crate) fn draw_up(&mut self, known: &Known<'_>, v: u32, block: u32) -> Result<(), NoMemory>
        requires known { All (IsBelow self.old.blocks) known.now.openings.now }
        requires vertex { v < self.old.vertices }
        requires block { block < self.old.blocks }
        ensures { self.new ≡ self.old }
    {
        let Some(Opening::Moves(choice)) = known.openings.get(v as usize) else {
            return Ok(());
        };
        if !self.take_row(v)? {
            return Ok(());
        }
        let (number, length) = (self.marks[v as usize].row, self.k as usize);
        let start = start_of(number, self.k);
        let row = &mut self.cells.as_mut_slice()[start..start + length];
        let used = &mut self.used[number as usize];
        let from = start_of(v, self.k);
        if let Some(cells) = known.rows.get(from..from + length) {
            row.copy_from_slice(cells);
            *used = Used::all();
            return Ok(());
        }
        *used = Used::none();
        used.reach(row, block);
        used.reach(row, choice.to);
        let cell = &mut row[choice.to as usize];
        cell.weight = choice.gain;
        cell.pull = choice.pull;
        cell.nets = choice.nets;
        Ok(())
    }

    /// Tells a vertex in `block` of a change on one of its nets, and lists it where it was neither read nor offered
    /// yet or one of its gains may have risen. One without a row gets it off what is known of it, where that is given.
    pub(crate) fn tell(
        &mut self,
        known: &Known<'_>,
        told: &Told,
        v: u32,
        block: u32,
        change: &Change,
    ) -> Result<(), NoMemory>
        requires known { All (IsBelow self.old.blocks) known.now.openings.now }
        requires vertex { v < self.old.vertices }
        requires block { block < self.old.blocks }
        requires from { change.now.from < self.old.blocks }
        requires to { change.now.to < self.old.blocks }
        ensures { self.new ≡ self.old }
    {
        let mark = self.marks[v as usize];
        if mark.round == self.round {
            return Ok(());
        }
        if told.add(v) && !self.is_read(v) {
            self.draw_up(known, v, block)?;
        }
        if self.is_read(v) {
            self.adjust(v, block, change);
        }
        let rises = mark.search != self.search || change.raises(block);
        if rises && !mark.listed {
            self.list(v)?;
        }
        Ok(())
    }
}
