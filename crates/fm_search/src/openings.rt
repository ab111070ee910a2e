//! What the vertices of a level may do, as it was read last, and what of it is forgotten where a round opens.

ghost use Rattle.std.specs.Prelude.{◌≡◌, ℕ, ◌^◌, ◌≤◌, All, [], length, OnOk, vec_len};
ghost use Rattle.hg_defs.specs.Hypergraph.{vertex_count};
ghost use Rattle.fm_search.specs.Opened.{IsBelow};

use crate::cells::{BLANK, Cell, start_of};
use crate::opening::Opening;
use crate::reading::MOST_PINS;
use hg_base::NoMemory;
use incidence::Hypergraph;
use move_table::Terms;
use std::alloc::Global;

/// Whole rows are kept of levels where they have so many cells at most, which take 12 megabytes.
const MOST_ROW_CELLS: usize = 1 << 19;

/// Forgets what vertices may do that stand in other blocks than before, and what those on their nets may, but for large
/// ones. The blocks are then those where they stand. Answers how many vertices were forgotten, or less.
fn forget_moved(h: &Hypergraph, terms: &Terms, blocks: &mut [u32], all: &mut [Opening]) -> u32
    requires belongs { terms.now.part.hyper ≡ h.now }
    requires known { length blocks.old ≡ vertex_count h.now }
    requires long { length all.old ≡ vertex_count h.now }
    requires below { All (IsBelow terms.now.part.k) all.old }
    ensures known { length blocks.new ≡ length blocks.old }
    ensures long { length all.new ≡ length all.old }
    ensures below { All (IsBelow terms.now.part.k) all.new }
{
    let mut forgotten = 0u32;
    'vertices: for v in 0..h.vertices() {
        let block = terms.part.blocks()[v as usize];
        if blocks[v as usize] == block {
            continue;
        }
        blocks[v as usize] = block;
        all[v as usize] = Opening::Unread;
        'nets: for e in h.nets_of(v) {
            let pins = h.pins(*e);
            if pins.len() > MOST_PINS {
                continue;
            }
            'pins: for u in pins {
                if let Opening::Unread = all[*u as usize] {
                    continue;
                }
                all[*u as usize] = Opening::Unread;
                forgotten = forgotten.saturating_add(1);
            }
        }
    }
    forgotten
}

/// What vertices may do, their whole rows on small levels of more than two blocks, and the blocks where they stood when
/// it was read.
#[derive(Drop)]
pub(crate) struct Openings {
    pub(crate) all: Vec<Opening>,
    pub(crate) rows: Vec<Cell>,
    blocks: Vec<u32>,
}

impl Openings {
    /// Nothing is read.
    pub(crate) fn none(alloc: Global) -> Self
        ensures { result.all.items ≡ [] }
    {
        Openings {
            all: Vec::new(alloc),
            rows: Vec::new(alloc),
            blocks: Vec::new(alloc),
        }
    }

    /// Makes room for all vertices, of which none is read.
    fn fill(&mut self, blocks: &[u32], k: u32) -> Result<(), NoMemory>
        requires few { length blocks.now ≤ 2 ^ 22 }
        requires blocks { k ≤ 256 }
        ensures below { (blocks : ℕ) → All (IsBelow blocks) self.new.all.items }
        ensures full { OnOk result (vec_len self.new.all ≡ length blocks.now) }
        ensures known { OnOk result (vec_len self.new.blocks ≡ length blocks.now) }
    {
        self.all.clear();
        self.rows.clear();
        self.blocks.clear();
        self.blocks.extend_from_slice(blocks)?;
        self.all.resize(blocks.len(), Opening::Unread)?;
        let cells = start_of(blocks.len() as u32, k);
        if k > 2 && cells <= MOST_ROW_CELLS {
            self.rows.resize(cells, BLANK)?;
        }
        Ok(())
    }

    /// Forgets what may have changed since it was read. Answers how many vertices are forgotten, or less.
    pub(crate) fn forget(&mut self, h: &Hypergraph, terms: &Terms) -> Result<u32, NoMemory>
        requires belongs { terms.now.part.hyper ≡ h.now }
        requires below { All (IsBelow terms.now.part.k) self.old.all.items }
        ensures below { All (IsBelow terms.now.part.k) self.new.all.items }
        ensures full { OnOk result (vec_len self.new.all ≡ vertex_count h.now) }
    {
        let blocks = terms.part.blocks();
        let vertices = h.vertices();
        if self.all.len() != blocks.len() || self.blocks.len() != blocks.len() {
            self.fill(blocks, terms.part.k())?;
            return Ok(vertices);
        }
        Ok(forget_moved(
            h,
            terms,
            self.blocks.as_mut_slice(),
            self.all.as_mut_slice(),
        ))
    }
}
