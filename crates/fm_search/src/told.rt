//! Which vertices moves of a round were told to: what was known of them at its opening may not hold any more.

ghost use Rattle.std.specs.Prelude.{◌<◌};
ghost use Rattle.hg_defs.specs.Hypergraph.{vertex_count};

use crate::reading::MOST_PINS;
use hg_base::NoMemory;
use incidence::Hypergraph;
use std::alloc::Global;
use std::sync::atomic::AtomicU64;
use std::sync::atomic::Ordering::SeqCst;

/// The vertices to which some worker told a move since the round opened: a bit for each, 64 in a word.
#[derive(Drop)]
pub(crate) struct Told {
    words: Vec<AtomicU64>,
}

/// The bit of a vertex in its word.
fn bit_of(v: u32) -> u64 {
    1u64 << (v % 64)
}

impl Told {
    /// No vertex of so many was told of a move.
    pub(crate) fn none(alloc: Global, vertices: u32) -> Result<Self, NoMemory> {
        let count = vertices as usize / 64 + 1;
        let mut words = Vec::with_capacity(alloc, count)?;
        for _word in 0..count {
            words.push(AtomicU64::new(0))?;
        }
        Ok(Told { words })
    }

    /// Whether a vertex was told of a move.
    pub(crate) fn has(&self, v: u32) -> bool {
        match self.words.get(v as usize / 64) {
            Some(word) => word.load(SeqCst) & bit_of(v) != 0,
            None => true,
        }
    }

    /// Notes that a vertex is told of a move, and answers whether it is the first one. Its bit is read first, since most
    /// are set already, and to set one takes longer.
    pub(crate) fn add(&self, v: u32) -> bool {
        let bit = bit_of(v);
        match self.words.get(v as usize / 64) {
            Some(word) => word.load(SeqCst) & bit == 0 && word.fetch_or(bit, SeqCst) & bit == 0,
            None => false,
        }
    }

    /// Notes the pins of a vertex's nets, but for large ones, where the vertex moved and nobody is told.
    pub(crate) fn add_around(&self, h: &Hypergraph, v: u32)
        requires { v < vertex_count h.now }
    {
        for e in h.nets_of(v) {
            let pins = h.pins(*e);
            if pins.len() > MOST_PINS {
                continue;
            }
            for u in pins {
                let _first = self.add(*u);
            }
        }
    }
}
