//! The vertices without nets, which are placed last.

ghost use Rattle.std.specs.Prelude.{◌≡◌, ◌<◌, ◌≤◌, IfOk};
ghost use Rattle.hg_defs.specs.Hypergraph.{vertex_count};
ghost use Rattle.place_search.specs.Shapes.{Range};

use crate::cells::{Cells, Labels};
use hg_base::{FREE, NoMemory};
use incidence::Hypergraph;
use std::alloc::Global;
use std::cmp::Reverse;
use std::marker::Model;

/// A weight, the greatest first, and a vertex.
type Rank = (Reverse<u64>, u32);

/// The free vertices without nets, by falling weight.
#[derive(Drop)]
pub(crate) struct Rest {
    ranks: Vec<Rank>,
    vertices: u32,
}

impl Model for Rest {
    ghost use Rattle.std.specs.Prelude.{ℕ, ◌<◌, All};

    ghost Value = { ℕ };

    ghost view = { λ s. s.vertices };

    ghost invariant = { λ s. All (λ rank. rank.1 < s.vertices) s.ranks.items };
}

/// Whether a vertex is free and without nets.
pub(crate) fn is_idle(h: &Hypergraph, v: u32) -> bool
    requires { v < vertex_count h.now }
{
    h.fix(v) == FREE && h.nets_of(v).is_empty()
}

/// The least loaded of the blocks below `k`, the first at a tie.
fn least_loaded(loads: &Cells<u64>, k: u32) -> u32
    requires some { 0 < k }
    requires loads { loads.now ≡ k }
    ensures { result < k }
{
    let mut best = 0;
    for b in 1..k {
        if loads.get(b) < loads.get(best) {
            best = b;
        }
    }
    best
}

impl Rest {
    /// The free vertices of a hypergraph without nets.
    pub(crate) fn of(alloc: Global, h: &Hypergraph) -> Result<Self, NoMemory>
        ensures { IfOk result (λ rest. rest ≡ vertex_count h.now) }
    {
        let vertices = h.vertices();
        let mut rest = Rest {
            ranks: Vec::new(alloc),
            vertices,
        };
        for v in 0..vertices {
            if is_idle(h, v) {
                rest.add(h.vertex_weight(v), v)?;
            }
        }
        rest.sort();
        Ok(rest)
    }

    /// Adds a vertex.
    fn add(&mut self, weight: u64, v: u32) -> Result<(), NoMemory>
        requires { v < self.old }
        ensures { self.new ≡ self.old }
    {
        self.ranks.push((Reverse(weight), v))?;
        Ok(())
    }

    /// Sorts the vertices.
    fn sort(&mut self)
        ensures { self.new ≡ self.old }
    {
        self.ranks.sort_unstable();
    }

    /// Places the vertices one by one, each in the least loaded block.
    pub(crate) fn place(&self, k: u32, loads: &mut Cells<u64>, labels: &mut Labels)
        requires some { 0 < k }
        requires loads { loads.old ≡ k }
        requires labels { labels.old ≡ record { count = self.now; bound = k } }
        ensures { labels.new ≡ labels.old }
    {
        for rank in &self.ranks {
            let block = least_loaded(loads, k);
            labels.set(rank.1, block);
            loads.set(block, loads.get(block).saturating_add(rank.0.0));
        }
    }
}
