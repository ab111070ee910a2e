//! The small nets of a hypergraph as the edges of a graph.
//!
//! A net of three pins that is cut parts two of its three pairs, so each pair as an edge of the net's weight tells twice
//! what it costs, whichever side its pins are on. A net of two pins is one edge of twice its weight.

ghost use Rattle.std.specs.Prelude.{◌≡◌, ℕ, ◌+◌, ◌<◌, ◌≤◌, ◌^◌, length, All, IfOk, IfSome};
ghost use Rattle.hg_defs.specs.Hypergraph.{vertex_count, net_count};
ghost use Rattle.place_search.specs.Shapes.{Range};

use crate::cells::Cells;
use crate::listed::Listed;
use hg_base::NoMemory;
use incidence::Hypergraph;
use std::alloc::Global;
use std::marker::Model;

/// The most pins of a small net.
pub(crate) const MOST_SMALL: usize = 3;

/// What a vertex has in common with another one.
#[derive(Clone, Copy)]
pub(crate) struct Edge {
    pub(crate) head: u32,
    pub(crate) weight: i64,
}

/// The edges of each vertex, each of another head.
#[derive(Drop)]
pub(crate) struct Edges {
    vertices: u32,
    ends: Cells<usize>,
    edges: Vec<Edge>,
}

impl Model for Edges {
    ghost use Rattle.std.specs.Prelude.{◌≡◌, ◌<◌, All, length};
    ghost use Rattle.place_search.specs.Shapes.{Range};

    ghost Value = { Range };

    ghost view = { λ s. record { count = length s.edges.items; bound = s.vertices } };

    ghost invariant = { λ s. (s.ends ≡ s.vertices) × All (λ edge. edge.head < s.vertices) s.edges.items };
}

/// Weights that are summed up by vertices.
#[derive(Drop)]
struct Sums {
    vertices: u32,
    weights: Cells<i64>,
    listed: Listed,
}

impl Model for Sums {
    ghost use Rattle.std.specs.Prelude.{◌≡◌, ℕ};

    ghost Value = { ℕ };

    ghost view = { λ s. s.vertices };

    ghost invariant = { λ s. (s.weights ≡ s.vertices) × (s.listed ≡ s.vertices) };
}

impl Sums {
    /// All sums are 0.
    fn start(alloc: Global, vertices: u32) -> Result<Self, NoMemory>
        requires { vertices < 2 ^ 31 }
        ensures { IfOk result (λ sums. sums ≡ vertices) }
    {
        Ok(Sums {
            vertices,
            weights: Cells::of(vec![in alloc; 0i64; vertices as usize]?),
            listed: Listed::start(alloc, vertices)?,
        })
    }

    /// Adds to the sum of a vertex.
    fn add(&mut self, v: u32, weight: i64)
        requires { v < self.old }
        ensures { self.new ≡ self.old }
    {
        self.weights
            .set(v, self.weights.get(v).wrapping_add(weight));
        self.listed.add(v);
    }

    /// Adds the weight of a net to each of its pins but `v`, where it is small.
    fn add_net(&mut self, h: &Hypergraph, e: u32, v: u32)
        requires vertices { self.old ≡ vertex_count h.now }
        requires net { e < net_count h.now }
        ensures { self.new ≡ self.old }
    {
        let pins = h.pins(e);
        if pins.len() > MOST_SMALL {
            return;
        }
        let weight = h.net_weight(e) as i64;
        let weight = if pins.len() < MOST_SMALL {
            weight.wrapping_mul(2)
        } else {
            weight
        };
        for u in pins {
            if *u != v {
                self.add(*u, weight);
            }
        }
    }

    /// Takes a vertex with its sum, which is 0 afterwards.
    fn take(&mut self) -> Option<Edge>
        ensures same { self.new ≡ self.old }
        ensures head { IfSome result (λ edge. edge.head < self.old) }
    {
        let head = self.listed.take()?;
        let weight = self.weights.get(head);
        self.weights.set(head, 0);
        Some(Edge { head, weight })
    }
}

impl Edges {
    /// The edges of the small nets of a hypergraph.
    pub(crate) fn of(alloc: Global, h: &Hypergraph) -> Result<Self, NoMemory>
        ensures { IfOk result (λ edges. edges.bound ≡ vertex_count h.now) }
    {
        let vertices = h.vertices();
        let mut sums = Sums::start(alloc, vertices)?;
        let mut edges = Edges {
            vertices,
            ends: Cells::of(vec![in alloc; 0usize; vertices as usize]?),
            edges: Vec::new(alloc),
        };
        for v in 0..vertices {
            for e in h.nets_of(v) {
                sums.add_net(h, *e, v);
            }
            edges.add_row(v, &mut sums)?;
        }
        Ok(edges)
    }

    /// Adds an edge of the next vertex.
    fn push(&mut self, edge: Edge) -> Result<(), NoMemory>
        requires { edge.head < self.old.bound }
        ensures { self.new.bound ≡ self.old.bound }
    {
        self.edges.push(edge)?;
        Ok(())
    }

    /// Adds the edges of the next vertex.
    fn add_row(&mut self, v: u32, sums: &mut Sums) -> Result<(), NoMemory>
        requires vertex { v < self.old.bound }
        requires sums { sums.old ≡ self.old.bound }
        ensures bound { self.new.bound ≡ self.old.bound }
        ensures sums { sums.new ≡ sums.old }
    {
        for _ in 0..self.vertices {
            let Some(edge) = sums.take() else {
                break;
            };
            self.push(edge)?;
        }
        self.ends.set(v, self.edges.len());
        Ok(())
    }

    /// The place of the first edge of a vertex.
    pub(crate) fn start(&self, v: u32) -> usize
        requires { v < self.now.bound }
    {
        if v == 0 { 0 } else { self.ends.get(v - 1) }
    }

    /// The place behind the last edge of a vertex.
    pub(crate) fn end(&self, v: u32) -> usize
        requires { v < self.now.bound }
        ensures { result ≤ self.now.count }
    {
        self.ends.get(v).min(self.edges.len())
    }

    /// The edge at a place.
    pub(crate) fn edge(&self, place: usize) -> Edge
        requires { place < self.now.count }
        ensures { result.head < self.now.bound }
    {
        self.edges[place]
    }
}
