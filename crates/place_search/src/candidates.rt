//! The candidates of a hypergraph.

ghost use Rattle.std.specs.Prelude.{◌≡◌, ◌<◌, ◌≤◌, IfOk};
ghost use Rattle.hg_defs.specs.Hypergraph.{vertex_count};
ghost use Rattle.hg_defs.specs.Partition.{IsPartition};
ghost use Rattle.place_search.specs.Shapes.{Range, Shape, IsShapeOf};

use crate::cells::{Cells, Labels};
use crate::division::divided;
use crate::draws::Draws;
use crate::frame::{Frame, IDLE};
use crate::moves::Search;
use crate::rest::{Rest, is_idle};
use hg_base::{Blocks, NoMemory};
use incidence::Hypergraph;
use std::alloc::Global;
use std::marker::Model;
use std::thread::Threads;

/// How far the streams of random numbers of two candidates are apart.
const STREAMS: u64 = 1 << 10;

/// What all candidates for the blocks of one hypergraph share. It is seen as the numbers of its vertices
/// and blocks.
#[derive(Drop)]
pub struct Candidates {
    frame: Frame,
    rest: Rest,
}

impl Model for Candidates {
    ghost use Rattle.std.specs.Prelude.{◌≡◌, ◌<◌, ◌≤◌};
    ghost use Rattle.place_search.specs.Shapes.{Whole};

    ghost Value = { Whole };

    ghost view = { λ c. record { vertices = c.frame.vertices; blocks = c.frame.blocks } };

    ghost invariant = { λ c. (c.frame.whole ≡ c.frame.vertices) × (c.frame.all ≡ c.frame.blocks)
        × (c.rest ≡ c.frame.vertices) × (0 < c.frame.vertices) × (2 ≤ c.frame.blocks) };
}

/// All vertices of a hypergraph, those without nets idle and without weight.
fn frame_of(alloc: Global, h: &Hypergraph, k: u32) -> Result<Frame, NoMemory>
    requires some { 0 < k }
    requires vertices { 0 < vertex_count h.now }
    ensures { IfOk result (λ frame. frame ≡ record {
      vertices = vertex_count h.now;
      whole = vertex_count h.now;
      all = k;
      blocks = k;
    }) }
{
    let vertices = h.vertices();
    let mut frame = Frame::start(alloc, vertices, vertices, k, 0, k)?;
    for v in 0..vertices {
        if is_idle(h, v) {
            frame.describe(v, v, 0, IDLE);
        } else {
            frame.describe(v, v, h.vertex_weight(v), h.fix(v));
        }
    }
    Ok(frame)
}

/// Repairs and improves a candidate, and places the rest.
fn better(
    alloc: Global,
    h: &Hypergraph,
    rest: &Rest,
    search: &mut Search,
) -> Result<Blocks, NoMemory>
    requires suits { IsShapeOf h.now search.old }
    requires some { 0 < search.old.blocks }
    requires rest { rest.now ≡ vertex_count h.now }
    ensures { search.new ≡ search.old }
{
    search.repair(h)?;
    search.improve(h)?;
    let k = search.blocks();
    let mut loads = Cells::of(vec![in alloc; 0u64; k as usize]?);
    for b in 0..k {
        loads.set(b, search.load(b));
    }
    let mut labels = Labels::start(alloc, search.vertices(), k, 0)?;
    labels.copy_from(search.labels());
    rest.place(k, &mut loads, &mut labels);
    Ok(Blocks::from_vec(labels.into_vec()))
}

impl Candidates {
    /// The candidates for 2 and more blocks of a hypergraph that has a vertex.
    pub fn of(alloc: Global, h: &Hypergraph, k: u32) -> Result<Self, NoMemory>
        requires some { 2 ≤ k }
        requires vertices { 0 < vertex_count h.now }
        ensures { IfOk result (λ c. c ≡ record { vertices = vertex_count h.now; blocks = k }) }
    {
        let frame = frame_of(alloc, h, k)?;
        let rest = Rest::of(alloc, h)?;
        Ok(Candidates { frame, rest })
    }

    /// A candidate of this number: the first one is grown, the others are bisected, each bisection by two
    /// threads where that is asked for. It depends on the hypergraph, the numbers and the limit alone.
    pub fn tried<R: Threads + Sync>(
        &self,
        rt: &R,
        alloc: Global,
        h: &Hypergraph,
        limit: u64,
        seed: u64,
        number: u64,
        by_two: bool,
    ) -> Result<Blocks, NoMemory>
        requires { self.now.vertices ≡ vertex_count h.now }
    {
        let frame = &self.frame;
        let stream = number.wrapping_add(1).wrapping_mul(STREAMS);
        let mut search = frame.search_all(alloc, h, limit, Draws::start(seed, stream))?;
        if number == 0 {
            let start = frame.last_block(alloc)?;
            search.reset(h, &start);
            search.grow_all(h, limit)?;
        } else {
            let labels = divided(
                rt,
                alloc,
                h,
                frame,
                limit,
                seed,
                stream.wrapping_add(1),
                by_two,
            )?;
            search.reset(h, &labels);
        }
        better(alloc, h, &self.rest, &mut search)
    }

    /// A candidate of this number, which perturbs a partition. It depends on the hypergraph, the numbers,
    /// the limit and that partition alone.
    pub fn thrown(
        &self,
        alloc: Global,
        h: &Hypergraph,
        start: &[u32],
        limit: u64,
        seed: u64,
        number: u64,
    ) -> Result<Blocks, NoMemory>
        requires belongs { self.now.vertices ≡ vertex_count h.now }
        requires partition { IsPartition h.now self.now.blocks start.now }
    {
        let stream = u64::MAX.wrapping_sub(number);
        let mut search = self
            .frame
            .search_all(alloc, h, limit, Draws::start(seed, stream))?;
        let mut labels = Labels::start(alloc, h.vertices(), self.frame.blocks(), 0)?;
        labels.copy_slice(start);
        search.reset(h, &labels);
        search.scatter(h);
        better(alloc, h, &self.rest, &mut search)
    }
}
