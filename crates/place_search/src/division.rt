//! Recursive bisection: the parts of a hypergraph are parted in two until each of them is a block.

ghost use Rattle.std.specs.Prelude.{◌≡◌, ℕ, ◌+◌, ◌<◌, ◌≤◌, All, length, IfOk, OnOk, IfSome};
ghost use Rattle.hg_defs.specs.Hypergraph.{vertex_count, net_count, net_of};
ghost use Rattle.place_search.specs.Shapes.{Range, Whole};

use crate::cells::Labels;
use crate::draws::Draws;
use crate::edges::{Edges, MOST_SMALL};
use crate::frame::Frame;
use hg_base::{FlatHyper, NoMemory};
use incidence::Hypergraph;
use std::alloc::Global;
use std::marker::Model;
use std::thread::{self, Threads};

/// The most blocks that there are.
const MOST_BLOCKS: u64 = 1 << 8;

/// Puts the numbers of the pins of a net that are below `count` into a list.
fn number_pins(
    h: &Hypergraph,
    e: u32,
    numbers: &Labels,
    count: u32,
    pins: &mut Vec<u32>,
) -> Result<(), NoMemory>
    requires numbers { numbers.now.count ≡ vertex_count h.now }
    requires net { e < net_count h.now }
    ensures below { OnOk result (All (λ v. v < count) pins.new.items) }
    ensures few { OnOk result (length pins.new.items ≤ length (net_of h.now e).pins) }
{
    pins.clear();
    for u in h.pins(e) {
        let number = numbers.get(*u);
        if number < count {
            pins.push(number)?;
        }
    }
    Ok(())
}

/// The hypergraph of the vertices that are numbered below `count`, and of the nets with more than `few` of them. Its
/// vertices weigh 1 and are free, whatever they weigh here.
fn inner(
    alloc: Global,
    h: &Hypergraph,
    numbers: &Labels,
    count: u32,
    few: usize,
) -> Result<Hypergraph, NoMemory>
    requires numbers { numbers.now.count ≡ vertex_count h.now }
    requires count { count ≤ vertex_count h.now }
    ensures { IfOk result (λ inner. vertex_count inner ≡ count) }
{
    let _vertices = h.vertices();
    let mut flat = FlatHyper::start(alloc, count)?;
    let mut pins = Vec::new(alloc);
    for e in 0..h.nets() {
        number_pins(h, e, numbers, count, &mut pins)?;
        if pins.len() > few {
            flat.push_net(h.net_weight(e), pins.as_slice())?;
        }
    }
    Hypergraph::build(alloc, flat)
}

/// The nets of a hypergraph that are no edges.
fn large(alloc: Global, h: &Hypergraph) -> Result<Hypergraph, NoMemory>
    ensures { IfOk result (λ large. vertex_count large ≡ vertex_count h.now) }
{
    let vertices = h.vertices();
    let mut numbers = Labels::start(alloc, vertices, vertices + 1, 0)?;
    for v in 0..vertices {
        numbers.set(v, v);
    }
    inner(alloc, h, &numbers, vertices, MOST_SMALL)
}

/// A part that is to be bisected, with the nets inside it.
#[derive(Drop)]
struct Part {
    h: Hypergraph,
    frame: Frame,
}

impl Model for Part {
    ghost use Rattle.std.specs.Prelude.{◌≡◌, ◌<◌, ◌≤◌};
    ghost use Rattle.hg_defs.specs.Hypergraph.{vertex_count};
    ghost use Rattle.place_search.specs.Shapes.{Whole};

    ghost Value = { Whole };

    ghost view = { λ s. record { vertices = s.frame.whole; blocks = s.frame.all } };

    ghost invariant = { λ s. (s.frame.vertices ≡ vertex_count s.h) × (0 < s.frame.vertices) × (2 ≤ s.frame.blocks) };
}

/// The blocks of the vertices, and the parts that are still to be bisected.
#[derive(Drop)]
pub(crate) struct Division {
    vertices: u32,
    blocks: u32,
    limit: u64,
    labels: Labels,
    parts: Vec<Part>,
}

impl Model for Division {
    ghost use Rattle.std.specs.Prelude.{◌≡◌, All};
    ghost use Rattle.place_search.specs.Shapes.{Range, Whole};

    ghost Value = { Whole };

    ghost view = { λ s. record { vertices = s.vertices; blocks = s.blocks } };

    ghost invariant = { λ s.
        (s.labels ≡ record { count = s.vertices; bound = s.blocks })
        × All (λ part. part ≡ record { vertices = s.vertices; blocks = s.blocks }) s.parts.items };
}

impl Division {
    /// Nothing is divided yet.
    fn start(alloc: Global, vertices: u32, blocks: u32, limit: u64) -> Result<Self, NoMemory>
        requires { 0 < blocks }
        ensures { IfOk result (λ division. division ≡ record { vertices = vertices; blocks = blocks }) }
    {
        Ok(Division {
            vertices,
            blocks,
            limit,
            labels: Labels::start(alloc, vertices, blocks, 0)?,
            parts: Vec::new(alloc),
        })
    }

    /// Bisects a part.
    fn divide(
        &mut self,
        alloc: Global,
        h: &Hypergraph,
        frame: &Frame,
        draws: Draws,
    ) -> Result<(), NoMemory>
        requires part { frame.now.vertices ≡ vertex_count h.now }
        requires vertices { 0 < frame.now.vertices }
        requires two { 2 ≤ frame.now.blocks }
        requires whole { frame.now.whole ≡ self.old.vertices }
        requires all { frame.now.all ≡ self.old.blocks }
        ensures { self.new ≡ self.old }
    {
        let sides = bisected(alloc, h, frame, self.limit, draws)?;
        self.add_side(alloc, h, frame, &sides, 0)?;
        self.add_side(alloc, h, frame, &sides, 1)
    }

    /// Labels the vertices of a side where it is one block, and else adds it to the parts.
    fn add_side(
        &mut self,
        alloc: Global,
        h: &Hypergraph,
        frame: &Frame,
        sides: &Labels,
        side: u32,
    ) -> Result<(), NoMemory>
        requires part { frame.now.vertices ≡ vertex_count h.now }
        requires vertices { 0 < frame.now.vertices }
        requires two { 2 ≤ frame.now.blocks }
        requires whole { frame.now.whole ≡ self.old.vertices }
        requires all { frame.now.all ≡ self.old.blocks }
        requires sides { sides.now.count ≡ frame.now.vertices }
        ensures { self.new ≡ self.old }
    {
        let vertices = h.vertices();
        let mut numbers = Labels::start(alloc, vertices, vertices + 1, 0)?;
        let count = frame.number(sides, side, &mut numbers);
        let half = frame.side(alloc, &numbers, count, side)?;
        if half.is_divisible() {
            let h = inner(alloc, h, &numbers, count, 1)?;
            self.add(Part { h, frame: half })
        } else {
            half.settle(&mut self.labels);
            Ok(())
        }
    }

    /// The blocks of the vertices.
    fn into_labels(self) -> Labels
        ensures { result ≡ record { count = self.vertices; bound = self.blocks } }
    {
        let Division {
            vertices: _,
            blocks: _,
            limit: _,
            labels,
            parts: _,
        } = self;
        labels
    }

    /// Adds a part.
    fn add(&mut self, part: Part) -> Result<(), NoMemory>
        requires { part ≡ self.old }
        ensures { self.new ≡ self.old }
    {
        self.parts.push(part)?;
        Ok(())
    }

    /// Takes the part that was added last.
    fn take(&mut self) -> Option<Part>
        ensures same { self.new ≡ self.old }
        ensures part { IfSome result (λ part. part ≡ self.old) }
    {
        self.parts.pop()
    }

    /// Bisects the part that was added last, and answers whether there was one.
    fn divide_next(&mut self, alloc: Global, draws: Draws) -> Result<bool, NoMemory>
        ensures { self.new ≡ self.old }
    {
        let Some(part) = self.take() else {
            return Ok(false);
        };
        self.divide(alloc, &part.h, &part.frame, draws)?;
        Ok(true)
    }

    /// Bisects the parts until each of them is a block. Each bisection draws from another stream.
    fn finish(mut self, alloc: Global, seed: u64, stream: u64) -> Result<Labels, NoMemory>
        ensures { IfOk result (λ labels. labels ≡ record { count = self.vertices; bound = self.blocks }) }
    {
        for number in 0..self.blocks {
            let draws = Draws::start(seed, stream.wrapping_add(u64::from(number)));
            if !self.divide_next(alloc, draws)? {
                break;
            }
        }
        Ok(self.into_labels())
    }
}

/// The sides of a part that is bisected.
fn bisected(
    alloc: Global,
    h: &Hypergraph,
    frame: &Frame,
    limit: u64,
    draws: Draws,
) -> Result<Labels, NoMemory>
    requires part { frame.now.vertices ≡ vertex_count h.now }
    requires vertices { 0 < frame.now.vertices }
    ensures { IfOk result (λ sides. sides ≡ record { count = frame.now.vertices; bound = 2 }) }
{
    let edges = Edges::of(alloc, h)?;
    let large = large(alloc, h)?;
    frame.bisect(alloc, &large, &edges, limit, draws)
}

/// Finishes two divisions, by two threads where it is said.
fn finish_both<R: Threads + Sync>(
    rt: &R,
    alloc: Global,
    low: Division,
    high: Division,
    seed: u64,
    stream: u64,
    by_two: bool,
) -> Result<(Labels, Labels), NoMemory>
    ensures low { IfOk result (λ both. both.0 ≡ record { count = low.vertices; bound = low.blocks }) }
    ensures high { IfOk result (λ both. both.1 ≡ record { count = high.vertices; bound = high.blocks }) }
{
    let above = stream.wrapping_add(MOST_BLOCKS);
    if !by_two {
        let first = low.finish(alloc, seed, stream)?;
        return Ok((first, high.finish(alloc, seed, above)?));
    }
    let (first, second) = thread::join(
        rt,
        move || -> Result<Labels, NoMemory>
            ensures { IfOk result (λ labels. labels ≡ record { count = low.vertices; bound = low.blocks }) }
        { low.finish(alloc, seed, stream) },
        move || -> Result<Labels, NoMemory>
            ensures { IfOk result (λ labels. labels ≡ record { count = high.vertices; bound = high.blocks }) }
        { high.finish(alloc, seed, above) },
    );
    Ok((first?, second?))
}

/// Takes over the labels of the vertices of side 1.
fn take_high(vertices: u32, sides: &Labels, others: &Labels, labels: &mut Labels)
    requires sides { sides.now.count ≡ vertices }
    requires others { others.now ≡ labels.old }
    requires labels { labels.old.count ≡ vertices }
    ensures { labels.new ≡ labels.old }
{
    for v in 0..vertices {
        if sides.get(v) == 1 {
            labels.set(v, others.get(v));
        }
    }
}

/// Parts the vertices of a hypergraph into blocks within a limit by bisections, by two threads where it is said.
pub(crate) fn divided<R: Threads + Sync>(
    rt: &R,
    alloc: Global,
    h: &Hypergraph,
    frame: &Frame,
    limit: u64,
    seed: u64,
    stream: u64,
    by_two: bool,
) -> Result<Labels, NoMemory>
    requires part { frame.now.vertices ≡ vertex_count h.now }
    requires whole { frame.now.whole ≡ vertex_count h.now }
    requires vertices { 0 < vertex_count h.now }
    requires two { 2 ≤ frame.now.blocks }
    requires all { frame.now.all ≡ frame.now.blocks }
    ensures { IfOk result (λ labels. labels ≡ record { count = vertex_count h.now; bound = frame.now.blocks }) }
{
    let blocks = frame.blocks();
    let mut low = Division::start(alloc, h.vertices(), blocks, limit)?;
    let mut high = Division::start(alloc, h.vertices(), blocks, limit)?;
    let sides = bisected(alloc, h, frame, limit, Draws::start(seed, stream))?;
    low.add_side(alloc, h, frame, &sides, 0)?;
    high.add_side(alloc, h, frame, &sides, 1)?;
    let (mut labels, others) = finish_both(
        rt,
        alloc,
        low,
        high,
        seed,
        stream.wrapping_add(1),
        by_two,
    )?;
    take_high(h.vertices(), &sides, &others, &mut labels);
    Ok(labels)
}
