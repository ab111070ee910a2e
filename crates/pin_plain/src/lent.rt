//! What a partition lends to those who score the moves of its vertices.

ghost use Rattle.std.specs.Prelude.{All, length, ◌≤◌, ◌<◌, ◌^◌};
ghost use Rattle.pin_plain.specs.Parted.{IsTold, IsLoaded};

use hg_base::Objective;
use incidence::Hypergraph;

/// The hypergraph of a partition into `k` blocks, the limit on a load, the blocks, their loads, and the
/// pin counts: where those of each net start, and their words.
#[derive(Drop)]
pub struct Lent<'a> {
    pub h: &'a Hypergraph,
    pub k: u32,
    pub limit: u64,
    pub blocks: &'a [u32],
    pub loads: &'a [u64],
    pub starts: &'a [u32],
    pub words: &'a [u64],
    pub ghost told: { IsTold h.now k blocks.now starts.now words.now },
    pub ghost loaded: { IsLoaded h.now k blocks.now loads.now },
}

/// A net as its moves are scored: its pins, the blocks of all vertices, and where its counts stand.
#[derive(Drop)]
pub struct Scored<'a> {
    pub objective: Objective,
    pub weight: u64,
    pub pins: &'a [u32],
    pub blocks: &'a [u32],
    pub start: u32,
    pub bits: u32,
    pub ghost small: { length pins.now ≤ 2 ^ 25 },
    pub ghost pinned: { All (λ v. v < length blocks.now) pins.now },
    pub ghost below: { All (λ b. b < 256) blocks.now },
}
