//! The numbers that a partition is asked for.

ghost use Rattle.std.specs.Prelude.{◌≤◌, ◌^◌};

/// Into how many blocks, `k`, and how uneven they may be: `eps` thousandths.
#[derive(Clone, Copy)]
pub(crate) struct Balance {
    pub k: u32,
    pub eps: u32,
    pub ghost some: { 2 ≤ k },
    pub ghost few: { k ≤ 256 },
    pub ghost near: { eps ≤ 100000 },
}

/// How many workers there are, from 1 to 64.
#[derive(Clone, Copy)]
pub(crate) struct Workers {
    pub count: u32,
    pub ghost some: { 1 ≤ count },
    pub ghost few: { count ≤ 64 },
}

/// A run on a made hypergraph: how many vertices it has, and into how many blocks it is cut.
#[derive(Clone, Copy)]
pub(crate) struct Trial {
    pub vertices: u32,
    pub k: u32,
    pub ghost least: { 1 ≤ vertices },
    pub ghost most: { vertices ≤ 2 ^ 22 },
    pub ghost some: { 2 ≤ k },
    pub ghost few: { k ≤ 256 },
}
