//! How many threads solve each pair of a wave.

ghost use Rattle.std.specs.Prelude.{◌≡◌, ◌+◌, ◌-◌, ◌*◌, ◌<◌, ◌≤◌, ◌⊎◌, length};

use crate::touched::Touched;
use std::cmp::Reverse;

/// A pair is large where its blocks have room for so many of the lightest vertices: it takes some milliseconds then.
const MANY_VERTICES: u64 = 2048;

/// So many other pairs are solved in the time in which a large one is.
const PAIRS_A_LARGE_ONE: usize = 4;

/// How the threads of a wave are shared out. Its large pairs stand at its first places.
#[derive(Clone, Copy)]
pub(crate) struct Shares {
    /// How many workers start.
    pub(crate) workers: usize,
    large: usize,
    /// How many threads solve a large pair.
    threads: u32,
    ghost some: { 1 ≤ threads },
}

/// How many pairs at the front of a wave, where those with the most room stand, are large.
fn count_large(pairs: &[Touched], least: u64) -> usize
    ensures { result ≤ length pairs.now }
{
    let enough = MANY_VERTICES.saturating_mul(least);
    for place in 0..pairs.len() {
        let (Reverse((room, _)), _) = pairs[place];
        if room < enough {
            return place;
        }
    }
    pairs.len()
}

impl Shares {
    /// The shares of the pairs of a wave among at most so many workers, and so many threads in all. Beside large pairs
    /// only as many workers start as solve the others in the same time, and they leave the other threads to these.
    pub(crate) fn of(pairs: &[Touched], least: u64, workers: usize, threads: u32) -> Shares
        requires some { 0 < workers }
        requires pairs { 0 < length pairs.now }
        ensures some { 0 < result.workers }
        ensures few { result.workers ≤ workers }
        ensures within { (result.workers + result.large * (result.threads - 1) ≤ threads) ⊎ (result.threads ≡ 1) }
    {
        let large = count_large(pairs, least);
        let others = pairs.len() - large;
        let wanted = if large == 0 {
            others
        } else {
            large + others.div_ceil(PAIRS_A_LARGE_ONE)
        };
        let busy = wanted.min(workers);
        let spare = (threads as usize).saturating_sub(busy);
        Shares {
            workers: busy,
            large,
            threads: 1 + (spare / large.max(1)) as u32,
        }
    }

    /// How many threads solve the pair at a place.
    pub(crate) fn threads_of(self, place: usize) -> u32
        ensures { 1 ≤ result }
    {
        if place < self.large { self.threads } else { 1 }
    }
}
