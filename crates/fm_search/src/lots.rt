//! From how many seeds a search starts.

ghost use Rattle.std.specs.Prelude.{◌<◌, All};
ghost use Rattle.hg_defs.specs.Hypergraph.{vertex_count};

use crate::reading::MOST_PINS;
use crate::streak::MOST_IN_VAIN;
use incidence::Hypergraph;

/// A search starts from so many seeds times blocks at most.
const MOST_SEED_CELLS: u64 = 1 << 16;

/// So many seeds aren't shared out: searches that begin near each other take each other's moves for gains, go on
/// for long, and are undone.
const FEW_SEEDS: u64 = 2048;

/// The neighbours of so many seeds are counted.
const SAMPLES: usize = 64;

/// How many neighbours a vertex has through nets, one as often as they share a net.
fn neighbours_of(h: &Hypergraph, v: u32) -> u64
    requires { v < vertex_count h.now }
{
    let mut count = 0u64;
    for e in h.nets_of(v) {
        let size = h.pins(*e).len();
        if size <= MOST_PINS {
            count = count.saturating_add(size.saturating_sub(1) as u64);
        }
    }
    count
}

/// How many vertices a search that gains nothing tells of its moves, as the neighbours of some seeds say.
fn told_in_vain(h: &Hypergraph, seeds: &[u32]) -> u64
    requires { All (λ v. v < vertex_count h.now) seeds.now }
{
    let step = (seeds.len() / SAMPLES).max(1);
    let mut neighbours = 0u64;
    let mut place = 0usize;
    for sample in 0..SAMPLES as u64 {
        if place >= seeds.len() {
            return neighbours.saturating_mul(u64::from(MOST_IN_VAIN)) / sample.max(1);
        }
        neighbours = neighbours.saturating_add(neighbours_of(h, seeds[place]));
        place = place.saturating_add(step);
    }
    neighbours.saturating_mul(u64::from(MOST_IN_VAIN)) / SAMPLES as u64
}

/// From how many seeds a search starts: from the share of a worker, or from a few where the share is less, and from as
/// many vertices as a search tells of its moves, since searches that tell the same ones read them all anew; but from
/// fewer where there are many blocks.
pub(crate) fn lot_size(h: &Hypergraph, seeds: &[u32], workers: u32, k: u32) -> u64
    requires { All (λ v. v < vertex_count h.now) seeds.now }
{
    let share = (seeds.len() as u64).div_ceil(u64::from(workers.max(1)));
    share
        .max(FEW_SEEDS)
        .max(told_in_vain(h, seeds))
        .min(MOST_SEED_CELLS / u64::from(k.max(1)))
}
