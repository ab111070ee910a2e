//! The orders in which the named placements take the free vertices.

ghost use Rattle.std.specs.Prelude.{◌≡◌, ◌<◌, map, length, IsPermutation, IsSorted, IfOk};
ghost use Rattle.hg_defs.specs.Placement as placements;
ghost use Rattle.hg_defs.specs.Sorting.{lower_first};
ghost use Rattle.initial_place.specs.Drawn.{draws_of};

use hg_base::FREE;
use incidence::Hypergraph;
use rand_core::utils::NextWord;
use rand_pcg::Lcg64Xsh32;
use rayon::prelude::*;
use std::alloc::{AllocError, Global};
use std::thread::Threads;

/// The free vertices by rising words of the generator of this seed and stream. Each vertex draws
/// one word, in rising number, fixed or not; at equal words the lower number goes first.
pub(crate) fn drawn_order<R: Threads + Sync>(
    rt: &R,
    alloc: Global,
    h: &Hypergraph,
    seed: u64,
    stream: u64,
    workers: u32,
) -> Result<Vec<u32>, AllocError>
    ensures order { IfOk result (λ order. order.items ≡ placements.drawn_order h.now seed stream) }
{
    let mut draws = drawn(alloc, h, seed, stream)?;
    sort_draws(rt, draws.as_mut_slice(), workers);
    vertices_of(alloc, &draws)
}

/// Sorts pairs, by threads where there are several workers.
fn sort_draws<R: Threads + Sync>(rt: &R, draws: &mut [(u32, u32)], workers: u32)
    ensures permutation { IsPermutation draws.old draws.new }
    ensures len { length draws.new ≡ length draws.old }
    ensures sorted { IsSorted lower_first draws.new }
{
    if workers == 1 {
        draws.sort_unstable();
    } else {
        par_sort_unstable(rt, draws);
    }
}

/// The vertices that drew, in the same order.
fn vertices_of(alloc: Global, draws: &[(u32, u32)]) -> Result<Vec<u32>, AllocError>
    ensures { IfOk result (λ order. order.items ≡ map (λ draw. draw.1) draws.now) }
{
    draws.iter().map(|draw| draw.1).collect(alloc)
}

/// The free vertices beside the words that they drew.
fn drawn(
    alloc: Global,
    h: &Hypergraph,
    seed: u64,
    stream: u64,
) -> Result<Vec<(u32, u32)>, AllocError>
    ensures { IfOk result (λ draws. draws.items ≡ draws_of h.now seed stream) }
{
    let mut words = Lcg64Xsh32::new(seed, stream);
    let mut draws = Vec::new(alloc);
    for v in 0..h.vertices() {
        let word = words.next_word();
        if h.fix(v) == FREE {
            draws.push((word, v))?;
        }
    }
    Ok(draws)
}
