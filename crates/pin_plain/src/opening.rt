//! What a partition writes into its words before a round: no claim, no number, the names and the loads.

ghost use Rattle.std.specs.Prelude.{◌≡◌, ℕ, ◌+◌, ◌*◌, ◌/◌, ◌^◌, ◌<◌, ◌≤◌, length, slice_index};
ghost use Rattle.hg_defs.specs.Hypergraph.{vertex_count, net_count};
ghost use Rattle.pin_plain.specs.Counts.{counts_of, HasLayout, HoldsCounts, HaveSpreads};
ghost use Rattle.pin_plain.specs.Parted.{IsParted, IsLoaded};
ghost use Rattle.pin_plain.specs.Opened.{IsOpened, SameOutside, AreNamesFrom, IsFrontFrom};

use crew::each_chunk;
use incidence::Hypergraph;
use std::thread::Threads;

/// A thread writes so many words at least.
const LEAST_WORDS: usize = 65536;

/// Writes 0 into the words from one place up to before another one.
pub fn write_zeros(words: &mut [u64], from: usize, to: usize)
    requires ordered { from ≤ to }
    requires inside { to ≤ length words.old }
    ensures zeros { (i : ℕ) → from ≤ i → i < to → slice_index words.new i ≡ 0 }
    ensures others { SameOutside from to words.old words.new }
{
    for i in from..to {
        words[i] = 0;
    }
}

/// Writes the blocks of the vertices from a first one on into a run of the names.
fn name_run(blocks: &[u32], first: usize, names: &mut [u64])
    requires { first + length names.old ≤ length blocks.now }
    ensures { AreNamesFrom blocks.now first (length names.old) names.new }
{
    for i in 0..names.len() {
        names[i] = u64::from(blocks[first + i]);
    }
}

/// Writes a run of the words that stand before the loads, of which the first one has a place among them: zeros, and
/// then names.
fn write_run(blocks: &[u32], first: usize, part: &mut [u64])
    requires inside { first + length part.old ≤ 2 * length blocks.now + 2 }
    requires bounded { length blocks.now < 2 ^ 32 }
    ensures { IsFrontFrom blocks.now first (length part.old) part.new }
{
    let names_at = blocks.len() + 2;
    let zeros = names_at.saturating_sub(first).min(part.len());
    let (front, names) = part.split_at_mut(zeros);
    front.fill(0);
    name_run(blocks, (first + zeros).saturating_sub(names_at), names);
}

/// Writes the words that stand before the loads, so many by each thread.
fn write_runs<R: Threads + Sync>(rt: &R, blocks: &[u32], share: usize, front: &mut [u64])
    requires some { 0 < share }
    requires all { length front.old ≡ 2 * length blocks.now + 2 }
    requires bounded { length blocks.now < 2 ^ 32 }
    ensures { IsFrontFrom blocks.now 0 (2 * length blocks.now + 2) front.new }
{
    each_chunk(
        rt,
        front,
        share,
        &|first: usize, part: &mut [u64]|
            requires { (first + length part.now ≤ 2 * length blocks.now + 2) × (length blocks.now < 2 ^ 32) }
            ensures { IsFrontFrom blocks.entry.now first (length part.entry.now) part.exit.now }
        { write_run(blocks, first, part) },
    );
}

/// Writes the words that stand before the loads, in at most so many threads: no claim, no number, and the names.
fn write_front<R: Threads + Sync>(rt: &R, words: &mut [u64], blocks: &[u32], workers: u32)
    requires some { 1 ≤ workers }
    requires inside { 2 * length blocks.now + 2 ≤ length words.old }
    requires bounded { length blocks.now < 2 ^ 32 }
    ensures zeros { (i : ℕ) → i < length blocks.now + 2 → slice_index words.new i ≡ 0 }
    ensures names { (v : ℕ) → v < length blocks.now → slice_index words.new (length blocks.now + 2 + v) ≡ slice_index
        blocks.now v }
    ensures others { SameOutside 0 (2 * length blocks.now + 2) words.old words.new }
{
    let count = 2 * blocks.len() + 2;
    let share = count.div_ceil(workers as usize).max(LEAST_WORDS);
    let (front, _) = words.split_at_mut(count);
    write_runs(rt, blocks, share, front);
}

/// Writes the loads of the blocks, which begin at a place.
fn write_loads(words: &mut [u64], at: usize, loads: &[u64])
    requires { at + length loads.now ≤ length words.old }
    ensures written { (b : ℕ) → b < length loads.now → slice_index words.new (at + b) ≡ slice_index loads.now b }
    ensures others { SameOutside at (at + length loads.now) words.old words.new }
{
    for (b, load) in loads.iter().enumerate() {
        words[at + b] = *load;
    }
}

/// Writes what a round has beside the counts and spreads, in at most so many threads.
pub fn open_words<R: Threads + Sync>(
    rt: &R,
    words: &mut [u64],
    h: &Hypergraph,
    k: u32,
    blocks: &[u32],
    loads: &[u64],
    starts: &[u32],
    workers: u32,
)
    requires some { 1 ≤ workers }
    requires parted { IsParted h.now k blocks.now }
    requires loaded { IsLoaded h.now k blocks.now loads.now }
    requires laid { HasLayout h.now k starts.now words.old }
    requires counted { HoldsCounts h.now k words.old (counts_of h.now blocks.now) }
    requires spreads { HaveSpreads h.now k blocks.now (net_count h.now) words.old }
    ensures { IsOpened h.now k blocks.now words.new }
{
    let n = h.vertices() as usize;
    write_front(rt, words, blocks, workers);
    write_loads(words, 2 * n + 2, loads);
}
