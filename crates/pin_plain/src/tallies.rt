//! The counts of all nets and the number of blocks that each touches, made by one thread, or by several.

ghost use Rattle.std.specs.Prelude.{◌≡◌, ℕ, ◌+◌, ◌*◌, ◌/◌, ◌<◌, ◌≤◌, ◌^◌, All, length};
ghost use Rattle.std.specs.Thread.{IsSync};
ghost use Rattle.hg_defs.specs.Sums.{sum_below};
ghost use Rattle.hg_defs.specs.Hypergraph.{net_count, net_of};
ghost use Rattle.hg_defs.specs.Cost.{connectivity};
ghost use Rattle.hg_defs.specs.Pins.{present};
ghost use Rattle.hg_base.specs.Packed.{IsWidth, fields_of, count_at};
ghost use Rattle.pin_plain.specs.Counts.{net_bits, net_words, net_place, counts_of};
ghost use Rattle.pin_plain.specs.Counts.{all_words, HasStarts, HoldsCounts, HaveSpreads};
ghost use Rattle.pin_plain.specs.Parted.{IsParted};
ghost use Rattle.pin_plain.specs.Tallies.{HaveRoom, AreTallied};

use crate::counts::{count, count_net};
use crate::opening::write_zeros;
use hg_base::{BlockSet, bits_of, words_of};
use incidence::Hypergraph;
use std::thread::{Threads, join_mut};

/// A thread takes so many nets at least.
const LEAST_NETS: u32 = 8192;

/// The nets of a hypergraph as their pins are counted in `k` blocks: the block of each vertex, and where
/// the counts of each net start.
#[derive(Drop)]
pub struct Nets<'a> {
    pub h: &'a Hypergraph,
    pub k: u32,
    pub blocks: &'a [u32],
    pub starts: &'a [u32],
    pub ghost parted: { IsParted h.now k blocks.now },
    pub ghost placed: { HasStarts h.now k starts.now },
}

/// How many of `k` blocks have a count above 0.
fn touched_by_counts(words: &[u64], start: u32, bits: u32, k: u32) -> u64
    requires width { IsWidth bits }
    requires inside { (b : ℕ) → b < k → start + b / fields_of bits < length words.now }
    requires few { length words.now < 2 ^ 32 }
    ensures { result ≡ sum_below (λ b. present (count_at words.now start bits b)) k }
{
    let mut touched = 0;
    for b in 0..k {
        touched += u64::from(count(words, start, bits, b) > 0);
    }
    touched
}

/// How many blocks, each below 256, the pins touch.
fn touched_by_pins(blocks: &[u32], pins: &[u32]) -> u64
    requires pins { All (λ v. v < length blocks.now) pins.now }
    requires blocks { All (λ b. b < 256) blocks.now }
    ensures { result ≡ connectivity blocks.now pins.now }
{
    let mut set = BlockSet::new();
    let mut touched = 0;
    for v in pins {
        touched += u64::from(set.insert(blocks[*v as usize]));
    }
    touched
}

/// How many blocks a net touches, by its counts, which start at a place, or by its pins, whichever are fewer.
fn touched(nets: &Nets<'_>, e: u32, words: &[u64], start: u32) -> u64
    requires net { e < net_count nets.now.h.now }
    requires inside { start + net_words nets.now.h.now nets.now.k e ≤ length words.now }
    requires few { length words.now < 2 ^ 32 }
    requires counted { (b : ℕ) → b < nets.now.k → count_at words.now start (net_bits nets.now.h.now e) b ≡ counts_of
        nets.now.h.now nets.now.blocks.now e b }
    ensures { result ≡ connectivity nets.now.blocks.now (net_of nets.now.h.now e).pins }
{
    let pins = nets.h.pins(e);
    if nets.k as usize <= pins.len() {
        touched_by_counts(words, start, bits_of(pins.len() as u32), nets.k)
    } else {
        touched_by_pins(nets.blocks, pins)
    }
}

/// Counts the pins of a run of nets anew, and writes 64 and the number of blocks that each touches before its
/// counts. The first of the words has a place among the words of all nets.
fn tally_run(nets: &Nets<'_>, from: u32, to: u32, place: u32, words: &mut [u64])
    requires { HaveRoom nets.now.h.now nets.now.k from to place words.old }
    ensures { AreTallied nets.now.h.now nets.now.k nets.now.blocks.now from to place words.new }
{
    for e in from..to {
        let pins = nets.h.pins(e);
        let size = pins.len() as u32;
        let start = nets.starts[e as usize] - place;
        let end = start + words_of(size, nets.k);
        write_zeros(words, start as usize, end as usize);
        count_net(words, start, bits_of(size), pins, nets.blocks);
        let touched = touched(nets, e, words, start);
        words[start as usize - 1] = 64 + touched;
    }
}

/// Tallies a run of nets by a thread for each share of it: this one starts all others, one after the other,
/// and takes the last share. Threads that are started by several at once are at times put on one processor.
#[cycle(shares)]
fn tally_shares<R: Threads + Sync>(
    rt: &R,
    nets: &Nets<'_>,
    share: u32,
    from: u32,
    to: u32,
    place: u32,
    words: &mut [u64],
)
    requires some { 0 < share }
    requires room { HaveRoom nets.now.h.now nets.now.k from to place words.old }
    ensures { AreTallied nets.now.h.now nets.now.k nets.now.blocks.now from to place words.new }
{
    if to - from <= share {
        tally_run(nets, from, to, place, words);
        return;
    }
    let mid = from + share;
    let cut = nets.starts[mid as usize] - 1;
    let (first, others) = words.split_at_mut((cut - place) as usize);
    beside(rt, nets, share, from, place, first, mid, to, cut, others);
}

/// Tallies the first share in a new thread, and the others from this one.
#[cycle(shares)]
fn beside<R: Threads + Sync>(
    rt: &R,
    nets: &Nets<'_>,
    share: u32,
    from: u32,
    place: u32,
    first: &mut [u64],
    mid: u32,
    to: u32,
    cut: u32,
    others: &mut [u64],
)
    requires some { (0 < share) × (from < mid) × (mid < to) }
    requires first { HaveRoom nets.now.h.now nets.now.k from mid place first.old }
    requires others { HaveRoom nets.now.h.now nets.now.k mid to cut others.old }
    ensures first { AreTallied nets.now.h.now nets.now.k nets.now.blocks.now from mid place first.new }
    ensures others { AreTallied nets.now.h.now nets.now.k nets.now.blocks.now mid to cut others.new }
{
    let mut front = ||
        requires { HaveRoom nets.now.h.now nets.now.k from mid place first.now }
        ensures { AreTallied nets.entry.now.h.now nets.entry.now.k nets.entry.now.blocks.now from mid place
            first.exit.now }
    { tally_run(nets, from, mid, place, first) };
    let mut back = ||
        requires { IsSync R.row × (0 < share) × HaveRoom nets.now.h.now nets.now.k mid to cut others.now }
        ensures { AreTallied nets.entry.now.h.now nets.entry.now.k nets.entry.now.blocks.now mid to cut
            others.exit.now }
    { tally_shares(rt, nets, share, mid, to, cut, others) };
    join_mut(rt, &mut front, &mut back);
}

/// Counts the pins of all nets, and the blocks that each net touches, whatever the words were.
pub fn tally(nets: &Nets<'_>, words: &mut [u64])
    requires { length words.old ≡ all_words nets.now.h.now nets.now.k }
    ensures counted { HoldsCounts nets.now.h.now nets.now.k words.new (counts_of nets.now.h.now nets.now.blocks.now) }
    ensures spreads { HaveSpreads nets.now.h.now nets.now.k nets.now.blocks.now (net_count nets.now.h.now) words.new }
{
    tally_run(nets, 0, nets.h.nets(), 0, words);
}

/// How many nets each of at most so many threads takes, where none takes fewer than the least number.
pub fn share_of(nets: u32, workers: u32, least: u32) -> u32
    requires some { 1 ≤ workers }
    requires least { 0 < least }
    ensures { 0 < result }
{
    let threads = workers.min(nets / least).max(1);
    nets.div_ceil(threads).max(1)
}

/// Does what [`tally`] does in at most so many threads, and in no more than one for each 8,192 nets.
pub fn tally_with<R: Threads + Sync>(rt: &R, nets: &Nets<'_>, workers: u32, words: &mut [u64])
    requires some { 1 ≤ workers }
    requires all { length words.old ≡ all_words nets.now.h.now nets.now.k }
    ensures counted { HoldsCounts nets.now.h.now nets.now.k words.new (counts_of nets.now.h.now nets.now.blocks.now) }
    ensures spreads { HaveSpreads nets.now.h.now nets.now.k nets.now.blocks.now (net_count nets.now.h.now) words.new }
{
    let count = nets.h.nets();
    let share = share_of(count, workers, LEAST_NETS);
    tally_shares(rt, nets, share, 0, count, 0, words);
}
