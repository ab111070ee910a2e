//! Pin counts packed into words: one count raised or lowered, and the pins of one net counted or moved.

ghost use Rattle.std.specs.Prelude.{◌≡◌, ◌≢◌, ℕ, ◌+◌, ◌*◌, ◌/◌, ◌%◌, ◌^◌, ◌<◌, ◌≤◌, All, length};
ghost use Rattle.std.specs.Prelude.{slice_index, IfOk, if◌then◌else◌, nat_eq};
ghost use Rattle.hg_base.specs.Packed.{count_at, IsWidth, fields_of};
ghost use Rattle.hg_defs.specs.Hypergraph.{vertex_count, net_count, Suits};
ghost use Rattle.hg_defs.specs.Partition.{block_of};
ghost use Rattle.hg_defs.specs.Moves.{moved};
ghost use Rattle.hg_defs.specs.Pins.{pins_in};
ghost use Rattle.pin_plain.specs.Counts.{all_words, counts_of, HasLayout, HasStarts, HasWidths, HoldsCounts, HaveSpreads};
ghost use Rattle.pin_plain.specs.Parted.{IsParted};

use hg_base::{NoMemory, bits_of, field, lower_field, place_of, raise_field, words_of};
use incidence::Hypergraph;
use std::alloc::Global;

/// The count of block `b`.
pub fn count(words: &[u64], start: u32, bits: u32, b: u32) -> u32
    requires width { IsWidth bits }
    requires inside { start + b / fields_of bits < length words.now }
    requires few { length words.now < 2 ^ 32 }
    ensures value { result ≡ count_at words.now start bits b }
{
    let (word, place) = place_of(bits, b);
    field(words[(start + word) as usize], bits, place) as u32
}

/// Raises the count of block `b` by one.
pub fn raise(words: &mut [u64], start: u32, bits: u32, b: u32)
    requires width { IsWidth bits }
    requires inside { start + b / fields_of bits < length words.old }
    requires few { length words.old < 2 ^ 32 }
    requires room { count_at words.old start bits b + 1 < 2 ^ bits }
    ensures counts { (c : ℕ) → count_at words.new start bits c ≡ count_at words.old start bits c +
        (if nat_eq c b then 1 else 0) }
    ensures others { (i : ℕ) → i ≢ start + b / fields_of bits → slice_index words.new i ≡ slice_index words.old i }
{
    let (word, place) = place_of(bits, b);
    let at = (start + word) as usize;
    words[at] = raise_field(words[at], bits, place);
}

/// Lowers the count of block `b` by one.
pub fn lower(words: &mut [u64], start: u32, bits: u32, b: u32)
    requires width { IsWidth bits }
    requires inside { start + b / fields_of bits < length words.old }
    requires few { length words.old < 2 ^ 32 }
    requires held { 0 < count_at words.old start bits b }
    ensures counts { (c : ℕ) → count_at words.new start bits c + (if nat_eq c b then 1 else 0) ≡ count_at words.old
        start bits c }
    ensures others { (i : ℕ) → i ≢ start + b / fields_of bits → slice_index words.new i ≡ slice_index words.old i }
{
    let (word, place) = place_of(bits, b);
    let at = (start + word) as usize;
    words[at] = lower_field(words[at], bits, place);
}

/// Counts the pins of one net in the blocks.
pub fn count_net(words: &mut [u64], start: u32, bits: u32, pins: &[u32], blocks: &[u32])
    requires width { IsWidth bits }
    requires few { length words.old < 2 ^ 32 }
    requires pins { All (λ v. v < length blocks.now) pins.now }
    requires inside { All (λ b. start + b / fields_of bits < length words.old) blocks.now }
    requires room { All (λ b. count_at words.old start bits b + length pins.now < 2 ^ bits) blocks.now }
    ensures counts { (b : ℕ) → count_at words.new start bits b ≡ count_at words.old start bits b + pins_in blocks.now
        pins.now b }
    ensures others { (i : ℕ) → All (λ b. i ≢ start + b / fields_of bits) blocks.now →
        slice_index words.new i ≡ slice_index words.old i }
{
    for v in pins {
        raise(words, start, bits, blocks[*v as usize]);
    }
}

/// Moves the pin of a vertex to another block in the counts of each of its nets, and in the number of blocks that
/// the net touches.
pub fn move_pin(
    h: &Hypergraph,
    k: u32,
    blocks: &[u32],
    starts: &[u32],
    widths: &[u8],
    words: &mut [u64],
    v: u32,
    to: u32,
)
    requires parted { IsParted h.now k blocks.now }
    requires laid { HasLayout h.now k starts.now words.old }
    requires wide { HasWidths h.now widths.now }
    requires counted { HoldsCounts h.now k words.old (counts_of h.now blocks.now) }
    requires spreads { HaveSpreads h.now k blocks.now (net_count h.now) words.old }
    requires vertex { v < vertex_count h.now }
    requires block { to < k }
    requires other { to ≢ block_of blocks.now v }
    ensures counted { HoldsCounts h.now k words.new (counts_of h.now (moved blocks.now v to)) }
    ensures spreads { HaveSpreads h.now k (moved blocks.now v to) (net_count h.now) words.new }
{
    prove!(to < k);
    let from = blocks[v as usize];
    for e in h.nets_of(v) {
        let start = starts[*e as usize];
        let bits = u32::from(widths[*e as usize]);
        let left = u64::from(count(words, start, bits, from) == 1);
        let joined = u64::from(count(words, start, bits, to) == 0);
        lower(words, start, bits, from);
        raise(words, start, bits, to);
        let spread = start as usize - 1;
        words[spread] = words[spread] + joined - left;
    }
}

/// Where the counts of each net stand: the word at which they start, and their width in bits.
#[derive(Drop)]
pub struct Layout {
    pub starts: Vec<u32>,
    pub widths: Vec<u8>,
    /// How many words there are in all.
    pub words: u32,
}

/// Lays out the counts of all nets for `k` blocks, with room for the other words of a round.
pub fn lay_out(alloc: Global, h: &Hypergraph, k: u32) -> Result<Layout, NoMemory>
    requires some { 2 ≤ k }
    requires few { k ≤ 256 }
    requires suits { Suits h.now k }
    ensures starts { IfOk result (λ l. HasStarts h.now k l.starts.items) }
    ensures widths { IfOk result (λ l. HasWidths h.now l.widths.items) }
    ensures words { IfOk result (λ l. l.words ≡ all_words h.now k) }
{
    let nets = h.nets();
    let mut starts = Vec::with_capacity(alloc, nets as usize)?;
    let mut widths = Vec::with_capacity(alloc, nets as usize)?;
    let mut words = 2 * h.vertices() + 2 + k;
    for e in 0..nets {
        let size = h.pins(e).len() as u32;
        starts.push(words + 1)?;
        widths.push(bits_of(size) as u8)?;
        words += 1 + words_of(size, k);
    }
    Ok(Layout {
        starts,
        widths,
        words,
    })
}
