//! Scores of the moves of one vertex: what its nets save for each block that they touch.

ghost use Rattle.std.specs.Prelude.{◌≡◌, ◌≢◌, ℕ, ◌+◌, ◌*◌, ◌/◌, ◌<◌, ◌≤◌, ◌^◌, ◌-◌, All, length};
ghost use Rattle.std.specs.Prelude.{slice_index, if◌then◌else◌, pos, IfSome, option_map, true};
ghost use Rattle.std.specs.Option.{ForSome};
ghost use Rattle.hg_base.specs.Packed as packed;
ghost use Rattle.hg_base.specs.Packed.{IsWidth, count_at, fields_of};
ghost use Rattle.hg_defs.specs.Pins.{pins_in};
ghost use Rattle.hg_defs.specs.Sums.{total};
ghost use Rattle.hg_defs.specs.Hypergraph.{vertex_count, net_count};
ghost use Rattle.hg_defs.specs.Partition.{block_of};
ghost use Rattle.hg_defs.specs.Incidence.{nets_of};
ghost use Rattle.hg_defs.specs.Moves.{best_block, gain};
ghost use Rattle.pin_plain.specs.Quiet.{IsQuiet};
ghost use Rattle.pin_plain.specs.Savings.{net_saved, net_lost};
ghost use Rattle.pin_plain.specs.Scores.{IsClear, is_between};

use crate::counts::count;
use crate::gains::{lost, most_and_lost, saved};
use crate::lent::{Lent, Scored};
use crate::seen::Seen;
use crate::sums::Sums;
use hg_base::{FREE, bits_of, field, words_of};

/// What a vertex may do: its best block and the gain there, where there is one, and whether no other block
/// would make the partition cheaper, with room or without.
#[derive(Drop)]
pub struct Sought {
    pub best: Option<(u32, u64)>,
    pub quiet: bool,
}

/// What is kept while moves are scored: a sum for each block, and which blocks a net has touched.
#[derive(Drop)]
pub struct Scores {
    sums: Sums,
    seen: Seen,
}

impl Scores {
    ghost use Rattle.pin_plain.specs.ScoredNets.{amount_of};

    /// Nothing is scored yet.
    pub fn new() -> Self
        ensures { IsClear result.sums }
    {
        Scores {
            sums: Sums::new(),
            seen: Seen::new(),
        }
    }

    /// Adds what a net saves for each block of its pins but `from`, pin by pin.
    fn add_by_pins(&mut self, net: &Scored<'_>, words: &[u64], from: u32)
        requires width { IsWidth net.now.bits }
        requires few { length words.now < 2 ^ 32 }
        requires inside { All (λ b. net.now.start + b / fields_of net.now.bits < length words.now) net.now.blocks.now }
        requires counts { All (λ b. count_at words.now net.now.start net.now.bits b ≡ pins_in net.now.blocks.now
            net.now.pins.now b) net.now.blocks.now }
        requires room { (b : ℕ) → slice_index self.old.sums b + amount_of net.now b < 2 ^ 64 }
        ensures sums { (b : ℕ) → b ≢ from → slice_index self.new.sums b ≡ slice_index self.old.sums b + amount_of
            net.now b }
        ensures own { slice_index self.new.sums from ≡ slice_index self.old.sums from }
    {
        let size = net.pins.len() as u32;
        self.seen.begin();
        for v in net.pins {
            let block = net.blocks[*v as usize];
            if block == from {
                continue;
            }
            if !self.seen.mark(block) {
                continue;
            }
            let pins = count(words, net.start, net.bits, block);
            self.sums
                .add(block, net.weight * saved(net.objective, pins, size));
        }
    }

    /// Adds what a net saves for the blocks whose counts stand in one word, the first of them given.
    fn add_word(&mut self, net: &Scored<'_>, word: u64, first: u32, from: u32)
        requires width { IsWidth net.now.bits }
        requires first { first ≤ 2 ^ 20 }
        requires counts { (place : ℕ) → place < fields_of net.now.bits
            → packed.field word net.now.bits place ≡ pins_in net.now.blocks.now net.now.pins.now (first + place) }
        requires room { (place : ℕ) → place < fields_of net.now.bits
            → slice_index self.old.sums (first + place) + amount_of net.now (first + place) < 2 ^ 64 }
        ensures sums { (b : ℕ) → b ≢ from
            → slice_index self.new.sums b ≡ slice_index self.old.sums b
            + (if is_between first (fields_of net.now.bits) b then amount_of net.now b else 0) }
        ensures own { slice_index self.new.sums from ≡ slice_index self.old.sums from }
    {
        let size = net.pins.len() as u32;
        for place in 0..64 / net.bits {
            let pins = field(word, net.bits, place) as u32;
            let block = first + place;
            if pins == 0 {
                continue;
            }
            if block == from {
                continue;
            }
            self.sums
                .add(block, net.weight * saved(net.objective, pins, size));
        }
    }

    /// Adds what a net saves for each block but `from`, by the words of its counts.
    fn add_by_words(&mut self, net: &Scored<'_>, words: &[u64], from: u32)
        requires width { IsWidth net.now.bits }
        requires few { length words.now ≤ 256 }
        requires counts { (i place : ℕ) → i < length words.now → place < fields_of net.now.bits
            → packed.field (slice_index words.now i) net.now.bits place
            ≡ pins_in net.now.blocks.now net.now.pins.now (i * fields_of net.now.bits + place) }
        requires all { (b : ℕ) → length words.now * fields_of net.now.bits ≤ b → pins_in net.now.blocks.now
            net.now.pins.now b ≡ 0 }
        requires room { (b : ℕ) → slice_index self.old.sums b + amount_of net.now b < 2 ^ 64 }
        ensures sums { (b : ℕ) → b ≢ from → slice_index self.new.sums b ≡ slice_index self.old.sums b + amount_of
            net.now b }
        ensures own { slice_index self.new.sums from ≡ slice_index self.old.sums from }
    {
        let fields = 64 / net.bits;
        for i in 0..words.len() {
            let word = words[i];
            if word == 0 {
                continue;
            }
            self.add_word(net, word, i as u32 * fields, from);
        }
    }

    /// Adds what a net saves for each block but `from`, and answers what it loses where a pin leaves `from`.
    ///
    /// Blocks are found by the pins or by the words of the counts, whichever are fewer.
    fn add_net(&mut self, lent: &Lent<'_>, e: u32, from: u32) -> u64
        requires net { e < net_count lent.now.h.now }
        requires from { from < lent.now.k }
        requires room { (b : ℕ) → slice_index self.old.sums b + net_saved lent.now.h.now lent.now.blocks.now b e < 2 ^
            64 }
        ensures lost { result ≡ net_lost lent.now.h.now lent.now.blocks.now from e }
        ensures sums { (b : ℕ) → b ≢ from
            → slice_index self.new.sums b ≡ slice_index self.old.sums b + net_saved lent.now.h.now lent.now.blocks.now
            b e }
        ensures own { slice_index self.new.sums from ≡ slice_index self.old.sums from }
    {
        let pins = lent.h.pins(e);
        let size = pins.len() as u32;
        let net = Scored {
            objective: lent.h.objective(),
            weight: lent.h.net_weight(e),
            pins,
            blocks: lent.blocks,
            start: lent.starts[e as usize],
            bits: bits_of(size),
        };
        let own = count(lent.words, net.start, net.bits, from);
        let loss = net.weight * lost(net.objective, own, size);
        if own == size {
            return loss;
        }
        let words = words_of(size, lent.k);
        if size < words {
            self.add_by_pins(&net, lent.words, from);
        } else {
            let start = net.start as usize;
            self.add_by_words(&net, &lent.words[start..start + words as usize], from);
        }
        loss
    }

    /// The best block of a vertex and the gain there, where there is one, and whether the vertex is quiet. Most vertices
    /// are, and most of these are told by what their nets save at most, before the blocks are told apart.
    pub fn seek(&mut self, lent: &Lent<'_>, v: u32) -> Sought
        requires clear { IsClear self.old.sums }
        requires vertex { v < vertex_count lent.now.h.now }
        ensures best { option_map (λ m. m.0) result.best ≡ best_block lent.now.h.now lent.now.limit lent.now.blocks.now
            v lent.now.k }
        ensures gain { IfSome result.best (λ m. pos m.1 ≡ gain lent.now.h.now lent.now.blocks.now v m.0) }
        ensures bound { IfSome result.best (λ m. m.1 < 2 ^ 55) }
        ensures quiet { result.quiet ≡ true → IsQuiet lent.now.h.now lent.now.k lent.now.blocks.now v }
        ensures clear { IsClear self.new.sums }
    {
        if lent.h.fix(v) != FREE {
            return Sought {
                best: None,
                quiet: true,
            };
        }
        let (most, down) = most_and_lost(lent, v);
        if most <= down {
            return Sought {
                best: None,
                quiet: true,
            };
        }
        let weight = lent.h.vertex_weight(v);
        let loss = self.score(lent, v);
        let top = self.sums.top(
            lent.loads,
            lent.limit,
            weight,
            lent.blocks[v as usize],
            loss,
        );
        let quiet = !self.sums.pass(loss);
        let best = self.with_gain(top, loss);
        self.sums.clear();
        Sought { best, quiet }
    }

    /// A block with its sum less the loss.
    fn with_gain(&self, best: Option<u32>, loss: u64) -> Option<(u32, u64)>
        requires above { ForSome best (λ b. (b < 256) × (loss < slice_index self.now.sums b)) }
        ensures { result ≡ option_map (λ b. (b, slice_index self.now.sums b - loss)) best }
    {
        match best {
            None => None,
            Some(block) => Some((block, self.sums.of(block) - loss)),
        }
    }

    /// Scores the moves of a vertex, and answers what its nets lose where it leaves its block. The sums are
    /// then what they save at each other block.
    fn score(&mut self, lent: &Lent<'_>, v: u32) -> u64
        requires clear { IsClear self.old.sums }
        requires vertex { v < vertex_count lent.now.h.now }
        ensures lost { result ≡ total (net_lost lent.now.h.now lent.now.blocks.now (block_of lent.now.blocks.now v))
            (nets_of lent.now.h.now v) }
        ensures bound { result < 2 ^ 55 }
        ensures sums { (b : ℕ) → b ≢ block_of lent.now.blocks.now v
            → slice_index self.new.sums b ≡ total (net_saved lent.now.h.now lent.now.blocks.now b)
            (nets_of lent.now.h.now v) }
        ensures own { slice_index self.new.sums (block_of lent.now.blocks.now v) ≡ 0 }
    {
        let from = lent.blocks[v as usize];
        let mut loss = 0;
        for e in lent.h.nets_of(v) {
            loss += self.add_net(lent, *e, from);
        }
        loss
    }
}
