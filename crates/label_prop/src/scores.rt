//! The gains of a vertex to all blocks, by one walk over its nets.
//!
//! Counts and names are peeked while other workers move, so a gain may be off. It decides where a worker
//! tries to move a vertex, and nothing else.

ghost use Rattle.std.specs.Prelude.{◌≡◌, ◌≢◌, ◌+◌, ◌<◌, ◌≤◌, ◌^◌, IfSome};
ghost use Rattle.hg_defs.specs.Hypergraph.{vertex_count, net_count};
ghost use Rattle.hg_defs.specs.Partition.{block_of};
ghost use Rattle.hg_base.specs.Packed.{IsWidth, fields_of};
ghost use Rattle.pin_plain.specs.Counts.{net_bits, net_words};
ghost use Rattle.label_prop.specs.Workers.{IsIdlePass};

use hg_base::{Objective, field};
use incidence::Hypergraph;
use move_table::{Pass, Round};

/// A net whose counts take so few words is walked over by them, whatever its size, which isn't read then.
const FEW_WORDS: u32 = 8;

/// All bits of a word but the highest one of each field of 8 bits.
const LOW_BITS_OF_8: u64 = 0x7f7f_7f7f_7f7f_7f7f;

/// A product with this brings the lowest bits of the eight fields of 8 bits together, from bit 56 on.
const GATHER_8: u64 = 0x0102_0408_1020_4080;

/// All bits of a word but the highest one of each field of 16 bits.
const LOW_BITS_OF_16: u64 = 0x7fff_7fff_7fff_7fff;

/// A product with this brings the lowest bits of the four fields of 16 bits together, from bit 48 on.
const GATHER_16: u64 = 0x0001_0002_0004_0008;

/// What a net of weight 1 saves, beside what it saves for the block alone, where one of its `size` pins
/// goes to a block with `count` of them: whether they are together then.
fn joined(count: u64, size: u64) -> u64
    ensures { result ≤ 1 }
{
    u64::from(count > 0 && count.wrapping_add(1) == size)
}

/// How many fields of so many bits a word has.
fn fields(bits: u32) -> u32
    requires { IsWidth bits }
    ensures { result ≡ fields_of bits }
{
    if bits == 8 {
        8
    } else if bits == 16 {
        4
    } else {
        2
    }
}

/// Which fields of a word aren't 0, as bits.
fn filled(word: u64, bits: u32) -> u64
    requires { IsWidth bits }
{
    if bits == 8 {
        let high = ((word & LOW_BITS_OF_8).wrapping_add(LOW_BITS_OF_8) | word) & !LOW_BITS_OF_8;
        (high >> 7).wrapping_mul(GATHER_8) >> 56
    } else if bits == 16 {
        let high = ((word & LOW_BITS_OF_16).wrapping_add(LOW_BITS_OF_16) | word) & !LOW_BITS_OF_16;
        (high >> 15).wrapping_mul(GATHER_16) >> 48
    } else {
        u64::from(field(word, bits, 0) > 0) | u64::from(field(word, bits, 1) > 0) << 1
    }
}

/// A set of blocks, as bits.
#[derive(Clone, Copy)]
struct BlockSet {
    words: [u64; 4],
}

impl BlockSet {
    fn new() -> Self {
        BlockSet { words: [0; 4] }
    }

    /// Puts a block into the set, and answers whether it wasn't there.
    fn insert(&mut self, block: u32) -> bool
        requires { block < 256 }
    {
        let place = block as usize / 64;
        let bit = 1u64 << (block % 64);
        let fresh = self.words[place] & bit == 0;
        self.words[place] |= bit;
        fresh
    }
}

/// The sums that are kept for the blocks while the nets of one vertex are walked over.
///
/// A sum stops at the top of 64 bits, which it never reaches: all nets together weigh less than 2^54.
#[derive(Drop)]
pub(crate) struct Scores {
    /// How many blocks there are.
    k: u32,
    /// What the nets save for each block.
    saved: [u64; 256],
    /// The blocks of the nets.
    touched: BlockSet,
    ghost few: { k ≤ 256 },
}

impl Scores {
    /// All sums are 0.
    pub(crate) fn new(k: u32) -> Self
        requires { k ≤ 256 }
        ensures { result.k ≡ k }
    {
        Scores {
            k,
            saved: [0; 256],
            touched: BlockSet::new(),
        }
    }

    /// Adds what a net saves for a block.
    fn save(&mut self, block: u32, amount: u64)
        requires { block < 256 }
        ensures { self.new.k ≡ self.old.k }
    {
        let place = block as usize;
        self.saved[place] = self.saved[place].saturating_add(amount);
    }

    /// Takes the block of the highest sum above what the nets lose, the lowest one at a tie, a vertex's own
    /// block left out. All sums are 0 then.
    fn take_best(&mut self, own: u32, lost: u64) -> Option<u32>
        ensures block { IfSome result (λ b. b < self.old.k) }
        ensures other { IfSome result (λ b. b ≢ own) }
        ensures blocks { self.new.k ≡ self.old.k }
    {
        let mut best = None;
        let mut bar = lost;
        for place in 0..4 {
            let mut left = self.touched.words[place];
            while left > 0 {
                let block = 64 * place as u32 + left.trailing_zeros();
                let sum = self.saved[block as usize];
                // No net has pins past the last block; that isn't known of a count that is only peeked.
                if sum > bar && block != own && block < self.k {
                    bar = sum;
                    best = Some(block);
                }
                self.saved[block as usize] = 0;
                left &= left - 1;
            }
        }
        self.touched = BlockSet::new();
        best
    }
}

/// A net that is walked over.
#[derive(Clone, Copy)]
struct WalkedNet<'h> {
    h: &'h Hypergraph,
    number: u32,
    weight: u64,
}

impl<'h> WalkedNet<'h> {
    /// The net of a number.
    fn of(h: &'h Hypergraph, e: u32) -> Self
        requires { e < net_count h.now }
        ensures hyper { result.h.now ≡ h.now }
        ensures number { result.number ≡ e }
        ensures light { result.weight < 2 ^ 54 }
    {
        WalkedNet {
            h,
            number: e,
            weight: h.net_weight(e),
        }
    }

    /// How many pins the net has.
    fn size(&self) -> u64
        requires { self.now.number < net_count self.now.h.now }
        ensures { result ≤ 2 ^ 25 }
    {
        self.h.pins(self.number).len() as u64
    }

    /// What the net saves at most where a pin goes to another block, as it touches so many.
    fn most_saved(&self, spread: i64) -> u64
        requires light { self.now.weight < 2 ^ 54 }
        ensures { result < 2 ^ 55 }
    {
        let most = self.weight * u64::from(spread > 1);
        if self.h.objective() == Objective::ExternalDegree {
            2 * most
        } else {
            most
        }
    }

    /// What the net saves where a pin goes to a block that has some of its pins.
    #[tactic(auto, using(crate::proofs::IdleLaws::peeked))]
    fn saved(&self, round: &Round, pass: &mut Pass, block: u32) -> u64
        requires belongs { round.now.terms.part.hyper ≡ self.now.h.now }
        requires net { self.now.number < net_count self.now.h.now }
        requires light { self.now.weight < 2 ^ 54 }
        requires block { block < round.now.terms.part.k }
        requires pass { IsIdlePass round.now pass.old.view.number pass.old }
        ensures { IsIdlePass round.now pass.old.view.number pass.new }
    {
        let objective = self.h.objective();
        if objective == Objective::Connectivity {
            return self.weight;
        }
        let count = pass.peek_count(round, self.number, block);
        let together = self.weight * joined(count, self.size());
        if objective == Objective::CutNet {
            together
        } else {
            self.weight + together
        }
    }

    /// What the net loses where a pin leaves a block with `count` of its pins.
    fn lost(&self, count: u64) -> u64
        requires net { self.now.number < net_count self.now.h.now }
        requires light { self.now.weight < 2 ^ 54 }
    {
        let left = self.weight * u64::from(count != 1);
        let objective = self.h.objective();
        if objective == Objective::Connectivity {
            return left;
        }
        let size = self.size();
        let parted = self.weight * u64::from(count == size && size != 1);
        if objective == Objective::CutNet {
            parted
        } else {
            left + parted
        }
    }
}

/// The blocks where a net has pins, as bits, by the words of its counts from `from` up to `to`.
#[tactic(auto, using(crate::proofs::IdleLaws::peeked))]
fn peek_blocks(round: &Round, pass: &mut Pass, e: u32, bits: u32, from: u32, to: u32) -> u64
    requires net { e < net_count round.now.terms.part.hyper }
    requires width { IsWidth bits }
    requires bits { bits ≡ net_bits round.now.terms.part.hyper e }
    requires within { to ≤ net_words round.now.terms.part.hyper round.now.terms.part.k e }
    requires few { to ≤ from + bits }
    requires pass { IsIdlePass round.now pass.old.view.number pass.old }
    ensures { IsIdlePass round.now pass.old.view.number pass.new }
{
    let fields = fields(bits);
    let mut found = 0;
    for index in from..to {
        let word = pass.peek_counts(round, e, index);
        found |= filled(word, bits) << (fields * (index - from));
    }
    found
}

impl Scores {
    /// Adds what a net saves for each block, by the names of its pins.
    #[tactic(auto, using(crate::proofs::IdleLaws::peeked))]
    fn save_by_pins(&mut self, round: &Round, pass: &mut Pass, net: &WalkedNet<'_>)
        requires belongs { round.now.terms.part.hyper ≡ net.now.h.now }
        requires blocks { self.old.k ≡ round.now.terms.part.k }
        requires net { net.now.number < net_count net.now.h.now }
        requires light { net.now.weight < 2 ^ 54 }
        requires pass { IsIdlePass round.now pass.old.view.number pass.old }
        ensures blocks { self.new.k ≡ self.old.k }
        ensures pass { IsIdlePass round.now pass.old.view.number pass.new }
    {
        let mut seen = BlockSet::new();
        for pin in net.h.pins(net.number) {
            let block = pass.peek_name(round, *pin);
            if seen.insert(block) {
                let amount = net.saved(round, pass, block);
                self.save(block, amount);
                self.touched.insert(block);
            }
        }
    }

    /// Adds an amount for each block of a set, of which the first one is that of a group of 64.
    fn save_alike(&mut self, group: u32, found: u64, amount: u64)
        requires { group < 4 }
        ensures { self.new.k ≡ self.old.k }
    {
        let mut left = found;
        while left > 0 {
            self.save(64 * group + left.trailing_zeros(), amount);
            left &= left - 1;
        }
    }

    /// Adds what a net saves for the blocks of a set, of which the first one is that of a group of 64.
    fn save_set(
        &mut self,
        round: &Round,
        pass: &mut Pass,
        net: &WalkedNet<'_>,
        group: u32,
        found: u64,
    )
        requires belongs { round.now.terms.part.hyper ≡ net.now.h.now }
        requires blocks { self.old.k ≡ round.now.terms.part.k }
        requires net { net.now.number < net_count net.now.h.now }
        requires light { net.now.weight < 2 ^ 54 }
        requires group { group < 4 }
        requires pass { IsIdlePass round.now pass.old.view.number pass.old }
        ensures blocks { self.new.k ≡ self.old.k }
        ensures pass { IsIdlePass round.now pass.old.view.number pass.new }
    {
        self.touched.words[group as usize] |= found;
        if net.h.objective() == Objective::Connectivity {
            self.save_alike(group, found, net.weight);
            return;
        }
        let mut left = found;
        while left > 0 {
            let block = 64 * group + left.trailing_zeros();
            // No net has pins past the last block; that isn't known of a count that is only peeked.
            if block < self.k {
                let amount = net.saved(round, pass, block);
                self.save(block, amount);
            }
            left &= left - 1;
        }
    }

    /// Adds what a net saves for each block, by the words of its counts.
    fn save_by_words(
        &mut self,
        round: &Round,
        pass: &mut Pass,
        net: &WalkedNet<'_>,
        bits: u32,
        words: u32,
    )
        requires belongs { round.now.terms.part.hyper ≡ net.now.h.now }
        requires blocks { self.old.k ≡ round.now.terms.part.k }
        requires net { net.now.number < net_count net.now.h.now }
        requires light { net.now.weight < 2 ^ 54 }
        requires width { IsWidth bits }
        requires bits { bits ≡ net_bits net.now.h.now net.now.number }
        requires words { words ≡ net_words net.now.h.now self.old.k net.now.number }
        requires pass { IsIdlePass round.now pass.old.view.number pass.old }
        ensures blocks { self.new.k ≡ self.old.k }
        ensures pass { IsIdlePass round.now pass.old.view.number pass.new }
    {
        for group in 0..4 {
            let from = group * bits;
            if from >= words {
                break;
            }
            let found = peek_blocks(round, pass, net.number, bits, from, words.min(from + bits));
            self.save_set(round, pass, net, group, found);
        }
    }

    /// Adds what a net saves for each block that it touches. A net that touches one block saves nothing for
    /// others.
    #[tactic(auto, using(crate::proofs::IdleLaws::peeked))]
    fn save_net(&mut self, round: &Round, pass: &mut Pass, net: &WalkedNet<'_>)
        requires belongs { round.now.terms.part.hyper ≡ net.now.h.now }
        requires blocks { self.old.k ≡ round.now.terms.part.k }
        requires net { net.now.number < net_count net.now.h.now }
        requires light { net.now.weight < 2 ^ 54 }
        requires pass { IsIdlePass round.now pass.old.view.number pass.old }
        ensures blocks { self.new.k ≡ self.old.k }
        ensures pass { IsIdlePass round.now pass.old.view.number pass.new }
    {
        if pass.peek_spread(round, net.number) <= 1 {
            return;
        }
        let bits = round.count_bits(net.number);
        let words = (self.k * bits).div_ceil(64);
        if words > FEW_WORDS && u64::from(words) > 4 * net.size() {
            self.save_by_pins(round, pass, net);
        } else {
            self.save_by_words(round, pass, net, bits, words);
        }
    }

    /// The block where a vertex saves most, where it saves something: the lowest one at a tie.
    pub(crate) fn best_block(
        &mut self,
        round: &Round,
        pass: &mut Pass,
        h: &Hypergraph,
        v: u32,
    ) -> Option<u32>
        requires belongs { round.now.terms.part.hyper ≡ h.now }
        requires blocks { self.old.k ≡ round.now.terms.part.k }
        requires pass { IsIdlePass round.now pass.old.view.number pass.old }
        requires vertex { v < vertex_count h.now }
        ensures block { IfSome result (λ b. b < self.old.k) }
        ensures other { IfSome result (λ b. b ≢ block_of round.now.terms.part.blocks v) }
        ensures blocks { self.new.k ≡ self.old.k }
        ensures pass { IsIdlePass round.now pass.old.view.number pass.new }
    {
        let own = round.opening(v);
        let outlook = Outlook::of(round, pass, h, v, own);
        if outlook.saved <= outlook.lost {
            return None;
        }
        for e in h.nets_of(v) {
            self.save_net(round, pass, &WalkedNet::of(h, *e));
        }
        self.take_best(own, outlook.lost)
    }
}

/// What a vertex's nets lose where it leaves its block, and what they save at most at one other block.
#[derive(Clone, Copy)]
struct Outlook {
    lost: u64,
    saved: u64,
}

impl Outlook {
    /// The outlook of a vertex in a block. Most vertices gain nowhere, and most of these are told by it.
    #[tactic(auto, using(crate::proofs::IdleLaws::peeked))]
    fn of(round: &Round, pass: &mut Pass, h: &Hypergraph, v: u32, own: u32) -> Self
        requires belongs { round.now.terms.part.hyper ≡ h.now }
        requires vertex { v < vertex_count h.now }
        requires own { own < round.now.terms.part.k }
        requires pass { IsIdlePass round.now pass.old.view.number pass.old }
        ensures { IsIdlePass round.now pass.old.view.number pass.new }
    {
        let (mut lost, mut saved) = (0u64, 0u64);
        for e in h.nets_of(v) {
            let net = WalkedNet::of(h, *e);
            let spread = pass.peek_spread(round, *e);
            let there = pass.peek_count(round, *e, own);
            saved = saved.saturating_add(net.most_saved(spread));
            lost = lost.saturating_add(net.lost(there));
        }
        Outlook { lost, saved }
    }
}
