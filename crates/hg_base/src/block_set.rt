//! Sets of blocks.

use std::marker::Model;

/// A set of blocks below 256, one bit for each. It is seen as the words of these bits, of which `has` tells
/// whether a block is in the set.
#[derive(Debug, Drop)]
pub struct BlockSet {
    words: [u64; 4],
}

impl Model for BlockSet {
    ghost use Rattle.std.specs.Prelude.{ℕ, List};

    ghost Value = { List ℕ };

    ghost view = { λ s. s.words };
}

impl BlockSet {
    ghost use Rattle.std.specs.Prelude.{◌≡◌, ◌<◌, ℕ, nat_eq, not, ◌||◌, false};
    ghost use Rattle.hg_base.specs.BlockSet.{has};

    /// The empty set.
    pub fn new() -> Self
        ensures { (b : ℕ) → has result b ≡ false }
    {
        BlockSet { words: [0; 4] }
    }

    /// Puts a block into the set, and answers whether it is new there.
    pub fn insert(&mut self, block: u32) -> bool
        requires { block < 256 }
        ensures new { result ≡ not (has self.old block) }
        ensures joined { (b : ℕ) → has self.new b ≡ (nat_eq b block || has self.old b) }
    {
        let word = block as usize / 64;
        let bit = 1 << (block % 64);
        let is_new = self.words[word] & bit == 0;
        self.words[word] |= bit;
        is_new
    }
}
