//! What a round is over, and what is known of a pass.

ghost use Rattle.std.specs.Prelude.{◌≡◌, ◌<◌};
ghost use Rattle.hg_defs.specs.Hypergraph.{net_count, net_of};
ghost use Rattle.hg_defs.specs.Pins.{pins_in};

use hg_base::{field, place_of};
use move_core::{Account, Word};
use pin_plain::Ready;

/// What a round is over: the partition at its opening, and how many passes it has.
#[derive(Drop)]
pub struct Terms {
    /// The partition at the opening, with its hypergraph, number of blocks and limit.
    pub part: Ready,
    /// How many passes the round has.
    pub workers: u32,
}

impl Terms {
    /// How many pins of a net are in a block at the opening.
    pub fn count(&self, e: u32, b: u32) -> u64
        requires net { e < net_count self.now.part.hyper }
        requires block { b < self.now.part.k }
        ensures { result ≡ pins_in self.now.part.blocks (net_of self.now.part.hyper e).pins b }
    {
        let _blocks = self.part.blocks();
        let (start, bits) = self.part.place_of_net(e);
        let (word, place) = place_of(bits, b);
        field(self.part.words()[(start + 1 + word) as usize], bits, place)
    }
}

/// What is known of a pass. It is what contracts see; no value of it is made.
pub struct View {
    /// What the round is over.
    pub terms: Terms,
    /// The number of the pass.
    pub number: u64,
    /// What the pass has in the books.
    pub account: Account,
    /// How many steps it has made.
    pub steps: u64,
    /// The word of its last step, those that took a weight back left out.
    pub word: Word,
    /// What that step found in it.
    pub found: u64,
    /// How many passes it stands for: itself, and those that it took over.
    pub stands: u64,
    /// How many passes it may still make.
    pub may: u64,
}
