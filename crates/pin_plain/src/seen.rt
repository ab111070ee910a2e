//! Which blocks a net has touched already, while its moves are scored.

ghost use Rattle.std.specs.Prelude.{◌≡◌, ◌<◌, false, not, nat_eq, ◌||◌};

use std::marker::Model;

/// For each of 256 blocks the number of the net that last touched it. Nothing is reset from net to net.
#[derive(Drop)]
pub struct Seen {
    last: [u64; 256],
    net: u64,
}

impl Model for Seen {
    ghost use Rattle.std.specs.Prelude.{◌+◌};
    ghost use Rattle.pin_plain.specs.Scores.{Stamps, IsBefore};

    ghost Value = { Stamps };

    ghost view = { λ s. record { last = s.last; net = s.net } };

    ghost invariant = { λ s. IsBefore s.last (s.net + 1) };
}

impl Seen {
    ghost use Rattle.std.specs.Prelude.{ℕ};
    ghost use Rattle.pin_plain.specs.Scores.{is_seen};

    /// No net has touched a block.
    pub fn new() -> Self {
        Seen {
            last: [0; 256],
            net: 0,
        }
    }

    /// Begins a net, which has touched no block yet.
    pub fn begin(&mut self)
        ensures { (b : ℕ) → b < 256 → is_seen self.new b ≡ false }
    {
        if self.net == u64::MAX {
            self.last = [0; 256];
            self.net = 0;
        }
        self.net += 1;
    }

    /// Notes that the net touches a block, and answers whether it does so for the first time.
    pub fn mark(&mut self, block: u32) -> bool
        requires { block < 256 }
        ensures first { result ≡ not (is_seen self.old block) }
        ensures seen { (b : ℕ) → b < 256 → is_seen self.new b ≡ (is_seen self.old b || nat_eq block b) }
    {
        if self.last[block as usize] == self.net {
            return false;
        }
        self.last[block as usize] = self.net;
        true
    }
}
