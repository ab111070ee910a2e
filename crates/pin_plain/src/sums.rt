//! The sums that are kept for the blocks while the moves of one vertex are scored.

ghost use Rattle.std.specs.Prelude.{◌≡◌, ◌+◌, ◌<◌, ◌≤◌, ◌^◌, ◌↔◌, All, IsTrue, length};
ghost use Rattle.std.specs.Prelude.{false, replicate, slice_index, slice_set};
ghost use Rattle.std.specs.Option.{ForSome};
ghost use Rattle.pin_plain.specs.Scores.{IsHigher};

use std::marker::Model;

/// A sum for each of 256 blocks, and the list of those that aren't 0. Contracts see the sums.
#[derive(Drop)]
pub struct Sums {
    sums: [u64; 256],
    touched: [u32; 256],
    count: usize,
}

impl Model for Sums {
    ghost use Rattle.std.specs.Prelude.{List, ℕ};
    ghost use Rattle.pin_plain.specs.Scores.{IsTracked};

    ghost Value = { List ℕ };

    ghost view = { λ s. s.sums };

    ghost invariant = { λ s. IsTracked s.sums s.touched s.count };
}

impl Sums {
    ghost use Rattle.std.specs.Prelude.{ℕ};
    ghost use Rattle.pin_plain.specs.Scores.{IsClear, IsTop};

    /// All sums are 0.
    pub fn new() -> Self
        ensures { IsClear result }
    {
        Sums {
            sums: [0; 256],
            touched: [0; 256],
            count: 0,
        }
    }

    /// The sum of a block.
    pub fn of(&self, block: u32) -> u64
        requires { block < 256 }
        ensures { result ≡ slice_index self.now block }
    {
        self.sums[block as usize]
    }

    /// Adds an amount to the sum of a block.
    pub fn add(&mut self, block: u32, amount: u64)
        requires block { block < 256 }
        requires room { slice_index self.old block + amount < 2 ^ 64 }
        ensures sums { self.new ≡ slice_set self.old block (slice_index self.old block + amount) }
        ensures size { length self.old ≡ 256 }
    {
        let sum = self.sums[block as usize];
        if amount == 0 {
            return;
        }
        if sum == 0 {
            self.touched[self.count] = block;
            self.count += 1;
        }
        self.sums[block as usize] = sum + amount;
    }

    /// The block with room for a weight whose sum is the highest above the loss, the lowest one at a tie.
    pub fn top(&self, loads: &[u64], limit: u64, weight: u64, from: u32, loss: u64) -> Option<u32>
        requires past { (b : ℕ) → length loads.now ≤ b → slice_index self.now b ≡ 0 }
        requires loads { All (λ load. load + weight < 2 ^ 64) loads.now }
        ensures { IsTop self.now loads.now limit weight from loss result }
    {
        let mut best: Option<u32> = None;
        for i in 0..self.count {
            let block = self.touched[i];
            if block == from {
                continue;
            }
            if loads[block as usize] + weight > limit {
                continue;
            }
            if is_higher(&self.sums, block, best, loss) {
                best = Some(block);
            }
        }
        best
    }

    /// Whether the sum of a block is above the loss.
    pub fn pass(&self, loss: u64) -> bool
        ensures { result ≡ false → (b : ℕ) → slice_index self.now b ≤ loss }
    {
        for i in 0..self.count {
            if self.sums[self.touched[i] as usize] > loss {
                return true;
            }
        }
        false
    }

    /// Sets all sums back to 0.
    pub fn clear(&mut self)
        ensures { IsClear self.new }
    {
        for i in 0..self.count {
            self.sums[self.touched[i] as usize] = 0;
        }
        self.count = 0;
    }
}

/// Whether a block comes before the best one so far.
fn is_higher(sums: &[u64; 256], block: u32, best: Option<u32>, loss: u64) -> bool
    requires block { block < 256 }
    requires best { ForSome best (λ a. a < 256) }
    ensures { IsTrue result ↔ IsHigher sums.now loss best block }
{
    let sum = sums[block as usize];
    match best {
        None => sum > loss,
        Some(other) => {
            let bar = sums[other as usize];
            sum > bar || sum == bar && block < other
        }
    }
}
