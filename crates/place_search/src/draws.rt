//! Random numbers that lead the search.

ghost use Rattle.std.specs.Prelude.{◌<◌};

use rand_core::utils::NextWord;
use rand_pcg::Lcg64Xsh32;

/// A stream of random numbers.
#[derive(Drop)]
pub(crate) struct Draws {
    words: Lcg64Xsh32,
}

impl Draws {
    /// The stream of this number.
    pub(crate) fn start(seed: u64, stream: u64) -> Self {
        Draws {
            words: Lcg64Xsh32::new(seed, stream),
        }
    }

    /// Any number.
    pub(crate) fn word(&mut self) -> u32 {
        self.words.next_word()
    }

    /// A number below `bound`, which is above 0.
    pub(crate) fn below(&mut self, bound: u32) -> u32
        requires { 0 < bound }
        ensures { result < bound }
    {
        self.words.next_word() % bound
    }
}
