//! The pins of a net in one block.

/// How many pins there are, and the sum of their numbers: of a single pin this is its number.
#[derive(Clone, Copy)]
pub(crate) struct Tally {
    pub(crate) pins: u32,
    sum: u32,
}

impl Tally {
    /// No pins.
    pub(crate) fn none() -> Self {
        Tally { pins: 0, sum: 0 }
    }

    /// The same and a pin.
    pub(crate) fn with(self, v: u32) -> Self {
        Tally {
            pins: self.pins.wrapping_add(1),
            sum: self.sum.wrapping_add(v),
        }
    }

    /// The same without a pin.
    pub(crate) fn without(self, v: u32) -> Self {
        Tally {
            pins: self.pins.wrapping_sub(1),
            sum: self.sum.wrapping_sub(v),
        }
    }

    /// The number of the pin, where there is one alone.
    pub(crate) fn only(self) -> u32 {
        self.sum
    }
}
