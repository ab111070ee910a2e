//! What one search has booked.

/// A search ends so many moves after its best.
pub(crate) const MOST_IN_VAIN: u32 = 64;

/// The sum of what a search booked, its best so far, and the moves since.
#[derive(Clone, Copy)]
pub(crate) struct Streak {
    sum: i64,
    best: i64,
    since: u32,
}

impl Streak {
    /// Nothing was moved yet.
    pub(crate) fn new() -> Self {
        Streak {
            sum: 0,
            best: 0,
            since: 0,
        }
    }

    /// Adds what a move booked.
    pub(crate) fn add(&mut self, gain: i64) {
        self.sum = self.sum.wrapping_add(gain);
        if self.sum > self.best {
            self.best = self.sum;
            self.since = 0;
        } else {
            self.since = self.since.saturating_add(1);
        }
    }

    /// Whether the search has ended.
    pub(crate) fn is_over(&self) -> bool {
        self.since >= MOST_IN_VAIN
    }
}
