//! How far a round has come. It decides when the workers stop, and nothing else.

use crate::shared::Apart;
use std::sync::atomic::Ordering::SeqCst;
use std::sync::atomic::{AtomicBool, AtomicI64, AtomicU64};

/// No further seeds are drawn where so many moves stand behind the best prefix.
const MOST_IN_VAIN: u64 = 2500;

/// What the workers of a round tell each other.
#[derive(Drop)]
pub(crate) struct Progress {
    before: Apart,
    stopped: AtomicBool,
    moves: AtomicU64,
    saved: AtomicI64,
    best: AtomicI64,
    best_moves: AtomicU64,
    behind: Apart,
}

impl Progress {
    /// Nothing was moved yet.
    pub(crate) fn new() -> Self {
        Progress {
            before: [0; 16],
            stopped: AtomicBool::new(false),
            moves: AtomicU64::new(0),
            saved: AtomicI64::new(0),
            best: AtomicI64::new(0),
            best_moves: AtomicU64::new(0),
            behind: [0; 16],
        }
    }

    /// Adds a move and what it booked. Of two workers that add one at the same time, either may be missed as
    /// the best so far.
    pub(crate) fn add(&self, gain: i64) {
        let saved = self.saved.fetch_add(gain, SeqCst).wrapping_add(gain);
        let moves = self.moves.fetch_add(1, SeqCst).wrapping_add(1);
        if saved > self.best.load(SeqCst) {
            self.best.store(saved, SeqCst);
            self.best_moves.store(moves, SeqCst);
        }
    }

    /// How many moves were added.
    pub(crate) fn moves(&self) -> u64 {
        self.moves.load(SeqCst)
    }

    /// Whether further seeds are worth drawing.
    pub(crate) fn goes_on(&self) -> bool {
        let best = self.best_moves.load(SeqCst);
        !self.is_stopped() && self.moves.load(SeqCst).saturating_sub(best) <= MOST_IN_VAIN
    }

    /// Tells all workers to stop, since there was no memory.
    pub(crate) fn stop(&self) {
        self.stopped.store(true, SeqCst);
    }

    /// Whether there was no memory.
    pub(crate) fn is_stopped(&self) -> bool {
        self.stopped.load(SeqCst)
    }
}
