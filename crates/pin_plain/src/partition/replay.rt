//! The moves of a round, made one after the other, or all at once where they are many.

ghost use Rattle.std.specs.Prelude.{◌≡◌, ◌<◌, ◌≤◌, All, length};
ghost use Rattle.hg_defs.specs.Hypergraph.{vertex_count};
ghost use Rattle.hg_defs.specs.Replay.{replay};

use super::{Partition, add_weights};
use crate::tallies::{Nets, tally_with};
use hg_base::{Blocks, Move};
use incidence::Hypergraph;
use std::thread::Threads;

/// One worker counts all pins anew where more than one in so many vertices moves.
const FEW_ALONE: u32 = 5;

/// The more workers there are, the sooner they count anew, but none where no more than one in so many moves.
const FEW_TOGETHER: u32 = 20;

/// Whether so many moves take longer one after the other than all pins take to be counted anew.
fn are_many(moves: usize, vertices: u32, workers: u32) -> bool
    requires some { 1 ≤ workers }
    requires few { workers ≤ 64 }
{
    let apart = (FEW_ALONE * workers).min(FEW_TOGETHER);
    moves > (vertices / apart) as usize
}

/// Writes the block of each move, in their order.
fn write_blocks(blocks: &mut Blocks, moves: &[Move])
    requires { All (λ m. m.vertex < length blocks.old) moves.now }
    ensures { blocks.new ≡ replay blocks.old moves.now }
{
    for step in moves {
        blocks.set(step.vertex as usize, step.to);
    }
}

impl Partition {
    /// Makes the moves of a round, one after the other. Where they are many, it writes the blocks of all of them,
    /// and then adds up the loads and counts the pins anew, by at most so many threads.
    pub fn replay_with<R: Threads + Sync>(
        &mut self,
        rt: &R,
        h: &Hypergraph,
        moves: &[Move],
        workers: u32,
    )
        requires belongs { self.old.hyper ≡ h.now }
        requires vertices { All (λ m. m.vertex < vertex_count h.now) moves.now }
        requires blocks { All (λ m. m.to < self.old.k) moves.now }
        requires some { 1 ≤ workers }
        requires few { workers ≤ 64 }
        ensures { self.new ≡ record self.old { blocks = replay self.old.blocks moves.now } }
    {
        if are_many(moves.len(), h.vertices(), workers) {
            self.replay_at_once(rt, h, moves, workers);
        } else {
            self.replay_in_turn(h, moves);
        }
    }

    /// Moves the vertices one after the other.
    fn replay_in_turn(&mut self, h: &Hypergraph, moves: &[Move])
        requires belongs { self.old.hyper ≡ h.now }
        requires vertices { All (λ m. m.vertex < vertex_count h.now) moves.now }
        requires blocks { All (λ m. m.to < self.old.k) moves.now }
        ensures { self.new ≡ record self.old { blocks = replay self.old.blocks moves.now } }
    {
        for step in moves {
            self.shift(h, step.vertex, step.to);
        }
    }

    /// Writes the blocks of all moves, and then adds up the loads and counts the pins anew.
    fn replay_at_once<R: Threads + Sync>(
        &mut self,
        rt: &R,
        h: &Hypergraph,
        moves: &[Move],
        workers: u32,
    )
        requires belongs { self.old.hyper ≡ h.now }
        requires vertices { All (λ m. m.vertex < vertex_count h.now) moves.now }
        requires blocks { All (λ m. m.to < self.old.k) moves.now }
        requires some { 1 ≤ workers }
        ensures { self.new ≡ record self.old { blocks = replay self.old.blocks moves.now } }
    {
        write_blocks(&mut self.blocks, moves);
        add_weights(h, self.blocks.slice(), self.loads.as_mut_slice());
        let nets = Nets {
            h,
            k: self.k,
            blocks: self.blocks.slice(),
            starts: self.starts.as_slice(),
        };
        tally_with(rt, &nets, workers, self.words.as_mut_slice());
    }
}
