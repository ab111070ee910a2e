//! A partition while its pairs of blocks are solved in waves.

ghost use Rattle.std.specs.Prelude.{◌≡◌, ◌≢◌, ℕ, ◌<◌, OnOk, length, None};
ghost use Rattle.flow_round.specs.PairTurns.{IsBooked, IsPairBelow, IsTurn, after_turn, wave as wave_pairs, waves};
ghost use Rattle.flow_round.specs.Fronts.{IsFront, TakesPairs};
ghost use Rattle.flow_round.specs.Waves.{AreWorkers, HaveEnds, end_at, moves_at};

use crate::table::{end_of, place_of, put_moves};
use crate::touched::partner_of;
use crate::worker::{Worker, solve_wave};
use crew::Gate;
use flow_pair::{CutNets, NoMemory, PairEnd, assign_region};
use incidence::Hypergraph;
use pin_plain::Partition;
use round_log::Moves;
use std::alloc::Global;
use std::thread::Threads;

/// A partition while its pairs of blocks are solved in waves, and the ends found so far.
#[derive(Drop)]
pub(crate) struct Front {
    pub(crate) part: Partition,
    pub(crate) cut: CutNets,
    /// The end of each pair, at the first block times the number of blocks plus the second one.
    pub(crate) ends: Vec<Option<PairEnd>>,
    /// At the same places the moves that assigned their regions.
    pub(crate) made: Vec<Moves>,
}

impl Front {
    /// Assigns the region of a pair as its end says, and keeps the moves.
    fn apply(&mut self, alloc: Global, h: &Hypergraph, a: u32, b: u32) -> Result<(), NoMemory>
        requires front { IsFront h.now self.old }
        requires below { IsPairBelow self.old.part.k (a, b) }
        requires turn { IsTurn h.now self.old.part.k self.old.part.limit self.old.part.blocks (a, b) (end_at
            self.old.part.k self.old.ends.items (a, b)) }
        ensures front { OnOk result (IsFront h.now self.new) }
        ensures part { OnOk result (self.new.part ≡ record self.old.part {
          blocks = after_turn self.old.part.blocks
              (end_at self.old.part.k self.old.ends.items (a, b));
        }) }
        ensures ends { OnOk result (self.new.ends.items ≡ self.old.ends.items) }
        ensures booked { OnOk result (IsBooked h.now self.old.part.blocks
            (end_at self.old.part.k self.old.ends.items (a, b)) (moves_at self.old.part.k self.new.made.items (a, b))) }
        ensures others { OnOk result ((x : ℕ × ℕ) → IsPairBelow self.old.part.k x → x ≢ (a, b) → moves_at
            self.old.part.k self.new.made.items x ≡ moves_at self.old.part.k self.old.made.items x) }
    {
        let _blocks = self.part.blocks();
        let place = place_of(self.part.k(), a, b);
        let Some(end) = end_of(self.ends.as_slice(), place) else {
            return Ok(());
        };
        let moves = assign_region(
            alloc,
            h,
            &mut self.part,
            end.region.slice(),
            end.blocks.slice(),
        )?;
        self.cut.add_nets_of(alloc, h, moves.slice(), a, b)?;
        put_moves(&mut self.made, place, moves);
        Ok(())
    }

    /// Takes the turns of the pairs of a wave.
    fn take_wave(&mut self, alloc: Global, h: &Hypergraph, wave: u32) -> Result<(), NoMemory>
        requires front { IsFront h.now self.old }
        requires ends { HaveEnds h.now self.old.part wave self.old.ends.items }
        ensures front { OnOk result (IsFront h.now self.new) }
        ensures turns { OnOk result (TakesPairs h.now (wave_pairs self.old.part.k wave) self.old self.new) }
        ensures ends { OnOk result (self.new.ends.items ≡ self.old.ends.items) }
    {
        let k = self.part.k();
        for a in 0..k {
            let _blocks = self.part.blocks();
            if let Some(b) = partner_of(k, wave, a) {
                self.apply(alloc, h, a, b)?;
            }
        }
        Ok(())
    }

    /// Takes the turns of all pairs, wave after wave. The workers solve the pairs of a wave beforehand, in
    /// no more than `threads` threads in all.
    pub(crate) fn take_waves<R: Threads + Sync, G: Gate>(
        &mut self,
        rt: &R,
        gate: &G,
        alloc: Global,
        h: &Hypergraph,
        threads: u32,
        workers: &mut [Worker],
    ) -> Result<(), NoMemory>
        requires front { IsFront h.now self.old }
        requires none { (x : ℕ × ℕ) → IsPairBelow self.old.part.k x → end_at self.old.part.k self.old.ends.items x
            ≡ None }
        requires some { 0 < length workers.old }
        requires workers { AreWorkers h.now workers.old }
        ensures front { OnOk result (IsFront h.now self.new) }
        ensures turns { OnOk result (TakesPairs h.now (waves self.old.part.k) self.old self.new) }
    {
        let _blocks = self.part.blocks();
        let k = self.part.k();
        for wave in 1..2 * k - 2 {
            solve_wave(
                rt,
                gate,
                alloc,
                h,
                &self.part,
                &self.cut,
                wave,
                threads,
                workers,
                self.ends.as_mut_slice(),
            )?;
            self.take_wave(alloc, h, wave)?;
        }
        Ok(())
    }
}
