ghost use Rattle.std.specs.Prelude.{◌≡◌, ◌+◌, ◌^◌, ◌<◌, ◌+ℤ◌, IfOk, OnOk, OnErr, FitsSigned};
ghost use Rattle.std.specs.Int.{w64};
ghost use Rattle.move_core.specs.Stages.{booked_at};
ghost use Rattle.move_core.specs.State.{blank};
ghost use Rattle.move_core.specs.Events.{claimed, unclaimed, changed, booked, given_back};
ghost use Rattle.move_core.specs.Events.{seeded, joined_with, is_holding};

use crate::account::{Owed, Stage};
use crate::events::Event;
use hg_base::{Move, NoMemory};
use std::alloc::Global;
use std::collections::BTreeSet;
use std::marker::Model;

/// What a pass has in the books.
#[derive(Drop)]
pub(crate) struct Pass {
    live: bool,
    held: BTreeSet<u32>,
    stage: Stage,
    moves: Vec<Move>,
    numbers: Vec<u64>,
    seeds: u64,
    gain: i64,
}

impl Model for Pass {
    ghost use Rattle.move_core.specs.declared.account.Account.{Account};

    ghost Value = { Account };

    ghost view = { λ p. record {
      live = p.live;
      held = p.held.keys;
      stage = p.stage;
      moves = p.moves.items;
      numbers = p.numbers.items;
      seeds = p.seeds;
      gain = p.gain;
    } };
}

impl Pass {
    /// Makes a pass that has nothing.
    pub(crate) fn blank(alloc: Global, live: bool) -> Self
        ensures { result ≡ blank live }
    {
        Pass {
            live,
            held: BTreeSet::new(alloc),
            stage: Stage::Idle,
            moves: Vec::new(alloc),
            numbers: Vec::new(alloc),
            seeds: 0,
            gain: 0,
        }
    }

    pub(crate) fn is_live(&self) -> bool
        ensures { result ≡ self.now.live }
    {
        self.live
    }

    pub(crate) fn stage(&self) -> Stage
        ensures { result ≡ self.now.stage }
    {
        self.stage
    }

    pub(crate) fn seeds(&self) -> u64
        ensures { result ≡ self.now.seeds }
    {
        self.seeds
    }

    pub(crate) fn gain(&self) -> i64
        ensures { result ≡ self.now.gain }
    {
        self.gain
    }

    pub(crate) fn moves(&self) -> &[Move]
        ensures { result.now ≡ self.now.moves }
    {
        &self.moves
    }

    /// Whether the pass holds the vertex.
    pub(crate) fn holds(&self, vertex: u32) -> bool
        ensures { result ≡ is_holding self.now vertex }
    {
        self.held.contains(&vertex)
    }

    /// Holds one vertex more. Where there is no memory, nothing changes.
    fn hold(&mut self, vertex: u32) -> Result<(), NoMemory>
        ensures ok { OnOk result (self.new ≡ claimed vertex 0 self.old) }
        ensures err { OnErr result (self.new ≡ self.old) }
    {
        self.held.insert(vertex)?;
        Ok(())
    }

    fn release(&mut self, vertex: u32)
        ensures { self.new ≡ unclaimed vertex self.old }
    {
        self.held.remove(&vertex);
    }

    /// Books a gain on the move in hand.
    fn book(&mut self, gain: i64)
        requires stage { FitsSigned w64 (booked_at self.old.stage +ℤ gain) }
        requires total { FitsSigned w64 (self.old.gain +ℤ gain) }
        ensures { self.new ≡ booked gain self.old }
    {
        self.gain += gain;
        self.stage = self.stage.booked(gain);
    }

    /// Records the move in hand as done. Where there is no memory, nothing changes.
    fn give_back(&mut self, worker: u32) -> Result<(), NoMemory>
        ensures ok { OnOk result (self.new ≡ given_back worker self.old) }
        ensures err { OnErr result (self.new ≡ self.old) }
    {
        if let Stage::Moving {
            vertex,
            from,
            to,
            number,
            booked,
            ..
        } = self.stage
        {
            self.numbers.reserve(1)?;
            self.moves.push(Move {
                vertex,
                from,
                to,
                worker,
                booked,
            })?;
            self.numbers.push(number)?;
        }
        self.stage = Stage::Idle;
        Ok(())
    }

    fn add_seed(&mut self)
        requires { self.old.seeds + 1 < 2 ^ 64 }
        ensures { self.new ≡ seeded self.old }
    {
        self.seeds += 1;
    }

    /// Changes as an event of this pass says that found a number, leaves the stage `next` and books
    /// the gain. Where there is no memory, nothing changes.
    pub(crate) fn change(
        &mut self,
        event: Event,
        found: u64,
        next: Stage,
        gain: i64,
    ) -> Result<(), NoMemory>
        requires stage { FitsSigned w64 (booked_at self.old.stage +ℤ gain) }
        requires total { FitsSigned w64 (self.old.gain +ℤ gain) }
        requires seeds { self.old.seeds + 1 < 2 ^ 64 }
        ensures ok { OnOk result (self.new ≡ changed event found next gain self.old) }
        ensures err { OnErr result (self.new ≡ self.old) }
    {
        match event {
            Event::Claim { vertex, .. } => {
                if found == 0 {
                    self.hold(vertex)?;
                }
            }
            Event::Unclaim { vertex, .. } => self.release(vertex),
            Event::Widen { .. } | Event::Narrow { .. } => self.book(gain),
            Event::GiveBack { pass } => self.give_back(pass)?,
            Event::Seed { .. } => self.add_seed(),
            Event::Peek { .. } | Event::Split { .. } | Event::Join { .. } => {}
            Event::Reserve { .. }
            | Event::TakeBack { .. }
            | Event::Draw { .. }
            | Event::Name { .. }
            | Event::Raise { .. }
            | Event::Lower { .. } => self.stage = next,
        }
        Ok(())
    }

    /// Makes a pass with what this one and the other have.
    pub(crate) fn joined(&self, alloc: Global, other: &Pass) -> Result<Pass, NoMemory>
        requires seeds { self.now.seeds + other.now.seeds < 2 ^ 64 }
        requires gain { FitsSigned w64 (self.now.gain +ℤ other.now.gain) }
        ensures { IfOk result (λ p. p ≡ joined_with self.now other.now) }
    {
        let mut held = self.held.clone()?;
        for vertex in &other.held {
            held.insert(*vertex)?;
        }
        let mut moves = Vec::from_slice(alloc, &self.moves)?;
        moves.extend_from_slice(&other.moves)?;
        let mut numbers = Vec::from_slice(alloc, &self.numbers)?;
        numbers.extend_from_slice(&other.numbers)?;
        Ok(Pass {
            live: self.live,
            held,
            stage: self.stage,
            moves,
            numbers,
            seeds: self.seeds + other.seeds,
            gain: self.gain + other.gain,
        })
    }
}
