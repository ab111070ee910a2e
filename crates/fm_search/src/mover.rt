//! A pass between two moves.

ghost use Rattle.std.specs.Prelude.{◌≡◌, ◌≢◌, ◌+◌, ◌*◌, ◌<◌, ◌^◌, IfOk, OnErr};
ghost use Rattle.hg_defs.specs.Hypergraph.{vertex_count, net_count, IsFree};
ghost use Rattle.hg_defs.specs.Partition.{block_of};
ghost use Rattle.hg_base.specs.Packed.{fields_of};
ghost use Rattle.pin_plain.specs.Counts.{net_bits};
ghost use Rattle.move_core.specs.declared.account.Stage.TheVariants.{Idle};
ghost use Rattle.fm_search.specs.Standing.{IsOf, standing_of};

use hg_base::NoMemory;
use move_table::{Pass, Round};
use std::marker::Model;

/// How a vertex fared that was to be moved.
#[derive(Clone, Copy)]
pub(crate) enum Outcome {
    /// Another pass has it.
    Taken,
    /// There was no room for it.
    Full,
    /// It was moved, and booked so much.
    Moved(i64),
}

/// A pass between two moves. Contracts see what it belongs to, its number, and how many seeds it drew.
#[derive(Drop)]
pub(crate) struct Mover {
    pass: Pass,
}

impl Model for Mover {
    ghost use Rattle.std.specs.Prelude.{◌≡◌};
    ghost use Rattle.move_core.specs.declared.account.Stage.TheVariants.{Idle};
    ghost use Rattle.fm_search.specs.Standing.{Standing, standing_of};

    ghost Value = { Standing };

    ghost view = { λ m. standing_of m.pass };

    ghost invariant = { λ m. m.pass.view.account.stage ≡ Idle };
}

impl Mover {
    /// Moves by a pass.
    pub(crate) fn of(pass: Pass) -> Self
        requires { pass.view.account.stage ≡ Idle }
        ensures { result ≡ standing_of pass }
    {
        Mover { pass }
    }

    /// Gives the pass.
    pub(crate) fn into_pass(self) -> Pass
        ensures same { standing_of result ≡ self }
        ensures idle { result.view.account.stage ≡ Idle }
    {
        self.pass
    }

    /// The block of a vertex, as it is peeked.
    pub(crate) fn block(&mut self, round: &Round, v: u32) -> u32
        requires belongs { IsOf round.now self.old }
        requires vertex { v < vertex_count round.now.terms.part.hyper }
        ensures same { self.new ≡ self.old }
        ensures block { result < round.now.terms.part.k }
    {
        self.pass.peek_name(round, v)
    }

    /// The load of a block, as it is peeked.
    pub(crate) fn load(&mut self, round: &Round, b: u32) -> u64
        requires belongs { IsOf round.now self.old }
        requires block { b < round.now.terms.part.k }
        ensures { self.new ≡ self.old }
    {
        self.pass.peek_weight(round, b)
    }

    /// How many blocks a net touches, as it is peeked.
    pub(crate) fn spread(&mut self, round: &Round, e: u32) -> i64
        requires belongs { IsOf round.now self.old }
        requires net { e < net_count round.now.terms.part.hyper }
        ensures { self.new ≡ self.old }
    {
        self.pass.peek_spread(round, e)
    }

    /// How many pins of a net are in a block, as it is peeked.
    pub(crate) fn count(&mut self, round: &Round, e: u32, b: u32) -> u64
        requires belongs { IsOf round.now self.old }
        requires net { e < net_count round.now.terms.part.hyper }
        requires block { b < round.now.terms.part.k }
        ensures { self.new ≡ self.old }
    {
        self.pass.peek_count(round, e, b)
    }

    /// A word of the counts of a net, as it is peeked.
    pub(crate) fn counts(&mut self, round: &Round, e: u32, index: u32) -> u64
        requires belongs { IsOf round.now self.old }
        requires net { e < net_count round.now.terms.part.hyper }
        requires index { index * fields_of (net_bits round.now.terms.part.hyper e) < round.now.terms.part.k }
        ensures { self.new ≡ self.old }
    {
        self.pass.peek_counts(round, e, index)
    }

    /// The next seed.
    pub(crate) fn draw(&mut self, round: &Round) -> u64
        requires belongs { IsOf round.now self.old }
        requires few { self.old.seeds < 2 ^ 32 }
        ensures { self.new ≡ record self.old { seeds = self.old.seeds + 1 } }
    {
        self.pass.next_seed(round)
    }

    /// Tries to move a free vertex to a block that isn't its own at the opening. Where there was no room,
    /// others may take it again. Where there is no memory, nothing is left reserved.
    pub(crate) fn carry(&mut self, round: &Round, v: u32, to: u32) -> Result<Outcome, NoMemory>
        requires belongs { IsOf round.now self.old }
        requires vertex { v < vertex_count round.now.terms.part.hyper }
        requires free { IsFree round.now.terms.part.hyper v }
        requires block { to < round.now.terms.part.k }
        requires other { to ≢ block_of round.now.terms.part.blocks v }
        ensures { self.new ≡ self.old }
    {
        if !self.pass.claim(round, v) {
            return Ok(Outcome::Taken);
        }
        let Ok(grant) = self.pass.reserve(round, v, to) else {
            self.pass.unclaim(round, v);
            return Ok(Outcome::Full);
        };
        if self.pass.room().is_err() {
            self.pass.cancel(round, grant);
            return Err(NoMemory);
        }
        Ok(Outcome::Moved(self.pass.carry(round, grant)))
    }
}
