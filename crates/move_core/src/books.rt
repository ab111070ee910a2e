ghost use Rattle.std.specs.Prelude.{◌≡◌, ◌<◌, ◌==◌, true, length, ℕ};
ghost use Rattle.hg_defs.specs.Hypergraph.{vertex_count, net_count};
ghost use Rattle.move_core.specs.State.{readings, account};
ghost use Rattle.move_core.specs.Balance.{IsBooks};

use crate::account::Stage;
use crate::events::Word;
use crate::ledger::Ledger;
use hg_base::Move;
use std::marker::Model;

/// The books of a round, in balance: its words, and what each of its passes has.
#[derive(Drop)]
pub struct Books {
    pub(crate) ledger: Ledger,
}

impl Model for Books {
    ghost use Rattle.move_core.specs.State.{State};
    ghost use Rattle.move_core.specs.Balance.{IsBooks};

    ghost Value = { State };

    ghost view = { λ a. a.ledger };

    ghost invariant = { λ a. IsBooks a.ledger };
}

impl Books {
    /// Whether a pass has claimed the vertex.
    pub fn claimed(&self, v: u32) -> bool
        requires { v < vertex_count self.now.setup.graph }
        ensures { result ≡ ((readings self.now).claim v == 1) }
    {
        self.ledger.read(Word::Claim(v)) == 1
    }

    /// The block that the name word of the vertex tells.
    pub fn name(&self, v: u32) -> u32
        requires { v < vertex_count self.now.setup.graph }
        ensures { result ≡ (readings self.now).name v }
    {
        self.ledger.read(Word::Name(v)) as u32
    }

    /// The load word of the block.
    pub fn load(&self, b: u32) -> u64
        requires { b < self.now.setup.blocks }
        ensures { result ≡ (readings self.now).load b }
    {
        self.ledger.read(Word::Load(b))
    }

    /// The count word of the net and the block.
    pub fn count(&self, e: u32, b: u32) -> u64
        requires net { e < net_count self.now.setup.graph }
        requires block { b < self.now.setup.blocks }
        ensures { result ≡ (readings self.now).count e b }
    {
        self.ledger.read(Word::Count(e, b))
    }

    /// The spread word of the net, which is 64 more than its number of blocks.
    pub fn spread(&self, e: u32) -> u64
        requires { e < net_count self.now.setup.graph }
        ensures { result ≡ (readings self.now).spread e }
    {
        self.ledger.read(Word::Spread(e))
    }

    /// How many moves were drawn.
    pub fn next(&self) -> u64
        ensures { result ≡ self.now.next }
    {
        self.ledger.read(Word::Next)
    }

    /// How many seeds were drawn.
    pub fn cursor(&self) -> u64
        ensures { result ≡ self.now.cursor }
    {
        self.ledger.read(Word::Cursor)
    }

    /// The gain of the pass.
    pub fn gain(&self, pass: u32) -> i64
        requires { pass < length self.now.accounts }
        ensures { result ≡ (account self.now pass).gain }
    {
        self.ledger.pass(pass).gain()
    }

    /// The moves that the pass has done.
    pub fn moves(&self, pass: u32) -> &[Move]
        requires { pass < length self.now.accounts }
        ensures { result.now ≡ (account self.now pass).moves }
    {
        self.ledger.pass(pass).moves()
    }

    /// The stage of the pass. As all books, these are in balance.
    pub fn stage(&self, pass: u32) -> Stage
        requires { pass < length self.now.accounts }
        ensures stage { result ≡ (account self.now pass).stage }
        ensures balance { IsBooks self.now }
    {
        self.ledger.pass(pass).stage()
    }
}
