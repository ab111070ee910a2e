ghost use Rattle.std.specs.Prelude.{◌≡◌, ◌<◌, ◌+◌, ◌^◌, ℕ, OnOk, OnErr, true, slice_set, nat_le, if◌then◌else◌};
ghost use Rattle.move_core.specs.State.{account};
ghost use Rattle.move_core.specs.Events.{is_enabled, found_of, word_for, accounts_after};
ghost use Rattle.move_core.specs.Events.{account_after, stage_after, gain_after, pass_of};
ghost use Rattle.move_core.specs.Balance.{IsBooks};

use crate::account::Stage;
use crate::events::{Event, Word};
use crate::ledger::Ledger;
use crate::pass::Pass;
use crate::prices::{narrow_gain, widen_gain};
use hg_base::{FlatHyper, NoMemory};

/// Where a pass stands that found a load and added the weight of its vertex.
fn reservation(vertex: u32, from: u32, to: u32, seen: u64, weight: u64, limit: u64) -> Stage
    requires { seen + weight < 2 ^ 64 }
    ensures { result ≡ (if nat_le (seen + weight) limit then Stage.Granted vertex from to seen else Stage.Refused
        vertex to seen) }
{
    if seen + weight <= limit {
        Stage::Granted {
            vertex,
            from,
            to,
            seen,
        }
    } else {
        Stage::Refused { vertex, to, seen }
    }
}

impl Ledger {
    /// Where an event that found a number leaves the stage of its pass.
    fn next_stage(&self, h: &FlatHyper, event: Event, found: u64) -> Stage
        requires graph { h.now ≡ self.now.setup.graph }
        requires balance { IsBooks self.now }
        requires enabled { is_enabled self.now event ≡ true }
        requires found { found ≡ found_of self.now event }
        ensures { result ≡ stage_after self.now.setup event found (account self.now (pass_of event)).stage }
    {
        let stage = self.pass(event.pass()).stage();
        match event {
            Event::Reserve { vertex, to, .. } => {
                let from = self.opening(vertex);
                reservation(vertex, from, to, found, h.vertex_weight(vertex), self.limit)
            }
            Event::TakeBack { .. } => Stage::Idle,
            Event::Draw { .. } => stage.drawn(found),
            Event::Name { .. } => stage.named(),
            Event::Raise { .. } => stage.raised(found),
            Event::Lower { .. } => stage.lowered(found),
            _ => stage,
        }
    }

    /// What an event that found a number in its word books.
    fn gain(&self, h: &FlatHyper, event: Event, word: Word, found: u64) -> i64
        requires graph { h.now ≡ self.now.setup.graph }
        requires balance { IsBooks self.now }
        requires enabled { is_enabled self.now event ≡ true }
        requires word { word ≡ word_for self.now.setup self.now.accounts event }
        requires found { found ≡ found_of self.now event }
        ensures { result ≡ gain_after self.now.setup event found (account self.now (pass_of event)).stage }
    {
        match event {
            Event::Widen { .. } => widen_gain(h, word.net(), found),
            Event::Narrow { .. } => narrow_gain(h, word.net(), found),
            _ => 0,
        }
    }

    fn join(&mut self, pass: u32, other: u32) -> Result<(), NoMemory>
        requires balance { IsBooks self.old }
        requires enabled { is_enabled self.old (Event.Join pass other) ≡ true }
        ensures ok { OnOk result (self.new ≡ record self.old
            { accounts = accounts_after self.old (Event.Join pass other) 0 }) }
        ensures err { OnErr result (self.new ≡ self.old) }
    {
        let joined = self.pass(pass).joined(self.alloc, self.pass(other))?;
        self.passes[pass as usize] = joined;
        self.passes[other as usize] = Pass::blank(self.alloc, false);
        Ok(())
    }

    /// Changes the account of the pass that makes an event. Where there is no memory, nothing
    /// changes.
    fn change_own(
        &mut self,
        h: &FlatHyper,
        event: Event,
        word: Word,
        found: u64,
    ) -> Result<(), NoMemory>
        requires graph { h.now ≡ self.old.setup.graph }
        requires balance { IsBooks self.old }
        requires enabled { is_enabled self.old event ≡ true }
        requires word { word ≡ word_for self.old.setup self.old.accounts event }
        requires found { found ≡ found_of self.old event }
        ensures ok { OnOk result (self.new ≡ record self.old {
          accounts = slice_set self.old.accounts (pass_of event)
              (account_after self.old.setup event found (account self.old (pass_of event)));
        }) }
        ensures err { OnErr result (self.new ≡ self.old) }
    {
        let next = self.next_stage(h, event, found);
        let gain = self.gain(h, event, word, found);
        self.passes[event.pass() as usize].change(event, found, next, gain)
    }

    /// Changes the accounts as an event says that found a number in its word. Where there is no
    /// memory, nothing changes.
    pub(crate) fn change(
        &mut self,
        h: &FlatHyper,
        event: Event,
        word: Word,
        found: u64,
    ) -> Result<(), NoMemory>
        requires graph { h.now ≡ self.old.setup.graph }
        requires balance { IsBooks self.old }
        requires enabled { is_enabled self.old event ≡ true }
        requires word { word ≡ word_for self.old.setup self.old.accounts event }
        requires found { found ≡ found_of self.old event }
        ensures ok { OnOk result (self.new ≡ record self.old { accounts = accounts_after self.old event found }) }
        ensures err { OnErr result (self.new ≡ self.old) }
    {
        match event {
            Event::Split { .. } => {
                self.passes.push(Pass::blank(self.alloc, true))?;
                Ok(())
            }
            Event::Join { pass, other } => self.join(pass, other),
            _ => self.change_own(h, event, word, found),
        }
    }
}
