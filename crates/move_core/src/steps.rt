ghost use Rattle.std.specs.Prelude.{◌≡◌, ◌<◌, ◌≤◌, ◌^◌, IfOk, OnErr, true, length};
ghost use Rattle.hg_defs.specs.Hypergraph.{vertex_count};
ghost use Rattle.hg_defs.specs.Incidence.{nets_of};
ghost use Rattle.move_core.specs.State.{account};
ghost use Rattle.move_core.specs.Stages.{vertex_at};
ghost use Rattle.move_core.specs.Events.{is_enabled, word_for, write_for, removed_for, stage_net};
ghost use Rattle.move_core.specs.Balance.{IsBooks};
ghost use Rattle.move_core.specs.Run.{Leads};

use crate::account::Stage;
use crate::books::Books;
use crate::events::{Event, Word};
use hg_base::{FlatHyper, NoMemory};

impl Books {
    /// The net at a place of the nets of the stage's vertex.
    fn net(&self, stage: Stage, place: u32) -> u32
        requires vertex { vertex_at stage < vertex_count self.now.setup.graph }
        requires place { place < length (nets_of self.now.setup.graph (vertex_at stage)) }
        ensures { result ≡ stage_net self.now.setup stage place }
    {
        self.ledger.nets(stage.vertex())[place as usize]
    }

    /// The word of the event, which must be enabled.
    fn word(&self, event: Event) -> Word
        requires { is_enabled self.now event ≡ true }
        ensures { result ≡ word_for self.now.setup self.now.accounts event }
    {
        let stage = self.stage(event.pass());
        match event {
            Event::Claim { vertex, .. } => Word::Claim(vertex),
            Event::Unclaim { vertex, .. } => Word::Claim(vertex),
            Event::Reserve { to, .. } => Word::Load(to),
            Event::TakeBack { .. } => Word::Load(stage.to()),
            Event::Draw { .. } => Word::Next,
            Event::Name { .. } => Word::Name(stage.vertex()),
            Event::Raise { .. } => Word::Count(self.net(stage, stage.raised_nets()), stage.to()),
            Event::Widen { .. } => Word::Spread(self.net(stage, stage.raised_nets() - 1)),
            Event::Lower { .. } => Word::Count(self.net(stage, stage.lowered_nets()), stage.from()),
            Event::Narrow { .. } => Word::Spread(self.net(stage, stage.lowered_nets() - 1)),
            Event::GiveBack { .. } => Word::Load(stage.from()),
            Event::Seed { .. } => Word::Cursor,
            Event::Peek { word, .. } => word,
            Event::Split { .. } | Event::Join { .. } => self.ledger.first_word(),
        }
    }

    /// What the event writes, which is enabled and found a number.
    fn value(&self, h: &FlatHyper, event: Event, found: u64) -> u64
        requires graph { h.now ≡ self.now.setup.graph }
        requires enabled { is_enabled self.now event ≡ true }
        requires most { write_for self.now.setup self.now.accounts event found < 2 ^ 64 }
        requires least { removed_for self.now.setup self.now.accounts event ≤ found }
        ensures { result ≡ write_for self.now.setup self.now.accounts event found }
    {
        let stage = self.stage(event.pass());
        match event {
            Event::Claim { .. } => 1,
            Event::Unclaim { .. } => 0,
            Event::Reserve { vertex, .. } => found + h.vertex_weight(vertex),
            Event::TakeBack { .. } => found - h.vertex_weight(stage.vertex()),
            Event::GiveBack { .. } => found - h.vertex_weight(stage.vertex()),
            Event::Name { .. } => u64::from(stage.to()),
            Event::Draw { .. } => found + 1,
            Event::Raise { .. } => found + 1,
            Event::Widen { .. } => found + 1,
            Event::Seed { .. } => found + 1,
            Event::Lower { .. } => found - 1,
            Event::Narrow { .. } => found - 1,
            Event::Peek { .. } | Event::Split { .. } | Event::Join { .. } => found,
        }
    }

    /// Makes one event, which must be enabled, and tells what its pass found in the word. Where
    /// there is no memory, nothing changes.
    ///
    /// The hypergraph must be the one that the books were made over.
    pub fn step(&mut self, h: &FlatHyper, event: Event) -> Result<u64, NoMemory>
        requires graph { h.now ≡ self.old.setup.graph }
        requires enabled { is_enabled self.old event ≡ true }
        ensures ok { IfOk result (λ found. Leads self.old event found self.new) }
        ensures err { OnErr result (self.new ≡ self.old) }
        ensures balance { IsBooks self.new }
        ensures setup { self.new.setup ≡ self.old.setup }
    {
        let word = self.word(event);
        let found = self.ledger.read(word);
        let value = self.value(h, event, found);
        self.ledger.change(h, event, word, found)?;
        self.ledger.write(word, value);
        Ok(found)
    }
}
