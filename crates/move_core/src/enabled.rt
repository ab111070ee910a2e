ghost use Rattle.std.specs.Prelude.{◌≡◌, ◌<◌, true, length, ◌&&◌};
ghost use Rattle.hg_defs.specs.Hypergraph.{vertex_count};
ghost use Rattle.move_core.specs.Stages.{is_idle};
ghost use Rattle.move_core.specs.State.{account};
ghost use Rattle.move_core.specs.Events.{is_enabled, holds_unmoved, is_word, may_step, others_agree, pass_of};

use crate::account::Stage;
use crate::books::Books;
use crate::events::{Event, Word};
use hg_base::{FREE, FlatHyper};

impl Books {
    /// Whether the pass holds the vertex and hasn't moved it; the pass must be idle.
    fn holds_unmoved(&self, pass: u32, v: u32) -> bool
        requires pass { pass < length self.now.accounts }
        requires vertex { v < vertex_count self.now.setup.graph }
        requires idle { is_idle (account self.now pass).stage ≡ true }
        ensures { result ≡ holds_unmoved (account self.now pass) v }
    {
        self.ledger.pass(pass).holds(v) && self.name(v) == self.ledger.opening(v)
    }

    fn may_claim(&self, h: &FlatHyper, pass: u32, vertex: u32) -> bool
        requires graph { h.now ≡ self.now.setup.graph }
        requires pass { pass < length self.now.accounts }
        ensures { result ≡ may_step self.now.setup (Event.Claim pass vertex) (account self.now pass) }
    {
        self.stage(pass).is_idle() && vertex < h.vertices() && h.fix(vertex) == FREE
    }

    fn may_unclaim(&self, h: &FlatHyper, pass: u32, vertex: u32) -> bool
        requires graph { h.now ≡ self.now.setup.graph }
        requires pass { pass < length self.now.accounts }
        ensures { result ≡ may_step self.now.setup (Event.Unclaim pass vertex) (account self.now pass) }
    {
        self.stage(pass).is_idle() && vertex < h.vertices() && self.holds_unmoved(pass, vertex)
    }

    fn may_reserve(&self, h: &FlatHyper, pass: u32, vertex: u32, to: u32) -> bool
        requires graph { h.now ≡ self.now.setup.graph }
        requires pass { pass < length self.now.accounts }
        ensures { result ≡ may_step self.now.setup (Event.Reserve pass vertex to) (account self.now pass) }
    {
        self.stage(pass).is_idle()
            && vertex < h.vertices()
            && self.holds_unmoved(pass, vertex)
            && to < self.ledger.blocks()
            && to != self.ledger.opening(vertex)
    }

    fn may_raise(&self, pass: u32) -> bool
        requires { pass < length self.now.accounts }
        ensures { result ≡ may_step self.now.setup (Event.Raise pass) (account self.now pass) }
    {
        match self.stage(pass) {
            Stage::Moving {
                vertex,
                named,
                raised,
                lowered,
                owed,
                ..
            } => {
                named
                    && owed.is_nothing()
                    && raised == lowered
                    && (raised as usize) < self.ledger.nets(vertex).len()
            }
            Stage::Idle | Stage::Refused { .. } | Stage::Granted { .. } => false,
        }
    }

    fn may_give_back(&self, pass: u32) -> bool
        requires { pass < length self.now.accounts }
        ensures { result ≡ may_step self.now.setup (Event.GiveBack pass) (account self.now pass) }
    {
        match self.stage(pass) {
            Stage::Moving {
                vertex,
                named,
                lowered,
                owed,
                ..
            } => named && owed.is_nothing() && lowered as usize == self.ledger.nets(vertex).len(),
            Stage::Idle | Stage::Refused { .. } | Stage::Granted { .. } => false,
        }
    }

    fn has_word(&self, h: &FlatHyper, word: Word) -> bool
        requires { h.now ≡ self.now.setup.graph }
        ensures { result ≡ is_word self.now.setup word }
    {
        match word {
            Word::Claim(v) => v < h.vertices(),
            Word::Name(v) => v < h.vertices(),
            Word::Load(b) => b < self.ledger.blocks(),
            Word::Count(e, b) => e < h.nets() && b < self.ledger.blocks(),
            Word::Spread(e) => e < h.nets(),
            Word::Next => true,
            Word::Cursor => true,
        }
    }

    /// Whether the event is enabled for its pass, but for what it asks of other passes.
    fn may_step(&self, h: &FlatHyper, event: Event) -> bool
        requires graph { h.now ≡ self.now.setup.graph }
        requires pass { pass_of event < length self.now.accounts }
        ensures { result ≡ may_step self.now.setup event (account self.now (pass_of event)) }
    {
        match event {
            Event::Claim { pass, vertex } => self.may_claim(h, pass, vertex),
            Event::Unclaim { pass, vertex } => self.may_unclaim(h, pass, vertex),
            Event::Reserve { pass, vertex, to } => self.may_reserve(h, pass, vertex, to),
            Event::TakeBack { pass } => self.stage(pass).is_reserved(),
            Event::Draw { pass } => self.stage(pass).is_granted(),
            Event::Name { pass } => self.stage(pass).is_unnamed(),
            Event::Raise { pass } => self.may_raise(pass),
            Event::Widen { pass } => self.stage(pass).owes_up(),
            Event::Lower { pass } => self.stage(pass).is_lowering(),
            Event::Narrow { pass } => self.stage(pass).owes_down(),
            Event::GiveBack { pass } => self.may_give_back(pass),
            Event::Seed { pass } => self.ledger.pass(pass).seeds() < 1 << 32,
            Event::Peek { word, .. } => self.has_word(h, word),
            Event::Split { pass } => self.stage(pass).is_idle(),
            Event::Join { pass, other } => self.stage(pass).is_idle() && pass != other,
        }
    }

    fn is_live_and_idle(&self, pass: u32) -> bool
        ensures { result ≡ ((account self.now pass).live && is_idle (account self.now pass).stage) }
    {
        (pass as usize) < self.ledger.passes()
            && self.ledger.pass(pass).is_live()
            && self.ledger.pass(pass).stage().is_idle()
    }

    /// Whether other passes are as the event asks.
    fn others_agree(&self, event: Event) -> bool
        ensures { result ≡ others_agree self.now event }
    {
        match event {
            Event::Split { .. } => self.ledger.passes() < 64,
            Event::Join { other, .. } => self.is_live_and_idle(other),
            _ => true,
        }
    }

    /// Whether the event is enabled. The hypergraph must be the one that the books were made over.
    pub fn enabled(&self, h: &FlatHyper, event: Event) -> bool
        requires { h.now ≡ self.now.setup.graph }
        ensures { result ≡ is_enabled self.now event }
    {
        let pass = event.pass();
        (pass as usize) < self.ledger.passes()
            && self.ledger.pass(pass).is_live()
            && self.may_step(h, event)
            && self.others_agree(event)
    }
}
