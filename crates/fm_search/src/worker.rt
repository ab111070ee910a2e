//! A worker: it draws lots of seeds, and grows a search from each lot.

ghost use Rattle.std.specs.Prelude.{◌≡◌, ◌≢◌, ◌<◌, ◌≤◌, All, IfOk, IfSome, length};
ghost use Rattle.hg_defs.specs.Hypergraph.{vertex_count, net_count, net_of, IsFree};
ghost use Rattle.hg_defs.specs.Partition.{block_of};
ghost use Rattle.fm_search.specs.Standing.{IsFit, IsOf};
ghost use Rattle.fm_search.specs.Opened.{IsBelow};

use crate::change::Change;
use crate::desk::Desk;
use crate::mover::{Mover, Outcome};
use crate::opening::{Known, Opening};
use crate::reading::{Choice, MOST_PINS, scored};
use crate::shared::{Apart, Shared};
use crate::streak::Streak;
use crew::Gate;
use gain_heap::Offer;
use hg_base::{FREE, NoMemory};

/// What a worker owns.
#[derive(Drop)]
pub(crate) struct Worker {
    pub(crate) mover: Mover,
    pub(crate) desk: Desk,
    /// How many moves it made in this round.
    pub(crate) made: u64,
    pub(crate) apart: Apart,
}

/// What is known of vertices, where rows can be drawn up from it: in two blocks, or where whole rows are kept. Else
/// nothing.
fn known<'s>(shared: &'s Shared<'_>) -> Known<'s>
    ensures { All (IsBelow shared.now.k) result.openings.now }
{
    let Known { openings, rows } = shared.known;
    if shared.k == 2 || !rows.is_empty() {
        return shared.known;
    }
    Known {
        openings: &openings[..0],
        rows: &rows[..0],
    }
}

impl Worker {
    /// Tells where a vertex gains most, by its row where it has one, or one can be drawn up, and nobody else has moved
    /// anything in this round, and else by gains that are read anew. One that another worker has moved by now isn't
    /// read: it stands in another block than at the opening.
    fn look(&mut self, shared: &Shared<'_>, v: u32, block: u32) -> Result<Option<Choice>, NoMemory>
        requires fit { IsFit shared.now.round.now shared.now.h.now shared.now.k self.old.mover self.old.desk }
        requires vertex { v < vertex_count shared.now.h.now }
        requires block { block < shared.now.k }
        ensures mover { self.new.mover ≡ self.old.mover }
        ensures desk { self.new.desk ≡ self.old.desk }
        ensures block { IfOk result (λ choice. IfSome choice (λ c. c.to < shared.now.k)) }
        ensures other { IfOk result (λ choice. IfSome choice (λ c. c.to ≢ block)) }
    {
        if shared.workers > 1 && self.mover.block(shared.round, v) != block {
            self.desk.leave(v);
            return Ok(None);
        }
        if !self.desk.is_read(v) && !shared.told.has(v) {
            let known = known(shared);
            self.desk.draw_up(&known, v, block)?;
        }
        if self.desk.is_read(v) && shared.progress.moves() == self.made {
            return Ok(self.desk.choose(shared, &mut self.mover, v, block));
        }
        Ok(if self.desk.read(shared, &mut self.mover, v, block)? {
            self.desk.choose(shared, &mut self.mover, v, block)
        } else {
            None
        })
    }

    /// Offers a vertex that was listed.
    fn offer(&mut self, shared: &Shared<'_>, v: u32) -> Result<(), NoMemory>
        requires fit { IsFit shared.now.round.now shared.now.h.now shared.now.k self.old.mover self.old.desk }
        requires vertex { v < vertex_count shared.now.h.now }
        ensures mover { self.new.mover ≡ self.old.mover }
        ensures desk { self.new.desk ≡ self.old.desk }
    {
        if shared.h.fix(v) != FREE {
            self.desk.leave(v);
            return Ok(());
        }
        let block = shared.round.opening(v);
        let choice = if self.desk.is_read(v) {
            self.desk.choose(shared, &mut self.mover, v, block)
        } else {
            self.look(shared, v, block)?
        };
        match choice {
            Some(choice) => self.desk.offer(choice.gain, choice.pull, v),
            None => Ok(()),
        }
    }

    /// Offers a seed, as it was read at the opening where there is room.
    fn offer_seed(&mut self, shared: &Shared<'_>, v: u32) -> Result<(), NoMemory>
        requires fit { IsFit shared.now.round.now shared.now.h.now shared.now.k self.old.mover self.old.desk }
        requires vertex { v < vertex_count shared.now.h.now }
        ensures mover { self.new.mover ≡ self.old.mover }
        ensures desk { self.new.desk ≡ self.old.desk }
    {
        let Opening::Moves(choice) = shared.known.openings[v as usize] else {
            return Ok(());
        };
        let load = self.mover.load(shared.round, choice.to);
        if shared.h.vertex_weight(v) <= shared.limit.saturating_sub(load) {
            return self.desk.offer_unread(choice.gain, choice.pull, v);
        }
        if shared.k == 2 {
            return Ok(());
        }
        self.offer(shared, v)
    }

    /// Tells the pins of a net that one of them moved.
    fn tell_net(
        &mut self,
        shared: &Shared<'_>,
        known: &Known<'_>,
        e: u32,
        from: u32,
        to: u32,
    ) -> Result<(), NoMemory>
        requires fit { IsFit shared.now.round.now shared.now.h.now shared.now.k self.old.mover self.old.desk }
        requires known { All (IsBelow shared.now.k) known.now.openings.now }
        requires net { e < net_count shared.now.h.now }
        requires pins { 2 ≤ length (net_of shared.now.h.now e).pins }
        requires from { from < shared.now.k }
        requires to { to < shared.now.k }
        ensures mover { self.new.mover ≡ self.old.mover }
        ensures desk { self.new.desk ≡ self.old.desk }
    {
        let net = scored(shared.h, e);
        let from_count = self.mover.count(shared.round, e, from);
        let to_count = self.mover.count(shared.round, e, to);
        let change = Change::of(&net, from, to, from_count, to_count);
        if !self.desk.walk(e) && change.is_nothing() {
            return Ok(());
        }
        'pins: for v in shared.h.pins(e) {
            self.desk
                .tell(known, shared.told, *v, shared.round.opening(*v), &change)?;
        }
        Ok(())
    }

    /// Tells the neighbours of a vertex that it moved, and offers those that it brings near.
    fn tell(&mut self, shared: &Shared<'_>, v: u32, from: u32, to: u32) -> Result<(), NoMemory>
        requires fit { IsFit shared.now.round.now shared.now.h.now shared.now.k self.old.mover self.old.desk }
        requires vertex { v < vertex_count shared.now.h.now }
        requires from { from < shared.now.k }
        requires to { to < shared.now.k }
        ensures mover { self.new.mover ≡ self.old.mover }
        ensures desk { self.new.desk ≡ self.old.desk }
    {
        let known = known(shared);
        'nets: for e in shared.h.nets_of(v) {
            let size = shared.h.pins(*e).len();
            if size >= 2 && size <= MOST_PINS {
                self.tell_net(shared, &known, *e, from, to)?;
            }
        }
        self.desk.approach(shared, &mut self.mover);
        'listed: for _ in 0..u32::MAX {
            let Some(u) = self.desk.unlist() else {
                break;
            };
            self.offer(shared, u)?;
        }
        Ok(())
    }

    /// Tries to move a vertex, and goes on from there.
    fn go(
        &mut self,
        shared: &Shared<'_>,
        v: u32,
        from: u32,
        to: u32,
        streak: &mut Streak,
    ) -> Result<(), NoMemory>
        requires fit { IsFit shared.now.round.now shared.now.h.now shared.now.k self.old.mover self.old.desk }
        requires vertex { v < vertex_count shared.now.h.now }
        requires free { IsFree shared.now.h.now v }
        requires from { from ≡ block_of shared.now.round.now.terms.part.blocks v }
        requires block { from < shared.now.k }
        requires to { to < shared.now.k }
        requires other { to ≢ from }
        ensures mover { self.new.mover ≡ self.old.mover }
        ensures desk { self.new.desk ≡ self.old.desk }
    {
        match self.mover.carry(shared.round, v, to)? {
            Outcome::Full => {}
            Outcome::Taken => self.desk.leave(v),
            Outcome::Moved(gain) => {
                self.desk.leave(v);
                self.made = self.made.wrapping_add(1);
                shared.progress.add(gain);
                streak.add(gain);
                if streak.is_over() {
                    shared.told.add_around(shared.h, v);
                } else {
                    self.tell(shared, v, from, to)?;
                }
            }
        }
        Ok(())
    }

    /// Takes up an offer: where the vertex gains less by now, it is offered again, and else it moves.
    fn take_up(
        &mut self,
        shared: &Shared<'_>,
        offer: Offer,
        streak: &mut Streak,
    ) -> Result<(), NoMemory>
        requires fit { IsFit shared.now.round.now shared.now.h.now shared.now.k self.old.mover self.old.desk }
        requires vertex { offer.vertex < vertex_count shared.now.h.now }
        ensures mover { self.new.mover ≡ self.old.mover }
        ensures desk { self.new.desk ≡ self.old.desk }
    {
        let (gain, v) = (offer.gain, offer.vertex);
        if self.desk.is_gone(v) || shared.h.fix(v) != FREE {
            return Ok(());
        }
        let block = shared.round.opening(v);
        match self.look(shared, v, block)? {
            None => Ok(()),
            Some(choice) if choice.gain < gain => self.desk.offer(choice.gain, choice.pull, v),
            Some(choice) => self.go(shared, v, block, choice.to, streak),
        }
    }

    /// Grows a search from the seeds of these numbers, of which the one that gains most moves whatever it gains.
    fn search(&mut self, shared: &Shared<'_>, from: u64, to: u64) -> Result<(), NoMemory>
        requires fit { IsFit shared.now.round.now shared.now.h.now shared.now.k self.old.mover self.old.desk }
        requires seeds { to ≤ length shared.now.seeds.now }
        ensures mover { self.new.mover ≡ self.old.mover }
        ensures desk { self.new.desk ≡ self.old.desk }
    {
        self.desk.begin_search();
        'seeds: for number in from..to {
            self.offer_seed(shared, shared.seed(number))?;
        }
        let mut streak = Streak::new();
        'turns: for _ in 0..u32::MAX {
            if streak.is_over() {
                break;
            }
            let Some(offer) = self.desk.pop() else {
                break;
            };
            self.take_up(shared, offer, &mut streak)?;
        }
        Ok(())
    }

    /// Draws lots of seeds, and grows a search from each lot. It passes the gate before each draw.
    fn draw_lots<G: Gate>(&mut self, shared: &Shared<'_>, gate: &G, number: u32)
        requires fit { IsFit shared.now.round.now shared.now.h.now shared.now.k self.old.mover self.old.desk }
        requires fresh { self.old.mover.seeds ≡ 0 }
        ensures mover { self.new.mover ≡ record self.old.mover { seeds = self.new.mover.seeds } }
        ensures desk { self.new.desk ≡ self.old.desk }
    {
        self.desk.begin_round();
        'seeds: for turn in 0..shared.seeds.len() {
            if !shared.progress.goes_on() {
                return;
            }
            gate.pass(number, turn as u64);
            let drawn = self.mover.draw(shared.round);
            let (from, to) = shared.lot(drawn);
            if from >= to {
                return;
            }
            if self.search(shared, from, to).is_err() {
                shared.progress.stop();
                return;
            }
        }
    }

    /// Fills its memory where it is new, and then draws lots of seeds and searches from them.
    pub(crate) fn run<G: Gate>(&mut self, shared: &Shared<'_>, gate: &G, number: u32)
        requires belongs { IsOf shared.now.round.now self.old.mover }
        requires blocks { self.old.desk.blocks ≡ shared.now.k }
        requires fresh { self.old.mover.seeds ≡ 0 }
        ensures mover { self.new.mover ≡ record self.old.mover { seeds = self.new.mover.seeds } }
        ensures blocks { self.new.desk.blocks ≡ self.old.desk.blocks }
    {
        if self.desk.fill(shared.h).is_err() {
            shared.progress.stop();
            return;
        }
        self.draw_lots(shared, gate, number);
    }
}
