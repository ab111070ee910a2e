//! A pass: what one worker of a round does. Each call is the atomic steps of certain events; none
//! waits for another pass, and none tries again.

ghost use Rattle.std.specs.Prelude.{◌≡◌, ◌≢◌, ℕ, ◌+◌, ◌-◌, ◌*◌, ◌^◌, ◌<◌, ◌≤◌, ◌↔◌, ℤ, pos, ◌-ℤ◌, IfOk, IfErr, OnOk};
ghost use Rattle.std.specs.Prelude.{OnErr, IsTrue, true, false, [], ◌∷◌, ◌++◌, vec_len, map};
ghost use Rattle.std.specs.Vec.{vec_capacity};
ghost use Rattle.hg_defs.specs.Hypergraph.{vertex_count, net_count, weight_of, IsFree};
ghost use Rattle.hg_defs.specs.Partition.{block_of};
ghost use Rattle.hg_base.specs.Packed.{fields_of, field};
ghost use Rattle.pin_plain.specs.Counts.{net_bits, net_words};
ghost use Rattle.move_core.specs.declared.account.Stage.TheVariants.{Idle};
ghost use Rattle.move_core.specs.declared.events.Event.{Event};
ghost use Rattle.move_core.specs.declared.events.Event.TheVariants.{Claim, Unclaim, Reserve, TakeBack, Seed, Peek};
ghost use Rattle.move_core.specs.declared.events.Word.TheVariants as word;
ghost use Rattle.move_core.specs.State.{blank};
ghost use Rattle.move_core.specs.Balance.{arrived};
ghost use Rattle.move_table.specs.Standing.{terms_setup};
ghost use Rattle.move_table.specs.Seen.{IsClaimRead, IsNameRead, IsCountRead};
ghost use Rattle.move_table.specs.Closing.{IsKeptPass};
ghost use Rattle.move_table.specs.Calls.{IsPassOf, IsHeldUnmoved, IsMoveMade, stepped, granted, grant_at};

use crate::carry::carry_pins;
use crate::grant::{Done, Full, Grant};
use crate::place::first_block;
use crate::round::Round;
use crate::steps::{Place, add, load, store, subtract, swap};
use hg_base::{Items, Move, NoMemory, field};
use move_core::{Event, Word};
use std::alloc::Global;
use std::marker::Model;

/// One of the passes of a round. A thread makes its moves with it.
#[derive(Drop)]
pub struct Pass {
    pub(crate) number: u32,
    pub(crate) grant: Option<Grant>,
    pub(crate) done: Vec<Done>,
    pub(crate) gain: i64,
    pub(crate) seat: Place,
}

/// The passes of a round, by rising number.
pub type Passes = Items<Pass>;

impl Model for Pass {
    ghost use Rattle.std.specs.Prelude.{◌-◌, length};
    ghost use Rattle.std.specs.Vec.{vec_capacity};
    ghost use Rattle.move_table.specs.Calls.{RacedPass, IsPass};

    ghost Value = { RacedPass };

    ghost view = { λ p. record {
      table = p.seat.table_id;
      view = p.seat.me.0;
      spare = vec_capacity p.done - length
          p.done.items;
    } };

    ghost invariant = { λ p. IsPass p.number p.grant p.done.items p.gain p.seat.me };
}

/// Writes a move down, for which there is room.
fn write_down(done: &mut Vec<Done>, action: Done)
    requires { vec_len done.old < vec_capacity done.old }
    ensures items { done.new.items ≡ done.old.items ++ action ∷ [] }
    ensures room { vec_capacity done.old ≤ vec_capacity done.new }
{
    if done.push(action).is_err() {
        unreachable!()
    }
}

impl Pass {
    /// Makes a pass that has done nothing, of its seat.
    pub(crate) fn fresh(alloc: Global, number: u32, seat: Place) -> Self
        requires empty { seat.me.1 ≡ [] }
        requires number { seat.me.0.number ≡ number }
        requires account { seat.me.0.account ≡ blank true }
        requires alone { (seat.me.0.stands ≡ 1) × (seat.me.0.may ≡ 0) }
        ensures table { result.table ≡ seat.table_id }
        ensures view { result.view ≡ seat.me.0 }
    {
        Pass {
            number,
            grant: None,
            done: Vec::new(alloc),
            gain: 0,
            seat,
        }
    }

    /// What the pass has done, for its round to be closed.
    pub(crate) fn done(&self) -> &[Done]
        ensures moves { map (λ d. d.action) result.now ≡ self.now.view.account.moves }
        ensures numbers { map (λ d. d.number) result.now ≡ self.now.view.account.numbers }
        ensures kept { IsKeptPass self.now }
    {
        self.done.as_slice()
    }

    /// What the pass has booked.
    pub(crate) fn gain(&self) -> i64
        ensures { result ≡ self.now.view.account.gain }
    {
        self.gain
    }

    /// Gives the pass's place at the words.
    pub(crate) fn into_seat(self) -> Place
        ensures table { result.table_id ≡ self.table }
        ensures view { result.me ≡ (self.view, []) }
        ensures live { self.view.account.live ≡ true }
        ensures alone { (self.view.stands ≡ 1) × (self.view.may ≡ 0) }
    {
        self.seat
    }

    /// The number of the pass.
    pub fn number(&self) -> u32
        ensures { result ≡ self.now.view.number }
    {
        self.number
    }

    /// The grant that the pass holds.
    pub fn held(&self) -> Option<Grant>
        ensures { result ≡ grant_at self.now.view.account.stage }
    {
        self.grant
    }

    /// Tries to take a free vertex, and says whether it did: one step, which didn't where it found
    /// the claim 1. The pass must hold no grant.
    pub fn claim(&mut self, round: &Round, v: u32) -> bool
        requires belongs { IsPassOf round.now self.old }
        requires idle { self.old.view.account.stage ≡ Idle }
        requires vertex { v < vertex_count round.now.terms.part.hyper }
        requires free { IsFree round.now.terms.part.hyper v }
        ensures step { self.new ≡ stepped (Claim self.old.view.number v) self.new.view.found self.old }
        ensures granted { (result ≡ true) ↔ (self.new.view.found ≡ 0) }
        ensures refused { (result ≡ false) ↔ (self.new.view.found ≡ 1) }
        ensures read { IsClaimRead self.old.view.account v self.new.view.found }
        ensures idle { self.new.view.account.stage ≡ Idle }
        ensures holds { (result ≡ true) → IsHeldUnmoved self.new.view.account v }
    {
        let number = self.number;
        let found = swap(
            round.shared(),
            &mut self.seat,
            Event::Claim {
                pass: number,
                vertex: v,
            },
            v as usize,
            1,
        );
        found == 0
    }

    /// Gives a vertex back, which the pass holds and hasn't moved. The pass must hold no grant.
    pub fn unclaim(&mut self, round: &Round, v: u32)
        requires belongs { IsPassOf round.now self.old }
        requires idle { self.old.view.account.stage ≡ Idle }
        requires vertex { v < vertex_count round.now.terms.part.hyper }
        requires holds { IsHeldUnmoved self.old.view.account v }
        ensures { self.new ≡ stepped (Unclaim self.old.view.number v) 1 self.old }
    {
        let number = self.number;
        store(
            round.shared(),
            &mut self.seat,
            Event::Unclaim {
                pass: number,
                vertex: v,
            },
            v as usize,
            0,
        );
    }

    /// Tries to reserve room for a vertex in another block: it adds the vertex's weight to the
    /// block's load, in one step. Where the load with the weight passes the limit, a second step
    /// takes the weight back, and the vertex stays claimed. The pass must hold the vertex, unmoved,
    /// and no grant.
    pub fn reserve(&mut self, round: &Round, v: u32, to: u32) -> Result<Grant, Full>
        requires belongs { IsPassOf round.now self.old }
        requires idle { self.old.view.account.stage ≡ Idle }
        requires vertex { v < vertex_count round.now.terms.part.hyper }
        requires holds { IsHeldUnmoved self.old.view.account v }
        requires block { to < round.now.terms.part.k }
        requires other { to ≢ block_of round.now.terms.part.blocks v }
        ensures step { IfOk result (λ grant. self.new ≡ stepped (Reserve self.old.view.number v to) grant.seen
            self.old) }
        ensures granted { IfOk result (λ grant.
            grant ≡ record { vertex = v; from = block_of round.now.terms.part.blocks v; to = to; seen = grant.seen }) }
        ensures held { IfOk result (λ grant. self.new.view.account.stage ≡ granted grant) }
        ensures room { IfOk result (λ grant. grant.seen + weight_of round.now.terms.part.hyper v ≤
            round.now.terms.part.limit) }
        ensures steps { IfErr result (λ full. self.new ≡ stepped (TakeBack self.old.view.number) 0
            (stepped (Reserve self.old.view.number v to) full.seen self.old)) }
        ensures cause { IfErr result (λ full. round.now.terms.part.limit < full.seen + weight_of
            round.now.terms.part.hyper v) }
        ensures kept { OnErr result (self.new.view.account ≡ self.old.view.account) }
    {
        let number = self.number;
        let weight = round.hyper().vertex_weight(v);
        let found = add(
            round.shared(),
            &mut self.seat,
            Event::Reserve {
                pass: number,
                vertex: v,
                to,
            },
            round.load_place(to),
            weight,
        );
        if found + weight <= round.limit() {
            let grant = Grant {
                vertex: v,
                from: round.opening(v),
                to,
                seen: found,
            };
            self.grant = Some(grant);
            return Ok(grant);
        }
        subtract(
            round.shared(),
            &mut self.seat,
            Event::TakeBack { pass: number },
            round.load_place(to),
            round.hyper().vertex_weight(v),
        );
        Err(Full { seen: found })
    }

    /// Gives up a grant, which the pass must hold: its weight is taken back, and the vertex stays
    /// claimed.
    pub fn cancel(&mut self, round: &Round, grant: Grant)
        requires belongs { IsPassOf round.now self.old }
        requires held { self.old.view.account.stage ≡ granted grant }
        ensures step { self.new ≡ stepped (TakeBack self.old.view.number) 0 self.old }
        ensures idle { self.new.view.account.stage ≡ Idle }
    {
        let number = self.number;
        subtract(
            round.shared(),
            &mut self.seat,
            Event::TakeBack { pass: number },
            round.load_place(grant.to),
            round.hyper().vertex_weight(grant.vertex),
        );
        self.grant = None;
    }

    /// Moves the vertex of a grant, which the pass must hold, with room for one move more, and
    /// answers what it booked: the cost that its own steps saw saved. The pass holds no grant then.
    pub fn carry(&mut self, round: &Round, grant: Grant) -> i64
        requires belongs { IsPassOf round.now self.old }
        requires held { self.old.view.account.stage ≡ granted grant }
        requires room { 1 ≤ self.old.spare }
        ensures table { self.new.table ≡ self.old.table }
        ensures moved { IsMoveMade (terms_setup round.now.terms) self.old.view.number grant self.old.view
            self.new.view
            result }
        ensures alone { (self.new.view.stands ≡ self.old.view.stands) × (self.new.view.terms ≡ self.old.view.terms) ×
            (self.new.view.number ≡ self.old.view.number) }
        ensures idle { self.new.view.account.stage ≡ Idle }
        ensures spare { self.old.spare ≤ self.new.spare + 1 }
    {
        let number = self.number;
        let drawn = add(
            round.shared(),
            &mut self.seat,
            Event::Draw { pass: number },
            round.next_place(),
            1,
        );
        store(
            round.shared(),
            &mut self.seat,
            Event::Name { pass: number },
            round.name_place(grant.vertex),
            u64::from(grant.to),
        );
        let booked = carry_pins(round, &mut self.seat, number, &grant, drawn);
        subtract(
            round.shared(),
            &mut self.seat,
            Event::GiveBack { pass: number },
            round.load_place(grant.from),
            round.hyper().vertex_weight(grant.vertex),
        );
        self.gain += booked;
        self.grant = None;
        write_down(
            &mut self.done,
            Done {
                number: drawn,
                action: Move {
                    vertex: grant.vertex,
                    from: grant.from,
                    to: grant.to,
                    worker: number,
                    booked,
                },
            },
        );
        booked
    }

    /// Makes room for one move more.
    pub fn room(&mut self) -> Result<(), NoMemory>
        ensures ok { OnOk result (1 ≤ self.new.spare) }
        ensures same { (self.new.table ≡ self.old.table) × (self.new.view ≡ self.old.view) }
        ensures kept { self.old.spare ≤ self.new.spare }
    {
        self.done.reserve(1)?;
        Ok(())
    }

    /// The block of a vertex, as its name word tells it. It decides nothing.
    pub fn peek_name(&mut self, round: &Round, v: u32) -> u32
        requires belongs { IsPassOf round.now self.old }
        requires vertex { v < vertex_count round.now.terms.part.hyper }
        ensures step { self.new ≡ stepped (Peek self.old.view.number (word.Name v)) result self.old }
        ensures read { IsNameRead (terms_setup round.now.terms) self.old.view.account v result }
    {
        let number = self.number;
        let found = load(
            round.shared(),
            &mut self.seat,
            Event::Peek {
                pass: number,
                word: Word::Name(v),
            },
            round.name_place(v),
        );
        found as u32
    }

    /// The pins of a net in a block, as the count tells them. It decides nothing.
    pub fn peek_count(&mut self, round: &Round, e: u32, b: u32) -> u64
        requires belongs { IsPassOf round.now self.old }
        requires net { e < net_count round.now.terms.part.hyper }
        requires block { b < round.now.terms.part.k }
        ensures step { self.new ≡ stepped (Peek self.old.view.number (word.Count e b)) result self.old }
        ensures read { IsCountRead (terms_setup round.now.terms) self.old.view.account e b result }
    {
        let number = self.number;
        let place = round.count_place(e, b);
        let found = load(
            round.shared(),
            &mut self.seat,
            Event::Peek {
                pass: number,
                word: Word::Count(e, b),
            },
            place.word,
        );
        field(found, place.bits, place.field)
    }

    /// The counts of a net in all blocks of one of its words, as the word tells them: `64 / bits`
    /// fields, for which [`field`] reads, where `bits` is [`Round::count_bits`] of the net. The first
    /// one is that of the block `index * (64 / bits)`. One step, the peek of that count, which reads all
    /// of them at once; none of them decides anything.
    pub fn peek_counts(&mut self, round: &Round, e: u32, index: u32) -> u64
        requires belongs { IsPassOf round.now self.old }
        requires net { e < net_count round.now.terms.part.hyper }
        requires index { index * fields_of (net_bits round.now.terms.part.hyper e) < round.now.terms.part.k }
        ensures step { let bits = net_bits round.now.terms.part.hyper e in
            self.new ≡ stepped (Peek self.old.view.number (word.Count e (index * fields_of bits)))
            (field result bits 0) self.old }
        ensures read { let bits = net_bits round.now.terms.part.hyper e in (j : ℕ) → j < fields_of bits →
            index * fields_of bits + j < round.now.terms.part.k → IsCountRead (terms_setup round.now.terms)
            self.old.view.account e (index * fields_of bits + j) (field result bits j) }
    {
        let number = self.number;
        let words = round.shared();
        let net = round.net(e);
        let b = first_block(net.bits, index);
        load(
            words,
            &mut self.seat,
            Event::Peek {
                pass: number,
                word: Word::Count(e, b),
            },
            net.start as usize + 1 + index as usize,
        )
    }

    /// The weight in a block, as its load word tells it, with all that is reserved there. It decides
    /// nothing.
    pub fn peek_weight(&mut self, round: &Round, b: u32) -> u64
        requires belongs { IsPassOf round.now self.old }
        requires block { b < round.now.terms.part.k }
        ensures step { self.new ≡ stepped (Peek self.old.view.number (word.Load b)) result self.old }
        ensures own { arrived round.now.terms.part.hyper b self.old.view.account.moves ≤ result }
    {
        let number = self.number;
        load(
            round.shared(),
            &mut self.seat,
            Event::Peek {
                pass: number,
                word: Word::Load(b),
            },
            round.load_place(b),
        )
    }

    /// The number of blocks of a net, as its spread word tells it less 64: with passes in the middle
    /// of a move it may be off, and even below 0. It decides nothing.
    pub fn peek_spread(&mut self, round: &Round, e: u32) -> i64
        requires belongs { IsPassOf round.now self.old }
        requires net { e < net_count round.now.terms.part.hyper }
        ensures step { self.new ≡ stepped (Peek self.old.view.number (word.Spread e)) self.new.view.found self.old }
        ensures less { result ≡ pos self.new.view.found -ℤ pos 64 }
    {
        let number = self.number;
        let found = load(
            round.shared(),
            &mut self.seat,
            Event::Peek {
                pass: number,
                word: Word::Spread(e),
            },
            round.net(e).start as usize,
        );
        found as i64 - 64
    }

    /// The next seed: the cursor, which the step raises by one. The pass must have drawn fewer than
    /// 2^32 seeds.
    pub fn next_seed(&mut self, round: &Round) -> u64
        requires belongs { IsPassOf round.now self.old }
        requires few { self.old.view.account.seeds < 2 ^ 32 }
        ensures step { self.new ≡ stepped (Seed self.old.view.number) result self.old }
        ensures own { self.old.view.account.seeds ≤ result }
    {
        let number = self.number;
        add(
            round.shared(),
            &mut self.seat,
            Event::Seed { pass: number },
            round.cursor_place(),
            1,
        )
    }
}
