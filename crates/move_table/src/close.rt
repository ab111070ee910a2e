//! How a round is closed.

ghost use Rattle.std.specs.Prelude.{◌≡◌, ℕ, ◌+◌, ◌<◌, ◌≤◌, length, map, drop};
ghost use Rattle.std.specs.Prelude.{slice_index_or, IfOk, IfErr, OnOk, [], IsPermutation};
ghost use Rattle.hg_defs.specs.Replay.{replay};
ghost use Rattle.move_core.specs.declared.account.Stage.TheVariants.{Idle};
ghost use Rattle.move_table.specs.Steps.{IsResting};
ghost use Rattle.move_table.specs.Calls.{RacedPass};
ghost use Rattle.move_table.specs.Closing.{ArePassesOf, IsKeptPass, all_moves, all_numbers, all_gains};
ghost use Rattle.move_table.specs.Closing.{AreByNumber, laid, AreLaid, united_all, IsEnded};

use crate::closed::Closed;
use crate::grant::Done;
use crate::pass::{Pass, Passes};
use crate::round::Round;
use crate::rule::Balanced;
use crate::steps;
use crate::steps::{Place, Words};
use crate::view::{Terms, View};
use atomic_table::Table;
use hg_base::{Items, Move, NoMemory};
use std::alloc::Global;
use std::snapshot::Snapshot;
use std::thread::Threads;

/// What the passes leave: the moves by their numbers, and the gains.
#[derive(Drop)]
pub(crate) struct Gathered {
    moves: Vec<Move>,
    gains: Vec<i64>,
}

/// How many moves the passes have made.
fn count_moves(passes: &[Pass]) -> Result<usize, NoMemory>
    ensures { IfOk result (λ count. count ≡ length (all_moves passes.now)) }
{
    let mut count = 0usize;
    for pass in passes {
        let Some(more) = count.checked_add(pass.done().len()) else {
            return Err(NoMemory);
        };
        count = more;
    }
    Ok(count)
}

/// Lays the moves of a pass out by their numbers, where the list has those places.
fn lay_moves(done: &[Done], moves: &mut [Move])
    ensures { moves.new ≡ laid moves.old (map (λ d. d.number) done.now) (map (λ d. d.action) done.now) }
{
    for step in done {
        let place = step.number as usize;
        if place < moves.len() {
            moves[place] = step.action;
        }
    }
}

/// Takes all memory of a close, and lays out what the passes have done.
fn gather(alloc: Global, passes: &[Pass]) -> Result<Gathered, NoMemory>
    ensures moves { IfOk result (λ g. AreLaid passes.now g.moves.items) }
    ensures gains { IfOk result (λ g. g.gains.items ≡ all_gains passes.now) }
    ensures kept { OnOk result ((i : ℕ) (p : RacedPass) → i < length passes.now →
        IsKeptPass (slice_index_or passes.now i p)) }
{
    let blank = Move {
        vertex: 0,
        from: 0,
        to: 0,
        worker: 0,
        booked: 0,
    };
    let mut moves = vec![in alloc; blank; count_moves(passes)?]?;
    let mut gains = Vec::with_capacity(alloc, passes.len())?;
    for pass in passes {
        lay_moves(pass.done(), moves.as_mut_slice());
        gains.push(pass.gain())?;
    }
    Ok(Gathered { moves, gains })
}

/// The first pass takes all others over, the last one first.
fn unite(words: &Words, passes: Passes) -> Place
    requires some { 0 < length passes }
    requires wide { 0 < words.now.table_id.words }
    requires table { (i : ℕ) (p : RacedPass) → i < length passes → (slice_index_or passes i p).table ≡
        words.now.table_id }
    requires numbers { (i : ℕ) (p : RacedPass) → i < length passes → (slice_index_or passes i p).view.number ≡ i }
    requires idle { (i : ℕ) (p : RacedPass) → i < length passes → (slice_index_or passes i p).view.account.stage ≡
        Idle }
    ensures table { result.table_id ≡ words.now.table_id }
    ensures view { (p : RacedPass) → result.me ≡ (united_all (slice_index_or passes 0 p).view (drop 1 passes), []) }
    ensures resting { IsResting result.me.0 }
    ensures alone { result.me.0.stands + result.me.0.may ≡ length passes }
{
    let mut rest = passes.into_vec();
    let mut seat = rest.remove(0).into_seat();
    while let Some(pass) = rest.pop() {
        steps::join(words, &mut seat, pass.into_seat());
    }
    seat
}

/// Ends the words of a round of which all passes are given, and gives their memory back.
fn end_words(table: Table<(), View, Terms, Balanced, Global>, passes: Passes)
    requires some { 0 < length passes }
    requires wide { 0 < table.shared.table_id.words }
    requires bare { table.shared.table_id.slots ≡ 0 }
    requires table { (i : ℕ) (p : RacedPass) → i < length passes → (slice_index_or passes i p).table ≡
        table.shared.table_id }
    requires numbers { (i : ℕ) (p : RacedPass) → i < length passes → (slice_index_or passes i p).view.number ≡ i }
    requires idle { (i : ℕ) (p : RacedPass) → i < length passes → (slice_index_or passes i p).view.account.stage ≡
        Idle }
    ensures { IsEnded table.shared.key passes }
{
    let seat = unite(&table.shared, passes);
    let closed = table.close_with(seat);
    closed.free();
}

impl<'h> Round<'h> {
    /// Closes the round, of which all passes are given by rising number, none holding a grant. Many
    /// moves are made on the partition by threads, at most one for each pass. Where there is no memory,
    /// the round and the passes come back.
    pub fn close<R: Threads + Sync>(
        self,
        rt: &R,
        alloc: Global,
        passes: Passes,
    ) -> Result<Closed, (Round<'h>, Passes, NoMemory)>
        requires passes { ArePassesOf self passes }
        ensures opening { IfOk result (λ c. c.opening ≡ self.entry.terms.part.blocks) }
        ensures part { IfOk result (λ c. c.part ≡ record self.entry.terms.part { blocks = replay c.opening c.moves }) }
        ensures permuted { IfOk result (λ c. IsPermutation (all_moves passes) c.moves) }
        ensures moves { IfOk result (λ c. AreByNumber (all_numbers passes) (all_moves passes) c.moves) }
        ensures kept { OnOk result ((i : ℕ) (p : RacedPass) → i < length passes →
            IsKeptPass (slice_index_or passes i p)) }
        ensures gains { IfOk result (λ c. c.gains ≡ all_gains passes) }
        ensures refused { IfErr result (λ e. (e.0 ≡ self.entry) × (e.1 ≡ passes)) }
    {
        let Ok(gathered) = gather(alloc, passes.slice()) else {
            return Err((self, passes, NoMemory));
        };
        let Gathered { moves, gains } = gathered;
        let Round {
            hyper,
            terms,
            table,
            opening_cost,
        } = self;
        end_words(table, passes);
        let Terms { part, workers } = terms;
        let mut part = part.into_partition();
        let opening = Snapshot::of(&part);
        part.replay_with(rt, hyper, moves.as_slice(), workers);
        Ok(Closed {
            opening,
            opening_cost,
            part,
            moves: Items::from_vec(moves),
            gains: Items::from_vec(gains),
        })
    }
}
