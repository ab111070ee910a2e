//! How a round begins: its table and its passes.

ghost use Rattle.std.specs.Prelude.{◌≡◌, ◌<◌, ◌≤◌, [], IfOk, IfErr, length};
ghost use Rattle.hg_defs.specs.Cost.{cost};
ghost use Rattle.hg_defs.specs.Partition.{Fits};
ghost use Rattle.move_core.specs.State.{blank};
ghost use Rattle.move_table.specs.Standing.{IsTerms, first_view};
ghost use Rattle.move_table.specs.Calls.{AreFresh};

use crate::pass::{Pass, Passes};
use crate::round::Round;
use crate::rule::Balanced;
use crate::steps;
use crate::steps::{Place, Words};
use crate::view::{Terms, View};
use atomic_table::Table;
use hg_base::{Items, NoMemory};
use incidence::Hypergraph;
use pin_plain::Partition;
use std::alloc::Global;
use std::marker::Model;
use std::thread::Threads;

/// Makes the passes of a round, of which the first one has the seat.
fn make_passes(alloc: Global, words: &Words, seat: Place, workers: u32) -> Result<Passes, NoMemory>
    requires table { (seat.table_id ≡ words.now.table_id) × (0 < words.now.table_id.words) }
    requires first { seat.me ≡ (first_view words.now.key, []) }
    requires workers { workers ≡ words.now.key.workers }
    requires some { 1 ≤ workers }
    ensures { IfOk result (λ passes. AreFresh words.now.table_id words.now.key passes) }
{
    let mut seat = seat;
    let mut passes = Vec::with_capacity(alloc, workers as usize)?;
    for number in 1..workers {
        let other = steps::split(words, &mut seat);
        passes.push(Pass::fresh(alloc, number, other))?;
    }
    passes.insert(0, Pass::fresh(alloc, 0, seat))?;
    Ok(Items::from_vec(passes))
}

/// What a round begins with, its words and its passes, before it is opened. It is made off lent terms, so that their
/// partition can be read meanwhile.
#[derive(Drop)]
pub struct Begun {
    table: Table<(), View, Terms, Balanced, Global>,
    passes: Passes,
}

impl Model for Begun {
    ghost use Rattle.std.specs.Prelude.{◌≡◌};
    ghost use Rattle.move_table.specs.Standing.{terms_setup};
    ghost use Rattle.move_table.specs.Places.{word_count};
    ghost use Rattle.move_table.specs.Calls.{Beginning, AreFresh};

    ghost Value = { Beginning };

    ghost view = { λ b. record { table = b.table.shared.table_id; terms = b.table.shared.key; passes = b.passes } };

    ghost invariant = { λ b. (b.table.shared.table_id.words ≡ word_count (terms_setup b.table.shared.key))
        × (b.table.shared.table_id.slots ≡ 0)
        × AreFresh b.table.shared.table_id b.table.shared.key b.passes };
}

impl Begun {
    /// Takes all memory of a round over these terms, copies its words, and makes its passes.
    pub fn new(alloc: Global, terms: &Terms) -> Result<Self, NoMemory>
        requires { IsTerms terms.now }
        ensures terms { IfOk result (λ b. b.terms ≡ terms.now) }
        ensures passes { IfOk result (λ b. AreFresh b.table b.terms b.passes) }
    {
        let (table, seat) = Table::of_words(alloc, terms.part.words(), terms)?;
        let passes = make_passes(alloc, &table.shared, seat, terms.workers)?;
        Ok(Begun { table, passes })
    }
}

impl<'h> Round<'h> {
    /// The round over these terms, with what it begins with, its passes, and the cost at its opening.
    pub fn of(
        hyper: &'h Hypergraph,
        terms: Terms,
        opening_cost: u64,
        begun: Begun,
    ) -> (Round<'h>, Passes)
        requires over { IsTerms terms }
        requires belongs { terms.part.hyper ≡ hyper.now }
        requires begun { begun.terms ≡ terms }
        requires cost { opening_cost ≡ cost hyper.now terms.part.blocks }
        ensures terms { result.0.terms ≡ terms }
        ensures table { result.0.table ≡ begun.table }
        ensures given { result.1 ≡ begun.passes }
        ensures passes { AreFresh result.0.table result.0.terms result.1 }
    {
        let Begun { table, passes } = begun;
        let round = Round {
            hyper,
            terms,
            table,
            opening_cost,
        };
        (round, passes)
    }

    /// Opens a round over a hypergraph and a partition of it, which must fit, with 1 to 64 passes,
    /// which have done nothing. Where there is no memory, the partition comes back.
    pub fn open<R: Threads + Sync>(
        rt: &R,
        alloc: Global,
        hyper: &'h Hypergraph,
        part: Partition,
        workers: u32,
    ) -> Result<(Round<'h>, Passes), (Partition, NoMemory)>
        requires belongs { part.hyper ≡ hyper.now }
        requires fits { Fits part.hyper part.k part.limit part.blocks }
        requires some { 1 ≤ workers }
        requires few { workers ≤ 64 }
        ensures terms { IfOk result (λ r. r.0.terms ≡ record { part = part; workers = workers }) }
        ensures passes { IfOk result (λ r. AreFresh r.0.table r.0.terms r.1) }
        ensures refused { IfErr result (λ e. e.0 ≡ part) }
    {
        let opening_cost = part.cost_with(rt, hyper, workers);
        Round::open_at(rt, alloc, hyper, part, workers, opening_cost)
    }

    /// Does what [`open`](Self::open) does, where the cost of the partition is known.
    pub fn open_at<R: Threads + Sync>(
        rt: &R,
        alloc: Global,
        hyper: &'h Hypergraph,
        part: Partition,
        workers: u32,
        opening_cost: u64,
    ) -> Result<(Round<'h>, Passes), (Partition, NoMemory)>
        requires belongs { part.hyper ≡ hyper.now }
        requires fits { Fits part.hyper part.k part.limit part.blocks }
        requires some { 1 ≤ workers }
        requires few { workers ≤ 64 }
        requires cost { opening_cost ≡ cost hyper.now part.blocks }
        ensures terms { IfOk result (λ r. r.0.terms ≡ record { part = part; workers = workers }) }
        ensures passes { IfOk result (λ r. AreFresh r.0.table r.0.terms r.1) }
        ensures refused { IfErr result (λ e. e.0 ≡ part) }
    {
        let part = part.into_ready(rt, hyper, workers);
        let _blocks = part.blocks();
        let terms = Terms { part, workers };
        match Begun::new(alloc, &terms) {
            Ok(begun) => Ok(Round::of(hyper, terms, opening_cost, begun)),
            Err(NoMemory) => {
                let Terms { part, workers: _ } = terms;
                Err((part.into_partition(), NoMemory))
            }
        }
    }
}
