ghost use Rattle.std.specs.Prelude.{◌≡◌, ◌<◌, ◌≤◌, ◌^◌, ℕ, OnOk, IfOk, IfErr, true, false};
ghost use Rattle.std.specs.Prelude.{length, take, slice_index_or};
ghost use Rattle.move_core.specs.Events.{is_enabled};
ghost use Rattle.move_core.specs.Run.{run_of, all_enabled, IsStoppedBy, IsLeftAt};
ghost use Rattle.hg_defs.specs.Hypergraph.{IsFixedWithin};
ghost use Rattle.hg_defs.specs.Partition.{IsPartition, Fits};
ghost use Rattle.move_core.specs.State.{opened, setup_of};
ghost use Rattle.move_core.specs.Balance.{IsBooks};

use crate::books::Books;
use crate::events::Event;
use hg_base::{FlatHyper, NoMemory};
use std::alloc::Global;

/// Why a list of events did not run to its end.
#[derive(Clone, Copy, Debug, PartialEq, Eq)]
pub enum RunEnd {
    /// The event at this place, counted from 0, was the first that was not enabled at its turn.
    NotEnabled { at: u32 },
    /// There was no memory.
    NoMemory,
}

impl From<NoMemory> for RunEnd {
    ghost use Rattle.move_core.specs.declared.runs.RunEnd.TheVariants.{NoMemory as no_memory};

    ghost from_gives = { λ _ end. end ≡ no_memory };

    fn from(_error: NoMemory) -> Self {
        RunEnd::NoMemory
    }
}

impl Books {
    /// Makes the events, one after the other, up to the first that is not enabled at its turn.
    /// Where there is no memory, some first ones are made.
    pub fn make(&mut self, h: &FlatHyper, events: &[Event]) -> Result<(), RunEnd>
        requires graph { h.now ≡ self.old.setup.graph }
        requires events { length events.now < 2 ^ 32 }
        ensures enabled { OnOk result (all_enabled self.old events.now ≡ true) }
        ensures state { OnOk result (self.new ≡ run_of self.old events.now) }
        ensures refused { IfErr result (IsStoppedBy self.old events.now) }
        ensures left { IfErr result (λ end. IsLeftAt self.old events.now end self.new) }
        ensures balance { IsBooks self.new }
        ensures setup { self.new.setup ≡ self.old.setup }
    {
        let _ = &self.ledger;
        let mut at = 0;
        for event in events {
            if !self.enabled(h, *event) {
                return Err(RunEnd::NotEnabled { at });
            }
            match self.step(h, *event) {
                Ok(_found) => at += 1,
                Err(NoMemory) => return Err(RunEnd::NoMemory),
            }
        }
        Ok(())
    }
}

/// Opens the books of a round and makes the events, one after the other, up to the first that is
/// not enabled at its turn.
///
/// The partition has one block below `k` per vertex and fits the limit, each fix is free or below
/// `k`, and there are 1 to 64 passes.
pub fn run(
    alloc: Global,
    h: &FlatHyper,
    p: &[u32],
    k: u32,
    limit: u64,
    passes: u32,
    events: &[Event],
) -> Result<Books, RunEnd>
    requires partition { IsPartition h.now k p.now }
    requires fits { Fits h.now k limit p.now }
    requires fixed { IsFixedWithin h.now k }
    requires some { 1 ≤ passes }
    requires few { passes ≤ 64 }
    requires events { length events.now < 2 ^ 32 }
    ensures enabled { OnOk result (all_enabled (opened (setup_of h.now k limit p.now) passes) events.now ≡ true) }
    ensures state { IfOk result (λ books. books ≡ run_of (opened (setup_of h.now k limit p.now) passes) events.now) }
    ensures refused { IfErr result (IsStoppedBy (opened (setup_of h.now k limit p.now) passes) events.now) }
    ensures balance { IfOk result (λ books. IsBooks books) }
    ensures setup { IfOk result (λ books. books.setup ≡ setup_of h.now k limit p.now) }
{
    match Books::open(alloc, h, p, k, limit, passes) {
        Ok(mut books) => match books.make(h, events) {
            Ok(()) => Ok(books),
            Err(end) => Err(end),
        },
        Err(NoMemory) => Err(RunEnd::NoMemory),
    }
}
