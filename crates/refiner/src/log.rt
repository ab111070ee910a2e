//! The log of rounds.

ghost use Rattle.std.specs.Prelude.{◌≡◌, ◌++◌, [], All, OnOk, OnErr, IfOk, ◌⊎◌, false};
ghost use Rattle.round_log.specs.declared.record.Kind.TheVariants.{Label, Search};
ghost use Rattle.refiner.specs.Racing.{LogsRace};

use crate::race::record_race;
use hg_base::{Items, NoMemory};
use incidence::Hypergraph;
use move_table::{Closed, RaceParts};
use pin_plain::Partition;
use round_log::{Kind, LoggedRound, RoundList};
use std::alloc::Global;
use std::marker::Model;
use std::thread::Threads;

/// The rounds that refiners made, in their order. It is seen as the list of them.
#[derive(Debug, Drop)]
pub struct Log {
    rounds: Vec<LoggedRound>,
}

impl Model for Log {
    ghost use Rattle.std.specs.Prelude.{List};
    ghost use Rattle.round_log.specs.declared.record.LoggedRound.{LoggedRound};

    ghost Value = { List LoggedRound };

    ghost view = { λ l. l.rounds.items };
}

impl Log {
    /// Makes an empty log, which takes no memory yet.
    pub fn new(alloc: Global) -> Self
        ensures { result ≡ [] }
    {
        Log {
            rounds: Vec::new(alloc),
        }
    }

    /// The rounds so far.
    pub fn rounds(&self) -> &[LoggedRound]
        ensures { result.now ≡ self.now }
    {
        self.rounds.as_slice()
    }

    /// Gives the rounds, in the same memory.
    pub fn into_rounds(self) -> RoundList
        ensures { result ≡ self }
    {
        let Log { rounds } = self;
        Items::from_vec(rounds)
    }

    /// Adds rounds that weren't made on a shared table. Where there is no memory, none is added.
    pub fn add(&mut self, rounds: RoundList) -> Result<(), NoMemory>
        requires untabled { All (λ r. r.tabled ≡ false) rounds }
        ensures ok { OnOk result (self.new ≡ self.old ++ rounds) }
        ensures err { OnErr result (self.new ≡ self.old) }
    {
        let mut rounds = rounds.into_vec();
        self.rounds.append(&mut rounds)?;
        Ok(())
    }

    /// Rolls a closed round back to its best prefix, and adds it as a round that was made on a shared
    /// table. Answers the partition after the moves that were kept. No other call adds a round with
    /// this mark. Where there is no memory, none is added, and the closed round is dropped.
    pub fn race<R: Threads + Sync>(
        &mut self,
        rt: &R,
        alloc: Global,
        h: &Hypergraph,
        kind: Kind,
        level: u32,
        closed: Closed,
    ) -> Result<Partition, NoMemory>
        requires belongs { closed.part.hyper ≡ h.now }
        requires kind { (kind ≡ Label) ⊎ (kind ≡ Search) }
        ensures ok { IfOk result (λ q. LogsRace kind level h.now closed self.old self.new q) }
        ensures err { OnErr result (self.new ≡ self.old) }
    {
        let before = closed.opening_cost();
        let RaceParts {
            mut part,
            moves,
            gains,
        } = closed.into_parts();
        let round = record_race(rt, alloc, h, kind, level, &mut part, moves, gains, before)?;
        self.rounds.push(round)?;
        Ok(part)
    }
}
