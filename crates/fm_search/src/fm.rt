//! The refiner of localized searches.

use crate::pass::search_pass;
use crew::{Gate, OpenGate};
use hg_base::NoMemory;
use incidence::Hypergraph;
use pin_plain::Partition;
use refiner::{Log, Refiner, Tally, Task};
use round_log::Kind;
use std::alloc::Global;
use std::marker::Model;
use std::thread::Threads;

/// Refines by localized searches, whose workers pass a gate. Contracts see its tally.
#[derive(Drop)]
pub struct FmSearch<H, G> {
    rt: H,
    gate: G,
    tally: Tally,
}

impl<H, G> Model for FmSearch<H, G> {
    ghost use Rattle.refiner.specs.declared.pass.Tally.{Tally};

    ghost Value = { Tally };

    ghost view = { λ s. s.tally };
}

impl<H: Threads + Sync + Drop, G: Gate> FmSearch<H, G> {
    ghost use Rattle.std.specs.Prelude.{◌≡◌};

    /// A refiner that made no pass yet.
    pub fn new(rt: H, gate: G) -> Self
        ensures { result ≡ record { rounds = 0; gain = 0 } }
    {
        FmSearch {
            rt,
            gate,
            tally: Tally { rounds: 0, gain: 0 },
        }
    }
}

impl<H: Threads + Sync + Drop> Refiner for FmSearch<H, OpenGate> {
    ghost use denote.Param.Send.{IsSync};
    ghost use Rattle.round_log.specs.declared.record.Kind.TheVariants.{Search};

    ghost may_run = { λ _. IsSync H.row };

    ghost kind = { λ _. Search };

    ghost tally = { λ s. s };

    fn kind(&self) -> Kind {
        Kind::Search
    }

    fn tally(&self) -> Tally {
        self.tally
    }

    fn refine(
        &mut self,
        alloc: Global,
        h: &Hypergraph,
        task: &Task,
        p: Partition,
        log: &mut Log,
    ) -> Result<Partition, NoMemory> {
        search_pass(
            &self.rt,
            &self.gate,
            &mut self.tally,
            alloc,
            h,
            task,
            p,
            log,
        )
    }
}
