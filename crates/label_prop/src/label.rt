//! Label propagation as a refiner.

ghost use Rattle.std.specs.Prelude.{◌≡◌};

use crate::pass::label_pass;
use crew::{Gate, OpenGate};
use hg_base::NoMemory;
use incidence::Hypergraph;
use pin_plain::Partition;
use refiner::{Log, Refiner, Tally, Task};
use round_log::Kind;
use std::alloc::Global;
use std::marker::Model;
use std::thread::Threads;

/// Raced label propagation. It starts its threads with the handle `H`, and they pass the gate `G` before
/// each vertex. It is seen as its tally.
#[derive(Drop)]
pub struct LabelProp<H: Threads + Sync + Drop, G: Gate> {
    rt: H,
    gate: G,
    tally: Tally,
}

impl<H: Threads + Sync + Drop, G: Gate> Model for LabelProp<H, G> {
    ghost use Rattle.refiner.specs.declared.pass.Tally.{Tally};

    ghost Value = { Tally };

    ghost view = { λ l. l.tally };
}

impl<H: Threads + Sync + Drop, G: Gate> LabelProp<H, G> {
    /// Makes a refiner that has done nothing.
    pub fn new(rt: H, gate: G) -> Self
        ensures { result ≡ record { rounds = 0; gain = 0 } }
    {
        LabelProp {
            rt,
            gate,
            tally: Tally { rounds: 0, gain: 0 },
        }
    }
}

impl<H: Threads + Sync + Drop> Refiner for LabelProp<H, OpenGate> {
    ghost use Rattle.std.specs.Thread.{IsSync};
    ghost use Rattle.round_log.specs.declared.record.Kind.TheVariants.{Label};

    ghost may_run = { λ _. IsSync H.row };

    ghost kind = { λ _. Label };

    ghost tally = { λ t. t };

    fn kind(&self) -> Kind {
        Kind::Label
    }

    fn tally(&self) -> Tally {
        self.tally
    }

    fn refine(
        &mut self,
        alloc: Global,
        h: &Hypergraph,
        task: &Task,
        p: Partition,
        log: &mut Log,
    ) -> Result<Partition, NoMemory> {
        label_pass(
            &self.rt,
            &self.gate,
            &mut self.tally,
            alloc,
            h,
            task,
            p,
            log,
        )
    }
}
