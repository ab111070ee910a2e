//! The refiner of disjoint pairs of blocks at once.

ghost use Rattle.std.specs.Prelude.{◌≡◌};

use crate::pass::wave_pass;
use crew::{Gate, OpenGate};
use flow_pair::NoMemory;
use incidence::Hypergraph;
use pin_plain::Partition;
use refiner::{Log, Refiner, Tally, Task};
use round_log::Kind;
use std::alloc::Global;
use std::marker::Model;
use std::thread::Threads;

/// A refiner by minimum cuts between two blocks, disjoint pairs at once. It starts its threads with the
/// handle `H`, and they pass the gate `G` before each pair. It is seen as its tally.
#[derive(Drop)]
pub struct FlowRound<H: Threads + Sync + Drop, G: Gate> {
    rt: H,
    gate: G,
    tally: Tally,
}

impl<H: Threads + Sync + Drop, G: Gate> Model for FlowRound<H, G> {
    ghost use Rattle.refiner.specs.declared.pass.Tally.{Tally};

    ghost Value = { Tally };

    ghost view = { λ f. f.tally };
}

impl<H: Threads + Sync + Drop, G: Gate> FlowRound<H, G> {
    /// Makes a refiner that has done nothing.
    pub fn new(rt: H, gate: G) -> Self
        ensures { result ≡ record { rounds = 0; gain = 0 } }
    {
        FlowRound {
            rt,
            gate,
            tally: Tally { rounds: 0, gain: 0 },
        }
    }
}

impl<H: Threads + Sync + Drop> Refiner for FlowRound<H, OpenGate> {
    ghost use Rattle.std.specs.Thread.{IsSync};
    ghost use Rattle.round_log.specs.declared.record.Kind.TheVariants.{Flow};

    ghost may_run = { λ _. IsSync H.row };

    ghost kind = { λ _. Flow };

    ghost tally = { λ f. f };

    fn kind(&self) -> Kind {
        Kind::Flow
    }

    fn tally(&self) -> Tally {
        self.tally
    }

    fn refine(
        &mut self,
        alloc: Global,
        h: &Hypergraph,
        task: &Task,
        p: Partition,
        log: &mut Log,
    ) -> Result<Partition, NoMemory> {
        wave_pass(
            &self.rt,
            &self.gate,
            &mut self.tally,
            alloc,
            h,
            task,
            p,
            log,
        )
    }
}
