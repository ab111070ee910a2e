//! The refiner of one pair of blocks after the other.

ghost use Rattle.std.specs.Prelude.{◌≡◌, ◌≤◌, ◌<◌, ◌^◌};

use crate::pass::flow_pass;
use flow_net::NoMemory;
use incidence::Hypergraph;
use pin_plain::Partition;
use refiner::{Log, Refiner, Tally, Task};
use round_log::Kind;
use std::alloc::Global;
use std::marker::Model;

/// A refiner by minimum cuts between two blocks, one pair after the other. It is seen as its tally.
#[derive(Debug, Drop)]
pub struct FlowPair {
    done: Tally,
}

impl Model for FlowPair {
    ghost use Rattle.refiner.specs.declared.pass.Tally.{Tally};

    ghost Value = { Tally };

    ghost view = { λ f. f.done };
}

impl FlowPair {
    /// Makes a refiner that has done nothing yet.
    pub fn new() -> Self
        ensures { result ≡ record { rounds = 0; gain = 0 } }
    {
        FlowPair {
            done: Tally { rounds: 0, gain: 0 },
        }
    }
}

impl Refiner for FlowPair {
    ghost use Rattle.round_log.specs.declared.record.Kind.TheVariants.{Flow};

    ghost may_run = { λ _. Unit {0} };

    ghost kind = { λ _. Flow };

    ghost tally = { λ f. f };

    fn kind(&self) -> Kind {
        Kind::Flow
    }

    fn tally(&self) -> Tally {
        self.done
    }

    fn refine(
        &mut self,
        alloc: Global,
        h: &Hypergraph,
        task: &Task,
        p: Partition,
        log: &mut Log,
    ) -> Result<Partition, NoMemory> {
        flow_pass(&mut self.done, alloc, h, task, p, log)
    }
}
