//! What every refiner keeps.

use crate::log::Log;
use crate::pass::{Tally, Task};
use hg_base::NoMemory;
use incidence::Hypergraph;
use pin_plain::Partition;
use round_log::Kind;
use std::alloc::Global;

/// What improves the partition of one level by passes of one kind, and tallies what they did.
///
/// A contract sees three things of it: whether it may run, which is what it needs to start threads;
/// its kind; and its tally.
pub trait Refiner: Drop {
    ghost use Rattle.std.specs.Prelude.{◌≡◌, ◌≤◌, ◌<◌, ◌^◌, IfOk, OnErr, false};
    ghost use Rattle.hg_defs.specs.Partition.{Fits};
    ghost use Rattle.round_log.specs.declared.record.Kind.{Kind};
    ghost use Rattle.refiner.specs.declared.pass.Tally.{Tally};
    ghost use Rattle.refiner.specs.Logging.{LogsPass, LogsRounds};

    ghost may_run: { Self → Type 0 };

    ghost kind: { Self → Kind };

    ghost tally: { Self → Tally };

    /// The kind of its rounds.
    fn kind(&self) -> Kind
        ensures { result ≡ kind self.now };

    /// What it did so far.
    fn tally(&self) -> Tally
        ensures { result ≡ tally self.now };

    /// Makes a pass over one level, from a partition that fits, and logs its rounds. Answers the
    /// partition after them.
    ///
    /// Where there is no memory, the rounds that were logged are the first ones of a pass, each of
    /// them whole, the tally counts just them, and the partition is dropped.
    fn refine(
        &mut self,
        alloc: Global,
        h: &Hypergraph,
        task: &Task,
        p: Partition,
        log: &mut Log,
    ) -> Result<Partition, NoMemory>
        requires may_run { may_run self.old }
        requires belongs { p.hyper ≡ h.now }
        requires fits { Fits h.now p.k p.limit p.blocks }
        requires workers { (1 ≤ task.now.workers) × (task.now.workers ≤ 64) }
        requires tallied { ((tally self.old).rounds < 2 ^ 62) × ((tally self.old).gain < 2 ^ 62) }
        ensures may_run { may_run self.new }
        ensures kind { kind self.new ≡ kind self.old }
        ensures pass { IfOk result (λ q. LogsPass (kind self.old) h.now task.now p (tally self.old) (tally self.new)
            log.old log.new q) }
        ensures part { OnErr result (LogsRounds false (kind self.old) h.now task.now p (tally self.old)
            (tally self.new) log.old log.new) };
}
