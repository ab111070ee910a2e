//! The passes of the refiners on one level.

ghost use Rattle.std.specs.Prelude.{◌≡◌, ◌≢◌, ◌≤◌, ◌<◌, ◌^◌, ◌++◌, All, AllPairs, IfOk, map};
ghost use Rattle.hg_defs.specs.Partition.{Fits};
ghost use Rattle.round_log.specs.TraceLaws.{IsSound};
ghost use Rattle.refiner.specs.Logging.{LogsPass};
ghost use Rattle.uncoarsen.specs.Passing.{RefinesLevel};

use hg_base::NoMemory;
use incidence::Hypergraph;
use pin_plain::Partition;
use refiner::{Log, Refiner, Task};
use std::alloc::Global;

/// Makes a pass of one refiner.
fn refine_one(
    alloc: Global,
    refiner: &mut Box<dyn Refiner>,
    h: &Hypergraph,
    task: &Task,
    part: Partition,
    log: &mut Log,
) -> Result<Partition, NoMemory>
    requires may_run { may_run refiner.old }
    requires belongs { part.hyper ≡ h.now }
    requires fits { Fits h.now part.k part.limit part.blocks }
    requires workers { (1 ≤ task.now.workers) × (task.now.workers ≤ 64) }
    requires tallied { ((tally refiner.old).rounds < 2 ^ 62) × ((tally refiner.old).gain < 2 ^ 62) }
    ensures may_run { may_run refiner.new }
    ensures kind { kind refiner.new ≡ kind refiner.old }
    ensures pass { IfOk result (λ q. LogsPass (kind refiner.old) h.now task.now part (tally refiner.old)
        (tally refiner.new) log.old log.new q) }
{
    refiner.refine(alloc, h, task, part, log)
}

/// Makes a pass of each refiner over one level, one after the other. They are of different kinds.
pub(crate) fn refine_level(
    alloc: Global,
    h: &Hypergraph,
    task: &Task,
    part: Partition,
    refiners: &mut [Box<dyn Refiner>],
    log: &mut Log,
) -> Result<Partition, NoMemory>
    requires may_run { All (λ b. may_run b) refiners.old }
    requires kinds { AllPairs (λ a b. a ≢ b) (map (λ b. kind b) refiners.old) }
    requires belongs { part.hyper ≡ h.now }
    requires sound { IsSound h.now part.k part.limit part.blocks }
    requires workers { (1 ≤ task.now.workers) × (task.now.workers ≤ 64) }
    requires tallied { All (λ b. ((tally b).rounds < 2 ^ 62) × ((tally b).gain < 2 ^ 62)) refiners.old }
    ensures may_run { All (λ b. may_run b) refiners.new }
    ensures kinds { map (λ b. kind b) refiners.new ≡ map (λ b. kind b) refiners.old }
    ensures level { IfOk result (λ q. RefinesLevel (map (λ b. kind b) refiners.old) h.now task.now part
        (map (λ b. tally b) refiners.old) (map (λ b. tally b) refiners.new) log.old log.new q) }
{
    let mut part = part;
    for i in 0..refiners.len() {
        part = refine_one(alloc, &mut refiners[i], h, task, part, log)?;
    }
    Ok(part)
}
