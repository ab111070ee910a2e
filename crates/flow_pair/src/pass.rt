//! A flow pass: one round for each pair of blocks that a net touches, in rising order.

ghost use Rattle.std.specs.Prelude.{◌≡◌, ◌<◌, ◌≤◌, ◌^◌, [], IfOk, OnOk, OnErr, false};
ghost use Rattle.hg_defs.specs.Partition.{Fits};
ghost use Rattle.hg_defs.specs.Cost.{cost};
ghost use Rattle.round_log.specs.Passes.{block_pairs};
ghost use Rattle.round_log.specs.declared.record.Kind.TheVariants.{Flow};
ghost use Rattle.refiner.specs.Logging.{LogsPass, LogsRounds};
ghost use Rattle.flow_pair.specs.Courses.{IsOnCourse};
ghost use Rattle.flow_pair.specs.Turns.{TakesTurn, TakesTurns};

use crate::cut_nets::CutNets;
use crate::round::record_round;
use crate::solve::PairSolver;
use flow_net::NoMemory;
use incidence::Hypergraph;
use pin_plain::Partition;
use refiner::{Log, Tally, Task};
use round_log::{LoggedRound, RoundList};
use std::alloc::Global;

/// A flow pass on its way over a hypergraph.
#[derive(Drop)]
struct Course {
    level: u32,
    part: Partition,
    /// The cost of the partition.
    cost: u64,
    /// The rounds so far.
    rounds: Vec<LoggedRound>,
    cut: CutNets,
    solver: PairSolver,
}

impl Course {
    /// Makes the round of a pair where a net touches it.
    fn take_turn(&mut self, alloc: Global, h: &Hypergraph, a: u32, b: u32) -> Result<(), NoMemory>
        requires course { IsOnCourse h.now self.old }
        requires order { a < b }
        requires second { b < self.old.part.k }
        ensures course { OnOk result (IsOnCourse h.now self.new) }
        ensures turn { OnOk result (TakesTurn h.now self.old.level a b self.old.part self.new.part
            self.old.rounds.items self.new.rounds.items) }
        ensures level { self.new.level ≡ self.old.level }
        ensures no_dearer { OnOk result (self.new.cost ≤ self.old.cost) }
    {
        let _blocks = self.part.blocks();
        let nets = self.solver.nets_between(h, &self.part, &self.cut, a, b)?;
        let found = self.solver.solve(h, &self.part, a, b, nets.as_slice())?;
        let Some(end) = found else {
            return Ok(());
        };
        let round = record_round(alloc, h, self.level, &mut self.part, a, b, self.cost, &end)?;
        self.cost = round.after;
        self.cut.add_nets_of(alloc, h, round.moves.slice(), a, b)?;
        self.rounds.push(round)?;
        Ok(())
    }

    /// Makes the rounds of all pairs.
    fn take_turns(&mut self, alloc: Global, h: &Hypergraph) -> Result<(), NoMemory>
        requires course { IsOnCourse h.now self.old }
        ensures turns { OnOk result (TakesTurns h.now self.old.level (block_pairs self.old.part.k) [] self.old.part
            self.new.part self.old.rounds.items self.new.rounds.items) }
        ensures cost { OnOk result (self.new.cost ≡ cost h.now self.new.part.blocks) }
        ensures no_dearer { OnOk result (self.new.cost ≤ self.old.cost) }
    {
        let k = self.part.k();
        for a in 0..k {
            for b in a + 1..k {
                self.take_turn(alloc, h, a, b)?;
            }
        }
        Ok(())
    }
}

/// Makes a flow pass over one level: for each pair of blocks in rising order that a net touches at its
/// turn, one round that assigns the pair's region as cheaply as can be. The rounds are logged and
/// tallied all together at the end. Answers the partition after them.
///
/// Where there is no memory, nothing is logged nor tallied, and the partition is dropped.
pub fn flow_pass(
    tally: &mut Tally,
    alloc: Global,
    h: &Hypergraph,
    task: &Task,
    p: Partition,
    log: &mut Log,
) -> Result<Partition, NoMemory>
    requires belongs { p.hyper ≡ h.now }
    requires fits { Fits h.now p.k p.limit p.blocks }
    requires tallied { (tally.old.rounds < 2 ^ 62) × (tally.old.gain < 2 ^ 62) }
    ensures pass { IfOk result (λ q. LogsPass Flow h.now task.now p tally.old tally.new log.old log.new q) }
    ensures part { OnErr result (LogsRounds false Flow h.now task.now p tally.old tally.new log.old log.new) }
{
    let level = task.level;
    let _parted = p.blocks();
    let before = p.cost(h);
    let cut = CutNets::of(alloc, h, &p)?;
    let mut course = Course {
        level,
        part: p,
        cost: before,
        rounds: Vec::new(alloc),
        cut,
        solver: PairSolver::new(alloc, h),
    };
    course.take_turns(alloc, h)?;
    let count = course.rounds.len() as u64;
    log.add(RoundList::from_vec(course.rounds))?;
    tally.rounds += count;
    tally.gain += before - course.cost;
    Ok(course.part)
}
