//! A flow pass in waves.

ghost use Rattle.std.specs.Prelude.{◌≡◌, ℕ, ◌*◌, ◌<◌, ◌≤◌, ◌^◌, [], All, IfOk, OnOk, OnErr, false, length};
ghost use Rattle.hg_defs.specs.Hypergraph.{vertex_count};
ghost use Rattle.hg_defs.specs.Partition.{Fits};
ghost use Rattle.hg_defs.specs.Cost.{cost};
ghost use Rattle.round_log.specs.Passes.{block_pairs};
ghost use Rattle.round_log.specs.declared.record.Kind.TheVariants.{Flow};
ghost use Rattle.refiner.specs.Logging.{LogsPass, LogsRounds};
ghost use Rattle.flow_pair.specs.CutNets.{AreCutLists};
ghost use Rattle.flow_pair.specs.Turns.{TakesTurn, TakesTurns};
ghost use Rattle.flow_round.specs.PairTurns.{IsBooked, IsTurn, AreBooked, AreTurns, after_turn, after_turns};
ghost use Rattle.flow_round.specs.Waves.{AreWorkers, end_at, moves_at};

use crate::front::Front;
use crate::table::{empty_table, end_of, moves_of, no_moves, place_of};
use crate::worker::Worker;
use crew::Gate;
use flow_pair::{CutNets, NoMemory, PairEnd, PairSolver, record_moves};
use incidence::Hypergraph;
use pin_plain::Partition;
use refiner::{Log, Tally, Task};
use round_log::{LoggedRound, Moves, RoundList};
use std::alloc::Global;
use std::thread::Threads;

/// Records the round of a pair, where it has an end, and writes where it leads. Answers the cost afterwards.
fn record_turn(
    alloc: Global,
    h: &Hypergraph,
    level: u32,
    p: &Partition,
    blocks: &mut [u32],
    a: u32,
    b: u32,
    before: u64,
    end: &Option<PairEnd>,
    moves: &Moves,
    rounds: &mut Vec<LoggedRound>,
) -> Result<u64, NoMemory>
    requires belongs { p.now.hyper ≡ h.now }
    requires vertices { length blocks.old ≡ vertex_count h.now }
    requires fits { Fits h.now p.now.k p.now.limit blocks.old }
    requires before { before ≡ cost h.now blocks.old }
    requires small { before < 2 ^ 57 }
    requires turn { IsTurn h.now p.now.k p.now.limit blocks.old (a, b) end.now }
    requires booked { IsBooked h.now blocks.old end.now moves.now }
    ensures turn { OnOk result (TakesTurn h.now level a b (record p.now { blocks = blocks.old }) (record p.now
        { blocks = blocks.new }) rounds.old.items rounds.new.items) }
    ensures blocks { OnOk result (blocks.new ≡ after_turn blocks.old end.now) }
    ensures after { IfOk result (λ after. after ≡ cost h.now blocks.new) }
    ensures no_dearer { IfOk result (λ after. after ≤ before) }
{
    let Some(end) = end else {
        return Ok(before);
    };
    let round = record_moves(alloc, h, level, p, blocks, a, b, before, end, moves)?;
    let after = round.after;
    rounds.push(round)?;
    Ok(after)
}

/// Records the rounds of all pairs that have an end, in the order of a pass, and writes where they lead from the
/// blocks with which it began. Answers the cost afterwards.
fn record_turns(
    alloc: Global,
    h: &Hypergraph,
    level: u32,
    p: &Partition,
    blocks: &mut [u32],
    before: u64,
    ends: &[Option<PairEnd>],
    made: &[Moves],
    rounds: &mut Vec<LoggedRound>,
) -> Result<u64, NoMemory>
    requires belongs { p.now.hyper ≡ h.now }
    requires vertices { length blocks.old ≡ vertex_count h.now }
    requires fits { Fits h.now p.now.k p.now.limit blocks.old }
    requires before { before ≡ cost h.now blocks.old }
    requires small { before < 2 ^ 57 }
    requires table { length ends.now ≡ p.now.k * p.now.k }
    requires moves { length made.now ≡ p.now.k * p.now.k }
    requires turns { AreTurns h.now p.now.k p.now.limit (end_at p.now.k ends.now) (block_pairs p.now.k) blocks.old }
    requires booked { AreBooked h.now (end_at p.now.k ends.now) (moves_at p.now.k made.now) (block_pairs p.now.k)
        blocks.old }
    ensures turns { OnOk result (TakesTurns h.now level (block_pairs p.now.k) [] (record p.now { blocks = blocks.old })
        (record p.now { blocks = blocks.new }) rounds.old.items rounds.new.items) }
    ensures blocks { OnOk result (blocks.new ≡ after_turns (end_at p.now.k ends.now) (block_pairs p.now.k) blocks.old) }
    ensures after { IfOk result (λ after. after ≡ cost h.now blocks.new) }
    ensures no_dearer { IfOk result (λ after. after ≤ before) }
{
    let _blocks = p.blocks();
    let k = p.k();
    let mut cost = before;
    for a in 0..k {
        for b in a + 1..k {
            let place = place_of(k, a, b);
            let (end, moves) = (end_of(ends, place), moves_of(made, place));
            cost = record_turn(alloc, h, level, p, blocks, a, b, cost, end, moves, rounds)?;
        }
    }
    Ok(cost)
}

/// Workers that have done nothing.
fn workers_of(alloc: Global, h: &Hypergraph, count: u32) -> Result<Vec<Worker>, NoMemory>
    ensures count { IfOk result (λ workers. length workers.items ≡ count) }
    ensures workers { IfOk result (λ workers. AreWorkers h.now workers.items) }
{
    let mut workers = Vec::with_capacity(alloc, count as usize)?;
    let solver = PairSolver::new(alloc, h);
    for number in 0..count {
        workers.push(Worker {
            number,
            solver: solver.another(alloc, h),
            found: Vec::new(alloc),
            turn: 0,
        })?;
    }
    Ok(workers)
}

/// The cut nets of a partition, for which all workers look, and its cost, which they sum.
fn cut_and_cost<R: Threads + Sync>(
    rt: &R,
    alloc: Global,
    h: &Hypergraph,
    p: &Partition,
    workers: u32,
) -> Result<(CutNets, u64), NoMemory>
    requires belongs { p.now.hyper ≡ h.now }
    requires workers { (1 ≤ workers) × (workers ≤ 64) }
    ensures cut { IfOk result (λ found. AreCutLists h.now p.now.k p.now.blocks found.0) }
    ensures cost { IfOk result (λ found. found.1 ≡ cost h.now p.now.blocks) }
    ensures bound { IfOk result (λ found. found.1 < 2 ^ 57) }
{
    let cut = CutNets::of_with(rt, alloc, h, p, workers)?;
    Ok((cut, p.cost_with(rt, h, workers)))
}

/// Makes a flow pass over one level. The pairs of blocks are solved in waves of those with one sum,
/// which have no block in common, by all workers at once, but by no more than half as many as there are blocks: no
/// wave has more pairs. A worker passes the gate before each pair. Beside pairs whose blocks have much room fewer
/// workers start, and those pairs share the other threads.
/// Two pairs that share a block stand in the waves in the order of a pass, so the ends are those of a
/// pass in rising order, and their rounds are logged in that order at the end, with the costs there. Their
/// moves are those of the waves, which save the same in both orders. Answers the partition after them.
///
/// Where there is no memory, nothing is logged nor tallied, and the partition is dropped.
pub fn wave_pass<R: Threads + Sync, G: Gate>(
    rt: &R,
    gate: &G,
    tally: &mut Tally,
    alloc: Global,
    h: &Hypergraph,
    task: &Task,
    p: Partition,
    log: &mut Log,
) -> Result<Partition, NoMemory>
    requires belongs { p.hyper ≡ h.now }
    requires fits { Fits h.now p.k p.limit p.blocks }
    requires workers { (1 ≤ task.now.workers) × (task.now.workers ≤ 64) }
    requires tallied { (tally.old.rounds < 2 ^ 62) × (tally.old.gain < 2 ^ 62) }
    ensures pass { IfOk result (λ q. LogsPass Flow h.now task.now p tally.old tally.new log.old log.new q) }
    ensures part { OnErr result (LogsRounds false Flow h.now task.now p tally.old tally.new log.old log.new) }
{
    let level = task.level;
    let k = p.k();
    let start = p.blocks();
    let mut blocks = Vec::from_slice(alloc, start)?;
    let (cut, before) = cut_and_cost(rt, alloc, h, &p, task.workers)?;
    let mut workers = workers_of(alloc, h, task.workers.min(k / 2))?;
    let mut front = Front {
        cut,
        ends: empty_table(alloc, k)?,
        made: no_moves(alloc, k)?,
        part: p,
    };
    let threads = task.workers;
    front.take_waves(rt, gate, alloc, h, threads, workers.as_mut_slice())?;
    let mut rounds = Vec::new(alloc);
    let after = record_turns(
        alloc,
        h,
        level,
        &front.part,
        blocks.as_mut_slice(),
        before,
        front.ends.as_slice(),
        front.made.as_slice(),
        &mut rounds,
    )?;
    let count = rounds.len() as u64;
    log.add(RoundList::from_vec(rounds))?;
    tally.rounds += count;
    tally.gain += before - after;
    Ok(front.part)
}
