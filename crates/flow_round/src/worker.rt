//! The workers that solve the pairs of a wave.

ghost use Rattle.std.specs.Prelude.{◌≡◌, ◌⊎◌, ℕ, ◌<◌, ◌≤◌, ◌+◌, ◌-◌, ◌*◌, [], All, IfOk, OnOk, length, map, true};
ghost use Rattle.std.specs.Thread.{IsSync};
ghost use Rattle.hg_defs.specs.Partition.{Fits};
ghost use Rattle.flow_pair.specs.CutNets.{AreCutLists};
ghost use Rattle.flow_round.specs.PairTurns.{IsPairBelow, IsTurn, is_of_wave};
ghost use Rattle.flow_round.specs.Waves.{AreTouched, AreWorkers, IsFound, IsSolved, HasEnd};
ghost use Rattle.flow_round.specs.Waves.{GainsEnds, HaveNoEnds, MayGainEnd, MayHaveEnds, end_at};

use crate::shares::Shares;
use crate::table::{end_of, place_of, put_end};
use crate::touched::{Touched, touched_pairs};
use crew::{Gate, each};
use flow_pair::{CutNets, NoMemory, PairEnd, PairSolver};
use incidence::Hypergraph;
use pin_plain::Partition;
use std::alloc::Global;
use std::sync::atomic::AtomicUsize;
use std::sync::atomic::Ordering::SeqCst;
use std::thread::Threads;

/// A pair of blocks, and the end that was found for it.
#[derive(Drop)]
pub(crate) struct Found {
    pub(crate) first: u32,
    pub(crate) second: u32,
    pub(crate) end: Option<PairEnd>,
}

/// A worker, and what it found in a wave.
#[derive(Drop)]
pub(crate) struct Worker {
    pub(crate) number: u32,
    pub(crate) solver: PairSolver,
    pub(crate) found: Vec<Found>,
    /// How often it passed the gate.
    pub(crate) turn: u64,
}

/// The end of a pair on the lent partition, found by at most so many threads.
fn solve_pair<R: Threads + Sync>(
    rt: &R,
    solver: &mut PairSolver,
    h: &Hypergraph,
    p: &Partition,
    cut: &CutNets,
    first: u32,
    second: u32,
    threads: u32,
) -> Result<Option<PairEnd>, NoMemory>
    requires threads { 1 ≤ threads }
    requires solver { solver.old ≡ h.now }
    requires belongs { p.now.hyper ≡ h.now }
    requires fits { Fits p.now.hyper p.now.k p.now.limit p.now.blocks }
    requires cut { AreCutLists h.now p.now.k p.now.blocks cut.now }
    requires below { IsPairBelow p.now.k (first, second) }
    ensures solver { solver.new ≡ solver.old }
    ensures turn { IfOk result (IsTurn h.now p.now.k p.now.limit p.now.blocks (first, second)) }
{
    let nets = solver.nets_between(h, p, cut, first, second)?;
    solver.solve_with(rt, threads, h, p, first, second, nets.as_slice())
}

impl Worker {
    /// Solves a pair on the lent partition, by at most so many threads.
    fn solve<R: Threads + Sync>(
        &mut self,
        rt: &R,
        h: &Hypergraph,
        p: &Partition,
        cut: &CutNets,
        first: u32,
        second: u32,
        threads: u32,
    ) -> Result<(), NoMemory>
        requires threads { 1 ≤ threads }
        requires belongs { p.now.hyper ≡ h.now }
        requires fits { Fits p.now.hyper p.now.k p.now.limit p.now.blocks }
        requires cut { AreCutLists h.now p.now.k p.now.blocks cut.now }
        requires below { IsPairBelow p.now.k (first, second) }
        requires solved { IsSolved h.now p.now (first + second) self.old }
        ensures { IsSolved h.now p.now (first + second) self.new }
    {
        let solver = &mut self.solver;
        let end = solve_pair(rt, solver, h, p, cut, first, second, threads)?;
        self.found.push(Found { first, second, end })?;
        Ok(())
    }

    /// Solves pairs of a wave on the lent partition: each time the next one that no worker took yet. It passes
    /// the gate before each of them. Where there is no memory, it takes no further ones.
    fn run<R: Threads + Sync, G: Gate>(
        &mut self,
        rt: &R,
        gate: &G,
        h: &Hypergraph,
        p: &Partition,
        cut: &CutNets,
        wave: u32,
        pairs: &[Touched],
        shares: Shares,
        next: &AtomicUsize,
    )
        requires belongs { p.now.hyper ≡ h.now }
        requires fits { Fits p.now.hyper p.now.k p.now.limit p.now.blocks }
        requires cut { AreCutLists h.now p.now.k p.now.blocks cut.now }
        requires wave { All (λ a. is_of_wave p.now.k wave a ≡ true) (map (λ pair. pair.1) pairs.now) }
        requires solved { IsSolved h.now p.now wave self.old }
        ensures { IsSolved h.now p.now wave self.new }
    {
        for _ in 0..pairs.len() {
            let place = next.fetch_add(1, SeqCst);
            if place >= pairs.len() {
                return;
            }
            gate.pass(self.number, self.turn);
            self.turn = self.turn.wrapping_add(1);
            let first = pairs[place].1;
            let second = wave - first;
            let threads = shares.threads_of(place);
            if self.solve(rt, h, p, cut, first, second, threads).is_err() {
                return;
            }
        }
    }

    /// Writes the ends that it found into the table, and has none then.
    fn hand_over(&mut self, k: u32, ends: &mut [Option<PairEnd>])
        requires few { k ≤ 256 }
        requires table { length ends.old ≡ k * k }
        requires below { All (λ t. IsPairBelow k (t.first, t.second)) self.old.found.items }
        ensures solver { self.new.solver ≡ self.old.solver }
        ensures idle { self.new.found.items ≡ [] }
        ensures ends { (x : ℕ × ℕ) → IsPairBelow k x → (end_at k ends.new x ≡ end_at k ends.old x) ⊎ HasEnd
            self.old.found.items x (end_at k ends.new x) }
    {
        while let Some(found) = self.found.pop() {
            let Found { first, second, end } = found;
            put_end(ends, place_of(k, first, second), end);
        }
    }
}

/// Lets all workers write the ends that they found into the table.
fn hand_all_over(
    workers: &mut [Worker],
    h: &Hypergraph,
    p: &Partition,
    wave: u32,
    ends: &mut [Option<PairEnd>],
)
    requires few { p.now.k ≤ 256 }
    requires table { length ends.old ≡ p.now.k * p.now.k }
    requires solved { All (IsSolved h.now p.now wave) workers.old }
    ensures workers { AreWorkers h.now workers.new }
    ensures ends { MayGainEnd h.now p.now wave ends.old ends.new }
{
    let k = p.k();
    for worker in workers.iter_mut() {
        worker.hand_over(k, ends);
    }
}

/// Solves those pairs of a wave that have no end yet, since a worker had no memory, each by this thread alone, and
/// writes their ends into the table.
fn solve_rest<R: Threads + Sync>(
    rt: &R,
    solver: &mut PairSolver,
    h: &Hypergraph,
    p: &Partition,
    cut: &CutNets,
    wave: u32,
    pairs: &[Touched],
    ends: &mut [Option<PairEnd>],
) -> Result<(), NoMemory>
    requires solver { solver.old ≡ h.now }
    requires belongs { p.now.hyper ≡ h.now }
    requires fits { Fits p.now.hyper p.now.k p.now.limit p.now.blocks }
    requires cut { AreCutLists h.now p.now.k p.now.blocks cut.now }
    requires pairs { AreTouched h.now p.now wave p.now.k (map (λ pair. pair.1) pairs.now) }
    requires table { length ends.old ≡ p.now.k * p.now.k }
    requires ends { MayHaveEnds h.now p.now wave ends.old }
    ensures solver { solver.new ≡ solver.old }
    ensures ends { OnOk result (GainsEnds h.now p.now wave ends.old ends.new) }
{
    let _blocks = p.blocks();
    let k = p.k();
    for pair in pairs {
        let first = pair.1;
        let second = wave - first;
        let place = place_of(k, first, second);
        if end_of(ends, place).is_none() {
            let end = solve_pair(rt, solver, h, p, cut, first, second, 1)?;
            put_end(ends, place, end);
        }
    }
    Ok(())
}

/// Lets the workers solve pairs of a wave on the lent partition, all at once.
fn solve_all<R: Threads + Sync, G: Gate>(
    rt: &R,
    gate: &G,
    h: &Hypergraph,
    p: &Partition,
    cut: &CutNets,
    wave: u32,
    pairs: &[Touched],
    shares: Shares,
    workers: &mut [Worker],
)
    requires belongs { p.now.hyper ≡ h.now }
    requires fits { Fits p.now.hyper p.now.k p.now.limit p.now.blocks }
    requires cut { AreCutLists h.now p.now.k p.now.blocks cut.now }
    requires wave { All (λ a. is_of_wave p.now.k wave a ≡ true) (map (λ pair. pair.1) pairs.now) }
    requires solved { All (IsSolved h.now p.now wave) workers.old }
    ensures { All (IsSolved h.now p.now wave) workers.new }
{
    let next = AtomicUsize::new(0);
    each(
        rt,
        workers,
        &|_i, worker: &mut Worker|
            requires { IsSync R.row × (p.now.hyper ≡ h.now) × Fits p.now.hyper p.now.k p.now.limit p.now.blocks
                × AreCutLists h.now p.now.k p.now.blocks cut.now
                × All (λ a. is_of_wave p.now.k wave a ≡ true) (map (λ pair. pair.1) pairs.now)
                × IsSolved h.now p.now wave worker.now }
            ensures { IsSolved h.entry.now p.entry.now wave worker.exit.now }
        {
            worker.run(rt, gate, h, p, cut, wave, pairs, shares, &next);
        },
    );
}

/// Lets the workers solve the pairs of a wave that a net touches, all at once on the lent partition, and writes the
/// ends into the table.
fn solve_pairs<R: Threads + Sync, G: Gate>(
    rt: &R,
    gate: &G,
    h: &Hypergraph,
    p: &Partition,
    cut: &CutNets,
    wave: u32,
    pairs: &[Touched],
    shares: Shares,
    workers: &mut [Worker],
    ends: &mut [Option<PairEnd>],
) -> Result<(), NoMemory>
    requires belongs { p.now.hyper ≡ h.now }
    requires fits { Fits p.now.hyper p.now.k p.now.limit p.now.blocks }
    requires cut { AreCutLists h.now p.now.k p.now.blocks cut.now }
    requires pairs { AreTouched h.now p.now wave p.now.k (map (λ pair. pair.1) pairs.now) }
    requires some { 0 < length workers.old }
    requires workers { AreWorkers h.now workers.old }
    requires table { length ends.old ≡ p.now.k * p.now.k }
    requires none { HaveNoEnds p.now.k wave ends.old }
    ensures workers { OnOk result (AreWorkers h.now workers.new) }
    ensures ends { OnOk result (GainsEnds h.now p.now wave ends.old ends.new) }
{
    let _blocks = p.blocks();
    solve_all(rt, gate, h, p, cut, wave, pairs, shares, workers);
    hand_all_over(workers, h, p, wave, ends);
    let solver = &mut workers[0].solver;
    solve_rest(rt, solver, h, p, cut, wave, pairs, ends)
}

/// Solves the pairs of a wave that a net touches, all at once on the lent partition, and writes their ends into
/// the table. No more workers start than there are pairs, and a single pair is solved in this thread. Large pairs share
/// those of `threads` threads that the workers leave. Where no net touches a pair, it has no end.
pub(crate) fn solve_wave<R: Threads + Sync, G: Gate>(
    rt: &R,
    gate: &G,
    alloc: Global,
    h: &Hypergraph,
    p: &Partition,
    cut: &CutNets,
    wave: u32,
    threads: u32,
    workers: &mut [Worker],
    ends: &mut [Option<PairEnd>],
) -> Result<(), NoMemory>
    requires belongs { p.now.hyper ≡ h.now }
    requires fits { Fits p.now.hyper p.now.k p.now.limit p.now.blocks }
    requires cut { AreCutLists h.now p.now.k p.now.blocks cut.now }
    requires some { 0 < length workers.old }
    requires workers { AreWorkers h.now workers.old }
    requires table { length ends.old ≡ p.now.k * p.now.k }
    requires none { HaveNoEnds p.now.k wave ends.old }
    ensures workers { OnOk result (AreWorkers h.now workers.new) }
    ensures ends { OnOk result (GainsEnds h.now p.now wave ends.old ends.new) }
{
    let _blocks = p.blocks();
    let made = touched_pairs(alloc, h, p, wave, cut)?;
    let pairs = made.as_slice();
    if pairs.is_empty() {
        return Ok(());
    }
    let least = workers[0].solver.least_weight();
    let shares = Shares::of(pairs, least, workers.len(), threads);
    let workers = &mut workers[..shares.workers];
    solve_pairs(rt, gate, h, p, cut, wave, pairs, shares, workers, ends)
}
