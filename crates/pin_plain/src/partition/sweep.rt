//! Sweeps over all vertices, until no single move helps.

ghost use Rattle.std.specs.Prelude.{◌≡◌, ◌≢◌, ℕ, ◌+◌, ◌*◌, ◌<◌, ◌≤◌, ◌^◌, List, [], ◌∷◌, ◌++◌, length, All};
ghost use Rattle.std.specs.Prelude.{ℤ, pos, ◌-ℤ◌, ◌≤ℤ◌, ◌<ℤ◌, false, IsTrue, ◌↔◌, IfOk, IfSome, OnOk};
ghost use Rattle.std.specs.Prelude.{OnErr, option_map, option_to_list};
ghost use Rattle.hg_defs.specs.Sums.{total_z};
ghost use Rattle.hg_defs.specs.Hypergraph.{vertex_count, IsWithinLimits};
ghost use Rattle.hg_defs.specs.Replay.{replay};
ghost use Rattle.hg_defs.specs.Moves as sweeps;
ghost use Rattle.hg_defs.specs.Moves.{IsSettled, best_block, gain, move_of};
ghost use Rattle.pin_plain.specs.Quiet.{AreQuiet};
ghost use Rattle.pin_plain.specs.Scores.{IsClear};
ghost use Rattle.pin_plain.specs.Settling.{IsSettledWithin, Settles, BreaksOff};

use crate::partition::Partition;
use crate::partition::marking::{quiet_marks, unmarked};
use crate::quiet::wake;
use crate::scores::Scores;
use hg_base::{Gains, Move, NoMemory, Verts};
use incidence::Hypergraph;
use round_log::{Kind, LoggedRound, Moves, RoundList};
use std::alloc::Global;
use std::mem;
use std::thread::Threads;

impl Partition {
    /// The best block of a vertex, and the gain there, where there is one.
    pub(crate) fn best_move(
        &self,
        h: &Hypergraph,
        v: u32,
        scores: &mut Scores,
    ) -> Option<(u32, u64)>
        requires belongs { self.now.hyper ≡ h.now }
        requires vertex { v < vertex_count h.now }
        requires clear { IsClear scores.old.sums }
        ensures best { option_map (λ m. m.0) result ≡ best_block h.now self.now.limit self.now.blocks v self.now.k }
        ensures gain { IfSome result (λ m. pos m.1 ≡ gain h.now self.now.blocks v m.0) }
        ensures bound { IfSome result (λ m. m.1 < 2 ^ 55) }
        ensures clear { IsClear scores.new.sums }
    {
        scores.seek(&self.lend(h), v).best
    }

    /// Whether no single allowed move of a vertex from `first` up to below `end` makes the partition cheaper.
    pub fn settled_within(&self, h: &Hypergraph, first: u32, end: u32) -> bool
        requires belongs { self.now.hyper ≡ h.now }
        requires within { end ≤ vertex_count h.now }
        ensures { IsTrue result ↔ IsSettledWithin h.now self.now.k self.now.limit self.now.blocks first end }
    {
        let mut scores = Scores::new();
        for v in first..end {
            if self.best_move(h, v, &mut scores).is_some() {
                return false;
            }
        }
        true
    }

    /// Whether no single allowed move makes the partition cheaper.
    pub fn settled(&self, h: &Hypergraph) -> bool
        requires belongs { self.now.hyper ≡ h.now }
        ensures { IsTrue result ↔ IsSettled h.now self.now.k self.now.limit self.now.blocks }
    {
        self.settled_within(h, 0, h.vertices())
    }

    /// Moves a vertex to its best block, where there is one, and answers the move. A marked vertex isn't
    /// looked at.
    fn visit(
        &mut self,
        h: &Hypergraph,
        v: u32,
        scores: &mut Scores,
        marks: &mut [bool],
    ) -> Option<Move>
        requires belongs { self.old.hyper ≡ h.now }
        requires vertex { v < vertex_count h.now }
        requires clear { IsClear scores.old.sums }
        requires quiet { AreQuiet h.now self.old.k self.old.blocks marks.old }
        ensures made { result ≡ option_map (move_of h.now self.old.blocks v)
            (best_block h.now self.old.limit self.old.blocks v self.old.k) }
        ensures after { self.new ≡ record self.old { blocks = replay self.old.blocks (option_to_list result) } }
        ensures clear { IsClear scores.new.sums }
        ensures quiet { AreQuiet h.now self.old.k self.new.blocks marks.new }
    {
        if marks[v as usize] {
            return None;
        }
        let sought = scores.seek(&self.lend(h), v);
        let Some((to, gain)) = sought.best else {
            marks[v as usize] = sought.quiet;
            return None;
        };
        let from = self.blocks()[v as usize];
        wake(&self.lend(h), v, to, marks);
        self.shift(h, v, to);
        Some(Move {
            vertex: v,
            from,
            to,
            worker: 0,
            booked: gain as i64,
        })
    }

    /// Sweeps, where the marked vertices are quiet and need no visit. Those that are marked then are quiet.
    fn sweep_marked(
        &mut self,
        alloc: Global,
        h: &Hypergraph,
        marks: &mut [bool],
        log: &mut Moves,
    ) -> Result<bool, NoMemory>
        requires belongs { self.old.hyper ≡ h.now }
        requires quiet { AreQuiet h.now self.old.k self.old.blocks marks.old }
        ensures after { OnOk result (self.new ≡ record self.old {
          blocks = replay self.old.blocks (sweeps.sweep h.now self.old.k self.old.limit self.old.blocks);
        }) }
        ensures log { OnOk result (log.new ≡ log.old ++ sweeps.sweep h.now self.old.k self.old.limit self.old.blocks) }
        ensures settled { IfOk result (λ moved. (moved ≡ false) ↔ IsSettled h.now self.old.k self.old.limit
            self.old.blocks) }
        ensures quiet { OnOk result (AreQuiet h.now self.old.k self.new.blocks marks.new) }
        ensures err { OnErr result ((self.new ≡ self.old) × (log.new ≡ log.old)) }
    {
        let count = h.vertices();
        let mut moves = mem::replace(log, Moves::new(alloc)).into_vec();
        let before = moves.len();
        if moves.reserve(count as usize).is_err() {
            *log = Moves::from_vec(moves);
            return Err(NoMemory);
        }
        let mut scores = Scores::new();
        for v in 0..count {
            let Some(step) = self.visit(h, v, &mut scores, marks) else {
                continue;
            };
            moves.push(step)?;
        }
        let moved = moves.len() > before;
        *log = Moves::from_vec(moves);
        Ok(moved)
    }

    /// Visits all vertices in rising number, and moves each to its allowed block of the highest gain above
    /// 0, the lowest block at a tie. The moves are appended to the log with their gains.
    ///
    /// Answers whether there were moves: false exactly where the partition was settled. Where there is no
    /// memory, nothing is changed.
    pub fn sweep(
        &mut self,
        alloc: Global,
        h: &Hypergraph,
        log: &mut Moves,
    ) -> Result<bool, NoMemory>
        requires belongs { self.old.hyper ≡ h.now }
        ensures after { OnOk result (self.new ≡ record self.old {
          blocks = replay self.old.blocks (sweeps.sweep h.now self.old.k self.old.limit self.old.blocks);
        }) }
        ensures log { OnOk result (log.new ≡ log.old ++ sweeps.sweep h.now self.old.k self.old.limit self.old.blocks) }
        ensures settled { IfOk result (λ moved. (moved ≡ false) ↔ IsSettled h.now self.old.k self.old.limit
            self.old.blocks) }
        ensures err { OnErr result ((self.new ≡ self.old) × (log.new ≡ log.old)) }
    {
        let mut marks = unmarked(alloc, h)?;
        self.sweep_marked(alloc, h, marks.as_mut_slice(), log)
    }

    /// Sweeps as [`Self::sweep`] does, by the same moves. Threads look for the vertices that gain nothing first,
    /// and the sweep looks at the others alone.
    pub fn sweep_with<R: Threads + Sync>(
        &mut self,
        rt: &R,
        alloc: Global,
        h: &Hypergraph,
        workers: u32,
        log: &mut Moves,
    ) -> Result<bool, NoMemory>
        requires belongs { self.old.hyper ≡ h.now }
        requires some { 1 ≤ workers }
        ensures after { OnOk result (self.new ≡ record self.old {
          blocks = replay self.old.blocks (sweeps.sweep h.now self.old.k self.old.limit self.old.blocks);
        }) }
        ensures log { OnOk result (log.new ≡ log.old ++ sweeps.sweep h.now self.old.k self.old.limit self.old.blocks) }
        ensures settled { IfOk result (λ moved. (moved ≡ false) ↔ IsSettled h.now self.old.k self.old.limit
            self.old.blocks) }
        ensures err { OnErr result ((self.new ≡ self.old) × (log.new ≡ log.old)) }
    {
        let mut marks = quiet_marks(rt, alloc, h, self, workers)?;
        self.sweep_marked(alloc, h, marks.as_mut_slice(), log)
    }

    /// Sweeps until the partition is settled, and appends a round for each sweep that moved something.
    /// Answers the number of these rounds.
    ///
    /// Only the first sweep looks at all vertices. A later one looks at those that moved, those whose nets a
    /// move changed so that they may gain more, and those that wait for room.
    ///
    /// Where there is no memory, the logged sweeps were made, or one more.
    pub fn settle(
        &mut self,
        alloc: Global,
        h: &Hypergraph,
        log: &mut RoundList,
    ) -> Result<u64, NoMemory>
        requires belongs { self.old.hyper ≡ h.now }
        ensures kept { self.new ≡ record self.old { blocks = self.new.blocks } }
        ensures ok { IfOk result (Settles h.now self.old.k self.old.limit self.old.blocks self.new.blocks log.old
            log.new) }
        ensures err { OnErr result (BreaksOff h.now self.old.k self.old.limit self.old.blocks self.new.blocks log.old
            log.new) }
    {
        let marks = unmarked(alloc, h)?;
        self.settle_from(alloc, h, marks, log)
    }

    /// Settles the partition as [`Self::settle`] does, by the same moves. Threads look for the vertices that
    /// gain nothing first, and the first sweep looks at the others alone.
    pub fn settle_with<R: Threads + Sync>(
        &mut self,
        rt: &R,
        alloc: Global,
        h: &Hypergraph,
        workers: u32,
        log: &mut RoundList,
    ) -> Result<u64, NoMemory>
        requires belongs { self.old.hyper ≡ h.now }
        requires workers { (1 ≤ workers) × (workers ≤ 64) }
        ensures kept { self.new ≡ record self.old { blocks = self.new.blocks } }
        ensures ok { IfOk result (Settles h.now self.old.k self.old.limit self.old.blocks self.new.blocks log.old
            log.new) }
        ensures err { OnErr result (BreaksOff h.now self.old.k self.old.limit self.old.blocks self.new.blocks log.old
            log.new) }
    {
        let marks = quiet_marks(rt, alloc, h, self, workers)?;
        self.settle_from(alloc, h, marks, log)
    }

    /// Settles the partition, where the marked vertices are quiet.
    fn settle_from(
        &mut self,
        alloc: Global,
        h: &Hypergraph,
        mut marks: Vec<bool>,
        log: &mut RoundList,
    ) -> Result<u64, NoMemory>
        requires belongs { self.old.hyper ≡ h.now }
        requires quiet { AreQuiet h.now self.old.k self.old.blocks marks.items }
        requires bounds { IsWithinLimits h.now }
        ensures kept { self.new ≡ record self.old { blocks = self.new.blocks } }
        ensures ok { IfOk result (Settles h.now self.old.k self.old.limit self.old.blocks self.new.blocks log.old
            log.new) }
        ensures err { OnErr result (BreaksOff h.now self.old.k self.old.limit self.old.blocks self.new.blocks log.old
            log.new) }
    {
        let mut before = self.cost(h);
        let mut rounds = 0;
        loop {
            let mut moves = Moves::new(alloc);
            if !self.sweep_marked(alloc, h, marks.as_mut_slice(), &mut moves)? {
                return Ok(rounds);
            }
            let after = before - saved_by(moves.slice());
            // The sweep reserved a place for each vertex; what is logged takes its moves' places alone.
            let made = moves.copy()?;
            log.push(swept(alloc, made, before, after)?)?;
            rounds += 1;
            before = after;
        }
    }
}

/// What moves save together, none of which is booked with a loss.
fn saved_by(moves: &[Move]) -> u64
    requires gains { All (λ m. pos 0 ≤ℤ m.booked) moves.now }
    requires bound { total_z (λ m. m.booked) moves.now <ℤ pos (2 ^ 57) }
    ensures { pos result ≡ total_z (λ m. m.booked) moves.now }
{
    let mut saved = 0;
    for step in moves {
        saved += step.booked as u64;
    }
    saved
}

/// The round of a sweep of the file's hypergraph.
fn swept(alloc: Global, moves: Moves, before: u64, after: u64) -> Result<LoggedRound, NoMemory>
    requires few { length moves < 2 ^ 32 }
    requires lower { after ≤ before }
    requires small { before < 2 ^ 57 }
    ensures { IfOk result (λ round. round ≡ record {
      kind = Kind.Sweep;
      level = 0;
      moves = moves;
      kept = length moves;
      gains = (pos before -ℤ pos after) ∷ [];
      before = before;
      made = after;
      after = after;
      first = 0;
      second = 0;
      region = [];
      value = 0;
      tabled = false;
    }) }
{
    let mut gains = Gains::new(alloc);
    gains.push((before - after) as i64)?;
    let kept = moves.len() as u32;
    Ok(LoggedRound {
        kind: Kind::Sweep,
        level: 0,
        moves,
        kept,
        gains,
        before,
        made: after,
        after,
        first: 0,
        second: 0,
        region: Verts::new(alloc),
        value: 0,
        tabled: false,
    })
}
