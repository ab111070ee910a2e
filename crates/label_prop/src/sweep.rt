//! A sweep, as a round of label propagation.

ghost use Rattle.std.specs.Prelude.{◌≡◌, ◌<◌, ◌≤◌, ◌^◌, [], ◌∷◌, pos, ◌-ℤ◌, false, length, IfOk, OnErr};
ghost use Rattle.hg_defs.specs.Cost.{cost};
ghost use Rattle.label_prop.specs.LabelRounds.{SweepsOrRests};

use hg_base::{Gains, NoMemory, Verts};
use incidence::Hypergraph;
use pin_plain::Partition;
use refiner::{Log, Task};
use round_log::{Kind, LoggedRound, Moves, RoundList};
use std::alloc::Global;
use std::thread::Threads;

/// The round of a sweep.
fn swept(
    alloc: Global,
    level: u32,
    moves: Moves,
    before: u64,
    after: u64,
) -> Result<LoggedRound, NoMemory>
    requires few { length moves < 2 ^ 32 }
    requires lower { after ≤ before }
    requires small { before < 2 ^ 57 }
    ensures { IfOk result (λ round. round ≡ record {
      kind = Kind.Label;
      level = level;
      moves = moves;
      kept = length moves;
      gains = (pos before -ℤ pos after) ∷ [];
      before = before;
      made = after;
      after = after;
      first = 0;
      second = 0;
      region = [];
      value = 0;
      tabled = false;
    }) }
{
    let mut gains = Gains::new(alloc);
    gains.push((before - after) as i64)?;
    let kept = moves.len() as u32;
    Ok(LoggedRound {
        kind: Kind::Label,
        level,
        moves,
        kept,
        gains,
        before,
        made: after,
        after,
        first: 0,
        second: 0,
        region: Verts::new(alloc),
        value: 0,
        tabled: false,
    })
}

/// Sweeps a partition of this cost once, behind threads that mark the vertices that need no visit, and logs
/// the round. Answers what it saved, or none where the partition was settled. Where there is no memory,
/// nothing is logged, and the partition may be swept or not.
pub(crate) fn sweep_round<H: Threads + Sync>(
    rt: &H,
    alloc: Global,
    h: &Hypergraph,
    task: &Task,
    part: &mut Partition,
    before: u64,
    log: &mut Log,
) -> Result<Option<u64>, NoMemory>
    requires belongs { part.old.hyper ≡ h.now }
    requires before { before ≡ cost h.now part.old.blocks }
    requires workers { 1 ≤ task.now.workers }
    ensures ok { IfOk result (λ saved. SweepsOrRests h.now task.now part.old log.old log.new saved part.new) }
    ensures err { OnErr result (log.new ≡ log.old) }
{
    let _vertices = h.vertices();
    let mut moves = Moves::new(alloc);
    if !part.sweep_with(rt, alloc, h, task.workers, &mut moves)? {
        return Ok(None);
    }
    let after = part.cost_with(rt, h, task.workers);
    // The sweep reserved a place for each vertex; what is logged takes its moves' places alone.
    let made = moves.copy()?;
    let mut rounds = RoundList::new(alloc);
    rounds.push(swept(alloc, task.level, made, before, after)?)?;
    log.add(rounds)?;
    Ok(Some(before - after))
}
