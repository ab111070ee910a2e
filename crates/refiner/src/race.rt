//! The record of a raced round.

ghost use Rattle.std.specs.Prelude.{◌≡◌, ◌≤◌, ◌<◌, ◌^◌, IfOk, OnErr, length, pos, ◌-ℤ◌};
ghost use Rattle.hg_defs.specs.Sums.{total_z};
ghost use Rattle.hg_defs.specs.Partition.{Fits};
ghost use Rattle.hg_defs.specs.Cost.{cost};
ghost use Rattle.hg_defs.specs.Replay.{undone};
ghost use Rattle.rollback_prefix.specs.Steps.{EndAt};
ghost use Rattle.round_log.specs.Rounds.{AreRacedMoves, after_round};
ghost use Rattle.refiner.specs.Racing.{RecordsRace};

use hg_base::{Gains, Items, NoMemory};
use incidence::Hypergraph;
use pin_plain::Partition;
use rollback_prefix::keep_best;
use round_log::{Kind, LoggedRound, Moves};
use std::alloc::Global;
use std::thread::Threads;

/// A round has so many workers at most.
const MOST_WORKERS: usize = 64;

/// The sum of gains.
fn sum_of(gains: &[i64]) -> i128
    ensures { result ≡ total_z (λ g. g) gains.now }
{
    let mut sum = 0i128;
    for gain in gains {
        sum += i128::from(*gain);
    }
    sum
}

/// Rolls the moves of a race back to their best prefix, and records the round. The partition stands
/// after all the moves, and the cost before them is given: the gains tell what they made of it, and the
/// prefix what is left, so that no cost is counted anew. As many threads as raced recalculate the gains:
/// there is a gain for each.
pub(crate) fn record_race<R: Threads + Sync>(
    rt: &R,
    alloc: Global,
    h: &Hypergraph,
    kind: Kind,
    level: u32,
    part: &mut Partition,
    moves: Moves,
    gains: Gains,
    before: u64,
) -> Result<LoggedRound, NoMemory>
    requires belongs { part.old.hyper ≡ h.now }
    requires stands { EndAt h.now part.old.k part.old.blocks moves }
    requires raced { AreRacedMoves h.now part.old.k (undone part.old.blocks moves) moves gains }
    requires opened { Fits h.now part.old.k part.old.limit (undone part.old.blocks moves) }
    requires fits { Fits h.now part.old.k part.old.limit part.old.blocks }
    requires sum { total_z (λ g. g) gains ≡ pos (cost h.now (undone part.old.blocks moves)) -ℤ pos
        (cost h.now part.old.blocks) }
    requires before { before ≡ cost h.now (undone part.old.blocks moves) }
    ensures round { IfOk result (RecordsRace kind level h.now part.old.k part.old.limit (undone part.old.blocks moves)
        moves gains) }
    ensures partition { IfOk result (λ r. part.new ≡ record part.old
        { blocks = after_round (undone part.old.blocks moves) r }) }
{
    let _parted = part.blocks();
    let made = (i128::from(before) - sum_of(gains.slice())) as u64;
    let workers = gains.slice().len().min(MOST_WORKERS).max(1) as u32;
    let kept = keep_best(rt, alloc, h, part, moves.slice(), workers)?;
    Ok(LoggedRound {
        kind,
        level,
        moves,
        kept: kept.length,
        gains,
        before,
        made,
        after: before - kept.saved,
        first: 0,
        second: 0,
        region: Items::new(alloc),
        value: 0,
        tabled: true,
    })
}
