//! The plain round of one move.

ghost use Rattle.std.specs.Prelude.{◌≡◌, IfOk};
ghost use Rattle.hg_defs.specs.Partition.{Fits};
ghost use Rattle.hg_defs.specs.Cost.{cost};
ghost use Rattle.round_log.specs.Rounds.{after_round};
ghost use Rattle.fm_search.specs.Possible.{IsFirst};
ghost use Rattle.fm_search.specs.Logging.{IsSingleRound};

use hg_base::{Items, Move, NoMemory};
use incidence::Hypergraph;
use pin_plain::Partition;
use rollback_prefix::roll_back;
use round_log::{Kind, LoggedRound};
use std::alloc::Global;
use std::thread::Threads;

/// Makes the first possible move from a partition of a known cost, keeps it where that makes the partition cheaper, and
/// records the round.
pub(crate) fn single_round<H: Threads + Sync>(
    rt: &H,
    alloc: Global,
    h: &Hypergraph,
    level: u32,
    p: &mut Partition,
    before: u64,
    first: (u32, u32),
) -> Result<LoggedRound, NoMemory>
    requires belongs { p.old.hyper ≡ h.now }
    requires fits { Fits h.now p.old.k p.old.limit p.old.blocks }
    requires before { before ≡ cost h.now p.old.blocks }
    requires first { IsFirst h.now p.old.k p.old.limit p.old.blocks first.0 first.1 }
    ensures round { IfOk result (λ r. IsSingleRound h.now level p.old r) }
    ensures partition { IfOk result (λ r. p.new ≡ record p.old { blocks = after_round p.old.blocks r }) }
{
    let (vertex, to) = first;
    let action = Move {
        vertex,
        from: p.blocks()[vertex as usize],
        to,
        worker: 0,
        booked: p.gain(h, vertex, to),
    };
    let mut moves = Items::new(alloc);
    moves.push(action)?;
    let mut gains = Items::new(alloc);
    gains.push(action.booked)?;
    p.shift(h, vertex, to);
    let made = p.cost(h);
    let kept = roll_back(rt, alloc, h, p, moves.slice(), 1)?;
    Ok(LoggedRound {
        kind: Kind::Search,
        level,
        moves,
        kept,
        gains,
        before,
        made,
        after: p.cost(h),
        first: 0,
        second: 0,
        region: Items::new(alloc),
        value: 0,
        tabled: false,
    })
}
