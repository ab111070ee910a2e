//! The tables of ends and of moves, with a place for each two blocks.

ghost use Rattle.std.specs.Prelude.{◌≡◌, ◌+◌, ◌*◌, ◌<◌, ◌≤◌, [], IfOk, length, replicate, slice_index_or, slice_set};
ghost use Rattle.std.specs.Prelude.{None};

use flow_pair::{NoMemory, PairEnd};
use round_log::Moves;
use std::alloc::Global;

/// The place of two blocks in a table of `k` times `k` places.
pub(crate) fn place_of(k: u32, a: u32, b: u32) -> usize
    requires few { k ≤ 256 }
    requires first { a < k }
    requires second { b < k }
    ensures value { result ≡ a * k + b }
    ensures below { result < k * k }
{
    (a * k + b) as usize
}

/// A table without ends.
pub(crate) fn empty_table(alloc: Global, k: u32) -> Result<Vec<Option<PairEnd>>, NoMemory>
    requires { k ≤ 256 }
    ensures { IfOk result (λ ends. ends.items ≡ replicate (k * k) None) }
{
    let count = k * k;
    let mut ends = Vec::with_capacity(alloc, count as usize)?;
    for _ in 0..count {
        ends.push(None)?;
    }
    Ok(ends)
}

/// What stands at a place.
pub(crate) fn end_of(ends: &[Option<PairEnd>], place: usize) -> &Option<PairEnd>
    requires { place < length ends.now }
    ensures { result.now ≡ slice_index_or ends.now place None }
{
    &ends[place]
}

/// Writes what stands at a place.
pub(crate) fn put_end(ends: &mut [Option<PairEnd>], place: usize, end: Option<PairEnd>)
    requires { place < length ends.old }
    ensures { ends.new ≡ slice_set ends.old place end }
{
    ends[place] = end;
}

/// A table without moves.
pub(crate) fn no_moves(alloc: Global, k: u32) -> Result<Vec<Moves>, NoMemory>
    requires { k ≤ 256 }
    ensures { IfOk result (λ made. length made.items ≡ k * k) }
{
    let count = k * k;
    let mut made = Vec::with_capacity(alloc, count as usize)?;
    for _ in 0..count {
        made.push(Moves::new(alloc))?;
    }
    Ok(made)
}

/// The moves that stand at a place.
pub(crate) fn moves_of(made: &[Moves], place: usize) -> &Moves
    requires { place < length made.now }
    ensures { result.now ≡ slice_index_or made.now place [] }
{
    &made[place]
}

/// Writes the moves that stand at a place.
pub(crate) fn put_moves(made: &mut Vec<Moves>, place: usize, moves: Moves)
    requires { place < length made.old.items }
    ensures { made.new.items ≡ slice_set made.old.items place moves }
{
    made[place] = moves;
}
