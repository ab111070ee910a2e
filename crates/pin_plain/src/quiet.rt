//! Marks of vertices that need no visit: those for whom no other block is cheaper, with room or without.

ghost use Rattle.std.specs.Prelude.{◌≡◌, ◌≢◌, ℕ, ◌<◌, ◌≤◌, All, length, slice_index_or, true, false};
ghost use Rattle.hg_defs.specs.Hypergraph.{vertex_count};
ghost use Rattle.hg_defs.specs.Partition.{block_of};
ghost use Rattle.hg_defs.specs.Incidence.{is_pin};
ghost use Rattle.hg_defs.specs.Moves.{moved};
ghost use Rattle.pin_plain.specs.Quiet as quiet;
ghost use Rattle.pin_plain.specs.Quiet.{AreQuiet};

use crate::counts::count;
use crate::lent::Lent;
use hg_base::bits_of;

/// Whether other pins of a net may gain more once one of its `size` pins went from a block with `old` of
/// them to one with `new` of them: all others as their net comes to a new block, the one that is left
/// behind alone, or the last one that the new block lacks.
fn stirs(old: u32, new: u32, size: u32) -> bool
    requires { new ≤ size }
    ensures { result ≡ quiet.stirs old new size }
{
    new == 0 || old == 2 || size - new == 2
}

/// Takes the marks of vertices away.
fn unmark(marks: &mut [bool], pins: &[u32])
    requires { All (λ v. v < length marks.old) pins.now }
    ensures all { length marks.new ≡ length marks.old }
    ensures left { (v : ℕ) → slice_index_or marks.new v false ≡ true
        → (slice_index_or marks.old v false ≡ true) × (is_pin pins.now v ≡ false) }
{
    for v in pins {
        marks[*v as usize] = false;
    }
}

/// Takes the marks of those away who may gain more once an unmarked vertex goes to another block.
pub fn wake(lent: &Lent<'_>, v: u32, to: u32, marks: &mut [bool])
    requires vertex { v < vertex_count lent.now.h.now }
    requires block { to < lent.now.k }
    requires other { to ≢ block_of lent.now.blocks.now v }
    requires unmarked { slice_index_or marks.old v false ≡ false }
    requires quiet { AreQuiet lent.now.h.now lent.now.k lent.now.blocks.now marks.old }
    ensures { AreQuiet lent.now.h.now lent.now.k (moved lent.now.blocks.now v to) marks.new }
{
    let h = lent.h;
    let from = lent.blocks[v as usize];
    for e in h.nets_of(v) {
        let pins = h.pins(*e);
        let size = pins.len() as u32;
        let (start, bits) = (lent.starts[*e as usize], bits_of(size));
        let old = count(lent.words, start, bits, from);
        let new = count(lent.words, start, bits, to);
        if stirs(old, new, size) {
            unmark(marks, pins);
        }
    }
}
