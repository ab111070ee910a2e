//! What the nets of a vertex save and lose where it goes to another block.

ghost use Rattle.std.specs.Prelude.{◌≡◌, ◌≢◌, ℕ, ◌+◌, ◌*◌, ◌/◌, ◌<◌, ◌≤◌, ◌^◌, length};
ghost use Rattle.hg_defs.specs.Sums.{total};
ghost use Rattle.hg_defs.specs.Hypergraph.{vertex_count, net_count, net_of};
ghost use Rattle.hg_defs.specs.Partition.{block_of};
ghost use Rattle.hg_defs.specs.Incidence.{nets_of};
ghost use Rattle.pin_plain.specs.Savings as savings;
ghost use Rattle.pin_plain.specs.Savings.{net_saved, net_most, net_lost};

use crate::counts::count;
use crate::lent::Lent;
use hg_base::{Objective, bits_of};

/// What a net of weight 1 saves where one of its pins goes to a block with `count` of its `size` pins.
pub fn saved(objective: Objective, count: u32, size: u32) -> u64
    requires { count ≤ size }
    ensures value { result ≡ savings.saved objective count size }
    ensures bound { result ≤ 2 }
{
    let present = u64::from(count > 0);
    let joined = u64::from(count > 0 && size - count == 1);
    match objective {
        Objective::Connectivity => present,
        Objective::CutNet => joined,
        Objective::ExternalDegree => present + joined,
    }
}

/// What a net of weight 1 loses where one of its pins leaves a block with `count` of its `size` pins.
pub fn lost(objective: Objective, count: u32, size: u32) -> u64
    ensures value { result ≡ savings.lost objective count size }
    ensures bound { result ≤ 2 }
{
    let left = u64::from(count != 1);
    let parted = u64::from(count == size && size != 1);
    match objective {
        Objective::Connectivity => left,
        Objective::CutNet => parted,
        Objective::ExternalDegree => left + parted,
    }
}

/// What a net of weight 1 saves at most, at whichever block, where one of its pins leaves a block with `count` of its
/// `size` pins.
fn most_saved(objective: Objective, count: u32, size: u32) -> u64
    ensures value { result ≡ savings.most_saved objective count size }
    ensures bound { result ≤ 2 }
{
    let apart = u64::from(count != size);
    match objective {
        Objective::Connectivity => apart,
        Objective::CutNet => apart,
        Objective::ExternalDegree => 2 * apart,
    }
}

/// What the nets of a vertex save together at most where it goes to another block, whichever it is, and what they lose.
/// A net all of whose pins are in the vertex's block saves nothing.
pub fn most_and_lost(lent: &Lent<'_>, v: u32) -> (u64, u64)
    requires vertex { v < vertex_count lent.now.h.now }
    ensures most { (b : ℕ) → b ≢ block_of lent.now.blocks.now v → total (net_saved lent.now.h.now lent.now.blocks.now b)
        (nets_of lent.now.h.now v) ≤ result.0 }
    ensures lost { result.1 ≡ total (net_lost lent.now.h.now lent.now.blocks.now (block_of lent.now.blocks.now v))
        (nets_of lent.now.h.now v) }
{
    let h = lent.h;
    let from = lent.blocks[v as usize];
    let objective = h.objective();
    let (mut most, mut down) = (0, 0);
    for e in h.nets_of(v) {
        let size = h.pins(*e).len() as u32;
        let (start, bits) = (lent.starts[*e as usize], bits_of(size));
        let weight = h.net_weight(*e);
        let own = count(lent.words, start, bits, from);
        most += weight * most_saved(objective, own, size);
        down += weight * lost(objective, own, size);
    }
    (most, down)
}

/// What the nets of a vertex save and lose where it goes to a block.
pub fn saved_and_lost(lent: &Lent<'_>, v: u32, to: u32) -> (u64, u64)
    requires vertex { v < vertex_count lent.now.h.now }
    requires block { to < lent.now.k }
    ensures saved { result.0 ≡ total (net_saved lent.now.h.now lent.now.blocks.now to) (nets_of lent.now.h.now v) }
    ensures lost { result.1 ≡ total (net_lost lent.now.h.now lent.now.blocks.now (block_of lent.now.blocks.now v))
        (nets_of lent.now.h.now v) }
    ensures saved_bound { result.0 < 2 ^ 55 }
    ensures lost_bound { result.1 < 2 ^ 55 }
{
    let h = lent.h;
    let from = lent.blocks[v as usize];
    let objective = h.objective();
    let (mut up, mut down) = (0, 0);
    for e in h.nets_of(v) {
        let size = h.pins(*e).len() as u32;
        let (start, bits) = (lent.starts[*e as usize], bits_of(size));
        let weight = h.net_weight(*e);
        up += weight * saved(objective, count(lent.words, start, bits, to), size);
        down += weight * lost(objective, count(lent.words, start, bits, from), size);
    }
    (up, down)
}
