//! Makes the residual network of arcs without flow.

ghost use Rattle.std.specs.Prelude.{◌≡◌, ◌≢◌, ℕ, ◌+◌, ◌*◌, ◌%◌, ◌^◌, ◌<◌, ◌≤◌, length, slice_index};
ghost use Rattle.flow_net.specs.Residual.{AreLaid, IsLinked};

use crate::network::Arc;
use crate::residual::{clear, mate};

/// Writes the heads and the rests of the halves of each arc.
pub(crate) fn lay(arcs: &[Arc], heads: &mut [u32], rests: &mut [u64])
    requires few { length arcs.now ≤ 2 ^ 28 }
    requires heads { length heads.old ≡ 2 * length arcs.now }
    requires rests { length rests.old ≡ 2 * length arcs.now }
    ensures { AreLaid arcs.now heads.new rests.new (length arcs.now) }
{
    for i in 0..arcs.len() {
        let arc = arcs[i];
        heads[2 * i] = arc.to;
        heads[2 * i + 1] = arc.from;
        rests[2 * i] = arc.cap;
        rests[2 * i + 1] = 0;
    }
}

/// Makes the lists of the halves that leave each node.
pub(crate) fn link(heads: &[u32], nexts: &mut [u32], firsts: &mut [u32])
    requires pairs { length heads.now % 2 ≡ 0 }
    requires small { length heads.now ≤ 2 ^ 29 }
    requires few { length firsts.old ≤ 2 ^ 26 }
    requires nexts { length nexts.old ≡ length heads.now }
    requires nodes { (h : ℕ) → h < length heads.now → slice_index heads.now h < length firsts.old }
    ensures { IsLinked heads.now nexts.new firsts.new }
{
    clear(firsts);
    for half in 0..heads.len() as u32 {
        let node = heads[mate(half) as usize] as usize;
        nexts[half as usize] = firsts[node];
        firsts[node] = half + 1;
    }
}
