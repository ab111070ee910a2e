//! The residual network: two halves for each arc, and the list of the halves that leave each node.

ghost use Rattle.std.specs.Prelude.{◌≡◌, ◌≢◌, ℕ, ◌+◌, ◌*◌, ◌%◌, ◌^◌, ◌<◌, ◌≤◌, length, slice_index};
ghost use Rattle.flow_net.specs.Residual.{mate, IsLinked};

/// The halves of the arcs: where each leads, and the lists of those that leave each node, between two nodes.
#[derive(Clone, Copy)]
pub(crate) struct Halves<'a> {
    /// The node that each half leads to.
    pub(crate) heads: &'a [u32],
    /// One more than the next half that leaves the same node; 0 at the end.
    pub(crate) nexts: &'a [u32],
    /// One more than the first half that leaves each node; 0 where none does.
    pub(crate) firsts: &'a [u32],
    pub(crate) source: u32,
    pub(crate) sink: u32,
    ghost linked: { IsLinked heads.now nexts.now firsts.now },
    ghost source_in: { source < length firsts.now },
    ghost sink_in: { sink < length firsts.now },
    ghost apart: { source ≢ sink },
}

/// Makes each number of a list 0.
pub(crate) fn clear(list: &mut [u32])
    ensures { (i : ℕ) → i < length list.new → slice_index list.new i ≡ 0 }
{
    for number in list.iter_mut() {
        *number = 0;
    }
}

/// Exchanges the rests of the two halves of each arc: every half then has the rest of the one against it.
pub(crate) fn turn(rests: &mut [u64])
    requires { length rests.old % 2 ≡ 0 }
    ensures { (h : ℕ) → h < length rests.new → slice_index rests.new h ≡ slice_index rests.old (mate h) }
{
    for i in 0..rests.len() / 2 {
        rests.swap(2 * i, 2 * i + 1);
    }
}

/// The other half of the same arc.
#[inline]
pub(crate) fn mate(half: u32) -> u32
    requires { half < 2 ^ 31 }
    ensures { result ≡ mate half }
{
    half ^ 1
}
