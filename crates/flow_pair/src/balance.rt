//! The choice between two sides by the loads that they leave.

ghost use Rattle.std.specs.Prelude.{◌≡◌, ◌⊎◌, ◌+◌, ◌<◌, ◌≤◌, length, All};
ghost use Rattle.hg_defs.specs.Hypergraph.{vertex_count};

use incidence::Hypergraph;
use pin_plain::Partition;

/// The greater one of the loads of two blocks after the vertices of a region on a side were assigned to the
/// first one, and the others to the second one.
fn greater_load(h: &Hypergraph, p: &Partition, a: u32, b: u32, region: &[u32], side: &[bool]) -> u64
    requires belongs { p.now.hyper ≡ h.now }
    requires order { a < b }
    requires blocks { b < p.now.k }
    requires region { All (λ v. v < vertex_count h.now) region.now }
    requires side { 2 + length region.now ≤ length side.now }
{
    let blocks = p.blocks();
    let mut first = p.weight(a);
    let mut second = p.weight(b);
    for i in 0..region.len() {
        let weight = h.vertex_weight(region[i]);
        let is_in_first = blocks[region[i] as usize] == a;
        if side[2 + i] && !is_in_first {
            first = first.saturating_add(weight);
            second = second.saturating_sub(weight);
        }
        if !side[2 + i] && is_in_first {
            first = first.saturating_sub(weight);
            second = second.saturating_add(weight);
        }
    }
    first.max(second)
}

/// The one of two sides by which the greater load of two blocks is lesser, or the nearer side where neither is.
pub(crate) fn balanced_side<'a>(
    h: &Hypergraph,
    p: &Partition,
    a: u32,
    b: u32,
    region: &[u32],
    near: &'a [bool],
    far: &'a [bool],
) -> &'a [bool]
    requires belongs { p.now.hyper ≡ h.now }
    requires order { a < b }
    requires blocks { b < p.now.k }
    requires region { All (λ v. v < vertex_count h.now) region.now }
    requires near { 2 + length region.now ≤ length near.now }
    requires far { 2 + length region.now ≤ length far.now }
    ensures { (result.now ≡ near.now) ⊎ (result.now ≡ far.now) }
{
    if greater_load(h, p, a, b, region, far) < greater_load(h, p, a, b, region, near) {
        return far;
    }
    near
}
