//! Whether a move is possible, and the first one that is.

ghost use Rattle.std.specs.Prelude.{◌≡◌, ◌<◌, ◌≤◌, ◌↔◌, ℕ, IsTrue, IfSome, IfNone};
ghost use Rattle.hg_defs.specs.Hypergraph.{vertex_count};
ghost use Rattle.round_log.specs.Passes.{HasPossible};
ghost use Rattle.fm_search.specs.Possible.{Reaches, MayGo, IsLowest, IsFirst};

use hg_base::FREE;
use incidence::Hypergraph;
use pin_plain::Partition;

/// One vertex of so many is asked first whether it may go anywhere.
const STRIDE: u32 = 64;

/// Whether a net of a vertex has a pin in a block.
fn reaches(h: &Hypergraph, p: &Partition, v: u32, b: u32) -> bool
    requires belongs { p.now.hyper ≡ h.now }
    requires vertex { v < vertex_count h.now }
    requires block { b < p.now.k }
    ensures { IsTrue result ↔ Reaches h.now p.now.blocks v b }
{
    'nets: for e in h.nets_of(v) {
        if p.count(*e, b) > 0 {
            return true;
        }
    }
    false
}

/// Whether a vertex may go to a block, where one of its nets has a pin.
fn may_go(h: &Hypergraph, p: &Partition, v: u32, b: u32) -> bool
    requires belongs { p.now.hyper ≡ h.now }
    requires vertex { v < vertex_count h.now }
    requires block { b < p.now.k }
    ensures { IsTrue result ↔ MayGo h.now p.now.k p.now.limit p.now.blocks v b }
{
    if h.fix(v) != FREE {
        return false;
    }
    if b == p.blocks()[v as usize] {
        return false;
    }
    let Some(room) = p.limit().checked_sub(p.weight(b)) else {
        return false;
    };
    if h.vertex_weight(v) > room {
        return false;
    }
    reaches(h, p, v, b)
}

/// The lowest block to which a vertex may go.
fn lowest(h: &Hypergraph, p: &Partition, v: u32) -> Option<u32>
    requires belongs { p.now.hyper ≡ h.now }
    requires vertex { v < vertex_count h.now }
    ensures some { IfSome result (λ b. IsLowest h.now p.now.k p.now.limit p.now.blocks v b) }
    ensures none { IfNone result ((b : ℕ) → MayGo h.now p.now.k p.now.limit p.now.blocks v b → ⊥) }
{
    'targets: for b in 0..p.k() {
        if may_go(h, p, v, b) {
            return Some(b);
        }
    }
    None
}

/// The possible move of least vertex, then least block: the vertex and its new block. None comes exactly
/// where no move is possible.
pub(crate) fn first_possible(h: &Hypergraph, p: &Partition) -> Option<(u32, u32)>
    requires { p.now.hyper ≡ h.now }
    ensures some { IfSome result (λ m. IsFirst h.now p.now.k p.now.limit p.now.blocks m.0 m.1) }
    ensures none { IfNone result (HasPossible h.now p.now.k p.now.limit p.now.blocks → ⊥) }
{
    let _parted = p.blocks();
    'vertices: for v in 0..h.vertices() {
        if let Some(b) = lowest(h, p, v) {
            return Some((v, b));
        }
    }
    None
}

/// Whether a move is possible. Some vertices all over the level are asked before all are: where many may go somewhere,
/// one of these does, however many stand before the first one that does.
pub(crate) fn is_possible(h: &Hypergraph, p: &Partition) -> bool
    requires { p.now.hyper ≡ h.now }
    ensures { IsTrue result ↔ HasPossible h.now p.now.k p.now.limit p.now.blocks }
{
    let _parted = p.blocks();
    'places: for i in 0..h.vertices() / STRIDE {
        if let Some(_block) = lowest(h, p, i * STRIDE) {
            return true;
        }
    }
    first_possible(h, p).is_some()
}
