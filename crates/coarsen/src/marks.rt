//! Marks of the single vertices of a clustering: free vertices that are alone in their clusters.

ghost use Rattle.std.specs.Prelude.{◌≡◌, ◌+◌, ◌<◌, ◌≤◌, ℕ, length, filter, All, IfOk, false, nat_eq, min};
ghost use Rattle.std.specs.Prelude.{slice_index, slice_index_or, replicate, if◌then◌else◌};
ghost use Rattle.std.specs.List.Sorted.{IsStrictlyIncreasing};
ghost use Rattle.std.specs.Set.{is_member};
ghost use Rattle.hg_defs.specs.Hypergraph.{vertex_count, is_free};
ghost use Rattle.hg_defs.specs.Clustering.{is_single};
ghost use Rattle.coarsen.specs.Numbers.{AreRoots};
ghost use Rattle.coarsen.specs.Marks.{AreMarked, AreCounted};

use hg_base::FREE;
use incidence::Hypergraph;
use std::alloc::{AllocError, Global};

/// Marks the single vertices of a clustering by roots, in a list of an entry a vertex.
pub(crate) fn mark_singles(h: &Hypergraph, roots: &[u32], single: &mut [bool])
    requires roots { AreRoots (vertex_count h.now) roots.now }
    requires vertices { length single.old ≡ vertex_count h.now }
    ensures { AreMarked h.now roots.now single.new }
{
    mark_free(h, single);
    for v in 0..h.vertices() {
        let root = roots[v as usize];
        if root != v {
            single[v as usize] = false;
            single[root as usize] = false;
        }
    }
}

/// Marks the free vertices.
fn mark_free(h: &Hypergraph, single: &mut [bool])
    requires { length single.old ≡ vertex_count h.now }
    ensures { (v : ℕ) → v < vertex_count h.now → slice_index_or single.new v false ≡ is_free h.now v }
{
    for v in 0..h.vertices() {
        single[v as usize] = h.fix(v) == FREE;
    }
}

/// How many of the pins are single.
pub(crate) fn count_singles(pins: &[u32], single: &[bool]) -> usize
    requires { All (λ v. v < length single.now) pins.now }
    ensures { result ≡ length (filter (λ v. slice_index_or single.now v false) pins.now) }
{
    let mut count = 0;
    for v in pins {
        if single[*v as usize] {
            count += 1;
        }
    }
    count
}

/// How many pins of each net are single, where the top of a byte stands for all that are more.
///
/// The nets of single vertices alone are looked at: after a clustering few vertices are single.
pub(crate) fn count_on_nets(
    alloc: Global,
    h: &Hypergraph,
    single: &[bool],
) -> Result<Vec<u8>, AllocError>
    requires { length single.now ≡ vertex_count h.now }
    ensures { IfOk result (λ counts. AreCounted h.now single.now counts.items) }
{
    let mut counts = vec![in alloc; 0u8; h.nets() as usize]?;
    for v in 0..h.vertices() {
        if single[v as usize] {
            count_once_more(h.nets_of(v), counts.as_mut_slice());
        }
    }
    Ok(counts)
}

/// Adds one to the counts of the listed nets, up to the top of a byte.
fn count_once_more(nets: &[u32], counts: &mut [u8])
    requires rising { IsStrictlyIncreasing nets.now }
    requires below { All (λ e. e < length counts.old) nets.now }
    ensures { (e : ℕ) → slice_index counts.new e ≡ (if is_member nat_eq nets.now e then
        min (slice_index counts.old e + 1) 255 else slice_index counts.old e) }
{
    for e in nets {
        counts[*e as usize] = counts[*e as usize].saturating_add(1);
    }
}
