//! The vertices of a contraction: weights added up, and fixes.

ghost use Rattle.std.specs.Prelude.{◌≡◌, ◌<◌, ◌≤◌, ◌^◌, [], map, length, All, replicate, IfOk};
ghost use Rattle.std.specs.List.{range_with_len};
ghost use Rattle.hg_defs.specs.Hypergraph.{vertex_count, total_weight};
ghost use Rattle.hg_defs.specs.Partition.{weight_in};
ghost use Rattle.hg_defs.specs.Contraction.{fix_in};

use hg_base::{FREE, FlatHyper, NoMemory};
use incidence::Hypergraph;
use std::alloc::Global;

/// The clusters as vertices, without nets.
pub(crate) fn vertices_of(
    alloc: Global,
    h: &Hypergraph,
    clusters: &[u32],
    count: u32,
) -> Result<FlatHyper, NoMemory>
    requires few { count ≤ 2 ^ 22 }
    requires vertices { length clusters.now ≡ vertex_count h.now }
    requires below { All (λ i. i < count) clusters.now }
    ensures { IfOk result (λ coarse. coarse ≡ record {
      weights = map (weight_in h.now.weights clusters.now) (range_with_len 0 count);
      nets = [];
      objective = h.now.objective;
      fixes = map (fix_in h.now.fixes clusters.now) (range_with_len 0 count);
    }) }
{
    let mut coarse = FlatHyper::start(alloc, count)?;
    coarse.set_objective(h.objective());
    clear_weights(&mut coarse);
    add_weights(h, clusters, &mut coarse);
    copy_fixes(h, clusters, &mut coarse);
    Ok(coarse)
}

/// Sets the weight of each vertex to 0.
fn clear_weights(coarse: &mut FlatHyper)
    requires { total_weight coarse.old ≤ 2 ^ 22 }
    ensures { coarse.new ≡ record coarse.old { weights = replicate (vertex_count coarse.old) 0 } }
{
    for i in 0..coarse.vertices() {
        coarse.set_vertex_weight(i, 0);
    }
}

/// Adds the weights of all vertices to those of their clusters, which are 0.
fn add_weights(h: &Hypergraph, clusters: &[u32], coarse: &mut FlatHyper)
    requires vertices { length clusters.now ≡ vertex_count h.now }
    requires below { All (λ i. i < vertex_count coarse.old) clusters.now }
    requires zero { coarse.old.weights ≡ replicate (vertex_count coarse.old) 0 }
    ensures { coarse.new ≡ record coarse.old {
      weights = map (weight_in h.now.weights clusters.now)
          (range_with_len 0 (vertex_count coarse.old));
    } }
{
    for v in 0..h.vertices() {
        let i = clusters[v as usize];
        coarse.set_vertex_weight(i, coarse.vertex_weight(i) + h.vertex_weight(v));
    }
}

/// Gives each cluster the fix of the first of its vertices that isn't free.
fn copy_fixes(h: &Hypergraph, clusters: &[u32], coarse: &mut FlatHyper)
    requires vertices { length clusters.now ≡ vertex_count h.now }
    requires below { All (λ i. i < vertex_count coarse.old) clusters.now }
    requires free { coarse.old.fixes ≡ replicate (vertex_count coarse.old) FREE }
    ensures { coarse.new ≡ record coarse.old {
      fixes = map (fix_in h.now.fixes clusters.now)
          (range_with_len 0 (vertex_count coarse.old));
    } }
{
    for v in (0..h.vertices()).rev() {
        let fix = h.fix(v);
        if fix != FREE {
            coarse.set_fix(clusters[v as usize], fix);
        }
    }
}
