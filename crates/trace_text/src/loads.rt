ghost use Rattle.std.specs.Prelude.{◌≡◌, ◌<◌, All, length, nat_le};
ghost use Rattle.std.specs.List.{list_all};
ghost use Rattle.hg_defs.specs.Hypergraph.{vertex_count, IsWithinLimits};
ghost use Rattle.trace_text.specs.Lines.{loads_of};

use hg_base::FlatHyper;

/// The most blocks that there are.
pub(crate) const MOST_BLOCKS: usize = 256;

// The loads of the 256 blocks that a vertex may be in.
pub(crate) fn sum_loads(h: &FlatHyper, blocks: &[u32]) -> [u64; MOST_BLOCKS]
    requires vertices { length blocks.now ≡ vertex_count h.now }
    requires below { All (λ b. b < 256) blocks.now }
    ensures loads { result ≡ loads_of h.now 256 blocks.now }
    ensures bounds { IsWithinLimits h.now }
{
    let mut loads = [0; MOST_BLOCKS];
    'vertices: for v in 0..h.vertices() {
        loads[blocks[v as usize] as usize] += h.vertex_weight(v);
    }
    loads
}

// Whether no load passes the limit.
pub(crate) fn all_within(loads: &[u64], limit: u64) -> bool
    ensures { result ≡ list_all (λ x. nat_le x limit) loads.now }
{
    loads.iter().all(|load| *load <= limit)
}
