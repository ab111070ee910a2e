//! The block of a vertex below clusterings.

ghost use Rattle.std.specs.Prelude.{◌≡◌, slice_index};
ghost use Rattle.exact_cost.specs.Carrying.{carried, LeadsInto};

use hg_base::MapList;

/// The block of a vertex below some clusterings, which is that of the cluster that holds it on the last level.
pub fn block_below(maps: &[MapList], blocks: &[u32], v: u32) -> u32
    requires { LeadsInto maps.now blocks.now v }
    ensures { result ≡ slice_index blocks.now (carried maps.now v) }
{
    let mut at = v;
    'maps: for clusters in maps {
        at = clusters.slice()[at as usize];
    }
    blocks[at as usize]
}
