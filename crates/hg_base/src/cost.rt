//! The cost of a partition.

ghost use Rattle.std.specs.Prelude.{◌≡◌, ◌<◌, ◌≤◌, ◌^◌, length, All};
ghost use Rattle.hg_defs.specs.Partition.{IsPartition};
ghost use Rattle.hg_defs.specs.Cost.{connectivity, cost};
ghost use Rattle.hg_defs.specs.Cost as costs;

use crate::block_set::BlockSet;
use crate::hyper::FlatHyper;
use hg_defs::Objective;

/// The cost of a partition into `k` blocks, at most 256, by the hypergraph's objective. There is
/// one block below `k` for each vertex.
pub fn cost_of(h: &FlatHyper, blocks: &[u32], k: u32) -> u64
    requires k { k ≤ 256 }
    requires partition { IsPartition h.now k blocks.now }
    ensures value { result ≡ cost h.now blocks.now }
    ensures bound { result < 2 ^ 57 }
{
    let objective = h.objective();
    let mut sum = 0;
    for e in 0..h.nets() {
        sum += h.net_weight(e) * price(objective, touched(blocks, h.pins(e)));
    }
    sum
}

/// What a net of weight 1 pays for the number of blocks that it touches.
pub fn price(objective: Objective, touched: u64) -> u64
    ensures value { result ≡ costs.price objective touched }
    ensures bound { result ≤ touched }
{
    if touched <= 1 {
        return 0;
    }
    match objective {
        Objective::Connectivity => touched - 1,
        Objective::CutNet => 1,
        Objective::ExternalDegree => touched,
    }
}

/// How many blocks, each below 256, the pins touch.
fn touched(blocks: &[u32], pins: &[u32]) -> u64
    requires pins { All (λ v. v < length blocks.now) pins.now }
    requires blocks { All (λ b. b < 256) blocks.now }
    ensures value { result ≡ connectivity blocks.now pins.now }
    ensures bound { result ≤ length pins.now }
{
    let mut set = BlockSet::new();
    let mut count = 0;
    for v in pins {
        count += u64::from(set.insert(blocks[*v as usize]));
    }
    count
}
