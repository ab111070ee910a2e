ghost use Rattle.std.specs.Prelude.{◌≡◌, ◌+◌, ◌^◌, ◌<◌, ◌≤◌};
ghost use Rattle.hg_defs.specs.Cost.{price};
ghost use Rattle.hg_defs.specs.Hypergraph.{net_count};
ghost use Rattle.move_core.specs.Events.{widen_gain, narrow_gain};

use hg_base::{FlatHyper, Objective};

/// What a net of weight 1 pays more for one block more than `blocks`.
fn price_step(objective: Objective, blocks: u64) -> u64
    requires { blocks + 1 < 2 ^ 64 }
    ensures step { price objective blocks + result ≡ price objective (blocks + 1) }
    ensures small { result ≤ 2 }
{
    match (objective, blocks) {
        (_, 0) => 0,
        (Objective::Connectivity, _) => 1,
        (Objective::CutNet, 1) => 1,
        (Objective::CutNet, _) => 0,
        (Objective::ExternalDegree, 1) => 2,
        (Objective::ExternalDegree, _) => 1,
    }
}

/// What a pass books where it finds this spread word and the net gets a block: 0 or less.
pub fn widen_gain(h: &FlatHyper, e: u32, found: u64) -> i64
    requires net { e < net_count h.now }
    requires found { found + 1 < 2 ^ 64 }
    ensures { result ≡ widen_gain h.now e found }
{
    if found < 64 {
        return 0;
    }
    -((h.net_weight(e) * price_step(h.objective(), found - 64)) as i64)
}

/// What a pass books where it finds this spread word and the net loses a block: 0 or more.
pub fn narrow_gain(h: &FlatHyper, e: u32, found: u64) -> i64
    requires { e < net_count h.now }
    ensures { result ≡ narrow_gain h.now e found }
{
    if found <= 64 {
        return 0;
    }
    (h.net_weight(e) * price_step(h.objective(), found - 65)) as i64
}
