//! The limit on the load of a block.

ghost use Rattle.std.specs.Prelude.{◌≡◌, ◌<◌, ◌≤◌, ◌^◌};
ghost use Rattle.hg_defs.specs.Partition as partition;

/// The limit on the load of each of `k` blocks: the even share of the whole weight, rounded up,
/// and `eps` thousandths of it more, rounded down. The whole weight is below 2^54, and `eps` at
/// most 100,000.
pub fn limit_of(total: u64, k: u32, eps: u32) -> u64
    requires total { total < 2 ^ 54 }
    requires k { 0 < k }
    requires eps { eps ≤ 100000 }
    ensures value { result ≡ partition.limit total k eps }
    ensures bound { result < 2 ^ 61 }
{
    let k = u64::from(k);
    let share = (total + (k - 1)) / k;
    let thousandths = u128::from(1000 + eps) * u128::from(share);
    (thousandths / 1000) as u64
}
