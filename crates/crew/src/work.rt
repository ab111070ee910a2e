//! The shares of the work.

ghost use Rattle.std.specs.Prelude.{◌≡◌, ◌+◌, ◌*◌, ◌/◌, ◌<◌, ◌≤◌};

/// The run of a worker: the numbers from the first up to below the second.
#[derive(Clone, Copy, Debug, PartialEq, Eq)]
pub struct Span {
    /// Where the run begins.
    pub from: u32,
    /// Where it ends: the first number behind it.
    pub to: u32,
}

/// The run of one of `workers` workers among the numbers below `n`. The runs stand one behind the
/// other, in the order of the workers, and their lengths differ by at most 1.
pub fn span_of(n: u32, workers: u32, worker: u32) -> Span
    requires workers { (0 < workers) × (workers ≤ 64) }
    requires worker { worker < workers }
    ensures from { result.from ≡ n * worker / workers }
    ensures to { result.to ≡ n * (worker + 1) / workers }
    ensures ordered { result.from ≤ result.to }
    ensures within { result.to ≤ n }
    ensures even { (result.from + n / workers ≤ result.to) × (result.to ≤ result.from + n / workers + 1) }
{
    let share = u64::from(n);
    let all = u64::from(workers);
    let place = u64::from(worker);
    Span {
        from: (share * place / all) as u32,
        to: (share * (place + 1) / all) as u32,
    }
}
