ghost use Rattle.std.specs.Prelude.{◌≡◌, ◌≤◌, ◌↔◌, IsTrue, Contains};
ghost use Rattle.hg_io.specs.Faults.{next_count};

use crate::Failed;

// Counts one more fault, and answers it.
pub fn count_fault(faults: &mut u64) -> Failed
    ensures next { faults.new ≡ next_count faults.old }
    ensures later { faults.old ≤ faults.new }
{
    *faults = faults.saturating_add(1);
    Failed
}

// Whether the number of a call is one of those that fail.
pub fn is_among(fail: &[u32], number: u64) -> bool
    ensures { IsTrue result ↔ Contains fail.now number }
{
    fail.iter().any(|failing| u64::from(*failing) == number)
}
