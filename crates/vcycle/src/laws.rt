//! The laws over cycles by refiners of given kinds. Each is the contract of a function that does
//! nothing.

ghost use Rattle.vcycle.specs.CycleLaws.{CycleByBeginsAtCost, CycleByRaisesNoCost, CycleByEndsSettled};
ghost use Rattle.vcycle.specs.CycleLaws.{CyclesByRaiseNoCost, CyclesByEndSettled, ThreeKindsCycle, ThreeKindsCycles};

/// Whatever the kinds of the refiners, a cycle begins at the cost of the partition that it is given,
/// never raises it, and ends with a partition that obeys the fixes, is within the limit and settled.
pub fn end_of_cycle()
    ensures begins { CycleByBeginsAtCost }
    ensures descent { CycleByRaisesNoCost }
    ensures settled { CycleByEndsSettled }
{}

/// And so do several cycles.
pub fn end_of_cycles()
    ensures descent { CyclesByRaiseNoCost }
    ensures settled { CyclesByEndSettled }
{}

/// With label propagation, searches and flows, in this order, cycles are those of the method.
pub fn cycles_of_three()
    ensures cycle { ThreeKindsCycle }
    ensures cycles { ThreeKindsCycles }
{}
