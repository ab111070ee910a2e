//! The laws over whole descents by refiners of given kinds. Each is the contract of a function that
//! does nothing.

ghost use Rattle.uncoarsen.specs.RefinedLaws.{EndsSettled, RefinersRaiseNoCost, EndsBelowLast, EndsBelowGreedy};
ghost use Rattle.uncoarsen.specs.RefinedLaws.{ThreeKindsAreLegal, ThreeKindsRefine};

/// Whatever the kinds of the refiners, a trace ends with a partition that obeys the fixes, is within
/// the limit and settled, and costs no more than the first one, nor than greedy placement.
pub fn end_of_descent()
    ensures settled { EndsSettled }
    ensures descent { RefinersRaiseNoCost }
    ensures below_last { EndsBelowLast }
    ensures below_greedy { EndsBelowGreedy }
{}

/// With label propagation, searches and flows, in this order, a trace is the legal one.
pub fn three_kinds()
    ensures level { ThreeKindsRefine }
    ensures legal { ThreeKindsAreLegal }
{}
