//! The law of flows and cuts, as the contract of a function that does nothing.

ghost use Rattle.flow_net.specs.Laws.{FlowsAreWithinCuts};

/// No flow is greater than the capacity of a cut between the same nodes. So a flow that fills a cut
/// is a greatest one, and the cut is one of least capacity.
pub fn flows_are_within_cuts()
    ensures { FlowsAreWithinCuts }
{}
