//! The laws of pairs of blocks. Each is the contract of a function that does nothing.

ghost use Rattle.flow_pair.specs.Laws.{AssignmentsDifferByPairCost, AssignmentsAreCuts, CutsAreAssignments};
ghost use Rattle.flow_pair.specs.Laws.{PairsKeepApart, PairsSaveApart};

/// Two assignments of a region to a pair of blocks, with the rest left, differ in cost by the
/// difference of what the nets pay that touch both blocks.
pub fn cost_of_assignments()
    ensures { AssignmentsDifferByPairCost }
{}

/// Each assignment of a region is a cut of its network whose capacity is what the nets pay that touch
/// both blocks. Each cut between the source and the sink is an assignment for which they pay no more.
pub fn cuts_of_networks()
    ensures cuts { AssignmentsAreCuts }
    ensures assignments { CutsAreAssignments }
{}

/// Where one of two pairs without a block in common is assigned anew, the other one keeps its nets,
/// its sides and its loads, and a change within it saves what it would have saved before.
pub fn pairs_apart()
    ensures kept { PairsKeepApart }
    ensures saved { PairsSaveApart }
{}
