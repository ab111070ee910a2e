//! The laws over recorded rounds. Each is the contract of a function that does nothing.

ghost use Rattle.round_log.specs.RoundLaws.{SweepsEndSettled, SweepsAreReplayed};
ghost use Rattle.round_log.specs.RoundLaws.{SweepsLeadToOne, SweepsLeavePartition};
ghost use Rattle.round_log.specs.RoundLaws.{SweepsLeaveFixes, SweepsStayWithinLimit, SweepsRaiseNoCost};
ghost use Rattle.round_log.specs.RoundLaws.{SweepsLowerCost, RacedRoundLeavesPartition, RacedRoundLeavesFixes};
ghost use Rattle.round_log.specs.RoundLaws.{RacedRoundStaysWithinLimit, RacedRoundRaisesNoCost, RacedRoundKeepsBest};
ghost use Rattle.round_log.specs.RoundLaws.{RacedRoundKeepsCheapest, FlowRoundLeavesPartition, FlowRoundLeavesFixes};
ghost use Rattle.round_log.specs.RoundLaws.{FlowRoundRaisesNoCost, RegionIsFree};
ghost use Rattle.round_log.specs.RoundLaws.{PassLeavesPartition, PassLeavesFixes};
ghost use Rattle.round_log.specs.RoundLaws.{PassStaysWithinLimit, PassRaisesNoCost, PassSavesInItsRounds};
ghost use Rattle.round_log.specs.RoundLaws.{PassHasFewRounds, PassIsOfItsKind};
ghost use Rattle.round_log.specs.RoundLaws.{PassIsPartOfPass, PassMovesFreeVertices};
ghost use Rattle.round_log.specs.RegionLaws.{PairsAreOfBlocks, PairsRise, PairsAreHalf, TouchingHasBoth, NearIsTold};
ghost use Rattle.round_log.specs.RegionLaws.{NextIsTold, TakesWhileRoom, SideFits, SideIsRanked, RegionHasSides};
ghost use Rattle.round_log.specs.RegionLaws.{RegionRises, AssignmentIsPartition, AssignmentObeys, AssignmentFits};
ghost use Rattle.round_log.specs.TraceLaws.{TraceEndsSettled, DescentRaisesNoCost, TraceEndsBelowLast};
ghost use Rattle.round_log.specs.TraceLaws.{TraceEndsBelowGreedy, CycleBeginsAtCost, CycleRaisesNoCost};
ghost use Rattle.round_log.specs.TraceLaws.{CycleEndsSettled, CyclesRaiseNoCost, CyclesEndSettled, SyncRoundIsRaced};
ghost use Rattle.round_log.specs.TraceLaws.{SyncRoundLowersCost, SweepsEndAtFunction, FunctionEndsSettled};
ghost use Rattle.round_log.specs.TraceLaws.{DetDescentEndsAtFunction, DetTraceEndsAtFunction, DetTraceIsLegal};
ghost use Rattle.round_log.specs.TraceLaws.{DetEndsSettled, DetEndsBelowGreedy};

/// Sweeps end at one settled partition, which is where their moves lead.
pub fn end_of_sweeps()
    ensures settled { SweepsEndSettled }
    ensures replayed { SweepsAreReplayed }
    ensures one { SweepsLeadToOne }
{}

/// Sweeps keep the partition, its fixes and the limit, and lower the cost.
pub fn partition_after_sweeps()
    ensures partition { SweepsLeavePartition }
    ensures fixes { SweepsLeaveFixes }
    ensures within { SweepsStayWithinLimit }
    ensures no_dearer { SweepsRaiseNoCost }
    ensures cheaper { SweepsLowerCost }
{}

/// A raced round keeps the partition, its fixes and the limit, and of all its prefixes within the
/// limit it keeps a cheapest one.
pub fn partition_after_raced_round()
    ensures partition { RacedRoundLeavesPartition }
    ensures fixes { RacedRoundLeavesFixes }
    ensures within { RacedRoundStaysWithinLimit }
    ensures no_dearer { RacedRoundRaisesNoCost }
    ensures best { RacedRoundKeepsBest }
    ensures cheapest { RacedRoundKeepsCheapest }
{}

/// A flow round keeps the partition and its fixes, and never raises the cost: its region holds free
/// vertices of the pair alone. That it stays within the limit is a part of its definition.
pub fn partition_after_flow_round()
    ensures partition { FlowRoundLeavesPartition }
    ensures fixes { FlowRoundLeavesFixes }
    ensures no_dearer { FlowRoundRaisesNoCost }
    ensures region { RegionIsFree }
{}

/// The rounds of a pass of any kind, all or the first ones, keep the partition, its fixes and the limit,
/// and never raise the cost.
pub fn partition_after_pass()
    ensures partition { PassLeavesPartition }
    ensures fixes { PassLeavesFixes }
    ensures within { PassStaysWithinLimit }
    ensures no_dearer { PassRaisesNoCost }
{}

/// A pass has few rounds, all of its kind, and what they saved is what the pass saved. They move free
/// vertices alone. A whole pass is also the first rounds of one.
pub fn rounds_of_pass()
    ensures saved { PassSavesInItsRounds }
    ensures few { PassHasFewRounds }
    ensures kind { PassIsOfItsKind }
    ensures part { PassIsPartOfPass }
    ensures free { PassMovesFreeVertices }
{}

/// The pairs of different blocks stand each once, in rising order.
pub fn pairs_of_blocks()
    ensures blocks { PairsAreOfBlocks }
    ensures rising { PairsRise }
    ensures half { PairsAreHalf }
{}

/// The region of a pair has near and next vertices of its two blocks. Those of a side are taken while
/// the other block has room for all of them.
pub fn region_of_pair()
    ensures touching { TouchingHasBoth }
    ensures near { NearIsTold }
    ensures next { NextIsTold }
    ensures taken { TakesWhileRoom }
    ensures room { SideFits }
    ensures ranked { SideIsRanked }
    ensures sides { RegionHasSides }
    ensures rising { RegionRises }
{}

/// Every assignment of a region to its two blocks is a partition that obeys the fixes and fits.
pub fn assignment_of_region()
    ensures partition { AssignmentIsPartition }
    ensures fixes { AssignmentObeys }
    ensures within { AssignmentFits }
{}

/// A legal trace ends with a partition that obeys the fixes, is within the limit and settled, and
/// costs no more than the first one, which the refiners never made dearer, nor than greedy placement.
pub fn end_of_trace()
    ensures settled { TraceEndsSettled }
    ensures descent { DescentRaisesNoCost }
    ensures below_last { TraceEndsBelowLast }
    ensures below_greedy { TraceEndsBelowGreedy }
{}

/// A cycle begins at the cost of its partition and never raises it. It ends with a partition that
/// obeys the fixes, is within the limit and settled, and so do several of them.
pub fn end_of_cycle()
    ensures begins { CycleBeginsAtCost }
    ensures no_dearer { CycleRaisesNoCost }
    ensures settled { CycleEndsSettled }
    ensures several { CyclesRaiseNoCost }
    ensures last { CyclesEndSettled }
{}

/// A synchronous round of a partition that isn't settled is a raced round that lowers the cost.
pub fn round_of_deterministic_mode()
    ensures raced { SyncRoundIsRaced }
    ensures lower { SyncRoundLowersCost }
{}

/// The deterministic mode ends at one partition, a function of the hypergraph, the blocks, the limit and
/// the seed. Its trace is legal, and what it ends with obeys the fixes, is within the limit and settled.
pub fn end_of_deterministic_mode()
    ensures swept { SweepsEndAtFunction }
    ensures still { FunctionEndsSettled }
    ensures last { DetDescentEndsAtFunction }
    ensures one { DetTraceEndsAtFunction }
    ensures legal { DetTraceIsLegal }
    ensures settled { DetEndsSettled }
    ensures below_greedy { DetEndsBelowGreedy }
{}
