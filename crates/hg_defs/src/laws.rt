//! The laws over the definitions. Each is the contract of a function that does nothing.

ghost use Rattle.hg_defs.specs.PlacementLaws.{AllWeightsArePlaced, GreedyDoesNotFit, GreedyFits, GreedyIsPartition};
ghost use Rattle.hg_defs.specs.PlacementLaws.{GreedyObeys, HeaviestFirstListsFree};
ghost use Rattle.hg_defs.specs.PlacementLaws.{HeaviestGoFirst, LeastIsFirstLeast};
ghost use Rattle.hg_defs.specs.PlacementLaws.{LeastLoadedIsInTurn, LeastLoadedIsPartition, LeastLoadedObeys};
ghost use Rattle.hg_defs.specs.PlacementLaws.{LoadsAreKept, NoneOverfillsWhereItFits, OneOverfillsWhereItDoesNotFit};
ghost use Rattle.hg_defs.specs.PlacementLaws.{OnlyLeastLoadedIsInTurn, OverfillingIsFirst};
ghost use Rattle.hg_defs.specs.ContractionLaws.{ContractionIsHypergraph, ContractionKeepsCost};
ghost use Rattle.hg_defs.specs.ContractionLaws.{ContractionKeepsLimits};
ghost use Rattle.hg_defs.specs.ContractionLaws.{ContractionKeepsLoads, ContractionKeepsWeight, FittingIsLifted};
ghost use Rattle.hg_defs.specs.ContractionLaws.{FittingIsProjected, FixesAreLifted};
ghost use Rattle.hg_defs.specs.ContractionLaws.{FixesAreProjected, FixesStayWithin};
ghost use Rattle.hg_defs.specs.ContractionLaws.{PartitionIsLifted, PartitionIsProjected};
ghost use Rattle.hg_defs.specs.MoveLaws.{AllowedMoveFits, AllowedMoveIsPartition, AllowedMoveObeys};
ghost use Rattle.hg_defs.specs.MoveLaws.{AllowedMovesArePartition, AllowedMovesFit};
ghost use Rattle.hg_defs.specs.MoveLaws.{AllowedMovesObey, BestBlockIsBest};
ghost use Rattle.hg_defs.specs.MoveLaws.{ConnectivityCountsBlocks, EmptySweepIsSettled, GainIsLocal};
ghost use Rattle.hg_defs.specs.MoveLaws.{MoveKeepsOtherLoads, MoveLowersLoad, MoveRaisesLoad};
ghost use Rattle.hg_defs.specs.MoveLaws.{NoBestBlockGainsNothing};
ghost use Rattle.hg_defs.specs.MoveLaws.{OnlyBestBlockIsBest, SettledSweepIsEmpty, SweepIsAllowed, SweepLowersCost};
ghost use Rattle.hg_defs.specs.MoveLaws.{SweepMakesBestMoves, SweepRises, SweepSavesWhatItBooks};
ghost use Rattle.hg_defs.specs.ReplayLaws.{BestPrefixIsBest, FittingIsTested, FreeMovesLeaveFixes, GainsAddUp};
ghost use Rattle.hg_defs.specs.ReplayLaws.{MovesAreRedone, MovesAreUndone, MovesLeavePartition, OnlyBestPrefixIsBest};
ghost use Rattle.hg_defs.specs.SetLaws.{OnlySetHasMembers, SetHasMembers, SetRises};
ghost use Rattle.hg_defs.specs.NetLaws.{ImageHasClusters, ImageRises, ImagesAreNets};
ghost use Rattle.hg_defs.specs.NetLaws.{NetsAreImages, NetsRise, NetsWeighTogether};
ghost use Rattle.hg_defs.specs.NamedLaws.{CheapestIsFirst, NamedArePartitions, NamedObey};
ghost use Rattle.hg_defs.specs.NamedLaws.{NoneIsCheapestWhereNoneFits, OneFitsWhereGreedyDoes, OnlyCheapestIsFirst};
ghost use Rattle.hg_defs.specs.PairingLaws.{AloneIsRooted, NumberCountsRoots, NumberingKeepsSingles};
ghost use Rattle.hg_defs.specs.PairingLaws.{NumberingKeepsTogether, NumbersAreAsMany, NumbersAreClustering};
ghost use Rattle.hg_defs.specs.PairingLaws.{NumbersRise, NumbersTellRoots, PairedInsideIsInside, PairedIsClustering};
ghost use Rattle.hg_defs.specs.PairingLaws.{PairedIsMaximal, PairingInsideIsMaximal, PairingInsideIsRooted};
ghost use Rattle.hg_defs.specs.PairingLaws.{PairingInsideJoinsSingles, PairingInsideKeepsBlocks, PairingIsMaximal};
ghost use Rattle.hg_defs.specs.PairingLaws.{PairingIsRooted, PairingJoinsSingles, SplitIsRooted, SplitKeepsBlocks};
ghost use Rattle.hg_defs.specs.SynchronousLaws.{SettledSyncIsSame, SettledSyncMovesNothing, SyncLeavesFixes};
ghost use Rattle.hg_defs.specs.SynchronousLaws.{SyncLeavesPartition, SyncMovesAreAllowed, SyncMovesAreBooked};
ghost use Rattle.hg_defs.specs.SynchronousLaws.{SyncMovesAreOfDistinct, SyncMovesAreWishes, SyncMovesComeFrom};
ghost use Rattle.hg_defs.specs.SynchronousLaws.{SyncMovesSaveWhatTheyBook, SyncRaisesNoCost, SyncStaysWithinLimit};
ghost use Rattle.hg_defs.specs.SynchronousLaws.{UnsettledSyncLowersCost, UnsettledSyncMoves, WishesAreBestMoves};
ghost use Rattle.hg_defs.specs.SynchronousLaws.{WishesComeBySaving};
ghost use Rattle.hg_defs.specs.LevelLaws.{LevelIsAdded, LevelIsContraction, LevelsAreListed, LevelsAreOneMore};
ghost use Rattle.hg_defs.specs.LevelLaws.{LevelsStay, LiftedFollows, LiftedIsProjected, LiftedIsProjectedBack};
ghost use Rattle.hg_defs.specs.LevelLaws.{OnlyLiftedIsProjected, ProjectionKeepsCost};

/// Least loaded placement gives each vertex a block and obeys the fixes. It places the vertices in
/// turn, each free one into the block of least load so far, and nothing else does.
pub fn least_loaded_placement()
    ensures partition { LeastLoadedIsPartition }
    ensures fixes { LeastLoadedObeys }
    ensures in_turn { LeastLoadedIsInTurn }
    ensures only { OnlyLeastLoadedIsInTurn }
    ensures least { LeastIsFirstLeast }
{}

/// The loads kept while vertices are placed are the weights placed so far, and in the end the loads
/// of the partition.
pub fn loads_while_placing()
    ensures kept { LoadsAreKept }
    ensures whole { AllWeightsArePlaced }
{}

/// The vertex that overfills is the first whose placing takes its block past the limit. There is
/// none exactly where the placement fits.
pub fn overfilling_vertex()
    ensures first { OverfillingIsFirst }
    ensures none { NoneOverfillsWhereItFits }
    ensures one { OneOverfillsWhereItDoesNotFit }
{}

/// Greedy placement is least loaded placement of the free vertices, the heaviest first.
pub fn greedy_placement()
    ensures listed { HeaviestFirstListsFree }
    ensures heaviest { HeaviestGoFirst }
    ensures partition { GreedyIsPartition }
    ensures fixes { GreedyObeys }
    ensures fits { GreedyFits }
    ensures overfilled { GreedyDoesNotFit }
{}

/// The test whether a partition fits answers yes exactly where it does. The best prefix of a list of
/// moves is the shortest of the cheapest that fit, and no other one is.
pub fn best_prefix_of_moves()
    ensures tested { FittingIsTested }
    ensures best { BestPrefixIsBest }
    ensures only { OnlyBestPrefixIsBest }
{}

/// The best block of a vertex is an allowed one of the highest gain above 0, the lowest at a tie, and
/// no other block is. Where there is none, no allowed move of the vertex gains.
pub fn best_block_of_vertex()
    ensures best { BestBlockIsBest }
    ensures only { OnlyBestBlockIsBest }
    ensures none { NoBestBlockGainsNothing }
{}

/// A sweep is empty exactly where the partition is settled. Each of its moves is the best of its
/// vertex in its turn, the vertices rise, and the cost falls by what is booked.
pub fn sweep_of_partition()
    ensures settled { EmptySweepIsSettled }
    ensures empty { SettledSweepIsEmpty }
    ensures best { SweepMakesBestMoves }
    ensures rising { SweepRises }
    ensures saved { SweepSavesWhatItBooks }
    ensures lower { SweepLowersCost }
    ensures allowed { SweepIsAllowed }
{}

/// An allowed move leaves a partition that obeys the fixes and fits, and so do moves that are allowed
/// in turn.
pub fn allowed_moves()
    ensures partition { AllowedMoveIsPartition }
    ensures fixes { AllowedMoveObeys }
    ensures fits { AllowedMoveFits }
    ensures partitions { AllowedMovesArePartition }
    ensures obeyed { AllowedMovesObey }
    ensures fitting { AllowedMovesFit }
{}

/// A move changes the loads of the two blocks alone, and its gain is what the nets of the vertex
/// save, by their pin counts in the two blocks.
pub fn change_by_move()
    ensures raised { MoveRaisesLoad }
    ensures lowered { MoveLowersLoad }
    ensures others { MoveKeepsOtherLoads }
    ensures connectivity { ConnectivityCountsBlocks }
    ensures gain { GainIsLocal }
{}

/// The contraction of a hypergraph by a full map is a hypergraph of the same weight, and it keeps
/// the limits.
pub fn contraction_of_hypergraph()
    ensures hypergraph { ContractionIsHypergraph }
    ensures weight { ContractionKeepsWeight }
    ensures limits { ContractionKeepsLimits }
    ensures within { FixesStayWithin }
{}

/// A partition of the contraction has the cost and the loads of the fine partition that it stands
/// for. The one is a partition into k blocks and fits exactly where the other does. It obeys the
/// fixes where the other does; the other way round each vertex that isn't free is alone in its
/// cluster.
pub fn projection_of_partition()
    ensures cost { ContractionKeepsCost }
    ensures loads { ContractionKeepsLoads }
    ensures fits { FittingIsProjected }
    ensures fitted { FittingIsLifted }
    ensures partition { PartitionIsProjected }
    ensures lifted { PartitionIsLifted }
    ensures obeys { FixesAreProjected }
    ensures obeyed { FixesAreLifted }
{}

/// The gains of replayed moves sum to what the moves save together. Moves to blocks below k leave a
/// partition, moves of free vertices keep the fixes, and moves of distinct vertices can be undone.
pub fn replay_of_moves()
    ensures gains { GainsAddUp }
    ensures partition { MovesLeavePartition }
    ensures fixes { FreeMovesLeaveFixes }
    ensures undone { MovesAreUndone }
    ensures redone { MovesAreRedone }
{}

/// The set of a list of numbers is the one rising list with its members.
pub fn set_of_numbers()
    ensures rising { SetRises }
    ensures members { SetHasMembers }
    ensures only { OnlySetHasMembers }
{}

/// The nets of a contraction are the images of at least two clusters, each once, in rising order, and
/// each weighs what the nets with that image weigh together.
pub fn nets_of_contraction()
    ensures rising { ImageRises }
    ensures clusters { ImageHasClusters }
    ensures images { NetsAreImages }
    ensures each { ImagesAreNets }
    ensures once { NetsRise }
    ensures weights { NetsWeighTogether }
{}

/// The named placements are partitions that obey the fixes. The cheapest of those that fit, the first
/// at a tie, is found, and none exactly where none fits.
pub fn named_placements()
    ensures partitions { NamedArePartitions }
    ensures fixes { NamedObey }
    ensures cheapest { CheapestIsFirst }
    ensures only { OnlyCheapestIsFirst }
    ensures none { NoneIsCheapestWhereNoneFits }
    ensures greedy { OneFitsWhereGreedyDoes }
{}

/// Clusters that are numbered by rising root are the clusters of the roots: vertices of one root have
/// one number, a lower root has a lower number, and the numbers are full.
pub fn numbering_by_root()
    ensures told { NumbersTellRoots }
    ensures rising { NumbersRise }
    ensures count { NumbersAreAsMany }
    ensures number { NumberCountsRoots }
    ensures clustering { NumbersAreClustering }
    ensures together { NumberingKeepsTogether }
    ensures singles { NumberingKeepsSingles }
{}

/// The pairing sweep keeps the cap, joins single vertices alone, and leaves no two of them on a small
/// net that could be joined.
pub fn pairing_of_vertices()
    ensures alone { AloneIsRooted }
    ensures rooted { PairingIsRooted }
    ensures joined { PairingJoinsSingles }
    ensures maximal { PairingIsMaximal }
    ensures paired { PairedIsClustering }
    ensures most { PairedIsMaximal }
{}

/// The same holds of the pairing inside the blocks of a partition, which joins vertices of one block
/// alone. A clustering by roots is brought inside the blocks by giving up the roots in other blocks.
pub fn pairing_inside_blocks()
    ensures rooted { PairingInsideIsRooted }
    ensures joined { PairingInsideJoinsSingles }
    ensures blocks { PairingInsideKeepsBlocks }
    ensures maximal { PairingInsideIsMaximal }
    ensures inside { PairedInsideIsInside }
    ensures split { SplitIsRooted }
    ensures apart { SplitKeepsBlocks }
{}

/// The moves of a synchronous round grant wishes, each for the best move of its vertex at the
/// beginning, while there is room. They come by what they would save, and are booked as replayed.
pub fn moves_of_synchronous_round()
    ensures wishes { WishesAreBestMoves }
    ensures order { WishesComeBySaving }
    ensures granted { SyncMovesAreWishes }
    ensures once { SyncMovesAreOfDistinct }
    ensures allowed { SyncMovesAreAllowed }
    ensures booked { SyncMovesAreBooked }
    ensures from { SyncMovesComeFrom }
    ensures saved { SyncMovesSaveWhatTheyBook }
    ensures none { SettledSyncMovesNothing }
    ensures some { UnsettledSyncMoves }
{}

/// A synchronous round lowers the cost where the partition isn't settled, and leaves it as it is where
/// it is settled. It keeps the partition, its fixes and the limit.
pub fn partition_after_synchronous_round()
    ensures cheaper { UnsettledSyncLowersCost }
    ensures same { SettledSyncIsSame }
    ensures no_dearer { SyncRaisesNoCost }
    ensures partition { SyncLeavesPartition }
    ensures fixes { SyncLeavesFixes }
    ensures within { SyncStaysWithinLimit }
{}

/// Each level is the contraction of the one below it. A partition that is the same on each cluster is
/// lifted to the one partition of the clusters that it is the projection of. Through several levels a
/// projection costs what the partition costs on its level.
pub fn levels_of_clusterings()
    ensures count { LevelsAreOneMore }
    ensures listed { LevelsAreListed }
    ensures contracted { LevelIsContraction }
    ensures same { LevelsStay }
    ensures added { LevelIsAdded }
    ensures lifted { LiftedIsProjected }
    ensures only { OnlyLiftedIsProjected }
    ensures carried { LiftedFollows }
    ensures costs { ProjectionKeepsCost }
    ensures back { LiftedIsProjectedBack }
{}
