use hg_base::{Blocks, Gains, Items, MapList, MapStack, TryClone, Verts};
use hg_defs::{Move, NoMemory};

/// The moves of a round, in the order in which they were made.
pub type Moves = Items<Move>;

/// Rounds, in the order in which they were made.
pub type RoundList = Items<LoggedRound>;

/// The traces of several descents.
pub type TraceList = Items<Trace>;

/// The numbers of a run.
#[derive(Clone, Copy, Debug, PartialEq, Eq)]
pub struct Job {
    /// How many blocks there are.
    pub k: u32,
    /// The imbalance, in thousandths.
    pub eps: u32,
    /// The seed of what is drawn.
    pub seed: u64,
    /// How many workers there are.
    pub workers: u32,
}

/// What made a round.
#[derive(Clone, Copy, Debug, PartialEq, Eq)]
pub enum Kind {
    /// Label propagation.
    Label,
    /// Localized searches.
    Search,
    /// A minimum cut between two blocks.
    Flow,
    /// A plain sweep at the end of a run.
    Sweep,
}

/// One round: its moves, how many of them were kept, and what it did to the cost.
#[derive(Debug, Drop)]
pub struct LoggedRound {
    /// What made the round.
    pub kind: Kind,
    /// The level that it was made on, 0 being the file's hypergraph.
    pub level: u32,
    /// All moves of the round, those that were rolled back included.
    pub moves: Moves,
    /// How many moves, from the first on, were kept.
    pub kept: u32,
    /// The sum that each worker booked; a round of flow or a sweep has one.
    pub gains: Gains,
    /// The cost before the round.
    pub before: u64,
    /// The cost after all its moves.
    pub made: u64,
    /// The cost after the moves that were kept.
    pub after: u64,
    /// The lower block of a flow round's pair, else 0.
    pub first: u32,
    /// The higher block of a flow round's pair, else 0.
    pub second: u32,
    /// The vertices that a flow round assigned anew, else empty.
    pub region: Verts,
    /// The value of a flow round's minimum cut, else 0.
    pub value: u64,
    /// Whether the moves were made by passes of a shared table.
    pub tabled: bool,
}

/// Why coarsening stopped.
#[derive(Debug, Drop)]
pub enum Stop {
    /// The coarsest hypergraph has few vertices.
    Small,
    /// The clustering found for the coarsest hypergraph removes too few of its vertices.
    Stuck(MapList),
}

/// Which partition of the file was swept at the end.
#[derive(Clone, Copy, Debug, PartialEq, Eq)]
pub enum Chosen {
    /// The one that came down the levels.
    Levels,
    /// The greedy one, which is cheaper.
    Greedy,
}

/// One descent: the levels, the first partition, and all rounds.
#[derive(Debug, Drop)]
pub struct Trace {
    /// The clusterings that were contracted, the file's first.
    pub maps: MapStack,
    /// Why there are no more of them.
    pub stop: Stop,
    /// The level of the first partition, 0 being the file's hypergraph.
    pub start: u32,
    /// The first partition.
    pub first: Blocks,
    /// The rounds from the start level down to the file, and the sweeps at the end.
    pub rounds: RoundList,
    /// The file's partition after the last refiner.
    pub last: Blocks,
    /// Which partition was swept.
    pub chosen: Chosen,
}

impl TryClone for LoggedRound {
    fn try_clone(&self) -> Result<Self, NoMemory> {
        Ok(LoggedRound {
            kind: self.kind,
            level: self.level,
            moves: self.moves.copy()?,
            kept: self.kept,
            gains: self.gains.copy()?,
            before: self.before,
            made: self.made,
            after: self.after,
            first: self.first,
            second: self.second,
            region: self.region.copy()?,
            value: self.value,
            tabled: self.tabled,
        })
    }
}

impl TryClone for Stop {
    fn try_clone(&self) -> Result<Self, NoMemory> {
        Ok(match self {
            Stop::Small => Stop::Small,
            Stop::Stuck(clusters) => Stop::Stuck(clusters.copy()?),
        })
    }
}

impl TryClone for Trace {
    fn try_clone(&self) -> Result<Self, NoMemory> {
        Ok(Trace {
            maps: self.maps.copy()?,
            stop: self.stop.try_clone()?,
            start: self.start,
            first: self.first.copy()?,
            rounds: self.rounds.copy()?,
            last: self.last.copy()?,
            chosen: self.chosen,
        })
    }
}
