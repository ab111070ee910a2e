//! What a pass is asked to do, and what passes did so far.

/// What a refiner is asked to do.
#[derive(Clone, Copy, Debug, PartialEq, Eq)]
pub struct Task {
    /// The level of the hypergraph, 0 being the file's.
    pub level: u32,
    /// How many workers there are, from 1 to 64.
    pub workers: u32,
    /// The seed of the run.
    pub seed: u64,
}

/// What a refiner did in all its passes.
#[derive(Clone, Copy, Debug, PartialEq, Eq)]
pub struct Tally {
    /// How many rounds it logged.
    pub rounds: u64,
    /// How much lower these rounds made the costs.
    pub gain: u64,
}
