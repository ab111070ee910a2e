//! Tests of coarsening: clusters, contraction, the stack of levels, and the passes that make it.
#![tactic(auto)]

#[cfg(test)]
mod clusters;
#[cfg(test)]
mod coarsening;
#[cfg(test)]
mod contraction;
#[cfg(test)]
mod levels;
