//! Tests of refinement by flows: networks, pairs of blocks, and rounds of disjoint pairs.
#![tactic(auto)]

#[cfg(test)]
mod networks;
#[cfg(test)]
mod pairs;
#[cfg(test)]
mod rounds;
