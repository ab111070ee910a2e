//! Tests of the first partition.
#![tactic(auto)]

#[cfg(test)]
mod placement;
