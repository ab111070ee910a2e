//! Tests of the partition: costs and gains, sweeps, projection, and the words with which a round begins.
#![tactic(auto)]

#[cfg(test)]
mod partition;
