//! Tests of whole descents: where they begin and end, cycles, and the deterministic mode.
#![tactic(auto)]

#[cfg(test)]
mod cycles;
#[cfg(test)]
mod descents;
#[cfg(test)]
mod deterministic;
