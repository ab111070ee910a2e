//! Tests of the commands: what they write, and how they end.
#![tactic(auto)]

#[cfg(test)]
mod commands;
