//! Tests of refinement by races: the rollback, the log, label propagation and localized searches.
#![tactic(auto)]

#[cfg(test)]
mod labels;
#[cfg(test)]
mod logs;
#[cfg(test)]
mod rollback;
#[cfg(test)]
mod searches;
