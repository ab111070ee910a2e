//! What is printed about partitions: evaluations and summaries.
#![tactic(auto)]

mod evaluation;
mod fields;
mod first;
mod lines;
mod loads;
mod report;
mod rounds;
mod summary;
#[cfg(test)]
mod tests;

pub use evaluation::put_evaluation;
pub use report::put_report;
pub use summary::put_summary;
