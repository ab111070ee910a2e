//! The lines of a text, their fields, and numbers.
//!
//! A line ends with a line feed, and one carriage return before it is dropped. Fields are runs of
//! bytes other than blank and tab. Lines without fields and lines that begin with a percent sign
//! are passed over, but counted.
#![tactic(auto)]

mod cut;
mod decimal;
mod eight;
mod lines;
mod numeral;
#[cfg(test)]
mod tests;

pub use cut::end_of_line;
pub use decimal::{put_number, put_signed};
pub use lines::{Kept, Lines};
pub use numeral::{BadNumber, number};
