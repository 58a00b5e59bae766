// The rows that a rehearsal gives: faults of the file, packets and totals, and their text.
#![tactic(auto)]

mod making;
pub mod row;
pub mod text;
mod words;

pub use crate::row::Row;
pub use crate::text::report;

#[cfg(test)]
mod tests;
