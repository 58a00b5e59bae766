// A table of rows and columns in one flat array, and the numbers that name its rows and columns.
#![tactic(auto)]

pub mod grid;
pub mod number;
#[cfg(test)]
mod tests;

pub use crate::grid::Grid;
pub use crate::number::{FecNumber, Label, Line, Number, Router};
