//! The tests of the transducer layer, and what they share with the program that measures it: the
//! transducer of rows that are looked at as they come.
#![tactic(auto)]

mod rows;

pub use rows::{Row, RowsError, transducer_of};

#[cfg(test)]
mod tests;
