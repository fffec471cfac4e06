//! What a query gets.

use sg_base::{Cut, Hit, List};

/// Rows in rank order, one for each document. It is complete where `cut` is None.
#[derive(Debug, Drop)]
pub struct Report {
    pub hits: List<Hit>,
    /// Where the rows were cut off: those that precede it are given, and no others.
    pub cut: Option<Cut>,
}
