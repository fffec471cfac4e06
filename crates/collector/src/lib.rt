//! Collects the rows of a query: the first of all that are put, one for each document, and the
//! report in the end. A search puts the rows of one segment, and a view those of all its segments.
//! Contracts see a collector as its hits; the keys of hits stand with whoever knows documents.
#![tactic(auto)]

mod closing;
mod inserting;
mod keys;
mod places;
mod report;
mod top;

pub use keys::Keys;
pub use report::Report;
pub use top::{Top, rankings_are_exact};
