//! Keys of texts: of an input with the cut, of a query's prefix without it. Contracts cite the
//! definition of a text's analysis, which is the key or why there is none.
#![tactic(auto)]

mod analyzer;
mod folding;
mod joining;

pub use analyzer::{Analyzer, KeyError};
pub use folding::{MOST_INPUT_CHARS, limits_are_exact};
