//! The segment of a piece, and its live docs up to an operation. Flushes, views and merges ask for
//! them; what a piece has already is shared. Contracts see documents and live docs as lists.
#![tactic(auto)]

mod live_docs;
mod segments;

pub use live_docs::live_docs_less;
pub use segments::segment_of;
