//! The best-first search of one segment with a bounded queue: its first k rows, or those that
//! precede a truncation point. A view calls it for each of its segments, which it sees through
//! `SegParts`: contracts see the documents, and the nodes of the transducer that maps their paths.
#![tactic(auto)]

mod following;
mod loading;
mod parts;
mod reaching;
mod rows;
mod searching;
mod sizing;

pub use parts::SegParts;
pub use searching::search;
pub use sizing::queue_size;
