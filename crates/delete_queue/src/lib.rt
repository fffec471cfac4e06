//! Deletes by number: which documents of a segment are deleted by operations that came after those
//! that its live docs know. Views and merges ask it; contracts see batches and tables as lists.
#![tactic(auto)]

mod collecting;
mod delete_ref;
mod finding;
mod laws;

pub use finding::dead_in;
pub use laws::deletes_since_complete_what_is_known;
