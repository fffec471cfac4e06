//! Merges: the live documents of a merge's sources written as one segment. A job is worked outside
//! the index's lock, on parts that never change; contracts see it as its parts.
#![tactic(auto)]

mod copying;
mod document_ref;
mod done;
mod job;
mod merging;
mod sources;

pub use done::MergeDone;
pub use job::MergeJob;
