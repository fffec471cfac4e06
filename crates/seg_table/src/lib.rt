//! The table of a segment: its documents, who owns each path, and the documents by id. Segments
//! keep one, and searches and deletes read it; contracts see the list of documents.
#![tactic(auto)]

mod counting;
mod finding;
mod id_ref;
mod indexing;
mod owner;
mod run;
mod table;

pub use owner::Owner;
pub use run::IdRun;
pub use table::SegTable;
