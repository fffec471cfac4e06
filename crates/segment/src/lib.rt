//! Segments: documents by rising numbers with the transducer of their paths, and their bytes.
//! Flushes and merges make them, searches and deletes read them; contracts see the list of
//! documents.
#![tactic(auto)]

mod building;
mod checking;
mod comparing;
mod counting;
mod documents;
mod header;
mod laws;
mod layout;
mod limits;
mod parts;
mod segment;
mod writing;

pub use laws::{
    one_thing_is_found, the_example_is_written, what_is_accepted_was_written,
    what_was_written_is_accepted,
};
pub use limits::{MOST_BATCH_OPERATIONS, limits_are_exact};
pub use parts::{Kind, MergeParts, Piece, ViewParts};
pub use segment::Segment;
