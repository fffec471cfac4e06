//! The answer to a query by a plain scan over documents: what a search of an index must give too.
//! Beside it the one definition of a sound report, in which a search, a view and a printed line are
//! judged by that answer. Contracts see queries and documents as plain data.
#![tactic(auto)]

mod answers;
mod laws;
mod limits;
mod numbered_ref;

pub use answers::first_rows;
pub use laws::{
    complete_where_queues_suffice, kept_one_more, other_documents_are_in_order,
    sound_segments_make_a_sound_view, worked_reports,
};
pub use limits::{MOST_QUEUED, limits_are_exact};
pub use numbered_ref::{NumberedRef, document_with};
