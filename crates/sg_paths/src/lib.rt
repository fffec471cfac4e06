//! Suggestions, documents, the operations on them and their paths, as every layer above passes them
//! on. Contracts see each as plain data, and an operation through `plain_op`.
#![tactic(auto)]

mod bound;
mod collecting;
mod document;
mod entry;
mod limits;
mod listing;
mod live;
mod numbering;
mod op;
mod path;
mod path_laws;
mod sorting;
mod suggestion;

pub use bound::paths_at_most;
pub use document::{Document, DocumentError, is_id};
pub use limits::{
    MOST_CONTEXTS, MOST_ID_BYTES, MOST_SEGMENT_DOCUMENTS, MOST_SEGMENT_PATHS, MOST_SUGGESTIONS,
    MOST_TEXT_BYTES, limits_are_exact,
};
pub use listing::paths_of;
pub use live::{
    an_update_leaves_its_own_document_alone, deletes_reach_earlier_documents_only,
    live_documents_of,
};
pub use op::{Batch, Numbered, Op};
pub use path::Path;
pub use path_laws::{
    all_paths_are_those_of_documents, each_entry_has_a_path, each_pair_has_one_path,
    numbers_count_the_entries_before,
};
pub use suggestion::{Suggestion, SuggestionError};
