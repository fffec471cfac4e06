//! The documents of a segment as bytes: writing, reading with the offset of the first field that
//! breaks, and the rule of their numbers. Segments stand on it; contracts see the list of documents
//! and the bytes.
#![tactic(auto)]

mod documents;
mod error;
mod field;
mod fields;
mod laws;
mod lengths;
mod limits;
mod numbers;
mod packed;
mod pushing;
mod reading;
mod stepping;
mod texts;
mod values;
mod writing;

pub use documents::{DocumentsRead, read_documents};
pub use error::ReadError;
pub use laws::{
    the_bytes_tell_the_documents, the_example_is_read, what_is_read_was_written,
    what_was_written_is_read,
};
pub use lengths::documents_len;
pub use limits::{MOST_SEQ, limits_are_exact};
pub use numbers::misplaced_number;
pub use packed::PackedDocuments;
pub use writing::put_documents;
