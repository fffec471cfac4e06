//! Where the parts of a segment's bytes stand.

/// The bytes of the name and the three counts.
pub(crate) const HEADER: usize = 20;

/// Where the header has the number of documents.
pub(crate) const DOCUMENT_COUNT: usize = 4;

/// Where the header has the number of paths.
pub(crate) const PATH_COUNT: usize = 8;

/// Where the header has the length of the transducer.
pub(crate) const TEXT_LENGTH: usize = 12;

/// The bytes of an owner: the places of the document and of the suggestion.
pub(crate) const OWNER: usize = 5;

/// The bytes of a place in the index by ids.
pub(crate) const PLACE: usize = 4;
