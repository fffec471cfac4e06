//! The limits of suggestions and documents.
ghost use Rattle.sg_paths.specs.Limits.{AreLimits};

/// The most bytes of a suggestion's text.
pub const MOST_TEXT_BYTES: usize = 1_024;

/// The most contexts of a suggestion.
pub const MOST_CONTEXTS: usize = 16;

/// The most bytes of a document's id.
pub const MOST_ID_BYTES: usize = 255;

/// The most suggestions of a document.
pub const MOST_SUGGESTIONS: usize = 16;

/// The most documents of a segment.
pub const MOST_SEGMENT_DOCUMENTS: u64 = 1_048_576;

/// The most paths of a segment.
pub const MOST_SEGMENT_PATHS: u64 = 4_194_304;

/// Each limit is the number that is documented.
pub fn limits_are_exact()
    ensures { AreLimits }
{}
