//! The limit of documents' numbers.
ghost use Rattle.seg_bytes.specs.Limits.{IsLimit};

/// The greatest number of an operation, and so of a document.
pub const MOST_SEQ: u64 = 4_194_304;

/// The limit is the number that is documented.
pub fn limits_are_exact()
    ensures { IsLimit }
{}
