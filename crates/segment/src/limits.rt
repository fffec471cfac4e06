//! The limit of a batch.
ghost use Rattle.segment.specs.Limits.{IsLimit};

/// The most operations of a batch, whose documents then have at most as many paths as a segment.
pub const MOST_BATCH_OPERATIONS: u64 = 16_384;

/// The limit is the number that is documented.
pub fn limits_are_exact()
    ensures { IsLimit }
{}
