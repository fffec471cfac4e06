//! The limits of the index.
ghost use Rattle.index_core.specs.Limits.{AreLimits};

/// The most operations that are accepted.
pub const MOST_OPERATIONS: u64 = 4_194_304;

/// How many operations a full batch has: so many buffered ones are frozen at once.
pub const BATCH_OPERATIONS: usize = 16_384;

/// The most views that are open at one time.
pub const MOST_OPEN_VIEWS: u32 = 256;

/// Each limit is the number that is documented.
pub fn limits_are_exact()
    ensures { AreLimits }
{}
