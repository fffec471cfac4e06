//! The limit of a search.
ghost use Rattle.sg_answers.specs.Limits.{AreLimits};

/// The most paths that the queue of a search has room for.
pub const MOST_QUEUED: u32 = 5_000;

/// The limit is the number that is documented.
pub fn limits_are_exact()
    ensures { AreLimits }
{}
