//! The limit of a lock.
ghost use Rattle.turn_lock.specs.Limits.{AreLimits};

/// The most handles that a lock has.
pub const MOST_SEATS: u32 = 17;

/// The limit is the number that is documented.
pub fn limits_are_exact()
    ensures { AreLimits }
{}
