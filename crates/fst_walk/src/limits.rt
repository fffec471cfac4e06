//! How much a walk has room for.

/// The most bytes that a path has.
pub(crate) const MOST_PATH_BYTES: usize = 324;

/// The most fronts that a path has, from no byte to all.
pub(crate) const MOST_PATH_FRONTS: usize = 325;

/// The most fronts that a context has, from no byte to all.
pub(crate) const MOST_CONTEXT_FRONTS: usize = 64;
