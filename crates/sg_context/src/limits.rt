//! The limits and defaults of queries. The greatest boost stands with the greatest weight.
ghost use Rattle.sg_context.specs.Limits.{AreLimits};

/// What a weight is multiplied by, from `LEAST_BOOST` to `MOST_BOOST`.
pub type Boost = u32;

/// The least boost of a query context.
pub const LEAST_BOOST: Boost = 1;

/// The boost of a query context that gives none, and of every context where a query asks for none.
pub const DEFAULT_BOOST: Boost = 1;

/// The most contexts of a query.
pub const MOST_QUERY_CONTEXTS: usize = 64;

/// The fewest rows that a query asks for.
pub const LEAST_K: u32 = 1;

/// The most rows that a query asks for.
pub const MOST_K: u32 = 1_000;

/// Each limit and default is the number that is documented.
pub fn limits_are_exact()
    ensures { AreLimits }
{}
