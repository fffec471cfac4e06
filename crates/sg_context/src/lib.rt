//! What a query asks for: a key's beginning, contexts with their boosts, and a number of rows.
//! The layers that search call `boost_of`. Contracts see queries and their contexts as plain data.
#![tactic(auto)]

mod boosts;
mod limits;
mod query;
mod query_context;

pub use boosts::boost_of;
pub use limits::{
    Boost, DEFAULT_BOOST, LEAST_BOOST, LEAST_K, MOST_K, MOST_QUERY_CONTEXTS, limits_are_exact,
};
pub use query::{Query, QueryError};
pub use query_context::{BoostError, QueryContext};
