//! What is searched for, and why parts make no query.
ghost use Rattle.std.specs.Prelude.{◌≡◌, IfErr, IfOk};
ghost use Rattle.sg_context.specs.Queries.{IsQuery, RefusesQuery};

use crate::limits::{LEAST_BOOST, LEAST_K, MOST_K, MOST_QUERY_CONTEXTS};
use crate::query_context::QueryContext;
use sg_base::{Key, List, MOST_BOOST, saturated_u32};
use std::error::Error;
use std::fmt;
use std::marker::Model;

/// A search for the best rows under a prefix.
#[derive(Debug, Drop)]
pub struct Query {
    /// What the keys of the rows begin with. The empty one is a prefix of every key.
    pub prefix: Key,
    /// At most 64. Without any, every context matches.
    pub contexts: List<QueryContext>,
    /// How many rows are asked for: 1 to 1,000.
    pub k: u32,
}

/// Why the parts make no query.
#[derive(Clone, Copy, Debug, PartialEq, Eq)]
pub enum QueryError {
    /// More than 64 contexts.
    Contexts { count: u32 },
    /// A number of rows that isn't 1 to 1,000.
    K { k: u32 },
}

impl fmt::Display for QueryError {
    fn fmt<W: fmt::Write>(&self, f: &mut fmt::Formatter<W>) -> fmt::Result {
        match self {
            QueryError::Contexts { count } => write!(f, "there are {count} query contexts"),
            QueryError::K { k } => write!(f, "k is {k}"),
        }
    }
}

impl Error for QueryError {}

impl Model for Query {
    ghost use Rattle.sg_context.specs.Queries.{PlainQuery, IsQuery};

    ghost Value = { PlainQuery };

    ghost view = { λ q. record { prefix = q.prefix; contexts = q.contexts.items; k = q.k } };

    ghost invariant = { λ q. IsQuery (record {
      prefix = q.prefix;
      contexts = q.contexts.items;
      k = q.k;
    }) };
}

impl Query {
    /// The errors in order: `Contexts`, `K`. Takes no memory.
    pub fn new(prefix: Key, contexts: Vec<QueryContext>, k: u32) -> Result<Query, QueryError>
        ensures value { IfOk result (λ q. q ≡ record {
          prefix = prefix;
          contexts = contexts.items;
          k = k;
        }) }
        ensures ok { IfOk result (λ q. IsQuery q) }
        ensures refused { IfErr result (RefusesQuery (record {
          prefix = prefix;
          contexts = contexts.items;
          k = k;
        })) }
    {
        if contexts.len() > MOST_QUERY_CONTEXTS {
            return Err(QueryError::Contexts {
                count: saturated_u32(contexts.len()),
            });
        }
        if k < LEAST_K || k > MOST_K {
            return Err(QueryError::K { k });
        }
        // Each context keeps the limits of its boost, so the list does: searches read it there.
        prove!(
            contexts
                .iter()
                .all(|q| q.boost >= LEAST_BOOST && q.boost <= MOST_BOOST)
        );
        Ok(Query {
            prefix,
            contexts: List::of(contexts),
            k,
        })
    }
}
