//! Which contexts count in a query, and how much.
ghost use Rattle.std.specs.Prelude.{◌≡◌, IfErr, IfOk};
ghost use Rattle.sg_context.specs.Boosts.{IsBoost, matches};

use crate::limits::{Boost, LEAST_BOOST};
use sg_base::{Context, MOST_BOOST};
use std::error::Error;
use std::fmt;
use std::marker::Model;

/// A context that a query asks for, and what the weights in it are multiplied by.
#[derive(Debug, Drop)]
pub struct QueryContext {
    pub context: Context,
    pub boost: Boost,
    /// Whether contexts that begin with this one match too.
    pub prefix: bool,
}

/// A boost that isn't from `LEAST_BOOST` to `MOST_BOOST`.
#[derive(Clone, Copy, Debug, PartialEq, Eq)]
pub struct BoostError {
    pub boost: Boost,
}

impl fmt::Display for BoostError {
    fn fmt<W: fmt::Write>(&self, f: &mut fmt::Formatter<W>) -> fmt::Result {
        write!(f, "the boost is {}", self.boost)
    }
}

impl Error for BoostError {}

impl Model for QueryContext {
    ghost use Rattle.sg_context.specs.Boosts.{PlainQueryContext, IsBoost};

    ghost Value = { PlainQueryContext };

    ghost view = { λ q. record { context = q.context; boost = q.boost; prefix = q.prefix } };

    ghost invariant = { λ q. IsBoost q.boost };
}

impl QueryContext {
    /// Takes no memory.
    pub fn new(context: Context, boost: Boost, prefix: bool) -> Result<QueryContext, BoostError>
        ensures value { IfOk result (λ q. q ≡ record {
          context = context;
          boost = boost;
          prefix = prefix;
        }) }
        ensures ok { IfOk result (λ q. IsBoost q.boost) }
        ensures refused { IfErr result (λ e. (e.boost ≡ boost) × (IsBoost boost → ⊥)) }
    {
        if boost < LEAST_BOOST || boost > MOST_BOOST {
            return Err(BoostError { boost });
        }
        Ok(QueryContext {
            context,
            boost,
            prefix,
        })
    }

    pub(crate) fn matches(&self, context: &[u8]) -> bool
        ensures { result ≡ matches context.now self.now }
    {
        let asked = self.context.as_str().as_bytes();
        if self.prefix {
            context.starts_with(asked)
        } else {
            context == asked
        }
    }
}
