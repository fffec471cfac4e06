//! The start nodes of a query.
ghost use Rattle.std.specs.Prelude.{◌≡◌, ◌+◌, ◌≤◌, [], MatchOption};
ghost use Rattle.sg_context.specs.Boosts.{boost_of};
ghost use Rattle.fst_code.specs.Lists.{list_of};
ghost use Rattle.fst_code.specs.Bytes.{nodes_of};
ghost use Rattle.fst_walk.specs.Starts.{AllHaveContexts, start_contexts, most_steps};
ghost use Rattle.fst_walk.specs.StartsLeft.{IsStart};

use crate::seeking::root_spot;
use crate::spot::Spot;
use crate::taking::next_spot;
use crate::walk::Walk;
use fst_code::Transducer;
use sg_base::Steps;
use sg_context::{Boost, Query, boost_of};
use std::marker::{Model, PhantomData};

/// A start node: a context that matches, under which a key begins with the prefix.
#[derive(Clone, Copy, Debug)]
pub struct Start {
    /// The cursor under the context, the byte that ends it, and the prefix.
    pub spot: Spot,
    /// The greatest boost of the query contexts that match.
    pub boost: Boost,
    /// Its place among the query's starts, from 0, in ascending order of contexts.
    pub number: u32,
    /// How many bytes the context has.
    pub context: u8,
}

/// The start nodes of a query in the ascending order of their contexts, bytewise. It has about 1 KB
/// and takes no memory. One exact context costs the nodes of its bytes, its end and the prefix, and
/// nothing else. The next of several query contexts is found by comparing all of them.
#[derive(Drop)]
pub struct Starts<'a, L> {
    transducer: &'a Transducer,
    query: &'a Query,
    root: Option<Spot>,
    walk: Walk,
    given: u32,
    of: PhantomData<L>,
}

impl<'a, L> Model for Starts<'a, L> {
    ghost use Rattle.std.specs.Prelude.{◌≡◌, ◌+◌, ◌≤◌, [], MatchOption, length};
    ghost use Rattle.fst_code.specs.Bytes.{nodes_of};
    ghost use Rattle.fst_code.specs.Lists.{list_of};
    ghost use Rattle.fst_code.specs.Transducers.{IsTransducer};
    ghost use Rattle.fst_walk.specs.Spots.{IsSpot};
    ghost use Rattle.fst_walk.specs.Starts.{AllHaveContexts};
    ghost use Rattle.fst_walk.specs.Walks.{Ready, left_of, budget_of};
    ghost use Rattle.fst_walk.specs.StartsLeft.{StartsLeft};

    ghost Value = { StartsLeft };

    ghost view = { λ s. record {
      nodes = nodes_of s.transducer.now;
      query = s.query.now;
      contexts = left_of (nodes_of s.transducer.now) s.query.now s.walk;
      given = s.given;
      budget = budget_of (nodes_of s.transducer.now) s.query.now s.walk;
    } };

    ghost invariant = { λ s. record {
      sound : IsTransducer (nodes_of s.transducer.now);
      contexts : AllHaveContexts (list_of s.transducer.now);
      root : MatchOption s.root (list_of s.transducer.now ≡ [])
          (IsSpot (nodes_of s.transducer.now) []);
      ready : Ready (nodes_of s.transducer.now) s.query.now s.walk;
      count : s.given + length (left_of (nodes_of s.transducer.now) s.query.now s.walk) ≤ 4194304;
    } };
}

impl<'a, L> Starts<'a, L> {
    /// Before the first start. Each path begins with a context and the byte that ends it.
    pub fn new(t: &'a Transducer, query: &'a Query) -> Starts<'a, L>
        requires { AllHaveContexts (list_of t.now) }
        ensures nodes { result.nodes ≡ nodes_of t.entry.now }
        ensures query { result.query ≡ query.entry.now }
        ensures contexts { result.contexts ≡ start_contexts (list_of t.entry.now) query.entry.now }
        ensures given { result.given ≡ 0 }
        ensures budget { result.budget ≡ most_steps (list_of t.entry.now) query.entry.now }
    {
        Starts {
            transducer: t,
            query,
            root: root_spot(t),
            walk: Walk::new(),
            given: 0,
            of: PhantomData,
        }
    }

    /// The next start, and None after the last. Takes no more steps than it takes off the budget.
    pub fn next(&mut self, steps: &mut Steps<L>) -> Option<Start>
        ensures nodes { self.new.nodes ≡ self.old.nodes }
        ensures query { self.new.query ≡ self.old.query }
        ensures start { MatchOption result
            ((self.old.contexts ≡ []) × (self.new.contexts ≡ [])
            × (self.new.given ≡ self.old.given))
            (IsStart self.old self.new) }
        ensures ticks { steps.new + self.new.budget ≤ steps.old + self.old.budget }
    {
        let Some(root) = self.root else {
            return None;
        };
        let query: &Query = self.query;
        let Some(spot) = next_spot(self.transducer, root, query, &mut self.walk, steps) else {
            return None;
        };
        let context = &self.walk.at[..self.walk.len];
        let Some(boost) = boost_of(query.contexts.items(), context) else {
            unreachable!()
        };
        let number = self.given;
        self.given += 1;
        Some(Start {
            spot,
            boost,
            number,
            context: self.walk.len as u8,
        })
    }
}
