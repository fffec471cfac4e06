//! From one start to the next under a query context with `prefix`.
ghost use Rattle.std.specs.Prelude.{MatchOption};
ghost use Rattle.fst_code.specs.Lists.{list_of};
ghost use Rattle.fst_code.specs.Transducers.{IsTransducer};
ghost use Rattle.fst_code.specs.Bytes.{nodes_of};
ghost use Rattle.fst_walk.specs.Starts.{AllHaveContexts};
ghost use Rattle.fst_walk.specs.Walks.{InGroup, IsPast, IsAtNext};

use crate::spot::Spot;
use crate::stepping::{child_from, start_at};
use crate::walk::Walk;
use fst_code::Transducer;
use sg_base::Steps;
use sg_context::Query;

/// Goes on to the next start, or leaves the group.
pub(crate) fn advance<L>(
    t: &Transducer,
    query: &Query,
    walk: &mut Walk,
    steps: &mut Steps<L>,
) -> Option<Spot>
    requires sound { IsTransducer (nodes_of t.now) }
    requires contexts { AllHaveContexts (list_of t.now) }
    requires group { InGroup (nodes_of t.now) query.now walk.old }
    ensures { MatchOption result
        (IsPast (nodes_of t.now) query.now walk.old walk.new steps.old steps.new)
        (IsAtNext (nodes_of t.now) query.now walk.old walk.new steps.old steps.new) }
{
    let first = walk.top();
    let mut view = t.node(first.node, steps);
    let mut from: u32 = 0;
    loop {
        let top = walk.top();
        match child_from(t, top, view, from) {
            Some(child) => {
                walk.push(child);
                view = t.node(child.spot.node, steps);
                from = 0;
                if let Some(found) = start_at(t, child.spot, view, query.prefix.as_slice(), steps) {
                    return Some(found);
                }
            }
            None => {
                if walk.len == walk.base {
                    walk.leave();
                    return None;
                }
                from = walk.pop() as u32 + 1;
                let above = walk.top();
                view = t.node(above.node, steps);
            }
        }
    }
}
