//! Query contexts, one after the other.
ghost use Rattle.std.specs.Prelude.{◌≡◌, [], false, true, MatchOption};
ghost use Rattle.fst_code.specs.Lists.{list_of};
ghost use Rattle.fst_code.specs.Transducers.{IsTransducer};
ghost use Rattle.fst_code.specs.Bytes.{nodes_of};
ghost use Rattle.fst_walk.specs.Starts.{AllHaveContexts};
ghost use Rattle.fst_walk.specs.Spots.{IsSpot};
ghost use Rattle.fst_walk.specs.Asked.{Closed, IsNextAt};
ghost use Rattle.fst_walk.specs.Walks.{is_within, position_of, Ready};
ghost use Rattle.fst_walk.specs.Walks.{GivesNone, GivesStart, GivesEnd};

use crate::advancing::advance;
use crate::asking::{Asked, next_asked};
use crate::seeking::go;
use crate::spot::Spot;
use crate::stepping::start_at;
use crate::walk::Walk;
use fst_code::Transducer;
use sg_base::Steps;
use sg_context::Query;

/// The start that a query context without `prefix` gives, if it gives one.
pub(crate) fn take_exact<L>(
    t: &Transducer,
    root: Spot,
    query: &Query,
    walk: &mut Walk,
    context: &[u8],
    steps: &mut Steps<L>,
) -> Option<Spot>
    requires sound { IsTransducer (nodes_of t.now) }
    requires contexts { AllHaveContexts (list_of t.now) }
    requires root { IsSpot (nodes_of t.now) [] root }
    requires idle { is_within walk.old.stage ≡ false }
    requires closed { Closed query.now.contexts (position_of walk.old) }
    requires next { IsNextAt query.now.contexts (position_of walk.old) context.now false }
    ensures { MatchOption result
        (GivesNone (nodes_of t.now) query.now walk.old walk.new steps.old steps.new)
        (GivesStart (nodes_of t.now) query.now walk.old walk.new steps.old steps.new) }
{
    walk.place(context);
    match go(t, root, context, steps) {
        None => {
            walk.leave();
            None
        }
        Some(spot) => {
            let view = t.node(spot.node, steps);
            start_at(t, spot, view, query.prefix.as_slice(), steps)
        }
    }
}

/// The first start that a query context with `prefix` gives, if it gives one.
pub(crate) fn take_prefix<L>(
    t: &Transducer,
    root: Spot,
    query: &Query,
    walk: &mut Walk,
    context: &[u8],
    steps: &mut Steps<L>,
) -> Option<Spot>
    requires sound { IsTransducer (nodes_of t.now) }
    requires contexts { AllHaveContexts (list_of t.now) }
    requires root { IsSpot (nodes_of t.now) [] root }
    requires idle { is_within walk.old.stage ≡ false }
    requires closed { Closed query.now.contexts (position_of walk.old) }
    requires next { IsNextAt query.now.contexts (position_of walk.old) context.now true }
    ensures { MatchOption result
        (GivesNone (nodes_of t.now) query.now walk.old walk.new steps.old steps.new)
        (GivesStart (nodes_of t.now) query.now walk.old walk.new steps.old steps.new) }
{
    walk.place(context);
    match go(t, root, context, steps) {
        None => {
            walk.leave();
            None
        }
        Some(spot) => {
            let view = t.node(spot.node, steps);
            walk.open(spot);
            match start_at(t, spot, view, query.prefix.as_slice(), steps) {
                Some(found) => Some(found),
                None => advance(t, query, walk, steps),
            }
        }
    }
}

/// The first start that a query context gives, if it gives one.
fn take_up<L>(
    t: &Transducer,
    root: Spot,
    query: &Query,
    walk: &mut Walk,
    asked: Asked<'_>,
    steps: &mut Steps<L>,
) -> Option<Spot>
    requires sound { IsTransducer (nodes_of t.now) }
    requires contexts { AllHaveContexts (list_of t.now) }
    requires root { IsSpot (nodes_of t.now) [] root }
    requires idle { is_within walk.old.stage ≡ false }
    requires closed { Closed query.now.contexts (position_of walk.old) }
    requires next { IsNextAt query.now.contexts (position_of walk.old) asked.context.now
        asked.prefix }
    ensures { MatchOption result
        (GivesNone (nodes_of t.now) query.now walk.old walk.new steps.old steps.new)
        (GivesStart (nodes_of t.now) query.now walk.old walk.new steps.old steps.new) }
{
    if asked.prefix {
        take_prefix(t, root, query, walk, asked.context, steps)
    } else {
        take_exact(t, root, query, walk, asked.context, steps)
    }
}

/// The first start that the query contexts that are left give.
fn take_next<L>(
    t: &Transducer,
    root: Spot,
    query: &Query,
    walk: &mut Walk,
    steps: &mut Steps<L>,
) -> Option<Spot>
    requires sound { IsTransducer (nodes_of t.now) }
    requires contexts { AllHaveContexts (list_of t.now) }
    requires root { IsSpot (nodes_of t.now) [] root }
    requires idle { is_within walk.old.stage ≡ false }
    requires ready { Ready (nodes_of t.now) query.now walk.old }
    ensures { MatchOption result
        (GivesEnd (nodes_of t.now) query.now walk.old walk.new steps.old steps.new)
        (GivesStart (nodes_of t.now) query.now walk.old walk.new steps.old steps.new) }
{
    while let Some(asked) = next_asked(query, walk) {
        if let Some(found) = take_up(t, root, query, walk, asked, steps) {
            return Some(found);
        }
    }
    None
}

/// The next start.
pub(crate) fn next_spot<L>(
    t: &Transducer,
    root: Spot,
    query: &Query,
    walk: &mut Walk,
    steps: &mut Steps<L>,
) -> Option<Spot>
    requires sound { IsTransducer (nodes_of t.now) }
    requires contexts { AllHaveContexts (list_of t.now) }
    requires root { IsSpot (nodes_of t.now) [] root }
    requires ready { Ready (nodes_of t.now) query.now walk.old }
    ensures { MatchOption result
        (GivesEnd (nodes_of t.now) query.now walk.old walk.new steps.old steps.new)
        (GivesStart (nodes_of t.now) query.now walk.old walk.new steps.old steps.new) }
{
    if !walk.is_within() {
        return take_next(t, root, query, walk, steps);
    }
    match advance(t, query, walk, steps) {
        Some(found) => Some(found),
        None => take_next(t, root, query, walk, steps),
    }
}
