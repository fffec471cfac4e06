//! Which of a query's contexts comes next.
ghost use Rattle.std.specs.Prelude.{◌≡◌, ◌≤◌, MatchOption, false, true, length, None};
ghost use Rattle.std.specs.Option.{option_copied};
ghost use Rattle.sg_context.specs.Boosts.{PlainQueryContext};
ghost use Rattle.sg_base.specs.ByteStrings.{begins};
ghost use Rattle.sg_base.specs.Lists.{In};
ghost use Rattle.fst_walk.specs.Positions.{is_left, no_end};
ghost use Rattle.sg_base.specs.ByteStrings.{is_less};
ghost use Rattle.fst_walk.specs.Asked.{asked_of, is_left_at, comes_first, sooner, soonest, IsNext};
ghost use Rattle.fst_walk.specs.Walks.{position_of};

use crate::walk::{Stage, Walk};
use sg_context::{Query, QueryContext};

/// A query context as the walk takes it up.
#[derive(Clone, Copy)]
pub(crate) struct Asked<'q> {
    pub context: &'q [u8],
    pub prefix: bool,
}

/// Whether the first stands before the second, bytewise.
fn is_less(first: &[u8], second: &[u8]) -> bool
    ensures { result ≡ is_less first.now second.now }
{
    first.cmp(second).is_lt()
}

/// Whether the context begins with the bytes.
fn begins(bytes: &[u8], context: &[u8]) -> bool
    ensures { result ≡ begins bytes.now context.now }
{
    context.starts_with(bytes)
}

/// Whether a context comes after all that begin with the bytes.
fn is_past(at: &[u8], context: &[u8]) -> bool
    ensures { result ≡ is_left at.now None context.now }
{
    if begins(at, context) {
        return false;
    }
    is_less(at, context)
}

/// Whether a context is left.
pub(crate) fn is_left(walk: &Walk, context: &[u8]) -> bool
    requires { walk.now.len ≤ 63 }
    ensures { result ≡ is_left_at (position_of walk.now) context.now }
{
    let at = &walk.at[..walk.len];
    match walk.stage {
        Stage::Fresh => true,
        Stage::At => is_less(at, context),
        Stage::Within => is_less(at, context),
        Stage::Past => is_past(at, context),
    }
}

/// The bytes of the context that is asked for.
fn context_bytes(asked: &QueryContext) -> &[u8]
    ensures value { result.now ≡ asked.now.context }
    ensures clean { no_end asked.now.context ≡ true }
    ensures fits { length asked.now.context ≤ 63 }
{
    asked.context.as_str().as_bytes()
}

/// Whether one comes before the best so far.
fn comes_first(one: &QueryContext, best: &QueryContext) -> bool
    ensures { result ≡ comes_first one.now best.now }
{
    let first = context_bytes(one);
    let second = context_bytes(best);
    if is_less(first, second) {
        return true;
    }
    first == second && one.prefix
}

/// The one that comes first.
fn sooner<'q>(best: Option<&'q QueryContext>, one: &'q QueryContext) -> &'q QueryContext
    ensures { result.now ≡ sooner (option_copied best.entry) one.entry.now }
{
    match best {
        None => one,
        Some(best) => { if comes_first(one, best) { one } else { best } }
    }
}

/// The first of those that are left.
fn soonest<'q>(asked: &'q [QueryContext], walk: &Walk) -> Option<&'q QueryContext>
    requires { walk.now.len ≤ 63 }
    ensures { option_copied result
        ≡ soonest (is_left_at (position_of walk.now)) asked.entry.now None }
{
    let mut best: Option<&'q QueryContext> = None;
    for one in asked {
        if is_left(walk, context_bytes(one)) {
            best = Some(sooner(best, one));
        }
    }
    best
}

/// The next of a query's contexts that is left.
pub(crate) fn next_asked<'q>(query: &'q Query, walk: &Walk) -> Option<Asked<'q>>
    requires { walk.now.len ≤ 63 }
    ensures { MatchOption result
        ((a : PlainQueryContext) → In a (asked_of query.entry.now.contexts)
        → is_left_at (position_of walk.now) a.context ≡ false)
        (λ r. (b : PlainQueryContext) × IsNext query.entry.now.contexts (position_of walk.now) b
        × (r.context.now ≡ b.context) × (r.prefix ≡ b.prefix)
        × (no_end b.context ≡ true) × (length b.context ≤ 63)) }
{
    let asked = query.contexts.items();
    if asked.is_empty() {
        if is_left(walk, &[]) {
            return Some(Asked {
                context: &[],
                prefix: true,
            });
        }
        return None;
    }
    match soonest(asked, walk) {
        None => None,
        Some(one) => Some(Asked {
            context: context_bytes(one),
            prefix: one.prefix,
        }),
    }
}
