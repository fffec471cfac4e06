//! The boost of a context.
ghost use Rattle.std.specs.Prelude.{◌≡◌, ◌≢◌, ◌↔◌, false, [], max, All, IsNone};
ghost use Rattle.std.specs.Prelude.{IfSome};
ghost use Rattle.std.specs.List.{reduce};
ghost use Rattle.sg_context.specs.Boosts.{IsBoost, IsGreatest, matches, matching_boosts, boosts};
ghost use Rattle.sg_context.specs.Boosts.{boost_of};

use crate::limits::{Boost, DEFAULT_BOOST};
use crate::query_context::QueryContext;

fn greatest_matching_boost(asked: &[QueryContext], context: &[u8]) -> Option<Boost>
    ensures value { result ≡ reduce max (matching_boosts asked.now context.now) }
    ensures limits { IfSome result IsBoost }
{
    asked
        .iter()
        .filter(|q| q.matches(context))
        .map(|q| q.boost)
        .max()
}

/// The greatest boost of those that match a context, and `DEFAULT_BOOST` where none is asked for.
/// Takes no memory, and time by the bytes of the list.
pub fn boost_of(asked: &[QueryContext], context: &[u8]) -> Option<Boost>
    ensures value { result ≡ boost_of asked.now context.now }
    ensures greatest { IfSome result (IsGreatest (boosts asked.now context.now)) }
    ensures none { IsNone result
        ↔ ((asked.now ≢ []) × All (λ q. matches context.now q ≡ false) asked.now) }
    ensures limits { IfSome result IsBoost }
{
    if asked.is_empty() {
        return Some(DEFAULT_BOOST);
    }
    greatest_matching_boost(asked, context)
}
