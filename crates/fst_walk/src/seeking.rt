//! The cursor under a prefix.
ghost use Rattle.std.specs.Prelude.{◌≡◌, ◌+◌, ◌≤◌, ◌++◌, ◌∷◌, [], false, ℕ, List, length};
ghost use Rattle.std.specs.Prelude.{MatchOption};
ghost use Rattle.fst_code.specs.Transducers.{IsTransducer};
ghost use Rattle.fst_code.specs.Lists.{list_of};
ghost use Rattle.fst_code.specs.Bytes.{nodes_of};
ghost use Rattle.fst_walk.specs.Fronts.{is_front};
ghost use Rattle.fst_walk.specs.Spots.{IsSpot};

use crate::arcs::arc_with;
use crate::spot::Spot;
use fst_code::Transducer;
use sg_base::{Edge, NodeId, Steps};

/// The cursor behind an arc.
pub(crate) fn spot_behind(spot: Spot, edge: Edge) -> Spot
    requires cost { spot.cost + edge.cost ≤ 2147483647 }
    requires ordinal { spot.ordinal + edge.before ≤ 4194304 }
    ensures node { result.node.0 ≡ edge.target.0 }
    ensures cost { result.cost ≡ spot.cost + edge.cost }
    ensures ordinal { result.ordinal ≡ spot.ordinal + edge.before }
{
    Spot {
        node: edge.target,
        cost: spot.cost + edge.cost,
        ordinal: spot.ordinal + edge.before,
    }
}

/// The cursor one label on.
fn enter<L>(t: &Transducer, spot: Spot, label: u8, steps: &mut Steps<L>) -> Option<Spot>
    requires { (bytes : List ℕ) × IsSpot (nodes_of t.now) bytes spot }
    ensures spot { (bytes : List ℕ) → IsSpot (nodes_of t.now) bytes spot → MatchOption result
        (is_front (list_of t.now) (bytes ++ label ∷ []) ≡ false)
        (λ s. IsSpot (nodes_of t.now) (bytes ++ label ∷ []) s) }
    ensures tick { steps.new ≡ steps.old + 1 }
{
    let node = t.node(spot.node, steps);
    match arc_with(node, label) {
        None => None,
        Some(edge) => Some(spot_behind(spot, edge)),
    }
}

/// The cursor some labels on.
pub(crate) fn go<L>(t: &Transducer, from: Spot, bytes: &[u8], steps: &mut Steps<L>) -> Option<Spot>
    requires { (front : List ℕ) × IsSpot (nodes_of t.now) front from }
    ensures spot { (front : List ℕ) → IsSpot (nodes_of t.now) front from → MatchOption result
        (is_front (list_of t.now) (front ++ bytes.now) ≡ false)
        (λ s. IsSpot (nodes_of t.now) (front ++ bytes.now) s) }
    ensures ticks { steps.new ≤ steps.old + length bytes.now }
{
    let mut spot = from;
    for label in bytes {
        match enter(t, spot, *label, steps) {
            None => return None,
            Some(next) => spot = next,
        }
    }
    Some(spot)
}

/// The cursor of no bytes, which is at the root, if there is a path.
pub(crate) fn root_spot(t: &Transducer) -> Option<Spot>
    ensures sound { IsTransducer (nodes_of t.now) }
    ensures root { MatchOption result (list_of t.now ≡ []) (IsSpot (nodes_of t.now) []) }
{
    match t.root() {
        None => None,
        Some(node) => Some(Spot {
            node,
            cost: 0,
            ordinal: 0,
        }),
    }
}

/// The cursor under a prefix, and None where no path begins with it. Takes at most one step a byte,
/// each of which looks for one of at most 256 arcs by halving.
pub fn seek<L>(t: &Transducer, prefix: &[u8], steps: &mut Steps<L>) -> Option<Spot>
    ensures spot { MatchOption result
        (is_front (list_of t.now) prefix.now ≡ false)
        (λ s. IsSpot (nodes_of t.now) prefix.now s) }
    ensures ticks { steps.new ≤ steps.old + length prefix.now }
{
    match root_spot(t) {
        None => None,
        Some(root) => go(t, root, prefix, steps),
    }
}
