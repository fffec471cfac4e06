//! Steps from a node whose view is at hand.
ghost use Rattle.std.specs.Prelude.{◌≡◌, ◌+◌, ◌≤◌, ◌++◌, ◌∷◌, [], false, ℕ, List, length, get_or};
ghost use Rattle.std.specs.Prelude.{MatchOption, cond};
ghost use Rattle.fst_code.specs.Lists.{list_of};
ghost use Rattle.fst_code.specs.Views.{edges_of};
ghost use Rattle.fst_code.specs.Transducers.{IsTransducer};
ghost use Rattle.fst_code.specs.Bytes.{nodes_of};
ghost use Rattle.fst_walk.specs.Fronts.{is_front};
ghost use Rattle.fst_walk.specs.Spots.{IsSpot};
ghost use Rattle.fst_walk.specs.Children.{NoneFrom, IsChild};

use crate::arcs::{arc_from, arc_with};
use crate::children::Child;
use crate::seeking::{go, spot_behind};
use crate::spot::Spot;
use fst_code::{NodeRef, Transducer};
use sg_base::{CONTEXT_END, Steps};

/// The first child from a label on, but for the one that ends a context.
pub(crate) fn child_from(t: &Transducer, spot: Spot, node: NodeRef<'_>, from: u32) -> Option<Child>
    requires sound { IsTransducer (nodes_of t.now) }
    requires view { edges_of node ≡ get_or (nodes_of t.now) spot.node.0 [] }
    requires spot { (at : List ℕ) × IsSpot (nodes_of t.now) at spot }
    ensures { (at : List ℕ) → IsSpot (nodes_of t.now) at spot → MatchOption result
        (NoneFrom (list_of t.now) at from) (IsChild (nodes_of t.now) at from) }
{
    match arc_from(node, from) {
        None => None,
        Some(edge) => Some(Child {
            label: edge.label,
            spot: spot_behind(spot, edge),
        }),
    }
}

/// The cursor under the prefix at a context, if a key begins with it there.
pub(crate) fn start_at<L>(
    t: &Transducer,
    spot: Spot,
    node: NodeRef<'_>,
    prefix: &[u8],
    steps: &mut Steps<L>,
) -> Option<Spot>
    requires sound { IsTransducer (nodes_of t.now) }
    requires view { edges_of node ≡ get_or (nodes_of t.now) spot.node.0 [] }
    requires spot { (at : List ℕ) × IsSpot (nodes_of t.now) at spot }
    ensures spot { (at : List ℕ) → IsSpot (nodes_of t.now) at spot → MatchOption result
        (is_front (list_of t.now) (at ++ CONTEXT_END ∷ prefix.now) ≡ false)
        (λ s. IsSpot (nodes_of t.now) (at ++ CONTEXT_END ∷ prefix.now) s) }
    ensures ticks { (at : List ℕ) → IsSpot (nodes_of t.now) at spot → steps.new ≤ steps.old
        + cond (is_front (list_of t.now) (at ++ CONTEXT_END ∷ [])) (length prefix.now) 0 }
{
    match arc_with(node, CONTEXT_END) {
        None => None,
        Some(edge) => go(t, spot_behind(spot, edge), prefix, steps),
    }
}
