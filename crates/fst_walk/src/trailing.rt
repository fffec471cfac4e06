//! From one path to the next.
ghost use Rattle.std.specs.Prelude.{◌≡◌, ◌+◌, ℕ, length, get_or, true, false};
ghost use Rattle.std.specs.Bool.{MatchBool as ByBool};
ghost use Rattle.fst_code.specs.Lists.{list_of};
ghost use Rattle.fst_code.specs.Transducers.{IsTransducer};
ghost use Rattle.fst_code.specs.Bytes.{nodes_of};
ghost use Rattle.fst_walk.specs.Trails.{IsTrail, IsMoved, IsDown, Stands, IsAtPath, ending};
ghost use Rattle.fst_walk.specs.declared.spot.Spot.{Spot};

use crate::arcs::arc_at_least;
use crate::seeking::spot_behind;
use crate::trail::{Trail, TrailStage};
use fst_code::Transducer;
use sg_base::Steps;

/// Goes down to the end of the first path.
pub(crate) fn descend<L>(t: &Transducer, trail: &mut Trail, steps: &mut Steps<L>)
    requires sound { IsTransducer (nodes_of t.now) }
    requires trail { IsTrail (nodes_of t.now) trail.old }
    ensures { IsDown (nodes_of t.now) trail.old trail.new }
{
    loop {
        let top = trail.top();
        let view = t.node(top.node, steps);
        match arc_at_least(view, 0) {
            None => return,
            Some(edge) => trail.push(edge.label, spot_behind(top, edge)),
        }
    }
}

/// Goes up and to the next arc, if there is one.
pub(crate) fn climb<L>(t: &Transducer, trail: &mut Trail, steps: &mut Steps<L>) -> bool
    requires sound { IsTransducer (nodes_of t.now) }
    requires trail { IsTrail (nodes_of t.now) trail.old }
    ensures bytes { ByBool result (Unit {0}) (trail.new.bytes ≡ trail.old.bytes) }
    ensures moved { ByBool result (IsMoved (nodes_of t.now) trail.old trail.new)
        ((d : Spot) → ending (nodes_of t.now) (get_or trail.old.frames trail.old.len d)
        ≡ length (list_of t.now)) }
{
    while trail.len > 0 {
        let label = trail.pop();
        let top = trail.top();
        let view = t.node(top.node, steps);
        if let Some(edge) = arc_at_least(view, label as u32 + 1) {
            trail.push(edge.label, spot_behind(top, edge));
            return true;
        }
    }
    false
}

/// Goes to a cursor whose first path wasn't given yet, if there is one.
pub(crate) fn move_on<L>(
    t: &Transducer,
    stage: TrailStage,
    trail: &mut Trail,
    steps: &mut Steps<L>,
) -> bool
    requires sound { IsTransducer (nodes_of t.now) }
    requires stands { (given : ℕ) × Stands (nodes_of t.now) stage given trail.old }
    ensures bytes { ByBool result (Unit {0}) (trail.new.bytes ≡ trail.old.bytes) }
    ensures moved { (given : ℕ) → Stands (nodes_of t.now) stage given trail.old → ByBool result
        (IsAtPath (nodes_of t.now) given trail.new) (given ≡ length (list_of t.now)) }
{
    match stage {
        TrailStage::Fresh => true,
        TrailStage::AtPath => climb(t, trail, steps),
        TrailStage::Past => false,
    }
}
