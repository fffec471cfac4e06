//! What goes up from the frozen part of the last path.
ghost use Rattle.std.specs.Prelude.{◌≡◌};

use sg_base::{Cost, NodeId};

/// The node that the deepest level's path goes on to, its cheapest path's cost, and how many paths
/// are under it.
#[derive(Clone, Copy, Debug)]
pub struct Carried {
    pub target: NodeId,
    pub cost: Cost,
    pub count: u32,
}

/// The end of a path with its cost.
pub fn at_end(cost: Cost) -> Carried
    ensures { result ≡ record { target = record { 0 = 0 }; cost = cost; count = 1 } }
{
    Carried {
        target: NodeId(0),
        cost,
        count: 1,
    }
}
