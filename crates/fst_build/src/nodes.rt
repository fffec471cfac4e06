//! The node that is frozen.
ghost use Rattle.std.specs.Prelude.{◌≡◌, ◌<◌, ◌≤◌, ◌++◌, ◌∷◌, [], length, drop, IfOk, OnOk, OnErr};
ghost use Rattle.fst_build.specs.Building.{IsHeld, least_of, lowered_arc, lowered_node};

use fst_register::Register;
use sg_base::{Cost, Edge, NodeId};
use std::alloc::AllocError;

/// Looks a node up, and adds it where it isn't held.
pub fn hold(register: &mut Register, node: &[Edge]) -> Result<NodeId, AllocError>
    requires { length register.old < 4294967295 }
    ensures ok { IfOk result (λ id. IsHeld register.old register.new id.0 node.now) }
    ensures err { OnErr result (register.new ≡ register.old) }
{
    match register.find(node) {
        Some(id) => Ok(id),
        None => register.add(node),
    }
}

/// The least cost of arcs and a last one.
pub fn least_cost(finished: &[Edge], last: Edge) -> Cost
    ensures { result ≡ least_of (finished.now ++ last ∷ []) }
{
    let mut base = last.cost;
    for edge in finished {
        base = base.min(edge.cost);
    }
    base
}

/// Makes the node of arcs and a last one, the least cost taken out of each.
pub fn make_node(
    node: &mut Vec<Edge>,
    finished: &[Edge],
    last: Edge,
    base: u32,
) -> Result<(), AllocError>
    requires { base ≡ least_of (finished.now ++ last ∷ []) }
    ensures { OnOk result (node.new.items ≡ lowered_node (finished.now ++ last ∷ [])) }
{
    node.clear();
    node.reserve(finished.len() + 1)?;
    for edge in finished {
        node.push_reserved(lower(*edge, base));
    }
    node.push_reserved(lower(last, base));
    Ok(())
}

fn lower(edge: Edge, base: u32) -> Edge
    requires { base ≤ edge.cost }
    ensures { result ≡ lowered_arc base edge }
{
    Edge {
        cost: edge.cost - base,
        ..edge
    }
}

/// The arcs from a place on.
pub fn edges_from(edges: &[Edge], start: usize) -> &[Edge]
    requires { start ≤ length edges.now }
    ensures { result.now ≡ drop start edges.now }
{
    &edges[start..]
}
