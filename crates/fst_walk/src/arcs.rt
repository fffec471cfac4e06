//! Arcs of a node by their labels.
ghost use Rattle.std.specs.Prelude.{◌≡◌, ◌≤◌, ◌<◌, ◌+◌, ℕ, length, get_or};
ghost use Rattle.std.specs.List.{find};
ghost use Rattle.sg_base.specs.declared.node.Edge.{Edge};
ghost use Rattle.fst_code.specs.Views.{edges_of};
ghost use Rattle.fst_code.specs.Transducers.{Rises};
ghost use Rattle.fst_walk.specs.Arcs.{is_from, is_at_least, has_that_label};

use fst_code::NodeRef;
use sg_base::{CONTEXT_END, Edge};

/// How many arcs have a lesser label.
pub(crate) fn arcs_below(node: NodeRef<'_>, label: u32) -> u32
    requires { Rises (edges_of node) }
    ensures within { result ≤ length (edges_of node.entry) }
    ensures below { (k : ℕ) (d : Edge) → k < result
        → (get_or (edges_of node.entry) k d).label < label }
    ensures from { (k : ℕ) (d : Edge) → result ≤ k → k < length (edges_of node.entry)
        → label ≤ (get_or (edges_of node.entry) k d).label }
{
    let mut low: u32 = 0;
    let mut high: u32 = node.len();
    while low < high {
        let middle = low + (high - low) / 2;
        if (node.edge(middle).label as u32) < label {
            low = middle + 1;
        } else {
            high = middle;
        }
    }
    low
}

/// The arc with a label.
pub(crate) fn arc_with(node: NodeRef<'_>, label: u8) -> Option<Edge>
    requires { Rises (edges_of node) }
    ensures { result ≡ find (has_that_label label) (edges_of node.entry) }
{
    let at = arcs_below(node, label as u32);
    if at == node.len() {
        return None;
    }
    let edge = node.edge(at);
    if edge.label == label {
        Some(edge)
    } else {
        None
    }
}

/// The first arc with at least a label, but for the one that ends a context.
pub(crate) fn arc_from(node: NodeRef<'_>, label: u32) -> Option<Edge>
    requires { Rises (edges_of node) }
    ensures { result ≡ find (is_from label) (edges_of node.entry) }
{
    let at = arcs_below(node, label);
    if at == node.len() {
        return None;
    }
    let edge = node.edge(at);
    if edge.label != CONTEXT_END {
        return Some(edge);
    }
    if at + 1 == node.len() {
        return None;
    }
    Some(node.edge(at + 1))
}

/// The first arc with at least a label.
pub(crate) fn arc_at_least(node: NodeRef<'_>, label: u32) -> Option<Edge>
    requires { Rises (edges_of node) }
    ensures { result ≡ find (is_at_least label) (edges_of node.entry) }
{
    let at = arcs_below(node, label);
    if at == node.len() {
        return None;
    }
    Some(node.edge(at))
}
