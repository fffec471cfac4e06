//! The rules that look at one node at a time: labels, targets and free arcs.
ghost use Rattle.std.specs.Prelude.{◌≡◌, ◌<◌, ◌≤◌, ◌+◌, ◌*◌, ◌/◌, length, ◌||◌, ◌==◌};
ghost use Rattle.fst_code.specs.Bytes.{arcs_at, first_form, nodes_of};
ghost use Rattle.fst_code.specs.Rules.{is_free, labels_broken, rule_5, rule_6, rule_9};
ghost use Rattle.fst_code.specs.Rules.{targets_broken};
ghost use Rattle.fst_code.specs.Rules.{IsFramed};
ghost use Rattle.fst_code.specs.Views.{edges_of};

use crate::layout::{ARC, ENTRY, HEADER, NODE_COUNT, TARGET};
use crate::node_ref::NodeRef;
use crate::numbers::number_at;
use crate::transducer::node_in;

/// Where labels first don't rise in a node.
pub(crate) fn unsorted_labels(bytes: &[u8]) -> Option<usize>
    requires { IsFramed bytes.now }
    ensures { result ≡ rule_5 first_form (nodes_of bytes.now) }
{
    let count = number_at(bytes, NODE_COUNT);
    let mut at = HEADER + ENTRY * count as usize;
    for id in 0..count {
        let arcs = node_in(bytes, id).arcs;
        if let Some(found) = unsorted_labels_in(arcs, at) {
            return Some(found);
        }
        at += arcs.len();
    }
    None
}

/// Where labels first don't rise among arcs, the first of which has an offset.
fn unsorted_labels_in(arcs: &[u8], at: usize) -> Option<usize>
    requires { at + length arcs.now < 18446744073709551616 }
    ensures { result ≡ labels_broken first_form at (arcs_at first_form (length arcs.now / 13) 0 arcs.now) }
{
    let count = arcs.len() / ARC;
    for i in 1..count {
        if arcs[ARC * i - ARC] >= arcs[ARC * i] {
            return Some(at + ARC * i);
        }
    }
    None
}

/// Where a target first isn't below its node.
pub(crate) fn forward_target(bytes: &[u8]) -> Option<usize>
    requires { IsFramed bytes.now }
    ensures { result ≡ rule_6 first_form (nodes_of bytes.now) }
{
    let count = number_at(bytes, NODE_COUNT);
    let mut at = HEADER + ENTRY * count as usize;
    for id in 0..count {
        let node = node_in(bytes, id);
        if let Some(found) = forward_target_in(node, id, at) {
            return Some(found);
        }
        at += node.arcs.len();
    }
    None
}

/// Where a target first isn't below a number.
fn forward_target_in(node: NodeRef<'_>, id: u32, at: usize) -> Option<usize>
    requires { at + 13 * length (edges_of node) < 18446744073709551616 }
    ensures { result ≡ targets_broken first_form id at (edges_of node.entry) }
{
    let count = node.count();
    for i in 0..count {
        if node.arc(i).target.0 >= id {
            return Some(at + ARC * i + TARGET);
        }
    }
    None
}

/// The entry of the first node, neither the end nor the root, that has no arc of cost 0.
pub(crate) fn node_without_free_arc(bytes: &[u8]) -> Option<usize>
    requires { IsFramed bytes.now }
    ensures { result ≡ rule_9 first_form (nodes_of bytes.now) }
{
    let count = number_at(bytes, NODE_COUNT);
    for id in 0..count {
        if !may_stand(node_in(bytes, id), id, count) {
            return Some(HEADER + ENTRY * id as usize);
        }
    }
    None
}

/// Whether a node is the end or the root, or has an arc of cost 0.
fn may_stand(node: NodeRef<'_>, id: u32, count: u32) -> bool
    requires { id < count }
    ensures { result ≡ (is_free (edges_of node.entry) || (id == 0) || (id + 1 == count)) }
{
    has_free_arc(node) || id == 0 || id + 1 == count
}

/// Whether some arc costs 0.
fn has_free_arc(node: NodeRef<'_>) -> bool
    ensures { result ≡ is_free (edges_of node.entry) }
{
    let count = node.count();
    for i in 0..count {
        if node.arc(i).cost == 0 {
            return true;
        }
    }
    false
}
