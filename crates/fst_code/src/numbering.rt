//! The order in which a walk leaves the nodes.
ghost use Rattle.std.specs.Prelude.{◌≡◌, ◌<◌, ◌-◌, [], drop, length, get_or, IfOk, IfSome, None};
ghost use Rattle.fst_code.specs.Bytes.{first_form, nodes_of};
ghost use Rattle.fst_code.specs.Rules.{postorder, rule_6, rule_12, IsFramed};
ghost use Rattle.fst_code.specs.Numbering.{first_target, IsPlaced};

use crate::layout::{ENTRY, HEADER, NODE_COUNT};
use crate::numbers::number_at;
use crate::transducer::node_in;
use std::alloc::{AllocError, Global};

/// The target of a node's arc, if there is one.
fn target_in(bytes: &[u8], count: u32, id: u32, at: usize) -> Option<u32>
    requires framed { IsFramed bytes.now }
    requires count { count ≡ length (nodes_of bytes.now) }
    ensures value { result ≡ first_target (drop at (get_or (nodes_of bytes.now) id [])) }
    ensures place { IfSome result (λ t. at < 18446744073709551615) }
{
    if id >= count {
        return None;
    }
    let node = node_in(bytes, id);
    if at >= node.count() {
        return None;
    }
    Some(node.arc(at).target.0)
}

/// The entry of the first node that a walk from the root doesn't leave in its turn.
pub(crate) fn misnumbered_node(alloc: Global, bytes: &[u8]) -> Result<Option<usize>, AllocError>
    requires framed { IsFramed bytes.now }
    requires below { rule_6 first_form (nodes_of bytes.now) ≡ None }
    ensures { IfOk result (λ at. at ≡ rule_12 (nodes_of bytes.now)) }
{
    let count = number_at(bytes, NODE_COUNT);
    if count == 0 {
        return Ok(None);
    }
    let next = count_in_order(alloc, bytes, count)?;
    Ok(if next < count as u64 {
        Some(HEADER + ENTRY * next as usize)
    } else {
        None
    })
}

/// How many nodes the walk leaves in their turn.
fn count_in_order(alloc: Global, bytes: &[u8], count: u32) -> Result<u64, AllocError>
    requires framed { IsFramed bytes.now }
    requires count { count ≡ length (nodes_of bytes.now) }
    requires some { 0 < count }
    requires below { rule_6 first_form (nodes_of bytes.now) ≡ None }
    ensures { IfOk result (λ next. IsPlaced next (postorder count (nodes_of bytes.now) (count - 1) [])) }
{
    let mut outer: Vec<(u32, usize)> = Vec::new(alloc);
    let mut id = count - 1;
    let mut at: usize = 0;
    let mut next: u64 = 0;
    loop {
        match target_in(bytes, count, id, at) {
            None => {
                if id as u64 != next {
                    return Ok(next);
                }
                next += 1;
                match outer.pop() {
                    None => return Ok(next),
                    Some((above, place)) => {
                        id = above;
                        at = place;
                    }
                }
            }
            Some(target) => {
                at += 1;
                if target as u64 >= next {
                    outer.push((id, at))?;
                    id = target;
                    at = 0;
                }
            }
        }
    }
}
