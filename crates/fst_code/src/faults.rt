//! The first rule that bytes break.
ghost use Rattle.std.specs.Prelude.{◌≡◌, IfOk};
ghost use Rattle.fst_code.specs.Rules.{first_broken};

use crate::arc_rules::{forward_target, node_without_free_arc, unsorted_labels};
use crate::framing::{missing_header, wrong_entry, wrong_length, wrong_name};
use crate::numbering::misnumbered_node;
use crate::path_rules::{costly_node, long_node, wrong_count};
use crate::repeated_nodes::repeated_node;
use std::alloc::{AllocError, Global};

/// The first rule that is broken, and its offset.
pub(crate) fn first_fault(alloc: Global, bytes: &[u8]) -> Result<Option<(u8, usize)>, AllocError>
    ensures { IfOk result (λ fault. fault ≡ first_broken bytes.now) }
{
    if let Some(at) = missing_header(bytes) {
        return Ok(Some((1, at)));
    }
    if let Some(at) = wrong_name(bytes) {
        return Ok(Some((2, at)));
    }
    if let Some(at) = wrong_length(bytes) {
        return Ok(Some((3, at)));
    }
    if let Some(at) = wrong_entry(bytes) {
        return Ok(Some((4, at)));
    }
    if let Some(at) = unsorted_labels(bytes) {
        return Ok(Some((5, at)));
    }
    if let Some(at) = forward_target(bytes) {
        return Ok(Some((6, at)));
    }
    if let Some(at) = wrong_count(alloc, bytes)? {
        return Ok(Some((7, at)));
    }
    if let Some(at) = repeated_node(alloc, bytes)? {
        return Ok(Some((8, at)));
    }
    if let Some(at) = node_without_free_arc(bytes) {
        return Ok(Some((9, at)));
    }
    if let Some(at) = costly_node(alloc, bytes)? {
        return Ok(Some((10, at)));
    }
    if let Some(at) = long_node(alloc, bytes)? {
        return Ok(Some((11, at)));
    }
    if let Some(at) = misnumbered_node(alloc, bytes)? {
        return Ok(Some((12, at)));
    }
    Ok(None)
}
