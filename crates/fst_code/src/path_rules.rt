//! What is known of nodes, in tables that grow node by node.
ghost use Rattle.std.specs.Prelude.{◌≡◌, ◌<◌, ◌≤◌, ◌+◌, ◌-◌, ◌*◌, ◌==◌, not, length, get_or, IfOk};
ghost use Rattle.std.specs.Prelude.{IfErr, Some, None, max};
ghost use Rattle.fst_code.specs.Bytes.{first_form, nodes_of, path_count};
ghost use Rattle.fst_code.specs.Rules.{broken_if, counts_broken, rule_6, rule_7, rule_10, rule_11};
ghost use Rattle.fst_code.specs.Rules.{IsFramed};
ghost use Rattle.fst_code.specs.Tails.{counted, dearest, longest};
ghost use Rattle.fst_code.specs.Views.{edges_of};

use crate::layout::{
    ARC, BEFORE, ENTRY, HEADER, MOST_COST, MOST_LABELS, MOST_PATHS, NODE_COUNT, PATH_COUNT,
};
use crate::node_ref::NodeRef;
use crate::numbers::number_at;
use crate::transducer::node_in;
use std::alloc::{AllocError, Global};

/// What is known of a node, and 0 of one that isn't in the table.
fn known_of(known: &[u32], id: u32) -> u32
    ensures { result ≡ get_or known.now id 0 }
{
    if (id as usize) < known.len() {
        known[id as usize]
    } else {
        0
    }
}

/// The greatest cost of a way from a node.
fn greatest_cost(node: NodeRef<'_>, known: &[u32]) -> u64
    ensures { result ≡ dearest known.now (edges_of node.entry) }
{
    let count = node.count();
    let mut most: u64 = 0;
    for i in 0..count {
        let edge = node.arc(i);
        most = greater(
            most,
            edge.cost as u64 + known_of(known, edge.target.0) as u64,
        );
    }
    most
}

/// The greatest number of arcs of a way from a node.
fn greatest_length(node: NodeRef<'_>, known: &[u32]) -> u64
    ensures { result ≡ longest known.now (edges_of node.entry) }
{
    let count = node.count();
    let mut most: u64 = 0;
    for i in 0..count {
        let edge = node.arc(i);
        most = greater(most, 1 + known_of(known, edge.target.0) as u64);
    }
    most
}

fn greater(a: u64, b: u64) -> u64
    ensures { result ≡ max a b }
{
    if a < b { b } else { a }
}

/// The entry of the first node from which a way costs over 2^31 - 1.
pub(crate) fn costly_node(alloc: Global, bytes: &[u8]) -> Result<Option<usize>, AllocError>
    requires { IsFramed bytes.now }
    ensures { IfOk result (λ at. at ≡ rule_10 first_form (nodes_of bytes.now)) }
{
    let count = number_at(bytes, NODE_COUNT);
    let mut known: Vec<u32> = Vec::with_capacity(alloc, count as usize)?;
    for id in 0..count {
        let most = greatest_cost(node_in(bytes, id), &known);
        if most > MOST_COST {
            return Ok(Some(HEADER + ENTRY * id as usize));
        }
        known.push(most as u32)?;
    }
    Ok(None)
}

/// The entry of the first node from which a way has over 324 arcs.
pub(crate) fn long_node(alloc: Global, bytes: &[u8]) -> Result<Option<usize>, AllocError>
    requires { IsFramed bytes.now }
    ensures { IfOk result (λ at. at ≡ rule_11 (nodes_of bytes.now)) }
{
    let count = number_at(bytes, NODE_COUNT);
    let mut known: Vec<u32> = Vec::with_capacity(alloc, count as usize)?;
    for id in 0..count {
        let most = greatest_length(node_in(bytes, id), &known);
        if most > MOST_LABELS {
            return Ok(Some(HEADER + ENTRY * id as usize));
        }
        known.push(most as u32)?;
    }
    Ok(None)
}

/// How many paths a node has, and else where an arc first doesn't count those before it.
fn count_paths(node: NodeRef<'_>, known: &[u32], at: usize) -> Result<u64, usize>
    requires { at + 13 * length (edges_of node) < 18446744073709551616 }
    ensures ok { IfOk result (λ paths.
        (None ≡ counts_broken first_form known.now 0 at (edges_of node.entry))
        × (paths ≡ counted known.now (edges_of node.entry))) }
    ensures err { IfErr result (λ found.
        Some found ≡ counts_broken first_form known.now 0 at (edges_of node.entry)) }
{
    let count = node.count();
    let mut sofar: u64 = 0;
    for i in 0..count {
        let edge = node.arc(i);
        if edge.before as u64 != sofar {
            return Err(at + ARC * i + BEFORE);
        }
        sofar = edge.before as u64 + known_of(known, edge.target.0) as u64;
    }
    Ok(if count == 0 { 1 } else { sofar })
}

/// Where paths are first counted wrongly, or are over 2^22, or aren't as many as the header says.
pub(crate) fn wrong_count(alloc: Global, bytes: &[u8]) -> Result<Option<usize>, AllocError>
    requires framed { IsFramed bytes.now }
    requires below { rule_6 first_form (nodes_of bytes.now) ≡ None }
    ensures { IfOk result (λ at. at ≡ rule_7 first_form (path_count bytes.now) (nodes_of bytes.now)) }
{
    let count = number_at(bytes, NODE_COUNT);
    let mut at = HEADER + ENTRY * count as usize;
    let mut known: Vec<u32> = Vec::with_capacity(alloc, count as usize)?;
    for id in 0..count {
        let node = node_in(bytes, id);
        match count_paths(node, &known, at) {
            Err(found) => return Ok(Some(found)),
            Ok(paths) => {
                if paths > MOST_PATHS {
                    return Ok(Some(HEADER + ENTRY * id as usize));
                }
                known.push(paths as u32)?;
                at += node.arcs.len();
            }
        }
    }
    Ok(wrong_header_count(bytes, root_count(&known)))
}

fn root_count(known: &[u32]) -> u32
    ensures { result ≡ get_or known.now (length known.now - 1) 0 }
{
    if known.len() == 0 {
        0
    } else {
        known[known.len() - 1]
    }
}

fn wrong_header_count(bytes: &[u8], paths: u32) -> Option<usize>
    requires { 16 ≤ length bytes.now }
    ensures { result ≡ broken_if (not (path_count bytes.now == paths)) 12 }
{
    if number_at(bytes, PATH_COUNT) == paths {
        None
    } else {
        Some(PATH_COUNT)
    }
}
