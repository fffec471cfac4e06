//! Equal nodes, by chains of their hashes.
ghost use Rattle.std.specs.Prelude.{◌≡◌, ◌<◌, ◌≤◌, ◌+◌, ◌*◌, [], length, get_or, take, IfOk, ◌==◌};
ghost use Rattle.std.specs.Prelude.{◌&&◌};
ghost use Rattle.sg_base.specs.Nodes.{holds_same, same_edges};
ghost use Rattle.fst_code.specs.Bytes.{first_form, nodes_of};
ghost use Rattle.sg_base.specs.Chains.{Chained, bucket_in};
ghost use Rattle.sg_base.specs.Hashes.{bucket, hash_from};
ghost use Rattle.fst_code.specs.Rules.{rule_8, IsFramed};
ghost use Rattle.fst_code.specs.Views.{edges_of};

use crate::layout::{ENTRY, HEADER, NODE_COUNT};
use crate::node_ref::NodeRef;
use crate::numbers::number_at;
use crate::transducer::node_in;
use sg_base::{bucket_of, mix_arc, same_arc};
use std::alloc::{AllocError, Global};

fn hash_of(node: NodeRef<'_>) -> u64
    ensures { result ≡ hash_from 0 (edges_of node.entry) }
{
    let count = node.count();
    let mut hash: u64 = 0;
    for at in 0..count {
        let edge = node.arc(at);
        hash = mix_arc(hash, edge);
    }
    hash
}

fn node_bucket(node: NodeRef<'_>, buckets: usize) -> usize
    requires some { 0 < buckets }
    requires few { buckets < 4294967296 }
    ensures value { result ≡ bucket buckets (edges_of node.entry) }
    ensures below { result < buckets }
{
    bucket_of(hash_of(node), buckets)
}

fn same(a: NodeRef<'_>, b: NodeRef<'_>) -> bool
    ensures { result ≡ same_edges (edges_of a.entry) (edges_of b.entry) }
{
    let count = a.count();
    if count != b.count() {
        return false;
    }
    for at in 0..count {
        let x = a.arc(at);
        let y = b.arc(at);
        if !same_arc(x, y) {
            return false;
        }
    }
    true
}

/// Whether a node equals one of those before it, by the chain of its bucket.
fn is_repeated(bytes: &[u8], heads: &[u32], chain: &[u32], id: u32, bucket: usize) -> bool
    requires framed { IsFramed bytes.now }
    requires there { id < length (nodes_of bytes.now) }
    requires bucket { bucket ≡ bucket_in (length heads.now) (nodes_of bytes.now) id }
    requires below { bucket < length heads.now }
    requires cells { length chain.now ≡ length (nodes_of bytes.now) }
    requires chained { Chained heads.now (λ i. get_or chain.now i 0)
        (bucket_in (length heads.now) (nodes_of bytes.now)) id }
    ensures { result ≡ holds_same (get_or (nodes_of bytes.now) id []) (take id (nodes_of bytes.now)) }
{
    let node = node_in(bytes, id);
    let mut cell = heads[bucket];
    while cell != 0 {
        let other = node_in(bytes, cell - 1);
        if same(other, node) {
            return true;
        }
        cell = chain[cell as usize - 1];
    }
    false
}

/// The entry of the first node that equals an earlier one.
pub(crate) fn repeated_node(alloc: Global, bytes: &[u8]) -> Result<Option<usize>, AllocError>
    requires { IsFramed bytes.now }
    ensures { IfOk result (λ at. at ≡ rule_8 (nodes_of bytes.now)) }
{
    let count = number_at(bytes, NODE_COUNT);
    let buckets = if count < 4294967295 {
        count as usize + 1
    } else {
        4294967295
    };
    let mut heads = vec![in alloc; 0u32; buckets]?;
    let mut chain = vec![in alloc; 0u32; count as usize]?;
    for id in 0..count {
        let bucket = node_bucket(node_in(bytes, id), buckets);
        if is_repeated(bytes, &heads, &chain, id, bucket) {
            return Ok(Some(HEADER + ENTRY * id as usize));
        }
        chain[id as usize] = heads[bucket];
        heads[bucket] = id + 1;
    }
    Ok(None)
}
