//! The hash and the equality of nodes, by those of their arcs.
ghost use Rattle.std.specs.Prelude.{◌≡◌, ◌<◌};
ghost use Rattle.sg_base.specs.Nodes.{same_edges};
ghost use Rattle.sg_base.specs.Hashes.{bucket, hash_from};

use sg_base::{Edge, bucket_of, mix_arc, same_arc};

fn hash_of(edges: &[Edge]) -> u64
    ensures { result ≡ hash_from 0 edges.now }
{
    let mut hash: u64 = 0;
    for edge in edges {
        hash = mix_arc(hash, *edge);
    }
    hash
}

/// The bucket of a node among so many buckets.
pub fn node_bucket(edges: &[Edge], buckets: usize) -> usize
    requires some { 0 < buckets }
    requires few { buckets < 4294967296 }
    ensures value { result ≡ bucket buckets edges.now }
    ensures below { result < buckets }
{
    bucket_of(hash_of(edges), buckets)
}

/// Whether two nodes have the same labels, costs and targets.
pub fn same(a: &[Edge], b: &[Edge]) -> bool
    ensures { result ≡ same_edges a.now b.now }
{
    if a.len() != b.len() {
        return false;
    }
    for i in 0..a.len() {
        if !same_arc(a[i], b[i]) {
            return false;
        }
    }
    true
}
