//! The hash and the equality of arcs, by which equal nodes are found.
ghost use Rattle.std.specs.Prelude.{◌≡◌, ◌<◌, ◌==◌, ◌&&◌};
ghost use Rattle.sg_base.specs.Hashes.{mixed, scaled};

use crate::node::Edge;

fn mix(hash: u64, x: u64) -> u64
    ensures { result ≡ mixed hash x }
{
    hash.wrapping_add(x).wrapping_mul(11400714819323198485)
}

/// Carries the hash of a node on over an arc: its label, its cost and its target.
pub fn mix_arc(hash: u64, arc: Edge) -> u64
    ensures { result ≡ mixed (mixed (mixed hash arc.label) arc.cost) arc.target.0 }
{
    mix(
        mix(mix(hash, arc.label as u64), arc.cost as u64),
        arc.target.0 as u64,
    )
}

/// Whether two arcs have the same label, cost and target.
pub fn same_arc(x: Edge, y: Edge) -> bool
    ensures { result ≡ ((x.label == y.label) && (x.cost == y.cost) && (x.target.0 == y.target.0)) }
{
    x.label == y.label && x.cost == y.cost && x.target.0 == y.target.0
}

/// The bucket of a hash among so many buckets.
pub fn bucket_of(hash: u64, buckets: usize) -> usize
    requires some { 0 < buckets }
    requires few { buckets < 4294967296 }
    ensures value { result ≡ scaled buckets hash }
    ensures below { result < buckets }
{
    (((hash >> 32) * buckets as u64) >> 32) as usize
}
