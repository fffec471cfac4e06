//! Entries of the queue.

use sg_base::{Cost, NodeId};

/// A node under a start node, with the path to it: it represents all paths that go on from there.
/// Its path bytes after the context stand beside it at the desk.
#[derive(Clone, Copy, Debug)]
pub struct Entry {
    /// The greatest score of a path through it.
    pub score: u64,
    /// The number of the start, in the order of contexts.
    pub start: u32,
    /// The boost of the start's context.
    pub boost: u32,
    pub node: NodeId,
    /// The cost of the path up to the node.
    pub cost: Cost,
    /// How many paths of the segment stand before its first one.
    pub ordinal: u32,
}
