//! Transducer cursors.

use sg_base::{Cost, NodeId};

/// A transducer cursor: a node as it is met under given bytes.
#[derive(Clone, Copy, Debug)]
pub struct Spot {
    pub node: NodeId,
    /// The sum of the costs up to the node.
    pub cost: Cost,
    /// How many paths stand before those that begin with the bytes.
    pub ordinal: u32,
}
