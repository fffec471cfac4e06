//! Where the parts of a transducer's bytes stand, and the limits of what they hold. Numbers have
//! four bytes, the greatest first.

/// The bytes of the name and the three counts.
pub(crate) const HEADER: usize = 16;

/// Where the header has the number of nodes.
pub(crate) const NODE_COUNT: usize = 4;

/// Where the header has the number of arcs.
pub(crate) const ARC_COUNT: usize = 8;

/// Where the header has the number of paths.
pub(crate) const PATH_COUNT: usize = 12;

/// The bytes of a node's entry: the number of arcs of it and all nodes before it.
pub(crate) const ENTRY: usize = 4;

/// The bytes of an arc: its label, cost, before and target.
pub(crate) const ARC: usize = 13;

/// Where an arc has its cost.
pub(crate) const COST: usize = 1;

/// Where an arc has the number of paths under the earlier arcs of its node.
pub(crate) const BEFORE: usize = 5;

/// Where an arc has its target.
pub(crate) const TARGET: usize = 9;

/// The most arcs that a node has.
pub(crate) const MOST_ARCS: u32 = 256;

/// The most paths that a transducer maps.
pub(crate) const MOST_PATHS: u64 = 4_194_304;

/// The most that a path costs.
pub(crate) const MOST_COST: u64 = 2_147_483_647;

/// The most labels that a path has.
pub(crate) const MOST_LABELS: u64 = 324;
