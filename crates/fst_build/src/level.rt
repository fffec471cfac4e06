//! A node on the last path that isn't frozen yet.

/// The label by which the last path goes on from the node, how many paths are under its finished
/// arcs, and how many finished arcs it has.
#[derive(Clone, Copy, Debug)]
pub struct Level {
    pub label: u8,
    pub count: u32,
    pub held: u32,
}
