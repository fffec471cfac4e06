//! A held generation.

/// A generation that is held, and what holds it.
#[derive(Clone, Copy, Debug)]
pub struct Held {
    pub generation: u32,
    /// Whether it is current.
    pub current: bool,
    /// How many open views and merges hold it.
    pub holders: u32,
}
