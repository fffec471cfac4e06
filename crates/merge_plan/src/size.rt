//! What the plan looks at.

/// The size of a current generation that is built.
#[derive(Clone, Copy, Debug)]
pub struct Size {
    pub generation: u32,
    /// How many documents its segment has, deleted ones too.
    pub documents: u32,
    /// How many of them are live.
    pub live: u32,
    /// How many paths they have.
    pub paths: u32,
    /// Whether a merge holds it.
    pub held: bool,
}
