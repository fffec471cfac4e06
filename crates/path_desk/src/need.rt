//! What searches need of a desk.

/// The greatest queue size of a segment, the most bytes of a path, and the most rows.
#[derive(Clone, Copy, Debug)]
pub struct Need {
    pub room: u32,
    pub bytes: u32,
    pub k: u32,
}
