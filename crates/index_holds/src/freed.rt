//! What nothing references any more.

use sg_base::List;

/// The generations that nothing references any more, rising.
#[derive(Debug, Drop)]
pub struct Freed {
    pub gens: List<u32>,
}
