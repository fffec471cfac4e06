//! The child by which contexts go on.

use crate::spot::Spot;

/// A node under a label.
#[derive(Clone, Copy)]
pub(crate) struct Child {
    pub label: u8,
    pub spot: Spot,
}
