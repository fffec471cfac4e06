//! Who calls the index.

/// The number of the handle through which all calls go. The other is main's, with the number 0.
pub const CALLER: u32 = 1;
