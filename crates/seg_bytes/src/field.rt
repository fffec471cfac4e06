//! What was read, with its end.

/// A value that was read, and the offset behind it.
#[derive(Drop)]
pub(crate) struct Field<T> {
    pub(crate) value: T,
    pub(crate) end: usize,
}
