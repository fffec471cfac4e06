//! Why bytes are no transducer's.
use std::error::Error;
use std::fmt;

/// Why bytes aren't taken over.
#[derive(Clone, Copy, Debug, PartialEq, Eq)]
pub enum CodeError {
    /// The first rule that is broken, and its offset.
    Bad { rule: u8, at: u64 },
    Memory,
}

impl fmt::Display for CodeError {
    fn fmt<W: fmt::Write>(&self, f: &mut fmt::Formatter<W>) -> fmt::Result {
        match self {
            CodeError::Bad { rule, at } => { write!(f, "the bytes break rule {rule} at {at}") }
            CodeError::Memory => write!(f, "out of memory"),
        }
    }
}

impl Error for CodeError {}
