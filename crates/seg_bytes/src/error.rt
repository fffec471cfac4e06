//! Why bytes are no documents.
ghost use Rattle.std.specs.Prelude.{◌≡◌};

use std::alloc::AllocError;
use std::error::Error;
use std::fmt;

/// Why documents aren't read.
#[derive(Clone, Copy, Debug, PartialEq, Eq)]
pub enum ReadError {
    /// The offset where the first field that breaks begins; a length belongs to its field.
    Bad { at: u64 },
    Memory,
}

impl ReadError {
    /// A field that begins at an offset breaks.
    pub(crate) fn bad(at: usize) -> ReadError
        ensures { result ≡ ReadError.Bad at }
    {
        ReadError::Bad { at: at as u64 }
    }
}

impl fmt::Display for ReadError {
    fn fmt<W: fmt::Write>(&self, f: &mut fmt::Formatter<W>) -> fmt::Result {
        match self {
            ReadError::Bad { at } => write!(f, "the documents break at {at}"),
            ReadError::Memory => write!(f, "out of memory"),
        }
    }
}

impl Error for ReadError {}

impl From<AllocError> for ReadError {
    ghost use Rattle.seg_bytes.specs.declared.error.ReadError.TheVariants.{Memory};
    ghost use Rattle.std.specs.Prelude.{◌≡◌};

    ghost from_gives = { λ _ e. e ≡ Memory };

    fn from(_error: AllocError) -> ReadError {
        ReadError::Memory
    }
}
