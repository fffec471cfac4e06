//! Why an operation isn't accepted, or a view isn't begun.
ghost use Rattle.std.specs.Prelude.{◌≡◌};
ghost use Rattle.index_core.specs.declared.refusal.ViewError.TheVariants.{Memory};

use sg_paths::Op;
use std::alloc::AllocError;
use std::error::Error;
use std::fmt;

/// An operation that isn't accepted, handed back.
#[derive(Debug, Drop)]
pub struct Refused {
    pub op: Op,
    pub why: Why,
}

impl Refused {
    pub(crate) fn out_of_memory(op: Op) -> Refused
        ensures { result ≡ record { op = op; why = Why.Memory } }
    {
        Refused {
            op,
            why: Why::Memory,
        }
    }
}

/// Why an operation isn't accepted.
#[derive(Clone, Copy, Debug, PartialEq, Eq)]
pub enum Why {
    /// 4,194,304 operations are accepted.
    Full { count: u64 },
    Memory,
}

impl fmt::Display for Why {
    fn fmt<W: fmt::Write>(&self, f: &mut fmt::Formatter<W>) -> fmt::Result {
        match self {
            Why::Full { count } => write!(f, "the index is full with {count} operations"),
            Why::Memory => write!(f, "out of memory"),
        }
    }
}

impl Error for Why {}

/// Why a view isn't begun.
#[derive(Clone, Copy, Debug, PartialEq, Eq)]
pub enum ViewError {
    /// 256 views are open.
    TooMany { count: u32 },
    Memory,
}

impl fmt::Display for ViewError {
    fn fmt<W: fmt::Write>(&self, f: &mut fmt::Formatter<W>) -> fmt::Result {
        match self {
            ViewError::TooMany { count } => write!(f, "{count} views are open"),
            ViewError::Memory => write!(f, "out of memory"),
        }
    }
}

impl Error for ViewError {}

impl From<AllocError> for ViewError {
    ghost from_gives = { λ _ e. e ≡ Memory };

    fn from(_: AllocError) -> ViewError {
        ViewError::Memory
    }
}
