//! Where bytes go to.
ghost use Rattle.std.specs.Prelude.{◌≡◌, ◌≤◌, ℕ, List, Option};
ghost use Rattle.std.specs.Prelude.{length, take, IfOk, OnErr};
ghost use Rattle.sg_edge.specs.Edge.{behind};
ghost use Rattle.sg_edge.specs.Puts.{PutCause};
ghost use Rattle.sg_edge.specs.declared.sink.PutError.TheVariants.{Memory};

use std::alloc::AllocError;
use std::error::Error;
use std::fmt;

/// A put that was refused.
#[derive(Clone, Copy, Debug, PartialEq, Eq)]
pub enum PutError {
    Failed,
    Memory,
}

impl fmt::Display for PutError {
    fn fmt<W: fmt::Write>(&self, f: &mut fmt::Formatter<W>) -> fmt::Result {
        match self {
            PutError::Failed => write!(f, "the sink failed"),
            PutError::Memory => write!(f, "out of memory"),
        }
    }
}

impl Error for PutError {}

impl From<AllocError> for PutError {
    ghost from_gives = { λ _ e. e ≡ Memory };

    fn from(_: AllocError) -> PutError {
        PutError::Memory
    }
}

/// Takes bytes in order, a piece at a time.
pub trait Sink {
    /// The bytes that it was given, where they are told.
    ghost given: { Self → Option (List ℕ) };

    /// How many faults it has met.
    ghost faults: { Self → ℕ };

    /// Appends the first bytes of a piece, and answers how many.
    fn put(&mut self, piece: &[u8]) -> Result<usize, PutError>
        // The bytes.
        ensures within { IfOk result (λ n. n ≤ length piece.now) }
        ensures ok { IfOk result
            (λ n. given self.new ≡ behind (take n piece.now) (given self.old)) }
        ensures err { OnErr result (given self.new ≡ given self.old) }

        // An Ok of 0 is for a piece that is empty.
        ensures zero { IfOk result (λ n. n ≡ 0 → length piece.now ≡ 0) }

        // The faults.
        ensures cause { PutCause (faults self.old) (faults self.new) result };
}
