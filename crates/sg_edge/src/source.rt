//! Where bytes come from.
ghost use Rattle.std.specs.Prelude.{◌≡◌, ◌≤◌, ◌<◌, ℕ, List, Option, Bool};
ghost use Rattle.std.specs.Prelude.{length, take, IfOk, OnErr};
ghost use Rattle.sg_edge.specs.Edge.{in_front, is_end, EndCause, TakeCause};

use std::error::Error;
use std::fmt;

/// A take that failed.
#[derive(Clone, Copy, Debug, PartialEq, Eq)]
pub struct Failed;

impl fmt::Display for Failed {
    fn fmt<W: fmt::Write>(&self, f: &mut fmt::Formatter<W>) -> fmt::Result {
        write!(f, "the source failed")
    }
}

impl Error for Failed {}

/// Gives bytes in order, a piece at a time.
pub trait Source {
    /// The bytes that are left, where they are told.
    ghost left: { Self → Option (List ℕ) };

    /// How many faults it has met.
    ghost faults: { Self → ℕ };

    /// Whether the last take that was given a piece that isn't empty answered Ok of 0.
    ghost ended: { Self → Bool };

    /// Moves the next bytes into the front of a piece, and answers how many.
    fn take(&mut self, into: &mut [u8]) -> Result<usize, Failed>
        // The bytes.
        ensures within { IfOk result (λ n. n ≤ length into.new) }
        ensures ok { IfOk result
            (λ n. left self.old ≡ in_front (take n into.new) (left self.new)) }
        ensures err { OnErr result (left self.new ≡ left self.old) }

        // The end. A piece that is empty tells nothing of it.
        ensures zero { EndCause (left self.new) (length into.new) result }
        ensures ended { 0 < length into.new → ended self.new ≡ is_end result }
        ensures unchanged { length into.new ≡ 0 → ended self.new ≡ ended self.old }

        // The faults.
        ensures cause { TakeCause (faults self.old) (faults self.new) result };
}
