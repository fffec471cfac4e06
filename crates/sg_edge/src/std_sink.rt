//! A sink over a writer of std.
ghost use Rattle.std.specs.Prelude.{◌≡◌, ◌≤◌, None, length, IfOk, IsErrOf};
ghost use Rattle.sg_edge.specs.Puts.{PutCause};

use crate::sink::{PutError, Sink};
use std::io::Write;
use std::marker::Model;

/// A sink over a writer of std. It tells no content, and counts as a fault each Err and each Ok
/// of 0 for a piece that isn't empty.
#[derive(Drop)]
pub struct StdSink<W> {
    writer: W,
    faults: u64,
}

impl<W> Model for StdSink<W> {
    ghost use Rattle.sg_edge.specs.StdEnds.{PlainStdSink};

    ghost Value = { PlainStdSink };

    ghost view = { λ s. record { faults = s.faults } };
}

impl<W: Write> StdSink<W> {
    pub fn new(writer: W) -> StdSink<W>
        ensures { result.faults ≡ 0 }
    {
        StdSink { writer, faults: 0 }
    }
}

impl<W: Write> Sink for StdSink<W> {
    ghost given = { λ _. None };

    ghost faults = { λ s. s.faults };

    fn put(&mut self, piece: &[u8]) -> Result<usize, PutError>
        // What every sink says, but for the content.
        ensures within { IfOk result (λ n. n ≤ length piece.now) }
        ensures zero { IfOk result (λ n. n ≡ 0 → length piece.now ≡ 0) }
        ensures cause { PutCause self.old.faults self.new.faults result }

        // The one refusal is a fault.
        ensures memory { IsErrOf result PutError.Memory → ⊥ }
    {
        match self.writer.write(piece) {
            Ok(count) if count > 0 || piece.is_empty() => Ok(count),
            _ => {
                self.faults = self.faults.saturating_add(1);
                Err(PutError::Failed)
            }
        }
    }
}
