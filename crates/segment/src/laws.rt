//! What is true of the definitions.
ghost use Rattle.segment.specs.Example.{TheExample};
ghost use Rattle.segment.specs.Laws.{AcceptedIsWritten, FindsOne, WrittenIsAccepted};

use seg_bytes::{what_is_read_was_written, what_was_written_is_read};

/// The format's example has its 189 bytes, and breaks no rule.
pub fn the_example_is_written()
    ensures { TheExample }
{}

/// Bytes break at most one rule first, and at one offset.
pub fn one_thing_is_found()
    ensures { FindsOne }
{}

/// What was written breaks no rule, and its documents are read back.
pub fn what_was_written_is_accepted()
    ensures { WrittenIsAccepted }
{
    what_was_written_is_read();
}

/// What is accepted is what is written of its documents: no other bytes are.
pub fn what_is_accepted_was_written()
    ensures { AcceptedIsWritten }
{
    what_is_read_was_written();
}
