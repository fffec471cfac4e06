//! Reads an input to its end.
ghost use Rattle.std.specs.Prelude.{◌≡◌, ◌≤◌, ◌<◌, length, IfOk};
ghost use Rattle.sg_shell.specs.Inputs.{ReadEnds};
ghost use Rattle.sg_shell.specs.declared.reading.ReadError.TheVariants.{Fault, Memory};

use sg_edge::{Failed, Source};
use std::alloc::{AllocError, Global};

/// How many bytes an input has at most.
pub(crate) const MOST_INPUT_BYTES: usize = 1 << 30;

/// How many bytes a take is given room for.
pub(crate) const PIECE_BYTES: usize = 65_536;

/// Why an input wasn't read to its end.
#[derive(Clone, Copy, Debug, PartialEq, Eq)]
pub(crate) enum ReadError {
    Fault,
    TooLong,
    Memory,
}

impl From<Failed> for ReadError {
    ghost from_gives = { λ _ e. e ≡ Fault };

    fn from(_: Failed) -> ReadError {
        ReadError::Fault
    }
}

impl From<AllocError> for ReadError {
    ghost from_gives = { λ _ e. e ≡ Memory };

    fn from(_: AllocError) -> ReadError {
        ReadError::Memory
    }
}

// Room for one take.
fn new_piece(alloc: Global) -> Result<Vec<u8>, AllocError>
    ensures { IfOk result (λ piece. length piece.items ≡ PIECE_BYTES) }
{
    vec![in alloc; 0u8; PIECE_BYTES]
}

// Reads an input, a piece at a time.
fn read_by<S: Source>(alloc: Global, source: &mut S, piece: &mut [u8]) -> Result<Vec<u8>, ReadError>
    requires { length piece.old ≡ PIECE_BYTES }
    ensures { ReadEnds S.left S.faults S.ended source.old source.new result }
{
    let mut input: Vec<u8> = Vec::new(alloc);
    loop {
        let count = source.take(piece)?;
        if count == 0 {
            return Ok(input);
        }
        if count > MOST_INPUT_BYTES - input.len() {
            return Err(ReadError::TooLong);
        }
        input.extend_from_slice(&piece[..count])?;
    }
}

/// The bytes of a source, read to its end by takes of 65,536 bytes. After an error what was taken
/// is gone: up to 2^30 bytes, or for `TooLong` up to 65,536 more.
pub(crate) fn read_input<S: Source>(alloc: Global, source: &mut S) -> Result<Vec<u8>, ReadError>
    ensures { ReadEnds S.left S.faults S.ended source.old source.new result }
{
    let mut piece = new_piece(alloc)?;
    read_by(alloc, source, &mut piece)
}
