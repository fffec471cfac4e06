//! Why a line has no command.
ghost use Rattle.std.specs.Prelude.{◌≡◌};
ghost use Rattle.wire_json.specs.CommandForms.{kind_of};
ghost use Rattle.wire_json.specs.declared.errors.LineError.TheVariants.{Memory};

use std::alloc::AllocError;
use std::error::Error;
use std::fmt;
use wire_replies::ErrorKind;

/// Why a line has no command: the first error that applies.
#[derive(Clone, Copy, Debug, PartialEq, Eq)]
pub enum LineError {
    Long,
    Json,
    Shape,
    Lane,
    Id,
    Empty,
    Weight,
    Reserved,
    Key,
    Contexts,
    Boost,
    K,
    Memory,
}

impl LineError {
    /// The error that the line is answered; none for want of memory, which isn't the line's.
    pub fn kind(self) -> Option<ErrorKind>
        ensures { result ≡ kind_of self }
    {
        match self {
            LineError::Long => Some(ErrorKind::Long),
            LineError::Json => Some(ErrorKind::Json),
            LineError::Shape => Some(ErrorKind::Shape),
            LineError::Lane => Some(ErrorKind::Lane),
            LineError::Id => Some(ErrorKind::Id),
            LineError::Empty => Some(ErrorKind::Empty),
            LineError::Weight => Some(ErrorKind::Weight),
            LineError::Reserved => Some(ErrorKind::Reserved),
            LineError::Key => Some(ErrorKind::Key),
            LineError::Contexts => Some(ErrorKind::Contexts),
            LineError::Boost => Some(ErrorKind::Boost),
            LineError::K => Some(ErrorKind::K),
            LineError::Memory => None,
        }
    }
}

impl fmt::Display for LineError {
    fn fmt<W: fmt::Write>(&self, f: &mut fmt::Formatter<W>) -> fmt::Result {
        match self.kind() {
            Some(kind) => write!(f, "the line is refused: {kind}"),
            None => write!(f, "out of memory"),
        }
    }
}

impl Error for LineError {}

impl From<AllocError> for LineError {
    ghost from_gives = { λ _ e. e ≡ Memory };

    fn from(_error: AllocError) -> LineError {
        LineError::Memory
    }
}
