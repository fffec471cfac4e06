//! The errors that lines are answered.
ghost use Rattle.std.specs.Prelude.{◌≡◌};
ghost use Rattle.wire_replies.specs.Replies.{error_name};

use std::fmt;

/// Why a line is refused, in the order in which it is tested.
#[derive(Clone, Copy, Debug, PartialEq, Eq)]
pub enum ErrorKind {
    /// More than 65,536 bytes.
    Long,
    /// No JSON value in UTF-8.
    Json,
    /// None of the forms of a command.
    Shape,
    /// A worker that there isn't, or that is no whole number.
    Lane,
    /// An id that hasn't 1 to 255 bytes.
    Id,
    /// An input without a token.
    Empty,
    /// A weight over the greatest, or that is neither a whole number nor a text of 1 to 20 digits.
    Weight,
    /// A byte in a key or a context that structures paths.
    Reserved,
    /// A text of more than 1,024 bytes, or a key of more than 255.
    Key,
    /// Too many contexts, one that is too long or of a wrong kind, or a prefix flag that is neither
    /// true nor false.
    Contexts,
    /// A boost out of range, or that is no whole number.
    Boost,
    /// A number of rows out of range, or that is no whole number.
    K,
    /// A name of a view that isn't open, or of one that is.
    View,
    /// An operation beyond the greatest number of them.
    Full,
    /// A view beyond the greatest number of those that are open.
    Views,
}

impl ErrorKind {
    /// The error's name in a reply.
    pub fn name(self) -> &'static str
        ensures { result.now ≡ error_name self }
    {
        match self {
            ErrorKind::Long => "long",
            ErrorKind::Json => "json",
            ErrorKind::Shape => "shape",
            ErrorKind::Lane => "lane",
            ErrorKind::Id => "id",
            ErrorKind::Empty => "empty",
            ErrorKind::Weight => "weight",
            ErrorKind::Reserved => "reserved",
            ErrorKind::Key => "key",
            ErrorKind::Contexts => "contexts",
            ErrorKind::Boost => "boost",
            ErrorKind::K => "k",
            ErrorKind::View => "view",
            ErrorKind::Full => "full",
            ErrorKind::Views => "views",
        }
    }
}

impl fmt::Display for ErrorKind {
    fn fmt<W: fmt::Write>(&self, f: &mut fmt::Formatter<W>) -> fmt::Result {
        f.write_str(self.name())
    }
}
