//! How a run ends.
ghost use Rattle.std.specs.Prelude.{◌≡◌, option_map};
ghost use Rattle.sg_shell.specs.Statuses.{code_of, message_of};

/// How a run ends.
#[derive(Clone, Copy, Debug, PartialEq, Eq)]
pub enum Status {
    /// The input was read to its end, and all replies were written.
    Done,
    /// The arguments have no reading. Nothing was read or written.
    Usage,
    /// The source failed. Nothing was written.
    ReadFault,
    /// The sink failed, after a front of the replies.
    WriteFault,
    /// The input has more than 2^30 bytes. Nothing was written.
    TooLong,
    /// Memory ran out, after a front of the replies or before any.
    Memory,
}

impl Status {
    /// The program's exit status.
    pub fn code(self) -> u8
        ensures { result ≡ code_of self }
    {
        match self {
            Status::Done => 0,
            Status::Usage => 2,
            Status::ReadFault => 3,
            Status::WriteFault => 4,
            Status::TooLong => 5,
            Status::Memory => 6,
        }
    }

    /// The line for standard error, without its line feed; none where all went well.
    pub fn message(self) -> Option<&'static str>
        ensures { option_map (λ s. s.now) result ≡ message_of self }
    {
        match self {
            Status::Done => None,
            Status::Usage => Some(
                "usage: suggest run [--lanes N] [--no-separators] | suggest demo N [--lanes N]",
            ),
            Status::ReadFault => Some("read fault"),
            Status::WriteFault => Some("write fault"),
            Status::TooLong => Some("input too long"),
            Status::Memory => Some("no memory"),
        }
    }
}
