//! The lines of an input.
ghost use Rattle.std.specs.Prelude.{◌≡◌, ◌<◌, ◌∷◌, [], IfSome, MatchOption, length};
ghost use Rattle.sg_shell.specs.Lines.{lines_of};

use sg_edge::line_feed_at;

/// A line, without its line feed, and what stands after it.
#[derive(Clone, Copy)]
pub(crate) struct Split<'b> {
    pub line: &'b [u8],
    pub rest: &'b [u8],
}

/// The first line, where there is one. A last line without a line feed counts where it isn't empty.
pub(crate) fn first_line(bytes: &[u8]) -> Option<Split<'_>>
    ensures first { MatchOption result
        (lines_of bytes.entry.now ≡ [])
        (λ s. lines_of bytes.entry.now ≡ s.line.now ∷ lines_of s.rest.now) }
    ensures shorter { IfSome result (λ s. length s.rest.now < length bytes.entry.now) }
{
    if bytes.is_empty() {
        return None;
    }
    match line_feed_at(bytes) {
        Some(at) => Some(Split {
            line: &bytes[..at],
            rest: &bytes[at + 1..],
        }),
        None => Some(Split {
            line: bytes,
            rest: &bytes[bytes.len()..],
        }),
    }
}
