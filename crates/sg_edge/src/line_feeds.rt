//! Where lines end.
ghost use Rattle.std.specs.Prelude.{◌≡◌, ◌<◌, length, IfSome};
ghost use Rattle.std.specs.List.{position_from};
ghost use Rattle.sg_edge.specs.LineFeeds.{is_line_feed};

/// The offset of the first line feed.
pub fn line_feed_at(bytes: &[u8]) -> Option<usize>
    ensures first { result ≡ position_from is_line_feed 0 bytes.now }
    ensures within { IfSome result (λ at. at < length bytes.now) }
{
    bytes.iter().position(|byte| *byte == b'\n')
}
