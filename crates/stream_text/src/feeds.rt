// Where a line ends.
ghost use Rattle.std.specs.Prelude.{◌≡◌, ◌<◌, length, take, slice_index, IfSome, IfNone};
ghost use Rattle.stream_text.specs.Cuts.{line_feed, HasNoLineFeed};

/// Returns the place of the first line feed.
pub fn first_line_feed(bytes: &[u8]) -> Option<usize>
    ensures within { IfSome result (λ place. place < length bytes.now) }
    ensures here { IfSome result (λ place. slice_index bytes.now place ≡ line_feed) }
    ensures before { IfSome result (λ place. HasNoLineFeed (take place bytes.now)) }
    ensures none { IfNone result (HasNoLineFeed bytes.now) }
{
    for (place, byte) in bytes.iter().enumerate() {
        if *byte == b'\n' {
            return Some(place);
        }
    }
    None
}
