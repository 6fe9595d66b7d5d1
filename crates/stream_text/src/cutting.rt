// A source, cut at its line feeds.
ghost use Rattle.std.specs.Prelude.{◌≡◌, ◌+◌, ◌<◌, IfOk, OnOk, OnErr, IsErrOf};
ghost use Rattle.std.specs.Io.KnownBytes.{prepend_known};
ghost use Rattle.stream_text.specs.Cuts.{Advances, Stays, BeginsTooLong};

use crate::MAX_LINE;
use crate::feeds::first_line_feed;
use crate::line_buffer::LineBuffer;
use crate::no_line::NoLine;
use cli_io::Source;

/// Reads the next line of a source into the buffer, and returns whether there is one. The buffer
/// may already contain the beginning of the line. If reading fails, no bytes are lost, and a later
/// call begins at the same bytes. It takes no memory. The time is linear in the bytes read.
pub fn next_line<S: Source>(buffer: &mut LineBuffer, source: &mut S) -> Result<bool, NoLine>
    requires { S.failures source.old < u64.MAX }
    ensures line { IfOk result (λ found. Advances found
        (prepend_known buffer.old.bytes (S.remaining source.old)) buffer.new.line
        (prepend_known buffer.new.bytes (S.remaining source.new))) }
    ensures stays { OnErr result (Stays
        (prepend_known buffer.old.bytes (S.remaining source.old)) buffer.new.line
        (prepend_known buffer.new.bytes (S.remaining source.new))) }
    ensures too_long { IsErrOf result NoLine.TooLong
        → BeginsTooLong (prepend_known buffer.old.bytes (S.remaining source.old)) }

    // The count of failures rises exactly if the result is that a call failed.
    ensures counted { OnOk result (S.failures source.new ≡ S.failures source.old) }
    ensures unread { IsErrOf result NoLine.TooLong → S.failures source.new ≡ S.failures source.old }
    ensures raised { IsErrOf result NoLine.Failed
        → S.failures source.new ≡ S.failures source.old + 1 }
{
    buffer.forget_line();
    let mut seen = 0;
    loop {
        if let Some(more) = first_line_feed(&buffer.bytes()[seen..]) {
            let length = seen + more;
            if length > MAX_LINE {
                return Err(NoLine::TooLong);
            }
            buffer.split_line(length);
            return Ok(true);
        }
        seen = buffer.bytes().len();
        if seen > MAX_LINE {
            return Err(NoLine::TooLong);
        }
        if buffer.fill(source)? == 0 {
            buffer.split_line(seen);
            return Ok(seen > 0);
        }
    }
}
