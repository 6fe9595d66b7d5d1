// Why no line was read.
ghost use Rattle.std.specs.Prelude.{◌≡◌};

use cli_io::Failed;

/// Why no line was read. No bytes are lost.
#[derive(Clone, Copy, Debug, PartialEq, Eq)]
pub enum NoLine {
    /// There are more than `MAX_LINE` bytes before the next line feed.
    TooLong,
    /// A call of the source failed.
    Failed,
}

impl From<Failed> for NoLine {
    ghost use Rattle.stream_text.specs.declared.no_line.NoLine.TheVariants as stops;

    ghost from_gives = { λ _ stop. stop ≡ stops.Failed };

    fn from(_failed: Failed) -> NoLine {
        NoLine::Failed
    }
}
