// A sink that may be left out.
ghost use Rattle.std.specs.Prelude.{◌≡◌, option_and_then};
ghost use Rattle.cli_io.specs.Optional.{failures_of};

use crate::{Failed, Sink, StandardError};
use std::io::{IsTerminal, Stderr};

/// Returns standard error if it is a terminal. A person reads what is written there, and never a
/// program.
pub fn terminal_of(error: Stderr) -> Option<StandardError>
    ensures { ⟦<Option<StandardError> as Sink>⟧.failures result ≡ 0 }
{
    if error.is_terminal() {
        Some(StandardError::new(error))
    } else {
        None
    }
}

impl<K: Sink> Sink for Option<K> {
    ghost written = { λ sink. option_and_then K.written sink };

    ghost failures = { λ sink. failures_of K.failures sink };

    /// Writes to the sink. Without a sink it drops the bytes and does not fail.
    fn write(&mut self, bytes: &[u8]) -> Result<usize, Failed> {
        match self {
            Some(sink) => sink.write(bytes),
            None => Ok(bytes.len()),
        }
    }
}
