// Writers of the standard library as sinks.
ghost use Rattle.std.specs.Prelude.{◌≡◌, ◌≤◌, ◌<◌, length, take, IfOk, OnErr};
ghost use Rattle.std.specs.Io.KnownBytes.{Appends, Keeps};

use crate::{Failed, Sink};
use std::io::{ErrorKind, Stderr, Stdout, Write};

/// A writer of the standard library as a sink.
#[derive(Drop)]
pub struct WriterSink<W> {
    writer: W,
    failures: u64,
}

/// The standard output of the process. No contract knows its bytes.
pub type StandardOutput = WriterSink<Stdout>;

/// The standard error of the process. No contract knows its bytes.
pub type StandardError = WriterSink<Stderr>;

impl<W: Write> WriterSink<W> {
    /// Returns the sink of a writer, before any call has failed.
    pub fn new(writer: W) -> Self
        ensures written { ⟦<WriterSink<W> as Sink>⟧.written result ≡ W.contents writer }
        ensures failures { ⟦<WriterSink<W> as Sink>⟧.failures result ≡ 0 }
    {
        WriterSink {
            writer,
            failures: 0,
        }
    }

    /// Returns how many calls have failed.
    pub fn failures(&self) -> u64
        ensures { result ≡ ⟦<WriterSink<W> as Sink>⟧.failures self.now }
    {
        self.failures
    }
}

impl<W: Write> Sink for WriterSink<W> {
    ghost written = { λ sink. W.contents sink.writer };

    ghost failures = { λ sink. sink.failures };

    /// Writes some bytes. A write that a signal interrupts is tried again, and is not a failure. A
    /// write that takes none of several bytes is a failure.
    fn write(&mut self, bytes: &[u8]) -> Result<usize, Failed> {
        let result = write_uninterrupted(&mut self.writer, bytes);
        if result.is_err() {
            self.failures += 1;
        }
        result
    }
}

fn write_uninterrupted<W: Write>(writer: &mut W, bytes: &[u8]) -> Result<usize, Failed>
    ensures within { IfOk result (λ count. count ≤ length bytes.now) }
    ensures progress { 0 < length bytes.now → IfOk result (λ count. 1 ≤ count) }
    ensures appended { IfOk result (λ count.
        Appends (W.contents writer.old) (W.contents writer.new) (take count bytes.now)) }
    ensures unwritten { OnErr result (Keeps (W.contents writer.old) (W.contents writer.new)) }
{
    for _ in 0..u64::MAX {
        match writer.write(bytes) {
            Ok(0) if !bytes.is_empty() => return Err(Failed),
            Ok(count) => return Ok(count),
            Err(error) => {
                if error.kind() != ErrorKind::Interrupted {
                    return Err(Failed);
                }
            }
        }
    }
    Err(Failed)
}
