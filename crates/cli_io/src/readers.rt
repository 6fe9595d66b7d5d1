// Readers of the standard library as sources.
ghost use Rattle.std.specs.Prelude.{◌≡◌, ◌≤◌, ◌<◌, Ok, length, take, IfOk, OnErr};
ghost use Rattle.std.specs.Io.KnownBytes.{Consumes, IsAtEnd, Keeps};

use crate::{Failed, Source};
use std::io::{ErrorKind, Read, Stdin};

/// A reader of the standard library as a source.
#[derive(Drop)]
pub struct ReaderSource<R> {
    reader: R,
    failures: u64,
}

/// The standard input of the process. No contract knows its bytes.
pub type StandardInput = ReaderSource<Stdin>;

impl<R: Read> ReaderSource<R> {
    /// Returns the source of a reader, before any call has failed.
    pub fn new(reader: R) -> Self
        ensures remaining { ⟦<ReaderSource<R> as Source>⟧.remaining result ≡ R.remaining reader }
        ensures failures { ⟦<ReaderSource<R> as Source>⟧.failures result ≡ 0 }
    {
        ReaderSource {
            reader,
            failures: 0,
        }
    }

    /// Returns how many calls have failed.
    pub fn failures(&self) -> u64
        ensures { result ≡ ⟦<ReaderSource<R> as Source>⟧.failures self.now }
    {
        self.failures
    }
}

impl<R: Read> Source for ReaderSource<R> {
    ghost remaining = { λ source. R.remaining source.reader };

    ghost failures = { λ source. source.failures };

    /// Reads some bytes. A read that a signal interrupts is tried again, and is not a failure.
    fn read(&mut self, buffer: &mut [u8]) -> Result<usize, Failed> {
        let result = read_uninterrupted(&mut self.reader, buffer);
        if result.is_err() {
            self.failures += 1;
        }
        result
    }
}

fn read_uninterrupted<R: Read>(reader: &mut R, buffer: &mut [u8]) -> Result<usize, Failed>
    ensures within { IfOk result (λ count. count ≤ length buffer.new) }
    ensures consumed { IfOk result (λ count.
        Consumes (R.remaining reader.old) (R.remaining reader.new) (take count buffer.new)) }
    ensures end { result ≡ Ok 0 → 0 < length buffer.new → IsAtEnd (R.remaining reader.new) }
    ensures unread { OnErr result (Keeps (R.remaining reader.old) (R.remaining reader.new)) }
{
    for _ in 0..u64::MAX {
        match reader.read(buffer) {
            Ok(count) => return Ok(count),
            Err(error) => {
                if error.kind() != ErrorKind::Interrupted {
                    return Err(Failed);
                }
            }
        }
    }
    Err(Failed)
}
