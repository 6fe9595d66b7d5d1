// Where a run reads its text, and where it writes its outcome.
ghost use Rattle.std.specs.Prelude.{◌≡◌, ◌<◌, ◌+◌, IfErr, IfOk, IfSome, OnOk, take};
ghost use Rattle.std.specs.Fn.{FnReturnsAt};
ghost use Rattle.cli_outcome.specs.Ends.{IsSound, Tries, change};
ghost use Rattle.cli_outcome.specs.Outcomes.{IsUnread};
ghost use Rattle.cli_outcome.specs.Reads.{ReadsFirst, ReadsAtMost, IsTextRead};
ghost use Rattle.cli_outcome.specs.Runs.{IsTextRun, Leaves};

use crate::outcome::{CommandOutcome, FAILED, MEMORY, REFUSED, WORDS};
use cli_io::{ReadFault, Sink, Source, read_up_to, write_whole};
use std::alloc::Global;

/// Reads to the end of the source, or until a text is too long: one byte more than `limit`. If that
/// fails, returns the outcome of the run.
pub fn text_from<S: Source>(
    alloc: Global,
    source: &mut S,
    limit: usize,
) -> Result<Vec<u8>, CommandOutcome>
    requires source { S.failures source.old < u64.MAX }
    requires limit { limit < usize.MAX }
    ensures text { IfOk result (λ bytes. IfSome (S.remaining source.old)
        (λ text. bytes.items ≡ take (limit + 1) text)) }
    ensures read { OnOk result (ReadsFirst (limit + 1)
        (change S.remaining S.failures source.old source.new)) }
    ensures most { ReadsAtMost (limit + 1) (change S.remaining S.failures source.old source.new) }
    ensures sound { OnOk result (IsSound (change S.remaining S.failures source.old source.new)) }
    ensures unread { IfErr result
        (IsUnread (change S.remaining S.failures source.old source.new)) }
{
    match read_up_to(alloc, source, limit + 1) {
        Ok(text) => Ok(text),
        Err(ReadFault::Memory) => Err(CommandOutcome::Memory),
        Err(ReadFault::Failed) => Err(CommandOutcome::Failed),
    }
}

/// Reads to the end of the source, or until a text is too long. Makes an outcome of the bytes, and
/// writes it. Returns the exit status.
pub fn run_text<S: Source, O: Sink, F: Sink, H: Sink, M: Fn(&[u8]) -> CommandOutcome>(
    alloc: Global,
    source: &mut S,
    output: &mut O,
    faults: &mut F,
    hints: &mut H,
    limit: usize,
    make: M,
) -> u8
    requires callable { M.IsAlwaysCallable make }
    requires source { S.failures source.old < u64.MAX }
    requires output { O.failures output.old < u64.MAX }
    requires faults { F.failures faults.old < u64.MAX }
    requires hints { H.failures hints.old < u64.MAX }
    requires limit { limit < usize.MAX }
    ensures run { IsTextRun (FnReturnsAt M.Fn make) limit
        (change S.remaining S.failures source.old source.new)
        (change O.written O.failures output.old output.new)
        (change F.written F.failures faults.old faults.new)
        (change H.written H.failures hints.old hints.new) result }
    ensures read { IsTextRead limit (change S.remaining S.failures source.old source.new) result }
{
    match text_from(alloc, source, limit) {
        Ok(text) => write_outcome(output, faults, hints, &make(&text)),
        Err(outcome) => write_outcome(output, faults, hints, &outcome),
    }
}

/// Writes an outcome to the output or to the faults, and returns the exit status. The hint of a
/// refusal follows its line, and a note follows its answer. Both are written to the hints. A failed
/// write to the faults or to the hints changes nothing else.
pub fn write_outcome<O: Sink, F: Sink, H: Sink>(
    output: &mut O,
    faults: &mut F,
    hints: &mut H,
    outcome: &CommandOutcome,
) -> u8
    requires output { O.failures output.old < u64.MAX }
    requires faults { F.failures faults.old < u64.MAX }
    requires hints { H.failures hints.old < u64.MAX }
    ensures { Leaves outcome.now (change O.written O.failures output.old output.new)
        (change F.written F.failures faults.old faults.new)
        (change H.written H.failures hints.old hints.new) result }
{
    match outcome {
        CommandOutcome::Answered { answer, line } => match write_whole(output, line.as_bytes()) {
            Ok(()) => answer.status(),
            Err(_) => tell(faults, b"io\n", FAILED),
        },
        CommandOutcome::Noted { answer, line, note } => {
            if write_whole(output, line.as_bytes()).is_err() {
                return tell(faults, b"io\n", FAILED);
            }
            tell(hints, note.as_bytes(), answer.status())
        }
        CommandOutcome::Refused { line, hint } => {
            tell(faults, line.as_bytes(), REFUSED);
            tell(hints, hint.as_bytes(), REFUSED)
        }
        CommandOutcome::Memory => tell(faults, b"memory\n", MEMORY),
        CommandOutcome::Words(text) => tell(faults, text.as_bytes(), WORDS),
        CommandOutcome::Failed => tell(faults, b"io\n", FAILED),
    }
}

// Tries to write bytes to a sink. Returns the status, also if the sink does not take them.
fn tell<K: Sink>(sink: &mut K, bytes: &[u8], status: u8) -> u8
    requires { K.failures sink.old < u64.MAX }
    ensures told { Tries (change K.written K.failures sink.old sink.new) bytes.now }
    ensures status { result ≡ status }
{
    let _ = write_whole(sink, bytes);
    status
}
