// `bench follow` judges a stream of events as it comes.
ghost use Rattle.std.specs.Prelude.{◌≡◌, ℕ, ◌<◌, List, [], ◌∷◌, ◌++◌, length, Option, IfOk, IfErr, OnOk};
ghost use Rattle.std.specs.Io.KnownBytes.{prepend_known};
ghost use Rattle.cli_outcome.specs.Ends.{change};
ghost use Rattle.cli_outcome.specs.Runs.{IsRun};
ghost use Rattle.cli_follow.specs.Followed.{IsFollowed};
ghost use Rattle.cli_follow.specs.Outcomes.{IsFollowOutcome};
ghost use Rattle.cli_follow.specs.Reading.{HasRead};

use crate::followed::Followed;
use crate::progress::ProgressDisplay;
use crate::refusals::{refused_line, refused_many};
use cli_io::{Sink, Source};
use cli_outcome::{CommandOutcome, write_outcome};
use std::alloc::Global;
use stream_text::{LineBuffer, LineFault, NoLine, lines_one_by_one, next_line};

/// The most lines that are read.
pub(crate) const MOST_LINES: u64 = u64::MAX - 1;

/// Reads the lines of a stream one by one, each at most `MAX_LINE` bytes, and judges each answer as
/// it comes. A search reaches at most `budget` configurations. Reading ends at the end of the
/// source, or at the first line that goes wrong. The longest line and the monitor take memory.
/// After each line `progress` shows how many calls there were. Returns the exit status.
pub fn run_follow<S: Source, O: Sink, F: Sink, H: Sink, P: ProgressDisplay>(
    alloc: Global,
    source: &mut S,
    output: &mut O,
    faults: &mut F,
    hints: &mut H,
    budget: u32,
    progress: &mut P,
) -> u8
    requires source { S.failures source.old < u64.MAX }
    requires output { O.failures output.old < u64.MAX }
    requires faults { F.failures faults.old < u64.MAX }
    requires hints { H.failures hints.old < u64.MAX }
    ensures { IsRun
        (IsFollowOutcome budget (change S.remaining S.failures source.old source.new))
        (change O.written O.failures output.old output.new)
        (change F.written F.failures faults.old faults.new)
        (change H.written H.failures hints.old hints.new) result }
{
    let outcome = follow_outcome(alloc, source, budget, progress);
    write_outcome(output, faults, hints, &outcome)
}

/// Returns the outcome of a stream (`run_follow`). Writes nothing.
pub fn follow_outcome<S: Source, P: ProgressDisplay>(
    alloc: Global,
    source: &mut S,
    budget: u32,
    progress: &mut P,
) -> CommandOutcome
    requires { S.failures source.old < u64.MAX }
    ensures { IsFollowOutcome budget (change S.remaining S.failures source.old source.new) result }
{
    let Ok(mut buffer) = LineBuffer::new(alloc) else {
        return CommandOutcome::Memory;
    };
    let Ok(followed) = Followed::new(alloc) else {
        return CommandOutcome::Memory;
    };
    follow_lines(alloc, &mut buffer, source, followed, budget, progress)
}

/// Takes one line after another.
fn follow_lines<S: Source, P: ProgressDisplay>(
    alloc: Global,
    buffer: &mut LineBuffer,
    source: &mut S,
    followed: Followed,
    budget: u32,
    progress: &mut P,
) -> CommandOutcome
    requires few { S.failures source.old < u64.MAX }
    requires empty { buffer.old.bytes ≡ [] }
    requires begins { IsFollowed [] followed }
    ensures { IsFollowOutcome budget (change S.remaining S.failures source.old source.new) result }
{
    let mut followed = followed;
    for before in 0..MOST_LINES {
        match follow_next(alloc, buffer, source, followed, before, budget) {
            Ok(next) => {
                progress.show(next.monitor.calls());
                followed = next;
            }
            Err(outcome) => return outcome,
        }
    }
    refused_many(alloc, u64::MAX)
}

/// Takes the next line. The number of lines before it is `before`.
fn follow_next<S: Source>(
    alloc: Global,
    buffer: &mut LineBuffer,
    source: &mut S,
    followed: Followed,
    before: u64,
    budget: u32,
) -> Result<Followed, CommandOutcome>
    requires few { S.failures source.old < u64.MAX }
    requires before { before < u64.MAX }
    ensures sound { OnOk result (S.failures source.new ≡ S.failures source.old) }
    ensures went { (known : Option (List ℕ)) (read : List (List ℕ)) → length read ≡ before
        → IsFollowed read followed
        → HasRead known read (prepend_known buffer.old.bytes (S.remaining source.old))
        → IfOk result (λ next. (line : List ℕ) × IsFollowed (read ++ line ∷ []) next
        × HasRead known (read ++ line ∷ [])
        (prepend_known buffer.new.bytes (S.remaining source.new))) }
    ensures stopped { (known : Option (List ℕ)) (read : List (List ℕ)) → length read ≡ before
        → IsFollowed read followed
        → HasRead known read (prepend_known buffer.old.bytes (S.remaining source.old))
        → IfErr result (IsFollowOutcome budget (record {
          old = record { bytes = known; failures = S.failures source.old };
          new = record { bytes = S.remaining source.new; failures = S.failures source.new };
        })) }
{
    lines_one_by_one();
    match next_line(buffer, source) {
        Ok(found) => {
            if found {
                followed.take_line(alloc, before, buffer.line(), budget)
            } else {
                Err(followed.finish(alloc))
            }
        }
        Err(NoLine::TooLong) => Err(refused_line(alloc, before + 1, &[], LineFault::TooLong)),
        Err(NoLine::Failed) => Err(CommandOutcome::Failed),
    }
}
