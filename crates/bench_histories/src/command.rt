// Does what the command line asks of a history or of a stream.
ghost use Rattle.std.specs.Prelude.{◌≡◌, ◌<◌};
ghost use Rattle.clap.specs.Walk.{texts};
ghost use Rattle.cli_outcome.specs.Ends.{change};
ghost use Rattle.cli_outcome.specs.Runs.{IsRun};
ghost use Rattle.cli_outcome.specs.Statuses.{words_status};
ghost use Rattle.bench_histories.specs.Outcomes.{IsJudgeWordsOutcome};

use cli_dispatch::{ProgressDisplay, run_line};
use cli_io::{Sink, Source};
use cli_outcome::write_outcome;
use cli_words::asked_line;
use std::alloc::Global;
use std::thread::Threads;

/// Does what the command line asks of a history or of a stream, and returns the exit status. The
/// command line begins with the program's name. If it asks for a plan or a tree, it gets a line
/// that says that there is none here. A terminal shows how far a stream was followed.
pub fn run<R: Threads + Sync, S: Source, O: Sink, F: Sink, H: Sink, P: ProgressDisplay>(
    rt: &R,
    alloc: Global,
    source: &mut S,
    output: &mut O,
    faults: &mut F,
    hints: &mut H,
    words: &[&str],
    progress: &mut P,
) -> u8
    requires source { S.failures source.old < u64.MAX }
    requires output { O.failures output.old < u64.MAX }
    requires faults { F.failures faults.old < u64.MAX }
    requires hints { H.failures hints.old < u64.MAX }

    // The outcome is that of what the command line asks for, or of its fault, or says that it asks
    // for something else.
    ensures run { IsRun
        (IsJudgeWordsOutcome (texts words.entry.now) (change S.remaining S.failures source.old source.new))
        (change O.written O.failures output.old output.new)
        (change F.written F.failures faults.old faults.new)
        (change H.written H.failures hints.old hints.new) result }

    // If the command line has a fault, or asks for something else, nothing is read.
    ensures unread { result ≡ words_status → source.new ≡ source.old }
{
    match asked_line(alloc, words) {
        Ok(line) => run_line(rt, alloc, source, output, faults, hints, line, progress),
        Err(outcome) => write_outcome(output, faults, hints, &outcome),
    }
}
