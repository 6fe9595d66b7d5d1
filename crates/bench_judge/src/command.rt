// Does what the command line asks of a history.
ghost use Rattle.std.specs.Prelude.{◌≡◌, ◌<◌, ◌≤◌};
ghost use Rattle.clap.specs.Walk.{texts};
ghost use Rattle.cli_outcome.specs.Ends.{change};
ghost use Rattle.cli_outcome.specs.Runs.{IsRun};
ghost use Rattle.cli_outcome.specs.Statuses.{words_status};
ghost use Rattle.pool.specs.Limits.{worker_limit};
ghost use Rattle.search.specs.Limits.{budget_limit};
ghost use Rattle.bench_judge.specs.Outcomes.{IsHistoryWordsOutcome};

use cli_io::{Sink, Source};
use cli_judge::{run_check, run_judge};
use cli_outcome::write_outcome;
use cli_words::{asked_line, unsupported_outcome};
use command_line::Line;
use events::History;
use judge::{ByCalls, judge};
use pool::OpenGate;
use std::alloc::Global;
use std::thread::Threads;

/// Does what the command line asks of a history, and returns the exit status. The command line
/// begins with the program's name. If it asks for anything else, it gets a line that says so.
/// Nothing stops workers before a segment that they search.
pub fn run<R: Threads + Sync, S: Source, O: Sink, F: Sink, H: Sink>(
    rt: &R,
    alloc: Global,
    source: &mut S,
    output: &mut O,
    faults: &mut F,
    hints: &mut H,
    words: &[&str],
) -> u8
    requires source { S.failures source.old < u64.MAX }
    requires output { O.failures output.old < u64.MAX }
    requires faults { F.failures faults.old < u64.MAX }
    requires hints { H.failures hints.old < u64.MAX }

    // The outcome is that of what the command line asks for, or of its fault, or says that it asks
    // for something else.
    ensures run { IsRun
        (IsHistoryWordsOutcome (texts words.entry.now) (change S.remaining S.failures source.old source.new))
        (change O.written O.failures output.old output.new)
        (change F.written F.failures faults.old faults.new)
        (change H.written H.failures hints.old hints.new) result }

    // If the command line has a fault, or asks for something else, nothing is read.
    ensures unread { result ≡ words_status → source.new ≡ source.old }
{
    let line = match asked_line(alloc, words) {
        Ok(line) => line,
        Err(outcome) => return write_outcome(output, faults, hints, &outcome),
    };
    match line {
        Line::Check { order } => run_check(alloc, source, output, faults, hints, &order),
        Line::Judge { budget, workers } => {
            let judge = ByCalls {
                budget,
                answer: |history: &History|
                    requires budget { (1 ≤ budget) × (budget ≤ budget_limit) }
                    requires workers { (1 ≤ workers) × (workers ≤ worker_limit) }
                { judge(rt, alloc, history, budget, workers, &OpenGate) },
            };
            run_judge(alloc, source, output, faults, hints, &judge)
        }
        _ => {
            let outcome = unsupported_outcome(
                alloc,
                "error: this program checks and judges alone\n",
            );
            write_outcome(output, faults, hints, &outcome)
        }
    }
}
