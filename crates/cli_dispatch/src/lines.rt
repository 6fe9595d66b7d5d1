// What a line asks of a history or of a stream, done.
ghost use Rattle.std.specs.Prelude.{◌≡◌, ◌<◌, ◌≤◌};
ghost use Rattle.command_line.specs.Lines.{IsWithinLimits};
ghost use Rattle.cli_outcome.specs.Ends.{change};
ghost use Rattle.cli_outcome.specs.Runs.{IsRun};
ghost use Rattle.cli_outcome.specs.Statuses.{words_status};
ghost use Rattle.pool.specs.Limits.{worker_limit};
ghost use Rattle.search.specs.Limits.{budget_limit};
ghost use Rattle.cli_dispatch.specs.Outcomes.{IsJudgeLineOutcome};

use cli_draw::{View, run_draw};
use cli_explain::{run_explain, run_locate};
use cli_follow::{ProgressDisplay, run_follow};
use cli_io::{Sink, Source};
use cli_judge::{run_check, run_judge};
use cli_outcome::write_outcome;
use cli_page::run_page;
use cli_words::unsupported_outcome;
use command_line::Line;
use events::History;
use judge::{ByCalls, judge};
use pool::OpenGate;
use std::alloc::Global;
use std::thread::Threads;

/// Runs what a line asks of a history or of a stream, and returns the exit status. For a line that
/// asks for a plan or a tree it reports that this program has none. The numbers of the line are
/// within their limits. Nothing stops workers before a segment that they search. `progress` shows
/// how far a stream was followed.
pub fn run_line<R: Threads + Sync, S: Source, O: Sink, F: Sink, H: Sink, P: ProgressDisplay>(
    rt: &R,
    alloc: Global,
    source: &mut S,
    output: &mut O,
    faults: &mut F,
    hints: &mut H,
    line: Line,
    progress: &mut P,
) -> u8
    requires source { S.failures source.old < u64.MAX }
    requires output { O.failures output.old < u64.MAX }
    requires faults { F.failures faults.old < u64.MAX }
    requires hints { H.failures hints.old < u64.MAX }
    requires limits { IsWithinLimits line }

    // What the line asks for comes out so.
    ensures run { IsRun
        (IsJudgeLineOutcome line (change S.remaining S.failures source.old source.new))
        (change O.written O.failures output.old output.new)
        (change F.written F.failures faults.old faults.new)
        (change H.written H.failures hints.old hints.new) result }

    // For a line that has nothing here, nothing is read.
    ensures unread { result ≡ words_status → source.new ≡ source.old }
{
    match line {
        Line::Check { order } => run_check(alloc, source, output, faults, hints, &order),
        Line::Judge { budget, workers } => {
            let judge = ByCalls {
                budget,
                answer: |history: &History|
                    requires budget { (1 ≤ budget) × (budget ≤ budget_limit) }
                    requires workers { (1 ≤ workers) × (workers ≤ worker_limit) }
                { judge(rt, alloc, history, budget, workers, &OpenGate) },
            };
            run_judge(alloc, source, output, faults, hints, &judge)
        }
        Line::Locate { budget, order } => run_locate(
            alloc, source, output, faults, hints, budget, order,
        ),
        Line::Explain { budget } => run_explain(alloc, source, output, faults, hints, budget),
        Line::Draw {
            budget,
            workers,
            around,
            calls,
        } => {
            let judge = ByCalls {
                budget,
                answer: |history: &History|
                    requires budget { (1 ≤ budget) × (budget ≤ budget_limit) }
                    requires workers { (1 ≤ workers) × (workers ≤ worker_limit) }
                { judge(rt, alloc, history, budget, workers, &OpenGate) },
            };
            let view = View { around, calls };
            run_draw(alloc, source, output, faults, hints, &judge, view)
        }
        Line::Page { budget, workers } => {
            let judge = ByCalls {
                budget,
                answer: |history: &History|
                    requires budget { (1 ≤ budget) × (budget ≤ budget_limit) }
                    requires workers { (1 ≤ workers) × (workers ≤ worker_limit) }
                { judge(rt, alloc, history, budget, workers, &OpenGate) },
            };
            run_page(alloc, source, output, faults, hints, &judge)
        }
        Line::Follow { budget } => run_follow(
            alloc, source, output, faults, hints, budget, progress,
        ),
        _ => {
            let outcome = unsupported_outcome(
                alloc,
                "error: this program has no plans and no trees\n",
            );
            write_outcome(output, faults, hints, &outcome)
        }
    }
}
