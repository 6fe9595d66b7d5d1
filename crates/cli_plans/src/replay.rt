// `bench replay`: the history that the run of a replay records.
ghost use Rattle.std.specs.Prelude.{◌<◌, Some};
ghost use Rattle.cli_plans.specs.Answers.{IsReplayAnswer, IsReplayRefusal};
ghost use Rattle.history_text.specs.Limits.{text_limit};
ghost use Rattle.cli_outcome.specs.Ends.{change};
ghost use Rattle.cli_plans.specs.Outcomes.{IsReplayOutcome};
ghost use Rattle.cli_outcome.specs.Outcomes.{IsTextOutcome};
ghost use Rattle.cli_outcome.specs.Reads.{IsTextRead};
ghost use Rattle.cli_outcome.specs.Runs.{IsRun};

use crate::drivable::history_outcome;
use crate::faults::replay_fault_outcome;
use cli_io::{Sink, Source};
use cli_outcome::{CommandOutcome, run_text};
use history_text::MAX_TEXT;
use replays::replay_history;
use std::alloc::Global;

/// Reads a replay text to the end of the source, or until it is too long, runs its whole schedule,
/// and writes the text of the history. Returns the exit status.
pub fn run_replay<S: Source, O: Sink, F: Sink, H: Sink>(
    alloc: Global,
    source: &mut S,
    output: &mut O,
    faults: &mut F,
    hints: &mut H,
) -> u8
    requires source { S.failures source.old < u64.MAX }
    requires output { O.failures output.old < u64.MAX }
    requires faults { F.failures faults.old < u64.MAX }
    requires hints { H.failures hints.old < u64.MAX }
    ensures run { IsRun
        (IsReplayOutcome (change S.remaining S.failures source.old source.new))
        (change O.written O.failures output.old output.new)
        (change F.written F.failures faults.old faults.new)
        (change H.written H.failures hints.old hints.new) result }
    ensures read { IsTextRead text_limit (change S.remaining S.failures source.old source.new) result }
{
    let answer = |text: &[u8]| replay_outcome(alloc, text);
    run_text(alloc, source, output, faults, hints, MAX_TEXT, answer)
}

/// The text of the history that the run of the replay records, or why there is none.
pub fn replay_outcome(alloc: Global, text: &[u8]) -> CommandOutcome
    ensures { IsTextOutcome IsReplayAnswer IsReplayRefusal (Some text.now) result }
{
    match replay_history(alloc, text) {
        Ok(history) => history_outcome(alloc, &history),
        Err(fault) => replay_fault_outcome(alloc, &fault),
    }
}
