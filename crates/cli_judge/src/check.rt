// `bench check`: whether the numbers are an order of the history on the input.
ghost use Rattle.std.specs.Prelude.{◌<◌, Some};
ghost use Rattle.cli_judge.specs.Answers.{IsCheckAnswer, IsHistoryRefusal};
ghost use Rattle.cli_outcome.specs.Ends.{change};
ghost use Rattle.cli_judge.specs.Outcomes.{IsCheckOutcome};
ghost use Rattle.history_text.specs.Limits.{text_limit};
ghost use Rattle.cli_outcome.specs.Outcomes.{IsTextOutcome};
ghost use Rattle.cli_outcome.specs.Reads.{IsTextRead};
ghost use Rattle.cli_outcome.specs.Runs.{IsRun};

use crate::refusals::refused_text;
use certificate::check;
use cli_io::{Sink, Source};
use cli_outcome::{Answer, CommandOutcome, run_text};
use history_text::{MAX_TEXT, read_history};
use std::alloc::Global;

/// Reads a history text to the end of the source, or until it is too long, and tests whether the
/// numbers are an order of its calls. Returns the exit status.
pub fn run_check<S: Source, O: Sink, F: Sink, H: Sink>(
    alloc: Global,
    source: &mut S,
    output: &mut O,
    faults: &mut F,
    hints: &mut H,
    order: &[u32],
) -> u8
    requires source { S.failures source.old < u64.MAX }
    requires output { O.failures output.old < u64.MAX }
    requires faults { F.failures faults.old < u64.MAX }
    requires hints { H.failures hints.old < u64.MAX }
    ensures run { IsRun
        (IsCheckOutcome order.now (change S.remaining S.failures source.old source.new))
        (change O.written O.failures output.old output.new)
        (change F.written F.failures faults.old faults.new)
        (change H.written H.failures hints.old hints.new) result }
    ensures read { IsTextRead text_limit (change S.remaining S.failures source.old source.new)
        result }
{
    let answer = |text: &[u8]| check_outcome(alloc, text, order);
    run_text(alloc, source, output, faults, hints, MAX_TEXT, answer)
}

/// Tests whether the numbers are an order of the calls of the history that the text spells: yes, or
/// the first fault.
pub fn check_outcome(alloc: Global, text: &[u8], order: &[u32]) -> CommandOutcome
    ensures { IsTextOutcome (IsCheckAnswer order.now) IsHistoryRefusal (Some text.now) result }
{
    let history = match read_history(alloc, text) {
        Ok(history) => history,
        Err(fault) => return refused_text(alloc, text, &fault),
    };
    match check(alloc, &history, order) {
        Ok(()) => CommandOutcome::from_answer(Answer::Yes, String::from_str(alloc, "ok\n")),
        Err(fault) => CommandOutcome::of_order_fault(alloc, &fault),
    }
}
