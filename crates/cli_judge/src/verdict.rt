// `bench judge`: whether the history on the input has an order at all.
ghost use Rattle.std.specs.Prelude.{◌≡◌, ℕ, ◌<◌, List, Some, IfOk, IfSome, IsOk, string_bytes};
ghost use Rattle.cli_outcome.specs.Hints.{verdict_hint};
ghost use Rattle.cli_outcome.specs.HintedOutcomes.{IsHintedBy, IsHintedOutcome};
ghost use Rattle.events.specs.Operations.{operations};
ghost use Rattle.cli_judge.specs.Answers.{IsHistoryRefusal, IsHintedJudgeAnswer, IsTextOf, answer_of};
ghost use Rattle.history_text.specs.Limits.{text_limit};
ghost use Rattle.judge.specs.Exact.{IsExactVerdict};
ghost use Rattle.judge.specs.Gates.{HoldsForText};
ghost use Rattle.judge.specs.Shown.{IsShown};
ghost use Rattle.cli_outcome.specs.Ends.{change};
ghost use Rattle.cli_judge.specs.Outcomes.{IsJudgeOutcome};
ghost use Rattle.cli_outcome.specs.Outcomes.{OnAnswered};
ghost use Rattle.cli_outcome.specs.Reads.{IsTextRead};
ghost use Rattle.cli_outcome.specs.Runs.{IsRun};
ghost use Rattle.cli_outcome.specs.Statuses.{OnAnswerStatus};

use crate::refusals::refused_text;
use cli_io::{Sink, Source};
use cli_outcome::{
    Answer, CommandOutcome, hinted_no, hinted_undecided, hinted_yes, line_of, overlap_of, run_text,
};
use events::{History, Memory};
use history_text::{MAX_TEXT, read_history};
use judge::{Judge, Verdict, report};
use std::alloc::{AllocError, Global};

/// Reads a history text to the end of the source, or until it is too long, and lets the judge judge
/// it. Returns the exit status.
pub fn run_judge<S: Source, O: Sink, F: Sink, H: Sink, J: Judge>(
    alloc: Global,
    source: &mut S,
    output: &mut O,
    faults: &mut F,
    hints: &mut H,
    judge: &J,
) -> u8
    requires ready { J.ready judge.now }
    requires source { S.failures source.old < u64.MAX }
    requires output { O.failures output.old < u64.MAX }
    requires faults { F.failures faults.old < u64.MAX }
    requires hints { H.failures hints.old < u64.MAX }
    ensures run { IsRun
        (IsJudgeOutcome (J.budget judge.now) (change S.remaining S.failures source.old source.new))
        (change O.written O.failures output.old output.new)
        (change F.written F.failures faults.old faults.new)
        (change H.written H.failures hints.old hints.new) result }
    ensures read { IsTextRead text_limit (change S.remaining S.failures source.old source.new)
        result }
    ensures asked { OnAnswerStatus result
        (IfSome (S.remaining source.old) (HoldsForText (J.was_asked judge.now))) }
{
    let answer = |text: &[u8]|
        requires { J.ready judge.now }
    { judge_outcome(alloc, text, judge) };
    run_text(alloc, source, output, faults, hints, MAX_TEXT, answer)
}

/// Returns the verdict on the history that the text spells, as its report, with its hint if it has
/// one.
pub fn judge_outcome<J: Judge>(alloc: Global, text: &[u8], judge: &J) -> CommandOutcome
    requires { J.ready judge.now }
    ensures outcome { IsHintedOutcome (IsHintedJudgeAnswer (J.budget judge.now)) IsHistoryRefusal
        (Some text.now) result }
    ensures asked { OnAnswered result (HoldsForText (J.was_asked judge.now) text.now) }
{
    match read_history(alloc, text) {
        Ok(history) => {
            let judged = judge.verdict_on(&history);
            hinted_outcome_of(alloc, &history, judged)
        }
        Err(fault) => refused_text(alloc, text, &fault),
    }
}

/// Returns the outcome of a verdict on a history, or that memory ran out.
fn hinted_outcome_of(
    alloc: Global,
    history: &History,
    judged: Result<Verdict, Memory>,
) -> CommandOutcome
    ensures outcome { (budget : ℕ) (text : List ℕ) → IsTextOf text history.now
        → IfOk judged (IsShown history.now.start budget (operations history.now.events))
        → IfOk judged (IsExactVerdict history.now.start budget (operations history.now.events))
        → IsHintedOutcome (IsHintedJudgeAnswer budget) IsHistoryRefusal (Some text) result }
    ensures answered { OnAnswered result (IsOk judged) }
{
    let Ok(verdict) = judged else {
        return CommandOutcome::Memory;
    };
    match report(alloc, &verdict) {
        Ok(report) => outcome_with_hint(alloc, history, &verdict, line_of(report)),
        Err(_) => CommandOutcome::Memory,
    }
}

/// Returns the answer for a verdict on a history, with this line and its hint.
fn outcome_with_hint(
    alloc: Global,
    history: &History,
    verdict: &Verdict,
    line: Result<String, AllocError>,
) -> CommandOutcome
    ensures { (bytes : List ℕ) → IfOk line (λ text. string_bytes text ≡ bytes)
        → IsHintedBy (answer_of verdict.now) bytes
        (verdict_hint (answer_of verdict.now) history.now.events) result }
{
    match verdict {
        Verdict::Yes(_) => hinted_yes(
            alloc,
            line,
            history.calls().len(),
            overlap_of(history.events()),
        ),
        Verdict::No(_) => hinted_no(alloc, line),
        Verdict::Undecided(_) => hinted_undecided(alloc, line),
    }
}

/// Returns the answer that a verdict is.
pub fn answer_of(verdict: &Verdict) -> Answer
    ensures { result ≡ answer_of verdict.now }
{
    match verdict {
        Verdict::Yes(_) => Answer::Yes,
        Verdict::No(_) => Answer::No,
        Verdict::Undecided(_) => Answer::Undecided,
    }
}
