// `bench page`: a page that shows the verdict on the history on standard input.
ghost use Rattle.std.specs.Prelude.{◌≡◌, ◌<◌, ◌≤◌, ℕ, List, Some, option_map};
ghost use Rattle.cli_judge.specs.Answers.{IsHistoryRefusal, IsJudgeAnswer};
ghost use Rattle.history_text.specs.Limits.{text_limit};
ghost use Rattle.cli_outcome.specs.Ends.{change};
ghost use Rattle.cli_outcome.specs.Outcomes.{IsTextOutcome};
ghost use Rattle.cli_outcome.specs.Reads.{IsTextRead};
ghost use Rattle.cli_outcome.specs.Runs.{IsRun};
ghost use Rattle.search.specs.Limits.{budget_limit};
ghost use Rattle.cli_explain.specs.LocationAnswers.{IsFoundAnswer};
ghost use Rattle.cli_outcome.specs.declared.outcome.Answer.{Answer};
ghost use Rattle.cli_page.specs.Answers.{IsLocatedText, IsExplainedText, IsOrderedText, IsPageAnswer, printed};
ghost use Rattle.cli_page.specs.Outcomes.{IsPageOutcome};

use cli_explain::{explain_outcome, locate_order_outcome, locate_outcome};
use cli_io::{Sink, Source};
use cli_judge::judge_outcome;
use cli_outcome::{Answer, CommandOutcome, run_text};
use history_text::MAX_TEXT;
use judge::Judge;
use page_html::{PageTexts, page_of};
use std::alloc::Global;
use std::str;

/// Reads a history text to the end of the source, or until it is too long, and judges it. Writes a
/// page that shows the history with what `judge`, `locate` and `explain` print of it, and
/// `locate --order` if that has an order. Returns the exit status of the verdict.
pub fn run_page<S: Source, O: Sink, F: Sink, H: Sink, J: Judge>(
    alloc: Global,
    source: &mut S,
    output: &mut O,
    faults: &mut F,
    hints: &mut H,
    judge: &J,
) -> u8
    requires ready { J.ready judge.now }
    requires source { S.failures source.old < u64.MAX }
    requires output { O.failures output.old < u64.MAX }
    requires faults { F.failures faults.old < u64.MAX }
    requires hints { H.failures hints.old < u64.MAX }
    ensures run { IsRun
        (IsPageOutcome (J.budget judge.now) (change S.remaining S.failures source.old source.new))
        (change O.written O.failures output.old output.new)
        (change F.written F.failures faults.old faults.new)
        (change H.written H.failures hints.old hints.new) result }
    ensures read { IsTextRead text_limit (change S.remaining S.failures source.old source.new)
        result }
{
    let answer = |text: &[u8]|
        requires { J.ready judge.now }
    { page_outcome(alloc, text, judge) };
    run_text(alloc, source, output, faults, hints, MAX_TEXT, answer)
}

/// Returns the page of the history that the text spells. It has what `judge`, `locate` and
/// `explain` print of the text at the judge's budget. It also has what `locate --order` prints, if
/// that has an order.
pub fn page_outcome<J: Judge>(alloc: Global, text: &[u8], judge: &J) -> CommandOutcome
    requires { J.ready judge.now }
    ensures { IsTextOutcome (IsPageAnswer (J.budget judge.now)) IsHistoryRefusal (Some text.now)
        result }
{
    let outcome = judge_outcome(alloc, text, judge);
    if let Some((answer, judged)) = printed(&outcome) {
        let verdict = JudgedText {
            text,
            budget: judge.budget(),
            answer,
            judged,
        };
        return located_page(alloc, verdict);
    }
    outcome
}

/// A text of a history, with the answer to it at a budget and what `judge` prints.
#[derive(Clone, Copy)]
struct JudgedText<'a> {
    text: &'a [u8],
    budget: u32,
    answer: Answer,
    judged: &'a str,
}

/// Returns the page of a text that was judged.
fn located_page(alloc: Global, verdict: JudgedText<'_>) -> CommandOutcome
    requires budget { (1 ≤ verdict.budget) × (verdict.budget ≤ budget_limit) }
    requires judged { IsJudgeAnswer verdict.budget verdict.text.now verdict.answer
        verdict.judged.now }
    ensures { IsTextOutcome (IsPageAnswer verdict.entry.budget) IsHistoryRefusal
        (Some verdict.entry.text.now) result }
{
    let outcome = locate_outcome(alloc, verdict.text, verdict.budget);
    if let Some((_, located)) = printed(&outcome) {
        return explained_page(alloc, verdict, located);
    }
    outcome
}

/// Returns the page of a text that was judged, with what `locate` prints of it.
fn explained_page(alloc: Global, verdict: JudgedText<'_>, located: &str) -> CommandOutcome
    requires budget { (1 ≤ verdict.budget) × (verdict.budget ≤ budget_limit) }
    requires judged { IsJudgeAnswer verdict.budget verdict.text.now verdict.answer
        verdict.judged.now }
    requires located { IsLocatedText verdict.budget verdict.text.now located.now }
    ensures { IsTextOutcome (IsPageAnswer verdict.entry.budget) IsHistoryRefusal
        (Some verdict.entry.text.now) result }
{
    let outcome = explain_outcome(alloc, verdict.text, verdict.budget);
    if let Some((_, explained)) = printed(&outcome) {
        return ordered_page(alloc, verdict, located, explained);
    }
    outcome
}

/// Returns the page of a text that was judged, with what `locate` and `explain` print of it.
fn ordered_page(
    alloc: Global,
    verdict: JudgedText<'_>,
    located: &str,
    explained: &str,
) -> CommandOutcome
    requires budget { (1 ≤ verdict.budget) × (verdict.budget ≤ budget_limit) }
    requires judged { IsJudgeAnswer verdict.budget verdict.text.now verdict.answer
        verdict.judged.now }
    requires located { IsLocatedText verdict.budget verdict.text.now located.now }
    requires explained { IsExplainedText verdict.budget verdict.text.now explained.now }
    ensures { IsTextOutcome (IsPageAnswer verdict.entry.budget) IsHistoryRefusal
        (Some verdict.entry.text.now) result }
{
    let found = locate_order_outcome(alloc, verdict.text, verdict.budget);
    if let Some((_, line)) = printed(&found.outcome) {
        let ordered = shown_order(found.is_found, line);
        return page_with(alloc, verdict, located, explained, ordered);
    }
    found.outcome
}

/// Returns the line of a location, if it has an order, and nothing otherwise.
fn shown_order(is_found: bool, line: &str) -> &str
    ensures { (budget : ℕ) (text : List ℕ) (answer : Answer)
        → IsFoundAnswer budget is_found text answer line.entry.now
        → IsOrderedText budget text result.now }
{
    if is_found { line } else { "" }
}

/// Returns the page of a text that was judged, with what `locate` and `explain` print of it, and
/// what is shown of an order.
fn page_with(
    alloc: Global,
    verdict: JudgedText<'_>,
    located: &str,
    explained: &str,
    ordered: &str,
) -> CommandOutcome
    requires judged { IsJudgeAnswer verdict.budget verdict.text.now verdict.answer
        verdict.judged.now }
    requires located { IsLocatedText verdict.budget verdict.text.now located.now }
    requires explained { IsExplainedText verdict.budget verdict.text.now explained.now }
    requires ordered { IsOrderedText verdict.budget verdict.text.now ordered.now }
    ensures { IsTextOutcome (IsPageAnswer verdict.entry.budget) IsHistoryRefusal
        (Some verdict.entry.text.now) result }
{
    // A text that spells a history is UTF-8.
    let Ok(history) = str::from_utf8(verdict.text) else {
        unreachable!()
    };
    let texts = PageTexts {
        history,
        judged: verdict.judged,
        located,
        explained,
        order: ordered,
    };
    CommandOutcome::from_answer(verdict.answer, page_of(alloc, texts))
}

/// Returns what an outcome prints with its answer, or `None` if it is no answer.
fn printed(outcome: &CommandOutcome) -> Option<(Answer, &str)>
    ensures { option_map (λ p. (p.0, p.1.now)) result ≡ printed outcome.now }
{
    match outcome {
        CommandOutcome::Answered { answer, line } => Some((*answer, line.as_str())),
        CommandOutcome::Noted {
            answer,
            line,
            note: _,
        } => Some((*answer, line.as_str())),
        _ => None,
    }
}
