// `bench explain`: the verdict on a history. After a no come a few calls that show it, and after an
// undecided where the history goes wrong.
ghost use Rattle.std.specs.Prelude.{◌≡◌, ℕ, ◌<◌, ◌≤◌, List, ◌++◌, Some, IfOk, string_bytes};
ghost use Rattle.serde_json.specs.Written.{compact_text};
ghost use Rattle.events.specs.HistoryView.{HistoryView};
ghost use Rattle.events.specs.Operations.{operations};
ghost use Rattle.cli_judge.specs.Answers.{IsHistoryRefusal, IsTextOf};
ghost use Rattle.history_text.specs.Limits.{text_limit};
ghost use Rattle.judge.specs.Exact.{IsExactVerdict};
ghost use Rattle.judge.specs.Reports.{verdict_data};
ghost use Rattle.judge.specs.Shown.{IsShown};
ghost use Rattle.explain_locate.specs.Evidences.{Refutes};
ghost use Rattle.map_object.specs.MapObject.{IsRising};
ghost use Rattle.orders.specs.Orders.{IsLinearizable};
ghost use Rattle.cli_outcome.specs.Ends.{change};
ghost use Rattle.cli_outcome.specs.Lines.{line};
ghost use Rattle.cli_outcome.specs.Outcomes.{IsTextOutcome};
ghost use Rattle.cli_outcome.specs.Reads.{IsTextRead};
ghost use Rattle.cli_outcome.specs.Runs.{IsRun};
ghost use Rattle.search.specs.Limits.{budget_limit};
ghost use Rattle.orders.specs.SegmentOrders.{HasNoOrder};
ghost use Rattle.cli_explain.specs.Answers.{IsExplainAnswer, IsExplaining, AreDetails, AreFew, AreEvidenceLines, AreLocated, ArePartLines};
ghost use Rattle.cli_explain.specs.Outcomes.{IsExplainOutcome};

use crate::own_parts::from_lines;
use crate::reports::few_lines;
use cli_io::{Sink, Source};
use cli_judge::{answer_of, refused_text};
use cli_outcome::{Answer, CommandOutcome, line_of, run_text};
use events::{History, Memory};
use explain_locate::{Evidence, evidence_of, locate_from, location_line};
use explain_shrink::{Explanation, explain_calls};
use follow_violations::KeyCore;
use history_text::{MAX_TEXT, read_history};
use judge::{Verdict, judge_alone, report};
use map_object::SortedMap;
use orders::Segment;
use std::alloc::Global;

/// Reads a history text to the end of the source, or until it is too long, and explains the verdict
/// on it. One thread finds the verdict. Returns the exit status, which is that of the verdict.
pub fn run_explain<S: Source, O: Sink, F: Sink, H: Sink>(
    alloc: Global,
    source: &mut S,
    output: &mut O,
    faults: &mut F,
    hints: &mut H,
    budget: u32,
) -> u8
    requires budget { (1 ≤ budget) × (budget ≤ budget_limit) }
    requires source { S.failures source.old < u64.MAX }
    requires output { O.failures output.old < u64.MAX }
    requires faults { F.failures faults.old < u64.MAX }
    requires hints { H.failures hints.old < u64.MAX }
    ensures run { IsRun
        (IsExplainOutcome budget (change S.remaining S.failures source.old source.new))
        (change O.written O.failures output.old output.new)
        (change F.written F.failures faults.old faults.new)
        (change H.written H.failures hints.old hints.new) result }
    ensures read { IsTextRead text_limit (change S.remaining S.failures source.old source.new)
        result }
{
    let answer = |text: &[u8]|
        requires { (1 ≤ budget) × (budget ≤ budget_limit) }
    { explain_outcome(alloc, text, budget) };
    run_text(alloc, source, output, faults, hints, MAX_TEXT, answer)
}

/// Returns the report of the verdict on the history that the text spells. After a no come a few
/// calls that show it; after an undecided, where the history goes wrong, if that is found, and a
/// few calls that show that.
pub fn explain_outcome(alloc: Global, text: &[u8], budget: u32) -> CommandOutcome
    requires { (1 ≤ budget) × (budget ≤ budget_limit) }
    ensures { IsTextOutcome (IsExplainAnswer budget) IsHistoryRefusal (Some text.now) result }
{
    match read_history(alloc, text) {
        Ok(history) => outcome_of(explained_with(alloc, &history, budget)),
        Err(fault) => refused_text(alloc, text, &fault),
    }
}

/// Returns the outcome of an explanation, or that memory ran out.
fn outcome_of(explained: Result<(Answer, String), Memory>) -> CommandOutcome
    ensures { (budget : ℕ) (text : List ℕ) (history : HistoryView) → IsTextOf text history
        → IfOk explained (λ said. IsExplaining budget history said.0 (string_bytes said.1))
        → IsTextOutcome (IsExplainAnswer budget) IsHistoryRefusal (Some text) result }
{
    match explained {
        Ok((answer, line)) => CommandOutcome::Answered { answer, line },
        Err(_) => CommandOutcome::Memory,
    }
}

/// Returns the lines that explain the verdict on a history, and the answer for the verdict.
fn explained_with(alloc: Global, history: &History, budget: u32) -> Result<(Answer, String), Memory>
    requires { (1 ≤ budget) × (budget ≤ budget_limit) }
    ensures { IfOk result (λ said. IsExplaining budget history.now said.0 (string_bytes said.1)) }
{
    let verdict = judge_alone(alloc, history, budget)?;
    let lines = verdict_lines(alloc, history, &verdict, budget)?;
    Ok((answer_of(&verdict), lines))
}

/// Returns the report of a verdict, and then what shows it.
fn verdict_lines(
    alloc: Global,
    history: &History,
    verdict: &Verdict,
    budget: u32,
) -> Result<String, Memory>
    requires budget { (1 ≤ budget) × (budget ≤ budget_limit) }
    requires shown { IsShown history.now.start budget (operations history.now.events) verdict.now }
    requires exact { IsExactVerdict history.now.start budget (operations history.now.events)
        verdict.now }
    ensures { IfOk result (λ text. (details : List ℕ)
        × AreDetails budget history.now verdict.now details
        × (string_bytes text ≡ line (compact_text (verdict_data verdict.now)) ++ details)) }
{
    let mut lines = line_of(report(alloc, verdict)?)?;
    let details = details_of(alloc, history, verdict, budget)?;
    lines.push_str(details.as_str())?;
    Ok(lines)
}

/// Returns the lines after the report of a verdict: the calls that show a no, or where the history
/// goes wrong after an undecided.
fn details_of(
    alloc: Global,
    history: &History,
    verdict: &Verdict,
    budget: u32,
) -> Result<String, Memory>
    requires budget { (1 ≤ budget) × (budget ≤ budget_limit) }
    requires shown { IsShown history.now.start budget (operations history.now.events) verdict.now }
    requires exact { IsExactVerdict history.now.start budget (operations history.now.events)
        verdict.now }
    ensures { IfOk result (λ text. AreDetails budget history.now verdict.now (string_bytes text)) }
{
    match verdict {
        Verdict::Yes(_) => Ok(String::new(alloc)),
        Verdict::No(segment) => segment_details(alloc, history, segment, budget),
        Verdict::Undecided(_) => located_details(alloc, history, verdict, budget),
    }
}

/// Returns a few calls of a segment that show that it has no order.
fn segment_details(
    alloc: Global,
    history: &History,
    segment: &Segment,
    budget: u32,
) -> Result<String, Memory>
    requires budget { (1 ≤ budget) × (budget ≤ budget_limit) }
    requires refuted { HasNoOrder segment.now }
    ensures { IfOk result (λ text. AreFew budget history.now segment.now.start segment.now.calls
        (string_bytes text)) }
{
    let start = SortedMap::of(alloc, segment.start())?;
    let few = explain_calls(alloc, &start, segment.calls(), budget)?;
    few_lines(alloc, history, segment.start(), &few, budget)
}

/// Finds where a history with this verdict goes wrong, and a few calls that show it.
fn located_details(
    alloc: Global,
    history: &History,
    verdict: &Verdict,
    budget: u32,
) -> Result<String, Memory>
    requires budget { (1 ≤ budget) × (budget ≤ budget_limit) }
    requires shown { IsShown history.now.start budget (operations history.now.events) verdict.now }
    requires exact { IsExactVerdict history.now.start budget (operations history.now.events)
        verdict.now }
    ensures { IfOk result (λ text. AreLocated budget history.now (string_bytes text)) }
{
    let location = locate_from(alloc, history, verdict, budget)?;
    let mut lines = line_of(location_line(alloc, &location)?)?;
    let evidence = evidence_of(alloc, history, &location, budget)?;
    let few = evidence_lines(alloc, history, &evidence, budget)?;
    lines.push_str(few.as_str())?;
    Ok(lines)
}

/// Returns the lines of what shows a location.
fn evidence_lines(
    alloc: Global,
    history: &History,
    evidence: &Evidence,
    budget: u32,
) -> Result<String, Memory>
    requires budget { (1 ≤ budget) × (budget ≤ budget_limit) }
    requires refutes { Refutes history.now evidence.now }
    ensures { IfOk result (λ text. AreEvidenceLines budget history.now evidence.now
        (string_bytes text)) }
{
    match evidence {
        Evidence::OfEvents(few) => few_lines(alloc, history, history.start(), few, budget),
        Evidence::OfPart(part, few) => part_lines(alloc, history, part, few, budget),
        Evidence::Missing => Ok(String::new(alloc)),
    }
}

/// Returns the lines of a few calls of a part that goes wrong on its own. The first lines give the
/// values of their keys from which they begin, and the others the calls.
fn part_lines(
    alloc: Global,
    history: &History,
    part: &KeyCore,
    few: &Explanation,
    budget: u32,
) -> Result<String, Memory>
    requires budget { (1 ≤ budget) × (budget ≤ budget_limit) }
    requires sorted { IsRising part.now.start }
    requires none { IsLinearizable part.now.start few.now.calls.items → ⊥ }
    ensures { IfOk result (λ text. ArePartLines budget history.now part.now few.now
        (string_bytes text)) }
{
    let mut lines = from_lines(alloc, history, part, &few.calls)?;
    let rest = few_lines(alloc, history, &part.start, few, budget)?;
    lines.push_str(rest.as_str())?;
    Ok(lines)
}
