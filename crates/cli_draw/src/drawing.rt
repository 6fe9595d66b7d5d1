// `bench draw`: a picture of the verdict on the history on the input.
ghost use Rattle.std.specs.Prelude.{◌≡◌, ℕ, ◌<◌, ◌≤◌, List, IfOk, IfSome, IsOk, OnOk, Some, string_bytes};
ghost use Rattle.events.specs.HistoryView.{HistoryView};
ghost use Rattle.events.specs.Operations.{operations};
ghost use Rattle.cli_judge.specs.Answers.{IsHistoryRefusal, IsTextOf};
ghost use Rattle.history_text.specs.Limits.{text_limit};
ghost use Rattle.judge.specs.Exact.{IsExactVerdict};
ghost use Rattle.judge.specs.Gates.{HoldsForText};
ghost use Rattle.judge.specs.Shown.{IsShown};
ghost use Rattle.explain_locate.specs.Locations.{IsLocated};
ghost use Rattle.cli_outcome.specs.Ends.{change};
ghost use Rattle.cli_outcome.specs.Outcomes.{IsTextOutcome, OnAnswered};
ghost use Rattle.cli_outcome.specs.Reads.{IsTextRead};
ghost use Rattle.cli_outcome.specs.Runs.{IsRun};
ghost use Rattle.cli_outcome.specs.Statuses.{OnAnswerStatus};
ghost use Rattle.cli_draw.specs.Drawings.{event_of, IsViewAnswer, IsDrawing, IsDrawnText, IsPartShown};
ghost use Rattle.cli_draw.specs.Choices.{IsShownAs};
ghost use Rattle.cli_draw.specs.Outcomes.{IsDrawOutcome};
ghost use Rattle.draw_picture.specs.Marks.{IsMarkable};
ghost use Rattle.draw_picture.specs.Pictures.{marked};
ghost use Rattle.draw_picture.specs.declared.picture.View.{View};
ghost use Rattle.search.specs.Limits.{budget_limit};

use crate::choice::choice_of;
use crate::shown::Choice;
use cli_io::{Sink, Source};
use cli_judge::{answer_of, refused_text};
use cli_outcome::{Answer, CommandOutcome, line_of, run_text};
use draw_picture::{Picture, View, few_of, front_of, part_of, picture_of};
use draw_svg::svg;
use events::{History, Memory};
use explain_locate::{Location, locate_from};
use history_text::{MAX_TEXT, read_history};
use judge::{Judge, Verdict};
use std::alloc::Global;

/// Reads a history text to the end of the source, or until it is too long, lets the judge judge it,
/// and draws the verdict. A no or an undecided has two marks. One is the event at which the history
/// goes wrong, if the judge's budget suffices to locate it. The other is the longest front that a
/// search of the named segment meets. It draws the part of the picture that the view asks for. If
/// the view asks for nothing, it draws a few calls that show a no, or what was located after an
/// undecided. With them it draws the calls that put what they read, and those that they miss.
/// Returns the exit status, which is that of the verdict.
pub fn run_draw<S: Source, O: Sink, F: Sink, H: Sink, J: Judge>(
    alloc: Global,
    source: &mut S,
    output: &mut O,
    faults: &mut F,
    hints: &mut H,
    judge: &J,
    view: View,
) -> u8
    requires ready { J.ready judge.now }
    requires source { S.failures source.old < u64.MAX }
    requires output { O.failures output.old < u64.MAX }
    requires faults { F.failures faults.old < u64.MAX }
    requires hints { H.failures hints.old < u64.MAX }
    ensures run { IsRun
        (IsDrawOutcome (J.budget judge.now) view
        (change S.remaining S.failures source.old source.new))
        (change O.written O.failures output.old output.new)
        (change F.written F.failures faults.old faults.new)
        (change H.written H.failures hints.old hints.new) result }
    ensures read { IsTextRead text_limit (change S.remaining S.failures source.old source.new)
        result }
    ensures asked { OnAnswerStatus result
        (IfSome (S.remaining source.old) (HoldsForText (J.was_asked judge.now))) }
{
    let answer = |text: &[u8]|
        requires { J.ready judge.now }
    { draw_outcome(alloc, text, judge, view) };
    run_text(alloc, source, output, faults, hints, MAX_TEXT, answer)
}

/// Draws the part that the view asks for, of a picture of the verdict on the history that the text
/// spells.
pub fn draw_outcome<J: Judge>(alloc: Global, text: &[u8], judge: &J, view: View) -> CommandOutcome
    requires { J.ready judge.now }
    ensures outcome { IsTextOutcome (IsViewAnswer (J.budget judge.now) view) IsHistoryRefusal
        (Some text.now) result }
    ensures asked { OnAnswered result (HoldsForText (J.was_asked judge.now) text.now) }
{
    match read_history(alloc, text) {
        Ok(history) => outcome_of(drawing_of(alloc, &history, judge, view)),
        Err(fault) => refused_text(alloc, text, &fault),
    }
}

/// Returns the outcome of a drawing, or that memory ran out.
fn outcome_of(drawn: Result<(Answer, String), Memory>) -> CommandOutcome
    ensures outcome { (budget : ℕ) (view : View) (text : List ℕ) (history : HistoryView)
        → IsTextOf text history
        → IfOk drawn (λ drawn. IsDrawing budget view history drawn.0 (string_bytes drawn.1))
        → IsTextOutcome (IsViewAnswer budget view) IsHistoryRefusal (Some text) result }
    ensures answered { OnAnswered result (IsOk drawn) }
{
    match drawn {
        Ok((answer, drawing)) => CommandOutcome::from_answer(answer, line_of(drawing)),
        Err(_) => CommandOutcome::Memory,
    }
}

/// Returns the text of a picture of the verdict on a history, and the answer for the verdict.
fn drawing_of<J: Judge>(
    alloc: Global,
    history: &History,
    judge: &J,
    view: View,
) -> Result<(Answer, String), Memory>
    requires { J.ready judge.now }
    ensures drawing { IfOk result (λ drawn. IsDrawing (J.budget judge.now) view history.now drawn.0
        (string_bytes drawn.1)) }
    ensures asked { OnOk result (J.was_asked judge.now history.now) }
{
    let verdict = judge.verdict_on(history)?;
    let budget = judge.budget();
    let location = locate_from(alloc, history, &verdict, budget)?;
    drawing_with(alloc, history, budget, &verdict, &location, view)
}

/// Returns the text of what a view shows of a picture of this verdict on a history, and the answer
/// for the verdict. The event of this location is marked as wrong.
fn drawing_with(
    alloc: Global,
    history: &History,
    budget: u32,
    verdict: &Verdict,
    location: &Location,
    view: View,
) -> Result<(Answer, String), Memory>
    requires budget { (1 ≤ budget) × (budget ≤ budget_limit) }
    requires shown { IsShown history.now.start budget (operations history.now.events) verdict.now }
    requires exact { IsExactVerdict history.now.start budget (operations history.now.events)
        verdict.now }
    requires located { IsLocated budget history.now location.now }
    ensures { IfOk result (λ drawn. IsDrawing budget view history.now drawn.0
        (string_bytes drawn.1)) }
{
    let front = front_of(alloc, history, verdict, budget)?;
    let choice = choice_of(alloc, history, verdict, location, budget, view)?;
    let wrong = event_of(location);
    let drawing = drawn_text(alloc, history, verdict, wrong, &front, &choice, view)?;
    Ok((answer_of(verdict), drawing))
}

/// Returns the text of what is shown of the picture with this front.
fn drawn_text(
    alloc: Global,
    history: &History,
    verdict: &Verdict,
    wrong: Option<usize>,
    front: &[u32],
    choice: &Choice,
    view: View,
) -> Result<String, Memory>
    requires { IsMarkable (operations history.now.events) (marked verdict.now front.now) }
    ensures { IfOk result (λ text. IsDrawnText choice.now view history.now verdict.now wrong
        front.now (string_bytes text)) }
{
    let part = part_shown(alloc, history, verdict, wrong, front, choice, view)?;
    let text = svg(alloc, &part)?;
    Ok(text)
}

/// Returns what is shown of the picture with this front.
fn part_shown(
    alloc: Global,
    history: &History,
    verdict: &Verdict,
    wrong: Option<usize>,
    front: &[u32],
    choice: &Choice,
    view: View,
) -> Result<Picture, Memory>
    requires { IsMarkable (operations history.now.events) (marked verdict.now front.now) }
    ensures { IfOk result (IsPartShown choice.now view history.now verdict.now wrong front.now) }
{
    let picture = picture_of(alloc, history, verdict, wrong, front)?;
    let part = shown_as(alloc, choice, picture, history.events().len(), wrong, view)?;
    Ok(part)
}

/// Returns what a choice shows of a picture of a history with this many events.
fn shown_as(
    alloc: Global,
    choice: &Choice,
    picture: Picture,
    events: usize,
    wrong: Option<usize>,
    view: View,
) -> Result<Picture, Memory>
    ensures { IfOk result (IsShownAs choice.now events wrong view picture) }
{
    match choice {
        Choice::Few(places) => few_of(alloc, picture, places, wrong),
        Choice::Part => part_of(alloc, picture, events, wrong, view),
    }
}

/// Returns the event at which a location says that the history goes wrong.
fn event_of(location: &Location) -> Option<usize>
    ensures { result ≡ event_of location.now }
{
    match location {
        Location::No { event, .. } => Some(*event),
        Location::Lost(loss) => Some(loss.event),
        Location::Yes | Location::Undecided { .. } => None,
    }
}
