// `bench locate`: the event at which the history on the input goes wrong.
ghost use Rattle.std.specs.Prelude.{◌≡◌, ℕ, ◌<◌, ◌≤◌, List, Some, IfOk, is_some};
ghost use Rattle.events.specs.HistoryView.{HistoryView};
ghost use Rattle.cli_judge.specs.Answers.{IsHistoryRefusal, IsTextOf};
ghost use Rattle.cli_explain.specs.LocationAnswers.{answer_of_location, IsFoundAnswer, IsLocateAnswer, IsLocateAnswerWith};
ghost use Rattle.cli_explain.specs.LocationOutcomes.{IsLocateOutcome};
ghost use Rattle.history_text.specs.Limits.{text_limit};
ghost use Rattle.explain_locate.specs.FirstOrders.{IsOrderedLocation};
ghost use Rattle.explain_locate.specs.Locations.{IsLocated};
ghost use Rattle.cli_outcome.specs.Ends.{change};
ghost use Rattle.cli_outcome.specs.Outcomes.{IsTextOutcome};
ghost use Rattle.cli_outcome.specs.Reads.{IsTextRead};
ghost use Rattle.cli_outcome.specs.Runs.{IsRun};
ghost use Rattle.search.specs.Limits.{budget_limit};

use cli_io::{Sink, Source};
use cli_judge::refused_text;
use cli_outcome::{Answer, CommandOutcome, line_of, run_text};
use events::Memory;
use explain_locate::{
    Location, OrderedLocation, locate, locate_ordered, location_line, ordered_line,
};
use history_text::{MAX_TEXT, read_history};
use std::alloc::Global;

/// Reads a history text to the end of the source, or until it is too long, and finds the event at
/// which the history goes wrong. A verdict searches at most `budget` configurations of each
/// segment. If one is undecided, the monitor looks, and each of its searches reaches at most
/// `budget` configurations. With `order` it also looks for an order of the events before. It starts
/// no thread. Returns the exit status.
pub fn run_locate<S: Source, O: Sink, F: Sink, H: Sink>(
    alloc: Global,
    source: &mut S,
    output: &mut O,
    faults: &mut F,
    hints: &mut H,
    budget: u32,
    order: bool,
) -> u8
    requires budget { (1 ≤ budget) × (budget ≤ budget_limit) }
    requires source { S.failures source.old < u64.MAX }
    requires output { O.failures output.old < u64.MAX }
    requires faults { F.failures faults.old < u64.MAX }
    requires hints { H.failures hints.old < u64.MAX }
    ensures run { IsRun
        (IsLocateOutcome budget order (change S.remaining S.failures source.old source.new))
        (change O.written O.failures output.old output.new)
        (change F.written F.failures faults.old faults.new)
        (change H.written H.failures hints.old hints.new) result }
    ensures read { IsTextRead text_limit (change S.remaining S.failures source.old source.new)
        result }
{
    let answer = |text: &[u8]|
        requires { (1 ≤ budget) × (budget ≤ budget_limit) }
    { outcome_with(alloc, text, budget, order) };
    run_text(alloc, source, output, faults, hints, MAX_TEXT, answer)
}

/// Finds the event at which the history of a text goes wrong, and reports it, with an order of the
/// events before it or without.
fn outcome_with(alloc: Global, text: &[u8], budget: u32, order: bool) -> CommandOutcome
    requires { (1 ≤ budget) × (budget ≤ budget_limit) }
    ensures { IsTextOutcome (IsLocateAnswerWith order budget) IsHistoryRefusal (Some text.now) result }
{
    if order {
        return locate_order_outcome(alloc, text, budget).outcome;
    }
    locate_outcome(alloc, text, budget)
}

/// Finds the event at which the history of a text goes wrong, and reports it.
pub fn locate_outcome(alloc: Global, text: &[u8], budget: u32) -> CommandOutcome
    requires { (1 ≤ budget) × (budget ≤ budget_limit) }
    ensures { IsTextOutcome (IsLocateAnswer budget) IsHistoryRefusal (Some text.now) result }
{
    match read_history(alloc, text) {
        Ok(history) => outcome_of(alloc, locate(alloc, &history, budget)),
        Err(fault) => refused_text(alloc, text, &fault),
    }
}

/// Returns the outcome of a location, or that memory ran out.
fn outcome_of(alloc: Global, located: Result<Location, Memory>) -> CommandOutcome
    ensures { (budget : ℕ) (text : List ℕ) (history : HistoryView) → IsTextOf text history
        → IfOk located (IsLocated budget history)
        → IsTextOutcome (IsLocateAnswer budget) IsHistoryRefusal (Some text) result }
{
    let Ok(location) = located else {
        return CommandOutcome::Memory;
    };
    match location_line(alloc, &location) {
        Ok(report) => CommandOutcome::from_answer(answer_of(&location), line_of(report)),
        Err(_) => CommandOutcome::Memory,
    }
}

/// What `locate --order` makes of a text.
#[derive(Drop)]
pub struct OrderOutcome {
    /// The outcome.
    pub outcome: CommandOutcome,
    /// Whether it has an order.
    pub is_found: bool,
}

/// Finds the event at which the history of a text goes wrong, and an order of the events before it,
/// and reports them.
pub fn locate_order_outcome(alloc: Global, text: &[u8], budget: u32) -> OrderOutcome
    requires { (1 ≤ budget) × (budget ≤ budget_limit) }
    ensures { IsTextOutcome (IsFoundAnswer budget result.is_found) IsHistoryRefusal (Some text.now)
        result.outcome }
{
    match read_history(alloc, text) {
        Ok(history) => order_outcome_of(alloc, locate_ordered(alloc, &history, budget)),
        Err(fault) => OrderOutcome {
            outcome: refused_text(alloc, text, &fault),
            is_found: false,
        },
    }
}

/// Returns the outcome of a location with an order, or that memory ran out.
fn order_outcome_of(alloc: Global, located: Result<OrderedLocation, Memory>) -> OrderOutcome
    ensures { (budget : ℕ) (text : List ℕ) (history : HistoryView) → IsTextOf text history
        → IfOk located (IsOrderedLocation budget history)
        → IsTextOutcome (IsFoundAnswer budget result.is_found) IsHistoryRefusal (Some text)
        result.outcome }
{
    let Ok(ordered) = located else {
        return OrderOutcome {
            outcome: CommandOutcome::Memory,
            is_found: false,
        };
    };
    OrderOutcome {
        outcome: outcome_of_ordered(alloc, &ordered),
        is_found: ordered.order.is_some(),
    }
}

/// Returns the outcome of a location with an order.
fn outcome_of_ordered(alloc: Global, ordered: &OrderedLocation) -> CommandOutcome
    ensures { (budget : ℕ) (text : List ℕ) (history : HistoryView) → IsTextOf text history
        → IsOrderedLocation budget history ordered.now
        → IsTextOutcome (IsFoundAnswer budget (is_some ordered.now.order)) IsHistoryRefusal
        (Some text) result }
{
    match ordered_line(alloc, ordered) {
        Ok(report) => CommandOutcome::from_answer(answer_of(&ordered.location), line_of(report)),
        Err(_) => CommandOutcome::Memory,
    }
}

/// Returns the answer of a location.
fn answer_of(location: &Location) -> Answer
    ensures { result ≡ answer_of_location location.now }
{
    match location {
        Location::Yes => Answer::Yes,
        Location::No { .. } | Location::Lost(_) => Answer::No,
        Location::Undecided { .. } => Answer::Undecided,
    }
}
