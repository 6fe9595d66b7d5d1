// A history with some calls, and its text.
ghost use Rattle.std.specs.Prelude.{◌≡◌, ◌≢◌, ◌<◌, ◌↔◌, List, length, IfOk, IfSome, MatchOption, string_bytes};
ghost use Rattle.events.specs.declared.fault.HistoryFault.TheVariants as faults;
ghost use Rattle.events.specs.declared.operation.Operation.{Operation};
ghost use Rattle.events.specs.Operations.{operations};
ghost use Rattle.history_text.specs.Limits.{text_limit};
ghost use Rattle.orders.specs.Orders.{IsLinearizable};
ghost use Rattle.explain_histories.specs.Seats.{NoEventsHave, AreEventsWith};
ghost use Rattle.explain_histories.specs.SmallHistories.{IsHistoryWith, AreOfNoHistory, IsWrittenAs, text_of};

use crate::seating::seat_all;
use crate::seats::Seats;
use call_effects::places_do_not_matter;
use events::{Event, History, HistoryFault, Memory, Operation};
use history_text::{MAX_TEXT, write_history};
use std::alloc::Global;

/// Makes a history with these calls, from these pairs. Its events come in the order of the calls'
/// events, an invocation before the responses at its place. Each call gets the process that became
/// free last. The history has an order exactly if the calls have one.
///
/// It returns `None` if no history has these calls. There may be too many calls or pairs, keys of
/// the pairs that do not rise, a scan without a range, or an answer with too many pairs. More than
/// 64 calls may be open at once, a call may end before it begins, or the calls may not be in an
/// order of invocations.
pub fn small_history(
    alloc: Global,
    start: &[(u64, u64)],
    calls: &[Operation],
) -> Result<Option<History>, Memory>
    ensures history { IfOk result (λ found. MatchOption found (AreOfNoHistory start.now calls.now)
        (λ history. IsHistoryWith start.now calls.now history)) }
    ensures orders { IfOk result (λ found. IfSome found (λ history.
        IsLinearizable start.now calls.now
        ↔ IsLinearizable history.start (operations history.events))) }
{
    places_do_not_matter();
    match small_events(alloc, calls)? {
        Some(events) => history_of(alloc, start, events),
        None => Ok(None),
    }
}

/// Returns the text of a history; none if it would be longer than a text may be.
pub fn small_text(alloc: Global, history: &History) -> Result<Option<String>, Memory>
    ensures { IfOk result (λ found. MatchOption found (text_limit < length (text_of history.now))
        (λ text. IsWrittenAs history.now (string_bytes text))) }
{
    let text = write_history(alloc, history)?;
    if text.len() > MAX_TEXT {
        Ok(None)
    } else {
        Ok(Some(text))
    }
}

/// Returns events of a history that make these calls, at other places; none if the events of no
/// history do.
fn small_events(alloc: Global, calls: &[Operation]) -> Result<Option<Vec<Event>>, Memory>
    ensures { IfOk result (λ found. MatchOption found (NoEventsHave calls.now)
        (λ events. AreEventsWith calls.now events.items)) }
{
    let mut seats = Seats::new(alloc)?;
    if seat_all(alloc, &mut seats, calls)? {
        Ok(Some(seats.events))
    } else {
        Ok(None)
    }
}

/// Returns the history of events from some pairs; none if no history has their calls.
fn history_of(
    alloc: Global,
    start: &[(u64, u64)],
    events: Vec<Event>,
) -> Result<Option<History>, Memory>
    ensures { (calls : List Operation) → AreEventsWith calls events.items
        → IfOk result (λ found. MatchOption found (AreOfNoHistory start.now calls)
        (λ history. IsHistoryWith start.now calls history)) }
{
    let start = Vec::from_slice(alloc, start)?;
    match History::with_start(alloc, start, events) {
        Ok(history) => Ok(Some(history)),
        Err(fault) => none_for(fault),
    }
}

/// Returns no history, unless there is none because memory ran out.
fn none_for(fault: HistoryFault) -> Result<Option<History>, Memory>
    ensures { IfOk result (λ found. (found ≡ None) × (fault ≢ faults.Memory)) }
{
    match fault {
        HistoryFault::Memory => Err(Memory),
        _ => Ok(None),
    }
}
