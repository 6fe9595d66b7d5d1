// The explanation of a history that may go wrong at its last event.
ghost use Rattle.std.specs.Prelude.{◌≡◌, ◌<◌, All, AllPairs, IfOk, MatchOption};
ghost use Rattle.events.specs.Operations.{operations};
ghost use Rattle.events.specs.Precedence.{NonePrecedesItself};
ghost use Rattle.explain_shrink.specs.Explained.{AreEnough, IsExplained, IsExplanation, IsReasonFor, IsUnshown};
ghost use Rattle.explain_shrink.specs.declared.explanation.Reason.{Reason};

use crate::ends::places_of;
use crate::explaining::{by_halves, few_configurations, least_of};
use crate::explanation::{Explanation, Without};
use crate::leaving::leave_out;
use crate::rests::{precedes, says_put};
use crate::telling::tells_put;
use events::{Call, History, Memory, Operation};
use map_object::SortedMap;
use std::alloc::Global;

/// Explains why a history has no order, by a few of its calls, as `explain_calls` does. It looks at
/// up to 256 calls that have to do with the last event, and at up to 256 of the last calls. So it
/// is quick if the history goes wrong at that event. It returns `None` if these calls do not show
/// that the history has no order.
pub fn explain_history(
    alloc: Global,
    history: &History,
    budget: u32,
) -> Result<Option<Explanation>, Memory>
    ensures { IfOk result (IsExplained history.now.start (operations history.now.events) budget) }
{
    let map = SortedMap::of(alloc, history.start())?;
    explanation_at(alloc, &map, history.calls(), history.events().len(), budget)
}

/// Explains calls of a history with this many events.
fn explanation_at(
    alloc: Global,
    map: &SortedMap,
    calls: &[Operation],
    events: usize,
    budget: u32,
) -> Result<Option<Explanation>, Memory>
    requires rising { AllPairs (λ a b. a.inv < b.inv) calls.now }
    requires apart { NonePrecedesItself calls.now }
    ensures { IfOk result (IsExplained map.now calls.now budget) }
{
    let few = few_configurations(budget);
    let told = told_places(alloc, calls, events)?;
    let missed = missed_places(alloc, calls, events)?;
    match shown_calls(
        alloc,
        map,
        calls,
        &told,
        &missed,
        &[8, 16, 32, 64, 128, 256],
        few,
    )? {
        Some(shown) => Ok(Some(explanation_of(alloc, map, calls, shown, budget)?)),
        None => Ok(None),
    }
}

/// Explains calls by some that are enough.
fn explanation_of(
    alloc: Global,
    map: &SortedMap,
    calls: &[Operation],
    shown: Vec<Operation>,
    budget: u32,
) -> Result<Explanation, Memory>
    requires rising { AllPairs (λ a b. a.inv < b.inv) calls.now }
    requires apart { NonePrecedesItself calls.now }
    requires enough { AreEnough map.now calls.now shown.items }
    ensures { IfOk result (IsExplanation map.now calls.now budget) }
{
    let few = few_configurations(budget);
    let kept = by_halves(alloc, map, calls, shown, few)?;
    least_of(alloc, map, calls, kept, budget)
}

/// Returns calls that are enough, if short searches show it. For each of these numbers it tries
/// that many calls from the front of each list, and that many of the last calls. The first number
/// that shows it decides.
fn shown_calls(
    alloc: Global,
    map: &SortedMap,
    calls: &[Operation],
    told: &[usize],
    missed: &[usize],
    counts: &[usize],
    budget: u32,
) -> Result<Option<Vec<Operation>>, Memory>
    requires rising { AllPairs (λ a b. a.inv < b.inv) calls.now }
    requires apart { NonePrecedesItself calls.now }
    ensures { IfOk result (λ shown. MatchOption shown
        (All (IsUnshown map.now budget calls.now) counts.now)
        (λ rest. AreEnough map.now calls.now rest.items)) }
{
    for count in counts {
        match shown_by(alloc, map, calls, told, missed, *count, budget)? {
            Some(rest) => return Ok(Some(rest)),
            None => {}
        }
    }
    Ok(None)
}

/// Returns what is left of this many calls from the front of either list, or of the last ones, if
/// they show that all have no order.
fn shown_by(
    alloc: Global,
    map: &SortedMap,
    calls: &[Operation],
    told: &[usize],
    missed: &[usize],
    count: usize,
    budget: u32,
) -> Result<Option<Vec<Operation>>, Memory>
    requires rising { AllPairs (λ a b. a.inv < b.inv) calls.now }
    requires apart { NonePrecedesItself calls.now }
    ensures { IfOk result (λ shown. MatchOption shown (IsUnshown map.now budget calls.now count)
        (λ rest. AreEnough map.now calls.now rest.items)) }
{
    let first = &missed[..count.min(missed.len())];
    match rest_where_shown(alloc, map, calls, first, budget)? {
        Some(rest) => Ok(Some(rest)),
        None => told_where_shown(alloc, map, calls, told, count, budget),
    }
}

/// Returns what is left of this many calls from the front of this list, or of the last ones, if
/// they show that all have no order.
fn told_where_shown(
    alloc: Global,
    map: &SortedMap,
    calls: &[Operation],
    places: &[usize],
    count: usize,
    budget: u32,
) -> Result<Option<Vec<Operation>>, Memory>
    requires rising { AllPairs (λ a b. a.inv < b.inv) calls.now }
    requires apart { NonePrecedesItself calls.now }
    ensures { IfOk result (λ shown. MatchOption shown (IsUnshown map.now budget calls.now count)
        (λ rest. AreEnough map.now calls.now rest.items)) }
{
    let first = &places[..count.min(places.len())];
    match rest_where_shown(alloc, map, calls, first, budget)? {
        Some(rest) => Ok(Some(rest)),
        None => last_where_shown(alloc, map, calls, count, budget),
    }
}

/// Returns what is left of this many of the last calls, if they show that all have no order.
fn last_where_shown(
    alloc: Global,
    map: &SortedMap,
    calls: &[Operation],
    count: usize,
    budget: u32,
) -> Result<Option<Vec<Operation>>, Memory>
    requires rising { AllPairs (λ a b. a.inv < b.inv) calls.now }
    requires apart { NonePrecedesItself calls.now }
    ensures { IfOk result (λ shown. MatchOption shown (IsUnshown map.now budget calls.now count)
        (λ rest. AreEnough map.now calls.now rest.items)) }
{
    let places = places_of(alloc, &calls[calls.len().saturating_sub(count)..])?;
    rest_where_shown(alloc, map, calls, &places, budget)
}

/// Returns what is left of the calls that were invoked at these places, if they show that all have
/// no order.
fn rest_where_shown(
    alloc: Global,
    map: &SortedMap,
    calls: &[Operation],
    places: &[usize],
    budget: u32,
) -> Result<Option<Vec<Operation>>, Memory>
    requires rising { AllPairs (λ a b. a.inv < b.inv) calls.now }
    requires apart { NonePrecedesItself calls.now }
    ensures { IfOk result (λ shown. MatchOption shown
        ((reason : Reason) × IsReasonFor map.now budget calls.now places.now reason)
        (λ rest. AreEnough map.now calls.now rest.items)) }
{
    match leave_out(alloc, map, calls, places, budget)? {
        Without::Rest(rest) => Ok(Some(rest)),
        Without::Kept(_) => Ok(None),
    }
}

/// Returns the places of the call that the last event answers, and of the calls that put something
/// else at one of its keys before it began. The last ones come first. Calls that put what it
/// reports are not listed: without their answers they might come right before it.
fn missed_places(alloc: Global, calls: &[Operation], events: usize) -> Result<Vec<usize>, Memory> {
    let mut places = Vec::new(alloc);
    if let Some(wrong) = answered_by(calls, events) {
        places.push(wrong.inv)?;
        push_near(&mut places, calls, wrong, Nearness::Missed)?;
    }
    Ok(places)
}

/// Returns the places of all calls: first those nearest to the call that the last event answers,
/// and of those as near the last ones first.
fn told_places(alloc: Global, calls: &[Operation], events: usize) -> Result<Vec<usize>, Memory> {
    let mut places = Vec::with_capacity(alloc, calls.len())?;
    if let Some(wrong) = answered_by(calls, events) {
        push_near(&mut places, calls, wrong, Nearness::Told)?;
        push_near(&mut places, calls, wrong, Nearness::Missed)?;
        push_near(&mut places, calls, wrong, Nearness::OfKey)?;
        push_near(&mut places, calls, wrong, Nearness::Apart)?;
    }
    Ok(places)
}

/// How near a call is to one that was answered wrongly.
#[derive(Clone, Copy)]
enum Nearness {
    /// It is that call, or may have put what that call depends on.
    Told,
    /// It put something else at one of that call's keys, before that call began.
    Missed,
    /// It has a key of that call.
    OfKey,
    /// It has no key of that call.
    Apart,
}

/// Returns the call that the last of this many events answers.
fn answered_by(calls: &[Operation], events: usize) -> Option<&Operation> {
    for call in calls {
        if let Some(response) = &call.response {
            if response.res == events.saturating_sub(1) {
                return Some(call);
            }
        }
    }
    None
}

/// Adds the places of the calls that are this near to one, the last ones first.
fn push_near(
    places: &mut Vec<usize>,
    calls: &[Operation],
    wrong: &Operation,
    nearness: Nearness,
) -> Result<(), Memory> {
    for call in calls.iter().rev() {
        if nearness_of(wrong, call) == nearness {
            places.push(call.inv)?;
        }
    }
    Ok(())
}

/// Returns how near a call is to one that was answered wrongly.
fn nearness_of(wrong: &Operation, call: &Operation) -> Nearness {
    if call.inv == wrong.inv || tells_put(wrong, call) {
        return Nearness::Told;
    }
    if !share_key(&wrong.call, &call.call) {
        return Nearness::Apart;
    }
    if says_put(call) && precedes(call, wrong) {
        Nearness::Missed
    } else {
        Nearness::OfKey
    }
}

/// Returns whether a key is among those of both calls.
fn share_key(call: &Call, other: &Call) -> bool {
    call.low_key() <= other.high_key() && other.low_key() <= call.high_key()
}
