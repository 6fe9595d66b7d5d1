// Which calls a picture shows.
ghost use Rattle.std.specs.Prelude.{◌≡◌, ℕ, ◌++◌, List, length, map, IfOk, OnOk};
ghost use Rattle.events.specs.Operations.{operations};
ghost use Rattle.judge.specs.Shown.{IsShown};
ghost use Rattle.map_object.specs.MapObject.{IsRising};
ghost use Rattle.orders.specs.SegmentOrders.{HasNoOrder};
ghost use Rattle.explain_locate.specs.Evidences.{Refutes};
ghost use Rattle.explain_locate.specs.Locations.{IsLocated};
ghost use Rattle.explain_reads_from.specs.External.{AreExternal};
ghost use Rattle.explain_reads_from.specs.declared.missing.Missed.{Missed};
ghost use Rattle.explain_reads_from.specs.Missed.{missed_writes};
ghost use Rattle.explain_reads_from.specs.Writers.{writers_of};
ghost use Rattle.cli_draw.specs.Choices.{asks_for_nothing, places_before, places_begun, places_from, places_of, places_put, places_missed};
ghost use Rattle.cli_draw.specs.Choices.{IsChoiceOf, IsUnaskedChoice, IsChoiceAt, IsChoiceFor, IsFewChoice, IsPartChoice};
ghost use Rattle.cli_draw.specs.Choices.{AreShown, IsShownFew};

use crate::shown::Choice;
use draw_picture::View;
use events::{History, MAX_CALLS, Memory, Operation};
use explain_locate::{Evidence, Location, evidence_of};
use explain_reads_from::{Missed, external_reads, missed_writes, writers_of};
use explain_shrink::{Explanation, explain_calls};
use follow_violations::{KeyCore, KeyViolation, Origin, own_losses};
use judge::Verdict;
use map_object::SortedMap;
use orders::Segment;
use std::alloc::Global;

/// Returns what is shown of a verdict and of a location. If the view asks for a part, it is that
/// part. Otherwise it is a few calls that show a no, the calls that put what these read from
/// outside, and those that these miss. After an undecided it is the same for the events up to where
/// the history goes wrong, if that was found.
pub(crate) fn choice_of(
    alloc: Global,
    history: &History,
    verdict: &Verdict,
    location: &Location,
    budget: u32,
    view: View,
) -> Result<Choice, Memory>
    requires shown { IsShown history.now.start budget (operations history.now.events) verdict.now }
    requires located { IsLocated budget history.now location.now }
    ensures { IfOk result (IsChoiceOf budget view history.now verdict.now location.now) }
{
    if asks_for_nothing(history.events().len(), view) {
        unasked_choice(alloc, history, verdict, location, budget)
    } else {
        Ok(Choice::Part)
    }
}

/// Returns what is shown if the view asks for nothing.
fn unasked_choice(
    alloc: Global,
    history: &History,
    verdict: &Verdict,
    location: &Location,
    budget: u32,
) -> Result<Choice, Memory>
    requires shown { IsShown history.now.start budget (operations history.now.events) verdict.now }
    requires located { IsLocated budget history.now location.now }
    ensures { IfOk result (IsUnaskedChoice budget history.now verdict.now location.now) }
{
    match verdict {
        Verdict::Yes(_) => Ok(Choice::Part),
        Verdict::No(segment) => segment_choice(alloc, history, segment, budget),
        Verdict::Undecided(_) => located_choice(alloc, history, location, budget),
    }
}

/// Returns the few calls of a segment that are shown.
fn segment_choice(
    alloc: Global,
    history: &History,
    segment: &Segment,
    budget: u32,
) -> Result<Choice, Memory>
    requires { HasNoOrder segment.now }
    ensures { IfOk result (IsFewChoice budget history.now segment.now.start segment.now.calls) }
{
    let start = SortedMap::of(alloc, segment.start())?;
    let few = explain_calls(alloc, &start, segment.calls(), budget)?;
    let choice = few_shown(alloc, history, segment.start(), &few)?;
    Ok(choice)
}

/// Returns a few calls that show a location.
fn located_choice(
    alloc: Global,
    history: &History,
    location: &Location,
    budget: u32,
) -> Result<Choice, Memory>
    requires located { IsLocated budget history.now location.now }
    ensures { IfOk result (IsChoiceAt budget history.now location.now) }
{
    let evidence = evidence_of(alloc, history, location, budget)?;
    let choice = evidence_choice(alloc, history, &evidence)?;
    Ok(choice)
}

/// Returns a few calls that show a location, from its evidence.
fn evidence_choice(alloc: Global, history: &History, evidence: &Evidence) -> Result<Choice, Memory>
    requires refutes { Refutes history.now evidence.now }
    ensures { IfOk result (IsChoiceFor history.now evidence.now) }
{
    match evidence {
        Evidence::OfEvents(few) => few_shown(alloc, history, history.start(), few),
        Evidence::OfPart(part, few) => part_choice(alloc, history, part, few),
        Evidence::Missing => Ok(Choice::Part),
    }
}

/// Returns a few calls of a part that goes wrong on its own. With them are the calls that put what
/// these read from outside, the calls that these miss, and the calls that put the values of their
/// keys before them.
fn part_choice(
    alloc: Global,
    history: &History,
    part: &KeyCore,
    few: &Explanation,
) -> Result<Choice, Memory>
    requires { IsRising part.now.start }
    ensures { IfOk result (IsPartChoice history.now part.now few.now) }
{
    let mut places = places_of_few(alloc, history, &part.start, &few.calls)?;
    let losses = own_losses(alloc, part, &few.calls)?;
    push_begun(&mut places, &losses)?;
    Ok(Choice::Few(places))
}

/// Adds the events at which the calls are invoked that put the values of keys.
fn push_begun(places: &mut Vec<usize>, losses: &[KeyViolation]) -> Result<(), Memory>
    ensures { OnOk result (places.new.items ≡ places.old.items ++ places_begun losses.now) }
{
    for loss in losses {
        push_from(places, &loss.from)?;
    }
    Ok(())
}

/// Adds the events at which the calls are invoked that put the values of a key.
fn push_from(places: &mut Vec<usize>, from: &[Origin]) -> Result<(), Memory>
    ensures { OnOk result (places.new.items ≡ places.old.items ++ places_from from.now) }
{
    for origin in from {
        push_place(places, origin.put)?;
    }
    Ok(())
}

/// Adds the event at which a call is invoked, if there is one.
fn push_place(places: &mut Vec<usize>, place: Option<usize>) -> Result<(), Memory>
    ensures { OnOk result (places.new.items ≡ places.old.items ++ places_before place) }
{
    if let Some(place) = place {
        places.push(place)?;
    }
    Ok(())
}

/// Returns whether a view of a history with this many events asks for no event and for no number of
/// calls.
fn asks_for_nothing(events: usize, view: View) -> bool
    ensures { result ≡ asks_for_nothing events view }
{
    view.around as usize >= events && view.calls as usize > MAX_CALLS
}

/// Returns a few calls, with those that put what they read from outside, and those that they miss.
fn few_shown(
    alloc: Global,
    history: &History,
    start: &[(u64, u64)],
    few: &Explanation,
) -> Result<Choice, Memory>
    requires { IsRising start.now }
    ensures { IfOk result (IsShownFew history.now start.now few.now.calls.items) }
{
    let places = places_of_few(alloc, history, start, &few.calls)?;
    Ok(Choice::Few(places))
}

/// Returns the events at which a few calls without order from these pairs are invoked. Also the
/// events of the calls of the history that put what these read from outside, or that these miss.
fn places_of_few(
    alloc: Global,
    history: &History,
    start: &[(u64, u64)],
    few: &[Operation],
) -> Result<Vec<usize>, Memory>
    requires { IsRising start.now }
    ensures { IfOk result (λ places. AreShown history.now start.now few.now places.items) }
{
    let start = SortedMap::of(alloc, start)?;
    let mut places = few_places(alloc, history, &start, few)?;
    push_missed(alloc, &mut places, history.calls(), few)?;
    Ok(places)
}

/// Returns the events at which a few calls are invoked, and the events of the calls of the history
/// that put what these read from outside. The map holds these pairs at the start.
fn few_places(
    alloc: Global,
    history: &History,
    start: &SortedMap,
    few: &[Operation],
) -> Result<Vec<usize>, Memory>
    ensures { IfOk result (λ places. (pairs : List (ℕ × ℕ)) × AreExternal start.now few.now pairs
        × (places.items ≡ places_of few.now
        ++ places_put (operations history.now.events) pairs)) }
{
    let pairs = external_reads(alloc, start, few)?;
    let mut places = places_of(alloc, few)?;
    push_puts(alloc, &mut places, history.calls(), &pairs)?;
    Ok(places)
}

/// Returns the events at which calls are invoked.
fn places_of(alloc: Global, calls: &[Operation]) -> Result<Vec<usize>, Memory>
    ensures { IfOk result (λ places. places.items ≡ places_of calls.now) }
{
    Ok(calls.iter().map(|call| call.inv).collect(alloc)?)
}

/// Adds the events at which the calls are invoked that put one of some pairs.
fn push_puts(
    alloc: Global,
    places: &mut Vec<usize>,
    calls: &[Operation],
    pairs: &[(u64, u64)],
) -> Result<(), Memory>
    ensures { OnOk result (places.new.items ≡ places.old.items ++ places_put calls.now pairs.now) }
{
    for pair in pairs {
        let put = writers_of(alloc, calls, *pair)?;
        places.extend_from_slice(&put)?;
    }
    Ok(())
}

/// Adds the events at which the calls are invoked that one of these few misses.
fn push_missed(
    alloc: Global,
    places: &mut Vec<usize>,
    calls: &[Operation],
    few: &[Operation],
) -> Result<(), Memory>
    ensures { OnOk result (places.new.items ≡ places.old.items ++ places_missed calls.now few.now) }
{
    for call in few {
        let missed = events_missed(alloc, calls, call)?;
        places.extend_from_slice(&missed)?;
    }
    Ok(())
}

/// Returns the events at which the calls are invoked that one misses.
fn events_missed(alloc: Global, calls: &[Operation], call: &Operation) -> Result<Vec<usize>, Memory>
    ensures { IfOk result (λ places. places.items ≡ places_of (missed_writes call.now calls.now)) }
{
    let missed = missed_writes(alloc, calls, call)?;
    let places = events_of(alloc, &missed)?;
    Ok(places)
}

/// Returns the events of calls that are missed.
fn events_of(alloc: Global, missed: &[Missed]) -> Result<Vec<usize>, Memory>
    ensures { IfOk result (λ places. places.items ≡ map (λ (m : Missed). m.event) missed.now) }
{
    Ok(missed.iter().map(|missed| missed.event).collect(alloc)?)
}
