// The history up to an event.
ghost use Rattle.std.specs.Prelude.{◌≡◌, ◌+◌, take, IfOk};
ghost use Rattle.follow_monitor.specs.Prefixes.{prefix_of};

use events::{Event, History, Memory};
use follow_monitor::prefixes_are_histories;
use std::alloc::Global;

/// Returns a copy of the history of the events up to this one, from the same starting pairs.
pub fn history_up_to(alloc: Global, history: &History, event: usize) -> Result<History, Memory>
    ensures { IfOk result (λ h. h ≡ prefix_of history.now (event + 1)) }
{
    prefixes_are_histories();
    let start = Vec::from_slice(alloc, history.start())?;
    let events = events_up_to(alloc, history.events(), event)?;
    History::with_calls(alloc, start, events)
}

/// Returns a copy of the history that has only its first `length` events, and the same starting
/// pairs.
pub(crate) fn first_events(
    alloc: Global,
    history: &History,
    count: usize,
) -> Result<History, Memory>
    ensures { IfOk result (λ h. h ≡ prefix_of history.now count) }
{
    prefixes_are_histories();
    let start = Vec::from_slice(alloc, history.start())?;
    let events = events_before(alloc, history.events(), count)?;
    History::with_calls(alloc, start, events)
}

/// Returns copies of the events before the one at this place.
fn events_before(alloc: Global, events: &[Event], place: usize) -> Result<Vec<Event>, Memory>
    ensures { IfOk result (λ copies. copies.items ≡ take place events.now) }
{
    if events.len() <= place {
        return copies_of(alloc, events);
    }
    copies_of(alloc, &events[..place])
}

/// Returns copies of the events up to the one at this place.
fn events_up_to(alloc: Global, events: &[Event], place: usize) -> Result<Vec<Event>, Memory>
    ensures { IfOk result (λ copies. copies.items ≡ take (place + 1) events.now) }
{
    if events.len() <= place {
        return copies_of(alloc, events);
    }
    copies_of(alloc, &events[..place + 1])
}

fn copies_of(alloc: Global, events: &[Event]) -> Result<Vec<Event>, Memory>
    ensures { IfOk result (λ copies. copies.items ≡ events.now) }
{
    let mut copies = Vec::with_capacity(alloc, events.len())?;
    for event in events {
        copies.push(event.copy(alloc)?)?;
    }
    Ok(copies)
}
