// From logs to a history.
ghost use Rattle.std.specs.Prelude.{◌≡◌, ◌++◌, map, IfOk, OnOk};
ghost use Rattle.events.specs.Histories.{AreHistoryEvents};
ghost use Rattle.events.specs.Starts.{IsStart};
ghost use Rattle.events.specs.Logs.{events_by_stamp};

use crate::event::Event;
use crate::histories::History;
use crate::memory::Memory;
use std::alloc::Global;

/// Returns the history of stamped events from these pairs at the start. The events are sorted by
/// stamp, and events with one stamp stay in their order. For n events it takes time n log n. It
/// returns `Err` if memory runs out.
pub fn history_by_stamp(
    alloc: Global,
    start: Vec<(u64, u64)>,
    mut stamped: Vec<(u64, Event)>,
) -> Result<History, Memory>
    requires start { IsStart start.items }
    requires events { AreHistoryEvents (events_by_stamp stamped.items) }
    ensures { IfOk result (λ h. h
        ≡ record { start = start.items; events = events_by_stamp stamped.items }) }
{
    stamped.sort_by_key(|event| event.0)?;
    let events = without_stamps(alloc, stamped)?;
    History::with_calls(alloc, start, events)
}

/// Returns the events without their stamps, in the same order.
fn without_stamps(alloc: Global, stamped: Vec<(u64, Event)>) -> Result<Vec<Event>, Memory>
    ensures { IfOk result (λ events. events.items ≡ map (λ e. e.1) stamped.items) }
{
    let events = stamped.into_iter().map(|(_, event)| event).collect(alloc)?;
    Ok(events)
}

/// Appends copies of a log's events to others. It returns `Err` if memory runs out.
pub fn append_log(
    alloc: Global,
    stamped: &mut Vec<(u64, Event)>,
    log: &[(u64, Event)],
) -> Result<(), Memory>
    ensures { OnOk result (stamped.new.items ≡ stamped.old.items ++ log.now) }
{
    for (stamp, event) in log {
        let event = event.copy(alloc)?;
        stamped.push((*stamp, event))?;
    }
    Ok(())
}
