// Histories: starting pairs and well-formed lists of events within the limits, with their calls.
ghost use Rattle.std.specs.Prelude.{◌≡◌, IfOk, IfErr, OnOk, OnErr};
ghost use Rattle.events.specs.HistoryView.{HistoryView, with_no_start};

use crate::event::Event;
use crate::fault::HistoryFault;
use crate::memory::Memory;
use crate::open_calls::OpenCalls;
use crate::operation::Operation;
use crate::operations::operations_of;
use crate::starts::test_start;
use std::alloc::Global;
use std::marker::Model;

/// A history: the pairs that the map holds at the start, and the events. The events are well formed
/// and within the limits. Contracts see both lists.
pub struct History {
    start: Vec<(u64, u64)>,
    events: Vec<Event>,
    calls: Vec<Operation>,
}

impl Drop for History {
    fn drop(self) {
        let History {
            start: _start,
            events: _events,
            calls: _calls,
        } = self;
    }
}

impl Model for History {
    ghost use Rattle.std.specs.Prelude.{◌≡◌};
    ghost use Rattle.events.specs.HistoryView.{HistoryView};
    ghost use Rattle.events.specs.Histories.{IsHistory};
    ghost use Rattle.events.specs.Operations.{operations};

    ghost Value = { HistoryView };

    ghost view = { λ h. record { start = h.start.items; events = h.events.items } };

    ghost invariant = { λ h. IsHistory (record { start = h.start.items; events = h.events.items }) × (h.calls.items ≡ operations h.events.items) };
}

impl History {
    ghost use Rattle.events.specs.declared.fault.HistoryFault.TheVariants as faults;
    ghost use Rattle.events.specs.Histories.{IsHistory};
    ghost use Rattle.events.specs.HistoryFaults.{IsRefusedFor};
    ghost use Rattle.events.specs.Operations.{operations};

    /// Makes the history of these events from the empty map, with its calls. Otherwise it returns
    /// the first fault: `Shape` for a scan whose first key is above its last, `TooMany`,
    /// `NotWellFormed`, or `Memory`. It takes time in proportion to the events, for a fixed number
    /// of processes.
    pub fn from_events(alloc: Global, events: Vec<Event>) -> Result<History, HistoryFault>
        ensures ok { IfOk result (λ h. h ≡ with_no_start events.items) }
        ensures history { OnOk result (IsHistory (with_no_start events.items)) }
        ensures refused { IfErr result (IsRefusedFor (with_no_start events.items)) }
        ensures accepted { IsHistory (with_no_start events.items)
            → IfErr result (λ e. e ≡ faults.Memory) }
    {
        History::with_start(alloc, Vec::new(alloc), events)
    }

    /// Makes the history of these events from these pairs, with its calls. Otherwise it returns the
    /// first fault: of the pairs `TooMany` or `Start`, then of the events as `from_events` does; or
    /// `Memory`. It takes time in proportion to the pairs and the events, for a fixed number of
    /// processes.
    pub fn with_start(
        alloc: Global,
        start: Vec<(u64, u64)>,
        events: Vec<Event>,
    ) -> Result<History, HistoryFault>
        ensures ok { IfOk result (λ h. h ≡ record { start = start.items; events = events.items }) }
        ensures history { OnOk result
            (IsHistory (record { start = start.items; events = events.items })) }
        ensures refused { IfErr result
            (IsRefusedFor (record { start = start.items; events = events.items })) }
        ensures accepted { IsHistory (record { start = start.items; events = events.items })
            → IfErr result (λ e. e ≡ faults.Memory) }
    {
        test_start(&start)?;
        test_events(&events)?;
        Ok(History::with_calls(alloc, start, events)?)
    }

    /// Makes the history of pairs and events that are known to be one. It takes time in proportion
    /// to the events, for a fixed number of processes.
    pub fn with_calls(
        alloc: Global,
        start: Vec<(u64, u64)>,
        events: Vec<Event>,
    ) -> Result<History, Memory>
        requires { IsHistory (record { start = start.items; events = events.items }) }
        ensures { IfOk result (λ h. h ≡ record { start = start.items; events = events.items }) }
    {
        let calls = operations_of(alloc, &events)?;
        Ok(History {
            start,
            events,
            calls,
        })
    }

    /// Returns the pairs of a key and a value that the map holds at the start, by rising key.
    pub fn start(&self) -> &[(u64, u64)]
        ensures start { result.now ≡ self.now.start }
        ensures history { IsHistory self.now }
    {
        &self.start
    }

    /// Returns the events, in their order.
    pub fn events(&self) -> &[Event]
        ensures events { result.now ≡ self.now.events }
        ensures history { IsHistory self.now }
    {
        &self.events
    }

    /// Returns the calls by number: call i is the i-th invocation, from 0.
    pub fn calls(&self) -> &[Operation]
        ensures calls { result.now ≡ operations self.now.events }
        ensures history { IsHistory self.now }
    {
        &self.calls
    }
}

ghost use Rattle.events.specs.Histories.{AreHistoryEvents};
ghost use Rattle.events.specs.HistoryFaults.{IsFirstEventFault};

/// Tests whether the events are those of a history, and returns their first fault if they are not.
fn test_events(events: &[Event]) -> Result<(), HistoryFault>
    ensures ok { OnOk result (AreHistoryEvents events.now) }
    ensures first { IfErr result (IsFirstEventFault events.now) }
{
    let mut kept = OpenCalls::new();
    for (place, event) in events.iter().enumerate() {
        kept.take(place, event)?;
    }
    Ok(())
}
