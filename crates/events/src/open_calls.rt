// Which processes have an open call. Events are tested one by one, each against those before it.
ghost use Rattle.std.specs.Prelude.{◌≡◌, ◌<◌, ◌⊎◌, ◌++◌, ◌∷◌, [], List, length, slice_index_or, OnOk, IfErr, Some, false};
ghost use Rattle.events.specs.declared.event.Event.{Event};
ghost use Rattle.events.specs.Events.{process_of, is_invocation};
ghost use Rattle.events.specs.Histories.{has_range, AreHistoryEvents};
ghost use Rattle.events.specs.HistoryFaults.{event_fault, fault_after};

use crate::event::{Call, Event};
use crate::fault::HistoryFault;
use crate::{MAX_CALLS, MAX_PAIRS, PROCESSES};

/// What the events so far say of the next one: which processes have an open call, and how many
/// calls were invoked.
#[derive(Clone, Copy)]
pub struct OpenCalls {
    pub has_open: [bool; 64],
    pub calls: usize,
}

impl OpenCalls {
    ghost use Rattle.events.specs.OpenCalls.{AreOpenAfter};

    /// Returns the state before any event.
    pub fn new() -> OpenCalls
        ensures { AreOpenAfter [] result }
    {
        OpenCalls {
            has_open: [false; 64],
            calls: 0,
        }
    }

    /// Tests the event at a place, and notes it if it has no fault.
    pub fn take(&mut self, place: usize, event: &Event) -> Result<(), HistoryFault>
        ensures history { (before : List Event) → AreOpenAfter before self.old
            → length before ≡ place → AreHistoryEvents before
            → OnOk result (AreHistoryEvents (before ++ event.now ∷ [])) }
        ensures after { (before : List Event) → AreOpenAfter before self.old
            → OnOk result (AreOpenAfter (before ++ event.now ∷ []) self.new) }
        ensures fault { (before : List Event) → AreOpenAfter before self.old
            → length before ≡ place → IfErr result (λ e. fault_after before event.now ≡ Some e) }
    {
        if let Some(fault) = event_fault(place, self.calls, self.has_open(event), event) {
            return Err(fault);
        }
        self.note(event);
        Ok(())
    }

    /// Returns whether the event's process has an open call.
    fn has_open(&self, event: &Event) -> bool
        ensures { result ≡ slice_index_or self.now.has_open (process_of event.now) false }
    {
        let process = event.process() as usize;
        process < 64 && self.has_open[process]
    }

    /// Notes an event in which nothing is wrong.
    fn note(&mut self, event: &Event)
        requires known { process_of event.now < PROCESSES }
        requires room { self.old.calls < MAX_CALLS ⊎ (is_invocation event.now ≡ false) }
        ensures { (before : List Event) → AreOpenAfter before self.old
            → AreOpenAfter (before ++ event.now ∷ []) self.new }
    {
        let process = event.process() as usize;
        match event {
            Event::Invoke { .. } => {
                self.has_open[process] = true;
                self.calls += 1;
            }
            Event::Answer { .. } => self.has_open[process] = false,
        }
    }
}

/// Returns the fault of an event at a place, after a number of calls: first of its shape, then of a
/// limit, then of its turn.
fn event_fault(place: usize, calls: usize, has_open: bool, event: &Event) -> Option<HistoryFault>
    ensures { result ≡ event_fault place calls has_open event.now }
{
    match event {
        Event::Invoke { process, call } => {
            if !has_range(call) {
                Some(HistoryFault::Shape { event: place })
            } else if *process >= PROCESSES || calls >= MAX_CALLS {
                Some(HistoryFault::TooMany)
            } else if has_open {
                Some(HistoryFault::NotWellFormed { event: place })
            } else {
                None
            }
        }
        Event::Answer { process, reply } => {
            if *process >= PROCESSES || reply.pair_count() > MAX_PAIRS {
                Some(HistoryFault::TooMany)
            } else if !has_open {
                Some(HistoryFault::NotWellFormed { event: place })
            } else {
                None
            }
        }
    }
}

fn has_range(call: &Call) -> bool
    ensures { result ≡ has_range call.now }
{
    match call {
        Call::Scan(low, high) => *low <= *high,
        _ => true,
    }
}
