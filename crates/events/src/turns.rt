// Histories that grow by one event at a time.
ghost use Rattle.std.specs.Prelude.{◌≡◌, [], IfOk, IfErr, OnOk, OnErr};
ghost use Rattle.events.specs.HistoryView.{HistoryView, with_no_start, with_event, with_pair};

use crate::event::Event;
use crate::fault::HistoryFault;
use crate::histories::History;
use crate::memory::Memory;
use crate::open_calls::OpenCalls;
use crate::starts::test_pair;
use std::alloc::Global;
use std::marker::Model;

/// The starting pairs and the events of a history, taken one by one. Each is tested against those
/// before it. Contracts see both lists.
#[derive(Drop)]
pub struct HistoryBuilder {
    start: Vec<(u64, u64)>,
    events: Vec<Event>,
    kept: OpenCalls,
}

impl Model for HistoryBuilder {
    ghost use Rattle.events.specs.HistoryView.{HistoryView};
    ghost use Rattle.events.specs.Histories.{IsHistory};
    ghost use Rattle.events.specs.OpenCalls.{AreOpenAfter};

    ghost Value = { HistoryView };

    ghost view = { λ t. record { start = t.start.items; events = t.events.items } };

    ghost invariant = { λ t. IsHistory (record { start = t.start.items; events = t.events.items }) × AreOpenAfter t.events.items t.kept };
}

impl HistoryBuilder {
    ghost use Rattle.events.specs.declared.fault.HistoryFault.TheVariants as faults;
    ghost use Rattle.events.specs.Starts.{IsStart};
    ghost use Rattle.events.specs.Histories.{AreHistoryEvents, IsHistory};
    ghost use Rattle.events.specs.HistoryFaults.{IsRefusedAfter, IsPairRefusedAfter};
    ghost use Rattle.std.specs.Prelude.{◌++◌, ◌∷◌};

    /// Returns the state with no pair and no event yet.
    pub fn new(alloc: Global) -> HistoryBuilder
        ensures none { result ≡ with_no_start [] }
        ensures history { IsHistory result }
    {
        HistoryBuilder {
            start: Vec::new(alloc),
            events: Vec::new(alloc),
            kept: OpenCalls::new(),
        }
    }

    /// Takes one more starting pair, in constant time. Otherwise nothing changes, and it returns
    /// the fault of the pair at this place: `TooMany`, `Start` if its key is not above the key
    /// before it, or `Memory`.
    pub fn take_pair(&mut self, pair: (u64, u64)) -> Result<(), HistoryFault>
        ensures taken { OnOk result (self.new ≡ with_pair self.old pair) }
        ensures history { IsHistory self.new }
        ensures refused { IfErr result (IsPairRefusedAfter self.old.start pair) }
        ensures accepted { IsStart (self.old.start ++ pair ∷ [])
            → IfErr result (λ e. e ≡ faults.Memory) }
        ensures unchanged { OnErr result (self.new ≡ self.old) }
    {
        test_pair(&self.start, pair)?;
        self.start.push(pair)?;
        Ok(())
    }

    /// Takes one more event, in constant time. Otherwise nothing changes, and it returns the fault
    /// of the event at this place: `Shape` for a scan whose first key is above its last, `TooMany`,
    /// `NotWellFormed`, or `Memory`.
    pub fn take(&mut self, event: Event) -> Result<(), HistoryFault>
        ensures taken { OnOk result (self.new ≡ with_event self.old event) }
        ensures history { IsHistory self.new }
        ensures refused { IfErr result (IsRefusedAfter self.old.events event) }
        ensures accepted { AreHistoryEvents (self.old.events ++ event ∷ [])
            → IfErr result (λ e. e ≡ faults.Memory) }
        ensures unchanged { OnErr result (self.new ≡ self.old) }
    {
        let mut kept = self.kept;
        kept.take(self.events.len(), &event)?;
        self.events.push(event)?;
        self.kept = kept;
        Ok(())
    }

    /// Returns the events so far.
    pub fn events(&self) -> &[Event]
        ensures events { result.now ≡ self.now.events }
        ensures history { IsHistory self.now }
    {
        &self.events
    }

    /// Returns the history of the pairs and events so far. It takes time in proportion to the
    /// events, for a fixed number of processes.
    pub fn history(self, alloc: Global) -> Result<History, Memory>
        ensures { IfOk result (λ h. h ≡ self) }
    {
        History::with_calls(alloc, self.start, self.events)
    }
}
