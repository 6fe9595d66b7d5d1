// All passes come together, and their logs become a history.
ghost use Rattle.std.specs.Prelude.{◌≡◌, ◌≢◌, ◌<◌, ◌↔◌, [], length, map, flat_map, sum_by, All, Contains, IsTrue, OnOk, IfOk, IfErr};
ghost use Rattle.events.specs.HistoryView.{with_no_start};
ghost use Rattle.events.specs.Histories.{AreHistoryEvents};
ghost use Rattle.tickets.specs.Hands.{counter, counter_of, drawn_by, share_of};
ghost use Rattle.tickets.specs.Numbers.{EachOnce};
ghost use Rattle.recorder.specs.Passes.{process_number, log_of, source_of, draws_of};
ghost use Rattle.recorder.specs.Recorders.{IsPassOf, HasProcesses, AreAll, all_stamps, history_of, HasOwnEvents};
ghost use Rattle.recorder.specs.Closing.{IsHandedBack, IsOneOfEach, WantsMemory};

use crate::fault::CloseFault;
use crate::pass::Pass;
use crate::recorders::Recorder;
use events::{Event, History, Memory, append_log, history_by_stamp};
use std::alloc::Global;
use tickets::{Hand, Tickets};

impl Recorder {
    /// Closes the recorder, and returns the history of all that was recorded: the events of all
    /// passes, by rising stamp. The passes may come in any order. Open calls are pending. If it
    /// fails, it returns the recorder and the passes. For n events it takes time n log n.
    pub fn close(self, alloc: Global, passes: Vec<Pass>) -> Result<History, CloseFault>
        requires own { All (IsPassOf self) passes.items }
        ensures history { IfOk result (λ h. h ≡ with_no_start (history_of passes.items)) }
        ensures well_formed { OnOk result (AreHistoryEvents (history_of passes.items)) }
        ensures own_events { OnOk result (HasOwnEvents passes.items) }
        ensures stamps { OnOk result (EachOnce (length (all_stamps passes.items)) (all_stamps passes.items)) }
        ensures all { OnOk result (AreAll self passes.items) }
        ensures refused { IfErr result (IsHandedBack self passes.items) }
        ensures whole { IsOneOfEach self passes.items → IfErr result WantsMemory }
    {
        if !self.has_all(&passes) {
            return Err(CloseFault::StillOut(self, passes));
        }
        match self.history(alloc, &passes) {
            Err(_) => Err(CloseFault::Memory(self, passes)),
            Ok(history) => {
                self.join(passes);
                Ok(history)
            }
        }
    }

    /// Returns whether these passes include one of each process, and all draws.
    fn has_all(&self, passes: &[Pass]) -> bool
        requires own { All (IsPassOf self.now) passes.now }
        ensures { IsTrue result ↔ AreAll self.now passes.now }
    {
        // Each pass has the draws of its own calls, and equally many.
        if self.calls_each > 0 && passes.len() != usize::from(self.processes) {
            return false;
        }
        has_processes(passes, self.processes)
    }

    /// Returns the history of the passes, which still have their logs afterwards.
    fn history(&self, alloc: Global, passes: &[Pass]) -> Result<History, Memory>
        requires own { All (IsPassOf self.now) passes.now }
        requires all { AreAll self.now passes.now }
        ensures history { IfOk result (λ h. h ≡ with_no_start (history_of passes.now)) }
        ensures well_formed { AreHistoryEvents (history_of passes.now) }
        ensures own_events { HasOwnEvents passes.now }
    {
        let stamped = all_events(alloc, passes)?;
        history_by_stamp(alloc, Vec::new(alloc), stamped)
    }

    /// Joins all hands again. That shows that the stamps are the numbers below their count.
    fn join(self, passes: Vec<Pass>)
        requires own { All (IsPassOf self) passes.items }
        requires all { AreAll self passes.items }
        ensures { EachOnce (length (all_stamps passes.items)) (all_stamps passes.items) }
    {
        let Recorder {
            tickets,
            processes: _,
            calls_each: _,
        } = self;
        let hand = join_hands(&tickets, passes);
        if let Err(_) = tickets.close(hand) {
            unreachable!()
        }
    }
}

/// Returns the hands of passes, joined into one.
fn join_hands(tickets: &Tickets, passes: Vec<Pass>) -> Hand
    requires some { passes.items ≢ [] }
    requires own { All (λ p. source_of p ≡ counter tickets.now) passes.items }
    ensures own { counter_of result ≡ counter tickets.now }
    ensures drawn { drawn_by result ≡ all_stamps passes.items }
    ensures share { share_of result ≡ sum_by draws_of passes.items }
{
    let mut passes = passes.into_iter();
    let mut hand = match passes.next() {
        Some(first) => first.hand,
        None => unreachable!(),
    };
    for pass in passes {
        tickets.join(&mut hand, pass.hand);
    }
    hand
}

/// Returns the events of all passes with their stamps, pass after pass.
fn all_events(alloc: Global, passes: &[Pass]) -> Result<Vec<(u64, Event)>, Memory>
    ensures { IfOk result (λ all. all.items ≡ flat_map log_of passes.now) }
{
    let mut all = Vec::new(alloc);
    for pass in passes {
        append_log(alloc, &mut all, &pass.log)?;
    }
    Ok(all)
}

/// Returns whether each process below a number has a pass among these.
fn has_processes(passes: &[Pass], processes: u8) -> bool
    ensures { IsTrue result ↔ HasProcesses processes passes.now }
{
    for process in 0..processes {
        if !has_process(passes, process) {
            return false;
        }
    }
    true
}

/// Returns whether a process has a pass among these.
fn has_process(passes: &[Pass], process: u8) -> bool
    ensures { IsTrue result ↔ Contains (map process_number passes.now) process }
{
    for pass in passes {
        if pass.process == process {
            return true;
        }
    }
    false
}
