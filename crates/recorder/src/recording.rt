// Events are recorded one after another, each with a stamp of its own.
ghost use Rattle.std.specs.Prelude.{◌≡◌, ◌+◌, ◌≤◌, cond, not, None, IsTrue, OnOk, OnErr, IfErr};
ghost use Rattle.events.specs.declared.event.Event.TheVariants.{Invoke, Answer};
ghost use Rattle.events.specs.Events.{process_of, is_invocation};
ghost use Rattle.events.specs.Histories.{has_range, pair_count, call_count};
ghost use Rattle.events.specs.HistoryFaults.{fault_after};
ghost use Rattle.recorder.specs.declared.fault.RecorderFault.TheVariants as faults;
ghost use Rattle.recorder.specs.Passes.{process_number, calls_of, events_by, source_of, view_of, is_waiting};
ghost use Rattle.recorder.specs.Passes.{invoke_fault, answer_fault, IsRefusedFor, HasRecorded};
ghost use Rattle.recorder.specs.Recorders.{source, IsPassOf};

use crate::fault::RecorderFault;
use crate::pass::Pass;
use crate::recorders::Recorder;
use events::{Call, Event, MAX_PAIRS, Reply};

impl Recorder {
    /// Notes that the pass's process begins a call, before it does anything of the call. Memory for
    /// the event is allocated before its stamp is drawn, so a refused call records nothing. It is
    /// one fetch-and-add.
    pub fn invoke(&self, pass: &mut Pass, call: Call) -> Result<(), RecorderFault>
        requires own { IsPassOf self.now pass.old }
        requires range { IsTrue (has_range call) }
        ensures own { IsPassOf self.now pass.new }
        ensures recorded { OnOk result (HasRecorded pass.old (Invoke (process_number pass.old) call) pass.new) }
        ensures sound { OnOk result (invoke_fault pass.old ≡ None) }
        ensures refused { IfErr result (IsRefusedFor (invoke_fault pass.old)) }
        ensures unchanged { OnErr result (view_of pass.new ≡ view_of pass.old) }
    {
        if pass.has_open {
            return Err(RecorderFault::OutOfTurn);
        }
        if pass.begun >= pass.calls {
            return Err(RecorderFault::TooMany);
        }
        let process = pass.process;
        self.record(pass, Event::Invoke { process, call })
    }

    /// Notes that the open call of the pass's process was answered, after all that it did. Memory
    /// for the event is allocated before its stamp is drawn, so a refused call records nothing. It
    /// is one fetch-and-add.
    pub fn answer(&self, pass: &mut Pass, reply: Reply) -> Result<(), RecorderFault>
        requires own { IsPassOf self.now pass.old }
        ensures own { IsPassOf self.now pass.new }
        ensures recorded { OnOk result (HasRecorded pass.old (Answer (process_number pass.old) reply) pass.new) }
        ensures sound { OnOk result (answer_fault pass.old reply ≡ None) }
        ensures refused { IfErr result (IsRefusedFor (answer_fault pass.old reply)) }
        ensures unchanged { OnErr result (view_of pass.new ≡ view_of pass.old) }
    {
        if !pass.has_open {
            return Err(RecorderFault::OutOfTurn);
        }
        if reply.pair_count() > MAX_PAIRS {
            return Err(RecorderFault::TooMany);
        }
        let process = pass.process;
        self.record(pass, Event::Answer { process, reply })
    }

    /// Notes an event in which nothing is wrong.
    fn record(&self, pass: &mut Pass, event: Event) -> Result<(), RecorderFault>
        requires source { source_of pass.old ≡ source self.now }
        requires process { process_of event ≡ process_number pass.old }
        requires sound { fault_after (events_by pass.old) event ≡ None }
        requires turn { is_waiting pass.old ≡ not (is_invocation event) }
        requires left { call_count (events_by pass.old) + cond (is_invocation event) 1 0 ≤ calls_of pass.old }
        ensures recorded { OnOk result (HasRecorded pass.old event pass.new) }
        ensures refused { IfErr result (λ f. f ≡ faults.Memory) }
        ensures unchanged { OnErr result (view_of pass.new ≡ view_of pass.old) }
    {
        let begins = is_invocation(&event);
        if let Err(_) = pass.log.reserve(1) {
            return Err(RecorderFault::Memory);
        }
        let stamp = self.tickets.draw(&mut pass.hand);
        if let Err(_) = pass.log.push((stamp, event)) {
            unreachable!()
        }
        pass.begun += u32::from(begins);
        pass.has_open = begins;
        Ok(())
    }
}

/// Returns whether an event is an invocation; otherwise it is a response.
fn is_invocation(event: &Event) -> bool
    ensures { result ≡ is_invocation event.now }
{
    matches!(event, Event::Invoke { .. })
}
