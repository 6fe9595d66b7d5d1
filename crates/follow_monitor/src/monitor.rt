// The monitor of a stream.
ghost use Rattle.std.specs.Prelude.{◌≡◌, ℕ, ◌<◌, ◌≤◌, ◌++◌, ◌∷◌, [], List, length, None, Some, IfOk, IfErr};
ghost use Rattle.events.specs.declared.event.Event.{Event};
ghost use Rattle.events.specs.declared.event.Event.TheVariants.{Invoke};
ghost use Rattle.events.specs.Keys.{low_key, high_key};
ghost use Rattle.events.specs.Operations.{operations};
ghost use Rattle.map_object.specs.MapObject.{IsRising, Contents};
ghost use Rattle.follow_monitor.specs.Faults.{answer_fault, event_limit, invocation_fault, shown};
ghost use Rattle.follow_monitor.specs.MonitorView.{known_call};
ghost use Rattle.follow_monitor.specs.Following.{IsFollowing};
ghost use Rattle.follow_monitor.specs.LossAt.{IsLossAt};
ghost use Rattle.follow_monitor.specs.Outcomes.{IsAnswered};

use crate::all_puts::{all_puts, note_answer};
use crate::answered::Answered;
use crate::answering::{Judged, answer_parts};
use crate::fault::FollowFault;
use crate::open_calls::{OpenCall, open_call};
use crate::prefix_laws::{invocations_keep_orders, prefixes_have_orders};
use circular_buffer::HeapCircularBuffer;
use events::{Call, Memory, Reply};
use follow_laws::{kept_parts_decide, kept_pasts_are_reached, orders_are_keyed_orders};
use follow_parts::{EndedPart, Parts};
use follow_violations::{Put, Violation};
use std::alloc::Global;
use std::collections::BTreeMap;
use std::marker::Model;
use std::mem::replace;

/// How many of the last puts that were answered are known.
const PUT_LIMIT: usize = 1 << 16;

/// How many events are taken at most.
const EVENT_LIMIT: usize = (1 << 44) - 2;

/// Follows a stream of events. It is as small as a pointer, since it is passed on by value.
#[derive(Drop)]
pub struct Monitor {
    kept: Box<Kept>,
}

/// What is left of the calls so far, the open calls by process, the last puts that were answered, and
/// how many calls there were. The parts are missing only while they take an event.
#[derive(Drop)]
pub(crate) struct Kept {
    parts: Option<Parts>,
    open_calls: BTreeMap<u16, OpenCall>,
    puts: HeapCircularBuffer<Put>,
    calls: usize,
}

impl Model for Monitor {
    ghost use Rattle.std.specs.Prelude.{◌≡◌, IsSome};
    ghost use Rattle.follow_monitor.specs.MonitorView.{MonitorView, parts_of};
    ghost use Rattle.follow_monitor.specs.Following.{FollowsSome};
    ghost use Rattle.follow_monitor.specs.Puts.{put_limit};

    ghost Value = { MonitorView };

    ghost view = { λ m. record {
      parts = parts_of m.kept.value.parts;
      open_calls = m.kept.value.open_calls.entries;
      puts = m.kept.value.puts.items;
      calls = m.kept.value.calls;
    } };

    ghost invariant = { λ m. FollowsSome (record {
      parts = parts_of m.kept.value.parts;
      open_calls = m.kept.value.open_calls.entries;
      puts = m.kept.value.puts.items;
      calls = m.kept.value.calls;
    }) × (m.kept.value.puts.capacity ≡ put_limit) × IsSome m.kept.value.parts };
}

impl Monitor {
    /// Before any event, at pairs by rising key, which are copied.
    pub fn new(alloc: Global, start: &[(u64, u64)]) -> Result<Monitor, Memory>
        requires { IsRising start.now }
        ensures { IfOk result (IsFollowing start.now []) }
    {
        let parts = Parts::new(alloc, start)?;
        let puts = HeapCircularBuffer::with_capacity(alloc, PUT_LIMIT)?;
        let open_calls = BTreeMap::new(alloc);
        let kept = Kept {
            parts: Some(parts),
            open_calls,
            puts,
            calls: 0,
        };
        let boxed = Box::new(alloc, kept)?;
        Ok(Monitor { kept: boxed })
    }

    /// How many calls were invoked.
    pub fn calls(&self) -> usize
        ensures { (start : Contents) (events : List Event) → IsFollowing start events self.now
            → result ≡ length (operations events) }
    {
        self.kept.calls
    }

    /// How many events there were.
    fn now(&self) -> usize
        ensures { result ≡ self.now.parts.now }
    {
        match &self.kept.parts {
            Some(parts) => parts.now(),
            None => 0,
        }
    }

    /// The open call of a process.
    fn known(&self, process: u16) -> Option<OpenCall>
        ensures { result ≡ known_call self.now.open_calls process }
    {
        open_call(&self.kept.open_calls, process)
    }

    /// Takes an invocation. The fault is the first of these: `Shape` if the call's first key is
    /// above its last, `NotWellFormed` if the process has an open call, `TooMany` after 2^44 - 2
    /// events, or `Memory`. After a fault the monitor is lost.
    pub fn invoke(self, alloc: Global, process: u16, call: Call) -> Result<Monitor, FollowFault>
        ensures follows { (start : Contents) (events : List Event) → IsFollowing start events self
            → IfOk result (IsFollowing start (events ++ Invoke process call ∷ [])) }
        ensures accepted { (start : Contents) (events : List Event) → IsFollowing start events self
            → IfOk result (λ _. invocation_fault events process call ≡ None) }
        ensures refused { (start : Contents) (events : List Event) → IsFollowing start events self
            → IfErr result (λ e. invocation_fault events process call ≡ shown e) }
    {
        if call.high_key() < call.low_key() {
            return Err(FollowFault::Shape);
        }
        if self.known(process).is_some() {
            return Err(FollowFault::NotWellFormed);
        }
        if self.now() >= EVENT_LIMIT {
            return Err(FollowFault::TooMany);
        }
        let next = self.begin(alloc, process, call)?;
        Ok(next)
    }

    /// Takes a call that may be invoked.
    fn begin(self, alloc: Global, process: u16, call: Call) -> Result<Monitor, Memory>
        requires room { self.parts.now < event_limit }
        requires idle { known_call self.open_calls process ≡ None }
        requires shaped { low_key call ≤ high_key call }
        ensures { (start : Contents) (events : List Event) → IsFollowing start events self
            → IfOk result (IsFollowing start (events ++ Invoke process call ∷ [])) }
    {
        invocations_keep_orders();
        let Monitor { kept: mut boxed } = self;
        let kept = &mut *boxed;
        let Some(parts) = replace(&mut kept.parts, None) else {
            unreachable!();
        };
        let known = OpenCall {
            event: parts.now(),
            number: kept.calls,
            call,
        };
        kept.open_calls.insert(process, known)?;
        let parts = parts.begin(alloc, call)?;
        let _none = replace(&mut kept.parts, Some(parts));
        kept.calls = kept.calls.saturating_add(1);
        Ok(Monitor { kept: boxed })
    }

    /// Takes the answer of the open call of a process, and judges it. An answer of a process that
    /// has no open call is refused (`NotWellFormed`), and one after 2^44 - 2 events (`TooMany`). On
    /// `Memory` the monitor is lost.
    pub fn answer(
        self,
        alloc: Global,
        process: u16,
        reply: Reply,
        budget: u32,
    ) -> Result<Answered, Memory>
        ensures { (start : Contents) (events : List Event) → IsFollowing start events self
            → IfOk result (IsAnswered start events self process reply budget) }
    {
        let Some(known) = self.known(process) else {
            return Ok(Answered::Refused(self, FollowFault::NotWellFormed));
        };
        if self.now() >= EVENT_LIMIT {
            return Ok(Answered::Refused(self, FollowFault::TooMany));
        }
        self.judge(alloc, process, known, reply, budget)
    }

    /// Takes the answer of an open call of a process, and judges it.
    fn judge(
        self,
        alloc: Global,
        process: u16,
        known: OpenCall,
        reply: Reply,
        budget: u32,
    ) -> Result<Answered, Memory>
        requires room { self.parts.now < event_limit }
        requires known { known_call self.open_calls process ≡ Some known }
        ensures { (start : Contents) (events : List Event) → IsFollowing start events self
            → IfOk result (IsAnswered start events self process reply budget) }
    {
        prefixes_have_orders();
        kept_parts_decide();
        kept_pasts_are_reached();
        orders_are_keyed_orders();
        let Monitor { kept: mut boxed } = self;
        let kept = &mut *boxed;
        let Some(parts) = replace(&mut kept.parts, None) else {
            unreachable!();
        };
        let event = parts.now();
        kept.open_calls.remove(&process);
        note_answer(&mut kept.puts, &known.call, known.event, &reply);
        match answer_parts(alloc, parts, known, reply, budget)? {
            Judged::Going(parts) => {
                let _none = replace(&mut kept.parts, Some(parts));
                Ok(Answered::Going(Monitor { kept: boxed }))
            }
            Judged::Lost(part) => {
                let loss = loss_at(alloc, event, &known, part, &kept.puts, &kept.open_calls)?;
                Ok(Answered::Lost(loss))
            }
            Judged::Spent(part) => {
                let loss = loss_at(alloc, event, &known, part, &kept.puts, &kept.open_calls)?;
                Ok(Answered::Spent(loss))
            }
        }
    }
}

/// A part that does not go on at an event, which answers an open call, and the puts that are known
/// then.
fn loss_at(
    alloc: Global,
    event: usize,
    known: &OpenCall,
    part: EndedPart,
    puts: &HeapCircularBuffer<Put>,
    open_calls: &BTreeMap<u16, OpenCall>,
) -> Result<Violation, Memory>
    ensures { IfOk result (IsLossAt event known.now part puts.now.items open_calls.now.entries) }
{
    Ok(Violation {
        event,
        number: known.number,
        call: known.call,
        part,
        puts: all_puts(alloc, puts, open_calls)?,
    })
}
