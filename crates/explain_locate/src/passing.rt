// The pass of a history's events through the monitor.
ghost use Rattle.std.specs.Prelude.{◌≡◌, ◌+◌, ◌<◌, length, take, IfOk, None, Some, slice_get};
ghost use Rattle.events.specs.declared.event.Event.TheVariants as events;
ghost use Rattle.events.specs.Histories.{IsHistory};
ghost use Rattle.explain_locate.specs.Bisections.{IsLeftOpen};
ghost use Rattle.explain_locate.specs.Locations.{IsLocated};
ghost use Rattle.explain_locate.specs.Passing.{IsPassed};
ghost use Rattle.follow_monitor.specs.Faults.{shown};
ghost use Rattle.follow_monitor.specs.Following.{IsFollowing};

use crate::location::Location;
use events::{Call, Event, History, Memory, Reply};
use follow_monitor::{Answered, FollowFault, Monitor, histories_have_few_events};
use std::alloc::Global;

/// What an event makes of the pass.
#[derive(Drop)]
pub(crate) enum Passed {
    /// It goes on.
    Going(Monitor),
    /// It ends: this is where the history goes wrong, as far as the budget goes.
    Ended(Location),
}

/// Finds where a history goes wrong, if the judge's verdicts leave it open. The events pass through
/// the monitor of streams one by one. The pass ends at the first answer at which the monitor finds
/// that there is no order any more, or does not find out. Its searches reach at most `budget`
/// configurations each.
pub(crate) fn follow(alloc: Global, history: &History, budget: u32) -> Result<Location, Memory>
    requires { IsLeftOpen budget history.now }
    ensures { IfOk result (IsLocated budget history.now) }
{
    let mut monitor = Monitor::new(alloc, history.start())?;
    for place in 0..history.events().len() {
        match pass(alloc, monitor, history, place, budget)? {
            Passed::Going(next) => monitor = next,
            Passed::Ended(location) => return Ok(location),
        }
    }
    Ok(Location::Yes)
}

/// Passes the event at this place to a monitor that has taken those before it.
fn pass(
    alloc: Global,
    monitor: Monitor,
    history: &History,
    place: usize,
    budget: u32,
) -> Result<Passed, Memory>
    requires open_to_judge { IsLeftOpen budget history.now }
    requires place { place < length history.now.events }
    requires follows { IsFollowing history.now.start (take place history.now.events) monitor }
    ensures { IfOk result (IsPassed budget history.now place) }
{
    match &history.events()[place] {
        Event::Invoke { process, call } => {
            let next = pass_invocation(alloc, monitor, history, place, *process, *call)?;
            Ok(Passed::Going(next))
        }
        Event::Answer { process, reply } => {
            let reply = reply.copy(alloc)?;
            pass_answer(alloc, monitor, history, place, *process, reply, budget)
        }
    }
}

/// Passes an invocation. The monitor refuses none that a history has.
fn pass_invocation(
    alloc: Global,
    monitor: Monitor,
    history: &History,
    place: usize,
    process: u8,
    call: Call,
) -> Result<Monitor, Memory>
    requires follows { IsFollowing history.now.start (take place history.now.events) monitor }
    requires history { IsHistory history.now }
    requires event { slice_get history.now.events place ≡ Some (events.Invoke process call) }
    ensures { IfOk result (IsFollowing history.now.start (take (place + 1) history.now.events)) }
{
    histories_have_few_events();
    match monitor.invoke(alloc, process as u16, call) {
        Ok(next) => Ok(next),
        Err(fault) => Err(memory_of(fault)),
    }
}

/// The fault of an invocation that only a lack of memory can stop.
fn memory_of(fault: FollowFault) -> Memory
    requires { shown fault ≡ None }
{
    match fault {
        FollowFault::Memory => Memory,
        FollowFault::Shape | FollowFault::NotWellFormed | FollowFault::TooMany => unreachable!(),
    }
}

/// Passes an answer. The monitor refuses none that a history has.
fn pass_answer(
    alloc: Global,
    monitor: Monitor,
    history: &History,
    place: usize,
    process: u8,
    reply: Reply,
    budget: u32,
) -> Result<Passed, Memory>
    requires open_to_judge { IsLeftOpen budget history.now }
    requires follows { IsFollowing history.now.start (take place history.now.events) monitor }
    requires history { IsHistory history.now }
    requires event { slice_get history.now.events place ≡ Some (events.Answer process reply) }
    ensures { IfOk result (IsPassed budget history.now place) }
{
    histories_have_few_events();
    match monitor.answer(alloc, process as u16, reply, budget)? {
        Answered::Going(next) => Ok(Passed::Going(next)),
        Answered::Lost(loss) => Ok(Passed::Ended(Location::Lost(loss))),
        Answered::Spent(loss) => Ok(Passed::Ended(Location::Undecided {
            event: loss.event,
            number: loss.number,
        })),
        Answered::Refused(..) => unreachable!(),
    }
}
