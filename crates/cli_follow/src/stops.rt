// Why an event is not followed, and the outcome for that.
ghost use Rattle.std.specs.Prelude.{◌≡◌, ℕ, ◌+◌, List, [], ◌∷◌, ◌++◌, length, Option, IfOk};
ghost use Rattle.events.specs.declared.event.Event.{Event};
ghost use Rattle.stream_text.specs.Lines.{as_event, SpellsEvent};
ghost use Rattle.cli_follow.specs.declared.followed.Followed.{Followed};
ghost use Rattle.cli_follow.specs.EventLines.{event_line};
ghost use Rattle.cli_follow.specs.Followed.{IsFollowed};
ghost use Rattle.cli_follow.specs.Outcomes.{IsStreamOutcome};
ghost use Rattle.cli_follow.specs.Stops.{IsStop};
ghost use Rattle.cli_follow.specs.StreamTexts.{BeginsWith};

use crate::event_lines::event_line;
use crate::refusals::refused_event;
use crate::reports::{lost_outcome, spent_outcome};
use cli_outcome::CommandOutcome;
use events::Memory;
use follow_monitor::FollowFault;
use follow_violations::Violation;
use std::alloc::Global;
use stream_text::StreamEvent;

/// Why an event is not followed.
#[derive(Drop)]
pub enum Stop {
    /// It is out of turn, it is an event too many, or memory ran out.
    Refused(FollowFault),
    /// It is an answer at which the events go wrong.
    Lost(Violation),
    /// It is an answer, and it is not known whether the events go wrong at it.
    Spent(Violation),
}

/// Returns the outcome if the event on this line is not followed. The line has this number.
pub(crate) fn stop_outcome(alloc: Global, number: u64, line: &[u8], stop: &Stop) -> CommandOutcome
    ensures { (budget : ℕ) (known : Option (List ℕ)) (read : List (List ℕ)) (f : Followed)
        (e : Event) (followed : IsFollowed read f)
        → length read + 1 ≡ number → SpellsEvent f.version line.now e
        → IsStop followed.stream budget e stop.now
        → BeginsWith known (read ++ line.now ∷ []) → IsStreamOutcome budget known result }
{
    match stop {
        Stop::Refused(fault) => refused_event(alloc, number, line, fault),
        Stop::Lost(loss) => lost_outcome(alloc, loss),
        Stop::Spent(loss) => spent_outcome(alloc, loss),
    }
}

/// Returns the outcome if an event is not followed that is given by its values. It is that of the
/// event's line.
pub(crate) fn values_outcome(
    alloc: Global,
    number: u64,
    event: &StreamEvent,
    stop: &Stop,
) -> CommandOutcome
    ensures { (budget : ℕ) (known : Option (List ℕ)) (read : List (List ℕ)) (f : Followed)
        (followed : IsFollowed read f)
        → length read + 1 ≡ number
        → SpellsEvent f.version (event_line (as_event event.now)) (as_event event.now)
        → IsStop followed.stream budget (as_event event.now) stop.now
        → BeginsWith known (read ++ event_line (as_event event.now) ∷ [])
        → IsStreamOutcome budget known result }
{
    match event_line(alloc, event) {
        Ok(line) => stop_outcome(alloc, number, line.as_bytes(), stop),
        Err(_) => CommandOutcome::Memory,
    }
}

/// Returns a copy of the event.
pub(crate) fn copy_of(alloc: Global, event: &StreamEvent) -> Result<StreamEvent, Memory>
    ensures { IfOk result (λ own. own ≡ event.now) }
{
    match event {
        StreamEvent::Invoke { process, call } => Ok(StreamEvent::Invoke {
            process: *process,
            call: *call,
        }),
        StreamEvent::Answer { process, reply } => Ok(StreamEvent::Answer {
            process: *process,
            reply: reply.copy(alloc)?,
        }),
    }
}
