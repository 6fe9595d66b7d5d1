// A stream, as far as it was followed, and what each line changes.
ghost use Rattle.std.specs.Prelude.{◌≡◌, ℕ, ◌+◌, ◌<◌, List, [], ◌∷◌, ◌++◌, length, Option, IfOk, IfErr};
ghost use Rattle.events.specs.declared.event.Event.TheVariants as events;
ghost use Rattle.events.specs.HistoryView.{HistoryView, with_event};
ghost use Rattle.events.specs.Starts.{KeysRise};
ghost use Rattle.stream_text.specs.Lines.{as_event, SpellsEvent, SpellsStart};
ghost use Rattle.cli_follow.specs.EventLines.{event_line};
ghost use Rattle.cli_follow.specs.Followed.{FollowsStream, IsFollowed};
ghost use Rattle.cli_follow.specs.Outcomes.{IsStreamOutcome};
ghost use Rattle.cli_follow.specs.Reading.{AreLinesOf};
ghost use Rattle.cli_follow.specs.Stops.{IsStop};
ghost use Rattle.cli_follow.specs.StreamTexts.{BeginsWith};

use crate::refusals::{refused_first, refused_line};
use crate::reports::yes_outcome;
use crate::stops::{Stop, copy_of, stop_outcome, values_outcome};
use cli_outcome::CommandOutcome;
use events::{Call, Memory, Pairs, Reply};
use follow_monitor::{Answered, FollowFault, Monitor};
use history_text::TextVersion;
use std::alloc::Global;
use stream_text::{FirstLine, StreamEvent, read_event_line, read_first_line};

/// A stream, as far as it was followed: its monitor, its version and the number of open calls.
/// `overlap` is the number of other calls that were open at each invocation, added up.
#[derive(Drop)]
pub struct Followed {
    pub monitor: Monitor,
    pub version: TextVersion,
    pub pending: u64,
    pub overlap: u64,
}

impl Followed {
    /// Returns a stream before its first line.
    pub fn new(alloc: Global) -> Result<Followed, Memory>
        ensures { IfOk result (IsFollowed []) }
    {
        let monitor = Monitor::new(alloc, &[])?;
        Ok(Followed {
            monitor,
            version: TextVersion::One,
            pending: 0,
            overlap: 0,
        })
    }

    /// Returns a stream after a first line with these starting pairs.
    fn from_start(
        alloc: Global,
        version: TextVersion,
        start: &Pairs,
    ) -> Result<Followed, CommandOutcome>
        requires { KeysRise start.now }
        ensures taken { (line : List ℕ) → SpellsStart version line start.now
            → IfOk result (IsFollowed (line ∷ [])) }
        ensures stopped { (known : Option (List ℕ)) (budget : ℕ)
            → IfErr result (IsStreamOutcome budget known) }
    {
        let Ok(monitor) = Monitor::new(alloc, start.as_slice()) else {
            return Err(CommandOutcome::Memory);
        };
        Ok(Followed {
            monitor,
            version,
            pending: 0,
            overlap: 0,
        })
    }

    /// Takes the next line. The number of lines before it is `before`.
    pub fn take_line(
        self,
        alloc: Global,
        before: u64,
        line: &[u8],
        budget: u32,
    ) -> Result<Followed, CommandOutcome>
        requires { before < u64.MAX }
        ensures taken { (read : List (List ℕ)) → length read ≡ before → IsFollowed read self
            → IfOk result (IsFollowed (read ++ line.now ∷ [])) }
        ensures stopped { (known : Option (List ℕ)) (read : List (List ℕ)) → length read ≡ before
            → IsFollowed read self
            → BeginsWith known (read ++ line.now ∷ []) → IfErr result (IsStreamOutcome budget known) }
    {
        if before == 0 {
            return self.take_first(alloc, line, budget);
        }
        match read_event_line(alloc, self.version, line) {
            Ok(event) => self.take_spelled(alloc, before + 1, line, event, budget),
            Err(fault) => Err(refused_line(alloc, before + 1, line, fault)),
        }
    }

    /// Takes the first line.
    fn take_first(self, alloc: Global, line: &[u8], budget: u32) -> Result<Followed, CommandOutcome>
        ensures taken { IsFollowed [] self → IfOk result (IsFollowed (line.now ∷ [])) }
        ensures stopped { (known : Option (List ℕ)) → IsFollowed [] self
            → BeginsWith known (line.now ∷ [])
            → IfErr result (IsStreamOutcome budget known) }
    {
        match read_first_line(alloc, line) {
            Ok(FirstLine::Event(event)) => self.take_spelled(alloc, 1, line, event, budget),
            Ok(FirstLine::Start { version, pairs }) => {
                Followed::from_start(alloc, version, &pairs)
            }
            Err(fault) => Err(refused_first(alloc, line, fault)),
        }
    }

    /// Takes the event that this line spells. The line has this number.
    fn take_spelled(
        self,
        alloc: Global,
        number: u64,
        line: &[u8],
        event: StreamEvent,
        budget: u32,
    ) -> Result<Followed, CommandOutcome>
        ensures taken { (read : List (List ℕ)) → IsFollowed read self
            → SpellsEvent self.version line.now (as_event event)
            → IfOk result (IsFollowed (read ++ line.now ∷ [])) }
        ensures stopped { (known : Option (List ℕ)) (read : List (List ℕ))
            → length read + 1 ≡ number → IsFollowed read self
            → SpellsEvent self.version line.now (as_event event)
            → BeginsWith known (read ++ line.now ∷ [])
            → IfErr result (IsStreamOutcome budget known) }
    {
        match self.take_event(alloc, event, budget) {
            Ok(next) => Ok(next),
            Err(stop) => Err(stop_outcome(alloc, number, line, &stop)),
        }
    }

    /// Takes an event that is given by its values, as its line (`event_line`). The line has this
    /// number, and is written only if the stream ends at it.
    pub fn take_values(
        self,
        alloc: Global,
        number: u64,
        event: &StreamEvent,
        budget: u32,
    ) -> Result<Followed, CommandOutcome>
        ensures taken { (read : List (List ℕ)) → IsFollowed read self
            → SpellsEvent self.version (event_line (as_event event.now)) (as_event event.now)
            → IfOk result (IsFollowed (read ++ event_line (as_event event.now) ∷ [])) }
        ensures stopped { (known : Option (List ℕ)) (read : List (List ℕ))
            → length read + 1 ≡ number → IsFollowed read self
            → SpellsEvent self.version (event_line (as_event event.now)) (as_event event.now)
            → BeginsWith known (read ++ event_line (as_event event.now) ∷ [])
            → IfErr result (IsStreamOutcome budget known) }
    {
        let Ok(own) = copy_of(alloc, event) else {
            return Err(CommandOutcome::Memory);
        };
        match self.take_event(alloc, own, budget) {
            Ok(next) => Ok(next),
            Err(stop) => Err(values_outcome(alloc, number, event, &stop)),
        }
    }

    /// Takes an event.
    fn take_event(self, alloc: Global, event: StreamEvent, budget: u32) -> Result<Followed, Stop>
        ensures version { IfOk result (λ next. next.version ≡ self.version) }
        ensures taken { (stream : HistoryView) → FollowsStream stream self
            → IfOk result (FollowsStream (with_event stream (as_event event))) }
        ensures stopped { (stream : HistoryView) → FollowsStream stream self
            → IfErr result (IsStop stream budget (as_event event)) }
    {
        match event {
            StreamEvent::Invoke { process, call } => self.begin_call(alloc, process, call),
            StreamEvent::Answer { process, reply } => {
                self.take_answer(alloc, process, reply, budget)
            }
        }
    }

    /// Takes an invocation.
    fn begin_call(self, alloc: Global, process: u16, call: Call) -> Result<Followed, Stop>
        ensures version { IfOk result (λ next. next.version ≡ self.version) }
        ensures taken { (stream : HistoryView) → FollowsStream stream self
            → IfOk result (FollowsStream (with_event stream (events.Invoke process call))) }
        ensures stopped { (stream : HistoryView) (budget : ℕ) → FollowsStream stream self
            → IfErr result (IsStop stream budget (events.Invoke process call)) }
    {
        let version = self.version;
        let (pending, overlap) = (self.pending, self.overlap);
        match self.monitor.invoke(alloc, process, call) {
            Ok(monitor) => Ok(Followed {
                monitor,
                version,
                pending: pending.saturating_add(1),
                overlap: overlap.saturating_add(pending),
            }),
            Err(fault) => Err(Stop::Refused(fault)),
        }
    }

    /// Takes an answer, and judges it.
    fn take_answer(
        self,
        alloc: Global,
        process: u16,
        reply: Reply,
        budget: u32,
    ) -> Result<Followed, Stop>
        ensures version { IfOk result (λ next. next.version ≡ self.version) }
        ensures taken { (stream : HistoryView) → FollowsStream stream self
            → IfOk result (FollowsStream (with_event stream (events.Answer process reply))) }
        ensures stopped { (stream : HistoryView) → FollowsStream stream self
            → IfErr result (IsStop stream budget (events.Answer process reply)) }
    {
        let version = self.version;
        let (pending, overlap) = (self.pending, self.overlap);
        match self.monitor.answer(alloc, process, reply, budget) {
            Ok(Answered::Going(monitor)) => Ok(Followed {
                monitor,
                version,
                pending: pending.saturating_sub(1),
                overlap,
            }),
            Ok(Answered::Lost(loss)) => Err(Stop::Lost(loss)),
            Ok(Answered::Spent(loss)) => Err(Stop::Spent(loss)),
            Ok(Answered::Refused(_, fault)) => Err(Stop::Refused(fault)),
            Err(_) => Err(Stop::Refused(FollowFault::Memory)),
        }
    }

    /// Returns the outcome if no more lines come.
    pub fn finish(&self, alloc: Global) -> CommandOutcome
        ensures { (known : Option (List ℕ)) (read : List (List ℕ)) (budget : ℕ)
            → IsFollowed read self.now → AreLinesOf known read
            → IsStreamOutcome budget known result }
    {
        yes_outcome(alloc, self.monitor.calls(), self.overlap)
    }
}
