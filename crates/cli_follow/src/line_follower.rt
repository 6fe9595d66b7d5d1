// A stream that is passed line by line, or event by event: the state after each, and the outcome.
ghost use Rattle.std.specs.Prelude.{◌≡◌, ◌<◌, ℕ, List, [], ◌∷◌, ◌++◌, Option, Some, IfOk, IfSome, IsTrue, string_bytes};
ghost use Rattle.events.specs.declared.event.Event.TheVariants.{Invoke, Answer};
ghost use Rattle.stream_text.specs.Cuts.{lines_of};
ghost use Rattle.stream_text.specs.LineLimits.{number_limit};
ghost use Rattle.stream_text.specs.Lines.{as_event};
ghost use Rattle.cli_follow.specs.EventLines.{event_line, CallHasWords, ReplyHasWords, HasWords, MayStand};
ghost use Rattle.cli_follow.specs.Taken.{HasEnded, HasTaken, MayTake};
ghost use Rattle.cli_follow.specs.Outcomes.{IsStreamOutcome};
ghost use Rattle.cli_follow.specs.Reading.{AreLinesOf};

use crate::event_lines::{call_line, event_line, reply_line};
use crate::followed::Followed;
use crate::reading::MOST_LINES;
use crate::refusals::refused_many;
use cli_outcome::CommandOutcome;
use events::{Call, Memory, Reply};
use history_text::TextVersion;
use std::alloc::{AllocError, Global};
use stream_text::{StreamEvent, first_line_feed};

/// An answer with at most this many pairs has a line that is short enough.
const MOST_PAIRS: usize = 23_000;

/// Processes are numbered from 0. Each number is below this one.
const PROCESSES: u32 = 65_536;

/// Follows a stream that is passed line by line.
#[derive(Drop)]
pub enum LineFollower {
    /// The stream is followed, and has `lines` lines so far. A search reaches at most `budget`
    /// configurations.
    Going {
        followed: Followed,
        lines: u64,
        budget: u32,
    },
    /// The stream has ended with this outcome, which stays. Further lines are ignored.
    Ended(CommandOutcome),
}

impl LineFollower {
    /// Returns a follower that has taken no line.
    pub fn new(alloc: Global, budget: u32) -> Result<LineFollower, Memory>
        ensures { IfOk result (HasTaken budget []) }
    {
        let followed = Followed::new(alloc)?;
        Ok(LineFollower::Going {
            followed,
            lines: 0,
            budget,
        })
    }

    /// Takes the lines of some bytes. A line feed ends each line, but the last one may lack it.
    pub fn take_lines(self, alloc: Global, bytes: &[u8]) -> LineFollower
        ensures added { (budget : ℕ) (lines : List (List ℕ)) → HasTaken budget lines self
            → HasTaken budget (lines ++ lines_of bytes.now) result }
        ensures ended { HasEnded self → result ≡ self }
    {
        let mut follower = self;
        let mut rest = bytes;
        while let Some(count) = first_line_feed(rest) {
            follower = follower.take_line(alloc, &rest[..count]);
            let fed = &rest[count..];
            rest = &fed[1..];
        }
        if rest.is_empty() {
            follower
        } else {
            follower.take_line(alloc, rest)
        }
    }

    /// Takes the invocation of a call by a process of this number, as its line (`event_line`).
    pub fn take_call(self, alloc: Global, process: u32, call: Call) -> LineFollower
        ensures added { (budget : ℕ) (lines : List (List ℕ)) → CallHasWords call
            → HasTaken budget lines self
            → HasTaken budget (lines ++ event_line (Invoke process call) ∷ []) result }
        ensures ended { HasEnded self → result ≡ self }
    {
        match process_number(process) {
            Some(process) => self.take_event(alloc, &StreamEvent::Invoke { process, call }),
            None => self.take_written(alloc, call_line(alloc, process, &call)),
        }
    }

    /// Takes the answer of the open call of a process of this number, as its line (`event_line`).
    pub fn take_reply(self, alloc: Global, process: u32, reply: Reply) -> LineFollower
        ensures added { (budget : ℕ) (lines : List (List ℕ)) → ReplyHasWords reply
            → HasTaken budget lines self
            → HasTaken budget (lines ++ event_line (Answer process reply) ∷ []) result }
        ensures ended { HasEnded self → result ≡ self }
    {
        match process_number(process) {
            Some(process) => self.take_event(alloc, &StreamEvent::Answer { process, reply }),
            None => self.take_written(alloc, reply_line(alloc, process, &reply)),
        }
    }

    /// Takes an event that is given by its values, as its line (`event_line`). That line is written
    /// only if the stream ends at it, or if it may be too long.
    fn take_event(self, alloc: Global, event: &StreamEvent) -> LineFollower
        ensures added { (budget : ℕ) (lines : List (List ℕ)) → HasWords (as_event event.now)
            → HasTaken budget lines self
            → HasTaken budget (lines ++ event_line (as_event event.now) ∷ []) result }
        ensures ended { HasEnded self → result ≡ self }
    {
        if self.may_take(event) {
            self.take_values(alloc, event)
        } else {
            self.take_written(alloc, event_line(alloc, event))
        }
    }

    /// Returns true only if the event's line spells it in the version of the stream, and may be
    /// read. If the stream has ended, returns true for each event.
    fn may_take(&self, event: &StreamEvent) -> bool
        ensures { IsTrue result → MayTake self.now (as_event event.now) }
    {
        match self {
            LineFollower::Going {
                followed,
                lines,
                ..
            } => *lines < MOST_LINES && may_stand(followed.version, event),
            LineFollower::Ended(_) => true,
        }
    }

    /// Takes an event as its line, which has to spell it.
    fn take_values(self, alloc: Global, event: &StreamEvent) -> LineFollower
        requires { MayTake self (as_event event.now) }
        ensures added { (budget : ℕ) (lines : List (List ℕ)) → HasWords (as_event event.now)
            → HasTaken budget lines self
            → HasTaken budget (lines ++ event_line (as_event event.now) ∷ []) result }
        ensures ended { HasEnded self → result ≡ self }
    {
        match self {
            LineFollower::Going {
                followed,
                lines,
                budget,
            } => match followed.take_values(alloc, lines + 1, event, budget) {
                Ok(followed) => LineFollower::Going {
                    followed,
                    lines: lines + 1,
                    budget,
                },
                Err(outcome) => LineFollower::Ended(outcome),
            },
            LineFollower::Ended(outcome) => LineFollower::Ended(outcome),
        }
    }

    /// Takes the next line, as it was written. If memory ran out for it, the stream ends.
    fn take_written(self, alloc: Global, line: Result<String, AllocError>) -> LineFollower
        ensures added { (budget : ℕ) (lines : List (List ℕ)) (next : List ℕ)
            → IfOk line (λ text. string_bytes text ≡ next) → HasTaken budget lines self
            → HasTaken budget (lines ++ next ∷ []) result }
        ensures ended { HasEnded self → result ≡ self }
    {
        match line {
            Ok(line) => self.take_line(alloc, line.as_bytes()),
            Err(_) => self.out_of_memory(),
        }
    }

    /// Takes a line for which memory ran out. The stream ends there.
    pub fn out_of_memory(self) -> LineFollower
        ensures added { (budget : ℕ) (lines : List (List ℕ)) (next : List ℕ)
            → HasTaken budget lines self → HasTaken budget (lines ++ next ∷ []) result }
        ensures ended { HasEnded self → result ≡ self }
    {
        match self {
            LineFollower::Going { .. } => LineFollower::Ended(CommandOutcome::Memory),
            LineFollower::Ended(outcome) => LineFollower::Ended(outcome),
        }
    }

    /// Takes the next line.
    fn take_line(self, alloc: Global, line: &[u8]) -> LineFollower
        ensures added { (budget : ℕ) (lines : List (List ℕ)) → HasTaken budget lines self
            → HasTaken budget (lines ++ line.now ∷ []) result }
        ensures ended { HasEnded self → result ≡ self }
    {
        match self {
            LineFollower::Going {
                followed,
                lines,
                budget,
            } => {
                if lines >= MOST_LINES {
                    return LineFollower::Ended(refused_many(alloc, u64::MAX));
                }
                match followed.take_line(alloc, lines, line, budget) {
                    Ok(followed) => LineFollower::Going {
                        followed,
                        lines: lines + 1,
                        budget,
                    },
                    Err(outcome) => LineFollower::Ended(outcome),
                }
            }
            LineFollower::Ended(outcome) => LineFollower::Ended(outcome),
        }
    }
}

/// Returns the number of a process, if a line may name it.
fn process_number(number: u32) -> Option<u16>
    ensures { IfSome result (λ process. (process ≡ number) × (process < number_limit)) }
{
    if number < PROCESSES {
        Some(number as u16)
    } else {
        None
    }
}

/// Returns true only if a stream of this version may contain the event, on a line that is short
/// enough.
fn may_stand(version: TextVersion, event: &StreamEvent) -> bool
    ensures { IsTrue result → MayStand version (as_event event.now) }
{
    match event {
        StreamEvent::Invoke { call, .. } => {
            version.may_have_call(call) && call.low_key() <= call.high_key()
        }
        StreamEvent::Answer { reply, .. } => {
            version.may_have_reply(reply) && reply.pair_count() <= MOST_PAIRS
        }
    }
}

/// Returns the outcome for the text of a whole stream (`follow_outcome`). Writes nothing.
pub fn follow_text(alloc: Global, text: &[u8], budget: u32) -> CommandOutcome
    ensures { IsStreamOutcome budget (Some text.now) result }
{
    let Ok(follower) = LineFollower::new(alloc, budget) else {
        return CommandOutcome::Memory;
    };
    match follower.take_lines(alloc, text) {
        LineFollower::Going { followed, .. } => followed.finish(alloc),
        LineFollower::Ended(outcome) => outcome,
    }
}
