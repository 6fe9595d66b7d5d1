// The calls on a stream whose events are given by their values.
ghost use Rattle.std.specs.Prelude.{◌≡◌, ◌≢◌, ℕ, List, [], ◌∷◌, ◌++◌, Option, None, IfOk, IfSome};
ghost use Rattle.events.specs.declared.event.Reply.{Reply as Answer};
ghost use Rattle.potzendai.specs.Follows.{Follows, standing_of};
ghost use Rattle.potzendai.specs.Streams.{BeginUnlinearizable};
ghost use Rattle.potzendai.specs.Values.{call_line, call_of, reply_line, reply_of};
ghost use Rattle.cli_follow.specs.EventLines.{CallHasWords, ReplyHasWords};
ghost use Rattle.cli_follow.specs.Taken.{HasEnded, HasTaken};
ghost use Rattle.stream_text.specs.Cuts.{lines_of};

use crate::handle::{PotzendaiFollower, put, take};
use crate::kinds::{PotzendaiPair, call_of, reply_of};
use crate::reports::stream_status;
use cli_follow::LineFollower;
use cli_outcome::{CommandOutcome, WORDS};
use events::{Call, Memory, Reply};
use std::alloc::Global;
use std::mem::replace;

/// Takes the invocation of a call by a process, as `potzendai_follow_event` takes its line
/// (`call_line`). The numbers after the kind are the key and the value of an insert, or both ends
/// of a scan. Those of a replace are the key, the old value and the new value. If there is no such
/// kind, the line spells no event. Returns the status of the stream so far.
#[unsafe(no_mangle)]
pub extern "C" fn potzendai_follow_invoke(
    alloc: Global,
    handle: &mut PotzendaiFollower,
    process: u32,
    kind: u32,
    key: u64,
    value: u64,
    other: u64,
) -> u32
    ensures added { (budget : ℕ) (lines : List (List ℕ)) → Follows budget lines handle.old.follows
        → Follows budget (lines ++ call_line process (call_of kind key value other) ∷ [])
        handle.new.follows }
    ensures closed { handle.old.follows ≡ None → handle.new.follows ≡ None }
    ensures stays { standing_of handle.old.follows ≢ 0 → handle.new.follows ≡ handle.old.follows }
    ensures status { result ≡ standing_of handle.new.follows }

    // What a no means for a stream if all its lines so far were given.
    ensures no { (budget : ℕ) (all : List ℕ) → Follows budget (lines_of all) handle.new.follows
        → result ≡ 1 → BeginUnlinearizable (lines_of all) }
{
    let Some(boxed) = take(alloc, handle) else {
        return u32::from(WORDS);
    };
    let mut boxed = boxed;
    let follower = replace(&mut *boxed, LineFollower::Ended(CommandOutcome::Memory));
    *boxed = take_call(alloc, follower, process, call_of(kind, key, value, other));
    let status = stream_status(&boxed);
    put(alloc, handle, boxed);
    status
}

/// Takes the answer of the open call of a process, as `potzendai_follow_event` takes its line
/// (`reply_line`). The value and the pairs count only if an answer of this kind has them. If there
/// is no such kind, the line spells no event. Returns the status of the stream so far.
#[unsafe(no_mangle)]
pub extern "C" fn potzendai_follow_answer_with(
    alloc: Global,
    handle: &mut PotzendaiFollower,
    process: u32,
    kind: u32,
    value: u64,
    pairs: &[PotzendaiPair],
) -> u32
    ensures added { (budget : ℕ) (lines : List (List ℕ)) → Follows budget lines handle.old.follows
        → Follows budget (lines ++ reply_line process (reply_of kind value pairs.now) ∷ [])
        handle.new.follows }
    ensures closed { handle.old.follows ≡ None → handle.new.follows ≡ None }
    ensures stays { standing_of handle.old.follows ≢ 0 → handle.new.follows ≡ handle.old.follows }
    ensures status { result ≡ standing_of handle.new.follows }

    // What a no means for a stream if all its lines so far were given.
    ensures no { (budget : ℕ) (all : List ℕ) → Follows budget (lines_of all) handle.new.follows
        → result ≡ 1 → BeginUnlinearizable (lines_of all) }
{
    let Some(boxed) = take(alloc, handle) else {
        return u32::from(WORDS);
    };
    let mut boxed = boxed;
    let follower = replace(&mut *boxed, LineFollower::Ended(CommandOutcome::Memory));
    let reply = reply_of(alloc, kind, value, pairs);
    *boxed = take_answer(alloc, follower, process, reply);
    let status = stream_status(&boxed);
    put(alloc, handle, boxed);
    status
}

/// Takes the invocation of a call. Without a call it takes a line that spells no event.
fn take_call(
    alloc: Global,
    follower: LineFollower,
    process: u32,
    call: Option<Call>,
) -> LineFollower
    ensures added { (budget : ℕ) (lines : List (List ℕ)) → IfSome call CallHasWords
        → HasTaken budget lines follower
        → HasTaken budget (lines ++ call_line process call ∷ []) result }
    ensures ended { HasEnded follower → result ≡ follower }
{
    match call {
        Some(call) => follower.take_call(alloc, process, call),
        None => follower.take_lines(alloc, b"{\"invoke\":null}"),
    }
}

/// Takes the answer of a call, unless memory ran out for that answer.
fn take_answer(
    alloc: Global,
    follower: LineFollower,
    process: u32,
    reply: Result<Option<Reply>, Memory>,
) -> LineFollower
    ensures added { (budget : ℕ) (lines : List (List ℕ)) (given : Option Answer)
        → IfOk reply (λ found. found ≡ given) → IfOk reply (λ found. IfSome found ReplyHasWords)
        → HasTaken budget lines follower
        → HasTaken budget (lines ++ reply_line process given ∷ []) result }
    ensures ended { HasEnded follower → result ≡ follower }
{
    match reply {
        Ok(reply) => take_reply(alloc, follower, process, reply),
        Err(_) => follower.out_of_memory(),
    }
}

/// Takes the answer of a call. Without an answer it takes a line that spells no event.
fn take_reply(
    alloc: Global,
    follower: LineFollower,
    process: u32,
    reply: Option<Reply>,
) -> LineFollower
    ensures added { (budget : ℕ) (lines : List (List ℕ)) → IfSome reply ReplyHasWords
        → HasTaken budget lines follower
        → HasTaken budget (lines ++ reply_line process reply ∷ []) result }
    ensures ended { HasEnded follower → result ≡ follower }
{
    match reply {
        Some(reply) => follower.take_reply(alloc, process, reply),
        None => follower.take_lines(alloc, b"{\"answer\":[null]}"),
    }
}
