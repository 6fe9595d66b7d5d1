// What the parts make of an answer.
ghost use Rattle.std.specs.Prelude.{◌≡◌, ◌<◌, ◌≤◌, ◌++◌, ◌∷◌, List, IfOk};
ghost use Rattle.events.specs.declared.operation.Operation.{Operation as Done};
ghost use Rattle.events.specs.Keys.{low_key, high_key};
ghost use Rattle.map_object.specs.MapObject.{Contents};
ghost use Rattle.follow_parts.specs.Keeping.{begun, is_reported, IsStateOf};
ghost use Rattle.follow_monitor.specs.Answering.{AreAnswered, IsPartEndedBy, IsPendingIn};
ghost use Rattle.follow_monitor.specs.Faults.{event_limit};

use crate::forms::may_reply;
use crate::open_calls::OpenCall;
use events::{Memory, Reply};
use follow_parts::{Answered as Taken, EndedPart, Parts};
use std::alloc::Global;

/// What the parts make of an answer.
#[derive(Drop)]
pub(crate) enum Judged {
    /// The calls so far have an order.
    Going(Parts),
    /// They have none.
    Lost(EndedPart),
    /// It is not known whether they have one.
    Spent(EndedPart),
}

/// What the parts make of the answer of an open call. If no map answers the call so, there is no
/// past.
pub(crate) fn answer_parts(
    alloc: Global,
    parts: Parts,
    known: OpenCall,
    reply: Reply,
    budget: u32,
) -> Result<Judged, Memory>
    requires room { parts.now < event_limit }
    requires shaped { low_key known.call ≤ high_key known.call }
    requires pending { IsPendingIn known parts }
    ensures answered { (start : Contents) (front back : List Done)
        → IsStateOf start (front ++ begun known.call known.event ∷ back) parts
        → IfOk result (AreAnswered start budget parts
        (front ++ is_reported (begun known.call known.event) reply parts.now ∷ back) known.call reply) }
    ensures ended { (start : Contents) (front back : List Done)
        → IsStateOf start (front ++ begun known.call known.event ∷ back) parts
        → IfOk result (IsPartEndedBy start parts.now (front ++ begun known.call known.event ∷ back)
        (begun known.call known.event) reply) }
{
    if !may_reply(&known.call, &reply) {
        return Ok(Judged::Lost(EndedPart {
            ranges: Vec::new(alloc),
            pasts: Vec::new(alloc),
        }));
    }
    match parts.answer(alloc, known.event, known.call, reply, budget)? {
        Taken::Going(next) => {
            next.goes_on();
            Ok(Judged::Going(next))
        }
        Taken::Lost(part) => Ok(Judged::Lost(part)),
        Taken::Spent(part) => Ok(Judged::Spent(part)),
        Taken::Unknown => unreachable!(),
    }
}
