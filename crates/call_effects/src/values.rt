// What a call does at its key, and whether it ended before a place.
ghost use Rattle.std.specs.Prelude.{◌≡◌, ◌↔◌, ◌⊎◌, IsTrue, Some, if◌then◌else◌};
ghost use Rattle.events.specs.declared.event.Reply.TheVariants as replies;
ghost use Rattle.events.specs.Precedence.{is_before};
ghost use Rattle.map_object.specs.MapObject as object;
ghost use Rattle.map_object.specs.MapObject.{is_just, value_reply, IsAllOrPartOf};
ghost use Rattle.call_effects.specs.Values as spec;
ghost use Rattle.call_effects.specs.Values.{value_after_call, MayBeAnswered};

use events::{Call, Operation, Reply};

/// Returns the value after a call of a key, or none, if the key had `value`.
pub fn value_after(value: Option<u64>, call: &Operation) -> Option<u64>
    ensures { result ≡ value_after_call value call.now.call call.now.response }
{
    match &call.response {
        Some(response) => value_after_reply(value, &call.call, &response.reply),
        None => value_after_done(value, &call.call),
    }
}

/// Returns the value after a call with this answer. A refused call changes nothing.
fn value_after_reply(value: Option<u64>, call: &Call, reply: &Reply) -> Option<u64>
    ensures { result ≡ spec.value_after_reply value call.now reply.now }
{
    match reply {
        Reply::Refused => value,
        _ => value_after_done(value, call),
    }
}

/// Returns the value after a call that was not refused.
fn value_after_done(value: Option<u64>, call: &Call) -> Option<u64>
    ensures { result ≡ spec.value_after value call.now }
{
    match call {
        Call::Get(_) | Call::Scan(_, _) => value,
        Call::Insert(_, new) => Some(*new),
        Call::Remove(_) => None,
        Call::Replace(_, expected, new) => value_after_replace(value, *expected, *new),
    }
}

/// Returns the value after a replace.
fn value_after_replace(value: Option<u64>, expected: u64, new: u64) -> Option<u64>
    ensures { result ≡ (if is_just value expected then Some new else value) }
{
    match value {
        Some(found) if found == expected => Some(new),
        _ => value,
    }
}

/// Returns whether a call ended before a place.
pub fn is_ended(call: &Operation, place: usize) -> bool
    ensures { result ≡ is_before call.now.response place }
{
    match &call.response {
        Some(response) => response.res < place,
        None => false,
    }
}

/// Returns whether a call may have its answer if its key has this value, or none. A pending call
/// always may.
pub fn may_be_answered(value: Option<u64>, call: &Operation) -> bool
    ensures { IsTrue result ↔ MayBeAnswered value call.now.call call.now.response }
{
    match &call.response {
        Some(response) => may_be_answered_so(value, &call.call, &response.reply),
        None => true,
    }
}

/// Returns whether a reply is a refusal, or agrees with a call that finds this value, or none.
fn may_be_answered_so(value: Option<u64>, call: &Call, reply: &Reply) -> bool
    ensures { IsTrue result ↔ ((reply.now ≡ replies.Refused)
        ⊎ IsAllOrPartOf call.now (value_reply value) reply.now) }
{
    match reply {
        Reply::Refused | Reply::Done => true,
        Reply::Found => value.is_some(),
        Reply::Other => misses(value, call),
        Reply::None => value.is_none(),
        Reply::Some(told) => value == Some(*told),
        Reply::Pairs(_) => false,
    }
}

/// Returns whether a call is a replace that does not find the expected value.
pub fn misses(value: Option<u64>, call: &Call) -> bool
    ensures { result ≡ object.misses call.now (value_reply value) }
{
    match (call, value) {
        (Call::Replace(_, expected, _), Some(found)) => found != *expected,
        (Call::Replace(_, _, _), None) => true,
        _ => false,
    }
}
