// What a call may put at its key, and which calls depend on it.
ghost use Rattle.std.specs.Prelude.{◌≡◌, ℕ, Option, Some, None, is_some};
ghost use Rattle.map_object.specs.MapObject.{value_at, is_just};
ghost use Rattle.events.specs.PlainHistories.{is_replace};
ghost use Rattle.explain_shrink.specs.Tells.{names_key, is_same, waits_for, depends_on, is_told_by, depends_on_value, put_by, put_of, is_sure};
ghost use Rattle.explain_shrink.specs.Tells.{tells_put};

use call_effects::says_unchanged;
use events::{Call, Operation, Reply, Response};

/// Returns whether a call depends on what another may put.
pub fn tells_put(call: &Operation, other: &Operation) -> bool
    ensures { result ≡ tells_put call.now other.now }
{
    match put_of(&other.call, &other.response) {
        Some(value) => depends_on_value(call, other.call.low_key(), value),
        None => false,
    }
}

/// Returns whether a call may put something at its key, as far as its response says.
pub(crate) fn puts(call: &Operation) -> bool
    ensures { result ≡ is_some (put_of call.now.call call.now.response) }
{
    put_of(&call.call, &call.response).is_some()
}

/// Returns whether a call, as far as its response says, does what it may do. A pending call may not
/// be done. A replace with the answer `done` or `found` may have found another value than the
/// expected one.
pub fn is_sure(call: &Operation) -> bool
    ensures { result ≡ is_sure call.now.call call.now.response }
{
    match &call.response {
        Some(response) => !is_replace(&call.call) || response.reply.is_complete(),
        None => false,
    }
}

/// Returns whether a call is a replace.
fn is_replace(call: &Call) -> bool
    ensures { result ≡ is_replace call.now }
{
    matches!(call, Call::Replace(_, _, _))
}

/// Returns what a call may put at its key: a value, or none in place of one. It is nothing if the
/// response says that the call changed nothing.
pub fn put_of(call: &Call, response: &Option<Response>) -> Option<Option<u64>>
    ensures { result ≡ put_of call.now response.now }
{
    match response {
        Some(response) if says_unchanged(call, &response.reply) => None,
        _ => put_by(call),
    }
}

/// Returns what a call may put at its key, whatever its answer is.
pub fn put_by(call: &Call) -> Option<Option<u64>>
    ensures { result ≡ put_by call.now }
{
    match call {
        Call::Get(_) | Call::Scan(_, _) => None,
        Call::Insert(_, value) | Call::Replace(_, _, value) => Some(Some(*value)),
        Call::Remove(_) => Some(None),
    }
}

/// Returns whether a call depends on a key having this value, or none, or waits for it.
fn depends_on_value(call: &Operation, key: u64, value: Option<u64>) -> bool
    ensures { result ≡ depends_on_value call.now key value }
{
    names_key(&call.call, key) && is_told_by(&call.call, &call.response, key, value)
}

/// Returns whether a key is among those that a call names.
pub fn names_key(call: &Call, key: u64) -> bool
    ensures { result ≡ names_key call.now key }
{
    call.low_key() <= key && key <= call.high_key()
}

/// Returns whether a call with an answer depends on a key having this value, or none; a call
/// without one, whether it waits for it.
fn is_told_by(call: &Call, response: &Option<Response>, key: u64, value: Option<u64>) -> bool
    ensures { result ≡ is_told_by call.now response.now key value }
{
    match response {
        Some(response) => depends_on(call, &response.reply, key, value),
        None => waits_for(call, value),
    }
}

/// Returns whether a call without an answer waits for this value at its key.
fn waits_for(call: &Call, value: Option<u64>) -> bool
    ensures { result ≡ waits_for call.now value }
{
    match call {
        Call::Replace(_, expected, _) => is_just(value, *expected),
        Call::Get(_) | Call::Insert(_, _) | Call::Remove(_) | Call::Scan(_, _) => false,
    }
}

/// Returns whether there is a value and it is this one.
fn is_just(value: Option<u64>, expected: u64) -> bool
    ensures { result ≡ is_just value expected }
{
    match value {
        Some(value) => value == expected,
        None => false,
    }
}

/// Returns whether a call with this answer depends on a key having this value, or none. It does if
/// it could not be answered so with another value there, or could leave another one.
pub fn depends_on(call: &Call, reply: &Reply, key: u64, value: Option<u64>) -> bool
    ensures { result ≡ depends_on call.now reply.now key value }
{
    match reply {
        Reply::None => is_same(None, value),
        Reply::Some(found) => is_same(Some(*found), value),
        Reply::Pairs(pairs) => is_same(value_in(pairs.as_slice(), key), value),
        Reply::Refused => false,
        Reply::Done => is_replace(call),
        Reply::Found => is_replace(call) || value.is_some(),
        Reply::Other => is_replace(call) && !waits_for(call, value),
    }
}

/// Returns the value at a key among some pairs; the first one if there are several.
fn value_in(pairs: &[(u64, u64)], key: u64) -> Option<u64>
    ensures { result ≡ value_at pairs.now key }
{
    for (other, value) in pairs {
        if *other == key {
            return Some(*value);
        }
    }
    None
}

/// Returns whether two values, or none, are the same.
fn is_same(value: Option<u64>, other: Option<u64>) -> bool
    ensures { result ≡ is_same value other }
{
    match (value, other) {
        (None, None) => true,
        (Some(value), Some(other)) => value == other,
        _ => false,
    }
}
