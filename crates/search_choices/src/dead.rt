// Dead ends that are seen without a search.
ghost use Rattle.std.specs.Prelude.{◌≡◌, ◌≢◌, ◌↔◌, ◌++◌, ◌∷◌, [], ℕ, ◌<◌, ◌≤◌, true, false, Some, length, slice_get, AllPairs};
ghost use Rattle.std.specs.Prelude.{IsTrue, IfSome};
ghost use Rattle.events.specs.declared.operation.Operation.{Operation};
ghost use Rattle.events.specs.declared.operation.Response.{Response};
ghost use Rattle.map_object.specs.MapObject as object;
ghost use Rattle.map_object.specs.MapObject.{Contents, IsRising};
ghost use Rattle.call_effects.specs.Replies.{IsRead};
ghost use Rattle.call_effects.specs.Values.{IsCallOf, value_after_call};
ghost use Rattle.search_choices.specs.Dead.{Puts, IsUnput, Reports, IsReported, IsStuck};
ghost use Rattle.search_choices.specs.Standing.{places, StandsBare, IsDead};

use crate::branch::CallSearch;
use crate::idle::is_taken;
use call_effects::{earlier_answer, ended_after, is_read, value_after};
use events::{Call, Operation, Reply};

/// The most calls that are left and looked at.
const MOST: usize = 4_096;

/// The place up to which calls are looked at: 4,096 of those that are left come before it, or all.
pub(crate) fn end_of_look(calls: &[Operation], standing: &CallSearch) -> usize
    ghost start: { Contents }
    requires stands { StandsBare start calls.now standing.now }
    ensures from { standing.now.low ≤ result }
    ensures within { result ≤ length calls.now }
{
    let mut looked = 0;
    for place in standing.low..calls.len() {
        if !is_taken(standing, place) {
            if looked == MOST {
                return place;
            }
            looked += 1;
        }
    }
    calls.len()
}

/// Whether a call that is left, and begins at one of the places from `first` to `last`, is seen to
/// be stuck. Then the calls taken are a dead end. Calls are looked at up to `end`. It costs a look
/// into the map for each call that is left and begins at such a place. If the map does not have what
/// the call reported, it also costs a look at the calls up to `end` that are left.
pub(crate) fn is_dead_end(
    calls: &[Operation],
    standing: &CallSearch,
    end: usize,
    first: usize,
    last: usize,
) -> bool
    ghost start: { Contents }
    requires rising { AllPairs (λ a b. a.inv < b.inv) calls.now }
    requires start_rises { IsRising start }
    requires stands { StandsBare start calls.now standing.now }
    requires from { standing.now.low ≤ end }
    requires within { end ≤ length calls.now }
    ensures { result ≡ true → IsDead start calls.now (places standing.now.levels.items) }
{
    for place in standing.low..end {
        let begun = calls[place].inv;
        if last < begun {
            return false;
        }
        if first <= begun && is_stuck(calls, standing, end, place) {
            return true;
        }
    }
    false
}

/// Whether a call is left, and reported a value at its key, or none, that it can't find there.
fn is_stuck(calls: &[Operation], standing: &CallSearch, end: usize, place: usize) -> bool
    ghost start: { Contents }
    requires rising { AllPairs (λ a b. a.inv < b.inv) calls.now }
    requires stands { StandsBare start calls.now standing.now }
    requires from { standing.now.low ≤ end }
    requires within { end ≤ length calls.now }
    requires known { place < length calls.now }
    ensures { result ≡ true → IsStuck standing.now.map calls.now
        (places standing.now.levels.items) place }
{
    if is_taken(standing, place) {
        return false;
    }
    let call = &calls[place];
    let Some(response) = &call.response else {
        return false;
    };
    let Some(key) = key_of(&call.call) else {
        return false;
    };
    match &response.reply {
        Reply::Some(value) => is_lost(calls, standing, end, response.res, key, Some(*value)),
        Reply::None => is_lost(calls, standing, end, response.res, key, None),
        _ => false,
    }
}

/// The key of a call. A scan has none.
pub(crate) fn key_of(call: &Call) -> Option<u64>
    ensures { IfSome result (λ key. IsCallOf key call.now) }
{
    match call {
        Call::Get(key) | Call::Insert(key, _) | Call::Remove(key) | Call::Replace(key, _, _) =>
            Some(*key),
        Call::Scan(_, _) => None,
    }
}

/// Whether a key does not have a value, or none, in the map, and no call that is left, and begins
/// no later than a place, puts it there.
fn is_lost(
    calls: &[Operation],
    standing: &CallSearch,
    end: usize,
    last: usize,
    key: u64,
    value: Option<u64>,
) -> bool
    ghost start: { Contents }
    requires rising { AllPairs (λ a b. a.inv < b.inv) calls.now }
    requires stands { StandsBare start calls.now standing.now }
    requires from { standing.now.low ≤ end }
    requires within { end ≤ length calls.now }
    ensures missing { result ≡ true → object.value_at standing.now.map key ≢ value }
    ensures unput { result ≡ true → IsUnput calls.now (places standing.now.levels.items) last key
        value }
{
    if standing.map.value(key) == value {
        return false;
    }
    !may_be_put(calls, standing, end, last, key, value)
}

/// Whether a call that is left, and begins no later than a place, may put a value, or none, at a
/// key. It says so if one of those before `end` does, or if others begin by that place.
fn may_be_put(
    calls: &[Operation],
    standing: &CallSearch,
    end: usize,
    last: usize,
    key: u64,
    value: Option<u64>,
) -> bool
    ghost start: { Contents }
    requires rising { AllPairs (λ a b. a.inv < b.inv) calls.now }
    requires stands { StandsBare start calls.now standing.now }
    requires from { standing.now.low ≤ end }
    requires within { end ≤ length calls.now }
    ensures { result ≡ false → IsUnput calls.now (places standing.now.levels.items) last key value }
{
    for place in standing.low..end {
        let call = &calls[place];
        if last < call.inv {
            return false;
        }
        if !is_taken(standing, place) && may_put(call, key, value) {
            return true;
        }
    }
    if end == calls.len() {
        return false;
    }
    calls[end].inv <= last
}

/// Whether a call may put a value, or none, at a key: it does so if it is done, and its answer does
/// not say that it changed nothing.
fn may_put(call: &Operation, key: u64, value: Option<u64>) -> bool
    ensures { result ≡ false → Puts key value call.now.call → IsRead call.now }
{
    if !puts(&call.call, key, value) {
        return false;
    }
    !is_read(call)
}

/// Whether a call puts a value, or none, at a key, if it is done.
fn puts(call: &Call, key: u64, value: Option<u64>) -> bool
    ensures { IsTrue result ↔ Puts key value call.now }
{
    match call {
        Call::Insert(own, new) | Call::Replace(own, _, new) => *own == key && value == Some(*new),
        Call::Remove(own) => *own == key && value.is_none(),
        Call::Get(_) | Call::Scan(_, _) => false,
    }
}

/// Whether a call is seen to leave another one stuck, if it is the next one taken. It does so if it
/// changes a value that another reported, and no call puts that value there again before the other.
/// It costs a look into the map. If the call changes its key, it also costs two looks at the calls
/// up to `end` that are left, with the pairs of the scans among them.
pub(crate) fn is_futile(
    calls: &[Operation],
    standing: &CallSearch,
    end: usize,
    place: usize,
) -> bool
    ghost start: { Contents }
    requires rising { AllPairs (λ a b. a.inv < b.inv) calls.now }
    requires start_rises { IsRising start }
    requires stands { StandsBare start calls.now standing.now }
    requires from { standing.now.low ≤ end }
    requires within { end ≤ length calls.now }
    requires known { place < length calls.now }
    ensures { result ≡ true → IsDead start calls.now
        (places standing.now.levels.items ++ place ∷ []) }
{
    let call = &calls[place];
    let Some(key) = key_of(&call.call) else {
        return false;
    };
    let value = standing.map.value(key);
    if keeps(value, call) {
        return false;
    }
    let Some(last) = first_report(calls, standing, end, place, key, value) else {
        return false;
    };
    !may_be_put(calls, standing, end, last, key, value)
}

/// Whether a call of a key leaves the value there, or none, as it is.
fn keeps(value: Option<u64>, call: &Operation) -> bool
    ensures { result ≡ false → value_after_call value call.now.call call.now.response ≢ value }
{
    value_after(value, call) == value
}

/// The earliest answer of another call than this one that is left, is before `end`, and reported
/// that a key had a value, or none.
fn first_report(
    calls: &[Operation],
    standing: &CallSearch,
    end: usize,
    other: usize,
    key: u64,
    value: Option<u64>,
) -> Option<usize>
    ghost start: { Contents }
    requires stands { StandsBare start calls.now standing.now }
    requires within { end ≤ length calls.now }
    ensures { IfSome result (IsReported calls.now (places standing.now.levels.items) other key
        value) }
{
    let mut earliest = None;
    for place in standing.low..end {
        let call = &calls[place];
        if ended_after(earliest, call.inv) {
            return earliest;
        }
        if place != other && !is_taken(standing, place) && reports(call, key, value) {
            earliest = earlier_answer(earliest, &call.response);
        }
    }
    earliest
}

/// Whether a call reported that a key had a value, or none.
fn reports(call: &Operation, key: u64, value: Option<u64>) -> bool
    ensures { result ≡ true → (response : Response) → call.now.response ≡ Some response
        → Reports key value call.now.call response.reply }
{
    match &call.response {
        Some(response) => is_report(&call.call, &response.reply, key, value),
        None => false,
    }
}

/// Whether a call that was answered so reported that a key had a value, or none.
fn is_report(call: &Call, reply: &Reply, key: u64, value: Option<u64>) -> bool
    ensures { result ≡ true → Reports key value call.now reply.now }
{
    match (call, reply) {
        (Call::Scan(low, high), Reply::Pairs(pairs)) => *low <= key
            && key <= *high
            && value_in(pairs.as_slice(), key) == value,
        (_, Reply::Some(found)) => names(call, key) && value == Some(*found),
        (_, Reply::None) => names(call, key) && value.is_none(),
        _ => false,
    }
}

/// Whether a call is one of a key, and no scan.
pub(crate) fn names(call: &Call, key: u64) -> bool
    ensures { IsTrue result ↔ IsCallOf key call.now }
{
    match call {
        Call::Get(own) | Call::Insert(own, _) | Call::Remove(own) | Call::Replace(own, _, _) => *own
            == key,
        Call::Scan(_, _) => false,
    }
}

/// The value at a key among some pairs, the first if there are several.
pub(crate) fn value_in(pairs: &[(u64, u64)], key: u64) -> Option<u64>
    ensures { result ≡ object.value_at pairs.now key }
{
    for (other, value) in pairs {
        if *other == key {
            return Some(*value);
        }
    }
    None
}
