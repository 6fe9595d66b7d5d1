// Pending calls that need not be tried in the state of a search.
ghost use Rattle.std.specs.Prelude.{◌≡◌, ◌↔◌, ◌⊎◌, ℕ, ◌<◌, true, false, length, Some, AllPairs, IsTrue, Contains, slice_get, slice_index_or};
ghost use Rattle.events.specs.Lists.{has_number};
ghost use Rattle.events.specs.declared.operation.Operation.{Operation};
ghost use Rattle.events.specs.declared.operation.Response.{Response};
ghost use Rattle.events.specs.Keys.{low_key, high_key};
ghost use Rattle.map_object.specs.MapObject.{Contents, IsRising, after, value_at};
ghost use Rattle.orders.proofs.RangeLemmas.{IsOutside};
ghost use Rattle.search_choices.specs.Idle.{AreIdle, WaitsForNone, IsDoneNext, IsOpenNext, IsFree, MissesPair, IsMissing};
ghost use Rattle.search_choices.specs.Standing.{places, StandsBare};

use crate::branch::CallSearch;
use call_effects::says_unchanged;
use events::{Call, Operation, Reply};
use map_object::SortedMap;

/// Whether there are pending calls that could come next, and no completed call that could come next
/// waits for them. Then no pending call has to be tried here. It compares the calls that could come
/// next with one another, and with the pairs that a scan lists.
pub(crate) fn are_idle(calls: &[Operation], standing: &CallSearch, answered: usize) -> bool
    ghost start: { Contents }
    requires rising { AllPairs (λ a b. a.inv < b.inv) calls.now }
    requires start_rises { IsRising start }
    requires stands { StandsBare start calls.now standing.now }
    ensures { result ≡ true → AreIdle standing.now.map calls.now (places standing.now.levels.items)
        answered }
{
    if is_free(calls, standing, answered, 0, u64::MAX) {
        return false;
    }
    for place in standing.low..calls.len() {
        let call = &calls[place];
        if answered < call.inv {
            return true;
        }
        if may_wait(calls, standing, place, answered) {
            return false;
        }
    }
    true
}

/// Whether a call would change nothing at a map.
pub(crate) fn is_vain(map: &SortedMap, call: &Call) -> bool
    ensures { result ≡ true → after map.now call.now ≡ map.now }
{
    match call {
        Call::Get(_) | Call::Scan(_, _) => true,
        Call::Insert(key, _) | Call::Remove(key) | Call::Replace(key, _, _) => {
            match map.value(*key) {
                Some(value) => says_unchanged(call, &Reply::Some(value)),
                None => says_unchanged(call, &Reply::None),
            }
        }
    }
}

/// Whether a call is completed and left, and may wait for a pending one.
fn may_wait(calls: &[Operation], standing: &CallSearch, place: usize, answered: usize) -> bool
    ghost start: { Contents }
    requires rising { AllPairs (λ a b. a.inv < b.inv) calls.now }
    requires start_rises { IsRising start }
    requires stands { StandsBare start calls.now standing.now }
    requires known { place < length calls.now }
    ensures { result ≡ false → (a : Operation)
        → IsDoneNext calls.now (places standing.now.levels.items) answered place a
        → WaitsForNone standing.now.map calls.now (places standing.now.levels.items) answered a }
{
    if is_taken(standing, place) {
        return false;
    }
    let call = &calls[place];
    match &call.response {
        Some(response) => !waits_for_none(calls, standing, answered, &call.call, &response.reply),
        None => false,
    }
}

/// Whether a call that was answered so waits for no pending one. That is so if they change none of
/// its keys. It is also so for a scan that lists a pair which the map does not hold, at a key that
/// none of them changes.
fn waits_for_none(
    calls: &[Operation],
    standing: &CallSearch,
    answered: usize,
    call: &Call,
    reply: &Reply,
) -> bool
    ghost start: { Contents }
    requires rising { AllPairs (λ a b. a.inv < b.inv) calls.now }
    requires start_rises { IsRising start }
    requires stands { StandsBare start calls.now standing.now }
    ensures { result ≡ true → (a : Operation) (response : Response) → a.call ≡ call.now
        → a.response ≡ Some response
        → response.reply ≡ reply.now
        → WaitsForNone standing.now.map calls.now (places standing.now.levels.items) answered a }
{
    match (call, reply) {
        (Call::Scan(low, high), Reply::Pairs(pairs)) => misses_pair(
            calls,
            standing,
            answered,
            *low,
            *high,
            pairs.as_slice(),
        ),
        _ => is_free(calls, standing, answered, call.low_key(), call.high_key()),
    }
}

/// Whether one of the pairs is within a range, and not in the map, and no pending call changes its
/// key.
fn misses_pair(
    calls: &[Operation],
    standing: &CallSearch,
    answered: usize,
    low: u64,
    high: u64,
    pairs: &[(u64, u64)],
) -> bool
    ghost start: { Contents }
    requires rising { AllPairs (λ a b. a.inv < b.inv) calls.now }
    requires stands { StandsBare start calls.now standing.now }
    ensures { result ≡ true → MissesPair standing.now.map calls.now
        (places standing.now.levels.items) answered low high pairs.now }
{
    for pair in pairs {
        if is_missing(calls, standing, answered, low, high, pair.0, pair.1) {
            return true;
        }
    }
    false
}

/// Whether a pair is within a range, and not in the map, and no pending call changes its key.
fn is_missing(
    calls: &[Operation],
    standing: &CallSearch,
    answered: usize,
    low: u64,
    high: u64,
    key: u64,
    value: u64,
) -> bool
    ghost start: { Contents }
    requires rising { AllPairs (λ a b. a.inv < b.inv) calls.now }
    requires stands { StandsBare start calls.now standing.now }
    ensures { result ≡ true → IsMissing standing.now.map calls.now
        (places standing.now.levels.items) answered low high key value }
{
    if key < low || high < key {
        return false;
    }
    if holds(&standing.map, key, value) {
        return false;
    }
    is_free(calls, standing, answered, key, key)
}

/// Whether a map has this value at a key.
fn holds(map: &SortedMap, key: u64, value: u64) -> bool
    ensures { IsTrue result ↔ (value_at map.now key ≡ Some value) }
{
    map.value(key) == Some(value)
}

/// Whether no pending call that could come next changes a key of a range.
fn is_free(calls: &[Operation], standing: &CallSearch, answered: usize, low: u64, high: u64) -> bool
    ghost start: { Contents }
    requires rising { AllPairs (λ a b. a.inv < b.inv) calls.now }
    requires stands { StandsBare start calls.now standing.now }
    ensures { result ≡ true → IsFree calls.now (places standing.now.levels.items) answered low
        high }
{
    for place in standing.low..calls.len() {
        let call = &calls[place];
        if answered < call.inv {
            return true;
        }
        if may_change(calls, standing, place, low, high) {
            return false;
        }
    }
    true
}

/// Whether a call is pending and left, and may change a key of a range.
fn may_change(calls: &[Operation], standing: &CallSearch, place: usize, low: u64, high: u64) -> bool
    ghost start: { Contents }
    requires stands { StandsBare start calls.now standing.now }
    requires known { place < length calls.now }
    ensures { result ≡ false → (answered : ℕ) (p : Operation)
        (o : IsOpenNext calls.now (places standing.now.levels.items) answered p)
        → o.n ≡ place → IsOutside low high p.call }
{
    if is_taken(standing, place) {
        return false;
    }
    let call = &calls[place];
    if call.response.is_some() {
        return false;
    }
    !is_apart(&call.call, low, high)
}

/// Whether the keys of a call are all below or all above a range.
fn is_apart(call: &Call, low: u64, high: u64) -> bool
    ensures { result ≡ true → (high_key call.now < low) ⊎ (high < low_key call.now) }
{
    if call.high_key() < low {
        return true;
    }
    high < call.low_key()
}

/// Whether a call is taken.
pub(crate) fn is_taken(standing: &CallSearch, place: usize) -> bool
    requires known { place < length standing.now.taken.items }
    requires marks { slice_index_or standing.now.taken.items place false ≡ has_number
        (places standing.now.levels.items) place }
    ensures { IsTrue result ↔ Contains (places standing.now.levels.items) place }
{
    standing.taken[place]
}
