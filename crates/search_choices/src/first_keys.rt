// Keys that have a call that goes first.
ghost use Rattle.std.specs.Prelude.{◌≡◌, ◌↔◌, ◌⊎◌, ◌∷◌, [], ℕ, ◌<◌, ◌≤◌, true, false, length, Some, IsTrue, IfSome, IfNone, IfOk};
ghost use Rattle.std.specs.Prelude.{AllPairs, Contains};
ghost use Rattle.events.specs.declared.operation.Response.{Response};
ghost use Rattle.map_object.specs.MapObject.{Contents};
ghost use Rattle.call_effects.specs.Values.{IsCallOf};
ghost use Rattle.search_choices.specs.FirstKeys.{IsCallOfOne, IsScanOfOne, IsMissed, MissesOne, Differs, OneDiffers, HasAnswered, AllMissOne, AreFirstKeys};
ghost use Rattle.search_choices.specs.Standing.{places, StandsBare};

use crate::branch::CallSearch;
use crate::dead::{key_of, value_in};
use crate::idle::is_taken;
use events::{Call, Memory, Operation, Reply};
use map_object::SortedMap;
use std::alloc::Global;

/// How many keys are taken together, at most.
const MOST: usize = 64;

/// Keys that have a call that goes first, if such are seen. The first key is the key of the call that was
/// answered first, or one that this call missed. Each scan over these keys that missed none of them
/// adds one more. For each of these keys it looks at the scans that begin no later than the answer,
/// and at their pairs.
pub(crate) fn first_keys(
    alloc: Global,
    calls: &[Operation],
    standing: &CallSearch,
    answered: usize,
) -> Result<Option<Vec<u64>>, Memory>
    ghost start: { Contents }
    requires stands { StandsBare start calls.now standing.now }
    requires rising { AllPairs (λ a b. a.inv < b.inv) calls.now }
    ensures { IfOk result (λ found. IfSome found (λ keys. AreFirstKeys standing.now.map calls.now
        (places standing.now.levels.items) answered keys.items)) }
{
    let Some(key) = first_key(calls, standing, answered) else {
        return Ok(None);
    };
    let mut keys = vec![in alloc; key]?;
    for _more in 0..MOST {
        let Some(place) = tied_scan(calls, standing, answered, &keys) else {
            return Ok(Some(keys));
        };
        let Some(key) = missed_key(&standing.map, &calls[place]) else {
            return Ok(None);
        };
        keys.push(key)?;
    }
    Ok(None)
}

/// The key of the call that was answered at a place, or one that it missed.
fn first_key(calls: &[Operation], standing: &CallSearch, answered: usize) -> Option<u64>
    ghost start: { Contents }
    requires stands { StandsBare start calls.now standing.now }
    ensures { IfSome result (λ key. HasAnswered standing.now.map calls.now
        (places standing.now.levels.items) answered (key ∷ [])) }
{
    for place in standing.low..calls.len() {
        let call = &calls[place];
        if answered < call.inv {
            return None;
        }
        if is_answered_at(call, answered) && !is_taken(standing, place) {
            return concerned_key(&standing.map, call);
        }
    }
    None
}

/// Whether a call was answered at a place.
fn is_answered_at(call: &Operation, answered: usize) -> bool
    ensures { result ≡ true → (r : Response) × (call.now.response ≡ Some r) × (r.res ≡ answered) }
{
    match &call.response {
        Some(response) => response.res == answered,
        None => false,
    }
}

/// The key of a call, and of a scan one that it missed.
fn concerned_key(map: &SortedMap, call: &Operation) -> Option<u64>
    ensures { IfSome result (λ key. (r : Response) → call.now.response ≡ Some r
        → IsCallOf key call.now.call ⊎ IsMissed map.now key call.now.call r.reply) }
{
    match key_of(&call.call) {
        Some(key) => Some(key),
        None => missed_key(map, call),
    }
}

/// A scan that is left, begins no later than a place, and listed pairs over one of these keys, but
/// missed none of them.
fn tied_scan(
    calls: &[Operation],
    standing: &CallSearch,
    answered: usize,
    keys: &[u64],
) -> Option<usize>
    ghost start: { Contents }
    requires stands { StandsBare start calls.now standing.now }
    requires rising { AllPairs (λ a b. a.inv < b.inv) calls.now }
    ensures known { IfSome result (λ n. n < length calls.now) }
    ensures none { IfNone result (AllMissOne standing.now.map calls.now
        (places standing.now.levels.items) answered keys.now) }
{
    for place in standing.low..calls.len() {
        let call = &calls[place];
        if answered < call.inv {
            return None;
        }
        if !is_taken(standing, place) && is_tied(&standing.map, call, keys) {
            return Some(place);
        }
    }
    None
}

/// Whether a scan listed pairs over one of these keys, and missed none of them.
fn is_tied(map: &SortedMap, call: &Operation, keys: &[u64]) -> bool
    ensures { result ≡ false → (r : Response) → call.now.response ≡ Some r
        → IsScanOfOne keys.now call.now.call r.reply
        → MissesOne map.now keys.now call.now.call r.reply }
{
    let Some(response) = &call.response else {
        return false;
    };
    match (&call.call, &response.reply) {
        (Call::Scan(low, high), Reply::Pairs(pairs)) => agrees(
            map,
            *low,
            *high,
            pairs.as_slice(),
            keys,
        ),
        _ => false,
    }
}

/// Whether one of these keys is within a range, and each that is has the same value, or none, in a
/// map and among some pairs.
fn agrees(map: &SortedMap, low: u64, high: u64, pairs: &[(u64, u64)], keys: &[u64]) -> bool
    ensures { result ≡ false → (key : ℕ) → Contains keys.now key → low ≤ key → key ≤ high
        → OneDiffers map.now low high pairs.now keys.now }
{
    let mut over = false;
    for key in keys {
        if low <= *key && *key <= high {
            if map.value(*key) != value_in(pairs, *key) {
                return false;
            }
            over = true;
        }
    }
    over
}

/// A key that a scan missed.
fn missed_key(map: &SortedMap, call: &Operation) -> Option<u64>
    ensures { IfSome result (λ key. (r : Response) → call.now.response ≡ Some r
        → IsMissed map.now key call.now.call r.reply) }
{
    let Some(response) = &call.response else {
        return None;
    };
    match (&call.call, &response.reply) {
        (Call::Scan(low, high), Reply::Pairs(pairs)) => differing_key(
            map,
            *low,
            *high,
            pairs.as_slice(),
        ),
        _ => None,
    }
}

/// A key of a range that has another value, or none, in a map than among some pairs. It is the
/// first such key among the pairs, or else the least that is in the map.
fn differing_key(map: &SortedMap, low: u64, high: u64, pairs: &[(u64, u64)]) -> Option<u64>
    ensures { IfSome result (Differs map.now low high pairs.now) }
{
    for (key, value) in pairs {
        if map.value(*key) != Some(*value) && differs(map, low, high, pairs, *key) {
            return Some(*key);
        }
    }
    unlisted_key(map, low, high, pairs)
}

/// The least key of a range that is in a map and not among some pairs, if the map has all of these
/// pairs.
fn unlisted_key(map: &SortedMap, low: u64, high: u64, pairs: &[(u64, u64)]) -> Option<u64>
    ensures { IfSome result (Differs map.now low high pairs.now) }
{
    let held = map.pairs();
    let from = held.partition_point(|pair| pair.0 < low);
    let mut listed = 0;
    for pair in &held[from..] {
        if listed < pairs.len() && pairs[listed].0 == pair.0 {
            listed += 1;
        } else if differs(map, low, high, pairs, pair.0) {
            return Some(pair.0);
        }
    }
    None
}

/// Whether a key is within a range, and has another value, or none, in a map than among some pairs.
fn differs(map: &SortedMap, low: u64, high: u64, pairs: &[(u64, u64)], key: u64) -> bool
    ensures { IsTrue result ↔ Differs map.now low high pairs.now key }
{
    if key < low || high < key {
        return false;
    }
    map.value(key) != value_in(pairs, key)
}
