// Which of the pairs that calls report come from outside of them.
ghost use Rattle.std.specs.Prelude.{◌≡◌, ◌↔◌, ℕ, not, filter, AllPairs, Contains, IfOk};
ghost use Rattle.std.specs.List.{list_any};
ghost use Rattle.explain_reads_from.specs.External.{is_put, may_put, may_change, is_internal, IsBelow, AreExternal};

use crate::reported::all_reported;
use crate::writing::{holds, is_put};
use events::{Memory, Operation};
use explain_shrink::put_of;
use map_object::SortedMap;
use std::alloc::Global;

/// Returns the pairs of a key and a value that the calls report, and that come from outside. A pair
/// does if none of the calls may put it, and the map does not hold it at the start, or one of the
/// calls may change its key. Each pair is listed once, by rising key, and at one key by rising
/// value. Each pair reported is compared with each call.
pub fn external_reads(
    alloc: Global,
    start: &SortedMap,
    calls: &[Operation],
) -> Result<Vec<(u64, u64)>, Memory>
    ensures { IfOk result (λ pairs. AreExternal start.now calls.now pairs.items) }
{
    let reported = in_order(all_reported(alloc, calls)?);
    external_of(alloc, start, calls, &reported)
}

/// Sorts the pairs by rising key and value, and leaves each once.
fn in_order(mut pairs: Vec<(u64, u64)>) -> Vec<(u64, u64)>
    ensures rising { AllPairs IsBelow result.items }
    ensures same { (pair : ℕ × ℕ) → Contains result.items pair ↔ Contains pairs.items pair }
{
    pairs.sort_unstable();
    pairs.dedup();
    pairs
}

/// Returns the pairs that come from outside.
fn external_of(
    alloc: Global,
    start: &SortedMap,
    calls: &[Operation],
    reported: &[(u64, u64)],
) -> Result<Vec<(u64, u64)>, Memory>
    ensures { IfOk result (λ pairs. pairs.items ≡ filter
        (λ pair. not (is_internal start.now calls.now pair)) reported.now) }
{
    let mut pairs = Vec::new(alloc);
    for pair in reported {
        if !is_internal(start, calls, *pair) {
            pairs.push(*pair)?;
        }
    }
    Ok(pairs)
}

/// Returns whether one of the calls may put a pair, or the map holds it at the start and none of
/// them may change its key.
fn is_internal(start: &SortedMap, calls: &[Operation], pair: (u64, u64)) -> bool
    ensures { result ≡ is_internal start.now calls.now pair }
{
    is_one_put(calls, pair) || (holds(start, pair) && !is_key_changed(calls, pair.0))
}

/// Returns whether one of the calls may put a pair.
fn is_one_put(calls: &[Operation], pair: (u64, u64)) -> bool
    ensures { result ≡ list_any (may_put pair) calls.now }
{
    for call in calls {
        if may_put(call, pair) {
            return true;
        }
    }
    false
}

/// Returns whether one of the calls may change a key.
fn is_key_changed(calls: &[Operation], key: u64) -> bool
    ensures { result ≡ list_any (may_change key) calls.now }
{
    for call in calls {
        if may_change(call, key) {
            return true;
        }
    }
    false
}

/// Returns whether a call, as far as its answer says, may put this value at this key.
fn may_put(call: &Operation, pair: (u64, u64)) -> bool
    ensures { result ≡ may_put pair call.now }
{
    call.call.low_key() == pair.0 && is_put(put_of(&call.call, &call.response), pair.1)
}

/// Returns whether a call, as far as its answer says, may put anything at this key, or remove its
/// value.
fn may_change(call: &Operation, key: u64) -> bool
    ensures { result ≡ may_change key call.now }
{
    call.call.low_key() == key && put_of(&call.call, &call.response).is_some()
}
