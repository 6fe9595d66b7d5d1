// Where the values come from that a key has in some pasts.
ghost use Rattle.std.specs.Prelude.{◌≡◌, ◌≢◌, ◌↔◌, ◌==◌, filter, map, AllPairs, Contains, IfOk, IsTrue, None, OnOk};
ghost use Rattle.std.specs.List.{list_any};
ghost use Rattle.follow_cuts.specs.PartCuts.{kept_of};
ghost use Rattle.follow_violations.specs.Collecting.{IsNotedOnce, is_put_before, last_put, origin_in, put_in};
ghost use Rattle.follow_violations.specs.declared.lost_keys.Origin.{Origin as From};

use crate::lost_keys::Origin;
use crate::puts::Put;
use events::{Memory, Operation};
use follow_cuts::Past;
use std::alloc::Global;

/// The values that a key has in some pasts, each once for each call that put it.
pub(crate) fn origins_at(
    alloc: Global,
    pasts: &[Past],
    puts: &[Put],
    key: u64,
) -> Result<Vec<Origin>, Memory>
    ensures distinct { IfOk result (λ from. AllPairs (λ a b. a ≢ b) from.items) }
    ensures same { IfOk result (λ from. (origin : From) → Contains from.items origin
        ↔ Contains (map (origin_in puts.now key) (map kept_of pasts.now)) origin) }
{
    let own = puts_at(alloc, puts, key)?;
    origins_in(alloc, pasts, &own, key)
}

/// Where the values come from, with the puts of the key.
fn origins_in(alloc: Global, pasts: &[Past], own: &[Put], key: u64) -> Result<Vec<Origin>, Memory>
    ensures distinct { IfOk result (λ from. AllPairs (λ a b. a ≢ b) from.items) }
    ensures same { IfOk result (λ from. (origin : From) → Contains from.items origin
        ↔ Contains (map (λ past. origin_in own.now key (kept_of past)) pasts.now) origin) }
{
    let mut from = Vec::new(alloc);
    for past in pasts {
        note_origin(&mut from, origin_in(past, own, key))?;
    }
    Ok(from)
}

/// Notes an origin, unless it is among those.
fn note_origin(from: &mut Vec<Origin>, origin: Origin) -> Result<(), Memory>
    ensures { OnOk result (IsNotedOnce origin from.old.items from.new.items) }
{
    if !has_origin(from, origin) {
        from.push(origin)?;
    }
    Ok(())
}

/// The puts of a key.
fn puts_at(alloc: Global, puts: &[Put], key: u64) -> Result<Vec<Put>, Memory>
    ensures { IfOk result (λ own. own.items ≡ filter (λ p. p.key == key) puts.now) }
{
    let mut own = Vec::new(alloc);
    for put in puts {
        if put.key == key {
            own.push(*put)?;
        }
    }
    Ok(own)
}

/// Whether an origin is among some.
fn has_origin(from: &[Origin], origin: Origin) -> bool
    ensures { IsTrue result ↔ Contains from.now origin }
{
    from.contains(&origin)
}

/// The value that a key has in a past, and who put it.
fn origin_in(past: &Past, puts: &[Put], key: u64) -> Origin
    ensures { result ≡ origin_in puts.now key (kept_of past.now) }
{
    let value = past.map.value(key);
    Origin {
        value,
        put: put_in(past, puts, key, value),
    }
}

/// Who put a value that a key has in a past.
fn put_in(past: &Past, puts: &[Put], key: u64, value: Option<u64>) -> Option<usize>
    ensures { result ≡ put_in puts.now (kept_of past.now) key value }
{
    match value {
        Some(value) => last_put(past, puts, key, value),
        None => None,
    }
}

/// The event of the last put of a value at a key before the calls that are left in a past.
fn last_put(past: &Past, puts: &[Put], key: u64, value: u64) -> Option<usize>
    ensures { result ≡ last_put (kept_of past.now) key value None puts.now }
{
    let mut at = puts.len();
    while at > 0 {
        at -= 1;
        if is_put_before(past, &puts[at], key, value) {
            return Some(puts[at].event);
        }
    }
    None
}

/// Whether a put is of a value at a key, and its call is not left in a past.
fn is_put_before(past: &Past, put: &Put, key: u64, value: u64) -> bool
    ensures { result ≡ is_put_before (kept_of past.now) key value put.now }
{
    put.key == key && put.value == value && !is_left(&past.calls, put.event)
}

/// Whether a call that was invoked at an event is left.
pub(crate) fn is_left(calls: &[Operation], event: usize) -> bool
    ensures { result ≡ list_any (λ o. o.inv == event) calls.now }
{
    for call in calls {
        if call.inv == event {
            return true;
        }
    }
    false
}
