// Which keys are named.
ghost use Rattle.std.specs.Prelude.{◌≡◌, ◌≢◌, ◌⊎◌, ◌↔◌, ◌<◌, ℕ, map, AllPairs, Contains, IfOk, IsTrue, OnOk};
ghost use Rattle.map_object.specs.MapObject.{value_at};
ghost use Rattle.follow_cuts.specs.PartCuts.{kept_of};
ghost use Rattle.follow_violations.specs.KeyLosses.{IsNamed, IsOwnKey, key_of};
ghost use Rattle.follow_violations.specs.Collecting.{AreAdded, AreAddedOf, DiffersWithin, GivesDiffering, ListsOther, Names};

use crate::reported::map_of;
use events::{Call, Memory, Operation, Reply};
use follow_cuts::Past;
use map_object::SortedMap;
use std::alloc::Global;

/// The keys that are named in some past, and the key of a call, if one is given that has one,
/// rising, each once.
pub(crate) fn named_keys(
    alloc: Global,
    own: Option<Call>,
    pasts: &[Past],
) -> Result<Vec<u64>, Memory>
    ensures rising { IfOk result (λ keys. AllPairs (λ a b. a < b) keys.items) }
    ensures named { IfOk result (λ keys. (key : ℕ) → Contains keys.items key
        ↔ (IsNamed (map kept_of pasts.now) key ⊎ IsOwnKey own key)) }
{
    let keys = own_key(alloc, own)?;
    let all = with_named(alloc, keys, pasts)?;
    Ok(all)
}

/// The key of a call, if one is given. A scan has none of its own.
fn own_key(alloc: Global, own: Option<Call>) -> Result<Vec<u64>, Memory>
    ensures rising { IfOk result (λ keys. AllPairs (λ a b. a < b) keys.items) }
    ensures own { IfOk result (λ keys. (key : ℕ) → Contains keys.items key ↔ IsOwnKey own key) }
{
    let mut keys = Vec::new(alloc);
    let Some(call) = own else {
        return Ok(keys);
    };
    let Some(key) = key_of(call) else {
        return Ok(keys);
    };
    keys.push(key)?;
    Ok(keys)
}

/// The key of a call, unless it is a scan.
fn key_of(call: Call) -> Option<u64>
    ensures { result ≡ key_of call }
{
    match call {
        Call::Get(key) | Call::Insert(key, _) | Call::Remove(key) | Call::Replace(key, _, _) => {
            Some(key)
        }
        Call::Scan(..) => None,
    }
}

/// Those keys, and the ones that are named in some past.
fn with_named(alloc: Global, keys: Vec<u64>, pasts: &[Past]) -> Result<Vec<u64>, Memory>
    requires { AllPairs (λ a b. a < b) keys.items }
    ensures rising { IfOk result (λ all. AllPairs (λ a b. a < b) all.items) }
    ensures named { IfOk result (λ all. (key : ℕ) → Contains all.items key
        ↔ (Contains keys.items key ⊎ IsNamed (map kept_of pasts.now) key)) }
{
    let mut all = keys;
    for past in pasts {
        note_calls(alloc, &mut all, &past.map, &past.calls)?;
        all = in_order(all);
    }
    Ok(all)
}

/// Those keys, rising, each once.
fn in_order(mut keys: Vec<u64>) -> Vec<u64>
    ensures rising { AllPairs (λ a b. a < b) result.items }
    ensures same { (key : ℕ) → Contains result.items key ↔ Contains keys.items key }
{
    keys.sort_unstable();
    keys.dedup();
    keys
}

/// Notes the keys that calls name if the keys hold these pairs.
fn note_calls(
    alloc: Global,
    keys: &mut Vec<u64>,
    map: &SortedMap,
    calls: &[Operation],
) -> Result<(), Memory>
    ensures { OnOk result (AreAdded (Names map.now) calls.now keys.old.items keys.new.items) }
{
    for call in calls {
        note_call(alloc, keys, map, call)?;
    }
    Ok(())
}

/// Notes those that a call names: its only key, or those where it reports something else.
fn note_call(
    alloc: Global,
    keys: &mut Vec<u64>,
    map: &SortedMap,
    call: &Operation,
) -> Result<(), Memory>
    ensures { OnOk result (AreAddedOf (Names map.now call.now) keys.old.items keys.new.items) }
{
    let low = call.call.low_key();
    let high = call.call.high_key();
    if low == high {
        keys.push(low)?;
        return Ok(());
    }
    match &call.response {
        Some(response) => note_reply(alloc, keys, map, &response.reply, low, high),
        None => Ok(()),
    }
}

/// Notes those of a range where a reply lists something else than the map holds.
fn note_reply(
    alloc: Global,
    keys: &mut Vec<u64>,
    map: &SortedMap,
    reply: &Reply,
    low: u64,
    high: u64,
) -> Result<(), Memory>
    ensures { OnOk result (AreAddedOf (ListsOther map.now reply.now low high) keys.old.items
        keys.new.items) }
{
    match reply {
        Reply::Pairs(pairs) => {
            let listed = map_of(alloc, pairs.as_slice())?;
            note_differing(keys, &listed, map, low, high)
        }
        _ => Ok(()),
    }
}

/// Notes those of a range where two maps differ.
fn note_differing(
    keys: &mut Vec<u64>,
    map: &SortedMap,
    other: &SortedMap,
    low: u64,
    high: u64,
) -> Result<(), Memory>
    ensures { OnOk result (AreAddedOf (DiffersWithin map.now other.now low high) keys.old.items
        keys.new.items) }
{
    note_pairs(keys, map.pairs(), map, other, low, high)?;
    note_pairs(keys, other.pairs(), map, other, low, high)
}

/// Notes the keys of pairs where two maps differ, if they are of a range.
fn note_pairs(
    keys: &mut Vec<u64>,
    pairs: &[(u64, u64)],
    map: &SortedMap,
    other: &SortedMap,
    low: u64,
    high: u64,
) -> Result<(), Memory>
    ensures { OnOk result (AreAdded (GivesDiffering map.now other.now low high) pairs.now
        keys.old.items keys.new.items) }
{
    for pair in pairs {
        note_pair(keys, *pair, map, other, low, high)?;
    }
    Ok(())
}

/// Notes the key of a pair, if two maps differ there, and it is of a range.
fn note_pair(
    keys: &mut Vec<u64>,
    pair: (u64, u64),
    map: &SortedMap,
    other: &SortedMap,
    low: u64,
    high: u64,
) -> Result<(), Memory>
    ensures { OnOk result (AreAddedOf (GivesDiffering map.now other.now low high pair) keys.old.items
        keys.new.items) }
{
    let key = pair.0;
    if low <= key && key <= high && differ_at(map, other, key) {
        keys.push(key)?;
    }
    Ok(())
}

/// Whether two maps have different values at a key.
fn differ_at(map: &SortedMap, other: &SortedMap, key: u64) -> bool
    ensures { IsTrue result ↔ (value_at map.now key ≢ value_at other.now key) }
{
    map.value(key) != other.value(key)
}
