// The keys at which a walk branches.
ghost use Rattle.std.specs.Prelude.{◌≡◌, ◌↔◌, ◌<◌, ◌≤◌, ℕ, true, length, AllPairs, IfOk, IfSome, IsFalse, IsNone, IsTrue};
ghost use Rattle.events.specs.declared.operation.Operation.{Operation as Done};
ghost use Rattle.map_object.specs.MapObject.{value_at};
ghost use Rattle.follow_laws.specs.KeyedCalls.{concerns_key, effect_at, read_of};
ghost use Rattle.follow_cuts.specs.Positions.{AreBranchKeys, DoesNotTie, EndsFirst, HasBranchKey, HasSomeOf, IsBranching, IsFirstEnded, IsLeftAt, Misses, MissesSomeOf, kept_at, left_of};

use crate::position::{Position, after_taken};
use events::{Call, Memory, Operation, Reply};
use map_object::SortedMap;
use std::alloc::Global;

/// How a walk goes on: by the calls that began before this answer, at some keys or at all.
#[derive(Drop)]
pub(crate) struct Branching {
    pub answered: usize,
    pub keys: Option<Vec<u64>>,
}

/// The most keys at which a walk branches. If calls tie more than these, it branches at all.
const MOST_KEYS: usize = 64;

/// How a walk goes on from a position at which the call at this place ended first.
pub(crate) fn branching_at(
    alloc: Global,
    calls: &[Operation],
    position: &Position,
    place: usize,
    answered: usize,
) -> Result<Branching, Memory>
    requires rising { AllPairs (λ a b. a.inv < b.inv) calls.now }
    requires marks { length position.now.taken.items ≡ length calls.now }
    requires first { IsFirstEnded calls.now position.now.taken.items place answered }
    ensures answer { IfOk result (λ b. b.answered ≡ answered) }
    ensures branching { IfOk result (IsBranching (kept_at calls.now position.now)) }
{
    let keys = branch_keys(alloc, calls, position, &calls[place], answered)?;
    Ok(Branching { answered, keys })
}

/// Keys that no call ties to others. This call has one of them. There are none if it would take too
/// many.
fn branch_keys(
    alloc: Global,
    calls: &[Operation],
    position: &Position,
    ended: &Operation,
    answered: usize,
) -> Result<Option<Vec<u64>>, Memory>
    requires rising { AllPairs (λ a b. a.inv < b.inv) calls.now }
    requires marks { length position.now.taken.items ≡ length calls.now }
    ensures { IfOk result (λ found. IfSome found
        (λ keys. AreBranchKeys answered (kept_at calls.now position.now) ended.now keys.items)) }
{
    let Some(first) = own_key(ended, &position.map) else {
        return Ok(None);
    };
    let mut keys = vec![in alloc; first]?;
    for _ in 0..MOST_KEYS {
        let Some(place) = tying_call(calls, position, answered, &keys) else {
            return Ok(Some(keys));
        };
        let Some(key) = missed_key(&calls[place], &position.map) else {
            return Ok(None);
        };
        keys.push(key)?;
    }
    Ok(None)
}

/// The key of a call of one key, or a key that a scan misses.
fn own_key(call: &Operation, map: &SortedMap) -> Option<u64>
    ensures { IfSome result (λ key. concerns_key call.now.call key ≡ true) }
{
    let key = call.call.low_key();
    if key == call.call.high_key() {
        return Some(key);
    }
    missed_key(call, map)
}

/// A call that is left, began before this answer, and ties these keys to others.
fn tying_call(
    calls: &[Operation],
    position: &Position,
    answered: usize,
    keys: &[u64],
) -> Option<usize>
    requires rising { AllPairs (λ a b. a.inv < b.inv) calls.now }
    requires marks { length position.now.taken.items ≡ length calls.now }
    ensures known { IfSome result (λ place. place < length calls.now) }
    ensures none { IsNone result → (n : ℕ) (o : Done) → IsLeftAt calls.now position.now.taken.items n o
        → o.inv ≤ answered → DoesNotTie keys.now position.now.map o }
{
    let mut place = 0;
    while place < calls.len() {
        if position.taken[place] {
            place = after_taken(&position.taken, place);
            continue;
        }
        let call = &calls[place];
        if answered < call.inv {
            return None;
        }
        if ties(call, keys, &position.map) {
            return Some(place);
        }
        place += 1;
    }
    None
}

/// Whether a call ties these keys to others.
fn ties(call: &Operation, keys: &[u64], map: &SortedMap) -> bool
    ensures { IsFalse result → DoesNotTie keys.now map.now call.now }
{
    call.call.low_key() < call.call.high_key()
        && has_some_of(call, keys)
        && !misses_some_of(call, keys, map)
}

/// Whether a call has some of these keys.
fn has_some_of(call: &Operation, keys: &[u64]) -> bool
    ensures { IsTrue result ↔ HasSomeOf keys.now call.now }
{
    for key in keys {
        if is_of(call, *key) {
            return true;
        }
    }
    false
}

/// Whether a call is of this key.
fn is_of(call: &Operation, key: u64) -> bool
    ensures { IsTrue result ↔ (concerns_key call.now.call key ≡ true) }
{
    call.call.low_key() <= key && key <= call.call.high_key()
}

/// Whether a call is of the keys at which a walk branches.
pub(crate) fn has_branch_key(call: &Operation, branching: &Branching) -> bool
    ensures { IsTrue result ↔ HasBranchKey branching.now call.now }
{
    match &branching.keys {
        Some(keys) => has_some_of(call, keys),
        None => true,
    }
}

/// Whether a scan misses some of these keys.
fn misses_some_of(call: &Operation, keys: &[u64], map: &SortedMap) -> bool
    ensures { IsTrue result → MissesSomeOf keys.now map.now call.now }
{
    for key in keys {
        if misses(call, *key, map) {
            return true;
        }
    }
    false
}

/// Whether a scan reported another value at a key than the map holds.
fn misses(call: &Operation, key: u64, map: &SortedMap) -> bool
    ensures { IsTrue result → Misses map.now call.now key }
{
    match reported_pairs(call) {
        Some(reported) => is_of(call, key) && value_in(reported, key) != map.value(key),
        None => false,
    }
}

/// The pairs that a scan reported.
fn reported_pairs(call: &Operation) -> Option<&[(u64, u64)]>
    ensures { IfSome result (λ reported. (key : ℕ) → concerns_key call.now.call key ≡ true
        → effect_at call.now.call call.now.response key ≡ read_of (value_at reported.now key)) }
{
    if !matches!(call.call, Call::Scan(..)) {
        return None;
    }
    match &call.response {
        Some(response) => match &response.reply {
            Reply::Pairs(pairs) => Some(pairs.as_slice()),
            _ => None,
        },
        None => None,
    }
}

/// The value at a key among some pairs, the first if there are several.
fn value_in(pairs: &[(u64, u64)], key: u64) -> Option<u64>
    ensures { result ≡ value_at pairs.now key }
{
    for (other, value) in pairs {
        if *other == key {
            return Some(*value);
        }
    }
    None
}

/// A key that a scan misses, if it was answered by pairs of rising keys and does not fit the map.
fn missed_key(call: &Operation, map: &SortedMap) -> Option<u64>
    ensures { IfSome result (Misses map.now call.now) }
{
    let reported = reported_pairs(call)?;
    let key = first_difference(reported, pairs_from(map, call.call.low_key()))?;
    if misses(call, key, map) {
        Some(key)
    } else {
        None
    }
}

/// The pairs of a map from a key on.
fn pairs_from(map: &SortedMap, low: u64) -> &[(u64, u64)] {
    let pairs = map.pairs();
    let from = pairs.partition_point(|pair| pair.0 < low);
    &pairs[from..]
}

/// The least key at which two lists of pairs differ, each by rising key.
fn first_difference(one: &[(u64, u64)], other: &[(u64, u64)]) -> Option<u64> {
    for place in 0..one.len() {
        if other.len() <= place {
            return Some(one[place].0);
        }
        if one[place] != other[place] {
            return Some(one[place].0.min(other[place].0));
        }
    }
    if one.len() < other.len() {
        return Some(other[one.len()].0);
    }
    None
}
