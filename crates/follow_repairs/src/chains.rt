// An order is guessed by the values that calls found and put.
ghost use Rattle.std.specs.Prelude.{◌≡◌, ◌<◌, AllPairs, OnOk};
ghost use Rattle.events.specs.Precedence.{NonePrecedesItself};
ghost use Rattle.follow_fronts.specs.Standing.{Stands};

use call_effects::is_read;
use events::{Call, Memory, Operation, Reply};
use follow_fronts::{Front, first_left, try_after};
use map_object::SortedMap;
use orders::may_come_next;
use std::alloc::Global;

/// How many calls a chain goes back, at most.
const MOST: usize = 64;

/// A value that a key is to have, or none.
#[derive(Clone, Copy)]
pub(crate) struct Need {
    pub(crate) key: u64,
    pub(crate) value: Option<u64>,
}

/// Pushes calls that are guessed one after another, until none is guessed: a read that may come
/// next; or else the call that was answered first, if it may; or else the call with which a chain
/// begins that leads to what this one found. In a chain each call found what the one before it put,
/// and only the first may be pending. A step costs a few looks at the calls that began before the
/// first answer.
pub fn follow_chains(alloc: Global, calls: &[Operation], front: &mut Front) -> Result<(), Memory>
    requires rising { AllPairs (λ a b. a.inv < b.inv) calls.now }
    requires apart { NonePrecedesItself calls.now }
    requires stands { Stands calls.now front.old }
    ensures stands { OnOk result (Stands calls.now front.new) }
    ensures start { OnOk result (front.new.start ≡ front.old.start) }
{
    let from = first_left(calls, front);
    for _ in 0..calls.len() {
        let Some(place) = next_place(calls, front, from) else {
            return Ok(());
        };
        let len = front.levels.len();
        try_after(alloc, calls, front, place, from)?;
        if front.levels.len() == len {
            return Ok(());
        }
    }
    Ok(())
}

/// The place of the call that is guessed to come next, where all completed calls before a place
/// are in the front.
fn next_place(calls: &[Operation], front: &Front, from: usize) -> Option<u32>
    requires { Stands calls.now front.now }
{
    match next_of_chain(calls, front, from) {
        Some(place) => u32::try_from(place).ok(),
        None => None,
    }
}

/// The call that is guessed to come next, where all completed calls before a place are in the
/// front.
fn next_of_chain(calls: &[Operation], front: &Front, from: usize) -> Option<usize>
    requires { Stands calls.now front.now }
{
    let (target, answered) = first_answered(calls, front, from)?;
    if let Some(read) = next_read(calls, front, from, answered) {
        return Some(read);
    }
    let call = calls.get(target)?;
    if may_come_next(&front.map, call) {
        return Some(target);
    }
    let need = need_of(&front.map, call)?;
    let here = front.map.value(need.key);
    if here.is_some() {
        if let Some(finder) = finder(calls, front, answered, need.key, here) {
            return Some(finder);
        }
    }
    head(calls, front, answered, need, here)
}

/// The call that was answered first among those that are left, and when.
fn first_answered(calls: &[Operation], front: &Front, from: usize) -> Option<(usize, usize)>
    requires { Stands calls.now front.now }
{
    let mut first = None;
    let mut earliest = usize::MAX;
    for place in from..calls.len() {
        if earliest < calls[place].inv {
            return first;
        }
        let answered = answer_of(&calls[place]);
        if answered < earliest && !front.has(place) {
            earliest = answered;
            first = Some((place, answered));
        }
    }
    first
}

/// When a call was answered, and of a pending call a place after all answers.
fn answer_of(call: &Operation) -> usize {
    match &call.response {
        Some(response) => response.res,
        None => usize::MAX,
    }
}

/// A read that may come next.
fn next_read(calls: &[Operation], front: &Front, from: usize, answered: usize) -> Option<usize>
    requires { Stands calls.now front.now }
{
    for place in from..calls.len() {
        let call = &calls[place];
        if answered < call.inv {
            return None;
        }
        if !front.has(place) && is_read(call) && may_come_next(&front.map, call) {
            return Some(place);
        }
    }
    None
}

/// What a call found at a key at which the map has something else.
pub(crate) fn need_of(map: &SortedMap, call: &Operation) -> Option<Need> {
    let Some(response) = &call.response else {
        return None;
    };
    let key = call.call.low_key();
    match &response.reply {
        Reply::Some(value) => Some(Need {
            key,
            value: Some(*value),
        }),
        Reply::None => Some(Need { key, value: None }),
        Reply::Pairs(pairs) => match missing(map, pairs.as_slice()) {
            Some(need) => Some(need),
            None => unlisted(map, &call.call, pairs.as_slice()),
        },
        _ => None,
    }
}

/// The first of some pairs that a map does not have.
fn missing(map: &SortedMap, pairs: &[(u64, u64)]) -> Option<Need> {
    for pair in pairs {
        let value = Some(pair.1);
        if map.value(pair.0) != value {
            return Some(Need { key: pair.0, value });
        }
    }
    None
}

/// The first key of a scan that a map has, and the pairs have not.
fn unlisted(map: &SortedMap, call: &Call, pairs: &[(u64, u64)]) -> Option<Need> {
    let mut listed = 0;
    for pair in map.pairs() {
        if listed < pairs.len() && pairs[listed].0 == pair.0 {
            listed += 1;
        } else if call.low_key() <= pair.0 && pair.0 <= call.high_key() {
            return Some(Need {
                key: pair.0,
                value: None,
            });
        }
    }
    None
}

/// A call that is left, and found at a key what is there, and changed it.
fn finder(
    calls: &[Operation],
    front: &Front,
    answered: usize,
    key: u64,
    here: Option<u64>,
) -> Option<usize>
    requires { Stands calls.now front.now }
{
    for place in front.low..calls.len() {
        if front.has(place) {
            continue;
        }
        let call = &calls[place];
        if answered < call.inv {
            return None;
        }
        if has_found(call, key, here) && !is_read(call) {
            return Some(place);
        }
    }
    None
}

/// Whether a call of one key found a value there, or none.
fn has_found(call: &Operation, key: u64, value: Option<u64>) -> bool {
    is_of(&call.call, key) && found_by(call) == Some(value)
}

/// Whether a call is of one key only.
fn is_of(call: &Call, key: u64) -> bool {
    call.low_key() == key && call.high_key() == key
}

/// What a call of one key reported that it found.
fn found_by(call: &Operation) -> Option<Option<u64>> {
    let Some(response) = &call.response else {
        return None;
    };
    match &response.reply {
        Reply::Some(value) => Some(Some(*value)),
        Reply::None => Some(None),
        _ => None,
    }
}

/// The call with which a chain begins that leads from a key's value to the one that it is to have.
/// If there is none, but the key has a value, it is one that leads from there to none.
fn head(
    calls: &[Operation],
    front: &Front,
    answered: usize,
    need: Need,
    here: Option<u64>,
) -> Option<usize>
    requires { Stands calls.now front.now }
{
    if let Some(place) = writer(calls, front, answered, need) {
        if let Some(first) = beginning(calls, front, answered, need.key, place, here) {
            return Some(first);
        }
    }
    if here.is_none() {
        return None;
    }
    clearing(calls, front, answered, need.key, here)
}

/// The call with which the chain begins that ends with a call.
fn beginning(
    calls: &[Operation],
    front: &Front,
    answered: usize,
    key: u64,
    last: usize,
    here: Option<u64>,
) -> Option<usize>
    requires { Stands calls.now front.now }
{
    let mut place = last;
    for _ in 0..MOST {
        let Some(value) = found_by(calls.get(place)?) else {
            return Some(place);
        };
        if value == here {
            return Some(place);
        }
        if value.is_none() {
            return None;
        }
        place = writer(calls, front, answered, Need { key, value })?;
    }
    None
}

/// A call that is left and may put a value, or none, at a key: the one that was answered first, or
/// else a pending one.
fn writer(calls: &[Operation], front: &Front, answered: usize, need: Need) -> Option<usize>
    requires { Stands calls.now front.now }
{
    let mut best = None;
    let mut earliest = usize::MAX;
    for place in front.low..calls.len() {
        if front.has(place) {
            continue;
        }
        let call = &calls[place];
        if answered < call.inv {
            return best;
        }
        if is_read(call) || !puts(&call.call, need) {
            continue;
        }
        if best.is_none() || answer_of(call) < earliest {
            earliest = answer_of(call);
            best = Some(place);
        }
    }
    best
}

/// Whether a call puts a value, or none, at a key.
pub(crate) fn puts(call: &Call, need: Need) -> bool {
    match call {
        Call::Insert(key, value) | Call::Replace(key, _, value) => *key == need.key
            && need.value == Some(*value),
        Call::Remove(key) => *key == need.key && need.value.is_none(),
        Call::Get(_) | Call::Scan(_, _) => false,
    }
}

/// The call with which a chain begins that leads from what a key has to none: to the removal that
/// was answered first, or else to a pending one.
fn clearing(
    calls: &[Operation],
    front: &Front,
    answered: usize,
    key: u64,
    here: Option<u64>,
) -> Option<usize>
    requires { Stands calls.now front.now }
{
    let none = Need { key, value: None };
    let mut best = None;
    let mut earliest = usize::MAX;
    for place in front.low..calls.len() {
        if front.has(place) {
            continue;
        }
        let call = &calls[place];
        if answered < call.inv {
            return best;
        }
        if is_read(call) || !puts(&call.call, none) {
            continue;
        }
        if best.is_none() || answer_of(call) < earliest {
            if let Some(first) = beginning(calls, front, answered, key, place, here) {
                earliest = answer_of(call);
                best = Some(first);
            }
        }
    }
    best
}
