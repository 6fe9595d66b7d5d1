// How far a walk from a past has come.
ghost use Rattle.std.specs.Prelude.{◌≡◌, ◌↔◌, ◌<◌, true, false, length, slice_index_or, Contains, IfOk, IsTrue, OnOk};
ghost use Rattle.follow_cuts.specs.declared.past.Found.{Found as FoundValue};
ghost use Rattle.follow_cuts.specs.Positions.{ArePositionsAlike, AreTaken, IsAfterTaking, IsAtStart, IsCopy};

use crate::past::{Found, Past};
use events::{Memory, Operation};
use map_object::SortedMap;
use orders::apply;
use std::alloc::Global;

/// How far a walk has come: the place of the past that it began at, the map there, which calls of
/// that past are taken, and what pending calls found.
pub(crate) struct Position {
    pub base: usize,
    pub map: SortedMap,
    pub taken: Vec<bool>,
    pub found: Vec<Found>,
}

impl Drop for Position {
    fn drop(self) {
        let Position {
            base: _,
            map: _map,
            taken: _taken,
            found: _found,
        } = self;
    }
}

/// At a past, before any call.
pub(crate) fn at_start(alloc: Global, base: usize, past: &Past) -> Result<Position, Memory>
    ensures { IfOk result (IsAtStart base past.now) }
{
    let taken = vec![in alloc; false; past.calls.len()]?;
    Ok(Position {
        base,
        map: past.map.copy(alloc)?,
        taken,
        found: Vec::from_slice(alloc, &past.found)?,
    })
}

/// A copy of a position.
pub(crate) fn copied(alloc: Global, position: &Position) -> Result<Position, Memory>
    ensures { IfOk result (IsCopy position.now) }
{
    Ok(Position {
        base: position.base,
        map: position.map.copy(alloc)?,
        taken: Vec::from_slice(alloc, &position.taken)?,
        found: Vec::from_slice(alloc, &position.found)?,
    })
}

/// Takes the call at a place.
pub(crate) fn take(
    alloc: Global,
    position: &mut Position,
    call: &Operation,
    place: usize,
) -> Result<(), Memory>
    requires { place < length position.old.taken.items }
    ensures { OnOk result (IsAfterTaking place call.now position.old position.new) }
{
    if call.response.is_none() {
        let key = call.call.low_key();
        let value = position.map.value(key);
        position.found.push(Found {
            inv: call.inv,
            key,
            value,
        })?;
    }
    apply(alloc, &mut position.map, call)?;
    position.taken[place] = true;
    Ok(())
}

/// How many marks are looked at in one step.
const MANY: usize = 16;

/// A place after one at which a call is taken. Between the two all calls are taken. It is the next
/// place, unless as many calls as are looked at in one step follow that are all taken.
pub(crate) fn after_taken(taken: &[bool], place: usize) -> usize
    requires known { place < length taken.now }
    requires taken { slice_index_or taken.now place false ≡ true }
    ensures { AreTaken taken.now place result }
{
    let many = [true; MANY];
    let mut end = place + 1;
    while end + MANY <= taken.len() && taken[end..end + MANY] == many[..] {
        end += MANY;
    }
    end
}

/// Whether two positions are alike: walks from one past that took the same calls, came to the same
/// map, and found the same.
pub(crate) fn are_alike(one: &Position, other: &Position) -> bool
    ensures { IsTrue result → ArePositionsAlike one.now other.now }
{
    if one.base != other.base {
        return false;
    }
    if !have_same_marks(&one.taken, &other.taken) {
        return false;
    }
    if !have_same_pairs(&one.map, &other.map) {
        return false;
    }
    have_same_found(&one.found, &other.found)
}

/// Whether the same calls are marked.
fn have_same_marks(one: &[bool], other: &[bool]) -> bool
    ensures { IsTrue result → one.now ≡ other.now }
{
    one == other
}

/// Whether two maps hold the same.
pub(crate) fn have_same_pairs(one: &SortedMap, other: &SortedMap) -> bool
    ensures { IsTrue result ↔ (one.now ≡ other.now) }
{
    one.pairs() == other.pairs()
}

/// Whether the same was found.
pub(crate) fn have_same_found(one: &[Found], other: &[Found]) -> bool
    ensures { IsTrue result ↔ ((f : FoundValue) → Contains one.now f ↔ Contains other.now f) }
{
    has_all(one, other) && has_all(other, one)
}

/// Whether all of these are among others.
fn has_all(found: &[Found], others: &[Found]) -> bool
    ensures { IsTrue result ↔ ((f : FoundValue) → Contains found.now f → Contains others.now f) }
{
    for one in found {
        if !has(others, one) {
            return false;
        }
    }
    true
}

/// Whether one is among others.
fn has(found: &[Found], one: &Found) -> bool
    ensures { IsTrue result ↔ Contains found.now one.now }
{
    for other in found {
        if other.inv == one.inv && other.key == one.key && other.value == one.value {
            return true;
        }
    }
    false
}
