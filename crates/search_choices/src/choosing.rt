// The calls that may come next.
ghost use Rattle.std.specs.Prelude.{◌≡◌, ◌+◌, ◌<◌, ◌≤◌, ◌^◌, true, false, length, Some, slice_get, AllPairs, IfOk, MatchOption};
ghost use Rattle.std.specs.Prelude.{◌↔◌, All, IsTrue, IsSomeAnd, IsPermutation};
ghost use Rattle.events.specs.Precedence.{NonePrecedesItself};
ghost use Rattle.map_object.specs.MapObject.{Contents, IsRising};
ghost use Rattle.orders.specs.Orders.{IsOrder};
ghost use Rattle.memo.proofs.FrontLemmas.{IsNext};
ghost use Rattle.search.specs.Remaining.{IsEarliestAnswer};
ghost use Rattle.search_choices.specs.FirstKeys.{IsCallOfOne, AreNextOfOne};
ghost use Rattle.search_choices.specs.Idle.{IsPassedOver};
ghost use Rattle.search_choices.specs.Standing.{places, StandsBare, AreChoices, IsReduced};

use crate::branch::CallSearch;
use crate::dead::{end_of_look, is_dead_end, is_futile, names};
use crate::first_keys::first_keys;
use crate::idle::{are_idle, is_taken, is_vain};
use crate::twins::first_twins;
use call_effects::{earlier_answer, ended_after, is_read};
use events::{Call, Memory, Operation};
use orders::may_come_next;
use std::alloc::Global;

/// The calls to try next in the state of a search, the last one first: one read on its own, if
/// there is one, or else all calls that may come next. Those that were answered first are tried
/// first. Pending ones are passed over if no completed one could wait for them, or if they would
/// change nothing (`vain_calls_are_left_out`). Otherwise they are tried last, by invocation. If
/// several calls are left to try, only those of a few keys are, pending ones too, if such keys are
/// seen (`few_keys_go_first`). Of calls that ask the same and are answered the same, only the first
/// is tried (`twins_go_first`). Calls that are seen to be futile are left out, and all if a call
/// that is left is seen to be stuck. `None` if all completed calls are taken.
pub fn choices(
    alloc: Global,
    calls: &[Operation],
    standing: &CallSearch,
) -> Result<Option<Vec<u32>>, Memory>
    ghost start: { Contents }
    requires few { length calls.now + 1 < 2 ^ 32 }
    requires apart { NonePrecedesItself calls.now }
    requires rising { AllPairs (λ a b. a.inv < b.inv) calls.now }
    requires start_rises { IsRising start }
    requires stands { StandsBare start calls.now standing.now }
    ensures { IfOk result (λ found. MatchOption found
        (IsOrder start calls.now (places standing.now.levels.items))
        (λ v. AreChoices start calls.now (places standing.now.levels.items) v.items
        × (length v.items ≤ length calls.now))) }
{
    let Some(answered) = earliest_answer(calls, standing) else {
        return Ok(None);
    };
    let next = next_calls(alloc, calls, standing, answered)?;
    if is_lone_read(calls, &next) {
        return Ok(Some(next));
    }
    let end = end_of_look(calls, standing);
    let first = first_of_look(calls, standing);
    if is_dead_end(
        calls,
        standing,
        end,
        first,
        last_of_look(standing, answered),
    ) {
        return Ok(Some(Vec::new(alloc)));
    }
    let few = narrowed(alloc, calls, standing, answered, next)?;
    let firsts = first_twins(alloc, calls, &by_answer(calls, few))?;
    let rest = hopeful(alloc, calls, standing, end, &firsts)?;
    Ok(Some(reversed(rest)))
}

/// Whether a list has only one call, and its answer says that it changed nothing.
fn is_lone_read(calls: &[Operation], next: &[u32]) -> bool {
    let [place] = next else {
        return false;
    };
    match calls.get(*place as usize) {
        Some(call) => is_read(call),
        None => false,
    }
}

/// Keeps, of several calls to try, only those of a few keys, if such keys are seen.
fn narrowed(
    alloc: Global,
    calls: &[Operation],
    standing: &CallSearch,
    answered: usize,
    next: Vec<u32>,
) -> Result<Vec<u32>, Memory>
    ghost start: { Contents }
    requires few { length calls.now + 1 < 2 ^ 32 }
    requires apart { NonePrecedesItself calls.now }
    requires rising { AllPairs (λ a b. a.inv < b.inv) calls.now }
    requires start_rises { IsRising start }
    requires stands { StandsBare start calls.now standing.now }
    requires earliest { IsEarliestAnswer calls.now (places standing.now.levels.items)
        (Some answered) }
    requires choices { AreChoices start calls.now (places standing.now.levels.items) next.items }
    requires next_few { length next.items ≤ length calls.now }
    ensures choices { IfOk result (λ v. AreChoices start calls.now
        (places standing.now.levels.items) v.items) }
    ensures few { IfOk result (λ v. length v.items ≤ length calls.now) }
{
    if next.len() < 2 {
        return Ok(next);
    }
    let Some(keys) = first_keys(alloc, calls, standing, answered)? else {
        return Ok(next);
    };
    let few = next_of_keys(alloc, calls, standing, answered, &keys)?;
    Ok(few)
}

/// The calls of these keys among those that may come next, by rising place.
fn next_of_keys(
    alloc: Global,
    calls: &[Operation],
    standing: &CallSearch,
    answered: usize,
    keys: &[u64],
) -> Result<Vec<u32>, Memory>
    ghost start: { Contents }
    requires few { length calls.now + 1 < 2 ^ 32 }
    requires rising { AllPairs (λ a b. a.inv < b.inv) calls.now }
    requires stands { StandsBare start calls.now standing.now }
    requires earliest { IsEarliestAnswer calls.now (places standing.now.levels.items)
        (Some answered) }
    ensures choices { IfOk result (λ v. AreNextOfOne start calls.now
        (places standing.now.levels.items) keys.now v.items) }
    ensures few { IfOk result (λ v. length v.items ≤ length calls.now) }
{
    let mut next = Vec::new(alloc);
    for place in standing.low..calls.len() {
        let call = &calls[place];
        if answered < call.inv {
            return Ok(next);
        }
        if is_of_one(&call.call, keys) && may_come(calls, standing, place, answered, false) {
            next.push(place as u32)?;
        }
    }
    Ok(next)
}

/// Whether a call is one of these keys, and no scan.
fn is_of_one(call: &Call, keys: &[u64]) -> bool
    ensures { IsTrue result ↔ IsCallOfOne keys.now call.now }
{
    for key in keys {
        if names(call, *key) {
            return true;
        }
    }
    false
}

/// The place from which on a call has to begin to be tested for being stuck. At the start of a
/// search all calls are tested. Those that began by the earliest answer then were tested before the
/// last call was taken. But if that call was a read, none were tested there, and the calls before it
/// count too. A call that was not futile leaves no call stuck, unless it is a replace, which may put
/// nothing. The place only saves tests: a call that is seen to be stuck is stuck, whatever the place.
fn first_of_look(calls: &[Operation], standing: &CallSearch) -> usize {
    let mut first = usize::MAX;
    for level in standing.levels.iter().rev() {
        let Some(call) = calls.get(level.place as usize) else {
            return 0;
        };
        first = first.min(answer_of(calls, level.place));
        if matches!(call.call, Call::Replace(_, _, _)) {
            return 0;
        }
        if !is_read(call) {
            return first;
        }
    }
    0
}

/// The place up to which a call has to begin to be tested for being stuck. At the start of a search
/// all calls are tested, and later those that begin no later than the earliest answer.
fn last_of_look(standing: &CallSearch, answered: usize) -> usize {
    if standing.levels.is_empty() {
        return usize::MAX;
    }
    answered
}

/// The calls of a list that are not seen to be futile.
fn hopeful(
    alloc: Global,
    calls: &[Operation],
    standing: &CallSearch,
    end: usize,
    next: &[u32],
) -> Result<Vec<u32>, Memory>
    ghost start: { Contents }
    requires rising { AllPairs (λ a b. a.inv < b.inv) calls.now }
    requires start_rises { IsRising start }
    requires stands { StandsBare start calls.now standing.now }
    requires from { standing.now.low ≤ end }
    requires within { end ≤ length calls.now }
    requires known { All (λ n. n < length calls.now) next.now }
    ensures { IfOk result (λ v. IsReduced start calls.now (places standing.now.levels.items)
        next.now v.items) }
{
    let mut rest = Vec::new(alloc);
    for place in next {
        if !is_futile(calls, standing, end, *place as usize) {
            rest.push(*place)?;
        }
    }
    Ok(rest)
}

/// The calls at these places, the one that was answered first first. Pending ones come after all
/// others, by invocation.
fn by_answer(calls: &[Operation], mut rest: Vec<u32>) -> Vec<u32>
    ensures { IsPermutation rest.items result.items }
{
    rest.sort_unstable_by_key(|place| (answer_of(calls, *place), *place));
    rest
}

/// A list from its end.
fn reversed(mut rest: Vec<u32>) -> Vec<u32>
    ensures { IsPermutation rest.items result.items }
{
    rest.reverse();
    rest
}

/// The place of a call's answer, and of a pending call a place after all answers.
fn answer_of(calls: &[Operation], place: u32) -> usize {
    let Some(call) = calls.get(place as usize) else {
        return usize::MAX;
    };
    match &call.response {
        Some(response) => response.res,
        None => usize::MAX,
    }
}

/// One read that may come next, or else all calls that may, by rising place. Pending calls are left
/// out if no completed call that could come next waits for them.
fn next_calls(
    alloc: Global,
    calls: &[Operation],
    standing: &CallSearch,
    answered: usize,
) -> Result<Vec<u32>, Memory>
    ghost start: { Contents }
    requires few { length calls.now + 1 < 2 ^ 32 }
    requires apart { NonePrecedesItself calls.now }
    requires rising { AllPairs (λ a b. a.inv < b.inv) calls.now }
    requires start_rises { IsRising start }
    requires stands { StandsBare start calls.now standing.now }
    requires earliest { IsEarliestAnswer calls.now (places standing.now.levels.items)
        (Some answered) }
    ensures choices { IfOk result (λ v. AreChoices start calls.now
        (places standing.now.levels.items) v.items) }
    ensures few { IfOk result (λ v. length v.items ≤ length calls.now) }
{
    let idle = are_idle(calls, standing, answered);
    let mut next = Vec::new(alloc);
    for place in standing.low..calls.len() {
        let call = &calls[place];
        if answered < call.inv {
            return Ok(next);
        }
        if may_come(calls, standing, place, answered, idle) {
            if is_read(call) {
                return Ok(Vec::from_slice(alloc, &[place as u32])?);
            }
            next.push(place as u32)?;
        }
    }
    Ok(next)
}

/// Whether a call that was not invoked after the earliest answer may come next, and is not passed
/// over.
fn may_come(
    calls: &[Operation],
    standing: &CallSearch,
    place: usize,
    answered: usize,
    idle: bool,
) -> bool
    ghost start: { Contents }
    requires stands { StandsBare start calls.now standing.now }
    requires earliest { IsEarliestAnswer calls.now (places standing.now.levels.items)
        (Some answered) }
    requires known { place < length calls.now }
    requires early { IsSomeAnd (slice_get calls.now place) (λ a. a.inv ≤ answered) }
    ensures next { result ≡ true → IsNext start calls.now (places standing.now.levels.items) place }
    ensures not_next { result ≡ false → IsNext start calls.now (places standing.now.levels.items)
        place
        → IsPassedOver idle standing.now.map calls.now place }
{
    if is_taken(standing, place) {
        return false;
    }
    let call = &calls[place];
    if call.response.is_none() && (idle || is_vain(&standing.map, &call.call)) {
        return false;
    }
    may_come_next(&standing.map, call)
}

/// The earliest answer of a call that is left.
fn earliest_answer(calls: &[Operation], standing: &CallSearch) -> Option<usize>
    ghost start: { Contents }
    requires apart { NonePrecedesItself calls.now }
    requires rising { AllPairs (λ a b. a.inv < b.inv) calls.now }
    requires stands { StandsBare start calls.now standing.now }
    ensures { IsEarliestAnswer calls.now (places standing.now.levels.items) result }
{
    let mut earliest = None;
    for place in standing.low..calls.len() {
        let call = &calls[place];
        if ended_after(earliest, call.inv) {
            return earliest;
        }
        if !is_taken(standing, place) {
            earliest = earlier_answer(earliest, &call.response);
        }
    }
    earliest
}
