// The rest of calls if some stay and the others are left out.
ghost use Rattle.std.specs.Prelude.{◌≡◌, ◌&&◌, IfOk};
ghost use Rattle.std.specs.List.{list_any};
ghost use Rattle.events.specs.Precedence.{precedes};
ghost use Rattle.events.specs.Lists.{has_number};
ghost use Rattle.explain_shrink.specs.Overwriting.{says_put, is_between};
ghost use Rattle.explain_shrink.specs.Rest.{opened, gone_of, puts_of, is_overwritten, may_depend_on, is_touched, is_held, if_belongs, left_of};
ghost use Rattle.explain_shrink.specs.Rest.{rest_of};

use crate::telling::{is_sure, puts, tells_put};
use events::{Memory, Operation};
use std::alloc::Global;

/// Returns what is left of calls if only those invoked at these places stay. They are copies,
/// without the answers that depend on what one of the others may have put.
pub(crate) fn rest_of(
    alloc: Global,
    calls: &[Operation],
    puts: &[Operation],
    gone: &[Operation],
    places: &[usize],
) -> Result<Vec<Operation>, Memory>
    requires puts { puts.now ≡ puts_of places.now calls.now }
    requires gone { gone.now ≡ gone_of places.now calls.now }
    ensures { IfOk result (λ rest. rest.items ≡ rest_of places.now calls.now) }
{
    let mut rest = Vec::new(alloc);
    for call in calls {
        if let Some(call) = left_of(alloc, places, puts, gone, call)? {
            rest.push(call)?;
        }
    }
    Ok(rest)
}

/// Copies of the calls that are left out if those stay that were invoked at these places.
pub(crate) fn gone_of(
    alloc: Global,
    calls: &[Operation],
    places: &[usize],
) -> Result<Vec<Operation>, Memory>
    ensures { IfOk result (λ gone. gone.items ≡ gone_of places.now calls.now) }
{
    let mut gone = Vec::new(alloc);
    for call in calls {
        if !has_place(places, call.inv) {
            gone.push(call.copy(alloc)?)?;
        }
    }
    Ok(gone)
}

/// Copies of the calls that stay and say that they put something.
pub(crate) fn puts_of(
    alloc: Global,
    calls: &[Operation],
    places: &[usize],
) -> Result<Vec<Operation>, Memory>
    ensures { IfOk result (λ puts. puts.items ≡ puts_of places.now calls.now) }
{
    let mut puts = Vec::new(alloc);
    for call in calls {
        if has_place(places, call.inv) && says_put(call) {
            puts.push(call.copy(alloc)?)?;
        }
    }
    Ok(puts)
}

/// Returns whether a call was answered in a way that shows that it put something at its key.
pub(crate) fn says_put(call: &Operation) -> bool
    ensures { result ≡ says_put call.now }
{
    puts(call) && is_sure(call)
}

/// Returns what becomes of a call if others are left out.
fn left_of(
    alloc: Global,
    places: &[usize],
    puts: &[Operation],
    gone: &[Operation],
    call: &Operation,
) -> Result<Option<Operation>, Memory>
    ensures { IfOk result (λ left. left ≡ left_of places.now puts.now gone.now call.now) }
{
    if !has_place(places, call.inv) {
        return Ok(None);
    }
    let call = if is_touched(puts, gone, call) {
        without_answer(call)
    } else {
        call.copy(alloc)?
    };
    Ok(if_belongs(call))
}

/// Returns the call, or nothing if it is a pending get or a pending scan.
fn if_belongs(call: Operation) -> Option<Operation>
    ensures { result ≡ if_belongs call }
{
    if call.belongs() { Some(call) } else { None }
}

/// Returns the call without its answer.
pub fn without_answer(call: &Operation) -> Operation
    ensures { result ≡ opened call.now }
{
    Operation {
        call: call.call,
        inv: call.inv,
        response: None,
    }
}

/// Returns whether the calls left out are held by the others: one that stays depends on what one of
/// them may have put, and then waits for such a value.
pub(crate) fn are_held(
    calls: &[Operation],
    puts: &[Operation],
    gone: &[Operation],
    places: &[usize],
) -> bool
    ensures { result ≡ list_any (λ b. has_number places.now b.inv && is_held puts.now gone.now b)
        calls.now }
{
    for call in calls {
        if has_place(places, call.inv) && is_held(puts, gone, call) {
            return true;
        }
    }
    false
}

/// Returns whether a call depends on what one of those left out may have put, and without its
/// answer waits for what one of them may put.
fn is_held(puts: &[Operation], gone: &[Operation], call: &Operation) -> bool
    ensures { result ≡ is_held puts.now gone.now call.now }
{
    is_touched(puts, gone, call) && waits(puts, gone, call)
}

/// Returns whether a call without its answer waits for what one of those left out may put.
fn waits(puts: &[Operation], gone: &[Operation], call: &Operation) -> bool
    ensures { result ≡ list_any (λ a. may_depend_on puts.now a call.now (opened call.now)) gone.now }
{
    let open = without_answer(call);
    for other in gone {
        if may_depend_on(puts, other, call, &open) {
            return true;
        }
    }
    false
}

/// Returns whether a call depends on what one of those left out may have put.
fn is_touched(puts: &[Operation], gone: &[Operation], call: &Operation) -> bool
    ensures { result ≡ is_touched puts.now gone.now call.now }
{
    for other in gone {
        if may_depend_on(puts, other, call, call) {
            return true;
        }
    }
    false
}

/// Returns whether what is left of a call depends on what another one put. It does not if it
/// precedes that one, or if a call that stays overwrites it before.
fn may_depend_on(puts: &[Operation], other: &Operation, call: &Operation, left: &Operation) -> bool
    ensures { result ≡ may_depend_on puts.now other.now call.now left.now }
{
    !precedes(call, other) && tells_put(left, other) && !is_overwritten(puts, other, call)
}

/// Returns whether one of those that stay overwrites what a call put, before another call comes.
fn is_overwritten(puts: &[Operation], first: &Operation, second: &Operation) -> bool
    ensures { result ≡ is_overwritten puts.now first.now second.now }
{
    for put in puts {
        if is_between(first, put, second) {
            return true;
        }
    }
    false
}

/// Returns whether a call of the first one's key is between two others in each order.
fn is_between(first: &Operation, put: &Operation, second: &Operation) -> bool
    ensures { result ≡ is_between first.now put.now second.now }
{
    precedes(first, put)
        && precedes(put, second)
        && put.inv < second.inv
        && put.call.low_key() == first.call.low_key()
}

/// Returns whether a call was answered before another was invoked.
pub fn precedes(first: &Operation, second: &Operation) -> bool
    ensures { result ≡ precedes first.now second.now }
{
    match &first.response {
        Some(response) => response.res < second.inv,
        None => false,
    }
}

/// Returns whether a place is listed.
fn has_place(places: &[usize], place: usize) -> bool
    ensures { result ≡ has_number places.now place }
{
    for listed in places {
        if *listed == place {
            return true;
        }
    }
    false
}
