// All calls, one after another.
ghost use Rattle.std.specs.Prelude.{◌≡◌, ℕ, ◌+◌, ◌<◌, ◌≤◌, ◌↔◌, max, length, All, IfOk, OnOk, IsTrue, MatchBool};
ghost use Rattle.explain_histories.specs.Seats.{begun_of, NoneEndsBefore, EndsBehind, EndsOutside};
ghost use Rattle.explain_histories.specs.Seats.{AreSeated, NoEventsHave, AreEventsWith};

use crate::seats::{Seats, first_answer, first_before};
use events::{Memory, Operation};
use std::alloc::Global;

/// Begins and ends all calls, before any has begun. Returns whether some history has them. It takes
/// time in proportion to the calls, for a fixed number of processes, if they are sorted by rising
/// invocation.
pub fn seat_all(alloc: Global, seats: &mut Seats, calls: &[Operation]) -> Result<bool, Memory>
    ensures { AreSeated calls.now 0 0 seats.old
        → IfOk result (λ all. MatchBool all (AreEventsWith calls.now seats.new.events.items)
        (NoEventsHave calls.now)) }
{
    let mut begun = 0;
    for number in 0..calls.len() {
        begun = later_place(begun, calls[number].inv);
        let fits = seat(alloc, seats, calls, number, begun)?;
        if !fits {
            return Ok(false);
        }
    }
    end_all(alloc, seats, calls)?;
    Ok(true)
}

/// Returns the later of two places.
fn later_place(place: usize, other: usize) -> usize
    ensures { result ≡ max place other }
{
    if place < other { other } else { place }
}

/// Begins the call with a number, after the answers that come before it. The last of the calls up
/// to it begins at this place. Returns whether the call may begin.
fn seat(
    alloc: Global,
    seats: &mut Seats,
    calls: &[Operation],
    number: usize,
    place: usize,
) -> Result<bool, Memory>
    requires within { number < length calls.now }
    requires place { place ≡ begun_of calls.now (number + 1) }
    ensures { AreSeated calls.now number (begun_of calls.now number) seats.old
        → IfOk result (λ begun. MatchBool begun (AreSeated calls.now (number + 1) place seats.new)
        (NoEventsHave calls.now)) }
{
    if !may_follow(&calls[..number], &calls[number], place) {
        return Ok(false);
    }
    end_before(alloc, seats, calls, place)?;
    let begun = seats.begin(calls, number)?;
    Ok(begun)
}

/// Returns whether a call that begins together with the last of those before it, or later, may
/// follow them.
fn may_follow(before: &[Operation], call: &Operation, place: usize) -> bool
    ensures { IsTrue result ↔ (EndsBehind place call.now
        × All (EndsOutside call.now.inv place) before.now) }
{
    ends_after(place, call) && all_end_outside(call.inv, place, before)
}

/// Returns whether a call is answered at a place or after it; a pending call is.
fn ends_after(place: usize, call: &Operation) -> bool
    ensures { IsTrue result ↔ EndsBehind place call.now }
{
    match &call.response {
        Some(response) => place <= response.res,
        None => true,
    }
}

/// Returns whether no call is answered from one place to another. If there are no such places, no
/// call is looked at.
fn all_end_outside(low: usize, high: usize, calls: &[Operation]) -> bool
    ensures { IsTrue result ↔ All (EndsOutside low high) calls.now }
{
    if high <= low {
        return true;
    }
    for call in calls {
        if !ends_outside(low, high, call) {
            return false;
        }
    }
    true
}

fn ends_outside(low: usize, high: usize, call: &Operation) -> bool
    ensures { IsTrue result ↔ EndsOutside low high call.now }
{
    match &call.response {
        Some(response) => response.res < low || high <= response.res,
        None => true,
    }
}

/// Ends the open calls that are answered before a place, in the order of their answers.
fn end_before(
    alloc: Global,
    seats: &mut Seats,
    calls: &[Operation],
    place: usize,
) -> Result<(), Memory>
    ensures seated { (count : ℕ) → AreSeated calls.now count place seats.old
        → OnOk result (AreSeated calls.now count place seats.new) }
    ensures none { OnOk result (NoneEndsBefore place seats.new.open_seats.items) }
{
    while let Some(at) = first_before(&seats.open_seats, place) {
        seats.end(alloc, calls, at)?;
    }
    Ok(())
}

/// Ends the open calls that are answered, in the order of their answers, when all have begun.
fn end_all(alloc: Global, seats: &mut Seats, calls: &[Operation]) -> Result<(), Memory>
    ensures { (limit : ℕ) → AreSeated calls.now (length calls.now) limit seats.old
        → OnOk result (AreEventsWith calls.now seats.new.events.items) }
{
    while let Some((at, _)) = first_answer(&seats.open_seats) {
        seats.end(alloc, calls, at)?;
    }
    Ok(())
}
