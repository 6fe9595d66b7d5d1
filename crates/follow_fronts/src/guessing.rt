// An order is guessed.
ghost use Rattle.std.specs.Prelude.{◌≡◌, ◌↔◌, ◌<◌, true, false, length, AllPairs, IsTrue, OnOk, Contains, ℕ};
ghost use Rattle.events.specs.Precedence.{NonePrecedesItself};
ghost use Rattle.orders.specs.Orders.{IsCompletedAt};
ghost use Rattle.memo.specs.Fronts.{PrecedesAt};
ghost use Rattle.memo.proofs.FrontLemmas.{IsNext};
ghost use Rattle.follow_fronts.specs.Standing.{places, Stands, HasBelow, IsWhole};

use crate::front::Front;
use crate::pushing::push;
use call_effects::is_ended;
use events::{Memory, Operation};
use orders::may_come_next;
use std::alloc::Global;

/// Pushes the calls that are guessed, one after another. One that may not come next is passed over.
pub fn follow(
    alloc: Global,
    calls: &[Operation],
    front: &mut Front,
    guess: &[u32],
) -> Result<(), Memory>
    requires rising { AllPairs (λ a b. a.inv < b.inv) calls.now }
    requires apart { NonePrecedesItself calls.now }
    requires stands { Stands calls.now front.old }
    ensures stands { OnOk result (Stands calls.now front.new) }
    ensures start { OnOk result (front.new.start ≡ front.old.start) }
{
    for place in guess {
        try_next(alloc, calls, front, *place)?;
    }
    Ok(())
}

/// Pushes a call if it may come next. Any number is allowed.
pub fn try_next(
    alloc: Global,
    calls: &[Operation],
    front: &mut Front,
    place: u32,
) -> Result<(), Memory>
    requires rising { AllPairs (λ a b. a.inv < b.inv) calls.now }
    requires apart { NonePrecedesItself calls.now }
    requires stands { Stands calls.now front.old }
    ensures stands { OnOk result (Stands calls.now front.new) }
    ensures start { OnOk result (front.new.start ≡ front.old.start) }
{
    let from = front.low;
    try_after(alloc, calls, front, place, from)
}

/// Pushes a call if it may come next, where the completed calls below a place are in the front. Any
/// number is allowed.
pub fn try_after(
    alloc: Global,
    calls: &[Operation],
    front: &mut Front,
    place: u32,
    from: usize,
) -> Result<(), Memory>
    requires rising { AllPairs (λ a b. a.inv < b.inv) calls.now }
    requires apart { NonePrecedesItself calls.now }
    requires stands { Stands calls.now front.old }
    requires below { HasBelow calls.now (places front.old.levels.items) from }
    ensures stands { OnOk result (Stands calls.now front.new) }
    ensures start { OnOk result (front.new.start ≡ front.old.start) }
    ensures below { OnOk result (HasBelow calls.now (places front.new.levels.items) from) }
{
    if !may_be_next(calls, front, place as usize, from) {
        return Ok(());
    }
    push(alloc, calls, front, place)?;
    Ok(())
}

/// Whether a call may come next, where the completed calls below a place are in the front. Any
/// number is allowed.
fn may_be_next(calls: &[Operation], front: &Front, place: usize, from: usize) -> bool
    requires rising { AllPairs (λ a b. a.inv < b.inv) calls.now }
    requires apart { NonePrecedesItself calls.now }
    requires stands { Stands calls.now front.now }
    requires below { HasBelow calls.now (places front.now.levels.items) from }
    ensures { result ≡ true → IsNext front.now.start calls.now (places front.now.levels.items)
        place }
{
    if place >= calls.len() {
        return false;
    }
    if front.has(place) {
        return false;
    }
    if is_preceded(calls, front, place, from) {
        return false;
    }
    may_come_next(&front.map, &calls[place])
}

/// Whether a call that is not in the front precedes a call. Only one that was invoked before may,
/// and was answered, so none below the place from which on completed calls may be left.
fn is_preceded(calls: &[Operation], front: &Front, place: usize, from: usize) -> bool
    requires rising { AllPairs (λ a b. a.inv < b.inv) calls.now }
    requires apart { NonePrecedesItself calls.now }
    requires stands { Stands calls.now front.now }
    requires known { place < length calls.now }
    requires below { HasBelow calls.now (places front.now.levels.items) from }
    ensures { result ≡ false → (m : ℕ) → PrecedesAt calls.now m place
        → Contains (places front.now.levels.items) m }
{
    for earlier in from..place {
        if is_left_before(calls, front, earlier, place) {
            return true;
        }
    }
    false
}

/// Whether a call is not in the front and precedes another one.
fn is_left_before(calls: &[Operation], front: &Front, earlier: usize, place: usize) -> bool
    requires stands { Stands calls.now front.now }
    requires earlier { earlier < length calls.now }
    requires known { place < length calls.now }
    ensures { result ≡ false → PrecedesAt calls.now earlier place
        → Contains (places front.now.levels.items) earlier }
{
    if front.has(earlier) {
        return false;
    }
    is_ended(&calls[earlier], calls[place].inv)
}

/// The place of the first completed call that is not in the front, or else how many calls there
/// are.
pub fn first_left(calls: &[Operation], front: &Front) -> usize
    requires { Stands calls.now front.now }
    ensures { HasBelow calls.now (places front.now.levels.items) result }
{
    for place in front.low..calls.len() {
        if is_missing(calls, front, place) {
            return place;
        }
    }
    calls.len()
}

/// Whether the front is an order: no completed call is left.
pub fn is_whole(calls: &[Operation], front: &Front) -> bool
    requires { Stands calls.now front.now }
    ensures { IsTrue result ↔ IsWhole calls.now front.now }
{
    for place in front.low..calls.len() {
        if is_missing(calls, front, place) {
            return false;
        }
    }
    true
}

/// Whether a completed call is not in the front.
fn is_missing(calls: &[Operation], front: &Front, place: usize) -> bool
    requires stands { Stands calls.now front.now }
    requires known { place < length calls.now }
    ensures missing { result ≡ true → IsCompletedAt calls.now place
        × (Contains (places front.now.levels.items) place → ⊥) }
    ensures taken { result ≡ false → IsCompletedAt calls.now place
        → Contains (places front.now.levels.items) place }
{
    if front.has(place) {
        return false;
    }
    calls[place].is_completed()
}
