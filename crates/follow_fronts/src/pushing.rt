// Calls are pushed to a front, and taken back.
ghost use Rattle.std.specs.Prelude.{◌≡◌, ◌<◌, ◌++◌, ◌∷◌, [], true, false, length, take, reverse, Contains, IfOk, OnOk};
ghost use Rattle.memo.specs.Fronts.{IsFront};
ghost use Rattle.memo.proofs.FrontLemmas.{IsNext};
ghost use Rattle.follow_fronts.specs.Closed.{IsClosed};
ghost use Rattle.follow_fronts.specs.Mending.{GoesOn};
ghost use Rattle.follow_fronts.specs.Standing.{places, Stands, IsPopped, IsFromOn};

use crate::front::{Front, Level};
use events::{Memory, Operation};
use orders::may_come_next;
use search::{take_call, undo_call};
use std::alloc::Global;

/// Pushes a call that may come next.
pub fn push(alloc: Global, calls: &[Operation], front: &mut Front, place: u32) -> Result<(), Memory>
    requires stands { Stands calls.now front.old }
    requires next { IsNext front.old.start calls.now (places front.old.levels.items) place }
    ensures stands { OnOk result (Stands calls.now front.new) }
    ensures start { OnOk result (front.new.start ≡ front.old.start) }
    ensures places { OnOk result (places front.new.levels.items
        ≡ places front.old.levels.items ++ place ∷ []) }
{
    let undo = take_call(alloc, &mut front.map, &calls[place as usize])?;
    front.levels.push(Level { place, undo })?;
    front.mark(place as usize);
    Ok(())
}

/// Pushes calls one after another, and says whether all could be: each has to be answered as the
/// map answers it there.
pub fn push_all(
    alloc: Global,
    calls: &[Operation],
    front: &mut Front,
    more: &[u32],
) -> Result<bool, Memory>
    requires stands { Stands calls.now front.old }
    requires closed { IsClosed calls.now (places front.old.levels.items ++ more.now) }
    ensures stands { OnOk result (Stands calls.now front.new) }
    ensures start { OnOk result (front.new.start ≡ front.old.start) }
    ensures all { IfOk result (λ all. all ≡ true → places front.new.levels.items
        ≡ places front.old.levels.items ++ more.now) }
    ensures refused { IfOk result (λ all. all ≡ false → IsFront front.old.start calls.now
        (places front.old.levels.items ++ more.now) → ⊥) }
{
    for place in more {
        if !may_come_next(&front.map, &calls[*place as usize]) {
            return Ok(false);
        }
        push(alloc, calls, front, *place)?;
    }
    Ok(true)
}

/// Pushes calls one after another, the last one of the list first, and says whether all could be:
/// each has to be answered as the map answers it there.
pub fn push_reversed(
    alloc: Global,
    calls: &[Operation],
    front: &mut Front,
    back: &[u32],
) -> Result<bool, Memory>
    requires stands { Stands calls.now front.old }
    requires closed { IsClosed calls.now (places front.old.levels.items ++ reverse back.now) }
    ensures stands { OnOk result (Stands calls.now front.new) }
    ensures start { OnOk result (front.new.start ≡ front.old.start) }
    ensures longer { OnOk result (GoesOn (places front.old.levels.items)
        (places front.new.levels.items)) }
    ensures all { IfOk result (λ all. all ≡ true → places front.new.levels.items
        ≡ places front.old.levels.items ++ reverse back.now) }
{
    for depth in (0..back.len()).rev() {
        let place = back[depth];
        if !may_come_next(&front.map, &calls[place as usize]) {
            return Ok(false);
        }
        push(alloc, calls, front, place)?;
    }
    Ok(true)
}

/// Takes the last call back, if there is one.
pub fn pop(alloc: Global, calls: &[Operation], front: &mut Front) -> Result<Option<u32>, Memory>
    requires stands { Stands calls.now front.old }
    ensures stands { OnOk result (Stands calls.now front.new) }
    ensures start { OnOk result (front.new.start ≡ front.old.start) }
    ensures popped { IfOk result (IsPopped (places front.old.levels.items)
        (places front.new.levels.items)) }
{
    let Some(Level { place, undo }) = front.levels.pop() else {
        return Ok(None);
    };
    undo_call(alloc, &mut front.map, undo)?;
    front.taken[place as usize] = false;
    if (place as usize) < front.low {
        front.low = place as usize;
    }
    Ok(Some(place))
}

/// Takes the last calls back until this many are left, or fewer if the front has fewer.
pub fn go_back(
    alloc: Global,
    calls: &[Operation],
    front: &mut Front,
    len: usize,
) -> Result<(), Memory>
    requires stands { Stands calls.now front.old }
    ensures stands { OnOk result (Stands calls.now front.new) }
    ensures start { OnOk result (front.new.start ≡ front.old.start) }
    ensures left { OnOk result (places front.new.levels.items
        ≡ take len (places front.old.levels.items)) }
{
    while front.levels.len() > len {
        let _last = pop(alloc, calls, front)?;
    }
    Ok(())
}

/// Takes a call of the front back, with those after it, and says which these are. None is taken
/// back if the call is not in the front.
pub fn take_back(
    alloc: Global,
    calls: &[Operation],
    front: &mut Front,
    place: usize,
) -> Result<Vec<u32>, Memory>
    requires stands { Stands calls.now front.old }
    requires known { place < length calls.now }
    ensures stands { OnOk result (Stands calls.now front.new) }
    ensures start { OnOk result (front.new.start ≡ front.old.start) }
    ensures again { IfOk result (λ again. places front.old.levels.items
        ≡ places front.new.levels.items ++ again.items) }
    ensures from { IfOk result (λ again. IsFromOn place again.items) }
    ensures out { OnOk result (Contains (places front.new.levels.items) place → ⊥) }
{
    let mut again = Vec::new(alloc);
    while front.has(place) {
        match pop(alloc, calls, front)? {
            Some(last) => again.push(last)?,
            None => unreachable!(),
        }
    }
    again.reverse();
    Ok(again)
}
