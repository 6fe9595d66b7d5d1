// A call that does not fit at the end of a front is put before its last calls.
ghost use Rattle.std.specs.Prelude.{◌≡◌, ◌<◌, ◌++◌, ◌∷◌, [], ℕ, true, false, List, length, reverse, IfOk, OnOk};
ghost use Rattle.memo.specs.Fronts.{PrecedesAt};
ghost use Rattle.follow_fronts.specs.Closed.{IsClosed};
ghost use Rattle.follow_fronts.specs.Mending.{HasCompleted, GoesOn, IsTaken};
ghost use Rattle.follow_fronts.specs.Standing.{places, Stands, IsWhole};

use crate::front::Front;
use crate::pushing::{go_back, pop, push, push_reversed};
use call_effects::is_ended;
use events::{Memory, Operation};
use orders::may_come_next;
use std::alloc::Global;

/// How many calls may be taken back for each call of a front.
const WORK_OF_CALL: usize = 4;

/// How many calls may be taken back besides.
const LEAST_WORK: usize = 64;

/// Puts a call that is not in the front at the last place of the order that allows it, and says
/// whether one does. A place allows it if the map answers the call so there, and then the calls
/// after it as they were. A place before a call that precedes it is not tried. If no place allows
/// it, the front stays as it was. A try costs the call and those after it, up to the first that the
/// map answers otherwise. No try begins after 64 calls were taken back and 4 for each call of the
/// front.
pub fn mend(
    alloc: Global,
    calls: &[Operation],
    front: &mut Front,
    place: u32,
) -> Result<bool, Memory>
    requires stands { Stands calls.now front.old }
    requires closed { IsClosed calls.now (places front.old.levels.items ++ place ∷ []) }
    requires complete { HasCompleted calls.now (places front.old.levels.items ++ place ∷ []) }
    ensures stands { OnOk result (Stands calls.now front.new) }
    ensures start { OnOk result (front.new.start ≡ front.old.start) }
    ensures whole { IfOk result (λ found. found ≡ true → IsWhole calls.now front.new) }
{
    let mut back = Vec::new(alloc);
    let found = put_back(alloc, calls, front, place, &mut back)?;
    if found {
        return Ok(true);
    }
    let _again = push_reversed(alloc, calls, front, &back)?;
    Ok(false)
}

/// Takes the last calls of a front back, one at a time, until another call fits there, and says
/// whether it was put. Otherwise `back` has the calls that were taken back, the last one first.
fn put_back(
    alloc: Global,
    calls: &[Operation],
    front: &mut Front,
    place: u32,
    back: &mut Vec<u32>,
) -> Result<bool, Memory>
    requires stands { Stands calls.now front.old }
    requires closed { IsClosed calls.now (places front.old.levels.items ++ place ∷ []) }
    requires complete { HasCompleted calls.now (places front.old.levels.items ++ place ∷ []) }
    requires none { back.old.items ≡ [] }
    ensures stands { OnOk result (Stands calls.now front.new) }
    ensures start { OnOk result (front.new.start ≡ front.old.start) }
    ensures whole { IfOk result (λ found. found ≡ true → IsWhole calls.now front.new) }
    ensures back { IfOk result (λ found. found ≡ false → places front.old.levels.items
        ≡ places front.new.levels.items ++ reverse back.new.items) }
{
    let calls_work = front.levels.len().saturating_mul(WORK_OF_CALL);
    let mut work = calls_work.saturating_add(LEAST_WORK);
    while work > 0 {
        let len = front.levels.len();
        let put = try_here(alloc, calls, front, place, back.as_slice())?;
        if put {
            return Ok(true);
        }
        let most = front.levels.len();
        go_back(alloc, calls, front, len)?;
        let Some(last) = take_last(alloc, calls, front, place)? else {
            return Ok(false);
        };
        back.push(last)?;
        work = work.saturating_sub(most - front.levels.len());
    }
    Ok(false)
}

/// Pushes a call, and then the calls of `back`, the last one first. Returns whether all could be
/// pushed: each has to be answered as the map answers it there.
fn try_here(
    alloc: Global,
    calls: &[Operation],
    front: &mut Front,
    place: u32,
    back: &[u32],
) -> Result<bool, Memory>
    requires stands { Stands calls.now front.old }
    requires closed { IsClosed calls.now
        (places front.old.levels.items ++ place ∷ reverse back.now) }
    ensures stands { OnOk result (Stands calls.now front.new) }
    ensures start { OnOk result (front.new.start ≡ front.old.start) }
    ensures longer { OnOk result (GoesOn (places front.old.levels.items)
        (places front.new.levels.items)) }
    ensures all { IfOk result (λ all. all ≡ true → places front.new.levels.items
        ≡ places front.old.levels.items ++ place ∷ reverse back.now) }
{
    if !may_come_next(&front.map, &calls[place as usize]) {
        return Ok(false);
    }
    push(alloc, calls, front, place)?;
    let pushed = push_reversed(alloc, calls, front, back)?;
    Ok(pushed)
}

/// Takes the last call of a front back, if there is one that does not precede another call, and
/// says which it was.
fn take_last(
    alloc: Global,
    calls: &[Operation],
    front: &mut Front,
    place: u32,
) -> Result<Option<u32>, Memory>
    requires stands { Stands calls.now front.old }
    requires known { place < length calls.now }
    ensures stands { OnOk result (Stands calls.now front.new) }
    ensures start { OnOk result (front.new.start ≡ front.old.start) }
    ensures taken { IfOk result (IsTaken calls.now place (places front.old.levels.items)
        (places front.new.levels.items)) }
{
    if is_after_last(calls, front, place as usize) {
        return Ok(None);
    }
    pop(alloc, calls, front)
}

/// Whether the last call of a front precedes a call.
fn is_after_last(calls: &[Operation], front: &Front, place: usize) -> bool
    requires stands { Stands calls.now front.now }
    requires known { place < length calls.now }
    ensures { result ≡ false → (path : List ℕ) (last : ℕ)
        → places front.now.levels.items ≡ path ++ last ∷ [] → PrecedesAt calls.now last place → ⊥ }
{
    match front.levels.last() {
        Some(level) => is_ended(&calls[level.place as usize], calls[place].inv),
        None => false,
    }
}
