// Places of calls after another call was inserted.
ghost use Rattle.std.specs.Prelude.{◌≡◌, ℕ, ◌<◌, ◌≤◌, ◌+◌, ◌^◌, false, length, map, min, take, drop, All, OnOk};
ghost use Rattle.std.specs.List.{insert};
ghost use Rattle.follow_fronts.specs.Standing.{Stands};
ghost use Rattle.follow_orders.specs.Moving.{moved, moved_up};

use call_effects::is_ended;
use events::{Memory, Operation};
use follow_fronts::{Front, Level};

/// Makes room for a call that is inserted at a place of the list, and is not in the front. It costs
/// the calls of the front after the last one that ended before the new one began.
pub(crate) fn make_room(
    front: &mut Front,
    calls: &[Operation],
    place: usize,
    inv: usize,
) -> Result<(), Memory>
    requires known { place ≤ length front.old.taken.items }
    requires few { All (λ level. level.place + 1 < 2 ^ 32) front.old.levels.items }
    requires stands { Stands calls.now front.old }
    requires greater { All (λ a. inv < a.inv) (drop place calls.now) }
    ensures start { OnOk result (front.new.start ≡ front.old.start) }
    ensures levels { OnOk result
        (front.new.levels.items ≡ map (moved place) front.old.levels.items) }
    ensures map { OnOk result (front.new.map ≡ front.old.map) }
    ensures taken { OnOk result
        (front.new.taken.items ≡ insert front.old.taken.items place false) }
    ensures low { OnOk result (front.new.low ≡ min front.old.low place) }
{
    let from = first_after(front, calls, inv);
    front.taken.insert(place, false)?;
    front.low = front.low.min(place);
    move_up(&mut front.levels, from, place);
    Ok(())
}

/// How many calls a front has up to the last one that ended before a place. All of these began
/// before that place.
fn first_after(front: &Front, calls: &[Operation], inv: usize) -> usize
    requires { Stands calls.now front.now }
    ensures within { result ≤ length front.now.levels.items }
    ensures before { (place : ℕ) → All (λ a. inv < a.inv) (drop place calls.now)
        → All (λ level. level.place < place) (take result front.now.levels.items) }
{
    let levels = front.levels.as_slice();
    for at in (0..levels.len()).rev() {
        let place = levels[at].place as usize;
        if is_ended(&calls[place], inv) {
            return at + 1;
        }
    }
    0
}

/// Moves the calls of a front from a place on up by one. Those before `from` are below that place.
fn move_up(levels: &mut [Level], from: usize, place: usize)
    requires few { All (λ level. level.place + 1 < 2 ^ 32) levels.old }
    requires within { from ≤ length levels.old }
    requires before { All (λ level. level.place < place) (take from levels.old) }
    ensures { levels.new ≡ map (moved place) levels.old }
{
    for at in from..levels.len() {
        levels[at].place = place_after(levels[at].place, place);
    }
}

/// The place of a call after another one was inserted at a place.
fn place_after(old: u32, place: usize) -> u32
    requires { old + 1 < 2 ^ 32 }
    ensures { result ≡ moved_up place old }
{
    if (old as usize) < place {
        return old;
    }
    old + 1
}
