// The calls that are left after a front are searched.
ghost use Rattle.std.specs.Prelude.{◌≡◌, ◌<◌, ◌++◌, true, IfSome, length, map, slice_index, All, IfOk, OnOk};
ghost use Rattle.orders.specs.Orders.{calls_at, IsOrder};
ghost use Rattle.follow_fronts.specs.Standing.{places, Stands, IsWhole};
ghost use Rattle.follow_repairs.specs.Searching.{AreCalls, AreLeft};

use crate::chains::follow_chains;
use crate::repairing::repair;
use events::{Memory, Operation};
use follow_fronts::{Front, follow, go_back, is_whole, push_all};
use reduced_search::{SearchEnd, search_calls};
use std::alloc::Global;

/// How many of the last calls are taken back before each search that comes before a repair.
static NEAR: [u32; 2] = [16, 64];

/// How many are taken back before each search that comes after it.
static FAR: [u32; 3] = [256, 1_024, 4_096];

/// A search with more than twice this many pending calls may meet fewer configurations.
const MANY_PENDING: usize = 128;

/// How many of the last calls are put as they were after a repair in vain.
const LAST: usize = 1_024;

/// How many configurations such a search may meet for each of these calls.
const WORK_OF_CALL: u32 = 16;

/// How many configurations it may meet besides.
const NEAR_BUDGET: u32 = 1_000;

/// Takes the last calls of the front back, guesses an order of what is left, and searches if the
/// guess is none. It does so with more calls taken back each time, and says whether that led to an
/// order. After the second time, the front as it was is repaired, first in a narrow way and then in
/// a wide one. When no call of the front would be left, it takes all back and does not search.
pub fn search_tails(
    alloc: Global,
    calls: &[Operation],
    front: &mut Front,
    budget: u32,
) -> Result<bool, Memory>
    requires calls { AreCalls calls.now }
    requires stands { Stands calls.now front.old }
    ensures stands { OnOk result (Stands calls.now front.new) }
    ensures start { OnOk result (front.new.start ≡ front.old.start) }
    ensures whole { IfOk result (λ found. found ≡ true → IsWhole calls.now front.new) }
{
    let len = front.levels.len();
    let last = last_places(alloc, front)?;
    let found = search_each(alloc, calls, front, &NEAR, len, budget)?;
    if found {
        return Ok(true);
    }
    let repaired = repair_again(alloc, calls, front, &last, false)?;
    if repaired {
        return Ok(true);
    }
    go_back(alloc, calls, front, len.saturating_sub(LAST))?;
    let repaired_widely = repair_again(alloc, calls, front, &last, true)?;
    if repaired_widely {
        return Ok(true);
    }
    go_back(alloc, calls, front, len.saturating_sub(LAST))?;
    follow(alloc, calls, front, &last)?;
    search_each(alloc, calls, front, &FAR, len, budget)
}

/// Pushes the last calls of a front again, repairs it, and says whether that led to an order.
fn repair_again(
    alloc: Global,
    calls: &[Operation],
    front: &mut Front,
    last: &[u32],
    is_wide: bool,
) -> Result<bool, Memory>
    requires calls { AreCalls calls.now }
    requires stands { Stands calls.now front.old }
    ensures stands { OnOk result (Stands calls.now front.new) }
    ensures start { OnOk result (front.new.start ≡ front.old.start) }
    ensures whole { IfOk result (λ found. found ≡ true → IsWhole calls.now front.new) }
{
    follow(alloc, calls, front, last)?;
    let repaired = repair(alloc, calls, front, is_wide)?;
    Ok(repaired)
}

/// The places of the last calls of a front.
fn last_places(alloc: Global, front: &Front) -> Result<Vec<u32>, Memory> {
    let len = front.levels.len();
    let mut last = Vec::new(alloc);
    for depth in len.saturating_sub(LAST)..len {
        last.push(front.levels[depth].place)?;
    }
    Ok(last)
}

/// Takes so many calls back of the first `len`, guesses an order of what is left, and searches if
/// that is none, each time, and says whether that led to an order. When no call of the front would
/// be left, it takes all back and does not search.
fn search_each(
    alloc: Global,
    calls: &[Operation],
    front: &mut Front,
    windows: &[u32],
    len: usize,
    budget: u32,
) -> Result<bool, Memory>
    requires calls { AreCalls calls.now }
    requires stands { Stands calls.now front.old }
    ensures stands { OnOk result (Stands calls.now front.new) }
    ensures start { OnOk result (front.new.start ≡ front.old.start) }
    ensures whole { IfOk result (λ found. found ≡ true → IsWhole calls.now front.new) }
{
    for window in windows {
        go_back(alloc, calls, front, len.saturating_sub(*window as usize))?;
        if front.levels.is_empty() {
            return Ok(false);
        }
        let left = front.levels.len();
        follow_chains(alloc, calls, front)?;
        if is_whole(calls, front) {
            return Ok(true);
        }
        go_back(alloc, calls, front, left)?;
        let near = near_budget(*window, calls.len().saturating_sub(left));
        let found = search_left(alloc, calls, front, budget.min(near))?;
        if found {
            return Ok(true);
        }
    }
    Ok(false)
}

/// How many configurations a search of the last calls may meet, with so many calls that are left.
/// Each configuration costs a look at all of them. So if far more than the last calls are left,
/// which are pending, it may meet fewer.
fn near_budget(window: u32, left: usize) -> u32 {
    let most = window
        .saturating_mul(WORK_OF_CALL)
        .saturating_add(NEAR_BUDGET);
    let pending = left.saturating_sub(window as usize);
    let share = u32::try_from(pending / MANY_PENDING).unwrap_or(u32::MAX);
    if share > 1 {
        return most / share;
    }
    most
}

/// Searches the calls that are not in the front, and pushes an order of them, if one is found.
fn search_left(
    alloc: Global,
    calls: &[Operation],
    front: &mut Front,
    budget: u32,
) -> Result<bool, Memory>
    requires calls { AreCalls calls.now }
    requires stands { Stands calls.now front.old }
    ensures stands { OnOk result (Stands calls.now front.new) }
    ensures start { OnOk result (front.new.start ≡ front.old.start) }
    ensures whole { IfOk result (λ found. found ≡ true → IsWhole calls.now front.new) }
{
    let Some(more) = order_left(alloc, calls, front, budget)? else {
        return Ok(false);
    };
    let pushed = push_all(alloc, calls, front, &more)?;
    Ok(pushed)
}

/// An order of the calls that are not in the front, by their places, if one is found.
fn order_left(
    alloc: Global,
    calls: &[Operation],
    front: &Front,
    budget: u32,
) -> Result<Option<Vec<u32>>, Memory>
    requires calls { AreCalls calls.now }
    requires stands { Stands calls.now front.now }
    ensures { IfOk result (λ found. IfSome found (λ more. IsOrder front.now.start calls.now
        (places front.now.levels.items ++ more.items))) }
{
    let left = places_left(alloc, calls, front)?;
    let others = copies_of(alloc, calls, &left)?;
    let map = front.map.copy(alloc)?;
    match search_calls(alloc, map, &others, budget)? {
        SearchEnd::Order(order) => {
            let more = places_of(alloc, &left, &order)?;
            Ok(Some(more))
        }
        SearchEnd::NoOrder | SearchEnd::Spent => Ok(None),
    }
}

/// The places of the calls that are not in the front.
fn places_left(alloc: Global, calls: &[Operation], front: &Front) -> Result<Vec<u32>, Memory>
    requires calls { AreCalls calls.now }
    requires stands { Stands calls.now front.now }
    ensures { IfOk result (λ left. AreLeft calls.now (places front.now.levels.items) left.items) }
{
    let mut left = Vec::new(alloc);
    for place in front.low..calls.len() {
        if !front.has(place) {
            left.push(place as u32)?;
        }
    }
    Ok(left)
}

/// Copies of the calls at some places.
fn copies_of(alloc: Global, calls: &[Operation], places: &[u32]) -> Result<Vec<Operation>, Memory>
    requires { All (λ n. n < length calls.now) places.now }
    ensures { IfOk result (λ copies. copies.items ≡ calls_at calls.now places.now) }
{
    let mut copies = Vec::with_capacity(alloc, places.len())?;
    for place in places {
        copies.push(calls[*place as usize].copy(alloc)?)?;
    }
    Ok(copies)
}

/// The places, in the list of all calls, of an order of the calls that are left.
fn places_of(alloc: Global, left: &[u32], order: &[u32]) -> Result<Vec<u32>, Memory>
    requires { All (λ n. n < length left.now) order.now }
    ensures { IfOk result (λ more. more.items ≡ map (slice_index left.now) order.now) }
{
    let mut more = Vec::with_capacity(alloc, order.len())?;
    for place in order {
        more.push(left[*place as usize])?;
    }
    Ok(more)
}
