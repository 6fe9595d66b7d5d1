// The state of a search, and its steps.
ghost use Rattle.std.specs.Prelude.{◌≡◌, ◌+◌, ◌<◌, ◌≤◌, ◌^◌, length, [], AllPairs, IfOk, OnOk};
ghost use Rattle.events.specs.Precedence.{NonePrecedesItself};
ghost use Rattle.map_object.specs.MapObject.{Contents, IsRising};
ghost use Rattle.orders.specs.Orders.{IsOrder, IsLinearizable};
ghost use Rattle.search_choices.specs.Standing.{places, Stands, StandsBare, IsNextOf, Closes, IsStep, IsPushed, IsTaken, IsLooked};

use events::{Call, Memory, Operation};
use map_object::SortedMap;
use memo::{Memo, visited_at_start};
use search::{take_call, undo_call};
use search_choices::{Branch, CallSearch, SearchStep, choices};
use std::alloc::Global;
use std::mem;

/// Before any call, at the map that the calls begin with.
pub(crate) fn open(alloc: Global, map: SortedMap, calls: &[Operation]) -> Result<CallSearch, Memory>
    ensures stands { IfOk result (StandsBare map calls.now) }
    ensures none { IfOk result (λ s. s.levels.items ≡ []) }
    ensures one { IfOk result (λ s. length s.memo ≡ 1) }
    ensures rises { IfOk result (λ s. IsRising s.map) }
{
    let mut taken = Vec::new(alloc);
    taken.resize(calls.len(), false)?;
    let memo = visited_at_start(alloc, &map)?;
    Ok(CallSearch {
        levels: Vec::new(alloc),
        rest: Vec::new(alloc),
        at: 0,
        map,
        memo,
        taken,
        low: 0,
    })
}

/// One step: the next call is tried, or the search goes back if there is none.
pub(crate) fn make_step(
    alloc: Global,
    calls: &[Operation],
    standing: &mut CallSearch,
) -> Result<SearchStep, Memory>
    ghost start: { Contents }
    requires few { length calls.now + 1 < 2 ^ 32 }
    requires apart { NonePrecedesItself calls.now }
    requires rising { AllPairs (λ a b. a.inv < b.inv) calls.now }
    requires start_rises { IsRising start }
    requires stands { Stands start calls.now standing.old }
    ensures { IfOk result (IsStep start calls.now standing.old standing.new) }
{
    let Some(place) = standing.rest.pop() else {
        return go_back(alloc, calls, standing);
    };
    let new = take(alloc, calls, standing, place)?;
    if new {
        return look_on(alloc, calls, standing);
    }
    Ok(SearchStep::Made)
}

/// Takes a call if it leads to a new configuration, and returns whether it does.
fn take(
    alloc: Global,
    calls: &[Operation],
    standing: &mut CallSearch,
    place: u32,
) -> Result<bool, Memory>
    ghost start: { Contents }
    requires apart { NonePrecedesItself calls.now }
    requires stands { StandsBare start calls.now standing.old }
    requires next { IsNextOf start calls.now (places standing.old.levels.items) place
        standing.old.rest.items }
    ensures { IfOk result (IsTaken start calls.now place standing.old standing.new) }
{
    let call = &calls[place as usize];
    let new = standing
        .memo
        .visit_next(alloc, standing.at, place, call, &standing.map)?;
    if new {
        let undo = take_call(alloc, &mut standing.map, call)?;
        push(alloc, standing, place, undo)?;
        return Ok(true);
    }
    Ok(false)
}

/// One call further, at the configuration that was visited last.
fn push(
    alloc: Global,
    standing: &mut CallSearch,
    place: u32,
    undo: Option<Call>,
) -> Result<(), Memory>
    requires place { place < length standing.old.taken.items }
    requires low { standing.old.low ≤ length standing.old.taken.items }
    requires visited { 0 < length standing.old.memo }
    ensures { OnOk result (IsPushed place undo standing.old standing.new) }
{
    let at = standing.at;
    let rest = mem::replace(&mut standing.rest, Vec::new(alloc));
    standing.levels.push(Branch {
        place,
        undo,
        at,
        rest,
    })?;
    standing.at = standing.memo.len() - 1;
    standing.taken[place as usize] = true;
    while standing.low < standing.taken.len() && standing.taken[standing.low] {
        standing.low += 1;
    }
    Ok(())
}

/// Looks which calls may come next in the present state of the search.
pub(crate) fn look_on(
    alloc: Global,
    calls: &[Operation],
    standing: &mut CallSearch,
) -> Result<SearchStep, Memory>
    ghost start: { Contents }
    requires few { length calls.now + 1 < 2 ^ 32 }
    requires apart { NonePrecedesItself calls.now }
    requires rising { AllPairs (λ a b. a.inv < b.inv) calls.now }
    requires start_rises { IsRising start }
    requires stands { StandsBare start calls.now standing.old }
    ensures { IfOk result (IsLooked start calls.now standing.old standing.new) }
{
    match choices(alloc, calls, standing)? {
        Some(rest) => {
            standing.rest = rest;
            Ok(SearchStep::Made)
        }
        None => Ok(SearchStep::Order),
    }
}

/// Goes back by one call, since nothing is left to try.
fn go_back(
    alloc: Global,
    calls: &[Operation],
    standing: &mut CallSearch,
) -> Result<SearchStep, Memory>
    ghost start: { Contents }
    requires apart { NonePrecedesItself calls.now }
    requires stands { StandsBare start calls.now standing.old }
    requires past { Closes start calls.now (places standing.old.levels.items) [] }
    requires tried { standing.old.rest.items ≡ [] }
    ensures { IfOk result (IsStep start calls.now standing.old standing.new) }
{
    let Some(level) = standing.levels.pop() else {
        return Ok(SearchStep::NoOrder);
    };
    let Branch {
        place,
        undo,
        at,
        rest,
    } = level;
    standing.at = at;
    standing.rest = rest;
    undo_call(alloc, &mut standing.map, undo)?;
    standing.taken[place as usize] = false;
    if (place as usize) < standing.low {
        standing.low = place as usize;
    }
    Ok(SearchStep::Made)
}
