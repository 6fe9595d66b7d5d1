// The search of calls.
ghost use Rattle.std.specs.Prelude.{◌≡◌, ◌<◌, ◌≤◌, ◌+◌, ◌^◌, length, map, AllPairs, IfOk};
ghost use Rattle.events.specs.Precedence.{NonePrecedesItself};
ghost use Rattle.map_object.specs.MapObject.{Contents, IsRising};
ghost use Rattle.reduced_search.specs.Found.{IsFound};
ghost use Rattle.search_choices.specs.Standing.{places, StandsBare};

use crate::found::SearchEnd;
use crate::standing::{look_on, make_step, open};
use events::{Memory, Operation};
use map_object::SortedMap;
use search_choices::{CallSearch, SearchStep};
use std::alloc::Global;

/// Searches calls for an order from a map: an order if there is one, `NoOrder` if there is none,
/// and `Spent` if more configurations were met than the budget. `Memory` if memory runs out, and at
/// 4,294,967,295 calls or more, which no memory holds. The calls are sorted by invocation, at any
/// places. It goes on from each configuration once, and from a call that may come next and leaves
/// the map as it is to no other. A call that was answered earlier is tried earlier. If several
/// calls may be tried, only those of a few keys are, if such keys are seen (`few_keys_go_first`).
/// Nothing is tried where a call is seen to be stuck (`stuck_calls_are_dead_ends`), nor a call that
/// is seen to leave another one stuck. It does not recurse: it keeps the calls taken in a list.
pub fn search_calls(
    alloc: Global,
    map: SortedMap,
    calls: &[Operation],
    budget: u32,
) -> Result<SearchEnd, Memory>
    requires rising { AllPairs (λ a b. a.inv < b.inv) calls.now }
    requires apart { NonePrecedesItself calls.now }
    ensures { IfOk result (IsFound map calls.now budget) }
{
    if calls.len() >= u32::MAX as usize {
        return Err(Memory);
    }
    let mut standing = open(alloc, map, calls)?;
    search_on(alloc, calls, &mut standing, budget)
}

/// Searches on from the present state of a search.
fn search_on(
    alloc: Global,
    calls: &[Operation],
    standing: &mut CallSearch,
    budget: u32,
) -> Result<SearchEnd, Memory>
    ghost start: { Contents }
    requires few { length calls.now + 1 < 2 ^ 32 }
    requires apart { NonePrecedesItself calls.now }
    requires rising { AllPairs (λ a b. a.inv < b.inv) calls.now }
    requires start_rises { IsRising start }
    requires stands { StandsBare start calls.now standing.old }
    ensures { IfOk result (IsFound start calls.now budget) }
{
    match look_on(alloc, calls, standing)? {
        SearchStep::Made => {}
        SearchStep::Order | SearchStep::NoOrder => return Ok(SearchEnd::Order(order_of(
            alloc, standing,
        )?)),
    }
    loop {
        if standing.memo.len() > budget as usize {
            return Ok(SearchEnd::Spent);
        }
        match make_step(alloc, calls, standing)? {
            SearchStep::Made => {}
            SearchStep::Order => return Ok(SearchEnd::Order(order_of(alloc, standing)?)),
            SearchStep::NoOrder => return Ok(SearchEnd::NoOrder),
        }
    }
}

/// The places of the calls taken.
fn order_of(alloc: Global, standing: &CallSearch) -> Result<Vec<u32>, Memory>
    ensures { IfOk result (λ v. v.items ≡ places standing.now.levels.items) }
{
    let mut order = Vec::with_capacity(alloc, standing.levels.len())?;
    for level in &standing.levels {
        order.push(level.place)?;
    }
    Ok(order)
}
