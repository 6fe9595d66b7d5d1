// Leaves out some calls, if the others have no order either.
ghost use Rattle.std.specs.Prelude.{◌≡◌, ◌<◌, ◌^◌, AllPairs, IfOk};
ghost use Rattle.events.specs.Precedence.{NonePrecedesItself};
ghost use Rattle.explain_shrink.specs.Explained.{IsWithout};

use crate::explanation::{Reason, Without};
use crate::rests::{are_held, gone_of, puts_of, rest_of};
use events::{Memory, Operation};
use map_object::SortedMap;
use reduced_search::{SearchEnd, search_calls};
use std::alloc::Global;

/// Leaves out all calls except those that were invoked at these places, if these have no order
/// either.
pub(crate) fn leave_out(
    alloc: Global,
    map: &SortedMap,
    calls: &[Operation],
    places: &[usize],
    budget: u32,
) -> Result<Without, Memory>
    requires rising { AllPairs (λ a b. a.inv < b.inv) calls.now }
    requires apart { NonePrecedesItself calls.now }
    ensures { IfOk result (IsWithout map.now calls.now places.now budget) }
{
    let gone = gone_of(alloc, calls, places)?;
    let puts = puts_of(alloc, calls, places)?;
    if are_held(calls, &puts, &gone, places) {
        return Ok(Without::Kept(Reason::Held));
    }
    let rest = rest_of(alloc, calls, &puts, &gone, places)?;
    let start = SortedMap::of(alloc, map.pairs())?;
    match search_calls(alloc, start, &rest, budget)? {
        SearchEnd::NoOrder => Ok(Without::Rest(rest)),
        SearchEnd::Order(order) => Ok(Without::Kept(Reason::Order(order))),
        SearchEnd::Spent => Ok(Without::Kept(Reason::Spent)),
    }
}
