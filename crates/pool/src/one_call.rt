// Segments of one completed call, which need no search.
ghost use Rattle.std.specs.Prelude.{◌↔◌, ◌≤◌, IsTrue, IsSomeAnd, slice_get, IfOk};
ghost use Rattle.orders.specs.Orders.{IsLegalCall};
ghost use Rattle.search.specs.Exact.{IsExactAnswer};
ghost use Rattle.search.specs.Limits.{budget_limit};
ghost use Rattle.pool.specs.OneCall.{IsOneCompletedCall, IsExactFromTwo};

use events::{Memory, Operation};
use map_object::SortedMap;
use orders::{Segment, may_come_next};
use search::{Found, search};
use std::alloc::Global;

/// Returns what a search of the segment finds. A segment of one completed call is not searched: the
/// pairs at the start show whether the call may come. Two configurations count if it may, the one
/// before the call and the one after it. So a smaller budget is left to a search.
pub(crate) fn find_order(alloc: Global, segment: &Segment, budget: u32) -> Result<Found, Memory>
    requires { (1 ≤ budget) × (budget ≤ budget_limit) }
    ensures { IfOk result (IsExactAnswer budget segment.now) }
{
    if budget >= 2 && is_one_completed_call(segment.calls()) {
        return order_of_one(alloc, segment);
    }
    search(alloc, segment, budget)
}

/// Returns whether there is one call and it is completed.
fn is_one_completed_call(calls: &[Operation]) -> bool
    ensures { IsTrue result ↔ IsOneCompletedCall calls.now }
{
    calls.len() == 1 && calls[0].is_completed()
}

/// Returns the order of a segment of one completed call: the call, if it may come at the start.
fn order_of_one(alloc: Global, segment: &Segment) -> Result<Found, Memory>
    requires { IsOneCompletedCall segment.now.calls }
    ensures { IfOk result (IsExactFromTwo segment.now) }
{
    let numbers = segment.numbers();
    if may_come_first(alloc, segment)? {
        let order = Vec::from_slice(alloc, numbers)?;
        return Ok(Found::Order(order));
    }
    Ok(Found::NoOrder)
}

/// Returns whether the first call may come at the start.
fn may_come_first(alloc: Global, segment: &Segment) -> Result<bool, Memory>
    requires { IsOneCompletedCall segment.now.calls }
    ensures { IfOk result (λ may. IsSomeAnd (slice_get segment.now.calls 0)
        (λ a. IsTrue may ↔ IsLegalCall segment.now.start a.call a.response)) }
{
    let map = SortedMap::of(alloc, segment.start())?;
    Ok(may_come_next(&map, &segment.calls()[0]))
}
