// An order of the events before the one at which a history goes wrong.
ghost use Rattle.std.specs.Prelude.{◌≤◌, option_map, IfOk};
ghost use Rattle.events.specs.Histories.{IsHistory};
ghost use Rattle.explain_locate.specs.FirstOrders.{IsFirstFound, IsFoundBefore, IsOrderedLocation, IsSearched};
ghost use Rattle.explain_locate.specs.Locations.{IsLocated};
ghost use Rattle.orders.specs.Orders.{IsLinearizableHistory};
ghost use Rattle.follow_monitor.specs.Prefixes.{prefix_of};
ghost use Rattle.search.specs.Limits.{budget_limit};

use crate::beginning::first_events;
use crate::judging::locate;
use crate::laws::orders_are_found_where_judged;
use crate::location::{Location, OrderedLocation};
use events::{History, Memory};
use judge::{Verdict, judge_alone};
use map_object::SortedMap;
use reduced_search::{SearchEnd, search_calls};
use std::alloc::Global;

/// Finds the event at which a history goes wrong, as `locate`, and an order of the events before
/// it, or of all events if it goes wrong nowhere. The order is that of the judge's verdict on these
/// events. If that verdict is undecided, a search of all their calls looks for an order, and meets
/// at most `budget` configurations. If the judge's verdicts show the location, there is an order.
/// If the location is undecided, there is none. Out of memory is an error and decides nothing. It
/// costs what `locate` costs, a verdict, and a search if that is undecided.
pub fn locate_ordered(
    alloc: Global,
    history: &History,
    budget: u32,
) -> Result<OrderedLocation, Memory>
    requires { (1 ≤ budget) × (budget ≤ budget_limit) }
    ensures { IfOk result (IsOrderedLocation budget history.now) }
{
    orders_are_found_where_judged();
    let location = locate(alloc, history, budget)?;
    let order = order_before(alloc, history, &location, budget)?;
    Ok(OrderedLocation { location, order })
}

/// Finds an order of the events before the one that a location names.
fn order_before(
    alloc: Global,
    history: &History,
    location: &Location,
    budget: u32,
) -> Result<Option<Vec<u32>>, Memory>
    requires budget { (1 ≤ budget) × (budget ≤ budget_limit) }
    requires located { IsLocated budget history.now location.now }
    ensures found { IfOk result (λ found.
        IsFoundBefore budget history.now location.now (option_map (λ order. order.items) found)) }
    ensures history { IsHistory history.now }
{
    let all = history.events().len();
    match location {
        Location::Yes => first_order(alloc, history, all, budget),
        Location::No { event, .. } => first_order(alloc, history, *event, budget),
        Location::Lost(loss) => first_order(alloc, history, loss.event, budget),
        Location::Undecided { .. } => Ok(None),
    }
}

/// Finds an order of the first `count` events of a history, which have one.
fn first_order(
    alloc: Global,
    history: &History,
    count: usize,
    budget: u32,
) -> Result<Option<Vec<u32>>, Memory>
    requires budget { (1 ≤ budget) × (budget ≤ budget_limit) }
    requires has { IsLinearizableHistory (prefix_of history.now count) }
    ensures { IfOk result (λ found.
        IsFirstFound budget history.now count (option_map (λ order. order.items) found)) }
{
    let first = first_events(alloc, history, count)?;
    let verdict = judge_alone(alloc, &first, budget)?;
    match &verdict {
        Verdict::Yes(order) => Ok(Some(Vec::from_slice(alloc, order)?)),
        Verdict::No(_) => unreachable!(),
        Verdict::Undecided(_) => searched_order(alloc, &first, budget),
    }
}

/// Searches all calls of a history for an order. The history has one.
fn searched_order(alloc: Global, history: &History, budget: u32) -> Result<Option<Vec<u32>>, Memory>
    requires { IsLinearizableHistory history.now }
    ensures { IfOk result (λ found.
        IsSearched budget history.now (option_map (λ order. order.items) found)) }
{
    let start = SortedMap::of(alloc, history.start())?;
    match search_calls(alloc, start, history.calls(), budget)? {
        SearchEnd::Order(order) => Ok(Some(order)),
        SearchEnd::NoOrder => unreachable!(),
        SearchEnd::Spent => Ok(None),
    }
}
