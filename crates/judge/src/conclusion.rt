// From the answers on all segments of a history to the verdict on the history.
ghost use Rattle.std.specs.Prelude.{◌≡◌, ◌≢◌, ◌<◌, length, map, slice_get, All, Some, IfOk, IfSome, IfNone};
ghost use Rattle.std.specs.List.{AllZip};
ghost use Rattle.events.specs.Operations.{operations};
ghost use Rattle.orders.specs.Orders.{IsLinearizable, IsOrderOfHistory};
ghost use Rattle.orders.specs.Segments.{AreSegments};
ghost use Rattle.orders.specs.SegmentOrders.{HasNoOrder};
ghost use Rattle.search.specs.Exact.{IsExactAnswer};
ghost use Rattle.search.specs.declared.found.Found.TheVariants.{NoOrder, Spent};
ghost use Rattle.merge_orders.specs.Merge.{IsMergedOrder};
ghost use Rattle.merge_orders.specs.OrdersOfSegments.{AreOrdersOfSegments};
ghost use Rattle.judge.specs.Answers.{IsFirstAt, orders_in};
ghost use Rattle.judge.specs.Shown.{IsShown};
ghost use Rattle.judge.specs.Exact.{IsExactVerdict};

use crate::verdict::Verdict;
use events::{History, Memory};
use merge_orders::merge;
use orders::Segment;
use search::Found;
use std::alloc::Global;

/// Returns the verdict on a history whose segments have these answers at the budget. It is no if a
/// segment has no order, and names the lowest one. Otherwise it is undecided if a search needs more
/// than the budget, and names the lowest such segment. Otherwise it is yes, with the merged order.
pub(crate) fn conclude(
    alloc: Global,
    history: &History,
    budget: u32,
    segments: Vec<Segment>,
    answers: Vec<Found>,
) -> Result<Verdict, Memory>
    requires segments { AreSegments history.now.start (operations history.now.events) segments.items }
    requires refutes { All (λ s.
        HasNoOrder s → IsLinearizable history.now.start (operations history.now.events) → ⊥) segments.items }
    requires exact { AllZip (IsExactAnswer budget) segments.items answers.items }
    ensures shown { IfOk result (IsShown history.now.start budget (operations history.now.events)) }
    ensures exact { IfOk result (IsExactVerdict history.now.start budget (operations history.now.events)) }
{
    if let Some(place) = first_without_order(&answers) {
        return Ok(Verdict::No(segment_at(segments, place)));
    }
    if let Some(place) = first_spent(&answers) {
        return Ok(Verdict::Undecided(segment_at(segments, place)));
    }
    Ok(Verdict::Yes(merge_answers(alloc, history, answers)?))
}

/// Returns the place of the first answer that there is no order.
fn first_without_order(answers: &[Found]) -> Option<usize>
    ensures found { IfSome result (IsFirstAt NoOrder answers.now) }
    ensures none { IfNone result (All (λ answer. answer ≢ NoOrder) answers.now) }
{
    for place in 0..answers.len() {
        if matches!(&answers[place], Found::NoOrder) {
            return Some(place);
        }
    }
    None
}

/// Returns the place of the first answer `Spent`: its search needs more than the budget.
fn first_spent(answers: &[Found]) -> Option<usize>
    ensures found { IfSome result (IsFirstAt Spent answers.now) }
    ensures none { IfNone result (All (λ answer. answer ≢ Spent) answers.now) }
{
    for place in 0..answers.len() {
        if matches!(&answers[place], Found::Spent) {
            return Some(place);
        }
    }
    None
}

/// Returns the segment at a place.
fn segment_at(mut segments: Vec<Segment>, place: usize) -> Segment
    requires { place < length segments.items }
    ensures { slice_get segments.items place ≡ Some result }
{
    segments.swap_remove(place)
}

/// Returns the merged order of the orders among the answers.
fn merge_answers(alloc: Global, history: &History, answers: Vec<Found>) -> Result<Vec<u32>, Memory>
    requires { AreOrdersOfSegments history.now.start (operations history.now.events) (orders_in answers.items) }
    ensures merged { IfOk result (λ v. IsMergedOrder (operations history.now.events) (orders_in answers.items) v.items) }
    ensures order { IfOk result (λ v. IsOrderOfHistory history.now v.items) }
{
    let orders = orders_of(alloc, answers)?;
    merge(alloc, history, &orders)
}

/// Returns the orders among the answers.
fn orders_of(alloc: Global, answers: Vec<Found>) -> Result<Vec<Vec<u32>>, Memory>
    ensures { IfOk result (λ orders. map (λ order. order.items) orders.items ≡ orders_in answers.items) }
{
    let mut orders = Vec::with_capacity(alloc, answers.len())?;
    for answer in answers {
        if let Found::Order(order) = answer {
            orders.push(order)?;
        }
    }
    Ok(orders)
}
