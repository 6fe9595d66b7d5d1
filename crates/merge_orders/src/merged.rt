// The merged order.
ghost use Rattle.std.specs.Prelude.{◌≡◌, [], map, IfOk};
ghost use Rattle.merge_orders.specs.Merge.{IsMergedOrder};
ghost use Rattle.events.specs.Operations.{operations};
ghost use Rattle.orders.specs.Orders.{IsOrderOfHistory};
ghost use Rattle.merge_orders.specs.OrdersOfSegments.{AreOrdersOfSegments};

use crate::points::{calls_at_points, numbers_of};
use events::{History, Memory};
use std::alloc::Global;

/// Merges the segments' orders: their calls by rising point, and calls of one segment in its order.
/// The result is an order of the history. For n calls it takes time n log n. It returns `Err` if
/// memory runs out.
pub fn merge(alloc: Global, history: &History, orders: &[Vec<u32>]) -> Result<Vec<u32>, Memory>
    requires { AreOrdersOfSegments history.now.start (operations history.now.events)
        (map (λ v. v.items) orders.now) }
    ensures merged { IfOk result (λ v. IsMergedOrder (operations history.now.events)
        (map (λ v. v.items) orders.now) v.items) }
    ensures order { IfOk result (λ v. IsOrderOfHistory history.now v.items) }
{
    let mut calls = calls_at_points(alloc, history.calls(), orders)?;
    calls.sort_by_key(|call| call.point)?;
    numbers_of(alloc, &calls)
}
