// The points of calls in the orders of the segments.
ghost use Rattle.std.specs.Prelude.{◌≡◌, ◌≢◌, ◌<◌, ◌++◌, map, length, All, AllPairs, IfOk, OnOk};
ghost use Rattle.std.specs.List.{concat};
ghost use Rattle.merge_orders.specs.OrdersOfSegments.{NameCallsOnce};
ghost use Rattle.merge_orders.specs.Points.{at_point_in, at_point};

use events::{Memory, Operation};
use std::alloc::Global;

/// A call by its number, with its point: the greatest place of an invocation up to it in its order.
#[derive(Clone, Copy)]
pub struct CallAtPoint {
    pub point: usize,
    pub number: u32,
}

/// Returns the calls of all orders with their points, one order after another.
pub fn calls_at_points(
    alloc: Global,
    calls: &[Operation],
    orders: &[Vec<u32>],
) -> Result<Vec<CallAtPoint>, Memory>
    requires { NameCallsOnce calls.now (map (λ v. v.items) orders.now) }
    ensures { IfOk result (λ v. let all = map (λ v. v.items) orders.now in
        v.items ≡ map (at_point calls.now all) (concat all)) }
{
    let mut placed = Vec::new(alloc);
    for order in orders {
        push_order(&mut placed, calls, order)?;
    }
    Ok(placed)
}

/// Adds the calls of an order with their points, in its order.
fn push_order(
    placed: &mut Vec<CallAtPoint>,
    calls: &[Operation],
    order: &[u32],
) -> Result<(), Memory>
    requires known { All (λ n. n < length calls.now) order.now }
    requires distinct { AllPairs (λ m n. m ≢ n) order.now }
    ensures { OnOk result (placed.new.items ≡ placed.old.items ++ map (at_point_in calls.now order.now) order.now) }
{
    let mut point: usize = 0;
    for number in order {
        point = point.max(calls[*number as usize].inv);
        placed.push(CallAtPoint {
            point,
            number: *number,
        })?;
    }
    Ok(())
}

/// Returns the numbers of the calls.
pub fn numbers_of(alloc: Global, calls: &[CallAtPoint]) -> Result<Vec<u32>, Memory>
    ensures { IfOk result (λ v. v.items ≡ map (λ c. c.number) calls.now) }
{
    Ok(calls.iter().map(|call| call.number).collect(alloc)?)
}
