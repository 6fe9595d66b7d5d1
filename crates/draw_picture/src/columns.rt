// The columns of a picture.
ghost use Rattle.std.specs.Prelude.{◌≡◌, ◌≢◌, ◌<◌, length, slice_index, All, AllPairs, IfOk};
ghost use Rattle.draw_picture.specs.Columns.{order_points, event_column, mark_column};

use events::{Event, Memory, Operation};
use std::alloc::Global;

/// Returns the points of the calls of an order: the greatest place of an invocation up to each
/// call's place.
pub fn points_of(alloc: Global, calls: &[Operation], order: &[u32]) -> Result<Vec<usize>, Memory>
    requires known { All (λ n. n < length calls.now) order.now }
    requires distinct { AllPairs (λ m n. m ≢ n) order.now }
    ensures { IfOk result (λ v. v.items ≡ order_points calls.now order.now) }
{
    let mut points = Vec::with_capacity(alloc, order.len())?;
    let mut point: usize = 0;
    for number in order {
        point = point.max(calls[*number as usize].inv);
        points.push(point)?;
    }
    Ok(points)
}

/// Returns the column of an event.
pub fn event_column(events: &[Event], points: &[usize], event: usize) -> usize
    requires { event < length events.now }
    ensures { result ≡ event_column points.now event }
{
    event + points.iter().filter(|point| **point < event).count()
}

/// Returns the column of the mark of the call at a place of the order.
pub fn mark_column(events: &[Event], points: &[usize], place: usize) -> usize
    requires place { place < length points.now }
    requires point { slice_index points.now place < length events.now }
    ensures { result ≡ mark_column points.now place }
{
    points[place] + 1 + place
}
