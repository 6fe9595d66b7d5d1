// The marks of a picture.
ghost use Rattle.std.specs.Prelude.{◌≡◌, ◌<◌, length, slice_index, All, IfOk};
ghost use Rattle.events.specs.Operations.{operations};
ghost use Rattle.draw_picture.specs.Columns.{mark_column, order_points};
ghost use Rattle.draw_picture.specs.Bars.{AreSpansOf};
ghost use Rattle.draw_picture.specs.Marks.{IsMarkable, AreMarksOf};

use crate::bars::Scene;
use crate::columns::mark_column;
use crate::picture::{Bar, Mark};
use events::Memory;
use std::alloc::Global;

/// Returns one mark for each call of an order, at its point.
pub fn marks_of(
    alloc: Global,
    scene: &Scene<'_>,
    order: &[u32],
    bars: &[Bar],
) -> Result<Vec<Mark>, Memory>
    requires order { IsMarkable (operations scene.now.history.now.events) order.now }
    requires points { scene.now.points.now ≡ order_points (operations scene.now.history.now.events)
        order.now }
    requires bars { AreSpansOf (operations scene.now.history.now.events) scene.now.points.now
        bars.now }
    ensures { IfOk result (λ v. AreMarksOf (operations scene.now.history.now.events) order.now
        bars.now v.items) }
{
    let mut marks = Vec::with_capacity(alloc, order.len())?;
    for (place, number) in order.iter().enumerate() {
        let lane = bars[*number as usize].lane;
        marks.push(mark_at(scene, lane, place, *number))?;
    }
    Ok(marks)
}

/// Returns the mark of a call with this number, at a place of the order and in a lane.
fn mark_at(scene: &Scene<'_>, lane: usize, place: usize, number: u32) -> Mark
    requires place { place < length scene.now.points.now }
    requires point { slice_index scene.now.points.now place < length scene.now.history.now.events }
    ensures number { result.number ≡ number }
    ensures place { result.place ≡ place }
    ensures point { result.point ≡ slice_index scene.now.points.now place }
    ensures lane { result.lane ≡ lane }
    ensures column { result.column ≡ mark_column scene.now.points.now place }
{
    Mark {
        number,
        place,
        point: scene.points[place],
        lane,
        column: mark_column(scene.history.events(), scene.points, place),
    }
}
