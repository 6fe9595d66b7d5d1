// The picture of a verdict.
ghost use Rattle.std.specs.Prelude.{◌≡◌, IfOk};
ghost use Rattle.events.specs.Operations.{operations};
ghost use Rattle.events.specs.Histories.{IsHistory};
ghost use Rattle.draw_picture.specs.Bars.{AreBarsOf};
ghost use Rattle.draw_picture.specs.Columns.{order_points};
ghost use Rattle.draw_picture.specs.Lanes.{lanes};
ghost use Rattle.draw_picture.specs.Marks.{IsMarkable, AreMarksOf};
ghost use Rattle.draw_picture.specs.Pictures.{marked, heading_of, IsPictureOf};

use crate::bars::{Scene, bars_of};
use crate::columns::points_of;
use crate::lanes::lanes_of;
use crate::marks::marks_of;
use crate::picture::{Bar, Heading, Mark, Picture};
use events::{History, Memory};
use judge::Verdict;
use std::alloc::Global;

/// Draws the picture of a verdict on a history. It marks the event at which the history goes wrong,
/// if that is known. In a no or an undecided it marks the calls of a front like an order; the front
/// is empty if none is known. It returns `Err` if memory runs out. For n calls it takes time in
/// proportion to n times the calls marked, and to the length of all replies.
pub fn picture_of(
    alloc: Global,
    history: &History,
    verdict: &Verdict,
    wrong: Option<usize>,
    front: &[u32],
) -> Result<Picture, Memory>
    requires { IsMarkable (operations history.now.events) (marked verdict.now front.now) }
    ensures { IfOk result (IsPictureOf history.now verdict.now wrong front.now) }
{
    let points = points_of(alloc, history.calls(), marked_calls(verdict, front))?;
    picture_at(alloc, history, verdict, wrong, front, &points)
}

/// Draws the picture of a verdict, from the points of the calls that are marked.
fn picture_at(
    alloc: Global,
    history: &History,
    verdict: &Verdict,
    wrong: Option<usize>,
    front: &[u32],
    points: &[usize],
) -> Result<Picture, Memory>
    requires markable { IsMarkable (operations history.now.events) (marked verdict.now front.now) }
    requires points { points.now ≡ order_points (operations history.now.events)
        (marked verdict.now front.now) }
    ensures { IfOk result (IsPictureOf history.now verdict.now wrong front.now) }
{
    let order = marked_calls(verdict, front);
    let start = Vec::from_slice(alloc, history.start())?;
    let lanes = lanes_of(alloc, history.events())?;
    let scene = Scene {
        history,
        verdict,
        wrong,
        lanes: &lanes,
        points,
    };
    let (bars, marks) = bars_and_marks(alloc, &scene, order)?;
    let columns = history.events().len() + order.len();
    Ok(Picture {
        heading: heading_of(verdict),
        start,
        lanes,
        bars,
        marks,
        columns,
        part: None,
        is_few: false,
    })
}

/// Returns the bars of a picture, and the marks of an order on them.
fn bars_and_marks(
    alloc: Global,
    scene: &Scene<'_>,
    order: &[u32],
) -> Result<(Vec<Bar>, Vec<Mark>), Memory>
    requires lanes { scene.now.lanes.now ≡ lanes scene.now.history.now.events }
    requires history { IsHistory scene.now.history.now }
    requires order { IsMarkable (operations scene.now.history.now.events) order.now }
    requires points { scene.now.points.now ≡ order_points (operations scene.now.history.now.events)
        order.now }
    ensures bars { IfOk result (λ drawn. AreBarsOf scene.now.history.now.events scene.now.points.now
        scene.now.verdict.now scene.now.wrong drawn.0.items) }
    ensures marks { IfOk result (λ drawn. AreMarksOf (operations scene.now.history.now.events)
        order.now
        drawn.0.items drawn.1.items) }
{
    let bars = bars_of(alloc, scene)?;
    let marks = marks_of(alloc, scene, order, &bars)?;
    Ok((bars, marks))
}

/// Returns the calls that are marked: those of the order of a yes, otherwise those of the front.
fn marked_calls<'a>(verdict: &'a Verdict, front: &'a [u32]) -> &'a [u32]
    ensures { result.now ≡ marked verdict.now front.now }
{
    match verdict {
        Verdict::Yes(order) => order,
        Verdict::No(_) | Verdict::Undecided(_) => front,
    }
}

/// Returns the heading of a picture of the verdict.
fn heading_of(verdict: &Verdict) -> Heading
    ensures { result ≡ heading_of verdict.now }
{
    match verdict {
        Verdict::Yes(_) => Heading::Order,
        Verdict::No(segment) => Heading::NoOrder {
            lo: segment.lo(),
            hi: segment.hi(),
        },
        Verdict::Undecided(segment) => Heading::Undecided {
            lo: segment.lo(),
            hi: segment.hi(),
        },
    }
}
