// The picture of only a few calls.
ghost use Rattle.std.specs.Prelude.{◌≡◌, map, IfOk};
ghost use Rattle.events.specs.Lists.{has_number};
ghost use Rattle.draw_picture.specs.Few.{named_bar, is_of_named, named_marks, IsNarrowedTo, IsFewOf};

use crate::picture::{Bar, Mark, Picture};
use crate::viewports::{column_of, event_meant, viewport_around};
use events::Memory;
use std::alloc::Global;

/// How many columns a picture of a few calls has at most.
const FEW_ROOM: usize = 60;

/// Returns the picture of only the calls that were invoked at these places, with their marks, in
/// columns of their own events. If there are more than 60 columns, it shows 60 around the wrong
/// event, or around the last mark of the picture if no event is wrong. It takes time in proportion
/// to the square of the columns, and to the bars times the places. It returns `Err` if memory runs
/// out.
pub fn few_of(
    alloc: Global,
    picture: Picture,
    places: &[usize],
    wrong: Option<usize>,
) -> Result<Picture, Memory>
    ensures { IfOk result (IsFewOf places.now wrong picture) }
{
    let event = event_meant(wrong, &picture.marks);
    let column = column_of(&picture.marks, event);
    let narrowed = narrowed_to(alloc, picture, places)?;
    let part = viewport_around(alloc, narrowed, FEW_ROOM, column, event)?;
    Ok(part)
}

/// Returns the picture in which only these calls are marked, and all other bars are pale.
fn narrowed_to(alloc: Global, picture: Picture, places: &[usize]) -> Result<Picture, Memory>
    ensures { IfOk result (IsNarrowedTo places.now picture) }
{
    let marks = named_marks(alloc, places, &picture.bars, &picture.marks)?;
    let bars = named_bars(alloc, places, picture.bars)?;
    Ok(Picture {
        heading: picture.heading,
        start: picture.start,
        lanes: picture.lanes,
        bars,
        marks,
        columns: picture.columns,
        part: picture.part,
        is_few: true,
    })
}

/// Returns the bars, all of them pale but those of these calls.
fn named_bars(alloc: Global, places: &[usize], bars: Vec<Bar>) -> Result<Vec<Bar>, Memory>
    ensures { IfOk result (λ v. v.items ≡ map (named_bar places.now) bars.items) }
{
    Ok(
        bars.into_iter()
            .map(|bar| named_bar(places, bar))
            .collect(alloc)?,
    )
}

/// Returns a bar, which is pale unless its call is one of these.
fn named_bar(places: &[usize], bar: Bar) -> Bar
    ensures { result ≡ named_bar places.now bar }
{
    let is_pale = !has_place(places, bar.inv);
    Bar { is_pale, ..bar }
}

/// Returns the marks of these calls.
fn named_marks(
    alloc: Global,
    places: &[usize],
    bars: &[Bar],
    marks: &[Mark],
) -> Result<Vec<Mark>, Memory>
    ensures { IfOk result (λ v. v.items ≡ named_marks places.now bars.now marks.now) }
{
    Ok(
        marks
            .iter()
            .copied()
            .filter(|mark| is_of_named(places, bars, mark))
            .collect(alloc)?,
    )
}

/// Returns whether a mark is of one of these calls.
fn is_of_named(places: &[usize], bars: &[Bar], mark: &Mark) -> bool
    ensures { result ≡ is_of_named places.now bars.now mark.now }
{
    bars.iter().any(|bar| bar.number == mark.number as usize && has_place(places, bar.inv))
}

/// Returns whether a place is among some.
fn has_place(places: &[usize], place: usize) -> bool
    ensures { result ≡ has_number places.now place }
{
    places.iter().any(|other| *other == place)
}
