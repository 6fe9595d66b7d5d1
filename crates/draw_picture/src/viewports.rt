// The part of a picture that a view shows.
ghost use Rattle.std.specs.Prelude.{◌≡◌, ◌==◌, ◌+◌, ◌++◌, ◌≤◌, length, map, min, option_map, position, slice_get, unwrap_or, IfOk, OnOk, Option};
ghost use Rattle.std.specs.List.{filter_map, list_any};
ghost use Rattle.draw_picture.specs.Viewports.{ranked_bar, ranked_mark, meets, is_within, cut_bar, cut_mark, cut_end};
ghost use Rattle.draw_picture.specs.Viewports.{columns_of, start_of, end_of, rank, place_of, has_key, start_kept, lanes_kept, bar_in, bars_in, marks_in};
ghost use Rattle.draw_picture.specs.Viewports.{viewport_from, event_meant, event_shown, last_point, column_of, is_whole, room_for};
ghost use Rattle.draw_picture.specs.Viewports.{IsPartOf, IsShownOf, IsViewportAround};

use crate::picture::{Bar, Mark, Picture, PicturePart, View};
use events::{MAX_CALLS, Memory};
use std::alloc::Global;

/// Returns the part of a picture that a view shows, for a history with this many events. It is the
/// picture itself if there is room for all its columns, and otherwise a viewport of the columns of
/// the calls that the verdict concerns. It takes time in proportion to the square of the columns.
/// It returns `Err` if memory runs out.
pub fn part_of(
    alloc: Global,
    picture: Picture,
    events: usize,
    wrong: Option<usize>,
    view: View,
) -> Result<Picture, Memory>
    ensures { IfOk result (IsShownOf events wrong view picture) }
{
    let room = room_for(view.calls);
    if is_whole(room, picture.columns) {
        return Ok(picture);
    }
    let event = event_shown(events, wrong, view.around as usize, &picture.marks);
    let column = column_of(&picture.marks, event);
    viewport_around(alloc, picture, room, column, event)
}

/// Returns for how many columns there is room. There are three for each call that the view asks
/// for. If it asks for more than a history can have, there is room for 20 calls.
fn room_for(calls: u32) -> usize
    ensures { result ≡ room_for calls }
{
    if calls as usize > MAX_CALLS {
        60
    } else {
        calls as usize * 3
    }
}

/// Returns the viewport with this much room around the column of an event.
pub(crate) fn viewport_around(
    alloc: Global,
    picture: Picture,
    room: usize,
    column: u128,
    event: usize,
) -> Result<Picture, Memory>
    ensures { IfOk result (IsViewportAround room column event picture) }
{
    let columns = columns_of(alloc, &picture.bars, &picture.marks)?;
    let middle = rank(&columns, column);
    let from = viewport_from(columns.len(), middle, room);
    let to = from + room.min(columns.len());
    viewport_at(alloc, picture, &columns, event, from, to)
}

/// Returns whether a picture with this many columns is shown as a whole.
fn is_whole(room: usize, columns: usize) -> bool
    ensures { result ≡ is_whole room columns }
{
    room == 0 || columns <= room
}

/// Returns the event in the middle: the one that the view asks for, if the history has it.
fn event_shown(events: usize, wrong: Option<usize>, around: usize, marks: &[Mark]) -> usize
    ensures { result ≡ event_shown events wrong around marks.now }
{
    if around < events {
        around
    } else {
        event_meant(wrong, marks)
    }
}

/// Returns the event in the middle if the view asks for none: the wrong one; otherwise the one
/// after which the last mark is.
pub(crate) fn event_meant(wrong: Option<usize>, marks: &[Mark]) -> usize
    ensures { result ≡ event_meant wrong marks.now }
{
    match wrong {
        Some(event) => event,
        None => last_point(marks),
    }
}

/// Returns the event after which the last mark is, or the first event if nothing is marked.
fn last_point(marks: &[Mark]) -> usize
    ensures { result ≡ last_point marks.now }
{
    match marks.last() {
        Some(mark) => mark.point,
        None => 0,
    }
}

/// Returns the column of an event in the whole picture.
pub(crate) fn column_of(marks: &[Mark], event: usize) -> u128
    ensures { result ≡ column_of marks.now event }
{
    event as u128 + marks.iter().filter(|mark| mark.point < event).count() as u128
}

/// Returns the columns that the calls concerned and the marks have in the whole picture.
fn columns_of(alloc: Global, bars: &[Bar], marks: &[Mark]) -> Result<Vec<usize>, Memory>
    ensures { IfOk result (λ v. v.items ≡ columns_of bars.now marks.now) }
{
    let mut columns = starts_of(alloc, bars)?;
    push_ends(alloc, &mut columns, bars)?;
    push_places(alloc, &mut columns, marks)?;
    Ok(columns)
}

/// Adds the columns of the responses.
fn push_ends(alloc: Global, columns: &mut Vec<usize>, bars: &[Bar]) -> Result<(), Memory>
    ensures { OnOk result (columns.new.items ≡ columns.old.items ++ filter_map end_of bars.now) }
{
    let ends = ends_of(alloc, bars)?;
    Ok(columns.extend_from_slice(&ends)?)
}

/// Adds the columns of the marks.
fn push_places(alloc: Global, columns: &mut Vec<usize>, marks: &[Mark]) -> Result<(), Memory>
    ensures { OnOk result (columns.new.items ≡ columns.old.items ++ map (λ m. m.column) marks.now) }
{
    let places = places_of(alloc, marks)?;
    Ok(columns.extend_from_slice(&places)?)
}

/// Returns the columns of their invocations.
fn starts_of(alloc: Global, bars: &[Bar]) -> Result<Vec<usize>, Memory>
    ensures { IfOk result (λ v. v.items ≡ filter_map start_of bars.now) }
{
    Ok(bars.iter().filter_map(|bar| start_of(bar)).collect(alloc)?)
}

/// Returns the column of an invocation, if the verdict concerns the call.
fn start_of(bar: &Bar) -> Option<usize>
    ensures { result ≡ start_of bar.now }
{
    if bar.is_pale { None } else { Some(bar.from) }
}

/// Returns the columns of their responses.
fn ends_of(alloc: Global, bars: &[Bar]) -> Result<Vec<usize>, Memory>
    ensures { IfOk result (λ v. v.items ≡ filter_map end_of bars.now) }
{
    Ok(bars.iter().filter_map(|bar| end_of(bar)).collect(alloc)?)
}

/// Returns the column of a response, if the verdict concerns the call.
fn end_of(bar: &Bar) -> Option<usize>
    ensures { result ≡ end_of bar.now }
{
    if bar.is_pale { None } else { bar.to }
}

/// Returns the columns of the marks.
fn places_of(alloc: Global, marks: &[Mark]) -> Result<Vec<usize>, Memory>
    ensures { IfOk result (λ v. v.items ≡ map (λ m. m.column) marks.now) }
{
    Ok(marks.iter().map(|mark| mark.column).collect(alloc)?)
}

/// Returns how many of the columns are before a column.
fn rank(columns: &[usize], column: u128) -> usize
    ensures value { result ≡ rank columns.now column }
    ensures within { result ≤ length columns.now }
{
    columns
        .iter()
        .filter(|other| (**other as u128) < column)
        .count()
}

/// Returns the first column of a viewport with this much room: the middle is in its middle, as far
/// as the columns allow.
fn viewport_from(columns: usize, middle: usize, room: usize) -> usize
    ensures value { result ≡ viewport_from columns middle room }
    ensures within { result + min room columns ≤ columns }
{
    let last = columns - room.min(columns);
    middle.saturating_sub(room / 2).min(last)
}

/// Returns the viewport from a column up to another one.
fn viewport_at(
    alloc: Global,
    picture: Picture,
    columns: &[usize],
    event: usize,
    from: usize,
    to: usize,
) -> Result<Picture, Memory>
    ensures { IfOk result (IsPartOf columns.now event from to picture) }
{
    let (start, lanes, bars, marks) = kept_at(
        alloc,
        picture.bars,
        &picture.marks,
        &picture.start,
        &picture.lanes,
        columns,
        from,
        to,
    )?;
    Ok(Picture {
        heading: picture.heading,
        start,
        lanes,
        bars,
        marks,
        columns: to.saturating_sub(from),
        part: Some(PicturePart {
            before: from,
            after: columns.len().saturating_sub(to),
            event,
        }),
        is_few: picture.is_few,
    })
}

/// Returns the pairs at the start, the lanes, the bars and the marks of a viewport, from all pairs
/// and all lanes.
fn kept_at(
    alloc: Global,
    bars: Vec<Bar>,
    marks: &[Mark],
    pairs: &[(u64, u64)],
    all: &[u8],
    columns: &[usize],
    from: usize,
    to: usize,
) -> Result<(Vec<(u64, u64)>, Vec<u8>, Vec<Bar>, Vec<Mark>), Memory>
    ensures start { IfOk result (λ kept. kept.0.items ≡ start_kept
        (bars_in columns.now from to bars.items) pairs.now) }
    ensures lanes { IfOk result (λ kept. kept.1.items ≡ lanes_kept
        (bars_in columns.now from to bars.items) all.now) }
    ensures bars { IfOk result (λ kept. kept.2.items ≡ map (cut_bar kept.1.items from to)
        (bars_in columns.now from to bars.items)) }
    ensures marks { IfOk result (λ kept. kept.3.items
        ≡ map (cut_mark all.now kept.1.items from) (marks_in columns.now from to marks.now)) }
{
    let bars = bars_in(alloc, bars, columns, from, to)?;
    let start = start_kept(alloc, &bars, pairs)?;
    let lanes = lanes_kept(alloc, &bars, all)?;
    let marks = marks_at(alloc, marks, all, &lanes, columns, from, to)?;
    let bars = cut_bars(alloc, bars, &lanes, from, to)?;
    Ok((start, lanes, bars, marks))
}

/// Returns the marks in a viewport, as it shows them, from all lanes.
fn marks_at(
    alloc: Global,
    marks: &[Mark],
    all: &[u8],
    lanes: &[u8],
    columns: &[usize],
    from: usize,
    to: usize,
) -> Result<Vec<Mark>, Memory>
    ensures { IfOk result (λ v. v.items ≡ map (cut_mark all.now lanes.now from)
        (marks_in columns.now from to marks.now)) }
{
    let marks = marks_in(alloc, marks, columns, from, to)?;
    cut_marks(alloc, &marks, all, lanes, from)
}

/// Returns the bars in a viewport of the calls that the verdict concerns, with their places among
/// the columns.
fn bars_in(
    alloc: Global,
    bars: Vec<Bar>,
    columns: &[usize],
    from: usize,
    to: usize,
) -> Result<Vec<Bar>, Memory>
    ensures { IfOk result (λ v. v.items ≡ bars_in columns.now from to bars.items) }
{
    let kept = bars_kept(alloc, bars, columns, from, to)?;
    Ok(kept)
}

/// Returns the bars in a viewport, one by one.
fn bars_kept(
    alloc: Global,
    bars: Vec<Bar>,
    columns: &[usize],
    from: usize,
    to: usize,
) -> Result<Vec<Bar>, Memory>
    ensures { IfOk result (λ v. v.items ≡ filter_map (bar_in columns.now from to) bars.items) }
{
    Ok(
        bars.into_iter()
            .filter_map(|bar| bar_in(columns, from, to, bar))
            .collect(alloc)?,
    )
}

/// Returns a bar with its places among the columns, if it meets a viewport and the verdict concerns
/// the call.
fn bar_in(columns: &[usize], from: usize, to: usize, bar: Bar) -> Option<Bar>
    ensures { result ≡ bar_in columns.now from to bar }
{
    if bar.is_pale {
        return None;
    }
    let bar = ranked_bar(columns, bar);
    if meets(from, to, &bar) {
        Some(bar)
    } else {
        None
    }
}

/// Returns a bar whose columns are their places among these.
fn ranked_bar(columns: &[usize], bar: Bar) -> Bar
    ensures { result ≡ ranked_bar columns.now bar }
{
    let from = rank(columns, bar.from as u128);
    let to = ranked_end(columns, bar.to);
    Bar { from, to, ..bar }
}

/// Returns the place of a column among these.
fn ranked_end(columns: &[usize], end: Option<usize>) -> Option<usize>
    ensures { result ≡ option_map (rank columns.now) end }
{
    match end {
        Some(column) => Some(rank(columns, column as u128)),
        None => None,
    }
}

/// Returns whether a bar has a part in a viewport.
fn meets(from: usize, to: usize, bar: &Bar) -> bool
    ensures { result ≡ meets from to bar.now }
{
    if bar.from >= to {
        return false;
    }
    match bar.to {
        Some(end) => from <= end,
        None => true,
    }
}

/// Returns the marks in a viewport, with their places among the columns.
fn marks_in(
    alloc: Global,
    marks: &[Mark],
    columns: &[usize],
    from: usize,
    to: usize,
) -> Result<Vec<Mark>, Memory>
    ensures { IfOk result (λ v. v.items ≡ marks_in columns.now from to marks.now) }
{
    Ok(
        marks
            .iter()
            .map(|mark| ranked_mark(columns, mark))
            .filter(|mark| is_within(from, to, mark))
            .collect(alloc)?,
    )
}

/// Returns a mark whose column is its place among these.
fn ranked_mark(columns: &[usize], mark: &Mark) -> Mark
    ensures { result ≡ ranked_mark columns.now mark.now }
{
    let column = rank(columns, mark.column as u128);
    Mark { column, ..*mark }
}

/// Returns whether a mark is in a viewport.
fn is_within(from: usize, to: usize, mark: &Mark) -> bool
    ensures { result ≡ is_within from to mark.now }
{
    from <= mark.column && mark.column < to
}

/// Returns the pairs at keys that the calls of these bars name.
fn start_kept(alloc: Global, bars: &[Bar], start: &[(u64, u64)]) -> Result<Vec<(u64, u64)>, Memory>
    ensures { IfOk result (λ v. v.items ≡ start_kept bars.now start.now) }
{
    Ok(
        start
            .iter()
            .copied()
            .filter(|pair| is_named(bars, pair.0))
            .collect(alloc)?,
    )
}

/// Returns whether the call of one of these bars names a key.
fn is_named(bars: &[Bar], key: u64) -> bool
    ensures { result ≡ list_any (has_key key) bars.now }
{
    bars.iter().any(|bar| bar.low <= key && key <= bar.high)
}

/// Returns the lanes in which there is a bar.
fn lanes_kept(alloc: Global, bars: &[Bar], lanes: &[u8]) -> Result<Vec<u8>, Memory>
    ensures { IfOk result (λ v. v.items ≡ lanes_kept bars.now lanes.now) }
{
    Ok(
        lanes
            .iter()
            .copied()
            .filter(|lane| has_bar(bars, *lane))
            .collect(alloc)?,
    )
}

/// Returns whether a process has a bar.
fn has_bar(bars: &[Bar], process: u8) -> bool
    ensures { result ≡ list_any (λ b. b.process == process) bars.now }
{
    bars.iter().any(|bar| bar.process == process)
}

/// Returns the place of a process's lane among these.
fn place_of(lanes: &[u8], process: u8) -> usize
    ensures { result ≡ place_of lanes.now process }
{
    match lane_of(lanes, process) {
        Some(place) => place,
        None => 0,
    }
}

/// Returns the lane of a process.
fn lane_of(lanes: &[u8], process: u8) -> Option<usize>
    ensures { result ≡ position (λ lane. lane == process) lanes.now }
{
    lanes.iter().position(|lane| *lane == process)
}

/// Returns the bars as a viewport with these lanes shows them.
fn cut_bars(
    alloc: Global,
    bars: Vec<Bar>,
    lanes: &[u8],
    from: usize,
    to: usize,
) -> Result<Vec<Bar>, Memory>
    ensures { IfOk result (λ v. v.items ≡ map (cut_bar lanes.now from to) bars.items) }
{
    Ok(
        bars.into_iter()
            .map(|bar| cut_bar(lanes, from, to, bar))
            .collect(alloc)?,
    )
}

/// Returns a bar as a viewport shows it: open at the left if it begins before the viewport, and at
/// the right if it ends after it.
fn cut_bar(lanes: &[u8], from: usize, to: usize, bar: Bar) -> Bar
    ensures { result ≡ cut_bar lanes.now from to bar }
{
    Bar {
        lane: place_of(lanes, bar.process),
        from: bar.from.saturating_sub(from),
        to: cut_end(from, to, bar.to),
        is_cut: bar.from < from,
        ..bar
    }
}

/// Returns where a bar ends in a viewport, if it ends there.
fn cut_end(from: usize, to: usize, end: Option<usize>) -> Option<usize>
    ensures { result ≡ cut_end from to end }
{
    let column = end?;
    if column < to {
        Some(column.saturating_sub(from))
    } else {
        None
    }
}

/// Returns the marks as a viewport with these lanes shows them.
fn cut_marks(
    alloc: Global,
    marks: &[Mark],
    all: &[u8],
    lanes: &[u8],
    from: usize,
) -> Result<Vec<Mark>, Memory>
    ensures { IfOk result (λ v. v.items ≡ map (cut_mark all.now lanes.now from) marks.now) }
{
    Ok(
        marks
            .iter()
            .map(|mark| cut_mark(all, lanes, from, mark))
            .collect(alloc)?,
    )
}

/// Returns a mark as a viewport shows it.
fn cut_mark(all: &[u8], lanes: &[u8], from: usize, mark: &Mark) -> Mark
    ensures { result ≡ cut_mark all.now lanes.now from mark.now }
{
    Mark {
        lane: place_of(lanes, process_at(all, mark.lane)),
        column: mark.column.saturating_sub(from),
        ..*mark
    }
}

/// Returns the process of a lane.
fn process_at(lanes: &[u8], lane: usize) -> u8
    ensures { result ≡ unwrap_or (slice_get lanes.now lane) 0 }
{
    match lanes.get(lane) {
        Some(process) => *process,
        None => 0,
    }
}
