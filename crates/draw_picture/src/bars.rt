// The bars of a picture.
ghost use Rattle.std.specs.Prelude.{◌≡◌, ◌<◌, [], length, IfOk, OnOk, IfSome, Some, slice_get, option_map, string_bytes};
ghost use Rattle.events.specs.Events.{process_of};
ghost use Rattle.events.specs.Operations.{operations};
ghost use Rattle.events.specs.Histories.{IsHistory};
ghost use Rattle.draw_picture.specs.Bars.{speaks_of, is_response, IsBarOf, AreBarsOf};
ghost use Rattle.draw_picture.specs.Lanes.{lanes};
ghost use Rattle.draw_picture.specs.Columns.{event_column};
ghost use Rattle.events.specs.Lists.{has_number};
ghost use Rattle.draw_picture.specs.Words.{call_words, reply_words};

use crate::columns::event_column;
use crate::lanes::lane_of;
use crate::picture::Bar;
use crate::words::{call_words, reply_words};
use events::{Event, History, Memory, Operation, Response};
use judge::Verdict;
use std::alloc::Global;

/// The data from which the bars of a picture are drawn, apart from the calls.
#[derive(Clone, Copy)]
pub struct Scene<'a> {
    pub history: &'a History,
    pub verdict: &'a Verdict,
    pub wrong: Option<usize>,
    pub lanes: &'a [u8],
    pub points: &'a [usize],
}

/// Returns one bar for each call, by number. For n calls it takes time in proportion to n times the
/// calls of the order, and to the length of all replies.
pub fn bars_of(alloc: Global, scene: &Scene<'_>) -> Result<Vec<Bar>, Memory>
    requires lanes { scene.now.lanes.now ≡ lanes scene.now.history.now.events }
    requires history { IsHistory scene.now.history.now }
    ensures { IfOk result (λ v. AreBarsOf scene.now.history.now.events scene.now.points.now
        scene.now.verdict.now scene.now.wrong v.items) }
{
    let mut bars = Vec::with_capacity(alloc, scene.history.calls().len())?;
    push_bars(alloc, scene, &mut bars)?;
    Ok(bars)
}

/// Adds one bar for each call, by number, to an empty list.
fn push_bars(alloc: Global, scene: &Scene<'_>, bars: &mut Vec<Bar>) -> Result<(), Memory>
    requires lanes { scene.now.lanes.now ≡ lanes scene.now.history.now.events }
    requires history { IsHistory scene.now.history.now }
    requires none { bars.old.items ≡ [] }
    ensures { OnOk result (AreBarsOf scene.now.history.now.events scene.now.points.now
        scene.now.verdict.now scene.now.wrong bars.new.items) }
{
    let calls = scene.history.calls();
    for (number, call) in calls.iter().enumerate() {
        bars.push(bar_of(alloc, scene, number, call)?)?;
    }
    Ok(())
}

/// Returns the bar of a call.
fn bar_of(alloc: Global, scene: &Scene<'_>, number: usize, call: &Operation) -> Result<Bar, Memory>
    requires lanes { scene.now.lanes.now ≡ lanes scene.now.history.now.events }
    requires history { IsHistory scene.now.history.now }
    requires call { slice_get (operations scene.now.history.now.events) number ≡ Some call.now }
    ensures { IfOk result (IsBarOf scene.now.history.now.events scene.now.points.now
        scene.now.verdict.now scene.now.wrong number call.now) }
{
    let words = call_words(alloc, &call.call)?;
    let reply = words_of_response(alloc, &call.response)?;
    Ok(bar_with(scene, number, call, words, reply))
}

/// Returns the bar of a call, with the call and its reply in words.
fn bar_with(
    scene: &Scene<'_>,
    number: usize,
    call: &Operation,
    words: String,
    reply: Option<String>,
) -> Bar
    requires lanes { scene.now.lanes.now ≡ lanes scene.now.history.now.events }
    requires history { IsHistory scene.now.history.now }
    requires call { slice_get (operations scene.now.history.now.events) number ≡ Some call.now }
    requires words { string_bytes words ≡ call_words call.now.call }
    requires reply { option_map string_bytes reply ≡ option_map (λ r. reply_words r.reply)
        call.now.response }
    ensures { IsBarOf scene.now.history.now.events scene.now.points.now scene.now.verdict.now
        scene.now.wrong number call.now result }
{
    let events = scene.history.events();
    let process = process_at(events, call.inv);
    Bar {
        number,
        process,
        lane: lane_of(scene.lanes, process),
        inv: call.inv,
        res: place_of(&call.response),
        from: event_column(events, scene.points, call.inv),
        to: column_of(events, scene.points, &call.response),
        low: call.call.low_key(),
        high: call.call.high_key(),
        call: words,
        reply,
        is_pale: !speaks_of(scene.verdict, number),
        is_wrong: is_response(scene.wrong, &call.response),
        is_cut: false,
    }
}

/// Returns the process of the event at a place.
fn process_at(events: &[Event], place: usize) -> u8
    requires { place < length events.now }
    ensures { IfSome (slice_get events.now place) (λ event. result ≡ process_of event) }
{
    events[place].process()
}

/// Returns the reply of a response in words.
fn words_of_response(alloc: Global, response: &Option<Response>) -> Result<Option<String>, Memory>
    ensures { IfOk result (λ words. option_map string_bytes words ≡ option_map
        (λ r. reply_words r.reply) response.now) }
{
    match response {
        Some(response) => Ok(Some(reply_words(alloc, &response.reply)?)),
        None => Ok(None),
    }
}

/// Returns the place of a response among the events.
fn place_of(response: &Option<Response>) -> Option<usize>
    ensures { result ≡ option_map (λ r. r.res) response.now }
{
    match response {
        Some(response) => Some(response.res),
        None => None,
    }
}

/// Returns the column of a response.
fn column_of(events: &[Event], points: &[usize], response: &Option<Response>) -> Option<usize>
    requires { IfSome response.now (λ r. r.res < length events.now) }
    ensures { result ≡ option_map (λ r. event_column points.now r.res) response.now }
{
    match response {
        Some(response) => Some(event_column(events, points, response.res)),
        None => None,
    }
}

/// Returns whether a verdict concerns a call: a yes concerns all calls, a no and an undecided those
/// of the segment that they name.
fn speaks_of(verdict: &Verdict, number: usize) -> bool
    ensures { result ≡ speaks_of verdict.now number }
{
    match verdict {
        Verdict::Yes(_) => true,
        Verdict::No(segment) | Verdict::Undecided(segment) => has_number(segment.numbers(), number),
    }
}

fn has_number(numbers: &[u32], number: usize) -> bool
    ensures { result ≡ has_number numbers.now number }
{
    numbers.iter().any(|other| *other as usize == number)
}

/// Returns whether a wrong event is known, and this response is at it.
fn is_response(event: Option<usize>, response: &Option<Response>) -> bool
    ensures { result ≡ is_response event response.now }
{
    let Some(event) = event else {
        return false;
    };
    match response {
        Some(response) => response.res == event,
        None => false,
    }
}
