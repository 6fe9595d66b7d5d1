// The lines of the values that a few calls report and none of them puts: which calls of the history
// put them.
ghost use Rattle.std.specs.Prelude.{◌≡◌, ℕ, [], map, IfOk, OnOk, string_bytes};
ghost use Rattle.serde_json.specs.Data.{object};
ghost use Rattle.serde_json.specs.View.{view, members_view};
ghost use Rattle.serde_json.specs.Written.{compact_text};
ghost use Rattle.history_text.specs.Texts.{list_data};
ghost use Rattle.map_object.specs.MapObject.{IsRising};
ghost use Rattle.cli_outcome.specs.Lines.{line};
ghost use Rattle.cli_explain.specs.Answers.{AreOriginLines};
ghost use Rattle.cli_explain.specs.Origins.{writer_data, pair_origin_data, origin_data, origin_lines};

use crate::processes::process_at;
use cli_outcome::line_of;
use events::{Event, History, Memory, Operation};
use explain_reads_from::{external_reads, holds, writers_of};
use map_object::SortedMap;
use serde_json::{Map, Value, put};
use std::alloc::{AllocError, Global};

/// Returns a line for each pair of a key and a value that a few calls report from outside of them,
/// from some pairs on.
pub(crate) fn outside_lines(
    alloc: Global,
    history: &History,
    start: &[(u64, u64)],
    few: &[Operation],
) -> Result<String, Memory>
    requires { IsRising start.now }
    ensures { IfOk result (λ text. AreOriginLines history.now start.now few.now
        (string_bytes text)) }
{
    let here = SortedMap::of(alloc, start)?;
    let pairs = external_reads(alloc, &here, few)?;
    let whole = SortedMap::of(alloc, history.start())?;
    origin_lines(alloc, &whole, history.events(), history.calls(), &pairs)
}

/// Returns a line for each pair: the calls that put it, and whether the map held it at the start.
fn origin_lines(
    alloc: Global,
    start: &SortedMap,
    events: &[Event],
    calls: &[Operation],
    pairs: &[(u64, u64)],
) -> Result<String, Memory>
    ensures { IfOk result (λ text. string_bytes text ≡ origin_lines start.now events.now calls.now
        pairs.now) }
{
    let mut text = String::new(alloc);
    for pair in pairs {
        let origin = origin_line(alloc, start, events, calls, *pair)?;
        text.push_str(origin.as_str())?;
    }
    Ok(text)
}

fn origin_line(
    alloc: Global,
    start: &SortedMap,
    events: &[Event],
    calls: &[Operation],
    pair: (u64, u64),
) -> Result<String, Memory>
    ensures { IfOk result (λ text. string_bytes text ≡ line
        (compact_text (origin_data start.now events.now calls.now pair))) }
{
    let places = writers_of(alloc, calls, pair)?;
    let value = origin_value(alloc, start, events, &places, pair)?;
    Ok(line_of(value.to_string(alloc)?)?)
}

fn origin_value(
    alloc: Global,
    start: &SortedMap,
    events: &[Event],
    places: &[usize],
    pair: (u64, u64),
) -> Result<Value, AllocError>
    ensures { IfOk result (λ value. view value ≡ pair_origin_data start.now events.now places.now
        pair) }
{
    let mut members = Map::new(alloc);
    put_origin(alloc, &mut members, start, events, places, pair)?;
    Ok(Value::Object(members))
}

/// Adds a pair, the calls that put it, and whether the map held it at the start, to an object
/// without members.
fn put_origin(
    alloc: Global,
    members: &mut Map<String, Value>,
    start: &SortedMap,
    events: &[Event],
    places: &[usize],
    pair: (u64, u64),
) -> Result<(), AllocError>
    requires { members.old.entries ≡ [] }
    ensures { OnOk result (object (members_view members.new.entries)
        ≡ pair_origin_data start.now events.now places.now pair) }
{
    put(members, alloc, "key", Value::from(pair.0))?;
    put(members, alloc, "puts", all_writers(alloc, events, places)?)?;
    put(members, alloc, "start", Value::from(holds(start, pair)))?;
    put(members, alloc, "value", Value::from(pair.1))
}

/// Returns the calls that were invoked at some places.
fn all_writers(alloc: Global, events: &[Event], places: &[usize]) -> Result<Value, AllocError>
    ensures { IfOk result (λ value. view value ≡ list_data
        (map (writer_data events.now) places.now)) }
{
    let mut items = Vec::with_capacity(alloc, places.len())?;
    for place in places {
        items.push(writer_value(alloc, events, *place)?)?;
    }
    Ok(Value::from(items))
}

pub(crate) fn writer_value(
    alloc: Global,
    events: &[Event],
    place: usize,
) -> Result<Value, AllocError>
    ensures { IfOk result (λ value. view value ≡ writer_data events.now place) }
{
    let mut members = Map::new(alloc);
    put_writer(alloc, &mut members, events, place)?;
    Ok(Value::Object(members))
}

/// Adds the event of a call and its process to an object without members.
fn put_writer(
    alloc: Global,
    members: &mut Map<String, Value>,
    events: &[Event],
    place: usize,
) -> Result<(), AllocError>
    requires { members.old.entries ≡ [] }
    ensures { OnOk result (object (members_view members.new.entries) ≡ writer_data events.now
        place) }
{
    put(members, alloc, "event", Value::from(place))?;
    put(
        members,
        alloc,
        "process",
        Value::from(process_at(events, place)),
    )
}
