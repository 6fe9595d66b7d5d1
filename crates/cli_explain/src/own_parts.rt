// The lines of the values of their keys from which a few calls of an own part begin.
ghost use Rattle.std.specs.Prelude.{◌≡◌, [], IfOk, OnOk, string_bytes};
ghost use Rattle.serde_json.specs.Data.{object};
ghost use Rattle.serde_json.specs.View.{view, members_view};
ghost use Rattle.serde_json.specs.Written.{compact_text};
ghost use Rattle.cli_outcome.specs.Lines.{line};
ghost use Rattle.cli_explain.specs.OwnParts.{put_data, from_data, key_lines, loss_lines, AreFromLines};

use crate::writers::writer_value;
use cli_outcome::line_of;
use events::{Event, History, Memory, Operation};
use explain_histories::value_or_null;
use follow_violations::{KeyCore, KeyViolation, Origin, own_losses};
use serde_json::{Map, Value, put};
use std::alloc::{AllocError, Global};

/// Returns a line for each value that a key of a few calls of a part has before them, with the call
/// that put it.
pub(crate) fn from_lines(
    alloc: Global,
    history: &History,
    part: &KeyCore,
    few: &[Operation],
) -> Result<String, Memory>
    ensures { IfOk result (λ text. AreFromLines history.now part.now few.now (string_bytes text)) }
{
    let losses = own_losses(alloc, part, few)?;
    loss_lines(alloc, history.events(), &losses)
}

/// Returns the lines of the values of each key.
fn loss_lines(alloc: Global, events: &[Event], losses: &[KeyViolation]) -> Result<String, Memory>
    ensures { IfOk result (λ text. string_bytes text ≡ loss_lines events.now losses.now) }
{
    let mut text = String::new(alloc);
    for loss in losses {
        let lines = key_lines(alloc, events, loss.key, &loss.from)?;
        text.push_str(lines.as_str())?;
    }
    Ok(text)
}

/// Returns a line for each of these values of a key.
fn key_lines(alloc: Global, events: &[Event], key: u64, from: &[Origin]) -> Result<String, Memory>
    ensures { IfOk result (λ text. string_bytes text ≡ key_lines events.now key from.now) }
{
    let mut text = String::new(alloc);
    for origin in from {
        let line = from_line(alloc, events, key, *origin)?;
        text.push_str(line.as_str())?;
    }
    Ok(text)
}

/// Returns the line of a value of a key.
fn from_line(alloc: Global, events: &[Event], key: u64, origin: Origin) -> Result<String, Memory>
    ensures { IfOk result (λ text. string_bytes text ≡ line
        (compact_text (from_data events.now key origin))) }
{
    let value = from_value(alloc, events, key, origin)?;
    Ok(line_of(value.to_string(alloc)?)?)
}

fn from_value(
    alloc: Global,
    events: &[Event],
    key: u64,
    origin: Origin,
) -> Result<Value, AllocError>
    ensures { IfOk result (λ value. view value ≡ from_data events.now key origin) }
{
    let mut members = Map::new(alloc);
    put_from(alloc, &mut members, events, key, origin)?;
    Ok(Value::Object(members))
}

/// Adds a value, its key and the call that put it to an object without members.
fn put_from(
    alloc: Global,
    members: &mut Map<String, Value>,
    events: &[Event],
    key: u64,
    origin: Origin,
) -> Result<(), AllocError>
    requires { members.old.entries ≡ [] }
    ensures { OnOk result (object (members_view members.new.entries)
        ≡ from_data events.now key origin) }
{
    put(members, alloc, "from", value_or_null(origin.value))?;
    put(members, alloc, "key", Value::from(key))?;
    put(members, alloc, "put", put_value(alloc, events, origin.put)?)
}

/// Returns the call that put a value, by the event of its invocation, with its process; null if it
/// is not known.
fn put_value(alloc: Global, events: &[Event], place: Option<usize>) -> Result<Value, AllocError>
    ensures { IfOk result (λ value. view value ≡ put_data events.now place) }
{
    match place {
        Some(place) => writer_value(alloc, events, place),
        None => Ok(Value::Null),
    }
}
