// The calls that a call of an explanation misses.
ghost use Rattle.std.specs.Prelude.{◌≡◌, [], map, IfOk, OnOk};
ghost use Rattle.serde_json.specs.Data.{object};
ghost use Rattle.serde_json.specs.View.{view, members_view};
ghost use Rattle.history_text.specs.Texts.{list_data};
ghost use Rattle.cli_explain.specs.Reports.{missed_data, with_missed};

use crate::processes::process_at;
use events::Event;
use explain_reads_from::Missed;
use history_text::call_value;
use serde_json::{Map, Value, put};
use std::alloc::{AllocError, Global};

/// Puts some calls that another misses, if there are any.
pub(crate) fn put_missed(
    alloc: Global,
    members: &mut Map<String, Value>,
    events: &[Event],
    missed: &[Missed],
) -> Result<(), AllocError>
    ensures { OnOk result (members_view members.new.entries
        ≡ with_missed events.now missed.now (members_view members.old.entries)) }
{
    if missed.is_empty() {
        return Ok(());
    }
    put(members, alloc, "misses", all_missed(alloc, events, missed)?)
}

/// Returns the calls that another call misses.
fn all_missed(alloc: Global, events: &[Event], missed: &[Missed]) -> Result<Value, AllocError>
    ensures { IfOk result (λ value. view value ≡ list_data
        (map (missed_data events.now) missed.now)) }
{
    let mut items = Vec::with_capacity(alloc, missed.len())?;
    for call in missed {
        items.push(missed_value(alloc, events, call)?)?;
    }
    Ok(Value::from(items))
}

fn missed_value(alloc: Global, events: &[Event], missed: &Missed) -> Result<Value, AllocError>
    ensures { IfOk result (λ value. view value ≡ missed_data events.now missed.now) }
{
    let mut members = Map::new(alloc);
    put_missed_call(alloc, &mut members, events, missed)?;
    Ok(Value::Object(members))
}

/// Adds what was called, the event of its invocation and its process to an object without members.
fn put_missed_call(
    alloc: Global,
    members: &mut Map<String, Value>,
    events: &[Event],
    missed: &Missed,
) -> Result<(), AllocError>
    requires { members.old.entries ≡ [] }
    ensures { OnOk result (object (members_view members.new.entries) ≡ missed_data events.now
        missed.now) }
{
    put(members, alloc, "call", call_value(alloc, &missed.call)?)?;
    put(members, alloc, "event", Value::from(missed.event))?;
    put(
        members,
        alloc,
        "process",
        Value::from(process_at(events, missed.event)),
    )
}
