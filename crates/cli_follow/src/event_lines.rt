// The line of an event that is given by its values.
ghost use Rattle.std.specs.Prelude.{◌≡◌, codes, IfOk, OnOk, string_bytes};
ghost use Rattle.serde_json.specs.Data.{object, no_members, put as with_member};
ghost use Rattle.serde_json.specs.View.{view, members_view};
ghost use Rattle.events.specs.declared.event.Event.TheVariants.{Invoke, Answer};
ghost use Rattle.history_text.specs.Texts.{number_data};
ghost use Rattle.stream_text.specs.Lines.{as_event};
ghost use Rattle.cli_follow.specs.EventLines.{event_line};

use events::{Call, Reply};
use history_text::{call_value, reply_value};
use serde_json::{Map, Value, put};
use std::alloc::{AllocError, Global};
use stream_text::StreamEvent;

/// Returns the line that spells an event.
pub(crate) fn event_line(alloc: Global, event: &StreamEvent) -> Result<String, AllocError>
    ensures { IfOk result (λ line. string_bytes line ≡ event_line (as_event event.now)) }
{
    match event {
        StreamEvent::Invoke { process, call } => call_line(alloc, u32::from(*process), call),
        StreamEvent::Answer { process, reply } => reply_line(alloc, u32::from(*process), reply),
    }
}

/// Returns the line that spells the invocation of a call. The process may have any number.
pub(crate) fn call_line(alloc: Global, process: u32, call: &Call) -> Result<String, AllocError>
    ensures { IfOk result (λ line. string_bytes line ≡ event_line (Invoke process call.now)) }
{
    let value = turn_value(alloc, "invoke", call_value(alloc, call)?, process)?;
    value.to_string(alloc)
}

/// Returns the line that spells the answer of a call. The process may have any number.
pub(crate) fn reply_line(alloc: Global, process: u32, reply: &Reply) -> Result<String, AllocError>
    ensures { IfOk result (λ line. string_bytes line ≡ event_line (Answer process reply.now)) }
{
    let value = turn_value(alloc, "answer", reply_value(alloc, reply)?, process)?;
    value.to_string(alloc)
}

/// Returns an object with what a process did, by this name, and with the number of the process.
fn turn_value(alloc: Global, name: &str, done: Value, process: u32) -> Result<Value, AllocError>
    ensures { IfOk result (λ value. view value
        ≡ object (with_member (codes "process") (number_data process)
        (with_member name.now (view done) no_members))) }
{
    let mut members = Map::new(alloc);
    put_turn(alloc, &mut members, name, done, process)?;
    Ok(Value::Object(members))
}

fn put_turn(
    alloc: Global,
    members: &mut Map<String, Value>,
    name: &str,
    done: Value,
    process: u32,
) -> Result<(), AllocError>
    ensures { OnOk result (members_view members.new.entries
        ≡ with_member (codes "process") (number_data process)
        (with_member name.now (view done) (members_view members.old.entries))) }
{
    put(members, alloc, name, done)?;
    put(members, alloc, "process", Value::from(u64::from(process)))
}
