// From the bytes of a line to what it spells.
ghost use Rattle.std.specs.Prelude.{◌≡◌, ◌≤◌, map, IfOk, IfErr};
ghost use Rattle.serde_json.specs.View.{view};
ghost use Rattle.events.specs.declared.event.Event.{Event};
ghost use Rattle.events.specs.Starts.{KeysRise};
ghost use Rattle.history_text.specs.Texts.{pair_data, event_data, IsEventData};
ghost use Rattle.history_text.specs.ValueFaults.{invocation_data, response_data};
ghost use Rattle.stream_text.specs.declared.line_fault.LineFault.TheVariants as faults;
ghost use Rattle.stream_text.specs.declared.event.FirstLine.{FirstLine};
ghost use Rattle.stream_text.specs.LineLimits.{number_limit};
ghost use Rattle.stream_text.specs.Lines.{as_event, start_object, IsLine};
ghost use Rattle.stream_text.specs.Lines.{MayStandIn, IsFirstOf, SpellsEvent, SpellsFirst};
ghost use Rattle.stream_text.specs.LineFaults.{IsByteFault, IsEventFault, IsStartFault, IsPairFault, IsFirstFault, IsEventLineFault, IsFirstLineFault};

use crate::MAX_LINE;
use crate::compact::compact_event;
use crate::event::{FirstLine, StreamEvent};
use crate::line_fault::LineFault;
use events::{Pairs, is_above};
use history_text::{
    JsonFault, TextVersion, call_of, items_of, json_of, pair_of, reply_of, turn_of, two_members,
    version_with_start,
};
use serde_json::Value;
use std::alloc::Global;

/// Reads the event that a line spells, in a stream of a version. Otherwise returns the line's first
/// fault, or `Memory`. The line's length is tested first, and then whether it is JSON. Its shape is
/// tested next, with whether the version may have it, and last its process number. A line without
/// bytes is not JSON.
pub fn read_event_line(
    alloc: Global,
    version: TextVersion,
    line: &[u8],
) -> Result<StreamEvent, LineFault>
    ensures spelled { IfOk result (λ e. SpellsEvent version line.now (as_event e)) }
    ensures refused { IfErr result (IsEventLineFault version line.now) }
    ensures accepted { (e : Event) → SpellsEvent version line.now e
        → IfErr result (λ fault. fault ≡ faults.Memory) }
{
    if let Some(event) = compact_event(alloc, version, line) {
        return Ok(event);
    }
    event_by_value(alloc, version, line)
}

/// Reads a line in any form, by its tree of values. It is a function of its own, so a line in the
/// compact form does not pay for the tree.
#[inline(never)]
fn event_by_value(
    alloc: Global,
    version: TextVersion,
    line: &[u8],
) -> Result<StreamEvent, LineFault>
    ensures spelled { IfOk result (λ e. SpellsEvent version line.now (as_event e)) }
    ensures refused { IfErr result (IsEventLineFault version line.now) }
    ensures accepted { (e : Event) → SpellsEvent version line.now e
        → IfErr result (λ fault. fault ≡ faults.Memory) }
{
    let value = value_of(alloc, line)?;
    event_of(alloc, version, &value)
}

/// Reads what the first line of a stream spells. If it has only the members `start` and `version`,
/// it spells starting pairs. Otherwise it spells an event of a stream without starting pairs.
/// Returns its first fault if it spells neither. With starting pairs that is `Version`, and then
/// `Start` with the first faulty pair.
pub fn read_first_line(alloc: Global, line: &[u8]) -> Result<FirstLine, LineFault>
    ensures spelled { IfOk result (SpellsFirst line.now) }
    ensures refused { IfErr result (IsFirstLineFault line.now) }
    ensures accepted { (first : FirstLine) → SpellsFirst line.now first
        → IfErr result (λ fault. fault ≡ faults.Memory) }
{
    let value = value_of(alloc, line)?;
    first_of(alloc, &value)
}

/// Returns what the value of a first line spells.
fn first_of(alloc: Global, value: &Value) -> Result<FirstLine, LineFault>
    ensures ok { IfOk result (IsFirstOf (view value.now)) }
    ensures refused { IfErr result (IsFirstFault (view value.now)) }
{
    if let Some((start, number)) = two_members(value, "start", "version") {
        return start_of(alloc, start, number);
    }
    Ok(FirstLine::Event(event_of(alloc, TextVersion::One, value)?))
}

/// Returns the JSON value of a line that is not too long.
fn value_of(alloc: Global, line: &[u8]) -> Result<Value, LineFault>
    ensures ok { IfOk result (λ value. IsLine line.now (view value)) }
    ensures refused { IfErr result (IsByteFault line.now) }
{
    if line.len() > MAX_LINE {
        return Err(LineFault::TooLong);
    }
    match json_of(alloc, line) {
        Ok(value) => Ok(value),
        Err(JsonFault::TooLong) => Err(LineFault::TooLong),
        Err(JsonFault::NotJson) => Err(LineFault::NotJson),
        Err(JsonFault::Memory) => Err(LineFault::Memory),
    }
}

/// Returns the event that a value spells.
fn event_of(alloc: Global, version: TextVersion, value: &Value) -> Result<StreamEvent, LineFault>
    ensures ok { IfOk result (λ e. IsEventData version (view value.now) (as_event e)) }
    ensures stands { IfOk result (λ e. MayStandIn version (as_event e)) }
    ensures refused { IfErr result (IsEventFault version (view value.now)) }
{
    if let Some((call, process)) = turn_of(version, "invoke", value) {
        return invocation_of(version, call, process);
    }
    if let Some((reply, process)) = turn_of(version, "answer", value) {
        return response_of(alloc, version, reply, process);
    }
    Err(LineFault::Shape)
}

/// Returns the invocation that the values of a call and a process spell.
fn invocation_of(
    version: TextVersion,
    call: &Value,
    process: &Value,
) -> Result<StreamEvent, LineFault>
    ensures ok { IfOk result (λ e. event_data (as_event e) ≡ invocation_data (view call.now)
        (view process.now)) }
    ensures stands { IfOk result (λ e. MayStandIn version (as_event e)) }
    ensures refused { IfErr result (IsEventFault version
        (invocation_data (view call.now) (view process.now))) }
{
    let (Some(call), Some(process)) = (call_of(call), process.as_u64()) else {
        return Err(LineFault::Shape);
    };
    if !version.may_have_call(&call) {
        return Err(LineFault::Shape);
    }
    let process = process_number(process)?;
    Ok(StreamEvent::Invoke { process, call })
}

/// Returns the response that the values of a reply and a process spell.
fn response_of(
    alloc: Global,
    version: TextVersion,
    reply: &Value,
    process: &Value,
) -> Result<StreamEvent, LineFault>
    ensures ok { IfOk result (λ e. event_data (as_event e) ≡ response_data (view reply.now)
        (view process.now)) }
    ensures stands { IfOk result (λ e. MayStandIn version (as_event e)) }
    ensures refused { IfErr result (IsEventFault version
        (response_data (view reply.now) (view process.now))) }
{
    let (Some(reply), Some(process)) = (reply_of(alloc, reply)?, process.as_u64()) else {
        return Err(LineFault::Shape);
    };
    if !version.may_have_reply(&reply) {
        return Err(LineFault::Shape);
    }
    let process = process_number(process)?;
    Ok(StreamEvent::Answer { process, reply })
}

/// Returns a number as that of a process, if it is small enough.
fn process_number(number: u64) -> Result<u16, LineFault>
    ensures ok { IfOk result (λ process. process ≡ number) }
    ensures refused { IfErr result (λ fault. (fault ≡ faults.TooMany) × (number_limit ≤ number)) }
{
    u16::try_from(number).map_err(|_| LineFault::TooMany)
}

/// Returns the starting pairs and the version that the values of a first line spell.
fn start_of(alloc: Global, start: &Value, number: &Value) -> Result<FirstLine, LineFault>
    ensures ok { IfOk result (IsFirstOf (start_object (view start.now) (view number.now))) }
    ensures refused { IfErr result (IsStartFault (view start.now) (view number.now)) }
{
    let (Some(items), Some(version)) = (items_of(start), version_with_start(number)) else {
        return Err(LineFault::Version);
    };
    let pairs = Pairs::new(pairs_rising(alloc, items)?);
    Ok(FirstLine::Start { version, pairs })
}

/// Returns the pairs that values spell, by rising key. The fault has the first place where they do
/// not.
fn pairs_rising(alloc: Global, items: &[Value]) -> Result<Vec<(u64, u64)>, LineFault>
    ensures spelled { IfOk result (λ pairs. map view items.now ≡ map pair_data pairs.items) }
    ensures rising { IfOk result (λ pairs. KeysRise pairs.items) }
    ensures refused { IfErr result (IsPairFault (map view items.now)) }
{
    let mut pairs: Vec<(u64, u64)> = Vec::new(alloc);
    for (place, item) in items.iter().enumerate() {
        match pair_of(item) {
            Some(pair) if is_above(&pairs, pair.0) => pairs.push(pair)?,
            _ => return Err(LineFault::Start { pair: place }),
        }
    }
    Ok(pairs)
}
