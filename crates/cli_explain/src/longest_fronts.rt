// How far an order of a few calls gets, and which calls would come next.
ghost use Rattle.std.specs.Prelude.{◌≡◌, [], map, IfOk, OnOk, string_bytes, slice_get};
ghost use Rattle.serde_json.specs.Data.{object};
ghost use Rattle.serde_json.specs.View.{view, members_view};
ghost use Rattle.serde_json.specs.Written.{compact_text};
ghost use Rattle.history_text.specs.Texts.{list_data};
ghost use Rattle.map_object.specs.MapObject.{IsRising, reply_to};
ghost use Rattle.orders.specs.Orders.{calls_at, after_calls};
ghost use Rattle.cli_outcome.specs.Lines.{line};
ghost use Rattle.cli_explain.specs.Fronts.{front_data, taken_data, event_data, answers_data, stuck_data};
ghost use Rattle.cli_explain.specs.Fronts.{is_taken, is_preceded, left_by, unpreceded, next_of};

use crate::reports::answer_value;
use cli_outcome::line_of;
use events::{Call, Memory, Operation, Reply};
use explain_shrink::precedes;
use history_text::{pairs_value, reply_value};
use map_object::SortedMap;
use orders::apply;
use serde_json::{Map, Value, put};
use std::alloc::{AllocError, Global};

/// Returns the line of a front of a few calls from some pairs: the calls, the pairs that they
/// leave, and the calls that would come next.
pub(crate) fn front_line(
    alloc: Global,
    start: &[(u64, u64)],
    calls: &[Operation],
    front: &[u32],
) -> Result<String, Memory>
    requires { IsRising start.now }
    ensures { IfOk result (λ text. string_bytes text ≡ line
        (compact_text (front_data start.now calls.now front.now))) }
{
    let value = front_value(alloc, start, calls, front)?;
    Ok(line_of(value.to_string(alloc)?)?)
}

fn front_value(
    alloc: Global,
    start: &[(u64, u64)],
    calls: &[Operation],
    front: &[u32],
) -> Result<Value, Memory>
    requires { IsRising start.now }
    ensures { IfOk result (λ value. view value ≡ front_data start.now calls.now front.now) }
{
    let taken = calls_at(alloc, calls, front)?;
    let held = map_after(alloc, start, &taken)?;
    let next = next_of(alloc, calls, &taken)?;
    taken_value(alloc, &taken, &held, &next)
}

/// Returns the calls with these numbers.
fn calls_at(alloc: Global, calls: &[Operation], front: &[u32]) -> Result<Vec<Operation>, Memory>
    ensures { IfOk result (λ taken. taken.items ≡ calls_at calls.now front.now) }
{
    let mut taken = Vec::new(alloc);
    for number in front {
        if let Some(call) = call_at(alloc, calls, *number as usize)? {
            taken.push(call)?;
        }
    }
    Ok(taken)
}

/// Returns the call with this number, if there is one: a copy.
fn call_at(alloc: Global, calls: &[Operation], number: usize) -> Result<Option<Operation>, Memory>
    ensures { IfOk result (λ found. found ≡ slice_get calls.now number) }
{
    match calls.get(number) {
        Some(call) => Ok(Some(call.copy(alloc)?)),
        None => Ok(None),
    }
}

/// Returns the map that calls leave.
fn map_after(alloc: Global, start: &[(u64, u64)], taken: &[Operation]) -> Result<SortedMap, Memory>
    requires { IsRising start.now }
    ensures { IfOk result (λ map. map ≡ after_calls start.now taken.now) }
{
    let mut map = SortedMap::of(alloc, start)?;
    for call in taken {
        apply(alloc, &mut map, call)?;
    }
    Ok(map)
}

/// Returns the calls that are not taken, and that none of these precedes.
fn next_of(
    alloc: Global,
    calls: &[Operation],
    taken: &[Operation],
) -> Result<Vec<Operation>, Memory>
    ensures { IfOk result (λ next. next.items ≡ next_of taken.now calls.now) }
{
    let rest = left_by(alloc, calls, taken)?;
    minimal_calls(alloc, &rest)
}

/// Returns the calls that none of them precedes.
fn minimal_calls(alloc: Global, rest: &[Operation]) -> Result<Vec<Operation>, Memory>
    ensures { IfOk result (λ next. next.items ≡ unpreceded rest.now rest.now) }
{
    let mut next = Vec::new(alloc);
    for call in rest {
        if !is_preceded(rest, call) {
            next.push(call.copy(alloc)?)?;
        }
    }
    Ok(next)
}

/// Returns the calls that are not taken.
fn left_by(
    alloc: Global,
    calls: &[Operation],
    taken: &[Operation],
) -> Result<Vec<Operation>, Memory>
    ensures { IfOk result (λ rest. rest.items ≡ left_by taken.now calls.now) }
{
    let mut rest = Vec::new(alloc);
    for call in calls {
        if !is_taken(taken, call) {
            rest.push(call.copy(alloc)?)?;
        }
    }
    Ok(rest)
}

/// Returns whether a call is one of those taken.
fn is_taken(taken: &[Operation], call: &Operation) -> bool
    ensures { result ≡ is_taken taken.now call.now }
{
    for other in taken {
        if other.inv == call.inv {
            return true;
        }
    }
    false
}

/// Returns whether one of some calls precedes a call.
fn is_preceded(rest: &[Operation], call: &Operation) -> bool
    ensures { result ≡ is_preceded rest.now call.now }
{
    for other in rest {
        if precedes(other, call) {
            return true;
        }
    }
    false
}

fn taken_value(
    alloc: Global,
    taken: &[Operation],
    held: &SortedMap,
    next: &[Operation],
) -> Result<Value, Memory>
    ensures { IfOk result (λ value. view value ≡ taken_data taken.now held.now next.now) }
{
    let mut members = Map::new(alloc);
    put_taken(alloc, &mut members, taken, held, next)?;
    Ok(Value::Object(members))
}

/// Adds the calls taken, the pairs that the map then holds, and the calls that would come next, to
/// an object without members.
fn put_taken(
    alloc: Global,
    members: &mut Map<String, Value>,
    taken: &[Operation],
    held: &SortedMap,
    next: &[Operation],
) -> Result<(), Memory>
    requires { members.old.entries ≡ [] }
    ensures { OnOk result (object (members_view members.new.entries) ≡ taken_data taken.now
        held.now next.now) }
{
    put(members, alloc, "front", events_value(alloc, taken)?)?;
    put(members, alloc, "holds", pairs_value(alloc, held.pairs())?)?;
    put(members, alloc, "next", all_stuck(alloc, held, next)?)?;
    Ok(())
}

/// Returns the events of calls.
fn events_value(alloc: Global, calls: &[Operation]) -> Result<Value, AllocError>
    ensures { IfOk result (λ value. view value ≡ list_data (map event_data calls.now)) }
{
    let mut items = Vec::with_capacity(alloc, calls.len())?;
    for call in calls {
        items.push(Value::from(call.inv))?;
    }
    Ok(Value::from(items))
}

/// Returns the answers that calls which would come next had, and would have.
fn all_stuck(alloc: Global, held: &SortedMap, next: &[Operation]) -> Result<Value, Memory>
    ensures { IfOk result (λ value. view value ≡ list_data (map (stuck_data held.now) next.now)) }
{
    let mut items = Vec::with_capacity(alloc, next.len())?;
    for call in next {
        items.push(stuck_value(alloc, held, call)?)?;
    }
    Ok(Value::from(items))
}

fn stuck_value(alloc: Global, held: &SortedMap, call: &Operation) -> Result<Value, Memory>
    ensures { IfOk result (λ value. view value ≡ stuck_data held.now call.now) }
{
    let would = reply_to(alloc, held, &call.call)?;
    Ok(answers_value(alloc, call, &would)?)
}

/// Returns what a map answers to a call.
fn reply_to(alloc: Global, held: &SortedMap, call: &Call) -> Result<Reply, Memory>
    ensures { IfOk result (λ reply. reply ≡ reply_to held.now call.now) }
{
    let mut here = held.copy(alloc)?;
    here.step(alloc, call)
}

fn answers_value(alloc: Global, call: &Operation, would: &Reply) -> Result<Value, AllocError>
    ensures { IfOk result (λ value. view value ≡ answers_data call.now would.now) }
{
    let mut members = Map::new(alloc);
    put_answers(alloc, &mut members, call, would)?;
    Ok(Value::Object(members))
}

/// Adds the event of a call, the answer that it had, and the answer that it would have, to an
/// object without members.
fn put_answers(
    alloc: Global,
    members: &mut Map<String, Value>,
    call: &Operation,
    would: &Reply,
) -> Result<(), AllocError>
    requires { members.old.entries ≡ [] }
    ensures { OnOk result (object (members_view members.new.entries) ≡ answers_data call.now
        would.now) }
{
    put(
        members,
        alloc,
        "answer",
        answer_value(alloc, &call.response)?,
    )?;
    put(members, alloc, "event", Value::from(call.inv))?;
    put(members, alloc, "would", reply_value(alloc, would)?)
}
