// From a JSON value to an event.
ghost use Rattle.std.specs.Prelude.{◌≡◌, ◌≤◌, ◌<◌, ◌∷◌, [], List, ℕ, map, IsTrue, IfOk, IfErr, IfSome, IfNone, OnOk};
ghost use Rattle.serde_json.specs.Data.{Data, string};
ghost use Rattle.serde_json.specs.View.{view};
ghost use Rattle.events.specs.declared.event.Call.{Call};
ghost use Rattle.events.specs.declared.event.Reply.{Reply};
ghost use Rattle.events.specs.declared.event.Reply.TheVariants as replies;
ghost use Rattle.events.specs.declared.fault.HistoryFault.TheVariants as faults;
ghost use Rattle.events.specs.Histories.{has_range};
ghost use Rattle.history_text.specs.Texts.{number_data, list_data, pair_data, call_data, reply_data, event_data, IsEventData, may_stand};
ghost use Rattle.history_text.specs.ValueFaults.{invocation_data, response_data, IsTurnData, IsValueFault};
ghost use Rattle.history_text.specs.ValueFaults.{IsPairValueFault};
ghost use Rattle.events.specs.Limits.{process_limit, start_limit};

use crate::parts::{items_of, three_members, two_members};
use crate::version::TextVersion;
use events::{Call, Event, HistoryFault, MAX_START, Memory, Pairs, Reply};
use serde_json::Value;
use std::alloc::Global;

/// Returns the event at a place of a history's text, which is of a version. Otherwise it returns
/// why the event is refused. That is `Shape`, also for what this version may not have; `TooMany`
/// for a process number that is too large for a `u8`; or `Memory`.
pub fn event_of(
    alloc: Global,
    place: usize,
    version: TextVersion,
    value: &Value,
) -> Result<Event, HistoryFault>
    ensures ok { IfOk result (IsEventData version (view value.now)) }
    ensures standing { IfOk result (λ e. IsTrue (may_stand version e)) }
    ensures refused { IfErr result (IsValueFault version place (view value.now)) }
{
    if let Some((call, process)) = turn_of(version, "invoke", value) {
        return invocation_of(place, version, call, process);
    }
    if let Some((reply, process)) = turn_of(version, "answer", value) {
        return response_of(alloc, place, version, reply, process);
    }
    Err(HistoryFault::Shape { event: place })
}

/// Returns the values of what was done and of the process. The object has only these two members,
/// and the first has this name. If the version has notes, it may have a note too.
pub fn turn_of<'a>(
    version: TextVersion,
    name: &str,
    value: &'a Value,
) -> Option<(&'a Value, &'a Value)>
    ensures some { IfSome result (λ found. IsTurnData version name.now (view found.0.now) (view found.1.now) (view value.now)) }
    ensures none { IfNone result ((done process : Data)
        → IsTurnData version name.now done process (view value.now) → ⊥) }
{
    if let Some(found) = two_members(value, name, "process") {
        return Some(found);
    }
    if !version.has_notes() {
        return None;
    }
    let (done, _note, process) = three_members(value, name, "note", "process")?;
    Some((done, process))
}

/// Returns the invocation that the values of its call and its process spell.
fn invocation_of(
    place: usize,
    version: TextVersion,
    call: &Value,
    process: &Value,
) -> Result<Event, HistoryFault>
    ensures ok { IfOk result (λ e. event_data e
        ≡ invocation_data (view call.now) (view process.now)) }
    ensures standing { IfOk result (λ e. IsTrue (may_stand version e)) }
    ensures refused { IfErr result (IsValueFault version place
        (invocation_data (view call.now) (view process.now))) }
{
    let (Some(call), Some(process)) = (call_of(call), process.as_u64()) else {
        return Err(HistoryFault::Shape { event: place });
    };
    if !version.may_have_call(&call) {
        return Err(HistoryFault::Shape { event: place });
    }
    let process = process_number(process)?;
    Ok(Event::Invoke { process, call })
}

/// Returns the response that the values of its reply and its process spell.
fn response_of(
    alloc: Global,
    place: usize,
    version: TextVersion,
    reply: &Value,
    process: &Value,
) -> Result<Event, HistoryFault>
    ensures ok { IfOk result (λ e. event_data e
        ≡ response_data (view reply.now) (view process.now)) }
    ensures standing { IfOk result (λ e. IsTrue (may_stand version e)) }
    ensures refused { IfErr result (IsValueFault version place
        (response_data (view reply.now) (view process.now))) }
{
    let (Some(reply), Some(process)) = (reply_of(alloc, reply)?, process.as_u64()) else {
        return Err(HistoryFault::Shape { event: place });
    };
    if !version.may_have_reply(&reply) {
        return Err(HistoryFault::Shape { event: place });
    }
    let process = process_number(process)?;
    Ok(Event::Answer { process, reply })
}

/// Returns a process number that fits into a `u8`. `PROCESSES` is tested together with the event's
/// turn.
fn process_number(number: u64) -> Result<u8, HistoryFault>
    ensures ok { IfOk result (λ process. process ≡ number) }
    ensures refused { IfErr result (λ fault. (fault ≡ faults.TooMany) × (process_limit ≤ number)) }
{
    u8::try_from(number).map_err(|_| HistoryFault::TooMany)
}

/// Returns the call that a value spells. The ends of a scan have to be in order.
pub fn call_of(value: &Value) -> Option<Call>
    ensures some { IfSome result (λ call. view value.now ≡ call_data call) }
    ensures range { IfSome result (λ call. IsTrue (has_range call)) }
    ensures none { IfNone result ((call : Call)
        → view value.now ≡ call_data call → IsTrue (has_range call) → ⊥) }
{
    match items_of(value)? {
        [name, key] => call_of_two(name, key),
        [name, first, second] => call_of_three(name, first, second),
        [name, key, old, new] => call_of_four(name, key, old, new),
        _ => None,
    }
}

/// Returns the call that an array of two values spells.
fn call_of_two(name: &Value, key: &Value) -> Option<Call>
    ensures some { IfSome result (λ call. call_data call
        ≡ list_data (view name.now ∷ view key.now ∷ [])) }
    ensures range { IfSome result (λ call. IsTrue (has_range call)) }
    ensures none { IfNone result ((call : Call)
        → call_data call ≡ list_data (view name.now ∷ view key.now ∷ []) → ⊥) }
{
    get_or_remove(name.as_str()?, key.as_u64()?)
}

/// Returns the call that an array of three values spells. The ends of a scan have to be in order.
fn call_of_three(name: &Value, first: &Value, second: &Value) -> Option<Call>
    ensures some { IfSome result (λ call. call_data call
        ≡ list_data (view name.now ∷ view first.now ∷ view second.now ∷ [])) }
    ensures range { IfSome result (λ call. IsTrue (has_range call)) }
    ensures none { IfNone result ((call : Call)
        → call_data call ≡ list_data (view name.now ∷ view first.now ∷ view second.now ∷ [])
        → IsTrue (has_range call) → ⊥) }
{
    insert_or_scan(name.as_str()?, first.as_u64()?, second.as_u64()?)
}

/// Returns the call that an array of four values spells.
fn call_of_four(name: &Value, key: &Value, old: &Value, new: &Value) -> Option<Call>
    ensures some { IfSome result (λ call. call_data call
        ≡ list_data (view name.now ∷ view key.now ∷ view old.now ∷ view new.now ∷ [])) }
    ensures range { IfSome result (λ call. IsTrue (has_range call)) }
    ensures none { IfNone result ((call : Call)
        → call_data call
        ≡ list_data (view name.now ∷ view key.now ∷ view old.now ∷ view new.now ∷ [])
        → ⊥) }
{
    replace(name.as_str()?, key.as_u64()?, old.as_u64()?, new.as_u64()?)
}

/// Returns the call of this name with one number.
fn get_or_remove(name: &str, key: u64) -> Option<Call>
    ensures some { IfSome result (λ call. call_data call
        ≡ list_data (string name.now ∷ number_data key ∷ [])) }
    ensures range { IfSome result (λ call. IsTrue (has_range call)) }
    ensures none { IfNone result ((call : Call)
        → call_data call ≡ list_data (string name.now ∷ number_data key ∷ []) → ⊥) }
{
    match name {
        "get" => Some(Call::Get(key)),
        "remove" => Some(Call::Remove(key)),
        _ => None,
    }
}

/// Returns the call of this name with two numbers. The ends of a scan have to be in order.
fn insert_or_scan(name: &str, first: u64, second: u64) -> Option<Call>
    ensures some { IfSome result (λ call. call_data call
        ≡ list_data (string name.now ∷ number_data first ∷ number_data second ∷ [])) }
    ensures range { IfSome result (λ call. IsTrue (has_range call)) }
    ensures none { IfNone result ((call : Call)
        → call_data call
        ≡ list_data (string name.now ∷ number_data first ∷ number_data second ∷ [])
        → IsTrue (has_range call) → ⊥) }
{
    match name {
        "insert" => Some(Call::Insert(first, second)),
        "scan" if first <= second => Some(Call::Scan(first, second)),
        _ => None,
    }
}

/// Returns the call of this name with three numbers.
fn replace(name: &str, key: u64, old: u64, new: u64) -> Option<Call>
    ensures some { IfSome result (λ call. call_data call
        ≡ list_data (string name.now ∷ number_data key ∷ number_data old ∷ number_data new ∷ [])) }
    ensures range { IfSome result (λ call. IsTrue (has_range call)) }
    ensures none { IfNone result ((call : Call)
        → call_data call
        ≡ list_data (string name.now ∷ number_data key ∷ number_data old ∷ number_data new ∷ [])
        → ⊥) }
{
    match name {
        "replace" => Some(Call::Replace(key, old, new)),
        _ => None,
    }
}

/// Returns the reply that a value spells.
pub fn reply_of(alloc: Global, value: &Value) -> Result<Option<Reply>, Memory>
    ensures some { IfOk result (λ found. IfSome found (λ reply. view value.now ≡ reply_data reply)) }
    ensures none { IfOk result (λ found. IfNone found ((reply : Reply)
        → view value.now ≡ reply_data reply → ⊥)) }
{
    match value {
        Value::Null => Ok(Some(Reply::None)),
        Value::Number(number) => Ok(number.as_u64().map(Reply::Some)),
        Value::String(name) => Ok(named_reply(name.as_str())),
        Value::Array(items) => Ok(pairs_of(alloc, items)?.map(pairs_reply)),
        _ => Ok(None),
    }
}

/// Returns the reply of this name.
fn named_reply(name: &str) -> Option<Reply>
    ensures some { IfSome result (λ reply. reply_data reply ≡ string name.now) }
    ensures none { IfNone result ((reply : Reply) → reply_data reply ≡ string name.now → ⊥) }
{
    match name {
        "refused" => Some(Reply::Refused),
        "done" => Some(Reply::Done),
        "found" => Some(Reply::Found),
        "other" => Some(Reply::Other),
        _ => None,
    }
}

/// Returns the reply that lists the pairs.
fn pairs_reply(pairs: Vec<(u64, u64)>) -> Reply
    ensures { result ≡ replies.Pairs pairs.items }
{
    Reply::Pairs(Pairs::new(pairs))
}

/// Returns the pairs that the items of an array spell.
pub fn pairs_of(alloc: Global, items: &[Value]) -> Result<Option<Vec<(u64, u64)>>, Memory>
    ensures some { IfOk result (λ found. IfSome found
        (λ pairs. map view items.now ≡ map pair_data pairs.items)) }
    ensures none { IfOk result (λ found. IfNone found ((pairs : List (ℕ × ℕ))
        → map view items.now ≡ map pair_data pairs → ⊥)) }
{
    let mut pairs = Vec::new(alloc);
    for item in items {
        let Some(pair) = pair_of(item) else {
            return Ok(None);
        };
        pairs.push(pair)?;
    }
    Ok(Some(pairs))
}

/// Returns the pair at a place of a text's start. Otherwise it returns why the pair is refused:
/// `TooMany` from place `MAX_START` on, whatever the value is, or `Start`.
pub fn starting_pair(place: usize, value: &Value) -> Result<(u64, u64), HistoryFault>
    ensures ok { IfOk result (λ pair. view value.now ≡ pair_data pair) }
    ensures room { OnOk result (place < start_limit) }
    ensures refused { IfErr result (IsPairValueFault place (view value.now)) }
{
    if place >= MAX_START {
        return Err(HistoryFault::TooMany);
    }
    pair_of(value).ok_or(HistoryFault::Start { pair: place })
}

/// Returns the pair of numbers that a value spells.
pub fn pair_of(value: &Value) -> Option<(u64, u64)>
    ensures some { IfSome result (λ pair. view value.now ≡ pair_data pair) }
    ensures none { IfNone result ((pair : ℕ × ℕ) → view value.now ≡ pair_data pair → ⊥) }
{
    match items_of(value)? {
        [key, value] => Some((key.as_u64()?, value.as_u64()?)),
        _ => None,
    }
}
