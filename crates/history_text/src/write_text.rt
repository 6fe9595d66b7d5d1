// From a history to its text.
ghost use Rattle.std.specs.Prelude.{◌≡◌, ◌≤◌, [], ◌∷◌, map, codes, IfOk, OnOk, string_bytes, string_len};
ghost use Rattle.serde_json.specs.Data.{string, object, no_members, put as with_member};
ghost use Rattle.serde_json.specs.View.{view, members_view};
ghost use Rattle.serde_json.specs.Written.{compact_text};
ghost use Rattle.std.specs.List.{list_all};
ghost use Rattle.events.specs.PlainHistories.{is_plain_event, is_plain};
ghost use Rattle.events.specs.Told.{is_told_event, are_complete};
ghost use Rattle.history_text.specs.Texts.{number_data, list_data, pair_data, call_data, reply_data, event_data, least_version, history_data, Spells};
ghost use Rattle.history_text.specs.ValueFaults.{invocation_data, response_data};
ghost use Rattle.history_text.specs.Limits.{text_limit};

use crate::version::TextVersion;
use events::{Call, Event, History, Memory, Reply};
use serde_json::{Map, Value, push, put};
use std::alloc::{AllocError, Global};

/// Writes the text of a history in the compact form: no spaces, members by rising bytes, numbers in
/// plain decimal. The version is 1 if the history has neither starting pairs nor a replace, and
/// complete answers only. Otherwise it is 2 if all answers are complete, and else 3. A text of more
/// than `MAX_TEXT` bytes is written too, although the reader refuses it.
pub fn write_history(alloc: Global, history: &History) -> Result<String, Memory>
    ensures compact { IfOk result
        (λ text. string_bytes text ≡ compact_text (history_data history.now)) }
    ensures again { IfOk result
        (λ text. string_len text ≤ text_limit → Spells (string_bytes text) history.now) }
{
    let value = history_value(alloc, history)?;
    Ok(value.to_string(alloc)?)
}

/// Returns the JSON value of a history.
fn history_value(alloc: Global, history: &History) -> Result<Value, AllocError>
    ensures { IfOk result (λ value. view value ≡ history_data history.now) }
{
    let mut members = Map::new(alloc);
    put_history(alloc, &mut members, history)?;
    Ok(Value::Object(members))
}

/// Writes the members of a history into an object without members.
fn put_history(
    alloc: Global,
    members: &mut Map<String, Value>,
    history: &History,
) -> Result<(), AllocError>
    requires { members.old.entries ≡ [] }
    ensures { OnOk result (object (members_view members.new.entries) ≡ history_data history.now) }
{
    put(
        members,
        alloc,
        "events",
        events_value(alloc, history.events())?,
    )?;
    let version = least_version(history);
    if !version.has_start() {
        return put(members, alloc, "version", Value::from(version.number()));
    }
    put(
        members,
        alloc,
        "start",
        pairs_value(alloc, history.start())?,
    )?;
    put(members, alloc, "version", Value::from(version.number()))
}

/// Returns the lowest version that can represent a history.
fn least_version(history: &History) -> TextVersion
    ensures { result ≡ least_version history.now }
{
    if is_plain(history) {
        TextVersion::One
    } else if are_complete(history.events()) {
        TextVersion::Two
    } else {
        TextVersion::Three
    }
}

/// Returns whether a history has neither starting pairs nor a replace, and complete answers only.
fn is_plain(history: &History) -> bool
    ensures { result ≡ is_plain history.now }
{
    history.start().is_empty() && are_plain_events(history.events())
}

fn are_plain_events(events: &[Event]) -> bool
    ensures { result ≡ list_all is_plain_event events.now }
{
    for event in events {
        if !is_plain_event(event) {
            return false;
        }
    }
    true
}

fn is_plain_event(event: &Event) -> bool
    ensures { result ≡ is_plain_event event.now }
{
    match event {
        Event::Invoke { call, .. } => !matches!(call, Call::Replace(..)),
        Event::Answer { reply, .. } => reply.is_complete(),
    }
}

/// Returns whether each answer of the events is complete.
fn are_complete(events: &[Event]) -> bool
    ensures { result ≡ are_complete events.now }
{
    for event in events {
        if !is_told_event(event) {
            return false;
        }
    }
    true
}

fn is_told_event(event: &Event) -> bool
    ensures { result ≡ is_told_event event.now }
{
    match event {
        Event::Invoke { .. } => true,
        Event::Answer { reply, .. } => reply.is_complete(),
    }
}

fn events_value(alloc: Global, events: &[Event]) -> Result<Value, AllocError>
    ensures { IfOk result (λ value. view value ≡ list_data (map event_data events.now)) }
{
    let mut items = Vec::new(alloc);
    for event in events {
        items.push(event_value(alloc, event)?)?;
    }
    Ok(Value::from(items))
}

fn event_value(alloc: Global, event: &Event) -> Result<Value, AllocError>
    ensures { IfOk result (λ value. view value ≡ event_data event.now) }
{
    match event {
        Event::Invoke { process, call } => invocation_value(alloc, *process, call),
        Event::Answer { process, reply } => response_value(alloc, *process, reply),
    }
}

fn invocation_value(alloc: Global, process: u8, call: &Call) -> Result<Value, AllocError>
    ensures { IfOk result (λ value. view value
        ≡ invocation_data (call_data call.now) (number_data process)) }
{
    let call = call_value(alloc, call)?;
    turn_value(alloc, "invoke", call, process)
}

fn response_value(alloc: Global, process: u8, reply: &Reply) -> Result<Value, AllocError>
    ensures { IfOk result (λ value. view value
        ≡ response_data (reply_data reply.now) (number_data process)) }
{
    let reply = reply_value(alloc, reply)?;
    turn_value(alloc, "answer", reply, process)
}

/// Returns the value of what a process did, under a name, with the number of the process.
fn turn_value(alloc: Global, name: &str, done: Value, process: u8) -> Result<Value, AllocError>
    ensures { IfOk result (λ value. view value
        ≡ object (with_member (codes "process") (number_data process) (with_member name.now (view done) no_members))) }
{
    let mut members = Map::new(alloc);
    put_turn(alloc, &mut members, name, done, process)?;
    Ok(Value::Object(members))
}

fn put_turn(
    alloc: Global,
    members: &mut Map<String, Value>,
    name: &str,
    done: Value,
    process: u8,
) -> Result<(), AllocError>
    ensures { OnOk result (members_view members.new.entries
        ≡ with_member (codes "process") (number_data process) (with_member name.now (view done) (members_view members.old.entries))) }
{
    put(members, alloc, name, done)?;
    put(members, alloc, "process", Value::from(process))
}

/// Returns the JSON value of a call: an array of its name and its numbers.
pub fn call_value(alloc: Global, call: &Call) -> Result<Value, AllocError>
    ensures { IfOk result (λ value. view value ≡ call_data call.now) }
{
    match call {
        Call::Get(key) => named_numbers(alloc, "get", &[*key]),
        Call::Insert(key, value) => named_numbers(alloc, "insert", &[*key, *value]),
        Call::Remove(key) => named_numbers(alloc, "remove", &[*key]),
        Call::Scan(low, high) => named_numbers(alloc, "scan", &[*low, *high]),
        Call::Replace(key, old, new) => named_numbers(alloc, "replace", &[*key, *old, *new]),
    }
}

/// Returns an array of a name and the numbers that follow it.
fn named_numbers(alloc: Global, name: &str, numbers: &[u64]) -> Result<Value, AllocError>
    ensures { IfOk result (λ value. view value
        ≡ list_data (string name.now ∷ map number_data numbers.now)) }
{
    let mut items = Vec::new(alloc);
    items.push(Value::try_from_str(alloc, name)?)?;
    for number in numbers {
        items.push(Value::from(*number))?;
    }
    Ok(Value::from(items))
}

/// Returns the JSON value of a reply.
pub fn reply_value(alloc: Global, reply: &Reply) -> Result<Value, AllocError>
    ensures { IfOk result (λ value. view value ≡ reply_data reply.now) }
{
    match reply {
        Reply::None => Ok(Value::Null),
        Reply::Some(value) => Ok(Value::from(*value)),
        Reply::Pairs(pairs) => pairs_value(alloc, pairs.as_slice()),
        Reply::Refused => Value::try_from_str(alloc, "refused"),
        Reply::Done => Value::try_from_str(alloc, "done"),
        Reply::Found => Value::try_from_str(alloc, "found"),
        Reply::Other => Value::try_from_str(alloc, "other"),
    }
}

/// Returns the JSON value of pairs: an array of arrays of a key and a value.
pub fn pairs_value(alloc: Global, pairs: &[(u64, u64)]) -> Result<Value, AllocError>
    ensures { IfOk result (λ value. view value ≡ list_data (map pair_data pairs.now)) }
{
    let mut items = Vec::new(alloc);
    for pair in pairs {
        items.push(pair_value(alloc, *pair)?)?;
    }
    Ok(Value::from(items))
}

fn pair_value(alloc: Global, pair: (u64, u64)) -> Result<Value, AllocError>
    ensures { IfOk result (λ value. view value ≡ pair_data pair) }
{
    let mut items = Vec::new(alloc);
    push_pair(&mut items, pair)?;
    Ok(Value::from(items))
}

fn push_pair(items: &mut Vec<Value>, pair: (u64, u64)) -> Result<(), AllocError>
    requires { items.old.items ≡ [] }
    ensures { OnOk result (map view items.new.items ≡ number_data pair.0 ∷ number_data pair.1 ∷ []) }
{
    push(items, Value::from(pair.0))?;
    push(items, Value::from(pair.1))
}
