// The lines that answer a stream.
ghost use Rattle.std.specs.Prelude.{◌≡◌, [], map, All, IfOk, OnOk, MatchOption, codes, string_bytes};
ghost use Rattle.history_text.specs.Texts.{number_data};
ghost use Rattle.follow_violations.specs.OwnParts.{key_core};
ghost use Rattle.cli_outcome.specs.Lines.{line};
ghost use Rattle.follow_pasts.specs.Pasts.{IsDead};
ghost use Rattle.follow_parts.specs.Keeping.{pasts_of};
ghost use Rattle.serde_json.specs.Data.{object, put as with_member};
ghost use Rattle.serde_json.specs.View.{view, members_view};
ghost use Rattle.serde_json.specs.Written.{compact_text};
ghost use Rattle.explain_histories.specs.Values.{value_data};
ghost use Rattle.cli_follow.specs.Answers.{IsLostText, IsSmallLine};
ghost use Rattle.cli_follow.specs.Leaves.{IsLostOutcome, IsSpentOutcome, IsYesOutcome};
ghost use Rattle.cli_follow.specs.Reports.{yes_line, numbers_data, values_data, puts_data, key_data, keys_data};
ghost use Rattle.cli_follow.specs.Reports.{lost_data, spent_data};

use crate::small_lines::small_line;
use cli_outcome::{Answer, CommandOutcome, average_text, hinted_yes, line_of};
use events::Memory;
use explain_histories::value_or_null;
use follow_violations::{KeyViolation, Origin, Violation, key_core, key_losses};
use serde_json::{Map, Value, put};
use std::alloc::{AllocError, Global};

/// Returns the answer to a stream whose events have an order, with its hint if it has one.
pub fn yes_outcome(alloc: Global, calls: usize, overlap: u64) -> CommandOutcome
    ensures { IsYesOutcome calls overlap result }
{
    hinted_yes(alloc, yes_line(alloc, calls, overlap), calls, overlap)
}

/// Returns the answer if it is not known whether the events go wrong. Its line names the keys of
/// the part that may have no order.
pub fn spent_outcome(alloc: Global, loss: &Violation) -> CommandOutcome
    ensures { IsSpentOutcome loss.now result }
{
    let Ok(losses) = key_losses(alloc, loss) else {
        return CommandOutcome::Memory;
    };
    CommandOutcome::from_answer(
        Answer::Undecided,
        spent_line(alloc, loss.event, loss.number, &losses),
    )
}

/// Returns the answer if the events go wrong. Its first line names the keys of the part without an
/// order. If the part has one past, a second line contains a history of its calls.
pub fn lost_outcome(alloc: Global, loss: &Violation) -> CommandOutcome
    ensures { All IsDead (pasts_of loss.now.part) → IsLostOutcome loss.now result }
{
    match lost_lines(alloc, loss) {
        Ok(lines) => CommandOutcome::Answered {
            answer: Answer::No,
            line: lines,
        },
        Err(_) => CommandOutcome::Memory,
    }
}

fn lost_lines(alloc: Global, loss: &Violation) -> Result<String, Memory>
    ensures { All IsDead (pasts_of loss.now.part)
        → IfOk result (λ text. IsLostText loss.now (string_bytes text)) }
{
    let losses = key_losses(alloc, loss)?;
    let mut lines = lost_line(alloc, loss.event, loss.number, &losses)?;
    let small = own_line(alloc, loss)?;
    lines.push_str(small.as_str())?;
    Ok(lines)
}

/// Returns the line with a history of the calls of a part without an order. It is empty unless the
/// part has one past.
fn own_line(alloc: Global, loss: &Violation) -> Result<String, Memory>
    ensures { All IsDead (pasts_of loss.now.part)
        → IfOk result (λ small. MatchOption (key_core loss.now) (string_bytes small ≡ [])
        (λ part. IsSmallLine part.start part.calls (string_bytes small))) }
{
    match key_core(alloc, loss)? {
        Some(part) => small_line(alloc, &part.start, &part.calls),
        None => Ok(String::new(alloc)),
    }
}

/// Returns the line for a stream whose events have an order. It says how many calls there were. It
/// also says how many other calls were open at an invocation, on average.
fn yes_line(alloc: Global, calls: usize, overlap: u64) -> Result<String, AllocError>
    ensures { IfOk result (λ text. string_bytes text ≡ yes_line calls overlap) }
{
    let mut line = String::from_str(alloc, "{\"calls\":")?;
    line.push_str(format!(in alloc; "{calls}")?.as_str())?;
    line.push_str(",\"overlap\":")?;
    line.push_str(average_text(alloc, calls, overlap)?.as_str())?;
    line.push_str(",\"verdict\":\"yes\"}\n")?;
    Ok(line)
}

/// Returns the line for a stream that goes wrong at an event, the answer of the call of this
/// number.
fn lost_line(
    alloc: Global,
    event: usize,
    number: usize,
    losses: &[KeyViolation],
) -> Result<String, AllocError>
    ensures { IfOk result (λ text. string_bytes text ≡ line
        (compact_text (lost_data event number losses.now))) }
{
    let value = lost_value(alloc, event, number, losses)?;
    line_of(value.to_string(alloc)?)
}

fn lost_value(
    alloc: Global,
    event: usize,
    number: usize,
    losses: &[KeyViolation],
) -> Result<Value, AllocError>
    ensures { IfOk result (λ value. view value ≡ lost_data event number losses.now) }
{
    let mut members = Map::new(alloc);
    put_lost(alloc, &mut members, event, number, losses)?;
    Ok(Value::Object(members))
}

/// Puts the members of `lost_data` into an object without members.
fn put_lost(
    alloc: Global,
    members: &mut Map<String, Value>,
    event: usize,
    number: usize,
    losses: &[KeyViolation],
) -> Result<(), AllocError>
    requires { members.old.entries ≡ [] }
    ensures { OnOk result (object (members_view members.new.entries) ≡ lost_data event number
        losses.now) }
{
    put_losses(alloc, members, event, number, losses)?;
    put(members, alloc, "verdict", Value::try_from_str(alloc, "no")?)
}

/// Returns the line for a stream that may go wrong at an event, the answer of the call of this
/// number.
fn spent_line(
    alloc: Global,
    event: usize,
    number: usize,
    losses: &[KeyViolation],
) -> Result<String, AllocError>
    ensures { IfOk result (λ text. string_bytes text ≡ line
        (compact_text (spent_data event number losses.now))) }
{
    let value = spent_value(alloc, event, number, losses)?;
    line_of(value.to_string(alloc)?)
}

fn spent_value(
    alloc: Global,
    event: usize,
    number: usize,
    losses: &[KeyViolation],
) -> Result<Value, AllocError>
    ensures { IfOk result (λ value. view value ≡ spent_data event number losses.now) }
{
    let mut members = Map::new(alloc);
    put_spent(alloc, &mut members, event, number, losses)?;
    Ok(Value::Object(members))
}

/// Puts the members of `spent_data` into an object without members.
fn put_spent(
    alloc: Global,
    members: &mut Map<String, Value>,
    event: usize,
    number: usize,
    losses: &[KeyViolation],
) -> Result<(), AllocError>
    requires { members.old.entries ≡ [] }
    ensures { OnOk result (object (members_view members.new.entries) ≡ spent_data event number
        losses.now) }
{
    put_losses(alloc, members, event, number, losses)?;
    put(
        members,
        alloc,
        "reason",
        Value::try_from_str(alloc, "budget")?,
    )?;
    put(
        members,
        alloc,
        "verdict",
        Value::try_from_str(alloc, "undecided")?,
    )
}

/// Puts the number of a call, the event of its answer, and the losses of keys into an object.
fn put_losses(
    alloc: Global,
    members: &mut Map<String, Value>,
    event: usize,
    number: usize,
    losses: &[KeyViolation],
) -> Result<(), AllocError>
    ensures { OnOk result (members_view members.new.entries
        ≡ with_member (codes "keys") (keys_data losses.now)
        (with_member (codes "event") (number_data event)
        (with_member (codes "call") (number_data number)
        (members_view members.old.entries)))) }
{
    put(members, alloc, "call", Value::from(number))?;
    put(members, alloc, "event", Value::from(event))?;
    put(members, alloc, "keys", keys_value(alloc, losses)?)
}

fn keys_value(alloc: Global, losses: &[KeyViolation]) -> Result<Value, AllocError>
    ensures { IfOk result (λ value. view value ≡ keys_data losses.now) }
{
    let mut items = Vec::with_capacity(alloc, losses.len())?;
    for loss in losses {
        items.push(key_value(alloc, loss)?)?;
    }
    Ok(Value::from(items))
}

fn key_value(alloc: Global, loss: &KeyViolation) -> Result<Value, AllocError>
    ensures { IfOk result (λ value. view value ≡ key_data loss.now) }
{
    let mut members = Map::new(alloc);
    put_key(alloc, &mut members, loss)?;
    Ok(Value::Object(members))
}

/// Puts the loss of a key into an object without members.
fn put_key(
    alloc: Global,
    members: &mut Map<String, Value>,
    loss: &KeyViolation,
) -> Result<(), AllocError>
    requires { members.old.entries ≡ [] }
    ensures { OnOk result (object (members_view members.new.entries) ≡ key_data loss.now) }
{
    put(
        members,
        alloc,
        "invoked",
        numbers_value(alloc, &loss.invoked)?,
    )?;
    put(members, alloc, "key", Value::from(loss.key))?;
    put(members, alloc, "put", puts_value(alloc, &loss.from)?)?;
    put(members, alloc, "values", values_value(alloc, &loss.from)?)
}

fn numbers_value(alloc: Global, numbers: &[usize]) -> Result<Value, AllocError>
    ensures { IfOk result (λ value. view value ≡ numbers_data numbers.now) }
{
    let mut items = Vec::with_capacity(alloc, numbers.len())?;
    for number in numbers {
        items.push(Value::from(*number))?;
    }
    Ok(Value::from(items))
}

/// Returns the values that a key may have had.
fn values_value(alloc: Global, from: &[Origin]) -> Result<Value, AllocError>
    ensures { IfOk result (λ value. view value ≡ values_data from.now) }
{
    let mut items = Vec::with_capacity(alloc, from.len())?;
    for origin in from {
        items.push(value_or_null(origin.value))?;
    }
    Ok(Value::from(items))
}

/// Returns the calls that put these values, each by the event of its invocation.
fn puts_value(alloc: Global, from: &[Origin]) -> Result<Value, AllocError>
    ensures { IfOk result (λ value. view value ≡ puts_data from.now) }
{
    let mut items = Vec::with_capacity(alloc, from.len())?;
    for origin in from {
        items.push(event_or_null(origin.put))?;
    }
    Ok(Value::from(items))
}

fn event_or_null(event: Option<usize>) -> Value
    ensures { view result ≡ value_data event }
{
    let Some(event) = event else {
        return Value::Null;
    };
    Value::from(event)
}
