// The lines of an explanation.
ghost use Rattle.std.specs.Prelude.{◌≡◌, ◌≤◌, if◌then◌else◌, [], IfOk, OnOk, codes, string_bytes};
ghost use Rattle.serde_json.specs.Data.{object, put as with_member};
ghost use Rattle.serde_json.specs.View.{view, members_view};
ghost use Rattle.serde_json.specs.Written.{compact_text};
ghost use Rattle.events.specs.Operations.{operations};
ghost use Rattle.history_text.specs.Texts.{number_data, call_data};
ghost use Rattle.map_object.specs.MapObject.{IsRising};
ghost use Rattle.search.specs.Limits.{budget_limit};
ghost use Rattle.cli_outcome.specs.Lines.{line};
ghost use Rattle.orders.specs.Orders.{IsLinearizable};
ghost use Rattle.explain_histories.specs.SmallHistories.{IsWrittenAs};
ghost use Rattle.cli_explain.specs.Answers.{AreFewLines, AreHistoryLines, AreLinesOf, AreTwoLines, IsFrontOf};
ghost use Rattle.cli_explain.specs.Reports.{answer_data, was_answered, kept_data, reason_word, missing_line_data, call_line_data, rows};

use crate::longest_fronts::front_line;
use crate::misses::put_missed;
use crate::processes::process_at;
use crate::writers::outside_lines;
use cli_outcome::line_of;
use events::{History, Memory, Operation, Response};
use explain_histories::{small_history, small_text};
use explain_reads_from::{Missed, missed_writes};
use explain_shrink::{Explanation, Reason};
use history_text::{call_value, reply_value};
use orders::Segment;
use search::longest_front;
use serde_json::{Map, Value, put};
use std::alloc::{AllocError, Global};

/// Returns the lines of a few calls that have no order from these pairs: one for each call, and one
/// for each value that comes from outside of them. Then come the text of a history of them, and how
/// far an order of them gets.
pub(crate) fn few_lines(
    alloc: Global,
    history: &History,
    start: &[(u64, u64)],
    few: &Explanation,
    budget: u32,
) -> Result<String, Memory>
    requires rising { IsRising start.now }
    requires none { IsLinearizable start.now few.now.calls.items → ⊥ }
    requires budget { (1 ≤ budget) × (budget ≤ budget_limit) }
    ensures { IfOk result (λ text. AreFewLines budget history.now start.now few.now
        (string_bytes text)) }
{
    let calls = few.calls.as_slice();
    let mut text = row_lines(alloc, history, calls, &few.reasons)?;
    let outside = outside_lines(alloc, history, start, calls)?;
    text.push_str(outside.as_str())?;
    let small = history_lines(alloc, start, calls, budget)?;
    text.push_str(small.as_str())?;
    Ok(text)
}

/// Returns two lines: a history with some calls from some pairs, and a front of these. There is
/// nothing if no history has them, or if its text is too long.
fn history_lines(
    alloc: Global,
    start: &[(u64, u64)],
    calls: &[Operation],
    budget: u32,
) -> Result<String, Memory>
    requires rising { IsRising start.now }
    requires budget { (1 ≤ budget) × (budget ≤ budget_limit) }
    ensures { (IsLinearizable start.now calls.now → ⊥)
        → IfOk result (λ text. AreHistoryLines budget start.now calls.now (string_bytes text)) }
{
    match small_history(alloc, start, calls)? {
        Some(history) => lines_of(alloc, &history, start, calls, budget),
        None => Ok(String::new(alloc)),
    }
}

/// Returns two lines: a history with some calls from some pairs, and a front of these. There is
/// nothing if its text is too long.
fn lines_of(
    alloc: Global,
    history: &History,
    start: &[(u64, u64)],
    calls: &[Operation],
    budget: u32,
) -> Result<String, Memory>
    requires rising { IsRising start.now }
    requires budget { (1 ≤ budget) × (budget ≤ budget_limit) }
    ensures { (IsLinearizable history.now.start (operations history.now.events) → ⊥)
        → IfOk result (λ text. AreLinesOf budget start.now calls.now history.now
        (string_bytes text)) }
{
    match small_text(alloc, history)? {
        Some(text) => two_lines(alloc, text, history, start, calls, budget),
        None => Ok(String::new(alloc)),
    }
}

/// Returns the line of the text of a history, and then that of a front of its calls.
fn two_lines(
    alloc: Global,
    text: String,
    history: &History,
    start: &[(u64, u64)],
    calls: &[Operation],
    budget: u32,
) -> Result<String, Memory>
    requires rising { IsRising start.now }
    requires budget { (1 ≤ budget) × (budget ≤ budget_limit) }
    ensures { IsWrittenAs history.now (string_bytes text)
        → (IsLinearizable history.now.start (operations history.now.events) → ⊥)
        → IfOk result (λ lines. AreTwoLines budget start.now calls.now history.now
        (string_bytes lines)) }
{
    let front = front_of(alloc, history, budget)?;
    let last = front_line(alloc, start, calls, &front)?;
    let mut lines = line_of(text)?;
    lines.push_str(last.as_str())?;
    Ok(lines)
}

/// Returns the longest front that a search of all calls of a history meets.
fn front_of(alloc: Global, history: &History, budget: u32) -> Result<Vec<u32>, Memory>
    requires { (1 ≤ budget) × (budget ≤ budget_limit) }
    ensures { (IsLinearizable history.now.start (operations history.now.events) → ⊥)
        → IfOk result (λ front. IsFrontOf budget history.now front.items) }
{
    let found = Segment::whole(alloc, history)?;
    match found {
        Some(whole) => {
            let front = longest_front(alloc, &whole, budget)?;
            Ok(front)
        }
        None => Ok(Vec::new(alloc)),
    }
}

/// Returns a line for each call of an explanation, with the reason why it stays.
fn row_lines(
    alloc: Global,
    history: &History,
    calls: &[Operation],
    reasons: &[Reason],
) -> Result<String, Memory>
    ensures { IfOk result (λ text. string_bytes text ≡ rows history.now calls.now reasons.now) }
{
    let mut text = String::new(alloc);
    for (number, call) in calls.iter().enumerate() {
        let Some(reason) = reasons.get(number) else {
            return Ok(text);
        };
        let row = row_line(alloc, history, call, reason)?;
        text.push_str(row.as_str())?;
    }
    Ok(text)
}

fn row_line(
    alloc: Global,
    history: &History,
    call: &Operation,
    reason: &Reason,
) -> Result<String, Memory>
    ensures { IfOk result (λ text. string_bytes text ≡ line
        (compact_text (call_line_data history.now call.now reason.now))) }
{
    let missed = missed_writes(alloc, history.calls(), call)?;
    let value = row_value(alloc, history, call, &missed, reason)?;
    Ok(line_of(value.to_string(alloc)?)?)
}

fn row_value(
    alloc: Global,
    history: &History,
    call: &Operation,
    missed: &[Missed],
    reason: &Reason,
) -> Result<Value, AllocError>
    ensures { IfOk result (λ value. view value ≡ missing_line_data history.now call.now missed.now
        reason.now) }
{
    let mut members = Map::new(alloc);
    put_row(alloc, &mut members, history, call, missed, reason)?;
    Ok(Value::Object(members))
}

/// Adds a call of an explanation to an object without members.
fn put_row(
    alloc: Global,
    members: &mut Map<String, Value>,
    history: &History,
    call: &Operation,
    missed: &[Missed],
    reason: &Reason,
) -> Result<(), AllocError>
    requires { members.old.entries ≡ [] }
    ensures { OnOk result (object (members_view members.new.entries)
        ≡ missing_line_data history.now call.now missed.now reason.now) }
{
    let answered = was_answered(history.calls(), call.inv);
    put_call(alloc, members, answered, call)?;
    let process = process_at(history.events(), call.inv);
    put(members, alloc, "process", Value::from(process))?;
    put(
        members,
        alloc,
        "reason",
        Value::try_from_str(alloc, reason_word(reason))?,
    )?;
    put_missed(alloc, members, history.events(), missed)
}

/// Adds the answer of a call as far as it counts, what was called, and the event of its invocation.
fn put_call(
    alloc: Global,
    members: &mut Map<String, Value>,
    answered: bool,
    call: &Operation,
) -> Result<(), AllocError>
    ensures { OnOk result (members_view members.new.entries
        ≡ with_member (codes "event") (number_data call.now.inv)
        (with_member (codes "call") (call_data call.now.call)
        (with_member (codes "answer") (kept_data answered call.now.response)
        (members_view members.old.entries)))) }
{
    put(
        members,
        alloc,
        "answer",
        kept_value(alloc, answered, &call.response)?,
    )?;
    put(members, alloc, "call", call_value(alloc, &call.call)?)?;
    put(members, alloc, "event", Value::from(call.inv))
}

/// Returns whether the call that was invoked at a place was answered.
fn was_answered(calls: &[Operation], place: usize) -> bool
    ensures { result ≡ was_answered calls.now place }
{
    for call in calls {
        if call.inv == place && call.response.is_some() {
            return true;
        }
    }
    false
}

/// Returns the answer of a call as far as it counts: the reply, or a word.
fn kept_value(
    alloc: Global,
    answered: bool,
    response: &Option<Response>,
) -> Result<Value, AllocError>
    ensures { IfOk result (λ value. view value ≡ kept_data answered response.now) }
{
    match response {
        Some(response) => reply_value(alloc, &response.reply),
        None => Value::try_from_str(alloc, absent_word(answered)),
    }
}

/// Returns why no answer of a call counts, in a word.
fn absent_word(answered: bool) -> &'static str
    ensures { result.now ≡ (if answered then codes "left out" else codes "open") }
{
    if answered { "left out" } else { "open" }
}

/// Returns the answer of a call among a few: the reply, or a word if it has none there.
pub(crate) fn answer_value(alloc: Global, response: &Option<Response>) -> Result<Value, AllocError>
    ensures { IfOk result (λ value. view value ≡ answer_data response.now) }
{
    match response {
        Some(response) => reply_value(alloc, &response.reply),
        None => Value::try_from_str(alloc, "open"),
    }
}

/// Returns why a call stays, in a word.
fn reason_word(reason: &Reason) -> &'static str
    ensures { result.now ≡ reason_word reason.now }
{
    match reason {
        Reason::Order(_) => "order",
        Reason::Spent => "spent",
        Reason::Held => "held",
    }
}
