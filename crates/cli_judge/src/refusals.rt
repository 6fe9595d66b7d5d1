// How a text that spells no history is refused.
ghost use Rattle.std.specs.Prelude.{◌≡◌, ◌≢◌, ◌↔◌, IsTrue, IfOk, option_map, string_bytes};
ghost use Rattle.serde_json.specs.Data.{Data};
ghost use Rattle.serde_json.specs.View.{view};
ghost use Rattle.history_text.specs.Texts.{IsJson};
ghost use Rattle.history_text.specs.TextFaults.{IsTextFault};
ghost use Rattle.events.specs.declared.fault.HistoryFault.TheVariants as histories;
ghost use Rattle.cli_judge.specs.Refusals.{item_of, item_in, found_in, fault_hint, IsTextOfFound, IsRefusedText};
ghost use Rattle.cli_judge.specs.Refusals.{first_line, stream_elsewhere, BeginsStream, IsFaultHint};

use cli_outcome::{
    CommandOutcome, expected_hint, found_hint, history_expected, history_fault_line,
};
use events::{HistoryFault, Memory};
use history_text::{JsonFault, json_of};
use serde_json::Value;
use std::alloc::{AllocError, Global};
use stream_text::{LineFault, first_line_feed, read_first_line};

/// Refuses a text that spells no history, for its first fault, or reports that memory ran out. A
/// text with a faulty event or starting pair is read again. Of a text that is not JSON the first
/// line is read again.
pub fn refused_text(alloc: Global, text: &[u8], fault: &HistoryFault) -> CommandOutcome
    ensures { IsTextFault text.now fault.now → IsRefusedText text.now fault.now result }
{
    if matches!(fault, HistoryFault::Memory) {
        return CommandOutcome::Memory;
    }
    match found_in(alloc, text, fault) {
        Ok(found) => refused_as(alloc, text, fault, &found),
        Err(_) => CommandOutcome::Memory,
    }
}

/// Returns the refusal, with the text of what is at the place of the fault.
fn refused_as(
    alloc: Global,
    text: &[u8],
    fault: &HistoryFault,
    found: &Option<String>,
) -> CommandOutcome
    requires { fault.now ≢ histories.Memory }
    ensures { IsTextOfFound (found_in text.now fault.now) (option_map string_bytes found.now)
        → IsRefusedText text.now fault.now result }
{
    match hint_on(alloc, text, fault, found) {
        Ok(hint) => CommandOutcome::from_refusal(history_fault_line(alloc, fault), Ok(hint)),
        Err(_) => CommandOutcome::Memory,
    }
}

/// Returns the hint on the fault of a text, with the text of what is at its place.
fn hint_on(
    alloc: Global,
    text: &[u8],
    fault: &HistoryFault,
    found: &Option<String>,
) -> Result<String, Memory>
    ensures { IfOk result (λ hint. IsFaultHint text.now fault.now
        (option_map string_bytes found.now) (string_bytes hint)) }
{
    match fault {
        HistoryFault::NotJson => no_json_hint(alloc, text, found),
        _ => Ok(fault_hint(alloc, fault, found)?),
    }
}

/// Returns the hint on a text that is not JSON.
fn no_json_hint(alloc: Global, text: &[u8], found: &Option<String>) -> Result<String, Memory>
    ensures { IfOk result (λ hint. IsFaultHint text.now histories.NotJson
        (option_map string_bytes found.now) (string_bytes hint)) }
{
    if begins_stream(alloc, text)? {
        Ok(expected_hint(alloc, stream_elsewhere())?)
    } else {
        Ok(fault_hint(alloc, &HistoryFault::NotJson, found)?)
    }
}

/// Returns whether a stream may begin with the first line of a text.
fn begins_stream(alloc: Global, text: &[u8]) -> Result<bool, Memory>
    ensures { IfOk result (λ begins. IsTrue begins ↔ BeginsStream text.now) }
{
    match read_first_line(alloc, first_line(text)) {
        Ok(_) => Ok(true),
        Err(fault) => {
            if matches!(fault, LineFault::Memory) {
                return Err(Memory);
            }
            Ok(false)
        }
    }
}

/// Returns the bytes before the first line feed, or all if there is none.
fn first_line(text: &[u8]) -> &[u8]
    ensures { result.now ≡ first_line text.now }
{
    match first_line_feed(text) {
        Some(count) => &text[..count],
        None => text,
    }
}

/// Returns what was expected in place of a text that begins as a stream.
fn stream_elsewhere() -> &'static str
    ensures { result.now ≡ stream_elsewhere }
{
    "JSON in UTF-8; bench follow reads streams of events"
}

/// Returns the hint on a fault, with the text of what is at its place.
fn fault_hint(
    alloc: Global,
    fault: &HistoryFault,
    found: &Option<String>,
) -> Result<String, AllocError>
    ensures { IfOk result (λ hint. string_bytes hint ≡ fault_hint fault.now
        (option_map string_bytes found.now)) }
{
    match found {
        Some(text) => found_hint(alloc, text.as_bytes(), history_expected(fault)),
        None => expected_hint(alloc, history_expected(fault)),
    }
}

/// Returns the text of what is at the place that a fault names.
fn found_in(alloc: Global, text: &[u8], fault: &HistoryFault) -> Result<Option<String>, Memory>
    ensures { IsTextFault text.now fault.now
        → IfOk result (λ found. IsTextOfFound (found_in text.now fault.now)
        (option_map string_bytes found)) }
{
    match fault {
        HistoryFault::Shape { event } => item_in(alloc, text, "events", *event),
        HistoryFault::NotWellFormed { event } => item_in(alloc, text, "events", *event),
        HistoryFault::Start { pair } => item_in(alloc, text, "start", *pair),
        _ => Ok(None),
    }
}

/// Returns the text of an item of an array in a text's value.
fn item_in(alloc: Global, text: &[u8], name: &str, place: usize) -> Result<Option<String>, Memory>
    ensures { (d : Data) → IsJson text.now d
        → IfOk result (λ found. IsTextOfFound (item_in name.now place text.now)
        (option_map string_bytes found)) }
{
    match json_of(alloc, text) {
        Ok(value) => item_of(alloc, &value, name, place),
        Err(JsonFault::Memory) => Err(Memory),
        Err(_) => Ok(None),
    }
}

/// Returns the text of an item of an array in a value.
fn item_of(alloc: Global, value: &Value, name: &str, place: usize) -> Result<Option<String>, Memory>
    ensures { IfOk result (λ found. IsTextOfFound (item_of name.now place (view value.now))
        (option_map string_bytes found)) }
{
    let Some(items) = value.get(name) else {
        return Ok(None);
    };
    match items.get(place) {
        Some(item) => Ok(Some(item.to_string(alloc)?)),
        None => Ok(None),
    }
}
