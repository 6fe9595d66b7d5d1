// The refusal of a line of a stream.
ghost use Rattle.std.specs.Prelude.{◌≡◌, ◌↔◌, [], IsTrue, IfOk, string_bytes};
ghost use Rattle.stream_text.specs.declared.line_fault.LineFault.TheVariants as lines;
ghost use Rattle.cli_follow.specs.Leaves.{IsLineRefusal, IsRefusalAfter, IsTurnRefusal, IsManyRefusal};
ghost use Rattle.cli_follow.specs.Refusals.{line_fault_name, turn_fault_name, line_fault_hint, stream_fault_line, IsHistoryLine};
ghost use Rattle.cli_follow.specs.Wanted.{too_many_expected, history_elsewhere, line_expected, order_expected_for};

use cli_outcome::{
    CommandOutcome, event_expected, expected_hint, found_hint, json_expected, order_expected,
    pair_expected,
};
use events::{HistoryFault, Memory};
use follow_monitor::FollowFault;
use history_text::read_history;
use std::alloc::{AllocError, Global};
use stream_text::LineFault;

/// Returns the refusal of the line of this number, or out of memory.
pub fn refused_line(alloc: Global, number: u64, line: &[u8], fault: LineFault) -> CommandOutcome
    ensures { IsLineRefusal number line.now fault result }
{
    if matches!(fault, LineFault::Memory) {
        return CommandOutcome::Memory;
    }
    CommandOutcome::from_refusal(
        line_fault_line(alloc, number, fault),
        line_fault_hint(alloc, line, fault),
    )
}

/// Returns the refusal of the first line, or out of memory. If the line is a history, the hint says
/// which subcommands read histories.
pub fn refused_first(alloc: Global, line: &[u8], fault: LineFault) -> CommandOutcome
    ensures { IsRefusalAfter [] 1 line.now fault result }
{
    match fault {
        LineFault::Shape => refused_shape(alloc, line),
        _ => refused_line(alloc, 1, line, fault),
    }
}

/// Returns the refusal of a first line that spells neither starting pairs nor an event.
fn refused_shape(alloc: Global, line: &[u8]) -> CommandOutcome
    ensures { IsRefusalAfter [] 1 line.now lines.Shape result }
{
    match is_history(alloc, line) {
        Ok(true) => CommandOutcome::from_refusal(
            fault_line(alloc, 1, "4 Shape"),
            found_hint(alloc, line, history_elsewhere()),
        ),
        Ok(false) => refused_line(alloc, 1, line, LineFault::Shape),
        Err(_) => CommandOutcome::Memory,
    }
}

/// Returns whether a line is the text of a history.
fn is_history(alloc: Global, line: &[u8]) -> Result<bool, Memory>
    ensures { IfOk result (λ found. IsTrue found ↔ IsHistoryLine line.now) }
{
    match read_history(alloc, line) {
        Ok(_) => Ok(true),
        Err(fault) => {
            if matches!(fault, HistoryFault::Memory) {
                return Err(Memory);
            }
            Ok(false)
        }
    }
}

/// Returns the refusal of the event on the line of this number, or out of memory.
pub fn refused_event(alloc: Global, number: u64, line: &[u8], fault: &FollowFault) -> CommandOutcome
    ensures { IsTurnRefusal number line.now fault.now result }
{
    match fault {
        FollowFault::Memory => CommandOutcome::Memory,
        _ => CommandOutcome::from_refusal(
            fault_line(alloc, number, turn_fault_name(fault)),
            found_hint(alloc, line, order_expected_for(fault)),
        ),
    }
}

/// Returns the refusal of a line after the last one that may be read, or out of memory.
pub fn refused_many(alloc: Global, number: u64) -> CommandOutcome
    ensures { IsManyRefusal number result }
{
    CommandOutcome::from_refusal(
        fault_line(alloc, number, "5 TooMany"),
        expected_hint(alloc, too_many_expected()),
    )
}

/// Returns the report of a fault of this name, at the line of this number.
fn fault_line(alloc: Global, number: u64, name: &str) -> Result<String, AllocError>
    ensures { IfOk result (λ text. string_bytes text ≡ stream_fault_line number name.now) }
{
    let mut line = format!(in alloc; "stream: line {number}: ")?;
    line.push_str(name)?;
    line.push_str("\n")?;
    Ok(line)
}

/// Returns the report of a fault, at the line of this number.
fn line_fault_line(alloc: Global, number: u64, fault: LineFault) -> Result<String, AllocError>
    ensures { IfOk result (λ text. string_bytes text ≡ stream_fault_line number
        (line_fault_name fault)) }
{
    let name = line_fault_name(alloc, fault)?;
    fault_line(alloc, number, name.as_str())
}

/// Returns the hint on a line with a fault.
fn line_fault_hint(alloc: Global, line: &[u8], fault: LineFault) -> Result<String, AllocError>
    ensures { IfOk result (λ hint. string_bytes hint ≡ line_fault_hint line.now fault) }
{
    match fault {
        LineFault::TooLong => expected_hint(alloc, line_expected(fault)),
        _ => found_hint(alloc, line, line_expected(fault)),
    }
}

/// Returns the number and the name of the fault of a line.
fn line_fault_name(alloc: Global, fault: LineFault) -> Result<String, AllocError>
    ensures { IfOk result (λ name. string_bytes name ≡ line_fault_name fault) }
{
    let name = match fault {
        LineFault::TooLong => "1 TooLong",
        LineFault::NotJson => "2 NotJson",
        LineFault::Version => "3 Version",
        LineFault::Shape => "4 Shape",
        LineFault::TooMany => "5 TooMany",
        LineFault::Memory => "7 Memory",
        LineFault::Start { pair } => return format!(in alloc; "8 Start at pair {pair}"),
    };
    String::from_str(alloc, name)
}

/// Returns the number and the name of the fault of an event after others.
fn turn_fault_name(fault: &FollowFault) -> &'static str
    ensures { result.now ≡ turn_fault_name fault.now }
{
    match fault {
        FollowFault::Shape => "4 Shape",
        FollowFault::NotWellFormed => "6 NotWellFormed",
        FollowFault::TooMany => "5 TooMany",
        FollowFault::Memory => "7 Memory",
    }
}

/// Returns what was expected instead of a first line that is a history.
fn history_elsewhere() -> &'static str
    ensures { result.now ≡ history_elsewhere }
{
    "an event in a line of its own; bench judge and bench locate read histories"
}

/// Returns what was expected instead of a line with this fault.
fn line_expected(fault: LineFault) -> &'static str
    ensures { result.now ≡ line_expected fault }
{
    match fault {
        LineFault::TooLong => "at most 1048576 bytes",
        LineFault::NotJson => json_expected(),
        LineFault::Version => "{\"version\":V,\"start\":[..]}; V is 2 or 3",
        LineFault::Shape => event_expected(),
        LineFault::TooMany => too_many_expected(),
        LineFault::Memory => "",
        LineFault::Start { .. } => pair_expected(),
    }
}

/// Returns what was expected instead of an event with this fault.
fn order_expected_for(fault: &FollowFault) -> &'static str
    ensures { result.now ≡ order_expected_for fault.now }
{
    match fault {
        FollowFault::Shape => event_expected(),
        FollowFault::NotWellFormed => order_expected(),
        FollowFault::TooMany => too_many_expected(),
        FollowFault::Memory => "",
    }
}

/// Returns which processes there may be, and how many events.
fn too_many_expected() -> &'static str
    ensures { result.now ≡ too_many_expected }
{
    "processes from 0 to 65535, and at most 17592186044414 events"
}
