// A line in the compact form, read in one pass and without a tree of values.
ghost use Rattle.std.specs.Prelude.{◌≡◌, [], IfSome};
ghost use Rattle.history_text.specs.Texts.{event_data};
ghost use Rattle.history_text.specs.Compact.{IsCompact};
ghost use Rattle.stream_text.specs.Lines.{as_event, MayStandIn, SpellsEvent};

use crate::MAX_LINE;
use crate::event::StreamEvent;
use history_text::{TextVersion, invocation_at, response_at};
use std::alloc::Global;

/// Returns the event that a line in the compact form spells, in a stream of a version. `None` means
/// nothing. The line may have another form, the version may not allow the event, or memory may have
/// run out.
pub fn compact_event(alloc: Global, version: TextVersion, line: &[u8]) -> Option<StreamEvent>
    ensures { IfSome result (λ e. SpellsEvent version line.now (as_event e)) }
{
    if line.len() > MAX_LINE {
        return None;
    }
    event_in(alloc, version, line)
}

/// Returns the event that the whole line spells.
fn event_in(alloc: Global, version: TextVersion, line: &[u8]) -> Option<StreamEvent>
    ensures text { IfSome result (λ e. IsCompact (event_data (as_event e)) line.now) }
    ensures stands { IfSome result (λ e. MayStandIn version (as_event e)) }
{
    match line.get(2)? {
        b'i' => invocation(version, line),
        b'a' => response(alloc, version, line),
        _ => None,
    }
}

/// Returns the invocation that the whole line spells.
fn invocation(version: TextVersion, line: &[u8]) -> Option<StreamEvent>
    ensures text { IfSome result (λ e. IsCompact (event_data (as_event e)) line.now) }
    ensures stands { IfSome result (λ e. MayStandIn version (as_event e)) }
{
    let (number, call, rest) = invocation_at(line)?;
    let process = last_process(number, rest)?;
    if !version.may_have_call(&call) {
        return None;
    }
    Some(StreamEvent::Invoke { process, call })
}

/// Returns the response that the whole line spells.
fn response(alloc: Global, version: TextVersion, line: &[u8]) -> Option<StreamEvent>
    ensures text { IfSome result (λ e. IsCompact (event_data (as_event e)) line.now) }
    ensures stands { IfSome result (λ e. MayStandIn version (as_event e)) }
{
    let (number, reply, rest) = response_at(alloc, line)?;
    let process = last_process(number, rest)?;
    if !version.may_have_reply(&reply) {
        return None;
    }
    Some(StreamEvent::Answer { process, reply })
}

/// Returns a number as that of a process, if it is small enough and nothing is left of the line.
fn last_process(number: u64, rest: &[u8]) -> Option<u16>
    ensures process { IfSome result (λ process. process ≡ number) }
    ensures nothing { IfSome result (λ _. rest.now ≡ []) }
{
    if !rest.is_empty() {
        return None;
    }
    u16::try_from(number).ok()
}
