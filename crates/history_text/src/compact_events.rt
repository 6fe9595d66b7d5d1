// The event that a text in the compact form begins with.
ghost use Rattle.std.specs.Prelude.{◌≡◌, ◌++◌, ◌<◌, ◌^◌, codes, decimal, IfSome, IsTrue};
ghost use Rattle.events.specs.declared.event.Event.TheVariants as events;
ghost use Rattle.events.specs.Histories.{has_range};
ghost use Rattle.history_text.specs.Texts.{event_data, may_stand};
ghost use Rattle.history_text.specs.Compact.{BeginsWith};

use crate::compact_calls::call_at;
use crate::compact_replies::reply_at;
use crate::version::TextVersion;
use events::{Call, Event, Reply};
use plain_numbers::{after, number_before};
use std::alloc::Global;

/// Returns the event that a text begins with, and what is left after it, if the event may be in a
/// text of a version.
pub fn event_at(alloc: Global, version: TextVersion, text: &[u8]) -> Option<(Event, &[u8])>
    ensures text { IfSome result (λ found. BeginsWith (event_data found.0) text.now found.1.now) }
    ensures standing { IfSome result (λ found. IsTrue (may_stand version found.0)) }
{
    match text.get(2)? {
        b'i' => invoke_at(version, text),
        b'a' => answer_at(alloc, version, text),
        _ => None,
    }
}

fn invoke_at(version: TextVersion, text: &[u8]) -> Option<(Event, &[u8])>
    ensures text { IfSome result (λ found. BeginsWith (event_data found.0) text.now found.1.now) }
    ensures standing { IfSome result (λ found. IsTrue (may_stand version found.0)) }
{
    let (number, call, rest) = invocation_at(text)?;
    let process = process_of(number)?;
    if !version.may_have_call(&call) {
        return None;
    }
    Some((Event::Invoke { process, call }, rest))
}

fn answer_at(alloc: Global, version: TextVersion, text: &[u8]) -> Option<(Event, &[u8])>
    ensures text { IfSome result (λ found. BeginsWith (event_data found.0) text.now found.1.now) }
    ensures standing { IfSome result (λ found. IsTrue (may_stand version found.0)) }
{
    let (number, reply, rest) = response_at(alloc, text)?;
    let process = process_of(number)?;
    if !version.may_have_reply(&reply) {
        return None;
    }
    Some((Event::Answer { process, reply }, rest))
}

/// Returns a process number that fits into a `u8`.
fn process_of(number: u64) -> Option<u8>
    ensures { IfSome result (λ process. process ≡ number) }
{
    u8::try_from(number).ok()
}

/// Returns the process and the call of the invocation that a text begins with, and what is left
/// after it.
pub fn invocation_at(text: &[u8]) -> Option<(u64, Call, &[u8])>
    ensures text { IfSome result (λ found. BeginsWith (event_data (events.Invoke found.0 found.1)) text.now found.2.now) }
    ensures range { IfSome result (λ found. IsTrue (has_range found.1)) }
{
    let text = after(text, b"{\"invoke\":")?;
    let (call, rest) = call_at(text)?;
    let (process, rest) = process_at(rest)?;
    Some((process, call, rest))
}

/// Returns the process and the reply of the response that a text begins with, and what is left
/// after it.
pub fn response_at(alloc: Global, text: &[u8]) -> Option<(u64, Reply, &[u8])>
    ensures { IfSome result (λ found. BeginsWith (event_data (events.Answer found.0 found.1)) text.now found.2.now) }
{
    let text = after(text, b"{\"answer\":")?;
    let (reply, rest) = reply_at(alloc, text)?;
    let (process, rest) = process_at(rest)?;
    Some((process, reply, rest))
}

/// Returns the process that is the last member of an event, and what is left after the event.
fn process_at(text: &[u8]) -> Option<(u64, &[u8])>
    ensures text { IfSome result (λ found. text.now
        ≡ codes ",\"process\":" ++ (decimal found.0 ++ (codes "}" ++ found.1.now))) }
    ensures fits { IfSome result (λ found. found.0 < 2 ^ 64) }
{
    let text = after(text, b",\"process\":")?;
    let (process, rest) = number_before(text, b"}")?;
    Some((process, rest))
}
