// The calls that a list of events makes.
ghost use Rattle.std.specs.Prelude.{◌≡◌, ◌+◌, ◌<◌, ◌^◌, length, IfOk, drop};
ghost use Rattle.events.specs.Operations.{operations, response_from};

use crate::event::Event;
use crate::memory::Memory;
use crate::operation::{Operation, Response};
use std::alloc::Global;

/// Returns the calls by number. The response of each call is searched for from its invocation on.
/// Calls of one process do not overlap in a history, so each event is looked at at most once for
/// each process.
pub fn operations_of(alloc: Global, events: &[Event]) -> Result<Vec<Operation>, Memory>
    ensures { IfOk result (λ v. v.items ≡ operations events.now) }
{
    let mut calls = Vec::new(alloc);
    for (inv, event) in events.iter().enumerate() {
        if let Event::Invoke { process, call } = event {
            let response = response_of(alloc, *process, events, inv + 1)?;
            calls.push(Operation {
                call: *call,
                inv,
                response,
            })?;
        }
    }
    Ok(calls)
}

/// Returns the first response of a process at a place or after it.
fn response_of(
    alloc: Global,
    process: u8,
    events: &[Event],
    from: usize,
) -> Result<Option<Response>, Memory>
    ensures { IfOk result (λ r. r ≡ response_from process from (drop from events.now)) }
{
    for res in from..events.len() {
        if let Event::Answer {
            process: answered,
            reply,
        } = &events[res]
        {
            if *answered == process {
                let reply = reply.copy(alloc)?;
                return Ok(Some(Response { res, reply }));
            }
        }
    }
    Ok(None)
}
