// Which calls another one misses.
ghost use Rattle.std.specs.Prelude.{◌≡◌, map, IfOk};
ghost use Rattle.std.specs.List.{list_any};
ghost use Rattle.explain_reads_from.specs.Missed.{left_by, says_found, is_other, is_contradicted, contradicts, may_mend, contradicts_later, is_missed};
ghost use Rattle.explain_reads_from.specs.Missed.{missed_writes, missed_of};

use crate::writing::is_undone;
use events::{Call, Memory, Operation, Reply, Response};
use explain_shrink::{depends_on, is_sure, names_key, precedes, put_by, tells_put};
use std::alloc::Global;

/// A call that another one misses: what was called, and the event of its invocation.
#[derive(Clone, Copy)]
pub struct Missed {
    pub call: Call,
    pub event: usize,
}

/// Returns those of some calls, in the order in which they began, that one call misses. They were
/// answered before it began, and its answer shows other values at their keys than they left there.
/// No call may have put there again what it reports. At each key there is at most one such call,
/// the last. At worst each call is compared with all of them.
pub fn missed_writes(
    alloc: Global,
    calls: &[Operation],
    call: &Operation,
) -> Result<Vec<Missed>, Memory>
    ensures { IfOk result (λ missed. missed.items ≡ map missed_of (missed_writes call.now calls.now)) }
{
    let mut missed = Vec::new(alloc);
    for (number, other) in calls.iter().enumerate() {
        if is_missed(calls, call, other, &calls[number + 1..]) {
            missed.push(missed_of(other))?;
        }
    }
    Ok(missed)
}

/// Returns what is reported of a call that another misses.
fn missed_of(call: &Operation) -> Missed
    ensures { result ≡ missed_of call.now }
{
    Missed {
        call: call.call,
        event: call.inv,
    }
}

/// Returns whether one of some calls misses another, given the calls that began after that one.
fn is_missed(calls: &[Operation], call: &Operation, other: &Operation, later: &[Operation]) -> bool
    ensures { result ≡ is_missed calls.now call.now other.now later.now }
{
    contradicts(call, other)
        && !contradicts_later(call, other, later)
        && !is_mended(calls, call, other)
}

/// Returns whether a call contradicts one of these later calls of the same key.
fn contradicts_later(call: &Operation, other: &Operation, later: &[Operation]) -> bool
    ensures { result ≡ contradicts_later call.now other.now later.now }
{
    for third in later {
        if third.call.low_key() == other.call.low_key() && contradicts(call, third) {
            return true;
        }
    }
    false
}

/// Returns whether one of these calls may have put, after the second call, what the first one
/// reports.
fn is_mended(calls: &[Operation], call: &Operation, other: &Operation) -> bool
    ensures { result ≡ list_any (may_mend call.now other.now) calls.now }
{
    for third in calls {
        if may_mend(call, other, third) {
            return true;
        }
    }
    false
}

/// Returns whether a third call may have put at the second one's key, after that one and before the
/// first, what the first one reports.
fn may_mend(call: &Operation, other: &Operation, third: &Operation) -> bool
    ensures { result ≡ may_mend call.now other.now third.now }
{
    third.inv != call.inv
        && third.call.low_key() == other.call.low_key()
        && tells_put(call, third)
        && !precedes(third, other)
        && !precedes(call, third)
}

/// Returns whether the answer of a call shows that one of its keys had another value than another
/// call left there before it began.
fn contradicts(call: &Operation, other: &Operation) -> bool
    ensures { result ≡ contradicts call.now other.now }
{
    let key = other.call.low_key();
    precedes(other, call)
        && names_key(&call.call, key)
        && is_contradicted(&call.call, &call.response, key, left_by(other))
}

/// Returns whether the answer of a call shows that a key had another value than the one that was
/// left there, if anything was.
fn is_contradicted(
    call: &Call,
    response: &Option<Response>,
    key: u64,
    left: Option<Option<u64>>,
) -> bool
    ensures { result ≡ is_contradicted call.now response.now key left }
{
    match response {
        Some(response) => is_other(call, &response.reply, key, left),
        None => false,
    }
}

/// Returns whether a reply shows that a key had another value than the one that was left there, if
/// anything was.
fn is_other(call: &Call, reply: &Reply, key: u64, left: Option<Option<u64>>) -> bool
    ensures { result ≡ is_other call.now reply.now key left }
{
    match left {
        Some(value) => says_found(reply) && !depends_on(call, reply, key, value),
        None => false,
    }
}

/// Returns what a call left at its key, as its answer says: a value, or none in place of one.
fn left_by(call: &Operation) -> Option<Option<u64>>
    ensures { result ≡ left_by call.now }
{
    if is_sure(call) && !is_undone(&call.call, &call.response) {
        put_by(&call.call)
    } else {
        None
    }
}

/// Returns whether an answer says something about what its call found.
fn says_found(reply: &Reply) -> bool
    ensures { result ≡ says_found reply.now }
{
    match reply {
        Reply::None | Reply::Some(_) | Reply::Pairs(_) | Reply::Found | Reply::Other => true,
        Reply::Refused | Reply::Done => false,
    }
}
