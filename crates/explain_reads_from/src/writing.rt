// Which calls put a value at a key.
ghost use Rattle.std.specs.Prelude.{◌≡◌, map, Option, IfOk};
ghost use Rattle.events.specs.PlainHistories.{is_replace};
ghost use Rattle.explain_reads_from.specs.External.{is_put, holds};
ghost use Rattle.explain_reads_from.specs.Writers.{expects_other, says_undone, is_undone, writes, writers_of};

use events::{Call, Memory, Operation, Reply, Response};
use explain_shrink::put_by;
use map_object::SortedMap;
use std::alloc::Global;

/// Returns the events at which calls were invoked that put this value at this key, in the order of
/// the calls. Calls without an answer count, and so do calls that found the same value there. Calls
/// whose answers say that they were not done do not count.
pub fn writers_of(
    alloc: Global,
    calls: &[Operation],
    pair: (u64, u64),
) -> Result<Vec<usize>, Memory>
    ensures { IfOk result (λ places. places.items ≡ map (λ a. a.inv) (writers_of pair calls.now)) }
{
    let mut places = Vec::new(alloc);
    for call in calls {
        if writes(call, pair) {
            places.push(call.inv)?;
        }
    }
    Ok(places)
}

/// Returns whether a map holds this value at this key.
pub fn holds(map: &SortedMap, pair: (u64, u64)) -> bool
    ensures { result ≡ holds map.now pair }
{
    match map.value(pair.0) {
        Some(value) => value == pair.1,
        None => false,
    }
}

/// Returns whether a call puts this value at this key, unless its answer says that it was not done.
fn writes(call: &Operation, pair: (u64, u64)) -> bool
    ensures { result ≡ writes pair call.now }
{
    call.call.low_key() == pair.0
        && is_put(put_by(&call.call), pair.1)
        && !is_undone(&call.call, &call.response)
}

/// Returns whether this value is put at a key.
pub(crate) fn is_put(put: Option<Option<u64>>, value: u64) -> bool
    ensures { result ≡ is_put put value }
{
    match put {
        Some(Some(put)) => put == value,
        Some(None) | None => false,
    }
}

/// Returns whether a call was answered, and so that it was not done.
pub(crate) fn is_undone(call: &Call, response: &Option<Response>) -> bool
    ensures { result ≡ is_undone call.now response.now }
{
    match response {
        Some(response) => says_undone(call, &response.reply),
        None => false,
    }
}

/// Returns whether a reply says that the call was not done: it was refused, or a replace did not
/// find the expected value.
pub fn says_undone(call: &Call, reply: &Reply) -> bool
    ensures { result ≡ says_undone call.now reply.now }
{
    match reply {
        Reply::Refused | Reply::Other => true,
        Reply::None => is_replace(call),
        Reply::Some(found) => expects_other(call, *found),
        Reply::Pairs(_) | Reply::Done | Reply::Found => false,
    }
}

/// Returns whether a call is a replace.
fn is_replace(call: &Call) -> bool
    ensures { result ≡ is_replace call.now }
{
    matches!(call, Call::Replace(_, _, _))
}

/// Returns whether a call is a replace that expects another value than this one.
fn expects_other(call: &Call, found: u64) -> bool
    ensures { result ≡ expects_other call.now found }
{
    match call {
        Call::Replace(_, expected, _) => *expected != found,
        Call::Get(_) | Call::Insert(_, _) | Call::Remove(_) | Call::Scan(_, _) => false,
    }
}
