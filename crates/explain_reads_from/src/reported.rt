// The pairs of a key and a value that calls report.
ghost use Rattle.std.specs.Prelude.{◌≡◌, ◌++◌, IfOk, OnOk};
ghost use Rattle.explain_reads_from.specs.Reported.{value_reported, pairs_reported, pairs_reported_by, all_reported};

use events::{Call, Memory, Operation, Reply};
use std::alloc::Global;

/// Returns the pairs that calls report, one call after another.
pub(crate) fn all_reported(alloc: Global, calls: &[Operation]) -> Result<Vec<(u64, u64)>, Memory>
    ensures { IfOk result (λ pairs. pairs.items ≡ all_reported calls.now) }
{
    let mut pairs = Vec::new(alloc);
    for call in calls {
        note_call(&mut pairs, call)?;
    }
    Ok(pairs)
}

/// Adds the pairs that a call reports; none if it has no answer.
fn note_call(pairs: &mut Vec<(u64, u64)>, call: &Operation) -> Result<(), Memory>
    ensures { OnOk result (pairs.new.items ≡ pairs.old.items ++ pairs_reported_by call.now.call
        call.now.response) }
{
    match &call.response {
        Some(response) => note_reply(pairs, &call.call, &response.reply),
        None => Ok(()),
    }
}

/// Adds the pairs that an answer reports.
fn note_reply(pairs: &mut Vec<(u64, u64)>, call: &Call, reply: &Reply) -> Result<(), Memory>
    ensures { OnOk result (pairs.new.items ≡ pairs.old.items ++ pairs_reported call.now reply.now) }
{
    match reply {
        Reply::Some(value) => note_value(pairs, call, *value),
        Reply::Pairs(listed) => note_pairs(pairs, listed.as_slice()),
        Reply::None | Reply::Refused | Reply::Done | Reply::Found | Reply::Other => Ok(()),
    }
}

/// Adds a value at the key of a call, if the call is of one key.
fn note_value(pairs: &mut Vec<(u64, u64)>, call: &Call, value: u64) -> Result<(), Memory>
    ensures { OnOk result (pairs.new.items ≡ pairs.old.items ++ value_reported call.now value) }
{
    if call.low_key() == call.high_key() {
        pairs.push((call.low_key(), value))?;
    }
    Ok(())
}

/// Notes some pairs.
fn note_pairs(pairs: &mut Vec<(u64, u64)>, more: &[(u64, u64)]) -> Result<(), Memory>
    ensures { OnOk result (pairs.new.items ≡ pairs.old.items ++ more.now) }
{
    pairs.extend_from_slice(more)?;
    Ok(())
}
