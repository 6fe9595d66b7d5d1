// Calls whose answers say that they changed nothing.
ghost use Rattle.std.specs.Prelude.{◌≡◌, ◌↔◌, IsTrue};
ghost use Rattle.call_effects.specs.Replies as spec;
ghost use Rattle.call_effects.specs.Replies.{IsRead};

use events::{Call, Operation, Reply};

/// Returns whether a call has ended, and its answer says that it changed nothing.
pub fn is_read(call: &Operation) -> bool
    ensures { IsTrue result ↔ IsRead call.now }
{
    match &call.response {
        Some(response) => says_unchanged(&call.call, &response.reply),
        None => false,
    }
}

/// Returns whether a reply says that the call changed nothing. It does if the call was refused or
/// only reads. It also does if the call put the value that it found, removed nothing, or did not
/// find the value that it was to replace. A replace of a value by the same value changes nothing,
/// whatever it found.
pub fn says_unchanged(call: &Call, reply: &Reply) -> bool
    ensures { result ≡ spec.says_unchanged call.now reply.now }
{
    match (call, reply) {
        (Call::Get(_) | Call::Scan(_, _), _) | (_, Reply::Refused | Reply::Other) => true,
        (Call::Insert(_, value), Reply::Some(found)) => *found == *value,
        (Call::Remove(_), Reply::None) => true,
        (Call::Replace(_, expected, value), Reply::Some(found)) => *found != *expected
            || *expected == *value,
        (Call::Replace(_, _, _), Reply::None) => true,
        (Call::Replace(_, expected, value), Reply::Done | Reply::Found) => *expected == *value,
        _ => false,
    }
}
