// Calls that put values.
ghost use Rattle.std.specs.Prelude.{◌≡◌, ℕ, false, MatchOption};
ghost use Rattle.explain_reads_from.specs.Writers.{writes};
ghost use Rattle.follow_parts.specs.Keeping.{begun, is_reported};
ghost use Rattle.follow_violations.specs.Puts.{IsPutOf};

use events::{Call, Reply};
use explain_reads_from::says_undone;

/// A call that put a value at a key.
#[derive(Clone, Copy, PartialEq, Eq)]
pub struct Put {
    pub key: u64,
    pub value: u64,
    /// The event of its invocation, from 0.
    pub event: usize,
}

/// What a pending call puts at a key if it takes effect: an insert its value, a replace the new one.
/// None if it is neither. The event is that of its invocation.
pub fn put_of(call: &Call, event: usize) -> Option<Put>
    ensures { MatchOption result ((key value : ℕ) → writes (key, value) (begun call.now event) ≡ false)
        (IsPutOf (begun call.now event)) }
{
    let (key, value) = match call {
        Call::Insert(key, value) | Call::Replace(key, _, value) => (*key, *value),
        Call::Get(_) | Call::Remove(_) | Call::Scan(_, _) => return None,
    };
    Some(Put { key, value, event })
}

/// What a call with this answer puts at a key: an insert its value, a replace the new one. None if it
/// is neither, or if the answer says that it was not done.
pub fn put_with(call: &Call, event: usize, reply: &Reply) -> Option<Put>
    ensures { (res : ℕ) → MatchOption result
        ((key value : ℕ) → writes (key, value) (is_reported (begun call.now event) reply.now res) ≡ false)
        (IsPutOf (is_reported (begun call.now event) reply.now res)) }
{
    if says_undone(call, reply) {
        return None;
    }
    put_of(call, event)
}
