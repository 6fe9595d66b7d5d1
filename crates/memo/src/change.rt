// The change that a call makes to a map.
ghost use Rattle.std.specs.Prelude.{◌≡◌};
ghost use Rattle.map_object.specs.MapObject.{after};
ghost use Rattle.memo.specs.Changes.{changed};
ghost use Rattle.memo.specs.Taking.{pairs_left};

use events::{Call, Operation, Reply, Response};
use map_object::SortedMap;

/// A key, and the value that it gets, or none if it loses its value.
#[derive(Clone, Copy)]
pub(crate) struct Change {
    pub(crate) key: u64,
    pub(crate) value: Option<u64>,
}

/// Returns a change that leads from a map to the pairs that a call leaves. There is none only if the
/// call leaves the map as it is.
pub(crate) fn change_of(before: &SortedMap, call: &Operation) -> Option<Change>
    ensures { changed result before.now ≡ pairs_left before.now call.now }
{
    let refused = matches!(
        call.response,
        Some(Response {
            reply: Reply::Refused,
            ..
        })
    );
    if refused {
        return None;
    }
    change_by(before, &call.call)
}

/// The same of a call that is not refused.
fn change_by(before: &SortedMap, call: &Call) -> Option<Change>
    ensures { changed result before.now ≡ after before.now call.now }
{
    match *call {
        Call::Get(_) | Call::Scan(_, _) => None,
        Call::Insert(key, value) => Some(Change {
            key,
            value: Some(value),
        }),
        Call::Remove(key) => Some(Change { key, value: None }),
        Call::Replace(key, expected, replacement) => {
            if before.value(key) == Some(expected) {
                return Some(Change {
                    key,
                    value: Some(replacement),
                });
            }
            None
        }
    }
}
