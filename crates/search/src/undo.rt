// A call done on the map, and undone.
ghost use Rattle.std.specs.Prelude.{◌≡◌, IfOk, OnOk};
ghost use Rattle.orders.specs.Orders.{after_call};
ghost use Rattle.map_object.specs.MapObject.{after};
ghost use Rattle.search.specs.Undo.{undone, restoring};

use events::{Call, Memory, Operation, Reply, Response};
use map_object::SortedMap;
use std::alloc::Global;

/// Does a call that may come next, and returns the call that undoes it, or none if it changes
/// nothing.
pub fn take_call(
    alloc: Global,
    map: &mut SortedMap,
    operation: &Operation,
) -> Result<Option<Call>, Memory>
    ensures after { OnOk result
        (map.new ≡ after_call map.old operation.now.call operation.now.response) }
    ensures undo { IfOk result (λ undo. undone map.new undo ≡ map.old) }
{
    let refused = matches!(
        operation.response,
        Some(Response {
            reply: Reply::Refused,
            ..
        })
    );
    if refused {
        return Ok(None);
    }
    do_call(alloc, map, &operation.call)
}

/// Does a call, and says which call undoes it.
fn do_call(alloc: Global, map: &mut SortedMap, call: &Call) -> Result<Option<Call>, Memory>
    ensures after { OnOk result (map.new ≡ after map.old call.now) }
    ensures undo { IfOk result (λ undo. undone map.new undo ≡ map.old) }
{
    let key = match *call {
        Call::Get(_) | Call::Scan(_, _) => return Ok(None),
        Call::Insert(key, _) | Call::Remove(key) | Call::Replace(key, _, _) => key,
    };
    let undo = restoring_call(key, map.value(key));
    let _reply = map.step(alloc, call)?;
    Ok(Some(undo))
}

/// Returns the call that gives a key its old value back, or none.
fn restoring_call(key: u64, value: Option<u64>) -> Call
    ensures { result ≡ restoring key value }
{
    match value {
        Some(value) => Call::Insert(key, value),
        None => Call::Remove(key),
    }
}

/// Undoes a call.
pub fn undo_call(alloc: Global, map: &mut SortedMap, undo: Option<Call>) -> Result<(), Memory>
    ensures { OnOk result (map.new ≡ undone map.old undo) }
{
    if let Some(call) = undo {
        let _reply = map.step(alloc, &call)?;
    }
    Ok(())
}
