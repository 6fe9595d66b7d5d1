// The calls of a history, done again at a map.
ghost use Rattle.std.specs.Prelude.{◌≡◌, ◌↔◌, if◌then◌else◌, IsTrue, OnOk, OnErr};
ghost use Rattle.map_object.specs.MapObject.{Contents, after};
ghost use Rattle.orders.specs.Orders.{IsLegalCall, after_call};

use events::{Call, Memory, Operation, Reply};
use map_object::SortedMap;
use std::alloc::Global;

/// Returns whether a call may come next at a map. A completed call may only if the map gives it its
/// recorded reply, and a pending one always may.
pub fn may_come_next(map: &SortedMap, call: &Operation) -> bool
    ensures { IsTrue result ↔ IsLegalCall map.now call.now.call call.now.response }
{
    match &call.response {
        Some(response) => map.fits(&call.call, &response.reply),
        None => true,
    }
}

/// Does a call at a map. A refused call changes nothing, and nothing changes if memory runs out.
pub fn apply(alloc: Global, map: &mut SortedMap, call: &Operation) -> Result<(), Memory>
    ensures ok { OnOk result (map.new ≡ after_call map.old call.now.call call.now.response) }
    ensures unchanged { OnErr result (map.new ≡ map.old) }
{
    if may_change(call) {
        let _reply = map.step(alloc, &call.call)?;
    }
    Ok(())
}

/// Returns whether a call may change the map. A call that was refused, or that only reads, may not.
fn may_change(call: &Operation) -> bool
    ensures { (m : Contents) → after_call m call.now.call call.now.response
        ≡ (if result then after m call.now.call else m) }
{
    match &call.response {
        Some(response) if matches!(response.reply, Reply::Refused) => false,
        _ => matches!(
            call.call,
            Call::Insert(..) | Call::Remove(..) | Call::Replace(..)
        ),
    }
}
