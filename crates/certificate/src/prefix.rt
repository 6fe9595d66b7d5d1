// The numbers are tested one by one, each against what is remembered of those before it.
ghost use Rattle.std.specs.Prelude.{◌≡◌, ◌+◌, ◌↔◌, if◌then◌else◌, ℕ, List, [], Option, Some, length, vec_len, slice_get};
ghost use Rattle.std.specs.Prelude.{IsTrue, IfNone, IfSome, IfOk, IfErr, OnOk, OnErr};
ghost use Rattle.map_object.specs.MapObject.{Contents, IsRising, after};
ghost use Rattle.orders.specs.Orders.{IsOrder, IsLegalCall, after_call};
ghost use Rattle.certificate.specs.OrderFaults.{IsLeastMissing};
ghost use Rattle.events.specs.Precedence.{is_before};

use crate::fault::OrderFault;
use events::{Memory, Operation, Response};
use map_object::SortedMap;
use orders::{apply, may_come_next};
use std::alloc::Global;

/// What the checker remembers of the first numbers of a list, as long as they show no fault. It is
/// the pairs after their calls, which numbers they are, and the latest of their invocations. A call
/// precedes one of their calls exactly if its response comes before the latest invocation. So no
/// call is looked at twice.
#[derive(Drop)]
pub struct Prefix {
    pub map: SortedMap,
    pub taken: Vec<bool>,
    pub latest: usize,
}

impl Prefix {
    ghost use Rattle.std.specs.Prelude.{take};
    ghost use Rattle.certificate.specs.Faults.{IsRefusedFor};
    ghost use Rattle.certificate.specs.Prefix.{IsPrefixOf};

    /// Returns the state before any number, if the map holds these pairs at the start.
    pub fn new(alloc: Global, start: &[(u64, u64)], calls: &[Operation]) -> Result<Prefix, Memory>
        requires { IsRising start.now }
        ensures { IfOk result (IsPrefixOf start.now calls.now []) }
    {
        Ok(Prefix {
            map: SortedMap::of(alloc, start)?,
            taken: vec![in alloc; false; calls.len()]?,
            latest: 0,
        })
    }

    /// Tests the number at a place, and takes its call if it shows no fault. Otherwise nothing
    /// changes.
    pub fn take(
        &mut self,
        alloc: Global,
        calls: &[Operation],
        place: usize,
        number: u32,
    ) -> Result<(), OrderFault>
        requires { vec_len self.old.taken ≡ length calls.now }
        ensures ok { (start : Contents) (order : List ℕ) → slice_get order place ≡ Some number
            → IsPrefixOf start calls.now (take place order) self.old
            → OnOk result (IsPrefixOf start calls.now (take (place + 1) order) self.new) }
        ensures refused { (start : Contents) (order : List ℕ) → slice_get order place ≡ Some number
            → IsPrefixOf start calls.now (take place order) self.old
            → IfErr result (IsRefusedFor start calls.now order) }
        ensures unchanged { OnErr result (self.new ≡ self.old) }
    {
        let index = number as usize;
        if index >= calls.len() {
            return Err(OrderFault::Unknown { place });
        }
        if self.taken[index] {
            return Err(OrderFault::Repeated { place });
        }
        let call = &calls[index];
        if is_before(&call.response, self.latest) {
            return Err(OrderFault::Precedence { place });
        }
        if !may_come_next(&self.map, call) {
            return Err(OrderFault::Reply { place });
        }
        apply(alloc, &mut self.map, call)?;
        self.taken[index] = true;
        self.latest = self.latest.max(call.inv);
        Ok(())
    }

    /// Returns the least completed call that was not taken.
    pub fn least_missing(&self, calls: &[Operation]) -> Option<usize>
        requires { vec_len self.now.taken ≡ length calls.now }
        ensures none { (start : Contents) (order : List ℕ) → IsPrefixOf start calls.now order self.now
            → IfNone result (IsOrder start calls.now order) }
        ensures missing { (start : Contents) (order : List ℕ) → IsPrefixOf start calls.now order self.now
            → IfSome result (IsLeastMissing start calls.now order) }
    {
        for (number, call) in calls.iter().enumerate() {
            if call.response.is_some() && !self.taken[number] {
                return Some(number);
            }
        }
        None
    }
}

/// Returns whether a response comes before a place.
fn is_before(response: &Option<Response>, place: usize) -> bool
    ensures { result ≡ is_before response.now place }
{
    match response {
        Some(response) => response.res < place,
        None => false,
    }
}
