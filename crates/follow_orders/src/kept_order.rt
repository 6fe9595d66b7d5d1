// An order of calls that is kept.
ghost use Rattle.std.specs.Prelude.{◌≡◌, ◌<◌, ◌++◌, ◌∷◌, [], None, All, IfOk, OnOk, OnErr};
ghost use Rattle.follow_orders.specs.Views.{IsKeptOrder};
ghost use Rattle.follow_fronts.specs.Standing.{places};

use events::{Memory, Operation};
use follow_fronts::{Front, Level};
use map_object::SortedMap;
use std::alloc::Global;
use std::marker::Model;

/// The most calls but one: each has a place of 32 bits.
pub(crate) const CALL_LIMIT: usize = u32::MAX as usize - 1;

/// Calls by rising invocation, some perhaps pending, and a stored order of them. Contracts
/// see the pairs that they start from, the calls, and the order by places.
#[derive(Drop)]
pub struct StoredOrder {
    pub(crate) calls: Vec<Operation>,
    pub(crate) front: Front,
}

impl Model for StoredOrder {
    ghost use Rattle.follow_orders.specs.Views.{StoredOrderView};
    ghost use Rattle.follow_orders.specs.Keeping.{IsKept, view_of};

    ghost Value = { StoredOrderView };

    ghost view = { λ k. view_of k.calls.items k.front };

    ghost invariant = { λ k. IsKept k.calls.items k.front };
}

impl StoredOrder {
    /// The order of no calls.
    pub fn new(alloc: Global, start: SortedMap) -> Result<StoredOrder, Memory>
        ensures { IfOk result (λ kept. kept
            ≡ record { start = start; calls = []; order = [] }) }
    {
        let calls = Vec::new(alloc);
        let front = Front::none(alloc, start, &calls)?;
        Ok(StoredOrder::keep(calls, front))
    }

    /// The pairs that the calls start from.
    pub fn start(&self) -> &SortedMap
        ensures { result.now ≡ self.now.start }
    {
        &self.front.start
    }

    /// The calls, by rising invocation.
    pub fn calls(&self) -> &[Operation]
        ensures calls { result.now ≡ self.now.calls }
        ensures kept { IsKeptOrder self.now }
    {
        &self.calls
    }

    /// The order, by the places of the calls.
    pub fn order(&self, alloc: Global) -> Result<Vec<u32>, Memory>
        ensures order { IfOk result (λ order. order.items ≡ self.now.order) }
        ensures kept { IsKeptOrder self.now }
    {
        order_of(alloc, &self.front.levels)
    }

    /// The pairs, the calls and the order.
    pub fn into_parts(self, alloc: Global) -> Result<(SortedMap, Vec<Operation>, Vec<u32>), Memory>
        ensures start { IfOk result (λ parts. parts.0 ≡ self.start) }
        ensures calls { IfOk result (λ parts. parts.1.items ≡ self.calls) }
        ensures order { IfOk result (λ parts. parts.2.items ≡ self.order) }
        ensures kept { IsKeptOrder self }
    {
        let StoredOrder { calls, front } = self;
        let order = order_of(alloc, &front.levels)?;
        Ok((front.into_start(), calls, order))
    }

    /// A call begins: it is pending, and its invocation is above all others. The order stays.
    /// `Memory` if memory runs out, and at 4,294,967,294 calls, which no memory holds; then nothing
    /// has changed.
    pub fn begin(&mut self, operation: Operation) -> Result<(), Memory>
        requires pending { operation.response ≡ None }
        requires last { All (λ a. a.inv < operation.inv) self.old.calls }
        ensures begun { OnOk result
            (self.new ≡ record self.old { calls = self.old.calls ++ operation ∷ [] }) }
        ensures unchanged { OnErr result (self.new ≡ self.old) }
    {
        if self.calls.len() >= CALL_LIMIT {
            return Err(Memory);
        }
        self.front.taken.push(false)?;
        match self.calls.push(operation) {
            Ok(()) => Ok(()),
            Err(_) => {
                let _last = self.front.taken.pop();
                Err(Memory)
            }
        }
    }
}

impl StoredOrder {
    ghost use Rattle.follow_orders.specs.Keeping.{IsKept, view_of};

    /// The order that a front is.
    pub(crate) fn keep(calls: Vec<Operation>, front: Front) -> StoredOrder
        requires { IsKept calls.items front }
        ensures { result ≡ view_of calls.items front }
    {
        StoredOrder { calls, front }
    }
}

/// The places of a front's calls.
fn order_of(alloc: Global, levels: &[Level]) -> Result<Vec<u32>, Memory>
    ensures { IfOk result (λ order. order.items ≡ places levels.now) }
{
    let mut order = Vec::with_capacity(alloc, levels.len())?;
    for level in levels {
        order.push(level.place)?;
    }
    Ok(order)
}
