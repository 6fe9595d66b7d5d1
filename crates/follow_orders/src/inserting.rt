// A completed call is inserted.
ghost use Rattle.std.specs.Prelude.{◌≡◌, ◌≢◌, ◌<◌, ◌≤◌, ◌+◌, ◌^◌, true, length, take, drop, All, AllPairs, IfOk, OnOk};
ghost use Rattle.follow_orders.specs.Views.{MayCome, HasCome};
ghost use Rattle.follow_fronts.specs.Standing.{Stands, IsWhole};
ghost use Rattle.follow_repairs.specs.Searching.{AreCalls};
ghost use Rattle.follow_orders.specs.Answers.{IsAnswerWith};

use crate::finding::search_on;
use crate::kept::Mended;
use crate::kept_order::{CALL_LIMIT, StoredOrder};
use crate::moving::make_room;
use events::{Memory, Operation};
use follow_fronts::{Front, mend};
use std::alloc::Global;

impl StoredOrder {
    /// Inserts a completed call at its place by rising invocation, such as a scan that is one of
    /// the calls only from its answer on. The places from there on rise by one, and the order is
    /// mended. At the end of the order that costs a pass over the calls after its place, and over
    /// those in the order after the last that ended before it began. At an earlier place of the
    /// order it also costs the calls after it, and again those of each try in vain. Otherwise it
    /// costs searches too. `Memory` if memory runs out, and at 4,294,967,294 calls, which no memory
    /// holds: then the order is lost.
    pub fn insert(self, alloc: Global, operation: Operation, budget: u32) -> Result<Mended, Memory>
        requires { MayCome self.calls operation }
        ensures { IfOk result (IsAnswerWith operation self.start self.calls budget) }
    {
        let StoredOrder {
            mut calls,
            mut front,
        } = self;
        if calls.len() >= CALL_LIMIT {
            return Err(Memory);
        }
        let in_order = insert_in_order(alloc, &mut calls, &mut front, operation)?;
        if in_order {
            let kept = StoredOrder::keep(calls, front);
            return Ok(Mended::Order(kept));
        }
        search_on(alloc, calls, front, budget)
    }
}

/// Inserts a completed call, and says whether the order goes on with it: at its end, or else at the
/// last place that allows it.
fn insert_in_order(
    alloc: Global,
    calls: &mut Vec<Operation>,
    front: &mut Front,
    operation: Operation,
) -> Result<bool, Memory>
    requires calls { AreCalls calls.old.items }
    requires room { length calls.old.items + 2 < 2 ^ 32 }
    requires stands { Stands calls.old.items front.old }
    requires whole { IsWhole calls.old.items front.old }
    requires comes { MayCome calls.old.items operation }
    ensures came { OnOk result (HasCome operation calls.old.items calls.new.items) }
    ensures are_calls { OnOk result (AreCalls calls.new.items) }
    ensures stands { OnOk result (Stands calls.new.items front.new) }
    ensures start { OnOk result (front.new.start ≡ front.old.start) }
    ensures whole { IfOk result (λ done. done ≡ true → IsWhole calls.new.items front.new) }
{
    let place = place_for(calls, operation.inv);
    make_room(front, calls, place, operation.inv)?;
    calls.insert(place, operation)?;
    let placed = mend(alloc, calls, front, place as u32)?;
    Ok(placed)
}

/// The place of a call among the calls, by rising invocation.
fn place_for(calls: &[Operation], inv: usize) -> usize
    requires rising { AllPairs (λ a b. a.inv < b.inv) calls.now }
    requires other { All (λ a. a.inv ≢ inv) calls.now }
    ensures within { result ≤ length calls.now }
    ensures less { All (λ a. a.inv < inv) (take result calls.now) }
    ensures greater { All (λ a. inv < a.inv) (drop result calls.now) }
{
    calls.partition_point(|call| call.inv < inv)
}
