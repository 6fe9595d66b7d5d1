// A call is answered.
ghost use Rattle.std.specs.Prelude.{◌≡◌, ◌<◌, ◌++◌, true, length, IfOk, OnOk};
ghost use Rattle.follow_orders.specs.Views.{answered, MayBeAnswered};
ghost use Rattle.follow_fronts.specs.Closed.{IsClosed};
ghost use Rattle.follow_fronts.specs.Mending.{HasCompleted};
ghost use Rattle.follow_fronts.specs.Standing.{places, Stands, IsWhole, again_or};
ghost use Rattle.follow_repairs.specs.Searching.{AreCalls};
ghost use Rattle.follow_orders.specs.Answers.{IsAnswer};

use crate::finding::search_on;
use crate::kept::Mended;
use crate::kept_order::StoredOrder;
use events::{Memory, Operation, Response};
use follow_fronts::{Front, mend, push_all, take_back};
use std::alloc::Global;

impl StoredOrder {
    /// Answers a call, and mends the order. At the end of the order that costs one call. At an
    /// earlier place it costs the calls after it, and again those after each place that was tried
    /// in vain. Otherwise it costs searches. `Memory` if memory runs out: then the order is lost.
    pub fn answer(
        self,
        alloc: Global,
        place: usize,
        response: Response,
        budget: u32,
    ) -> Result<Mended, Memory>
        requires { MayBeAnswered self.calls place response }
        ensures { IfOk result (IsAnswer self.start (answered self.calls place response) budget) }
    {
        let StoredOrder {
            mut calls,
            mut front,
        } = self;
        let in_order = answer_in_order(alloc, &mut calls, &mut front, place, response)?;
        if in_order {
            let kept = StoredOrder::keep(calls, front);
            return Ok(Mended::Order(kept));
        }
        search_on(alloc, calls, front, budget)
    }
}

/// Answers a call, and says whether the order goes on with it: where it was, or else at the last
/// place that allows it.
fn answer_in_order(
    alloc: Global,
    calls: &mut [Operation],
    front: &mut Front,
    place: usize,
    response: Response,
) -> Result<bool, Memory>
    requires calls { AreCalls calls.old }
    requires stands { Stands calls.old front.old }
    requires whole { IsWhole calls.old front.old }
    requires answer { MayBeAnswered calls.old place response }
    requires known { place < length calls.old }
    ensures calls { OnOk result (calls.new ≡ answered calls.old place response) }
    ensures are_calls { OnOk result (AreCalls calls.new) }
    ensures stands { OnOk result (Stands calls.new front.new) }
    ensures start { OnOk result (front.new.start ≡ front.old.start) }
    ensures whole { IfOk result (λ done. done ≡ true → IsWhole calls.new front.new) }
{
    let again = take_back(alloc, calls, front, place)?;
    write_answer(calls, place, response);
    let pushed = push_again(alloc, calls, front, place as u32, &again)?;
    Ok(pushed)
}

/// Answers the call at a place.
fn write_answer(calls: &mut [Operation], place: usize, response: Response)
    requires { place < length calls.old }
    ensures { calls.new ≡ answered calls.old place response }
{
    calls[place].response = Some(response);
}

/// Pushes the calls that were taken back, or, if none were, puts the call that was answered, and
/// says whether the order goes on so.
fn push_again(
    alloc: Global,
    calls: &[Operation],
    front: &mut Front,
    place: u32,
    again: &[u32],
) -> Result<bool, Memory>
    requires stands { Stands calls.now front.old }
    requires closed { IsClosed calls.now
        (places front.old.levels.items ++ again_or place again.now) }
    requires complete { HasCompleted calls.now
        (places front.old.levels.items ++ again_or place again.now) }
    ensures stands { OnOk result (Stands calls.now front.new) }
    ensures start { OnOk result (front.new.start ≡ front.old.start) }
    ensures whole { IfOk result (λ whole. whole ≡ true → IsWhole calls.now front.new) }
{
    if again.is_empty() {
        return mend(alloc, calls, front, place);
    }
    let pushed = push_all(alloc, calls, front, again)?;
    Ok(pushed)
}
