// A call is answered that may change the map.
ghost use Rattle.std.specs.Prelude.{◌≡◌, ℕ, ◌+◌, ◌<◌, ◌^◌, ◌++◌, ◌∷◌, true, List, length, map, Some, All, IfOk, IfSome, IsSome, IsSomeAnd, OnOk};
ghost use Rattle.events.specs.declared.operation.Operation.{Operation as Done};
ghost use Rattle.events.specs.declared.operation.Response.{Response as Told};
ghost use Rattle.events.specs.Keys.{may_change};
ghost use Rattle.map_object.specs.MapObject.{Contents};
ghost use Rattle.follow_orders.specs.Views.{StoredOrderView};
ghost use Rattle.follow_laws.specs.KeptSteps.{IsKnownIn};
ghost use Rattle.follow_cuts.specs.PartCuts.{kept_of};
ghost use Rattle.follow_pasts.specs.Pasts.{IsAnswerOf, lefts_of};
ghost use Rattle.follow_pasts.specs.Views.{past_of};
ghost use Rattle.follow_parts.specs.Answering.{HaveGoneOnWith, IsLeftOfOne, IsFirst, IsLeftFirst};
ghost use Rattle.follow_parts.specs.Keeping.{HasEndedBy, IsAnswered, IsStateOf};
ghost use Rattle.follow_parts.specs.Shapes.{IsCallBefore, IsPastBefore};
ghost use Rattle.follow_parts.specs.Steps.{IsRefusedIn, IsReportedAt};

use crate::going::go_on;
use crate::state::{Answered, Parts};
use events::{Memory, Operation};
use follow_cuts::{Found, Past};
use follow_orders::{Mended, StoredOrder};
use follow_pasts::{
    GoneOn, agrees, answer_pasts, any_alive, first_alive, found_of, place_of, was_refused,
};
use std::alloc::Global;

/// The answer of a call that may change the map.
pub(crate) fn answer_change(
    alloc: Global,
    state: Parts,
    operation: Operation,
    budget: u32,
) -> Result<Answered, Memory>
    requires room { state.now + 1 < 2 ^ 64 }
    requires reported { IsReportedAt state.now operation }
    requires changes { may_change operation.call ≡ true }
    ensures answered { (start : Contents) (front back : List Done) (o : Done) (response : Told)
        → IsAnswerOf o response operation
        → IsStateOf start (front ++ o ∷ back) state
        → IfOk result (IsAnswered start budget state (front ++ operation ∷ back)) }
    ensures ended { (start : Contents) (front back : List Done) (o : Done) (response : Told)
        → IsAnswerOf o response operation
        → IsStateOf start (front ++ o ∷ back) state
        → IfOk result (HasEndedBy start state.now (front ++ o ∷ back) o response) }
{
    let (rest, mut parts, reads, now) = state.apart();
    let Some(part) = parts.take_with(operation.call.low_key()) else {
        return Ok(Answered::Unknown);
    };
    let (ranges, first, found, others, tried) = part.apart();
    let Some(gone) = answer_in(alloc, first, found, others, &operation, budget)? else {
        return Ok(Answered::Unknown);
    };
    let state = Parts {
        rest,
        parts,
        reads,
        now: now + 1,
    };
    go_on(alloc, state, ranges, tried, gone)
}

/// The answer of a call in all pasts of a part, and what becomes of them. None if the call is not
/// pending there.
fn answer_in(
    alloc: Global,
    first: StoredOrder,
    mut found: Vec<Found>,
    others: Vec<Past>,
    operation: &Operation,
    budget: u32,
) -> Result<Option<GoneOn>, Memory>
    requires reported { IsSome operation.now.response }
    requires before { (response : Told) → operation.now.response ≡ Some response
        → All (IsPastBefore response.res)
        (past_of first found.items ∷ map kept_of others.items) }
    ensures left { IfOk result (λ after. IfSome after
        (λ gone. All (IsLeftOfOne operation.now
        (past_of first found.items ∷ map kept_of others.items)) (lefts_of gone))) }
    ensures gone { (o : Done) (response : Told) → IsAnswerOf o response operation.now
        → may_change o.call ≡ true
        → All (IsKnownIn o) (past_of first found.items ∷ map kept_of others.items)
        → IfOk result (λ after. IsSomeAnd after (HaveGoneOnWith budget o response
        (past_of first found.items ∷ map kept_of others.items))) }
{
    let others = answer_pasts(alloc, others, operation)?;
    match answer_first(alloc, first, &mut found, operation, budget)? {
        First::Known(kept) => Ok(Some(first_alive(alloc, kept, found, others, budget)?)),
        First::Against => Ok(Some(any_alive(alloc, others, &[], budget)?)),
        First::Unknown => Ok(None),
    }
}

/// What an answer makes of a first past.
#[derive(Drop)]
pub(crate) enum First {
    /// What is known of its calls with the answer: an order, or that they have none.
    Known(Mended),
    /// The call took effect there, and found something else.
    Against,
    /// The call is not pending there.
    Unknown,
}

/// The answer of a call in a first past, and in what its pending calls found.
fn answer_first(
    alloc: Global,
    first: StoredOrder,
    found: &mut Vec<Found>,
    operation: &Operation,
    budget: u32,
) -> Result<First, Memory>
    requires before { (response : Told) → operation.now.response ≡ Some response
        → All (IsCallBefore response.res) first.calls }
    requires reported { IsSome operation.now.response }
    ensures left { IfOk result (IsLeftFirst operation.now first.calls) }
    ensures first { (o : Done) (response : Told) → IsAnswerOf o response operation.now
        → may_change o.call ≡ true
        → IsKnownIn o (past_of first found.old.items)
        → OnOk result (IfOk result
        (IsFirst budget o response (past_of first found.old.items) found.new.items)) }
{
    let Some(place) = place_of(first.calls(), operation.inv) else {
        let Some(own) = found_of(found, operation.inv, operation.call.low_key()) else {
            return Ok(First::Unknown);
        };
        if !agrees(own.value, operation) {
            return Ok(First::Against);
        }
        found.retain(|one| one.inv != operation.inv);
        return Ok(First::Known(Mended::Order(first)));
    };
    if was_refused(operation) {
        return Ok(First::Known(without(alloc, first, place, budget)?));
    }
    let Some(response) = &operation.response else {
        return Ok(First::Unknown);
    };
    if first.calls()[place].response.is_some() {
        return Ok(First::Unknown);
    }
    let response = response.copy(alloc)?;
    let kept = first.answer(alloc, place, response, budget)?;
    Ok(First::Known(kept))
}

/// An order of the calls without the one at a place, which was refused.
fn without(alloc: Global, first: StoredOrder, place: usize, budget: u32) -> Result<Mended, Memory>
    requires { place < length first.calls }
    ensures { IfOk result (IsRefusedIn budget first place) }
{
    let (map, mut calls, order) = first.into_parts(alloc)?;
    let _refused = calls.remove(place);
    let guess = guess_without(alloc, &order, place)?;
    StoredOrder::find(alloc, map, calls, &guess, budget)
}

/// The places of an order once a call has gone from a place.
fn guess_without(alloc: Global, order: &[u32], place: usize) -> Result<Vec<u32>, Memory> {
    let mut guess = Vec::new(alloc);
    for old in order {
        if (*old as usize) < place {
            guess.push(*old)?;
        }
        if place < *old as usize {
            guess.push(*old - 1)?;
        }
    }
    Ok(guess)
}
