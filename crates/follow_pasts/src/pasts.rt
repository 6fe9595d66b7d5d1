// What an answer makes of pasts.
ghost use Rattle.std.specs.Prelude.{◌≡◌, ◌≢◌, ◌⊎◌, ℕ, ◌<◌, ◌++◌, ◌∷◌, true, false, List, map, slice_get, All, AllPairs, Any, Contains, IfOk, IsSomeAnd, IsTrue, MatchOption, OnOk};
ghost use Rattle.events.specs.declared.operation.Operation.{Operation as Done};
ghost use Rattle.events.specs.declared.operation.Response.{Response as Told};
ghost use Rattle.events.specs.Keys.{low_key, may_change};
ghost use Rattle.map_object.specs.MapObject.{Contents};
ghost use Rattle.follow_laws.specs.KeyedCalls.{effect_at, is_refused};
ghost use Rattle.follow_orders.specs.Answers.{IsAnswer};
ghost use Rattle.follow_laws.specs.Pasts.{KeptPast};
ghost use Rattle.follow_laws.specs.Events.{AreAfterAnswer, IsAfterAnswer};
ghost use Rattle.follow_laws.specs.KeptSteps.{IsKnownIn};
ghost use Rattle.follow_cuts.specs.PartCuts.{AreShaped, found_at, kept_of};
ghost use Rattle.follow_pasts.specs.Pasts.{AreGoneOn, AreLeftAfter, IsAnswerOf, IsPlaceFor, kept_if, lefts, lefts_of, lefts_of_kept};

use call_effects::may_be_answered;
use events::{Memory, Operation, Reply};
use follow_cuts::{Found, Past};
use follow_orders::{Mended, StoredOrder};
use std::alloc::Global;

/// What becomes of pasts.
#[derive(Drop)]
pub enum GoneOn {
    /// One has an order of its calls; these are the others after it.
    Alive {
        first: StoredOrder,
        found: Vec<Found>,
        others: Vec<Past>,
    },
    /// None has an order. Here they are again.
    Dead(Vec<Past>),
    /// Those before one are dead, and the search of that one is beyond the budget. Here are all of
    /// them again.
    Doubtful(Vec<Past>),
}

/// The first of the pasts that has an order, and those after it. `kept` is what is known of the
/// calls of the first of them, `found` what its pending calls found.
pub fn first_alive(
    alloc: Global,
    kept: Mended,
    found: Vec<Found>,
    mut others: Vec<Past>,
    budget: u32,
) -> Result<GoneOn, Memory>
    requires { AreShaped others.items }
    ensures left { IfOk result (λ gone. All (Contains (lefts_of_kept kept ++ lefts others.items))
        (lefts_of gone)) }
    ensures gone { (pairs : Contents) (calls : List Done) → IsAnswer pairs calls budget kept
        → IfOk result (AreGoneOn budget (record {
          pairs = pairs;
          left = calls;
          found = map found_at found.items;
        } ∷ map kept_of others.items)) }
{
    let mut kept = kept;
    let mut found = found;
    let mut tried = Vec::new(alloc);
    loop {
        match kept {
            Mended::Order(first) => return Ok(GoneOn::Alive {
                first,
                found,
                others,
            }),
            Mended::Spent { start, calls } => {
                tried.push(Past {
                    map: start,
                    calls,
                    found,
                })?;
                add_pasts(&mut tried, others)?;
                return Ok(GoneOn::Doubtful(tried));
            }
            Mended::NoOrder { start, calls } => tried.push(Past {
                map: start,
                calls,
                found,
            })?,
        }
        if others.is_empty() {
            return Ok(GoneOn::Dead(tried));
        }
        let (map, calls, next) = others.remove(0).into_parts();
        found = next;
        kept = StoredOrder::find(alloc, map, calls, &[], budget)?;
    }
}

/// The first of these pasts that has an order, and those after it. `guess` is an order that is
/// tried first for the first of them.
pub fn any_alive(
    alloc: Global,
    mut pasts: Vec<Past>,
    guess: &[u32],
    budget: u32,
) -> Result<GoneOn, Memory>
    requires { AreShaped pasts.items }
    ensures left { IfOk result (λ gone. All (Contains (lefts pasts.items)) (lefts_of gone)) }
    ensures gone { IfOk result (AreGoneOn budget (map kept_of pasts.items)) }
{
    if pasts.is_empty() {
        return Ok(GoneOn::Dead(pasts));
    }
    let (map, calls, found) = pasts.remove(0).into_parts();
    let kept = StoredOrder::find(alloc, map, calls, guess, budget)?;
    first_alive(alloc, kept, found, pasts, budget)
}

/// Adds pasts after others.
fn add_pasts(pasts: &mut Vec<Past>, others: Vec<Past>) -> Result<(), Memory>
    ensures { OnOk result (pasts.new.items ≡ pasts.old.items ++ others.items) }
{
    for other in others {
        pasts.push(other)?;
    }
    Ok(())
}

/// The place of the call with an invocation, in calls by rising invocation.
pub fn place_of(calls: &[Operation], inv: usize) -> Option<usize>
    requires { AllPairs (λ a b. a.inv < b.inv) calls.now }
    ensures { MatchOption result (All (λ a. a.inv ≢ inv) calls.now)
        (λ place. IsSomeAnd (slice_get calls.now place) (λ a. a.inv ≡ inv)) }
{
    let place = place_for(calls, inv);
    if place < calls.len() && calls[place].inv == inv {
        return Some(place);
    }
    None
}

/// The place for a call with an invocation, in calls by rising invocation.
pub fn place_for(calls: &[Operation], inv: usize) -> usize
    requires { AllPairs (λ a b. a.inv < b.inv) calls.now }
    ensures { IsPlaceFor calls.now inv result }
{
    calls.partition_point(|call| call.inv < inv)
}

/// Whether a call was refused.
pub fn was_refused(operation: &Operation) -> bool
    ensures { result ≡ is_refused operation.now.response }
{
    match &operation.response {
        Some(response) => match response.reply {
            Reply::Refused => true,
            _ => false,
        },
        None => false,
    }
}

/// What a call found at a key when it took effect.
pub fn found_of(found: &[Found], inv: usize, key: u64) -> Option<Found>
    ensures { MatchOption result (All (λ f. f.inv ≡ inv → f.key ≢ key) found.now)
        (λ f. Contains found.now f × (f.inv ≡ inv) × (f.key ≡ key)) }
{
    for one in found {
        if one.inv == inv && one.key == key {
            return Some(*one);
        }
    }
    None
}

/// Whether the answer of a call that may change the map fits what the call found at its key.
pub fn agrees(value: Option<u64>, operation: &Operation) -> bool
    ensures refused { is_refused operation.now.response ≡ true → result ≡ false }
    ensures fits { is_refused operation.now.response ≡ false
        → may_change operation.now.call ≡ true
        → result ≡ (effect_at operation.now.call operation.now.response
        (low_key operation.now.call)).fits value }
{
    !was_refused(operation) && may_be_answered(value, operation)
}

/// Pasts with the answer of a call that may change the map.
pub fn answer_pasts(
    alloc: Global,
    pasts: Vec<Past>,
    operation: &Operation,
) -> Result<Vec<Past>, Memory>
    requires { AreShaped pasts.items }
    ensures left { IfOk result (λ nexts. All (λ next. Any (λ past. AreLeftAfter operation.now
        past.left next.left) (map kept_of pasts.items)) (map kept_of nexts.items)) }
    ensures after { (o : Done) (response : Told) → IsAnswerOf o response operation.now
        → may_change o.call ≡ true
        → All (IsKnownIn o) (map kept_of pasts.items)
        → IfOk result (λ nexts. AreAfterAnswer o response (map kept_of pasts.items)
        (map kept_of nexts.items)) }
{
    let mut left = Vec::new(alloc);
    for past in pasts {
        if let Some(past) = answer_past(alloc, past, operation)? {
            left.push(past)?;
        }
    }
    Ok(left)
}

/// A past with the answer of a call that may change the map, unless it contradicts what the call
/// found there.
fn answer_past(alloc: Global, past: Past, operation: &Operation) -> Result<Option<Past>, Memory>
    requires { AllPairs (λ a b. a.inv < b.inv) past.calls.items }
    ensures left { IfOk result (λ next. All (λ p. AreLeftAfter operation.now past.calls.items
        p.left) (kept_if next)) }
    ensures after { (o : Done) (response : Told) → IsAnswerOf o response operation.now
        → may_change o.call ≡ true → IsKnownIn o (kept_of past)
        → IfOk result (λ next. IsAfterAnswer o response (kept_of past) (kept_if next)) }
{
    let (map, mut calls, mut found) = past.into_parts();
    match place_of(&calls, operation.inv) {
        Some(place) => {
            if was_refused(operation) {
                let _refused = calls.remove(place);
            } else {
                calls[place] = operation.copy(alloc)?;
            }
        }
        None => {
            let Some(own) = found_of(&found, operation.inv, operation.call.low_key()) else {
                return Ok(None);
            };
            if !agrees(own.value, operation) {
                return Ok(None);
            }
            found.retain(|one| one.inv != operation.inv);
        }
    }
    Ok(Some(Past { map, calls, found }))
}
