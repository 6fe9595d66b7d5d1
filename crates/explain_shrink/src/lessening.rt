// Leaves out calls of a list without order, as many at a time as asked.
ghost use Rattle.std.specs.Prelude.{◌≡◌, ◌<◌, ◌≤◌, AllPairs, IfOk};
ghost use Rattle.events.specs.Precedence.{NonePrecedesItself};
ghost use Rattle.explain_shrink.specs.Explained.{AreEnough, IsReduction, others_than};

use crate::explanation::{Reason, Reduction, Without};
use crate::leaving::leave_out;
use events::{Memory, Operation};
use map_object::SortedMap;
use std::alloc::Global;

/// Tries to leave out this many of the calls at a time, each once: first those with the greatest
/// keys, and at one key the last ones.
pub(crate) fn lessen(
    alloc: Global,
    map: &SortedMap,
    calls: &[Operation],
    kept: Vec<Operation>,
    size: usize,
    budget: u32,
) -> Result<Vec<Operation>, Memory>
    requires some { 1 ≤ size }
    requires rising { AllPairs (λ a b. a.inv < b.inv) calls.now }
    requires apart { NonePrecedesItself calls.now }
    requires enough { AreEnough map.now calls.now kept.items }
    ensures { IfOk result (λ kept. AreEnough map.now calls.now kept.items) }
{
    let mut kept = kept;
    let mut at = kept.len();
    while at > 0 {
        let from = at.saturating_sub(size);
        let places = places_outside(alloc, &kept, from, at)?;
        at = from;
        match leave_out(alloc, map, calls, &places, budget)? {
            Without::Rest(rest) => kept = rest,
            Without::Kept(_) => {}
        }
    }
    Ok(kept)
}

/// Returns the places of the calls except some, counted by rising key, and at one key by rising
/// invocation.
fn places_outside(
    alloc: Global,
    calls: &[Operation],
    from: usize,
    to: usize,
) -> Result<Vec<usize>, Memory> {
    let mut sorted = Vec::new(alloc);
    for call in calls {
        sorted.push((call.call.low_key(), call.inv))?;
    }
    sorted.sort()?;
    let mut places = Vec::new(alloc);
    for (number, (_, place)) in sorted.iter().enumerate() {
        if number < from || to <= number {
            places.push(*place)?;
        }
    }
    Ok(places)
}

/// Tries to leave out each of the calls.
pub(crate) fn look_at_each(
    alloc: Global,
    map: &SortedMap,
    calls: &[Operation],
    kept: &[Operation],
    budget: u32,
) -> Result<Reduction, Memory>
    requires rising { AllPairs (λ a b. a.inv < b.inv) calls.now }
    requires apart { NonePrecedesItself calls.now }
    ensures { IfOk result (IsReduction map.now calls.now kept.now budget) }
{
    let mut reasons = Vec::new(alloc);
    for call in kept {
        let places = others_than(alloc, kept, call.inv)?;
        match leave_out(alloc, map, calls, &places, budget)? {
            Without::Rest(rest) => return Ok(Reduction::Less(rest)),
            Without::Kept(reason) => reasons.push(reason)?,
        }
    }
    Ok(Reduction::Least(reasons))
}

/// Returns the places of all these calls except one.
fn others_than(alloc: Global, kept: &[Operation], place: usize) -> Result<Vec<usize>, Memory>
    ensures { IfOk result (λ places. places.items ≡ others_than kept.now place) }
{
    let mut places = Vec::new(alloc);
    for call in kept {
        if call.inv != place {
            places.push(call.inv)?;
        }
    }
    Ok(places)
}
