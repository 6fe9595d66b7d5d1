// The part of calls without order at which they go wrong.
ghost use Rattle.std.specs.Prelude.{◌≡◌, ◌<◌, map, AllPairs, IfOk};
ghost use Rattle.events.specs.Precedence.{NonePrecedesItself};
ghost use Rattle.explain_shrink.specs.Explained.{AreEnough};

use crate::explanation::Without;
use crate::leaving::leave_out;
use events::{Memory, Operation};
use map_object::SortedMap;
use std::alloc::Global;

/// Returns the first calls that have no order, as few as a binary search by their number finds.
pub(crate) fn first_calls(
    alloc: Global,
    map: &SortedMap,
    calls: &[Operation],
    kept: Vec<Operation>,
    budget: u32,
) -> Result<Vec<Operation>, Memory>
    requires rising { AllPairs (λ a b. a.inv < b.inv) calls.now }
    requires apart { NonePrecedesItself calls.now }
    requires enough { AreEnough map.now calls.now kept.items }
    ensures { IfOk result (λ kept. AreEnough map.now calls.now kept.items) }
{
    let mut kept = kept;
    let mut low = 0;
    let mut high = calls.len();
    while low < high {
        let middle = low + (high - low) / 2;
        let places = places_of(alloc, &calls[..middle])?;
        match leave_out(alloc, map, calls, &places, budget)? {
            Without::Rest(rest) => {
                kept = rest;
                high = middle;
            }
            Without::Kept(_) => low = middle + 1,
        }
    }
    Ok(kept)
}

/// How many of the last calls are tried first.
const FEW_CALLS: usize = 8;

/// Returns the last of the calls that have no order: a few of them, or twice, four times as many,
/// and so on.
pub(crate) fn last_calls(
    alloc: Global,
    map: &SortedMap,
    calls: &[Operation],
    kept: Vec<Operation>,
    budget: u32,
) -> Result<Vec<Operation>, Memory>
    requires rising { AllPairs (λ a b. a.inv < b.inv) calls.now }
    requires apart { NonePrecedesItself calls.now }
    requires enough { AreEnough map.now calls.now kept.items }
    ensures { IfOk result (λ kept. AreEnough map.now calls.now kept.items) }
{
    let mut size = FEW_CALLS;
    while size < kept.len() {
        let places = places_of(alloc, &kept[kept.len() - size..])?;
        match leave_out(alloc, map, calls, &places, budget)? {
            Without::Rest(rest) => return Ok(rest),
            Without::Kept(_) => size = size.saturating_mul(2),
        }
    }
    Ok(kept)
}

/// Returns the places of calls.
pub(crate) fn places_of(alloc: Global, calls: &[Operation]) -> Result<Vec<usize>, Memory>
    ensures { IfOk result (λ places. places.items ≡ map (λ a. a.inv) calls.now) }
{
    Ok(calls.iter().map(|call| call.inv).collect(alloc)?)
}
