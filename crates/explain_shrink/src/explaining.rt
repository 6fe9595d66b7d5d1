// The explanation of calls without order.
ghost use Rattle.std.specs.Prelude.{◌≡◌, ◌<◌, AllPairs, IfOk};
ghost use Rattle.events.specs.Precedence.{NonePrecedesItself};
ghost use Rattle.orders.specs.Orders.{IsLinearizable};
ghost use Rattle.explain_shrink.specs.Explained.{AreEnough, IsExplanation, few_configurations};

use crate::ends::{first_calls, last_calls};
use crate::explanation::{Explanation, Reduction};
use crate::lessening::{lessen, look_at_each};
use events::{Memory, Operation};
use map_object::SortedMap;
use std::alloc::Global;

/// Explains why calls have no order from a map, if it is known that they have none. Returns a few
/// calls that have none. They show that all have none, and each of them is needed. The calls are
/// sorted by rising invocation, and may have any places. The explanation names a call by its
/// invocation. Each search may meet as many configurations as the budget. For n calls that leave r
/// it makes about log n + 6 r searches, if a few neighbouring calls go wrong, and seldom more than
/// n.
pub fn explain_calls(
    alloc: Global,
    map: &SortedMap,
    calls: &[Operation],
    budget: u32,
) -> Result<Explanation, Memory>
    requires rising { AllPairs (λ a b. a.inv < b.inv) calls.now }
    requires apart { NonePrecedesItself calls.now }
    requires none { IsLinearizable map.now calls.now → ⊥ }
    ensures { IfOk result (IsExplanation map.now calls.now budget) }
{
    let kept = leave_out_runs(alloc, map, calls, budget)?;
    least_of(alloc, map, calls, kept, budget)
}

/// Leaves out calls one by one, until none of those that stay can be left out.
pub(crate) fn least_of(
    alloc: Global,
    map: &SortedMap,
    calls: &[Operation],
    kept: Vec<Operation>,
    budget: u32,
) -> Result<Explanation, Memory>
    requires rising { AllPairs (λ a b. a.inv < b.inv) calls.now }
    requires apart { NonePrecedesItself calls.now }
    requires enough { AreEnough map.now calls.now kept.items }
    ensures { IfOk result (IsExplanation map.now calls.now budget) }
{
    let mut kept = kept;
    loop {
        match look_at_each(alloc, map, calls, &kept, budget)? {
            Reduction::Less(rest) => kept = rest,
            Reduction::Least(reasons) => return Ok(Explanation {
                calls: kept,
                reasons,
            }),
        }
    }
}

/// Returns the most configurations that a search meets if it is to leave out many calls at once.
pub(crate) fn few_configurations(budget: u32) -> u32
    ensures { result ≡ few_configurations budget }
{
    if budget < 16_384 { budget } else { 16_384 }
}

/// Leaves out the last calls, then the first ones, then those between by halves, quarters and so
/// on, if short searches show that the others have no order.
fn leave_out_runs(
    alloc: Global,
    map: &SortedMap,
    calls: &[Operation],
    budget: u32,
) -> Result<Vec<Operation>, Memory>
    requires rising { AllPairs (λ a b. a.inv < b.inv) calls.now }
    requires apart { NonePrecedesItself calls.now }
    requires none { IsLinearizable map.now calls.now → ⊥ }
    ensures { IfOk result (λ kept. AreEnough map.now calls.now kept.items) }
{
    let few = few_configurations(budget);
    let first = first_calls(alloc, map, calls, copies_of(alloc, calls)?, few)?;
    let kept = last_calls(alloc, map, calls, first, few)?;
    by_halves(alloc, map, calls, kept, few)
}

/// Leaves out calls by halves, quarters and so on.
pub(crate) fn by_halves(
    alloc: Global,
    map: &SortedMap,
    calls: &[Operation],
    kept: Vec<Operation>,
    budget: u32,
) -> Result<Vec<Operation>, Memory>
    requires rising { AllPairs (λ a b. a.inv < b.inv) calls.now }
    requires apart { NonePrecedesItself calls.now }
    requires enough { AreEnough map.now calls.now kept.items }
    ensures { IfOk result (λ kept. AreEnough map.now calls.now kept.items) }
{
    let mut kept = kept;
    let mut size = kept.len() / 2;
    while size > 0 {
        kept = lessen(alloc, map, calls, kept, size, budget)?;
        size /= 2;
    }
    Ok(kept)
}

fn copies_of(alloc: Global, calls: &[Operation]) -> Result<Vec<Operation>, Memory>
    ensures { IfOk result (λ copies. copies.items ≡ calls.now) }
{
    let mut copies = Vec::with_capacity(alloc, calls.len())?;
    for call in calls {
        copies.push(call.copy(alloc)?)?;
    }
    Ok(copies)
}
