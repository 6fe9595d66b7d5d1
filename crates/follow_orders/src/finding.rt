// An order of calls is found.
ghost use Rattle.std.specs.Prelude.{◌≡◌, ◌<◌, ◌≤◌, true, length, AllPairs, IfOk};
ghost use Rattle.events.specs.Precedence.{NonePrecedesItself};
ghost use Rattle.orders.specs.Orders.{IsOrder};
ghost use Rattle.follow_orders.specs.Answers.{HaveNoOverlap, IsAnswer};
ghost use Rattle.follow_fronts.specs.Standing.{places, Stands};
ghost use Rattle.follow_repairs.specs.Searching.{AreCalls};

use crate::kept::Mended;
use crate::kept_order::StoredOrder;
use call_effects::is_ended;
use events::{Memory, Operation};
use follow_fronts::{Front, follow, is_whole, push_all};
use follow_repairs::search_tails;
use map_object::SortedMap;
use reduced_search::{SearchEnd, search_calls};
use std::alloc::Global;

impl StoredOrder {
    /// An order of calls by rising invocation, if they have one. `guess` has places of calls in the
    /// order in which they are tried first. Any numbers are allowed: one that names no call, or
    /// a call that may not come next, is passed over. `Memory` if memory runs out, and at
    /// 4,294,967,295 calls or more, which no memory holds.
    pub fn find(
        alloc: Global,
        start: SortedMap,
        calls: Vec<Operation>,
        guess: &[u32],
        budget: u32,
    ) -> Result<Mended, Memory>
        requires rising { AllPairs (λ a b. a.inv < b.inv) calls.items }
        requires apart { NonePrecedesItself calls.items }
        ensures { IfOk result (IsAnswer start calls.items budget) }
    {
        if calls.len() >= u32::MAX as usize {
            return Err(Memory);
        }
        let front = guessed(alloc, start, &calls, guess)?;
        let whole = is_whole(&calls, &front);
        if whole {
            let kept = StoredOrder::keep(calls, front);
            return Ok(Mended::Order(kept));
        }
        search_on(alloc, calls, front, budget)
    }
}

/// The front that a guess leads to.
fn guessed(
    alloc: Global,
    start: SortedMap,
    calls: &[Operation],
    guess: &[u32],
) -> Result<Front, Memory>
    requires rising { AllPairs (λ a b. a.inv < b.inv) calls.now }
    requires apart { NonePrecedesItself calls.now }
    ensures stands { IfOk result (Stands calls.now) }
    ensures start { IfOk result (λ front. front.start ≡ start) }
{
    let mut front = Front::none(alloc, start, calls)?;
    follow(alloc, calls, &mut front, guess)?;
    Ok(front)
}

/// Searches for an order from a front: near its end first, and last from the first call on.
pub(crate) fn search_on(
    alloc: Global,
    calls: Vec<Operation>,
    mut front: Front,
    budget: u32,
) -> Result<Mended, Memory>
    requires calls { AreCalls calls.items }
    requires stands { Stands calls.items front }
    ensures { IfOk result (IsAnswer front.start calls.items budget) }
{
    let found = search_tails(alloc, &calls, &mut front, budget)?;
    if found {
        let kept = StoredOrder::keep(calls, front);
        return Ok(Mended::Order(kept));
    }
    search_all(alloc, front.into_start(), calls, budget)
}

/// Searches all calls.
fn search_all(
    alloc: Global,
    start: SortedMap,
    calls: Vec<Operation>,
    budget: u32,
) -> Result<Mended, Memory>
    requires { AreCalls calls.items }
    ensures { IfOk result (IsAnswer start calls.items budget) }
{
    let map = start.copy(alloc)?;
    let budget = budget_for(&calls, budget);
    match search_calls(alloc, map, &calls, budget)? {
        SearchEnd::Order(order) => {
            let front = front_of(alloc, start, &calls, &order)?;
            let kept = StoredOrder::keep(calls, front);
            Ok(Mended::Order(kept))
        }
        SearchEnd::NoOrder => Ok(Mended::NoOrder { start, calls }),
        SearchEnd::Spent => Ok(Mended::Spent { start, calls }),
    }
}

/// The budget for a search of calls. It is enough if no two of them overlap, since there is then one
/// more configuration than calls.
fn budget_for(calls: &[Operation], budget: u32) -> u32
    requires { AreCalls calls.now }
    ensures least { budget ≤ result }
    ensures enough { HaveNoOverlap calls.now → length calls.now < result }
{
    if have_no_overlap(calls) {
        return budget.max(calls.len() as u32 + 1);
    }
    budget
}

/// Whether each call ended before the next one began. It is false only if some calls overlap.
fn have_no_overlap(calls: &[Operation]) -> bool
    requires { AllPairs (λ a b. a.inv < b.inv) calls.now }
    ensures { HaveNoOverlap calls.now → result ≡ true }
{
    for place in 1..calls.len() {
        if !is_ended(&calls[place - 1], calls[place].inv) {
            return false;
        }
    }
    true
}

/// The front of an order.
fn front_of(
    alloc: Global,
    start: SortedMap,
    calls: &[Operation],
    order: &[u32],
) -> Result<Front, Memory>
    requires apart { NonePrecedesItself calls.now }
    requires order { IsOrder start calls.now order.now }
    ensures stands { IfOk result (Stands calls.now) }
    ensures start { IfOk result (λ front. front.start ≡ start) }
    ensures order { IfOk result (λ front. places front.levels.items ≡ order.now) }
{
    let mut front = Front::none(alloc, start, calls)?;
    let pushed = push_all(alloc, calls, &mut front, order)?;
    if pushed {
        return Ok(front);
    }
    unreachable!()
}
