// The longest of the fronts that a search meets.
ghost use Rattle.std.specs.Prelude.{◌≡◌, ◌≤◌, IfOk, length};
ghost use Rattle.search.specs.LongestFront.{IsFrontOf, IsLongestFront, IsMostTaken};
ghost use Rattle.search.specs.Standing.{Stands};
ghost use Rattle.search.specs.Limits.{budget_limit};

use crate::standing::Standing;
use crate::walk::{begin, make_turn, order_of};
use events::Memory;
use orders::Segment;
use std::alloc::Global;

/// Returns the longest front of a segment that a search of it meets, by the numbers of its calls.
/// It shows how far an order gets. No configuration that the search meets has more calls taken, and
/// of all fronts of this length it is the least, number by number. It costs what the search costs,
/// and a copy of the calls taken whenever more are taken than ever before.
pub fn longest_front(alloc: Global, segment: &Segment, budget: u32) -> Result<Vec<u32>, Memory>
    requires { (1 ≤ budget) × (budget ≤ budget_limit) }
    ensures front { IfOk result (λ v. IsFrontOf segment.now v.items) }
    ensures exact { IfOk result (λ v. IsLongestFront budget segment.now v.items) }
    ensures longest { IfOk result (λ v. IsMostTaken segment.now budget (length v.items)) }
{
    let mut standing = begin(alloc, segment)?;
    longest_from(alloc, segment, budget, &mut standing)
}

/// Returns the longest front of a segment that a new walk of it meets.
fn longest_from(
    alloc: Global,
    segment: &Segment,
    budget: u32,
    standing: &mut Standing,
) -> Result<Vec<u32>, Memory>
    requires budget { (1 ≤ budget) × (budget ≤ budget_limit) }
    requires stands { Stands segment.now.start segment.now.calls standing.old }
    requires one { length standing.old.memo ≡ 1 }
    ensures front { IfOk result (λ v. IsFrontOf segment.now v.items) }
    ensures exact { IfOk result (λ v. IsLongestFront budget segment.now v.items) }
    ensures longest { IfOk result (λ v. IsMostTaken segment.now budget (length v.items)) }
{
    let mut longest = order_of(alloc, segment.numbers(), standing)?;
    loop {
        if let Some(_found) = make_turn(alloc, segment, budget, standing)? {
            return Ok(longest);
        }
        if standing.levels.len() > longest.len() {
            longest = order_of(alloc, segment.numbers(), standing)?;
        }
    }
}
