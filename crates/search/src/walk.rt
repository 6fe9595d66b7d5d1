// A search, one turn at a time.
ghost use Rattle.std.specs.Prelude.{◌≡◌, ◌<◌, ◌≤◌, length, map, slice_index, All, IfOk};
ghost use Rattle.std.specs.Result.{result_map_both};
ghost use Rattle.search.specs.Exact.{IsExactAnswer};
ghost use Rattle.search.specs.Found.{IsSoundAnswer};
ghost use Rattle.search.specs.Standing.{places, Stands};
ghost use Rattle.search.specs.Turn.{IsTurn, IsTurnAt};
ghost use Rattle.search.specs.declared.walk.Turn.TheVariants.{Done};
ghost use Rattle.search.specs.Limits.{budget_limit};

use crate::found::Found;
use crate::standing::{Progress, Standing, make_step, open_standing};
use events::Memory;
use map_object::SortedMap;
use orders::Segment;
use std::alloc::Global;
use std::marker::Model;

/// A search of a segment that goes on one turn at a time. Contracts see the segment, the budget,
/// the number of configurations counted, and a number that falls at each turn.
#[derive(Drop)]
pub struct Walk {
    segment: Segment,
    budget: u32,
    standing: Standing,
}

impl Model for Walk {
    ghost use Rattle.search.specs.Standing.{Stands};
    ghost use Rattle.search.specs.Walk.{WalkView, walk_at};

    ghost Value = { WalkView };

    ghost view = { λ w. walk_at w.segment w.budget w.standing };

    ghost invariant = { λ w. Stands w.segment.start w.segment.calls w.standing };
}

/// What a turn did.
#[derive(Drop)]
pub enum Turn {
    /// The search goes on.
    Going(Walk),
    /// The search is over.
    Done(Found),
}

impl Walk {
    /// Returns a walk before the first call of a segment, which is copied.
    pub fn open(alloc: Global, segment: &Segment, budget: u32) -> Result<Walk, Memory>
        requires { (1 ≤ budget) × (budget ≤ budget_limit) }
        ensures segment { IfOk result (λ w. w.segment ≡ segment.now) }
        ensures budget { IfOk result (λ w. w.budget ≡ budget) }
        ensures len { IfOk result (λ w. w.len ≡ 1) }
    {
        let standing = begin(alloc, segment)?;
        let segment = segment.copy(alloc)?;
        Ok(Walk {
            segment,
            budget,
            standing,
        })
    }

    /// Returns how many configurations were counted: 1 at the opening.
    pub fn len(&self) -> usize
        ensures { result ≡ self.now.len }
    {
        self.standing.memo.len()
    }

    /// Makes one turn: it tries a call, goes back by one call, or ends the search. A turn costs
    /// what it tries, and does not depend on the length of the segment. On `Memory` the walk is
    /// lost.
    pub fn turn(self, alloc: Global) -> Result<Turn, Memory>
        ensures { IfOk result (IsTurn self) }
    {
        let Walk {
            segment,
            budget,
            mut standing,
        } = self;
        match make_turn(alloc, &segment, budget, &mut standing).transpose() {
            None => Ok(Turn::Going(Walk {
                segment,
                budget,
                standing,
            })),
            Some(found) => end_with(found),
        }
    }
}

/// Ends the search with what it found.
fn end_with(found: Result<Found, Memory>) -> Result<Turn, Memory>
    ensures { result ≡ result_map_both Done (λ memory. memory) found }
{
    Ok(Turn::Done(found?))
}

/// Returns the state before any call of a segment, at its starting pairs.
pub(crate) fn begin(alloc: Global, segment: &Segment) -> Result<Standing, Memory>
    ensures stands { IfOk result (Stands segment.now.start segment.now.calls) }
    ensures one { IfOk result (λ s. length s.memo ≡ 1) }
{
    let map = SortedMap::of(alloc, segment.start())?;
    open_standing(alloc, map, segment.calls())
}

/// Makes one turn of a walk of a segment, and returns what it found if the search is over.
pub(crate) fn make_turn(
    alloc: Global,
    segment: &Segment,
    budget: u32,
    standing: &mut Standing,
) -> Result<Option<Found>, Memory>
    requires { Stands segment.now.start segment.now.calls standing.old }
    ensures { IfOk result (IsTurnAt segment.now budget standing.old standing.new) }
{
    if standing.memo.len() > budget as usize {
        return Ok(Some(Found::Spent));
    }
    match make_step(alloc, segment.calls(), standing)? {
        Progress::Made => Ok(None),
        Progress::Order => {
            let order = order_of(alloc, segment.numbers(), standing)?;
            Ok(Some(Found::Order(order)))
        }
        Progress::NoOrder => Ok(Some(Found::NoOrder)),
    }
}

/// Returns the numbers of the calls taken.
pub(crate) fn order_of(
    alloc: Global,
    numbers: &[u32],
    standing: &Standing,
) -> Result<Vec<u32>, Memory>
    requires { All (λ place. place < length numbers.now) (places standing.now.levels.items) }
    ensures { IfOk result (λ v. v.items ≡ map (λ place. slice_index numbers.now place) (places standing.now.levels.items)) }
{
    let mut order = Vec::with_capacity(alloc, standing.levels.len())?;
    for level in &standing.levels {
        order.push(numbers[level.place as usize])?;
    }
    Ok(order)
}

/// Searches a segment. It returns the least order if there is one, and `NoOrder` if there is none,
/// if the count is at most the budget. It returns `Spent` if the count is greater, and `Memory` if
/// an allocation was refused. It takes calls by rising number, and goes on from each configuration
/// once. The configuration that a call leads to is looked up among those that were met. Nothing
/// recurses: the calls taken are on a stack of the search's own.
pub fn search(alloc: Global, segment: &Segment, budget: u32) -> Result<Found, Memory>
    requires { (1 ≤ budget) × (budget ≤ budget_limit) }
    ensures exact { IfOk result (IsExactAnswer budget segment.now) }
    ensures sound { IfOk result (IsSoundAnswer budget segment.now) }
{
    let mut standing = begin(alloc, segment)?;
    search_on(alloc, segment, budget, &mut standing)
}

/// Searches a segment, from the present state of a walk on.
fn search_on(
    alloc: Global,
    segment: &Segment,
    budget: u32,
    standing: &mut Standing,
) -> Result<Found, Memory>
    requires { Stands segment.now.start segment.now.calls standing.old }
    ensures exact { IfOk result (IsExactAnswer budget segment.now) }
    ensures sound { IfOk result (IsSoundAnswer budget segment.now) }
{
    loop {
        if let Some(found) = make_turn(alloc, segment, budget, standing)? {
            return Ok(found);
        }
    }
}
