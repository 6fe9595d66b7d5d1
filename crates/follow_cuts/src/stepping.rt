// The steps of a walk.
ghost use Rattle.std.specs.Prelude.{◌≡◌, ◌↔◌, ◌<◌, ◌≤◌, ℕ, false, length, List, All, AllPairs, IfSome, Some, IsTrue, MatchOption, OnOk};
ghost use Rattle.events.specs.declared.operation.Operation.{Operation as Done};
ghost use Rattle.events.specs.Precedence.{NonePrecedesItself, is_before};
ghost use Rattle.follow_laws.specs.KeyedCalls.{place_of};
ghost use Rattle.follow_laws.specs.Pasts.{KeptPast};
ghost use Rattle.follow_cuts.specs.PartCuts.{AreShaped};
ghost use Rattle.follow_cuts.specs.Positions.{AreAdded, AreNexts, BecomesAfter, IsBranchAt, IsFirstEnded, IsFirstEndedIn, IsFrom, IsLeftAt, IsReadAt, MayComeAt, kept_in};

use crate::branching::{Branching, branching_at, has_branch_key};
use crate::levels::add_new;
use crate::past::Past;
use crate::position::{Position, after_taken, copied, take};
use call_effects::is_read;
use events::{Memory, Operation};
use orders::may_come_next;
use std::alloc::Global;

/// The place of the call that ended first among those left that ended before the moment, and when
/// it ended.
pub(crate) fn first_ended(
    calls: &[Operation],
    taken: &[bool],
    moment: usize,
) -> Option<(usize, usize)>
    requires rising { AllPairs (λ a b. a.inv < b.inv) calls.now }
    requires apart { NonePrecedesItself calls.now }
    requires marks { length taken.now ≡ length calls.now }
    ensures { MatchOption result
        ((n : ℕ) (o : Done) → IsLeftAt calls.now taken.now n o → is_before o.response moment ≡ false)
        (λ found. IsFirstEnded calls.now taken.now found.0 found.1 × (found.1 < moment)) }
{
    let mut first = None;
    let mut earliest = moment;
    let mut place = 0;
    while place < calls.len() {
        if taken[place] {
            place = after_taken(taken, place);
            continue;
        }
        if earliest <= calls[place].inv {
            return first;
        }
        let answered = answer_before(&calls[place], earliest);
        if answered < earliest {
            earliest = answered;
            first = Some((place, answered));
        }
        place += 1;
    }
    first
}

/// When a call ended, if that was before a place, and else the place.
pub(crate) fn answer_before(call: &Operation, place: usize) -> usize
    ensures answer { result < place → place_of call.now.response ≡ Some result }
    ensures late { place ≤ result → is_before call.now.response place ≡ false }
{
    match &call.response {
        Some(response) if response.res < place => response.res,
        _ => place,
    }
}

/// Whether a call may come next: it is left, and began before this answer.
fn may_come(calls: &[Operation], position: &Position, place: usize, answered: usize) -> bool
    requires known { place < length calls.now }
    requires marks { length position.now.taken.items ≡ length calls.now }
    ensures { IsTrue result ↔ MayComeAt answered calls.now position.now place }
{
    let call = &calls[place];
    !position.taken[place] && call.inv <= answered && may_come_next(&position.map, call)
}

/// A read that may come next.
pub(crate) fn next_read(calls: &[Operation], position: &Position, answered: usize) -> Option<usize>
    requires marks { length position.now.taken.items ≡ length calls.now }
    ensures { IfSome result (IsReadAt answered calls.now position.now) }
{
    let mut place = 0;
    while place < calls.len() {
        if position.taken[place] {
            place = after_taken(&position.taken, place);
            continue;
        }
        let call = &calls[place];
        if answered < call.inv {
            return None;
        }
        if !is_read(call) {
            place += 1;
            continue;
        }
        if may_come(calls, position, place, answered) {
            return Some(place);
        }
        place += 1;
    }
    None
}

/// Adds the positions after each call that may come next at some keys, if the call at this place
/// ended first.
pub(crate) fn branch(
    alloc: Global,
    pasts: &[Past],
    position: &Position,
    place: usize,
    answered: usize,
    next: &mut Vec<Position>,
) -> Result<(), Memory>
    requires shaped { AreShaped pasts.now }
    requires from_past { IsFrom pasts.now position.now }
    requires next_from { All (IsFrom pasts.now) next.old.items }
    requires first { IsFirstEndedIn pasts.now position.now place answered }
    ensures { OnOk result ((nexts : List KeptPast) × BecomesAfter answered (kept_in pasts.now position.now) nexts
        × AreAdded pasts.now nexts next.old.items next.new.items) }
{
    let calls = pasts[position.base].calls.as_slice();
    let branching = branching_at(alloc, calls, position, place, answered)?;
    branch_by(alloc, pasts, position, &branching, next)
}

/// Adds the positions after each call that may come next at the keys at which the walk branches.
fn branch_by(
    alloc: Global,
    pasts: &[Past],
    position: &Position,
    branching: &Branching,
    next: &mut Vec<Position>,
) -> Result<(), Memory>
    requires shaped { AreShaped pasts.now }
    requires from_past { IsFrom pasts.now position.now }
    requires next_from { All (IsFrom pasts.now) next.old.items }
    ensures { OnOk result ((nexts : List KeptPast) × AreNexts branching.now (kept_in pasts.now position.now) nexts
        × AreAdded pasts.now nexts next.old.items next.new.items) }
{
    let calls = pasts[position.base].calls.as_slice();
    let mut place = 0;
    while place < calls.len() {
        if position.taken[place] {
            place = after_taken(&position.taken, place);
            continue;
        }
        if branching.answered < calls[place].inv {
            return Ok(());
        }
        if is_branch(calls, position, place, branching) {
            let mut after = copied(alloc, position)?;
            take(alloc, &mut after, &calls[place], place)?;
            add_new(next, after)?;
        }
        place += 1;
    }
    Ok(())
}

/// Whether a call may come next at the keys at which the walk branches.
fn is_branch(calls: &[Operation], position: &Position, place: usize, branching: &Branching) -> bool
    requires known { place < length calls.now }
    requires marks { length position.now.taken.items ≡ length calls.now }
    ensures { IsTrue result ↔ IsBranchAt branching.now calls.now position.now place }
{
    has_branch_key(&calls[place], branching) && may_come(calls, position, place, branching.answered)
}
