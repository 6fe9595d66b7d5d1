// Walks, level by level: all positions of a level have taken equally many calls, reads not counted.
ghost use Rattle.std.specs.Prelude.{◌≡◌, ◌∷◌, ◌++◌, map, All, IfOk, OnOk};
ghost use Rattle.follow_cuts.specs.PartCuts.{AreShaped};
ghost use Rattle.follow_cuts.specs.Positions.{AreEnded, HaveGoneOn, IsAdded, IsFrom, kept_in};

use crate::past::Past;
use crate::position::{Position, are_alike, take};
use crate::stepping::{branch, first_ended, next_read};
use events::Memory;
use std::alloc::{AllocFailed, Global};

/// Goes on from each position of a level, to those of the next level. Positions that have come to
/// the moment are added to those that have ended.
pub(crate) fn next_level(
    alloc: Global,
    pasts: &[Past],
    moment: usize,
    level: Vec<Position>,
    ended: &mut Vec<Position>,
) -> Result<Vec<Position>, Memory>
    requires shaped { AreShaped pasts.now }
    requires from_past { All (IsFrom pasts.now) level.items }
    requires are_ended { AreEnded pasts.now moment ended.old.items }
    ensures { IfOk result (λ next. HaveGoneOn pasts.now moment
        (map (kept_in pasts.now) (level.items ++ ended.old.items)) next.items ended.new.items) }
{
    let mut next = Vec::new(alloc);
    for position in level {
        go_on(alloc, pasts, moment, position, &mut next, ended)?;
    }
    Ok(next)
}

/// Goes on from a position: by reads while there are any, and then by each call that may come next.
fn go_on(
    alloc: Global,
    pasts: &[Past],
    moment: usize,
    position: Position,
    next: &mut Vec<Position>,
    ended: &mut Vec<Position>,
) -> Result<(), Memory>
    requires shaped { AreShaped pasts.now }
    requires from_past { IsFrom pasts.now position }
    requires next_from { All (IsFrom pasts.now) next.old.items }
    requires are_ended { AreEnded pasts.now moment ended.old.items }
    ensures { OnOk result (HaveGoneOn pasts.now moment
        (map (kept_in pasts.now) (position ∷ next.old.items ++ ended.old.items)) next.new.items ended.new.items) }
{
    let calls = pasts[position.base].calls.as_slice();
    let mut position = position;
    for _ in 0..=calls.len() {
        let Some((place, answered)) = first_ended(calls, &position.taken, moment) else {
            add_new(ended, position)?;
            return Ok(());
        };
        match next_read(calls, &position, answered) {
            Some(read) => take(alloc, &mut position, &calls[read], read)?,
            None => return branch(alloc, pasts, &position, place, answered, next),
        }
    }
    add_new(next, position)?;
    Ok(())
}

/// Adds a position to others, if none is alike.
pub(crate) fn add_new(
    positions: &mut Vec<Position>,
    position: Position,
) -> Result<(), AllocFailed<Position>>
    ensures { OnOk result (IsAdded positions.old.items position positions.new.items) }
{
    for other in positions.iter() {
        if are_alike(other, &position) {
            return Ok(());
        }
    }
    positions.push(position)
}
