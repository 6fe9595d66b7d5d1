// Laws of the work of a call in a run: each function only carries its clause.
ghost use Rattle.art_schedules.specs.effects.Laws.{LeaversHoldReached, LeaversStep, OthersKeepEnds, OthersKeepWork, WorkBegins};
ghost use Rattle.art_schedules.specs.effects.Laws.{WorkersHoldReached};
ghost use Rattle.art_schedules.specs.effects.Laws.{EffectsBringTheirs, FreshIsClaimed, WorkersStep};
ghost use Rattle.art_schedules.specs.effects.Laws.{EndersGoOn, ObsoleteRowsHang, OthersKeepMarked, WorkersGoOn, WorkersMayHaveNoMark};
ghost use Rattle.art_schedules.specs.effects.Laws.{WorkersOnlyWork};

use crate::laws::changes::{effects_follow, kept_trees_follow, ways_say_values};
use crate::laws::trees::children_are_read;
use crate::laws::work::work_is_done;

/// A call whose work begins is at work.
pub fn work_begins()
    ensures { WorkBegins }
{}

/// A call at work holds only rows of calm's tree.
pub fn workers_hold_reached()
    ensures { WorkersHoldReached }
{}

/// A call that only releases rows holds only rows that are reached.
pub fn leavers_hold_reached()
    ensures { LeaversHoldReached }
{}

/// A step of another process keeps a call at work.
pub fn others_keep_work()
    ensures { OthersKeepWork }
{
    children_are_read();
}

/// A step of another process keeps a call that only releases rows.
pub fn others_keep_ends()
    ensures { OthersKeepEnds }
{
    children_are_read();
}

/// A step of a call at work keeps calm's tree, or takes the call's effect on the map.
pub fn workers_step()
    ensures { WorkersStep }
{
    children_are_read();
    kept_trees_follow();
    effects_follow();
    ways_say_values();
    work_is_done();
}

/// A step of a call that only releases rows keeps calm's tree.
pub fn leavers_step()
    ensures { LeaversStep }
{
    children_are_read();
    kept_trees_follow();
    effects_follow();
    ways_say_values();
}

/// The fresh row of a call at work was claimed.
pub fn fresh_is_claimed()
    ensures { FreshIsClaimed }
{}

/// An effect brings no row into the tree that is another call's fresh one.
pub fn effects_bring_theirs()
    ensures { EffectsBringTheirs }
{}

/// A call at work may have no mark.
pub fn workers_may_have_no_mark()
    ensures { WorkersMayHaveNoMark }
{}

/// A step of a call at work carries its mark on: the row that the call made obsolete leaves calm's
/// tree by its effect.
pub fn workers_go_on()
    ensures { WorkersGoOn }
{
    children_are_read();
    kept_trees_follow();
    effects_follow();
    ways_say_values();
    work_is_done();
}

/// A step of another process keeps a call at work with its mark.
pub fn others_keep_marked()
    ensures { OthersKeepMarked }
{
    children_are_read();
}

/// A row that a call at work makes obsolete hangs on the row above, which the call holds too.
pub fn obsolete_rows_hang()
    ensures { ObsoleteRowsHang }
{}

/// A call at work takes no row and is not answered.
pub fn workers_only_work()
    ensures { WorkersOnlyWork }
{}

/// A step of a call that only releases rows, and is not answered yet, keeps calm's tree and the call's reply.
pub fn enders_go_on()
    ensures { EndersGoOn }
{
    leavers_step();
}
