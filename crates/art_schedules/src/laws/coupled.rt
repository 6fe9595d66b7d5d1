// Laws of calls under lock coupling: each function only carries its clause.
ghost use Rattle.art_schedules.specs.coupled.Laws.{ObsoleteRowsLeave, RestsHaveNone, WaysTakeLive};
ghost use Rattle.art_schedules.specs.coupled.Laws.{WorkTakesLive};
ghost use Rattle.art_schedules.specs.coupled.Laws.{CallsBegin, CallsGoOn, CallsStay, FoundIsAnswered, OthersLeaveWays};
ghost use Rattle.art_schedules.specs.coupled.Good.{GoodRowsStay, OthersLeaveGood, SeekersAreNotAnswered, WaysTakeReached};
ghost use Rattle.art_schedules.specs.coupled.Walks.{WalksAreTheMaps, WalksStay};

use crate::laws::changes::kept_trees_follow;
use crate::laws::trees::{leaves_are_small, ways_lead_to_values};
use crate::laws::walks::scans_are_the_maps;

/// A call on a key begins at the lock of the root, where it knows nothing yet.
pub fn calls_begin()
    ensures { CallsBegin }
{}

/// A step of a call that knows its way, in a run of the coupled tree, leaves the calm tree as it
/// is. After it the call knows its way, or its work begins, or it has found its reply.
pub fn calls_go_on()
    ensures { CallsGoOn }
{
    kept_trees_follow();
    ways_lead_to_values();
    leaves_are_small();
}

/// In a run of the coupled tree, a call that has found its reply still has it after its step.
pub fn calls_stay()
    ensures { CallsStay }
{
    kept_trees_follow();
}

/// A call that has found its reply is answered so.
pub fn found_is_answered()
    ensures { FoundIsAnswered }
{}

/// A call on its way that has found nothing is not answered.
pub fn seekers_are_not_answered()
    ensures { SeekersAreNotAnswered }
{}

/// A step of another process, by which the calm tree changes by an effect or by none, leaves what a call knows on its way.
pub fn others_leave_ways()
    ensures { OthersLeaveWays }
{}

/// In the coupled tree a call on its way takes no row that is obsolete, and one at work takes none at all.
pub fn calls_take_live()
    ensures way { WaysTakeLive }
    ensures work { WorkTakesLive }
{}

/// If a row of the calm tree is obsolete, the process that made it obsolete still has to release a
/// row above it. A table at rest has no such row, and each step preserves this.
pub fn obsolete_rows_leave()
    ensures first { RestsHaveNone }
    ensures next { ObsoleteRowsLeave }
{}

/// In the coupled tree a call on its way takes only rows of the calm tree.
pub fn ways_take_reached()
    ensures { WaysTakeReached }
{}

/// If a process holds only live rows of the calm tree, it holds only such rows after its step.
pub fn good_rows_stay()
    ensures { GoodRowsStay }
{}

/// A step of another process leaves the rows of a call in the calm tree.
pub fn others_leave_good()
    ensures { OthersLeaveGood }
{}

/// A scan that comes to the end of its walk alone, on a tree at rest, has the pairs of the map. It
/// comes there on all words that are the same on the rows that it touches.
pub fn walks_are_the_maps()
    ensures maps { WalksAreTheMaps }
    ensures stay { WalksStay }
{
    scans_are_the_maps();
}
