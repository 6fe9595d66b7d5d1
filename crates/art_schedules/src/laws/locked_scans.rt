// Laws of scans under lock coupling: each function only carries its clause.
ghost use Rattle.art_schedules.specs.locked_scans.Laws.{FoundScansAnswer, FoundScansStay, OthersLeaveScans, ScansBegin};
ghost use Rattle.art_schedules.specs.locked_scans.Laws.{WalkedScansFind};
ghost use Rattle.art_schedules.specs.locked_scans.Laws.{OthersLeaveTrees, ScansComeOn, ScansTakeLive, ScansTakeReached, WalkingScansAsk};

use crate::laws::changes::kept_trees_follow;
use crate::laws::coupled::walks_are_the_maps;

/// A scan begins where it has walked nothing yet.
pub fn scans_begin()
    ensures { ScansBegin }
{}

/// A scan that has come to the end of its walk has the pairs of the map of that moment.
pub fn walked_scans_find()
    ensures { WalkedScansFind }
{
    walks_are_the_maps();
}

/// A step of a scan that has found its reply leaves the calm tree and the reply as they are.
pub fn found_scans_stay()
    ensures { FoundScansStay }
{}

/// A scan is answered what it has found.
pub fn found_scans_answer()
    ensures { FoundScansAnswer }
{}

/// Before the end of its walk a scan is not answered.
pub fn walking_scans_ask()
    ensures { WalkingScansAsk }
{}

/// A step of another process leaves what a scan has walked or found.
pub fn others_leave_scans()
    ensures { OthersLeaveScans }
{}

/// A scan that knows the calm tree takes no row that is obsolete.
pub fn scans_take_live()
    ensures { ScansTakeLive }
{}

/// A scan that knows the calm tree takes rows of it alone.
pub fn scans_take_reached()
    ensures { ScansTakeReached }
{}

/// After a step of a scan that knows the calm tree, and has not come to the end of its walk, it
/// still knows the calm tree.
pub fn scans_come_on()
    ensures { ScansComeOn }
{
    kept_trees_follow();
}

/// A step of another process leaves what a scan knows of the calm tree.
pub fn others_leave_trees()
    ensures { OthersLeaveTrees }
{}
