// Laws of calls of the optimistic tree: each function only carries its clause.
ghost use Rattle.art_schedules.specs.optimistic.Laws.{WaysBegin};
ghost use Rattle.art_schedules.specs.optimistic.Steps.{OtherStepsKeepWays, OwnFindingsStay, OwnStepsGoOn, QuietStepsKeepTrees};
ghost use Rattle.art_schedules.specs.optimistic.Steps.{ScansStoreNothing};

use crate::laws::trees::{leaves_are_small, ways_lead_to_values};

/// Before its first access a call knows its way.
pub fn ways_begin()
    ensures { WaysBegin }
{}

/// In a run, what a call knows on its way stays so in a step of another process.
pub fn other_steps_keep_ways()
    ensures { OtherStepsKeepWays }
{}

/// In a run, a call that has found what it will answer still has it after a step of its own, or
/// starts again. The calm tree stays.
pub fn own_findings_stay()
    ensures { OwnFindingsStay }
{}

/// In a run, a call that knows its way makes a step. After it the call knows its way, or starts
/// again, or its work begins, or it has found what it will answer at the state before this step.
/// The calm tree stays.
pub fn own_steps_go_on()
    ensures { OwnStepsGoOn }
{
    ways_lead_to_values();
    leaves_are_small();
}

/// In a run of a full tree the step of a process that stores nothing leaves the calm tree.
pub fn quiet_steps_keep_trees()
    ensures { QuietStepsKeepTrees }
{}

/// A scan of the optimistic tree stores nothing.
pub fn scans_store_nothing()
    ensures { ScansStoreNothing }
{}
