// `bench drive` on a tree: the history of a plan that is done there.
ghost use Rattle.std.specs.Prelude.{◌<◌, IfSome, Some};
ghost use Rattle.art_rows.specs.Table.{IsWithinLimits};
ghost use Rattle.history_text.specs.Limits.{text_limit};
ghost use Rattle.cli_outcome.specs.Ends.{change};
ghost use Rattle.cli_outcome.specs.Outcomes.{IsTextOutcome, OnAnswered};
ghost use Rattle.cli_outcome.specs.Reads.{IsTextRead};
ghost use Rattle.cli_outcome.specs.Runs.{IsRun};
ghost use Rattle.cli_outcome.specs.Statuses.{OnAnswerStatus};
ghost use Rattle.cli_plans.specs.Drives.{IsTreeDriveAnswer, IsDriveRefusal, WasPassedForPlan};
ghost use Rattle.cli_plans.specs.Outcomes.{IsTreeDriveOutcome};

use crate::drivable::{drivable_plan, history_outcome};
use art::{Shape, Variant};
use cli_io::{Sink, Source};
use cli_outcome::{CommandOutcome, run_text};
use history_text::MAX_TEXT;
use pool::Gate;
use running::drive_arena;
use std::alloc::Global;
use std::thread::Threads;

/// Reads a plan text to the end of the source, or until it is too long. Does each script of the
/// plan on one tree of the shape and the variant. Each script has a thread of its own, which enters
/// the gate first, and each call makes at most `limit` steps. Writes the text of the history, and
/// returns the exit status.
pub fn run_tree_drive<R: Threads + Sync, S: Source, O: Sink, F: Sink, H: Sink, G: Gate + Sync>(
    rt: &R,
    alloc: Global,
    source: &mut S,
    output: &mut O,
    faults: &mut F,
    hints: &mut H,
    shape: Shape,
    variant: Variant,
    limit: u32,
    gate: &G,
) -> u8
    requires source { S.failures source.old < u64.MAX }
    requires output { O.failures output.old < u64.MAX }
    requires faults { F.failures faults.old < u64.MAX }
    requires hints { H.failures hints.old < u64.MAX }
    requires shape { IsWithinLimits shape }
    ensures run { IsRun
        (IsTreeDriveOutcome shape variant limit (change S.remaining S.failures source.old source.new))
        (change O.written O.failures output.old output.new)
        (change F.written F.failures faults.old faults.new)
        (change H.written H.failures hints.old hints.new) result }
    ensures read { IsTextRead text_limit (change S.remaining S.failures source.old source.new) result }
    ensures passed { OnAnswerStatus result (IfSome (S.remaining source.old) (WasPassedForPlan (G.was_passed gate.now))) }
{
    let answer = |text: &[u8]|
        requires { IsWithinLimits shape }
    { tree_drive_outcome(rt, alloc, text, shape, variant, limit, gate) };
    run_text(alloc, source, output, faults, hints, MAX_TEXT, answer)
}

/// The text of the history of what happens while the plan that the text spells is done on the tree, or why there is none.
pub fn tree_drive_outcome<R: Threads + Sync, G: Gate + Sync>(
    rt: &R,
    alloc: Global,
    text: &[u8],
    shape: Shape,
    variant: Variant,
    limit: u32,
    gate: &G,
) -> CommandOutcome
    requires { IsWithinLimits shape }
    ensures outcome { IsTextOutcome (IsTreeDriveAnswer shape variant limit) IsDriveRefusal (Some text.now) result }
    ensures passed { OnAnswered result (WasPassedForPlan (G.was_passed gate.now) text.now) }
{
    let plan = match drivable_plan(alloc, text) {
        Ok(plan) => plan,
        Err(outcome) => return outcome,
    };
    match drive_arena(rt, alloc, &plan, shape, variant, limit, gate) {
        Ok(history) => history_outcome(alloc, &history),
        Err(_) => CommandOutcome::Memory,
    }
}
