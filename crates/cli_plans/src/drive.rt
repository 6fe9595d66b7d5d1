// `bench drive` at a subject: the history of a plan that is done there.
ghost use Rattle.std.specs.Prelude.{◌<◌, Some};
ghost use Rattle.history_text.specs.Limits.{text_limit};
ghost use Rattle.cli_outcome.specs.Ends.{change};
ghost use Rattle.cli_outcome.specs.Outcomes.{IsTextOutcome};
ghost use Rattle.cli_outcome.specs.Reads.{IsTextRead};
ghost use Rattle.cli_outcome.specs.Runs.{IsRun};
ghost use Rattle.cli_plans.specs.Drives.{IsDriveAnswer, IsDriveRefusal};
ghost use Rattle.cli_plans.specs.Outcomes.{IsDriveOutcome};

use crate::drivable::{drivable_plan, history_outcome};
use cli_io::{Sink, Source};
use cli_outcome::{CommandOutcome, run_text};
use history_text::MAX_TEXT;
use recorder::Subject;
use running::drive_subject;
use std::alloc::Global;
use std::thread::Threads;

/// Reads a plan text to the end of the source, or until it is too long. Does each script of the
/// plan at the subject, in a thread of its own. Writes the text of the history that is recorded,
/// and returns the exit status.
pub fn run_drive<R: Threads + Sync, S: Source, O: Sink, F: Sink, H: Sink, J: Subject + Sync>(
    rt: &R,
    alloc: Global,
    source: &mut S,
    output: &mut O,
    faults: &mut F,
    hints: &mut H,
    subject: &J,
) -> u8
    requires source { S.failures source.old < u64.MAX }
    requires output { O.failures output.old < u64.MAX }
    requires faults { F.failures faults.old < u64.MAX }
    requires hints { H.failures hints.old < u64.MAX }
    ensures run { IsRun
        (IsDriveOutcome (J.may_answer subject.now) (change S.remaining S.failures source.old source.new))
        (change O.written O.failures output.old output.new)
        (change F.written F.failures faults.old faults.new)
        (change H.written H.failures hints.old hints.new) result }
    ensures read { IsTextRead text_limit (change S.remaining S.failures source.old source.new) result }
{
    let answer = |text: &[u8]| drive_outcome(rt, alloc, text, subject);
    run_text(alloc, source, output, faults, hints, MAX_TEXT, answer)
}

/// The text of the history that is recorded while the plan that the text spells is done at the subject, or why there is none.
pub fn drive_outcome<R: Threads + Sync, J: Subject + Sync>(
    rt: &R,
    alloc: Global,
    text: &[u8],
    subject: &J,
) -> CommandOutcome
    ensures { IsTextOutcome (IsDriveAnswer (J.may_answer subject.now)) IsDriveRefusal (Some text.now) result }
{
    let plan = match drivable_plan(alloc, text) {
        Ok(plan) => plan,
        Err(outcome) => return outcome,
    };
    match drive_subject(rt, alloc, &plan, subject) {
        Ok(history) => history_outcome(alloc, &history),
        Err(_) => CommandOutcome::Memory,
    }
}
