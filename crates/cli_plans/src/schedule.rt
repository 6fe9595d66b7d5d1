// `bench schedule`: a replay of a plan by a schedule that is drawn.
ghost use Rattle.std.specs.Prelude.{◌≡◌, ◌<◌, ◌≤◌, IfOk, Some, string_bytes};
ghost use Rattle.serde_json.specs.Written.{compact_text};
ghost use Rattle.art_rows.specs.Table.{IsWithinLimits};
ghost use Rattle.history_text.specs.Limits.{text_limit};
ghost use Rattle.cli_outcome.specs.Ends.{change};
ghost use Rattle.cli_outcome.specs.Lines.{line};
ghost use Rattle.cli_outcome.specs.Outcomes.{IsTextOutcome};
ghost use Rattle.cli_outcome.specs.Reads.{IsTextRead};
ghost use Rattle.cli_outcome.specs.Runs.{IsRun};
ghost use Rattle.plan_text.specs.Replays.{turn_limit};
ghost use Rattle.plan_text.specs.ReplayTexts.{SpellsReplay};
ghost use Rattle.plan_text.specs.ReplayViews.{shown};
ghost use Rattle.plan_text.specs.WrittenReplays.{AreHeld, written_data};
ghost use Rattle.cli_plans.specs.Schedules.{IsScheduleAnswer, IsScheduleRefusal};
ghost use Rattle.cli_plans.specs.Outcomes.{IsScheduleOutcome, IsReplayLineOutcome};

use crate::faults::{draw_fault_outcome, plan_fault_outcome};
use art::{Shape, Variant};
use cli_io::{Sink, Source};
use cli_outcome::{Answer, CommandOutcome, line_of, run_text};
use events::Memory;
use history_text::{MAX_TEXT, white_space_tells_nothing};
use plan_text::{Replay, read_plan, write_replay};
use replays::{Draw, drawn_replay};
use std::alloc::Global;

/// Reads a plan text to the end of the source, or until it is too long. Draws a schedule of at most
/// `limit` turns of its scripts, on a tree of the shape and the variant. Writes the text of the
/// replay, and returns the exit status.
pub fn run_schedule<S: Source, O: Sink, F: Sink, H: Sink>(
    alloc: Global,
    source: &mut S,
    output: &mut O,
    faults: &mut F,
    hints: &mut H,
    shape: Shape,
    variant: Variant,
    limit: u32,
    draw: &Draw,
) -> u8
    requires source { S.failures source.old < u64.MAX }
    requires output { O.failures output.old < u64.MAX }
    requires faults { F.failures faults.old < u64.MAX }
    requires hints { H.failures hints.old < u64.MAX }
    requires shape { IsWithinLimits shape }
    requires some_turn { 1 ≤ limit }
    requires few_turns { limit ≤ turn_limit }
    ensures run { IsRun
        (IsScheduleOutcome shape variant limit (change S.remaining S.failures source.old source.new))
        (change O.written O.failures output.old output.new)
        (change F.written F.failures faults.old faults.new)
        (change H.written H.failures hints.old hints.new) result }
    ensures read { IsTextRead text_limit (change S.remaining S.failures source.old source.new) result }
{
    let answer = |text: &[u8]|
        requires shape { IsWithinLimits shape }
        requires some_turn { 1 ≤ limit }
        requires few_turns { limit ≤ turn_limit }
    { schedule_outcome(alloc, text, shape, variant, limit, draw) };
    run_text(alloc, source, output, faults, hints, MAX_TEXT, answer)
}

/// Returns the text of the replay that is drawn for the plan that the text spells. It is a refusal if the text spells no plan, or
/// if the schedule has more items than a replay may have.
pub fn schedule_outcome(
    alloc: Global,
    text: &[u8],
    shape: Shape,
    variant: Variant,
    limit: u32,
    draw: &Draw,
) -> CommandOutcome
    requires shape { IsWithinLimits shape }
    requires some_turn { 1 ≤ limit }
    requires few_turns { limit ≤ turn_limit }
    ensures { IsTextOutcome (IsScheduleAnswer shape variant limit) (IsScheduleRefusal shape variant limit) (Some text.now) result }
{
    let plan = match read_plan(alloc, text) {
        Ok(plan) => plan,
        Err(fault) => return plan_fault_outcome(alloc, fault),
    };
    match drawn_replay(alloc, shape, variant, limit, plan.into_scripts(), draw) {
        Ok(replay) => replay_text_outcome(alloc, &replay),
        Err(fault) => draw_fault_outcome(alloc, fault),
    }
}

/// Returns the text of a replay as an answer, or `Memory`.
fn replay_text_outcome(alloc: Global, replay: &Replay) -> CommandOutcome
    requires { AreHeld replay.now.schedule.items }
    ensures { IsReplayLineOutcome (shown replay.now) result }
{
    match replay_line(alloc, replay) {
        Ok(line) => CommandOutcome::Answered {
            answer: Answer::Yes,
            line,
        },
        Err(_) => CommandOutcome::Memory,
    }
}

/// Returns the text of a replay and a line feed. `read_replay` passes over the line feed, so it accepts these bytes.
fn replay_line(alloc: Global, replay: &Replay) -> Result<String, Memory>
    requires { AreHeld replay.now.schedule.items }
    ensures compact { IfOk result (λ text. string_bytes text ≡ line (compact_text (written_data (shown replay.now)))) }
    ensures again { IfOk result (λ text. SpellsReplay (string_bytes text) (shown replay.now)) }
{
    white_space_tells_nothing();
    let text = write_replay(alloc, replay)?;
    Ok(line_of(text)?)
}
