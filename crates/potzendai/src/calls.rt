// The exported calls on a history.
ghost use Rattle.std.specs.Prelude.{◌≡◌, Some};
ghost use Rattle.cli_explain.specs.Answers.{IsExplainAnswer};
ghost use Rattle.cli_judge.specs.Answers.{IsHistoryRefusal, IsJudgeAnswer};
ghost use Rattle.cli_explain.specs.LocationAnswers.{IsLocateAnswer};
ghost use Rattle.cli_outcome.specs.Outcomes.{IsTextOutcome};
ghost use Rattle.cli_draw.specs.Drawings.{IsDrawAnswer};
ghost use Rattle.potzendai.specs.Calls.{IsCall};
ghost use Rattle.potzendai.specs.Verdicts.{SpellsLinearizable, SpellsUnlinearizable};

use crate::reports::{is_budget, report, report_budget};
use cli_draw::{draw_outcome, whole_view};
use cli_explain::{explain_outcome, locate_outcome};
use cli_judge::judge_outcome;
use judge::OneThread;
use std::alloc::Global;

/// Judges the history that the text spells. A search meets at most `budget` configurations of a
/// segment. Writes into the room what `bench judge` writes, and a zero byte after it. If the room
/// is too small, writes as much as leaves place for the zero byte. Writes into `size` the length of
/// the whole, without the zero byte. Returns the exit status of `bench judge`.
#[unsafe(no_mangle)]
pub extern "C" fn potzendai_judge(
    alloc: Global,
    text: &[u8],
    budget: u32,
    room: &mut [u8],
    size: &mut usize,
) -> u32
    ensures call { IsCall (IsTextOutcome (IsJudgeAnswer budget) IsHistoryRefusal (Some text.now))
        budget room.old room.new size.new result }

    // What a yes or a no means for the history.
    ensures yes { result ≡ 0 → SpellsLinearizable text.now }
    ensures no { result ≡ 1 → SpellsUnlinearizable text.now }
{
    if is_budget(budget) {
        let outcome = judge_outcome(alloc, text, &OneThread { alloc, budget });
        report(&outcome, room, size)
    } else {
        report_budget(room, size)
    }
}

/// Finds the event at which the history that the text spells goes wrong, as `bench locate` does.
/// Room, size and status are as for `potzendai_judge`.
#[unsafe(no_mangle)]
pub extern "C" fn potzendai_locate(
    alloc: Global,
    text: &[u8],
    budget: u32,
    room: &mut [u8],
    size: &mut usize,
) -> u32
    ensures { IsCall (IsTextOutcome (IsLocateAnswer budget) IsHistoryRefusal (Some text.now))
        budget room.old room.new size.new result }
{
    if is_budget(budget) {
        let outcome = locate_outcome(alloc, text, budget);
        report(&outcome, room, size)
    } else {
        report_budget(room, size)
    }
}

/// Explains the verdict on the history that the text spells, as `bench explain` does. After the
/// report of a no come a few calls that show it. Room, size and status are as for
/// `potzendai_judge`.
#[unsafe(no_mangle)]
pub extern "C" fn potzendai_explain(
    alloc: Global,
    text: &[u8],
    budget: u32,
    room: &mut [u8],
    size: &mut usize,
) -> u32
    ensures call { IsCall (IsTextOutcome (IsExplainAnswer budget) IsHistoryRefusal (Some text.now))
        budget room.old room.new size.new result }

    // What a yes or a no means for the history.
    ensures yes { result ≡ 0 → SpellsLinearizable text.now }
    ensures no { result ≡ 1 → SpellsUnlinearizable text.now }
{
    if is_budget(budget) {
        let outcome = explain_outcome(alloc, text, budget);
        report(&outcome, room, size)
    } else {
        report_budget(room, size)
    }
}

/// Draws the verdict on the history that the text spells, as `bench draw --calls 0` does. Room,
/// size and status are as for `potzendai_judge`.
#[unsafe(no_mangle)]
pub extern "C" fn potzendai_draw(
    alloc: Global,
    text: &[u8],
    budget: u32,
    room: &mut [u8],
    size: &mut usize,
) -> u32
    ensures { IsCall (IsTextOutcome (IsDrawAnswer budget) IsHistoryRefusal (Some text.now))
        budget room.old room.new size.new result }
{
    if is_budget(budget) {
        let outcome = draw_outcome(alloc, text, &OneThread { alloc, budget }, whole_view());
        report(&outcome, room, size)
    } else {
        report_budget(room, size)
    }
}
