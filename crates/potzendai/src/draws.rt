// The call that draws a verdict as `bench draw` does without options.
ghost use Rattle.std.specs.Prelude.{Some};
ghost use Rattle.cli_judge.specs.Answers.{IsHistoryRefusal};
ghost use Rattle.cli_outcome.specs.Outcomes.{IsTextOutcome};
ghost use Rattle.cli_draw.specs.Drawings.{IsUnaskedAnswer};
ghost use Rattle.potzendai.specs.Calls.{IsCall};

use crate::reports::{is_budget, report, report_budget};
use cli_draw::{draw_outcome, unasked_view};
use judge::OneThread;
use std::alloc::Global;

/// Draws the verdict on the history that the text spells, as `bench draw` does without options. If
/// `bench explain` names any calls, these are drawn, by their processes and events in the text.
/// Those that put what they read, and those that they miss, are drawn with them. Otherwise it draws
/// the whole picture, or a part of a wide one. Room, size and status are as for `potzendai_judge`.
#[unsafe(no_mangle)]
pub extern "C" fn potzendai_draw_part(
    alloc: Global,
    text: &[u8],
    budget: u32,
    room: &mut [u8],
    size: &mut usize,
) -> u32
    ensures { IsCall (IsTextOutcome (IsUnaskedAnswer budget) IsHistoryRefusal (Some text.now))
        budget room.old room.new size.new result }
{
    if is_budget(budget) {
        let outcome = draw_outcome(alloc, text, &OneThread { alloc, budget }, unasked_view());
        report(&outcome, room, size)
    } else {
        report_budget(room, size)
    }
}
