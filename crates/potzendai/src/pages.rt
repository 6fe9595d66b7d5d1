// The call that writes a page of a verdict.
ghost use Rattle.std.specs.Prelude.{Some};
ghost use Rattle.cli_judge.specs.Answers.{IsHistoryRefusal};
ghost use Rattle.cli_outcome.specs.Outcomes.{IsTextOutcome};
ghost use Rattle.cli_page.specs.Answers.{IsPageAnswer};
ghost use Rattle.potzendai.specs.Calls.{IsCall};

use crate::reports::{is_budget, report, report_budget};
use cli_page::page_outcome;
use judge::OneThread;
use std::alloc::Global;

/// Writes a page that shows the verdict on the history that the text spells, as `bench page` does.
/// Room, size and status are as for `potzendai_judge`.
#[unsafe(no_mangle)]
pub extern "C" fn potzendai_page(
    alloc: Global,
    text: &[u8],
    budget: u32,
    room: &mut [u8],
    size: &mut usize,
) -> u32
    ensures { IsCall (IsTextOutcome (IsPageAnswer budget) IsHistoryRefusal (Some text.now)) budget
        room.old room.new size.new result }
{
    if is_budget(budget) {
        let outcome = page_outcome(alloc, text, &OneThread { alloc, budget });
        report(&outcome, room, size)
    } else {
        report_budget(room, size)
    }
}
