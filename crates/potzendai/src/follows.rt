// The call that follows the text of a stream.
ghost use Rattle.std.specs.Prelude.{◌≡◌, Some};
ghost use Rattle.potzendai.specs.Calls.{IsCall};
ghost use Rattle.potzendai.specs.Streams.{SpellLinearizable, BeginUnlinearizable};
ghost use Rattle.cli_follow.specs.Outcomes.{IsStreamOutcome};
ghost use Rattle.stream_text.specs.Cuts.{lines_of};

use crate::reports::{is_budget, report, report_budget};
use cli_follow::follow_text;
use std::alloc::Global;

/// Follows the stream whose events the lines of the text spell, as `bench follow` does. Judges each
/// answer when it comes, by searches of at most `budget` configurations. The text may have any
/// length. Room, size and status are as for `potzendai_judge`.
#[unsafe(no_mangle)]
pub extern "C" fn potzendai_follow(
    alloc: Global,
    text: &[u8],
    budget: u32,
    room: &mut [u8],
    size: &mut usize,
) -> u32
    ensures call { IsCall (IsStreamOutcome budget (Some text.now)) budget room.old room.new
        size.new result }

    // What a yes or a no means for the stream.
    ensures yes { result ≡ 0 → SpellLinearizable (lines_of text.now) }
    ensures no { result ≡ 1 → BeginUnlinearizable (lines_of text.now) }
{
    if is_budget(budget) {
        let outcome = follow_text(alloc, text, budget);
        report(&outcome, room, size)
    } else {
        report_budget(room, size)
    }
}
