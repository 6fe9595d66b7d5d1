// What a call reports to its caller.
ghost use Rattle.std.specs.Prelude.{◌≡◌, ◌≤◌, ◌↔◌, ◌++◌, IsTrue, length};
ghost use Rattle.cli_outcome.specs.Statuses.{words_status};
ghost use Rattle.potzendai.specs.Calls.{budget_line, hint_of, line_of, IsBudget, status_of, text_of, written};
ghost use Rattle.potzendai.specs.Follows.{IsReportedClosed, standing};

use cli_follow::LineFollower;
use cli_outcome::{CommandOutcome, FAILED, MEMORY, REFUSED, WORDS};
use judge::MAX_BUDGET;

/// Returns whether a search may have this budget.
pub(crate) fn is_budget(budget: u32) -> bool
    ensures { IsTrue result ↔ IsBudget budget }
{
    1 <= budget && budget <= MAX_BUDGET
}

/// Writes the text of an outcome into the room, and its length into `size`. Returns its status.
pub(crate) fn report(outcome: &CommandOutcome, room: &mut [u8], size: &mut usize) -> u32
    ensures status { result ≡ status_of outcome.now }
    ensures size { size.new ≡ length (text_of outcome.now) }
    ensures room { room.new ≡ written (text_of outcome.now) room.old }
{
    let line = line_of(outcome);
    let hint = hint_of(outcome);
    *size = line.len() + hint.len();
    write_both(line, hint, room);
    u32::from(status_of(outcome))
}

/// Writes that no search may have the budget. Returns the status for that.
pub(crate) fn report_budget(room: &mut [u8], size: &mut usize) -> u32
    ensures status { result ≡ words_status }
    ensures size { size.new ≡ length budget_line }
    ensures room { room.new ≡ written budget_line room.old }
{
    let text = b"budget: from 1 to 1000000\n";
    *size = text.len();
    write(text, room);
    u32::from(WORDS)
}

/// Writes that the handle is closed. Returns the status for that.
pub(crate) fn report_closed(room: &mut [u8], size: &mut usize) -> u32
    ensures { IsReportedClosed room.old room.new size.new result }
{
    let text = b"follower: none\n";
    *size = text.len();
    write(text, room);
    u32::from(WORDS)
}

/// Returns the status of a stream so far: 0 while it is followed.
pub(crate) fn stream_status(follower: &LineFollower) -> u32
    ensures { result ≡ standing follower.now }
{
    match follower {
        LineFollower::Going { .. } => 0,
        LineFollower::Ended(outcome) => u32::from(status_of(outcome)),
    }
}

/// Returns the line of an outcome.
fn line_of(outcome: &CommandOutcome) -> &[u8]
    ensures { result.now ≡ line_of outcome.now }
{
    match outcome {
        CommandOutcome::Answered { line, .. } | CommandOutcome::Noted { line, .. } =>
            line.as_bytes(),
        CommandOutcome::Refused { line, .. } => line.as_bytes(),
        CommandOutcome::Words(text) => text.as_bytes(),
        CommandOutcome::Memory => b"memory\n",
        CommandOutcome::Failed => b"io\n",
    }
}

/// Returns the hint on a refusal. Other outcomes have none.
fn hint_of(outcome: &CommandOutcome) -> &[u8]
    ensures { result.now ≡ hint_of outcome.now }
{
    match outcome {
        CommandOutcome::Refused { hint, .. } => hint.as_bytes(),
        _ => b"",
    }
}

/// Returns the status of an outcome.
fn status_of(outcome: &CommandOutcome) -> u8
    ensures { result ≡ status_of outcome.now }
{
    match outcome {
        CommandOutcome::Answered { answer, .. } | CommandOutcome::Noted { answer, .. } =>
            answer.status(),
        CommandOutcome::Refused { .. } => REFUSED,
        CommandOutcome::Words(_) => WORDS,
        CommandOutcome::Memory => MEMORY,
        CommandOutcome::Failed => FAILED,
    }
}

/// Writes two texts as one, the second after the first.
fn write_both(text: &[u8], more: &[u8], room: &mut [u8])
    ensures { room.new ≡ written (text.now ++ more.now) room.old }
{
    write(text, room);
    let count = text.len();
    if count < room.len() {
        write(more, &mut room[count..]);
    }
}

/// Writes as much of the text as leaves place for one more byte, and then a zero byte. A room
/// without a byte stays as it is.
fn write(text: &[u8], room: &mut [u8])
    ensures { room.new ≡ written text.now room.old }
{
    if room.is_empty() {
        return;
    }
    let count = text.len().min(room.len() - 1);
    room[..count].copy_from_slice(&text[..count]);
    room[count] = 0;
}
