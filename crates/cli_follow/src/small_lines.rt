// The line of a history of calls that have no order.
ghost use Rattle.std.specs.Prelude.{IfOk, string_bytes};
ghost use Rattle.orders.specs.Orders.{IsLinearizable};
ghost use Rattle.cli_follow.specs.Answers.{IsHistoryLine, IsSmallLine};

use cli_outcome::line_of;
use events::{History, Memory, Operation};
use explain_histories::{small_history, small_text};
use std::alloc::Global;

/// Returns the line of a history with these calls, from these starting pairs. It is empty if no
/// history has them, or if the text is too long.
pub(crate) fn small_line(
    alloc: Global,
    start: &[(u64, u64)],
    calls: &[Operation],
) -> Result<String, Memory>
    ensures { (IsLinearizable start.now calls.now → ⊥)
        → IfOk result (λ text. IsSmallLine start.now calls.now (string_bytes text)) }
{
    match small_history(alloc, start, calls)? {
        Some(history) => history_line(alloc, &history),
        None => Ok(String::new(alloc)),
    }
}

/// Returns the line with the text of a history. It is empty if the text is too long.
fn history_line(alloc: Global, history: &History) -> Result<String, Memory>
    ensures { IfOk result (λ text. IsHistoryLine history.now (string_bytes text)) }
{
    match small_text(alloc, history)? {
        Some(text) => Ok(line_of(text)?),
        None => Ok(String::new(alloc)),
    }
}
