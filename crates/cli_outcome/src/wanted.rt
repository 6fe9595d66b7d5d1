// The hint after the line of a fault: what was expected.
ghost use Rattle.std.specs.Prelude.{◌≡◌, IfOk, string_bytes};
ghost use Rattle.cli_outcome.specs.Wanted.{expected_hint, length_expected, json_expected, event_expected, order_expected, pair_expected, history_expected};

use events::HistoryFault;
use std::alloc::{AllocError, Global};

/// Returns the hint that says what was expected.
pub fn expected_hint(alloc: Global, wanted: &str) -> Result<String, AllocError>
    ensures { IfOk result (λ hint. string_bytes hint ≡ expected_hint wanted.now) }
{
    let mut hint = String::from_str(alloc, "wanted ")?;
    hint.push_str(wanted)?;
    hint.push_str("\n")?;
    Ok(hint)
}

/// Returns how long a text may be.
pub fn length_expected() -> &'static str
    ensures { result.now ≡ length_expected }
{
    "at most 16777216 bytes"
}

/// Returns what a text may be.
pub fn json_expected() -> &'static str
    ensures { result.now ≡ json_expected }
{
    "JSON in UTF-8"
}

/// Returns what an event may be, in a history text and in a stream.
pub fn event_expected() -> &'static str
    ensures { result.now ≡ event_expected }
{
    "{\"process\":P,\"invoke\":C} or {\"process\":P,\"answer\":A}, in version 3 also with a \"note\"; C is [\"get\",K], \
    [\"insert\",K,V], [\"remove\",K], [\"scan\",LO,HI] with LO <= HI, or from version 2 on [\"replace\",K,OLD,NEW]; \
    A is null, V, [[K,V],..], \"refused\", or in version 3 \"done\", \"found\" or \"other\"; \
    numbers are from 0 to 18446744073709551615"
}

/// Returns when a process may have an event.
pub fn order_expected() -> &'static str
    ensures { result.now ≡ order_expected }
{
    "an invocation where the process has no open call, an answer where it has one"
}

/// Returns what a starting pair may be.
pub fn pair_expected() -> &'static str
    ensures { result.now ≡ pair_expected }
{
    "[K,V] with K above that of the pair before; numbers are from 0 to 18446744073709551615"
}

/// Returns what was expected for a fault of a history text.
pub fn history_expected(fault: &HistoryFault) -> &'static str
    ensures { result.now ≡ history_expected fault.now }
{
    match fault {
        HistoryFault::TooLong => length_expected(),
        HistoryFault::NotJson => json_expected(),
        HistoryFault::Version => {
            "{\"version\":1,\"events\":[..]} or {\"version\":V,\"start\":[..],\"events\":[..]}; V is 2 or 3"
        }
        HistoryFault::Shape { .. } => event_expected(),
        HistoryFault::TooMany => {
            "at most 4096 starting pairs, processes from 0 to 63, at most 4096 calls, at most 4096 pairs in an answer"
        }
        HistoryFault::NotWellFormed { .. } => order_expected(),
        HistoryFault::Start { .. } => pair_expected(),
        HistoryFault::Memory => "",
    }
}
