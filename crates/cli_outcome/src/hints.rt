// Answers, with what a terminal shows after them.
ghost use Rattle.std.specs.Prelude.{◌≡◌, if◌then◌else◌, ℕ, List, [], IfOk, string_bytes};
ghost use Rattle.cli_outcome.specs.Hints.{rare_hint, yes_hint, no_hint, undecided_hint};
ghost use Rattle.cli_outcome.specs.HintedOutcomes.{IsHintedBy};
ghost use Rattle.cli_outcome.specs.declared.outcome.Answer.TheVariants.{Yes, No, Undecided};

use crate::average::{average_text, hundredths};
use crate::outcome::{Answer, CommandOutcome};
use std::alloc::{AllocError, Global};

/// Returns a yes with this line. It has a hint if there are at least two calls, and on average
/// fewer than 0.1 other calls were open at an invocation. The hint says how many.
pub fn hinted_yes(
    alloc: Global,
    line: Result<String, AllocError>,
    calls: usize,
    overlap: u64,
) -> CommandOutcome
    ensures { (bytes : List ℕ) → IfOk line (λ text. string_bytes text ≡ bytes)
        → IsHintedBy Yes bytes (yes_hint calls overlap) result }
{
    if is_rare(calls, overlap) {
        CommandOutcome::with_note(Answer::Yes, line, rare_hint(alloc, calls, overlap))
    } else {
        CommandOutcome::from_answer(Answer::Yes, line)
    }
}

/// Returns a no with this line, and the hint that `bench explain` names a few of the calls.
pub fn hinted_no(alloc: Global, line: Result<String, AllocError>) -> CommandOutcome
    ensures { (bytes : List ℕ) → IfOk line (λ text. string_bytes text ≡ bytes)
        → IsHintedBy No bytes no_hint result }
{
    CommandOutcome::with_note(Answer::No, line, no_hint(alloc))
}

/// Returns an undecided with this line, and the hint that `bench locate` may decide it.
pub fn hinted_undecided(alloc: Global, line: Result<String, AllocError>) -> CommandOutcome
    ensures { (bytes : List ℕ) → IfOk line (λ text. string_bytes text ≡ bytes)
        → IsHintedBy Undecided bytes undecided_hint result }
{
    CommandOutcome::with_note(Answer::Undecided, line, undecided_hint(alloc))
}

/// Returns whether there are at least two calls, and on average fewer than 0.1 other calls were
/// open at an invocation.
fn is_rare(calls: usize, overlap: u64) -> bool
    ensures { yes_hint calls overlap ≡ (if result then rare_hint calls overlap else []) }
{
    calls >= 2 && hundredths(calls, overlap) < 10
}

/// Returns the hint on how few other calls were open at an invocation.
fn rare_hint(alloc: Global, calls: usize, overlap: u64) -> Result<String, AllocError>
    ensures { IfOk result (λ hint. string_bytes hint ≡ rare_hint calls overlap) }
{
    let mut hint = String::from_str(alloc, "note: ")?;
    hint.push_str(average_text(alloc, calls, overlap)?.as_str())?;
    hint.push_str(
        " other calls were open at an invocation on average, and of calls that hardly overlap a yes says little\n",
    )?;
    Ok(hint)
}

/// Returns the hint on the subcommand that names a few of the calls.
fn no_hint(alloc: Global) -> Result<String, AllocError>
    ensures { IfOk result (λ hint. string_bytes hint ≡ no_hint) }
{
    String::from_str(
        alloc,
        "note: bench explain names a few of the calls that have no order on their own\n",
    )
}

/// Returns the hint on the subcommand that may decide.
fn undecided_hint(alloc: Global) -> Result<String, AllocError>
    ensures { IfOk result (λ hint. string_bytes hint ≡ undecided_hint) }
{
    String::from_str(alloc, "note: bench locate may decide it\n")
}
