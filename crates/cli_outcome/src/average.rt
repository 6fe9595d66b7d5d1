// An average over calls, with two decimals.
ghost use Rattle.std.specs.Prelude.{◌≡◌, ◌%◌, IfOk, string_bytes};
ghost use Rattle.cli_outcome.specs.Averages.{hundredths, average_text};

use std::alloc::{AllocError, Global};

/// Returns a sum divided by a number of calls, in hundredths, rounded down. No calls count as one
/// call.
pub(crate) fn hundredths(calls: usize, total: u64) -> u128
    ensures { result ≡ hundredths calls total }
{
    total as u128 * 100 / calls.max(1) as u128
}

/// Returns the last digit of a number.
fn last_digit(number: u128) -> u8
    ensures { result ≡ number % 10 }
{
    (number % 10) as u8
}

/// Returns a sum divided by a number of calls, with two decimals.
pub fn average_text(alloc: Global, calls: usize, total: u64) -> Result<String, AllocError>
    ensures { IfOk result (λ text. string_bytes text ≡ average_text calls total) }
{
    let hundredths = hundredths(calls, total);
    let whole = total / calls.max(1) as u64;
    let tenths = last_digit(hundredths / 10);
    let rest = last_digit(hundredths);
    let mut text = format!(in alloc; "{whole}.")?;
    text.push_str(format!(in alloc; "{tenths}{rest}")?.as_str())?;
    Ok(text)
}
