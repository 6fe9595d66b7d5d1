// The hint on a fault of a text: what was found, and what was expected.
ghost use Rattle.std.specs.Prelude.{◌≡◌, ◌∷◌, [], ◌++◌, map, IfOk, OnOk, string_bytes};
ghost use Rattle.cli_outcome.specs.Found.{shown_byte, shown, found_hint};

use std::alloc::{AllocError, Global};

/// The most bytes of a text that are shown.
const MAX_SHOWN: usize = 80;

/// Returns the hint that says what was found at a fault, and what was expected there.
pub fn found_hint(alloc: Global, text: &[u8], wanted: &str) -> Result<String, AllocError>
    ensures { IfOk result (λ hint. string_bytes hint ≡ found_hint text.now wanted.now) }
{
    let mut hint = String::from_str(alloc, "found ")?;
    push_shown(&mut hint, text)?;
    hint.push_str("; wanted ")?;
    hint.push_str(wanted)?;
    hint.push_str("\n")?;
    Ok(hint)
}

/// Adds a text. If it is long, it is cut, and two dots follow.
fn push_shown(out: &mut String, text: &[u8]) -> Result<(), AllocError>
    ensures { OnOk result (string_bytes out.new ≡ string_bytes out.old ++ shown text.now) }
{
    if text.len() <= MAX_SHOWN {
        return push_bytes(out, text);
    }
    let front = &text[..MAX_SHOWN];
    push_bytes(out, front)?;
    out.push_str("..")
}

/// Adds the bytes of a text.
fn push_bytes(out: &mut String, text: &[u8]) -> Result<(), AllocError>
    ensures { OnOk result (string_bytes out.new ≡ string_bytes out.old ++ map shown_byte text.now) }
{
    for byte in text {
        push_byte(out, *byte)?;
    }
    Ok(())
}

/// Adds a byte of a text. A byte that is not printable ASCII is written as `?`.
fn push_byte(out: &mut String, byte: u8) -> Result<(), AllocError>
    ensures { OnOk result (string_bytes out.new ≡ string_bytes out.old ++ shown_byte byte ∷ []) }
{
    match byte {
        32..=126 => out.push(byte as char),
        _ => out.push_str("?"),
    }
}
