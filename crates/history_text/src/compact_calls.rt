// The call that a text in the compact form begins with.
ghost use Rattle.std.specs.Prelude.{IfSome, IsTrue};
ghost use Rattle.events.specs.Histories.{has_range};
ghost use Rattle.history_text.specs.Texts.{call_data};
ghost use Rattle.history_text.specs.Compact.{BeginsWith};

use events::Call;
use plain_numbers::{after, number_before};

/// Returns the call that a text begins with, and what is left after it.
pub fn call_at(text: &[u8]) -> Option<(Call, &[u8])>
    ensures call { IfSome result (λ found. BeginsWith (call_data found.0) text.now found.1.now) }
    ensures range { IfSome result (λ found. IsTrue (has_range found.0)) }
{
    match text.get(4)? {
        b't' => get_at(text),
        b's' => insert_at(text),
        b'm' => remove_at(text),
        b'a' => scan_at(text),
        b'p' => replace_at(text),
        _ => None,
    }
}

fn get_at(text: &[u8]) -> Option<(Call, &[u8])>
    ensures call { IfSome result (λ found. BeginsWith (call_data found.0) text.now found.1.now) }
    ensures range { IfSome result (λ found. IsTrue (has_range found.0)) }
{
    let text = after(text, b"[\"get\",")?;
    let (key, rest) = number_before(text, b"]")?;
    Some((Call::Get(key), rest))
}

fn insert_at(text: &[u8]) -> Option<(Call, &[u8])>
    ensures call { IfSome result (λ found. BeginsWith (call_data found.0) text.now found.1.now) }
    ensures range { IfSome result (λ found. IsTrue (has_range found.0)) }
{
    let text = after(text, b"[\"insert\",")?;
    let (key, rest) = number_before(text, b",")?;
    let (value, rest) = number_before(rest, b"]")?;
    Some((Call::Insert(key, value), rest))
}

fn remove_at(text: &[u8]) -> Option<(Call, &[u8])>
    ensures call { IfSome result (λ found. BeginsWith (call_data found.0) text.now found.1.now) }
    ensures range { IfSome result (λ found. IsTrue (has_range found.0)) }
{
    let text = after(text, b"[\"remove\",")?;
    let (key, rest) = number_before(text, b"]")?;
    Some((Call::Remove(key), rest))
}

/// Returns a scan only if its ends are in order.
fn scan_at(text: &[u8]) -> Option<(Call, &[u8])>
    ensures call { IfSome result (λ found. BeginsWith (call_data found.0) text.now found.1.now) }
    ensures range { IfSome result (λ found. IsTrue (has_range found.0)) }
{
    let text = after(text, b"[\"scan\",")?;
    let (low, rest) = number_before(text, b",")?;
    let (high, rest) = number_before(rest, b"]")?;
    if low > high {
        return None;
    }
    Some((Call::Scan(low, high), rest))
}

fn replace_at(text: &[u8]) -> Option<(Call, &[u8])>
    ensures call { IfSome result (λ found. BeginsWith (call_data found.0) text.now found.1.now) }
    ensures range { IfSome result (λ found. IsTrue (has_range found.0)) }
{
    let text = after(text, b"[\"replace\",")?;
    let (key, rest) = number_before(text, b",")?;
    let (old, rest) = number_before(rest, b",")?;
    let (new, rest) = number_before(rest, b"]")?;
    Some((Call::Replace(key, old, new), rest))
}
