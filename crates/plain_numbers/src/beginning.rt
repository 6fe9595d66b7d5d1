// The bytes and the numbers that a text begins with.
ghost use Rattle.std.specs.Prelude.{◌≡◌, ◌+◌, ◌*◌, ◌^◌, ◌<◌, ◌++◌, length, slice_index, decimal, IfSome, OnSome};

/// Returns the number that a text begins with, and what is left after it and these bytes.
#[inline(always)]
pub fn number_before<'a>(text: &'a [u8], end: &[u8]) -> Option<(u64, &'a [u8])>
    ensures text { IfSome result (λ found. text.now ≡ decimal found.0 ++ (end.now ++ found.1.now)) }
    ensures fits { IfSome result (λ found. found.0 < 2 ^ 64) }
{
    let (number, rest) = number_at(text)?;
    let rest = after(rest, end)?;
    Some((number, rest))
}

/// Returns the number in plain decimal that a text begins with, if its digits end before the text
/// does. After a 0 it reads nothing more of the number.
pub fn number_at(text: &[u8]) -> Option<(u64, &[u8])>
    ensures text { IfSome result (λ found. text.now ≡ decimal found.0 ++ found.1.now) }
    ensures fits { IfSome result (λ found. found.0 < 2 ^ 64) }
{
    let mut number = digit_at(text, 0)?;
    if number == 0 {
        return Some((0, &text[1..]));
    }
    'digits: for place in 1..text.len() {
        let Some(unit) = digit_at(text, place) else {
            return Some((number, &text[place..]));
        };
        let more = with_digit(number, unit)?;
        number = more;
    }
    None
}

/// Returns a number with one digit more, if it has at most 64 bits.
#[inline(always)]
fn with_digit(number: u64, unit: u64) -> Option<u64>
    ensures more { IfSome result (λ more. more ≡ number * 10 + unit) }
    ensures fits { IfSome result (λ more. more < 2 ^ 64) }
{
    number.checked_mul(10)?.checked_add(unit)
}

/// Returns the digit at a place of a text.
#[inline(always)]
fn digit_at(text: &[u8], place: usize) -> Option<u64>
    ensures within { OnSome result (place < length text.now) }
    ensures digit { IfSome result (λ unit. slice_index text.now place ≡ 48 + unit) }
    ensures small { IfSome result (λ unit. unit < 10) }
{
    if place >= text.len() {
        return None;
    }
    let byte = text[place];
    if !byte.is_ascii_digit() {
        return None;
    }
    Some(u64::from(byte - b'0'))
}

/// Returns what is left of a text after a front.
#[inline(always)]
pub fn after<'a>(text: &'a [u8], front: &[u8]) -> Option<&'a [u8]>
    ensures { IfSome result (λ rest. text.now ≡ front.now ++ rest.now) }
{
    if text.len() < front.len() {
        return None;
    }
    let (head, rest) = text.split_at(front.len());
    if head == front { Some(rest) } else { None }
}
