// The next key byte of a row, from some byte on.
ghost use Rattle.std.specs.Prelude.{◌≡◌, ◌+◌, ◌-◌, ◌≤◌, ◌<◌, ℕ, Some, None};
ghost use Rattle.art_rows.specs.Words.{low_bytes, place_of, keys4_of, keys16_of};

use art_rows::{key_count, keys_count};

/// A key byte and its place; the byte is 256 if there is none.
#[derive(Clone, Copy)]
pub struct KeyPlace {
    pub byte: u32,
    pub place: u32,
}

/// The least byte from this one on, among this many bytes of a word. The first of them is at this
/// place. If none is less, it is what was found before.
fn least_among(word: u64, count: u32, byte: u32, place: u32, found: KeyPlace) -> KeyPlace
    requires { place + count ≤ 16 }
    ensures most { result.byte ≤ found.byte }
    ensures same { found.byte ≤ result.byte → result ≡ found }
    ensures from { result.byte < found.byte → byte ≤ result.byte }
    ensures few { found.place < 16 → result.place < 16 }
    ensures later { result.byte < found.byte → place ≤ result.place }
    ensures place { result.byte < found.byte → place_of result.byte (low_bytes count word) ≡ Some (result.place - place) }
    ensures bare { (y : ℕ) → byte ≤ y → y < result.byte → place_of y (low_bytes count word) ≡ None }
{
    let mut least = found;
    find_least(word, count, byte, place, &mut least);
    least
}

/// It is found in place, so that what is left of the word is a loop.
fn find_least(word: u64, count: u32, byte: u32, place: u32, found: &mut KeyPlace)
    requires { place + count ≤ 16 }
    ensures most { found.new.byte ≤ found.old.byte }
    ensures same { found.old.byte ≤ found.new.byte → found.new ≡ found.old }
    ensures from { found.new.byte < found.old.byte → byte ≤ found.new.byte }
    ensures few { found.old.place < 16 → found.new.place < 16 }
    ensures later { found.new.byte < found.old.byte → place ≤ found.new.place }
    ensures place { found.new.byte < found.old.byte → place_of found.new.byte (low_bytes count word) ≡ Some (found.new.place - place) }
    ensures bare { (y : ℕ) → byte ≤ y → y < found.new.byte → place_of y (low_bytes count word) ≡ None }
{
    if count == 0 {
        return;
    }
    let key = (word % 256) as u32;
    if key < byte {
        find_least(word / 256, count - 1, byte, place + 1, found);
    } else if found.byte <= key {
        find_least(word / 256, count - 1, byte, place + 1, found);
    } else {
        *found = KeyPlace { byte: key, place };
        find_least(word / 256, count - 1, byte, place + 1, found);
    }
}

/// The least byte from this one on among the key bytes of a row of kind 4.
pub fn next_key4(keys: u64, byte: u32) -> KeyPlace
    ensures most { result.byte ≤ 256 }
    ensures from { result.byte < 256 → byte ≤ result.byte }
    ensures place { result.byte < 256 → place_of result.byte (keys4_of keys) ≡ Some result.place }
    ensures few { result.place < 16 }
    ensures bare { (y : ℕ) → byte ≤ y → y < result.byte → place_of y (keys4_of keys) ≡ None }
{
    let none = KeyPlace {
        byte: 256,
        place: 0,
    };
    least_among(keys / 256, keys_count(keys), byte, 0, none)
}

/// The place of the next key from a byte on, in a row of kind 16.
pub fn next_key16(count: u64, first: u64, second: u64, byte: u32) -> KeyPlace
    ensures most { result.byte ≤ 256 }
    ensures from { result.byte < 256 → byte ≤ result.byte }
    ensures place { result.byte < 256 → place_of result.byte (keys16_of count first second) ≡ Some result.place }
    ensures few { result.place < 16 }
    ensures bare { (y : ℕ) → byte ≤ y → y < result.byte → place_of y (keys16_of count first second) ≡ None }
{
    let none = KeyPlace {
        byte: 256,
        place: 0,
    };
    let count = key_count(16, count);
    if count <= 8 {
        least_among(first, count, byte, 0, none)
    } else {
        let low = least_among(first, 8, byte, 0, none);
        least_among(second, count - 8, byte, 8, low)
    }
}
