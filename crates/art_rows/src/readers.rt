// What a word says.
ghost use Rattle.std.specs.Prelude.{◌≡◌, ℕ, ◌≤◌, ◌<◌, ◌%◌, length, slice_index, unwrap_or, IfSome};
ghost use Rattle.art_rows.specs.Words.{is_locked, is_obsolete, low_bytes, count_of, entry_of, entries_of, locked_word, released_word};
ghost use Rattle.art_rows.specs.Words.{info_of, keys4_of, keys16_of, place_of as place_in, first_difference, key_bytes};

use crate::table::Kind;

/// Is the row of this version locked?
pub fn version_is_locked(version: u64) -> bool
    ensures { result ≡ is_locked version }
{
    version / 2 % 2 == 1
}

/// The version of a row that is locked from this one.
pub fn version_locked(version: u64) -> u64
    ensures { result ≡ locked_word version }
{
    version.wrapping_add(2)
}

/// The version of a row that is unlocked, and that was locked from this one.
pub fn version_released(version: u64) -> u64
    ensures { result ≡ released_word version }
{
    version.wrapping_add(4)
}

/// The level that an info word says.
pub fn info_level(kind: Kind, info: u64) -> u32
    ensures level { result ≡ (info_of kind info).level }
    ensures most { result ≤ 3 }
{
    if info % 4 == kind.code() {
        (info / 4 % 4) as u32
    } else {
        0
    }
}

/// A byte of a key, the greatest first.
pub fn key_byte(key: u32, level: u32) -> u32
    ensures { result ≡ slice_index (key_bytes key) level }
{
    if level < 4 {
        (key >> (24 - 8 * level)) % 256
    } else {
        0
    }
}

/// A byte of a word, the lowest first.
pub(crate) fn word_byte(word: u64, place: u32) -> u32
    ensures { result ≡ slice_index (low_bytes 8 word) place }
{
    if place < 8 {
        ((word >> (8 * place)) % 256) as u32
    } else {
        0
    }
}

/// The first byte in which a row's path differs from the key.
pub fn path_difference(kind: Kind, info: u64, key: u32) -> Option<u32>
    ensures { result ≡ first_difference (info_of kind info).path (key_bytes key) }
{
    for place in 0..info_level(kind, info) {
        if path_byte(kind, info, place) != key_byte(key, place) {
            return Some(place);
        }
    }
    None
}

/// A byte of the path that an info word says.
pub fn path_byte(kind: Kind, info: u64, place: u32) -> u32
    ensures { result ≡ slice_index (info_of kind info).path place }
{
    if place < info_level(kind, info) {
        word_byte(info / 256, place)
    } else {
        0
    }
}

/// The first byte in which two keys differ; 0 if they are the same.
pub fn key_difference(a: u32, b: u32) -> u32
    ensures { result ≡ unwrap_or (first_difference (key_bytes a) (key_bytes b)) 0 }
{
    for level in 0..4 {
        if key_byte(a, level) != key_byte(b, level) {
            return level;
        }
    }
    0
}

/// How many keys a row of kind 4 has.
pub fn keys_count(keys: u64) -> u32
    ensures count { result ≡ length (keys4_of keys) }
    ensures most { result ≤ 4 }
{
    if keys % 256 <= 4 {
        (keys % 256) as u32
    } else {
        0
    }
}

/// The first place of a byte in the keys of a row of kind 4.
pub fn key_place(keys: u64, x: u32) -> Option<u32>
    ensures place { result ≡ place_in x (keys4_of keys) }
    ensures below { IfSome result (λ i. i < 4) }
{
    place_among(keys / 256, keys_count(keys), x)
}

/// Is the row of this version obsolete?
pub fn version_is_obsolete(version: u64) -> bool
    ensures { result ≡ is_obsolete version }
{
    version % 2 == 1
}

/// The first place of a byte among this many bytes of a word, the lowest first.
#[tactic(auto, using(crate::proofs::ReaderLemmas::place_first, crate::proofs::ReaderLemmas::place_later, crate::proofs::ReaderLemmas::place_nowhere, crate::proofs::ReaderLemmas::place_none))]
fn place_among(bytes: u64, count: u32, x: u32) -> Option<u32>
    requires { count ≤ 8 }
    ensures place { result ≡ place_in x (low_bytes count bytes) }
    ensures below { IfSome result (λ i. i < count) }
{
    if count == 0 {
        None
    } else if bytes % 256 == u64::from(x) {
        Some(0)
    } else {
        match place_among(bytes / 256, count - 1, x) {
            None => None,
            Some(i) => Some(i + 1),
        }
    }
}

/// The entry of a byte in its index word, in a row of kind 48: 0, or one more than the place of its child.
pub fn index_entry(index: u64, x: u32) -> u32
    ensures entry { result ≡ slice_index (entries_of index) (x % 8) }
    ensures most { result ≤ 48 }
{
    entry_at(index, x % 8)
}

/// The entry at a place of an index word.
pub fn entry_at(index: u64, place: u32) -> u32
    ensures entry { result ≡ slice_index (entries_of index) place }
    ensures most { result ≤ 48 }
{
    entry(u64::from(word_byte(index, place)))
}

pub(crate) fn entry(byte: u64) -> u32
    ensures entry { result ≡ entry_of byte }
    ensures most { result ≤ 48 }
{
    if byte <= 48 { byte as u32 } else { 0 }
}

/// The count that a count word says, if it is at most `most`.
pub fn key_count(most: u32, count: u64) -> u32
    ensures count { result ≡ count_of most count }
    ensures most { result ≤ most }
{
    if count <= u64::from(most) {
        count as u32
    } else {
        0
    }
}

/// The first place of a byte in the keys of a row of kind 16.
#[tactic(auto, using(crate::proofs::ReaderLemmas::few_keys, crate::proofs::ReaderLemmas::many_keys_first, crate::proofs::ReaderLemmas::many_keys_second, crate::proofs::ReaderLemmas::many_keys_none))]
pub fn key_place16(count: u64, first: u64, second: u64, x: u32) -> Option<u32>
    ensures place { result ≡ place_in x (keys16_of count first second) }
    ensures below { IfSome result (λ i. i < 16) }
{
    let count = key_count(16, count);
    if count <= 8 {
        place_among(first, count, x)
    } else {
        match place_among(first, 8, x) {
            Some(i) => Some(i),
            None => match place_among(second, count - 8, x) {
                Some(i) => Some(i + 8),
                None => None,
            },
        }
    }
}
