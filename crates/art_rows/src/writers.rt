// Words with a given meaning.
ghost use Rattle.std.specs.Prelude.{◌≡◌, true, ℕ, ◌+◌, ◌<◌, ◌≤◌, ◌^◌, ◌%◌, [], ◌∷◌, ◌++◌, length, take, drop, map, set};
ghost use Rattle.art_rows.specs.Table.{capacity};
ghost use Rattle.art_rows.specs.Words.{packed, low_bytes, key_bytes, obsolete_word, info_word, info_of, keys4_of, keys4_word, keys16_of};
ghost use Rattle.art_rows.specs.Words.{keys16_word, more_keys16_word, with_key, new_place, count_of, entry_of, entries_of, entries_word};
ghost use Rattle.art_rows.specs.Words.{row_word, child_word, is_small_child};

use crate::readers::{entry, info_level, key_byte, key_count, keys_count, word_byte};
use crate::table::{Child, Kind};

/// The version of a row that is released as obsolete, and that was locked from this one.
pub fn version_obsolete(version: u64) -> u64
    ensures { result ≡ obsolete_word version }
{
    (version - version % 2).wrapping_add(5)
}

/// The word of a row.
pub fn row_word(base: u32) -> u64
    ensures { result ≡ row_word base }
{
    4 * u64::from(base) + 1
}

/// The word of a child. A leaf's value is within the trees' values.
pub fn child_word(child: Child) -> u64
    requires { is_small_child child ≡ true }
    ensures { result ≡ child_word child }
{
    match child {
        Child::Empty => 0,
        Child::Row { base, .. } => row_word(base),
        Child::Leaf { key, value } => u64::from(key) * 2u64.pow(32) + u64::from(value) * 4 + 2,
    }
}

/// The info of a row of kind 4 at this level, above this key.
pub fn pair_info(key: u32, level: u32) -> u64
    ensures { result ≡ info_word Kind.Four level (take level (key_bytes key)) }
{
    let a = u64::from(key_byte(key, 0));
    let b = u64::from(key_byte(key, 1));
    let c = u64::from(key_byte(key, 2));
    let d = u64::from(key_byte(key, 3));
    let path = match level {
        0 => 0,
        1 => a,
        2 => a + 256 * b,
        3 => a + 256 * b + 65_536 * c,
        _ => a + 256 * b + 65_536 * c + 16_777_216 * d,
    };
    4 * u64::from(level) + 256 * path
}

/// The info of a row of another kind with the level and path of this one.
pub fn moved_info(old: Kind, info: u64, new: Kind) -> u64
    ensures { result ≡ info_word new (info_of old info).level (info_of old info).path }
{
    let level = info_level(old, info);
    new.code() + 4 * u64::from(level) + 256 * low(info / 256, level)
}

/// The keys of a row of kind 4 with two bytes.
pub fn pair_keys(lesser: u32, greater: u32) -> u64
    ensures { result ≡ keys4_word (lesser ∷ greater ∷ []) }
{
    2 + 256 * (u64::from(lesser) + 256 * u64::from(greater))
}

/// The number of this many bytes of a word, the lowest first.
#[tactic(auto, using(crate::proofs::WriterLemmas::byte_below, crate::proofs::WriterLemmas::byte_fits, crate::proofs::WriterLemmas::low_none, crate::proofs::WriterLemmas::low_more))]
fn low(bytes: u64, count: u32) -> u64
    requires { count ≤ 8 }
    ensures bytes { result ≡ packed (low_bytes count bytes) }
    ensures below { result < 256 ^ count }
{
    if count == 0 {
        0
    } else {
        bytes % 256 + 256 * low(bytes / 256, count - 1)
    }
}

/// How many of this many bytes of a word are less than this one.
#[tactic(auto, using(crate::proofs::WriterLemmas::less_none, crate::proofs::WriterLemmas::less_more, crate::proofs::WriterLemmas::less_same))]
fn less_among(bytes: u64, count: u32, byte: u32) -> u32
    requires { count ≤ 8 }
    ensures place { result ≡ new_place byte (low_bytes count bytes) }
    ensures most { result ≤ count }
{
    if count == 0 {
        0
    } else {
        let rest = less_among(bytes / 256, count - 1, byte);
        if bytes % 256 < u64::from(byte) {
            rest + 1
        } else {
            rest
        }
    }
}

/// The number of this many bytes of a word, with one more put in at this place, or after them all.
#[tactic(auto, using(crate::proofs::WriterLemmas::byte_below, crate::proofs::WriterLemmas::byte_fits, crate::proofs::WriterLemmas::put_first, crate::proofs::WriterLemmas::put_alone, crate::proofs::WriterLemmas::put_later))]
fn with_byte_between(bytes: u64, count: u32, place: u32, byte: u32) -> u64
    requires few { count ≤ 7 }
    requires byte { byte < 256 }
    ensures bytes { result ≡ packed (take place (low_bytes count bytes) ++ byte ∷ drop place (low_bytes count bytes)) }
    ensures below { result < 256 ^ (count + 1) }
{
    if place == 0 || count == 0 {
        u64::from(byte) + 256 * low(bytes, count)
    } else {
        bytes % 256 + 256 * with_byte_between(bytes / 256, count - 1, place - 1, byte)
    }
}

/// Where an absent byte goes among the keys of a row of kind 4.
pub fn new_key_place(keys: u64, byte: u32) -> u32
    ensures place { result ≡ new_place byte (keys4_of keys) }
    ensures most { result ≤ length (keys4_of keys) }
{
    less_among(keys / 256, keys_count(keys), byte)
}

/// The key bytes of a row of kind 4 with one more, in the form of the first key word of a row of kind 16.
pub fn key_bytes_with(keys: u64, byte: u32) -> u64
    requires { byte < 256 }
    ensures bytes { result ≡ packed (with_key byte (keys4_of keys)) }
    ensures below { result < 256 ^ 5 }
{
    with_byte_between(
        keys / 256,
        keys_count(keys),
        new_key_place(keys, byte),
        byte,
    )
}

/// The keys of a row of kind 4 with one byte more.
pub fn keys_with(keys: u64, byte: u32) -> u64
    requires { byte < 256 }
    ensures { result ≡ keys4_word (with_key byte (keys4_of keys)) }
{
    u64::from(keys_count(keys)) + 1 + 256 * key_bytes_with(keys, byte)
}

/// Where an absent byte goes among the keys of a row of kind 16.
pub fn new_key_place16(count: u64, first: u64, second: u64, byte: u32) -> u32
    ensures place { result ≡ new_place byte (keys16_of count first second) }
    ensures most { result ≤ count_of 16 count }
{
    let count = key_count(16, count);
    if count <= 8 {
        less_among(first, count, byte)
    } else {
        less_among(first, 8, byte) + less_among(second, count - 8, byte)
    }
}

/// The first key word of a row of kind 16 with one byte more.
pub fn keys16_with(count: u64, first: u64, second: u64, byte: u32) -> u64
    requires { byte < 256 }
    ensures { result ≡ keys16_word (with_key byte (keys16_of count first second)) }
{
    let place = new_key_place16(count, first, second, byte);
    let count = key_count(16, count);
    if count < 8 {
        with_byte_between(first, count, place, byte)
    } else if place < 8 {
        with_byte_between(first, 7, place, byte)
    } else {
        first
    }
}

/// The second key word of a row of kind 16 with one byte more.
pub fn more_keys16_with(count: u64, first: u64, second: u64, byte: u32) -> u64
    requires { byte < 256 }
    ensures { result ≡ more_keys16_word (with_key byte (keys16_of count first second)) }
{
    let place = new_key_place16(count, first, second, byte);
    let count = key_count(16, count);
    if count < 8 {
        0
    } else if place < 8 {
        u64::from(word_byte(first, 7)) + 256 * low(second, (count - 8).min(7))
    } else if place < 16 {
        with_byte_between(second, (count - 8).min(7), place - 8, byte)
    } else {
        second
    }
}

/// The number of this many entries of an index word.
#[tactic(auto, using(crate::proofs::WriterLemmas::byte_below, crate::proofs::WriterLemmas::byte_fits, crate::proofs::WriterLemmas::entries_none, crate::proofs::WriterLemmas::entries_more))]
fn entries(bytes: u64, count: u32) -> u64
    requires { count ≤ 8 }
    ensures bytes { result ≡ packed (map entry_of (low_bytes count bytes)) }
    ensures below { result < 256 ^ count }
{
    if count == 0 {
        0
    } else {
        u64::from(entry(bytes % 256)) + 256 * entries(bytes / 256, count - 1)
    }
}

/// The number of this many entries of an index word, with this one among them.
#[tactic(auto, using(crate::proofs::WriterLemmas::byte_below, crate::proofs::WriterLemmas::byte_fits, crate::proofs::WriterLemmas::set_none, crate::proofs::WriterLemmas::set_first, crate::proofs::WriterLemmas::set_later))]
fn entries_with(bytes: u64, count: u32, place: u32, new: u32) -> u64
    requires few { count ≤ 8 }
    requires entry { new < 256 }
    ensures bytes { result ≡ packed (set (map entry_of (low_bytes count bytes)) place new) }
    ensures below { result < 256 ^ count }
{
    if count == 0 {
        0
    } else if place == 0 {
        u64::from(new) + 256 * entries(bytes / 256, count - 1)
    } else {
        u64::from(entry(bytes % 256)) + 256 * entries_with(bytes / 256, count - 1, place - 1, new)
    }
}

/// The index word of a byte with another entry for it.
pub fn index_with(index: u64, byte: u32, new: u32) -> u64
    requires { new < 256 }
    ensures { result ≡ entries_word (set (entries_of index) (byte % 8) new) }
{
    entries_with(index, 8, byte % 8, new)
}
