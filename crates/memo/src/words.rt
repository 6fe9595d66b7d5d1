// Bits of words.
ghost use Rattle.std.specs.Prelude.{◌==◌, ◌≡◌, ◌≢◌, ◌↔◌, IsTrue, ℕ, ◌+◌, ◌-◌, ◌*◌, ◌/◌, ◌%◌, ◌^◌, ◌<◌, ◌≤◌, length, map, take, slice_index, All, IfOk, []};
ghost use Rattle.std.specs.Prelude.{bit_or};
ghost use Rattle.std.specs.Vec.{vec_len};
ghost use Rattle.std.specs.List.{range_with_len};
ghost use Rattle.memo.specs.Words.{bit_of, IsTrimmed, AreWords, shifted_word};

use events::Memory;

/// Returns the word at a place, or 0 after the last one.
fn word_at(words: &[u64], at: usize) -> u64
    ensures { result ≡ slice_index words.now at }
{
    match words.get(at) {
        Some(word) => *word,
        None => 0,
    }
}

/// Returns whether a bit is set.
pub(crate) fn is_set(words: &[u64], bit: usize) -> bool
    ensures { IsTrue result ↔ (bit_of words.now bit ≡ 1) }
{
    (word_at(words, bit / 64) >> (bit % 64)) % 2 == 1
}

/// Returns the words with one more bit set, in the memory of a list.
pub(crate) fn with_bit(room: Vec<u64>, words: &[u64], bit: usize) -> Result<Vec<u64>, Memory>
    requires { IsTrimmed words.now }
    ensures set { IfOk result (λ v. bit_of v.items bit ≡ 1) }
    ensures others { IfOk result (λ v. (n : ℕ) → n ≢ bit → bit_of v.items n ≡ bit_of words.now n) }
    ensures trimmed { IfOk result (λ v. IsTrimmed v.items) }
    ensures each { IfOk result (λ v. AreWords v.items) }
{
    let count = words.len().max(bit / 64 + 1);
    let mut set = emptied(room, count)?;
    set.extend_from_slice(words)?;
    set.resize(count, 0)?;
    set[bit / 64] |= 1u64 << (bit % 64);
    Ok(set)
}

/// Returns an empty list in the memory of this one, with capacity for this many words.
fn emptied(room: Vec<u64>, count: usize) -> Result<Vec<u64>, Memory>
    ensures items { IfOk result (λ v. v.items ≡ []) }
    ensures len { IfOk result (λ v. vec_len v ≡ 0) }
{
    let mut room = room;
    room.clear();
    room.reserve_exact(count)?;
    Ok(room)
}

/// Returns how many bits are set from the lowest bit up to the first one that is not: whole words,
/// and bits of the next word.
pub(crate) fn ones_of(words: &[u64]) -> (usize, u32)
    ensures words { result.0 ≤ length words.now }
    ensures bits { result.1 < 64 }
    ensures ones { (n : ℕ) → n < 64 * result.0 + result.1 → bit_of words.now n ≡ 1 }
    ensures zero { bit_of words.now (64 * result.0 + result.1) ≡ 0 }
{
    let mut full = 0;
    while full < words.len() && words[full] == u64::MAX {
        full += 1;
    }
    (full, word_at(words, full).trailing_ones())
}

/// Returns the words without their lowest `count + 1` bits, in the memory of a list.
pub(crate) fn without_lowest(room: Vec<u64>, words: &[u64], count: u32) -> Result<Vec<u64>, Memory>
    requires { count < 64 }
    ensures bits { IfOk result (λ v. (n : ℕ) → bit_of v.items n ≡ bit_of words.now (n + (count + 1))) }
    ensures trimmed { IfOk result (λ v. IsTrimmed v.items) }
    ensures each { IfOk result (λ v. AreWords v.items) }
{
    let moved = shift_down(room, words, count)?;
    Ok(without_zeros(moved))
}

/// Returns the words, with each bit moved down by `count + 1` places, in the memory of a list.
fn shift_down(room: Vec<u64>, words: &[u64], count: u32) -> Result<Vec<u64>, Memory>
    requires { count < 64 }
    ensures { IfOk result (λ v. v.items ≡ map (shifted_word words.now count) (range_with_len 0 (length words.now))) }
{
    let mut moved = emptied(room, words.len())?;
    for at in 0..words.len() {
        let upper = word_at(words, at + 1) << (63 - count);
        moved.push((words[at] >> count >> 1) | upper)?;
    }
    Ok(moved)
}

/// Returns the words without the zeros at the end.
fn without_zeros(words: Vec<u64>) -> Vec<u64>
    ensures bits { (n : ℕ) → bit_of result.items n ≡ bit_of words.items n }
    ensures trimmed { IsTrimmed result.items }
    ensures each { AreWords result.items }
{
    let mut words = words;
    while let Some(0) = words.last() {
        let _zero = words.pop();
    }
    words
}
