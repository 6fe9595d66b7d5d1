// Places of calls taken.
ghost use Rattle.std.specs.Prelude.{◌≡◌, ◌↔◌, ◌<◌, ◌-◌, ◌^◌, ℕ, [], IsTrue, IfOk, Contains};
ghost use Rattle.std.specs.List.Sorted.{IsStrictlyIncreasing};
ghost use Rattle.memo.specs.Taking.{with_place};
ghost use Rattle.memo.specs.Words.{places_of, IsTrimmed};

use crate::words::{is_set, ones_of, with_bit, without_lowest};
use events::Memory;
use std::alloc::Global;
use std::marker::Model;
use std::mem::replace;

/// A set of places of calls: the least place that is not in it, and a bit for each place above that
/// one. The last word of bits is not 0. Contracts see the places by rising number. Only the places
/// above the first missing one take memory.
#[derive(Drop)]
pub struct Places {
    least: usize,
    words: Vec<u64>,
}

impl Model for Places {
    ghost use Rattle.std.specs.Prelude.{ℕ, List};
    ghost use Rattle.memo.specs.Words.{places_of, ArePlaces};

    ghost Value = { List ℕ };

    ghost view = { λ p. places_of p.least p.words.items };

    ghost invariant = { λ p. ArePlaces p.least p.words.items };
}

impl Places {
    /// Returns a set of no places. It takes no memory.
    pub fn new(alloc: Global) -> Places
        ensures { result ≡ [] }
    {
        Places {
            least: 0,
            words: Vec::new(alloc),
        }
    }

    /// Returns a copy of the set.
    pub(crate) fn copy(&self, alloc: Global) -> Result<Places, Memory>
        ensures { IfOk result (λ p. p ≡ self.now) }
    {
        let words = Vec::from_slice(alloc, &self.words)?;
        Ok(Places {
            least: self.least,
            words,
        })
    }

    /// Takes the list of words out, for its room, and leaves no places.
    pub(crate) fn take_room(&mut self) -> Vec<u64>
        ensures { self.new ≡ [] }
    {
        let none = Places::new(*self.words.allocator());
        let Places {
            least: _least,
            words,
        } = replace(self, none);
        words
    }

    /// Returns whether both sets have the same places.
    pub fn is_same(&self, other: &Places) -> bool
        ensures { IsTrue result ↔ (self.now ≡ other.now) }
    {
        self.least == other.least && self.words == other.words
    }

    /// Returns whether a place is in the set. It costs the same for each place.
    pub fn contains(&self, place: usize) -> bool
        ensures { IsTrue result ↔ Contains self.now place }
    {
        if place < self.least {
            return true;
        }
        place > self.least && is_set(&self.words, place - (self.least + 1))
    }

    /// Returns the least place that is not in the set.
    pub fn least_missing(&self) -> usize
        ensures below { (n : ℕ) → n < result → Contains self.now n }
        ensures missing { Contains self.now result → ⊥ }
    {
        self.least
    }

    /// Returns the bits of the places above the least missing one, in words of 64 bits. The last
    /// word is not 0, so each set has one such list of words.
    pub fn words(&self) -> &[u64]
        ensures form { (least : ℕ) × (places_of least result.now ≡ self.now) }
        ensures trimmed { IsTrimmed result.now }
    {
        &self.words
    }

    /// Returns the set with one more place. It costs as much as the bits that it copies.
    pub fn with(&self, alloc: Global, place: usize) -> Result<Places, Memory>
        requires new { Contains self.now place → ⊥ }
        requires small { place < 2 ^ 64 - 1 }
        ensures is { IfOk result (λ p. p ≡ with_place self.now place) }
        ensures rising { IfOk result IsStrictlyIncreasing }
    {
        self.with_in(Vec::new(alloc), place)
    }

    /// Returns the set with one more place, in the room of a list.
    pub(crate) fn with_in(&self, room: Vec<u64>, place: usize) -> Result<Places, Memory>
        requires new { Contains self.now place → ⊥ }
        requires small { place < 2 ^ 64 - 1 }
        ensures is { IfOk result (λ p. p ≡ with_place self.now place) }
        ensures rising { IfOk result IsStrictlyIncreasing }
    {
        if place > self.least {
            let words = with_bit(room, &self.words, place - (self.least + 1))?;
            return Ok(Places {
                least: self.least,
                words,
            });
        }
        let (full, ones) = ones_of(&self.words);
        let words = without_lowest(room, &self.words[full..], ones)?;
        let least = self.least + 64 * full + ones as usize + 1;
        Ok(Places { least, words })
    }
}
