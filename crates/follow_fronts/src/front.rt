// A front of calls.
ghost use Rattle.std.specs.Prelude.{◌≡◌, ◌↔◌, ◌<◌, ◌≤◌, ◌⊎◌, ℕ, true, false, length, slice_index_or, slice_set, Contains, IsTrue, IfOk, []};
ghost use Rattle.events.specs.Lists.{has_number};
ghost use Rattle.follow_fronts.specs.Standing.{places, Stands};

use events::{Call, Memory, Operation};
use map_object::SortedMap;
use std::alloc::Global;

/// A call of the front: its place in the list of calls, and what undoes it on the map.
#[derive(Drop)]
pub struct Level {
    pub place: u32,
    pub undo: Option<Call>,
}

/// A front of calls: the pairs that it starts from, its calls, the map after them, which calls of
/// the list are in it, and a place below which all are.
pub struct Front {
    pub start: SortedMap,
    pub levels: Vec<Level>,
    pub map: SortedMap,
    pub taken: Vec<bool>,
    pub low: usize,
}

// Drops the five parts together, so that a function that drops a front has one drop to prove.
impl Drop for Front {
    fn drop(self) {
        let Front {
            start: _start,
            levels: _levels,
            map: _map,
            taken: _taken,
            low: _,
        } = self;
    }
}

impl Front {
    /// The front without calls.
    pub fn none(alloc: Global, start: SortedMap, calls: &[Operation]) -> Result<Front, Memory>
        ensures stands { IfOk result (Stands calls.now) }
        ensures start { IfOk result (λ front. front.start ≡ start) }
        ensures none { IfOk result (λ front. places front.levels.items ≡ []) }
    {
        let map = start.copy(alloc)?;
        let mut taken = Vec::new(alloc);
        taken.resize(calls.len(), false)?;
        Ok(Front {
            start,
            levels: Vec::new(alloc),
            map,
            taken,
            low: 0,
        })
    }

    /// The pairs that the front starts from.
    pub fn into_start(self) -> SortedMap
        ensures { result ≡ self.start }
    {
        let Front {
            start,
            levels: _levels,
            map: _map,
            taken: _taken,
            low: _,
        } = self;
        start
    }

    /// Whether a call is in the front.
    pub fn has(&self, place: usize) -> bool
        requires known { place < length self.now.taken.items }
        requires marks { slice_index_or self.now.taken.items place false
            ≡ has_number (places self.now.levels.items) place }
        ensures { IsTrue result ↔ Contains (places self.now.levels.items) place }
    {
        self.taken[place]
    }

    /// Marks a call as one of the front.
    pub fn mark(&mut self, place: usize)
        requires known { place < length self.old.taken.items }
        requires low { self.old.low ≤ length self.old.taken.items }
        ensures start { self.new.start ≡ self.old.start }
        ensures levels { self.new.levels ≡ self.old.levels }
        ensures map { self.new.map ≡ self.old.map }
        ensures taken { self.new.taken.items ≡ slice_set self.old.taken.items place true }
        ensures within { self.new.low ≤ length self.new.taken.items }
        ensures below { (n : ℕ) → n < self.new.low
            → (n < self.old.low) ⊎ (slice_index_or self.new.taken.items n false ≡ true) }
    {
        self.taken[place] = true;
        while self.low < self.taken.len() && self.taken[self.low] {
            self.low += 1;
        }
    }
}
