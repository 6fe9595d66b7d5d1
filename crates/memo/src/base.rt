// Pairs at the start of a search.
ghost use Rattle.std.specs.Prelude.{◌≡◌, ◌↔◌, [], IsTrue, IfOk};
ghost use Rattle.map_object.specs.MapObject.{IsRising, value_at};

use crate::differences::value_at;
use events::Memory;
use map_object::SortedMap;
use std::alloc::Global;
use std::marker::Model;
use std::rc::Rc;

/// The pairs at the start of a search, which its configurations share. A base without pairs takes
/// no memory.
#[derive(Drop)]
pub(crate) struct Base {
    map: Option<Rc<SortedMap>>,
}

impl Model for Base {
    ghost use Rattle.std.specs.Option.{option_map};
    ghost use Rattle.map_object.specs.MapObject.{Contents};
    ghost use Rattle.memo.specs.Bases.{pairs_shared};

    ghost Value = { Contents };

    ghost view = { λ b. pairs_shared (option_map (λ m. m.value) b.map) };
}

impl Base {
    /// Returns a base without pairs. It takes no memory.
    pub(crate) fn new() -> Base
        ensures { result ≡ [] }
    {
        Base { map: None }
    }

    /// Returns a base with a copy of the map's pairs.
    pub(crate) fn of(alloc: Global, map: &SortedMap) -> Result<Base, Memory>
        ensures { IfOk result (λ b. b ≡ map.now) }
    {
        if map.pairs().is_empty() {
            return Ok(Base::new());
        }
        let map = Rc::new(alloc, map.copy(alloc)?)?;
        Ok(Base { map: Some(map) })
    }

    /// Returns a base that shares these pairs.
    pub(crate) fn share(&self) -> Result<Base, Memory>
        ensures { IfOk result (λ b. b ≡ self.now) }
    {
        let Some(map) = &self.map else {
            return Ok(Base::new());
        };
        let map = map.clone()?;
        Ok(Base { map: Some(map) })
    }

    /// Returns the pairs, by rising key.
    pub(crate) fn pairs(&self) -> &[(u64, u64)]
        ensures pairs { result.now ≡ self.now }
        ensures rising { IsRising self.now }
    {
        match &self.map {
            Some(map) => map.pairs(),
            None => &[],
        }
    }

    /// Returns the value at a key. It is a binary search.
    pub(crate) fn value(&self, key: u64) -> Option<u64>
        ensures value { result ≡ value_at self.now key }
        ensures rising { IsRising self.now }
    {
        value_at(self.pairs(), key)
    }

    /// Returns whether both have the same pairs.
    pub(crate) fn is_same(&self, other: &Base) -> bool
        ensures { IsTrue result ↔ (self.now ≡ other.now) }
    {
        self.pairs() == other.pairs()
    }
}
