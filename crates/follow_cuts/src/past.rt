// What is kept of a past.
ghost use Rattle.std.specs.Prelude.{◌≡◌};

use events::Operation;
use map_object::SortedMap;

/// What a pending call found at a key where it took effect.
#[derive(Clone, Copy, PartialEq, Eq)]
pub struct Found {
    /// The place of its invocation among the events, from 0.
    pub inv: usize,
    /// The key.
    pub key: u64,
    /// The value that the key held before, or none.
    pub value: Option<u64>,
}

/// What is kept of a past of some keys.
pub struct Past {
    /// What the keys hold.
    pub map: SortedMap,
    /// The calls that are left, by rising invocation.
    pub calls: Vec<Operation>,
    /// What pending calls found that took effect.
    pub found: Vec<Found>,
}

impl Past {
    /// The map, the calls and what was found.
    pub fn into_parts(self) -> (SortedMap, Vec<Operation>, Vec<Found>)
        ensures { result ≡ (self.map, self.calls, self.found) }
    {
        let Past { map, calls, found } = self;
        (map, calls, found)
    }
}

impl Drop for Past {
    fn drop(self) {
        let Past {
            map: _map,
            calls: _calls,
            found: _found,
        } = self;
    }
}
