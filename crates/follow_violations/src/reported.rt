// The map that a list of pairs gives.
ghost use Rattle.std.specs.Prelude.{◌≡◌, ℕ, IfOk, IsTrue};
ghost use Rattle.map_object.specs.MapObject.{IsRising, value_at};

use events::{Call, Memory, is_above};
use map_object::SortedMap;
use std::alloc::Global;

/// The map that has at each key the value of the first of these pairs that has the key.
pub(crate) fn map_of(alloc: Global, pairs: &[(u64, u64)]) -> Result<SortedMap, Memory>
    ensures { IfOk result (λ m. (key : ℕ) → value_at m key ≡ value_at pairs.now key) }
{
    if rises(pairs) {
        return SortedMap::of(alloc, pairs);
    }
    map_of_each(alloc, pairs)
}

/// Whether keys rise.
fn rises(pairs: &[(u64, u64)]) -> bool
    ensures { IsTrue result → IsRising pairs.now }
{
    for (place, pair) in pairs.iter().enumerate() {
        if !is_above(&pairs[..place], pair.0) {
            return false;
        }
    }
    true
}

/// A map of these pairs, by one insert after another, the first of the pairs last.
fn map_of_each(alloc: Global, pairs: &[(u64, u64)]) -> Result<SortedMap, Memory>
    ensures { IfOk result (λ m. (key : ℕ) → value_at m key ≡ value_at pairs.now key) }
{
    let mut map = SortedMap::new(alloc);
    let mut at = pairs.len();
    while at > 0 {
        at -= 1;
        let (key, value) = pairs[at];
        map.step(alloc, &Call::Insert(key, value))?;
    }
    Ok(map)
}
