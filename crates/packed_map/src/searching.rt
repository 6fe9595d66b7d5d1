// The place of a key, or the place at which it would be inserted. The key that was inserted,
// replaced or removed last is often asked for next, so its place is tried first. Reading a key
// changes no such place.
ghost use Rattle.std.specs.Prelude.{◌<◌, length, IsTrue};
ghost use Rattle.std.specs.List.Sorted.{IsBinarySearchResult, IsPartitionPoint, IsSearchInRange};
ghost use Rattle.std.specs.Ordering.{nat_cmp, ordering_index};
ghost use Rattle.packed_map.specs.Leaves.{AreLeaves, IsLeafOf};
ghost use Rattle.packed_map.specs.Searching.{IsGap};

use crate::leaf::Leaf;

/// Returns the place of a key among entries by rising key, or the place at which it would be
/// inserted.
pub(crate) fn place_of<V>(entries: &[(u64, V)], near: usize, key: u64) -> Result<usize, usize>
    ensures bound { IsSearchInRange result (length entries.now) }
    ensures position { IsBinarySearchResult (λ e. nat_cmp e.0 key) entries.now result }
{
    if near < entries.len() && entries[near].0 == key {
        return Ok(near);
    }
    if is_gap(entries, near, key) {
        return Err(near);
    }
    search_by_halves(entries, key)
}

/// Returns the place of a key, or the place at which it would be inserted, by binary search.
fn search_by_halves<V>(entries: &[(u64, V)], key: u64) -> Result<usize, usize>
    ensures bound { IsSearchInRange result (length entries.now) }
    ensures position { IsBinarySearchResult (λ e. nat_cmp e.0 key) entries.now result }
{
    entries.binary_search_by_key(&key, |entry| entry.0)
}

/// Returns whether a key belongs between the entries before a place and the one there.
fn is_gap<V>(entries: &[(u64, V)], near: usize, key: u64) -> bool
    ensures { IsTrue result → IsGap key entries.now near }
{
    if near > entries.len() || near > 0 && entries[near - 1].0 >= key {
        return false;
    }
    near == entries.len() || key < entries[near].0
}

/// Returns the leaf into which a key belongs.
pub(crate) fn leaf_of<V>(leaves: &[Leaf<V>], near: usize, key: u64) -> usize
    requires { AreLeaves leaves.now }
    ensures { IsLeafOf key leaves.now result }
{
    if is_leaf(leaves, near, key) {
        return near;
    }
    searched_leaf(leaves, key)
}

/// Returns the leaf into which a key belongs, by binary search.
fn searched_leaf<V>(leaves: &[Leaf<V>], key: u64) -> usize
    requires { AreLeaves leaves.now }
    ensures { IsLeafOf key leaves.now result }
{
    leaves.partition_point(|leaf| leaf.from <= key) - 1
}

/// Returns whether a key belongs into the leaf at a place.
fn is_leaf<V>(leaves: &[Leaf<V>], near: usize, key: u64) -> bool
    requires { AreLeaves leaves.now }
    ensures { IsTrue result → IsLeafOf key leaves.now near }
{
    if near >= leaves.len() || leaves[near].from > key {
        return false;
    }
    near + 1 == leaves.len() || key < leaves[near + 1].from
}
