// What changes at a key of the leaves.
ghost use Rattle.std.specs.Prelude.{◌≡◌, ◌<◌, length, Option, Some, None, IfErr, if◌then◌else◌};
ghost use Rattle.std.specs.Option.{option_copied};
ghost use Rattle.std.specs.Result.{is_ok, result_ok};
ghost use Rattle.packed_map.specs.Edits.{IsEdit};
ghost use Rattle.packed_map.specs.Entries.{value_at};
ghost use Rattle.packed_map.specs.Leaves.{AreLeaves, IsLeafOf, entries_of};

use crate::leaf::Leaf;
use crate::searching::leaf_of;
use std::alloc::AllocError;

/// Returns the value of a key.
pub(crate) fn get_in<V: Drop>(leaves: &[Leaf<V>], near: usize, key: u64) -> Option<&V>
    requires { AreLeaves leaves.now }
    ensures { IsEdit key (option_copied result) (option_copied result) (entries_of leaves.now)
        (entries_of leaves.now) }
{
    leaves[leaf_of(leaves, near, key)].get(key)
}

/// Gives a key a value in its leaf.
pub(crate) fn put_in<V: Drop>(
    leaves: &mut Vec<Leaf<V>>,
    at: usize,
    key: u64,
    value: V,
    step: usize,
) -> Result<(), AllocError>
    requires leaves { AreLeaves leaves.old.items }
    requires place { IsLeafOf key leaves.old.items at }
    ensures leaves { AreLeaves leaves.new.items }
    ensures put { IsEdit key (value_at (entries_of leaves.old.items) key)
        (if is_ok result then Some value else value_at (entries_of leaves.old.items) key)
        (entries_of leaves.old.items) (entries_of leaves.new.items) }
{
    let leaf = &mut leaves[at];
    leaf.put(key, value, step)
}

/// Gives a key that has a value another one, and returns the old value. If it has none, returns the
/// new value.
pub(crate) fn replace_in<V: Drop>(
    leaves: &mut Vec<Leaf<V>>,
    near: &mut usize,
    key: u64,
    value: V,
) -> Result<V, V>
    requires { AreLeaves leaves.old.items }
    ensures leaves { AreLeaves leaves.new.items }
    ensures replaced { IsEdit key (result_ok result) (if is_ok result then Some value else None)
        (entries_of leaves.old.items) (entries_of leaves.new.items) }
    ensures back { IfErr result (λ back. back ≡ value) }
{
    let at = leaf_of(leaves, *near, key);
    *near = at;
    let leaf = &mut leaves[at];
    leaf.replace(key, value)
}

/// Removes a key, and its leaf if that is empty then.
pub(crate) fn remove_in<V: Drop>(leaves: &mut Vec<Leaf<V>>, near: &mut usize, key: u64) -> Option<V>
    requires { AreLeaves leaves.old.items }
    ensures leaves { AreLeaves leaves.new.items }
    ensures removed { IsEdit key result None (entries_of leaves.old.items)
        (entries_of leaves.new.items) }
{
    let at = leaf_of(leaves, *near, key);
    *near = at;
    let removed = remove_at(leaves, at, key);
    drop_empty(leaves, at);
    removed
}

/// Removes a key from its leaf.
fn remove_at<V: Drop>(leaves: &mut Vec<Leaf<V>>, at: usize, key: u64) -> Option<V>
    requires leaves { AreLeaves leaves.old.items }
    requires place { IsLeafOf key leaves.old.items at }
    ensures leaves { AreLeaves leaves.new.items }
    ensures len { length leaves.new.items ≡ length leaves.old.items }
    ensures removed { IsEdit key result None (entries_of leaves.old.items)
        (entries_of leaves.new.items) }
{
    let leaf = &mut leaves[at];
    leaf.remove(key)
}

/// Removes an empty leaf, unless it is the first.
fn drop_empty<V: Drop>(leaves: &mut Vec<Leaf<V>>, at: usize)
    requires leaves { AreLeaves leaves.old.items }
    requires place { at < length leaves.old.items }
    ensures leaves { AreLeaves leaves.new.items }
    ensures same { entries_of leaves.new.items ≡ entries_of leaves.old.items }
{
    if at > 0 && leaves[at].is_empty() {
        leaves.remove(at);
    }
}
