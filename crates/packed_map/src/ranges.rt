// The keys of a range.
ghost use Rattle.std.specs.Prelude.{◌≡◌, ◌≤◌, [], ◌∷◌, ◌++◌, map, IfOk, OnOk, if◌then◌else◌};
ghost use Rattle.packed_map.specs.Leaves.{AreLeaves, entries_of};
ghost use Rattle.packed_map.specs.Ranges.{is_between, keys_between};

use crate::leaf::Leaf;
use crate::searching::leaf_of;
use std::alloc::{AllocError, Global};

/// Returns all keys.
pub(crate) fn all_keys<V>(alloc: Global, leaves: &[Leaf<V>]) -> Result<Vec<u64>, AllocError>
    ensures { IfOk result (λ keys. keys.items ≡ map (λ e. e.0) (entries_of leaves.now)) }
{
    let mut keys = Vec::new(alloc);
    for leaf in leaves {
        push_keys(&mut keys, &leaf.entries)?;
    }
    Ok(keys)
}

/// Adds the keys of entries.
fn push_keys<V>(keys: &mut Vec<u64>, entries: &[(u64, V)]) -> Result<(), AllocError>
    ensures { OnOk result (keys.new.items ≡ keys.old.items ++ map (λ e. e.0) entries.now) }
{
    for entry in entries {
        keys.push(entry.0)?;
    }
    Ok(())
}

/// Returns the keys of a range.
pub(crate) fn keys_of<V>(
    alloc: Global,
    leaves: &[Leaf<V>],
    low: u64,
    high: u64,
) -> Result<Vec<u64>, AllocError>
    requires leaves { AreLeaves leaves.now }
    requires range { low ≤ high }
    ensures { IfOk result (λ keys. keys.items ≡ keys_between low high (entries_of leaves.now)) }
{
    let mut keys = Vec::new(alloc);
    let first = leaf_of(leaves, 0, low);
    let last = leaf_of(leaves, first, high);
    for leaf in &leaves[first..last + 1] {
        push_within(&mut keys, &leaf.entries, low, high)?;
    }
    Ok(keys)
}

/// Adds the keys of a range among those of entries.
fn push_within<V>(
    keys: &mut Vec<u64>,
    entries: &[(u64, V)],
    low: u64,
    high: u64,
) -> Result<(), AllocError>
    ensures { OnOk result (keys.new.items ≡ keys.old.items ++ keys_between low high entries.now) }
{
    for entry in entries {
        push_if(keys, entry.0, low, high)?;
    }
    Ok(())
}

/// Adds a key of a range.
fn push_if(keys: &mut Vec<u64>, key: u64, low: u64, high: u64) -> Result<(), AllocError>
    ensures { OnOk result (keys.new.items ≡ keys.old.items ++
        (if is_between low high key then key ∷ [] else [])) }
{
    if is_within(low, high, key) {
        keys.push(key)?;
    }
    Ok(())
}

/// Returns whether a key is in a range.
fn is_within(low: u64, high: u64, key: u64) -> bool
    ensures { result ≡ is_between low high key }
{
    low <= key && key <= high
}
