// Keys are inserted, and a full leaf is split.
ghost use Rattle.std.specs.Prelude.{◌≡◌, ◌↔◌, ◌<◌, ◌≤◌, length, take, drop, All, Some, IsTrue, IfOk, OnErr, if◌then◌else◌};
ghost use Rattle.std.specs.List.{HoldsAt};
ghost use Rattle.std.specs.Result.{is_ok};
ghost use Rattle.packed_map.specs.Edits.{IsEdit};
ghost use Rattle.packed_map.specs.Entries.{KeysRise, value_at};
ghost use Rattle.packed_map.specs.Leaves.{AreLeaves, IsLeafOf, entries_of};
ghost use Rattle.packed_map.specs.Splits.{IsCut};

use crate::leaf::Leaf;
use crate::leaves::put_in;
use crate::searching::leaf_of;
use std::alloc::AllocError;

/// A leaf is full at this many entries, or at a part of the number of leaves if that is more. So
/// neither the list of leaves nor a leaf gets long.
const LEAST_FULL: usize = 64;

/// Gives a key a value, its first or another.
pub(crate) fn insert_in<V: Drop>(
    leaves: &mut Vec<Leaf<V>>,
    near: &mut usize,
    key: u64,
    value: V,
) -> Result<(), AllocError>
    requires { AreLeaves leaves.old.items }
    ensures leaves { AreLeaves leaves.new.items }
    ensures put { IsEdit key (value_at (entries_of leaves.old.items) key)
        (if is_ok result then Some value else value_at (entries_of leaves.old.items) key)
        (entries_of leaves.old.items) (entries_of leaves.new.items) }
{
    let most = most_entries(leaves.len());
    match room_for(leaves, *near, key, most) {
        Ok(at) => {
            *near = at;
            put_in(leaves, at, key, value, most / 8)
        }
        Err(error) => Err(error),
    }
}

/// Returns how many entries a leaf may have if there are this many leaves.
fn most_entries(leaves: usize) -> usize
    ensures { 0 < result }
{
    LEAST_FULL.max(leaves / 32)
}

/// Returns the leaf into which a key belongs, after it was split if it was full.
fn room_for<V: Drop>(
    leaves: &mut Vec<Leaf<V>>,
    near: usize,
    key: u64,
    most: usize,
) -> Result<usize, AllocError>
    requires leaves { AreLeaves leaves.old.items }
    requires some { 0 < most }
    ensures leaves { AreLeaves leaves.new.items }
    ensures same { entries_of leaves.new.items ≡ entries_of leaves.old.items }
    ensures place { IfOk result (λ at. IsLeafOf key leaves.new.items at) }
{
    let at = leaf_of(leaves, near, key);
    if leaves[at].entries.len() < most {
        return Ok(at);
    }
    split_leaf(leaves, at, key)?;
    Ok(leaf_of(leaves, at + 1, key))
}

/// Splits a leaf for a key that will be inserted.
fn split_leaf<V: Drop>(leaves: &mut Vec<Leaf<V>>, at: usize, key: u64) -> Result<(), AllocError>
    requires leaves { AreLeaves leaves.old.items }
    requires place { IsLeafOf key leaves.old.items at }
    requires some { HoldsAt (λ leaf. 0 < length leaf.entries.items) leaves.old.items at }
    ensures leaves { AreLeaves leaves.new.items }
    ensures same { entries_of leaves.new.items ≡ entries_of leaves.old.items }
{
    leaves.reserve(1)?;
    let is_last = at + 1 == leaves.len();
    let leaf = &mut leaves[at];
    let next = leaf.cut(key, is_last)?;
    leaves.insert(at + 1, next)?;
    Ok(())
}

impl<V: Drop> Leaf<V> {
    /// Cuts off entries before a key is inserted. It cuts off none if the key is above them all and
    /// this is the last leaf, so keys that come in rising order leave full leaves. Otherwise it
    /// cuts off the upper half.
    fn cut(&mut self, key: u64, is_last: bool) -> Result<Leaf<V>, AllocError>
        requires rise { KeysRise self.old.entries.items }
        requires some { 0 < length self.old.entries.items }
        ensures from { self.new.from ≡ self.old.from }
        ensures cut { IfOk result (λ next. IsCut key self.old.entries.items self.new.entries.items
            next.entries.items next.from) }
        ensures err { OnErr result (self.new.entries.items ≡ self.old.entries.items) }
    {
        let (place, from) = split_place(&self.entries, key, is_last);
        let entries = self.entries.split_off(place)?;
        Ok(Leaf {
            from,
            near: 0,
            entries,
        })
    }
}

/// Returns the place at which entries are cut before a key is inserted, and the least key after it.
fn split_place<V>(entries: &[(u64, V)], key: u64, is_last: bool) -> (usize, u64)
    requires rise { KeysRise entries.now }
    requires some { 0 < length entries.now }
    ensures there { result.0 ≤ length entries.now }
    ensures cut { IsCut key entries.now (take result.0 entries.now) (drop result.0 entries.now)
        result.1 }
{
    if is_last && is_above(entries, key) {
        return (entries.len(), key);
    }
    let half = entries.len() / 2;
    (half, entries[half].0)
}

/// Returns whether a key is above those of all entries.
fn is_above<V>(entries: &[(u64, V)], key: u64) -> bool
    requires { KeysRise entries.now }
    ensures { IsTrue result ↔ All (λ e. e.0 < key) entries.now }
{
    match entries.last() {
        Some(last) => last.0 < key,
        None => true,
    }
}
