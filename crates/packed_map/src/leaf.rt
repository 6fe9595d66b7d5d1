// A leaf, and what changes in one.
ghost use Rattle.std.specs.Prelude.{◌≡◌, ◌==◌, ◌≤◌, length, Option, Some, None, IfErr, if◌then◌else◌};
ghost use Rattle.std.specs.List.{insert};
ghost use Rattle.std.specs.Option.{option_copied};
ghost use Rattle.std.specs.Result.{is_ok, result_ok};
ghost use Rattle.packed_map.specs.Edits.{IsEdit};
ghost use Rattle.packed_map.specs.Entries.{KeysRise, value_at};

use crate::searching::place_of;
use std::alloc::AllocError;
use std::mem;

/// Entries by rising key, none below the least key `from`. `near` is the place of the last entry
/// that was inserted, replaced or removed.
#[derive(Drop)]
pub(crate) struct Leaf<V> {
    pub(crate) from: u64,
    pub(crate) near: usize,
    pub(crate) entries: Vec<(u64, V)>,
}

impl<V: Drop> Leaf<V> {
    /// Returns the value of a key.
    pub(crate) fn get(&self, key: u64) -> Option<&V>
        requires { KeysRise self.now.entries.items }
        ensures { IsEdit key (option_copied result) (option_copied result) self.now.entries.items
            self.now.entries.items }
    {
        match place_of(&self.entries, self.near, key) {
            Ok(place) => Some(&self.entries[place].1),
            Err(_) => None,
        }
    }

    /// Gives a key a value. If its place is new and there is no room, it allocates room for `step`
    /// entries.
    pub(crate) fn put(&mut self, key: u64, value: V, step: usize) -> Result<(), AllocError>
        requires { KeysRise self.old.entries.items }
        ensures from { self.new.from ≡ self.old.from }
        ensures put { IsEdit key (value_at self.old.entries.items key)
            (if is_ok result then Some value else value_at self.old.entries.items key)
            self.old.entries.items self.new.entries.items }
    {
        match place_of(&self.entries, self.near, key) {
            Ok(place) => {
                self.near = place;
                self.entries[place].1 = value;
                Ok(())
            }
            Err(place) => {
                self.near = place;
                self.put_new(place, key, value, step)
            }
        }
    }

    /// Gives a value, at its place, to a key that has none.
    fn put_new(&mut self, place: usize, key: u64, value: V, step: usize) -> Result<(), AllocError>
        requires { place ≤ length self.old.entries.items }
        ensures from { self.new.from ≡ self.old.from }
        ensures entries { self.new.entries.items
            ≡ (if is_ok result then insert self.old.entries.items place (key, value) else
            self.old.entries.items) }
    {
        if self.entries.len() == self.entries.capacity() {
            self.entries.reserve_exact(step)?;
        }
        self.entries.insert(place, (key, value))?;
        Ok(())
    }

    /// Gives a key that has a value another one, and returns the old value. If it has none, returns
    /// the new value.
    pub(crate) fn replace(&mut self, key: u64, value: V) -> Result<V, V>
        requires { KeysRise self.old.entries.items }
        ensures from { self.new.from ≡ self.old.from }
        ensures replaced { IsEdit key (result_ok result) (if is_ok result then Some value else None)
            self.old.entries.items self.new.entries.items }
        ensures back { IfErr result (λ back. back ≡ value) }
    {
        match place_of(&self.entries, self.near, key) {
            Ok(place) => {
                self.near = place;
                let entry = &mut self.entries[place];
                Ok(mem::replace(&mut entry.1, value))
            }
            Err(_) => Err(value),
        }
    }

    /// Removes a key.
    pub(crate) fn remove(&mut self, key: u64) -> Option<V>
        requires { KeysRise self.old.entries.items }
        ensures from { self.new.from ≡ self.old.from }
        ensures removed { IsEdit key result None self.old.entries.items self.new.entries.items }
    {
        match place_of(&self.entries, self.near, key) {
            Ok(place) => {
                self.near = place;
                let entry = self.entries.remove(place);
                self.give_back();
                Some(entry.1)
            }
            Err(_) => None,
        }
    }

    /// Returns whether there is no entry.
    pub(crate) fn is_empty(&self) -> bool
        ensures { result ≡ (length self.now.entries.items == 0) }
    {
        self.entries.is_empty()
    }

    /// Frees memory if three quarters of it are empty.
    fn give_back(&mut self)
        ensures from { self.new.from ≡ self.old.from }
        ensures entries { self.new.entries.items ≡ self.old.entries.items }
    {
        let len = self.entries.len();
        if len < self.entries.capacity() / 4 {
            self.entries.shrink_to(len);
        }
    }
}
