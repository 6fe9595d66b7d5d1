// The map.
ghost use Rattle.std.specs.Prelude.{◌≡◌, ◌↔◌, ℕ, ◌==◌, ◌&&◌, ◌<◌, ◌≤◌, if◌then◌else◌, [], Option, Some, None, AllPairs, Contains, IfErr, IfOk, OnErr, OnOk};
ghost use Rattle.std.specs.Option.{IsSome, option_copied};
ghost use Rattle.std.specs.Result.{is_ok, result_ok};
ghost use Rattle.packed_map.specs.Entries.{KeysRise, value_at};

use crate::leaf::Leaf;
use crate::leaves::{get_in, remove_in, replace_in};
use crate::ranges::{all_keys, keys_of};
use crate::splitting::insert_in;
use std::alloc::{AllocError, Global};
use std::marker::Model;

/// A sorted map. A look-up is two binary searches, unless the key is where the last one was
/// inserted, replaced or removed. An insert or a removal moves the entries after it in its leaf.
#[derive(Drop)]
pub struct PackedMap<V> {
    leaves: Vec<Leaf<V>>,
    near: usize,
}

impl<V> Model for PackedMap<V> {
    ghost use Rattle.std.specs.Prelude.{ℕ, List};

    ghost Value = { List (ℕ × V) };

    ghost use Rattle.packed_map.specs.Leaves.{AreLeaves, entries_of};

    ghost view = { λ m. entries_of m.leaves.items };

    ghost invariant = { λ m. AreLeaves m.leaves.items };
}

impl<V: Drop> PackedMap<V> {
    /// Returns a map of no keys. It has one leaf from the start.
    pub fn new(alloc: Global) -> Result<PackedMap<V>, AllocError>
        ensures { IfOk result (λ m. m ≡ []) }
    {
        let mut leaves = Vec::with_capacity(alloc, 1)?;
        let first = Leaf {
            from: 0,
            near: 0,
            entries: Vec::new(alloc),
        };
        leaves.push(first)?;
        Ok(PackedMap { leaves, near: 0 })
    }

    /// Returns the value of a key.
    pub fn get(&self, key: u64) -> Option<&V>
        ensures { option_copied result ≡ value_at self.now key }
    {
        get_in(&self.leaves, self.near, key)
    }

    /// Gives a key a value, its first or another. If memory runs out, the map is unchanged.
    pub fn insert(&mut self, key: u64, value: V) -> Result<(), AllocError>
        ensures put { OnOk result ((other : ℕ)
            → value_at self.new other
            ≡ (if other == key then Some value else value_at self.old other)) }
        ensures rising { KeysRise self.new }
        ensures err { OnErr result (self.new ≡ self.old) }
    {
        insert_in(&mut self.leaves, &mut self.near, key, value)
    }

    /// Gives a key that has a value another one, and returns the old value. If the key has none,
    /// returns the new value.
    pub fn replace(&mut self, key: u64, value: V) -> Result<V, V>
        ensures was { result_ok result ≡ value_at self.old key }
        ensures replaced { (other : ℕ) → value_at self.new other
            ≡ (if other == key then (if is_ok result then Some value else None) else value_at
            self.old other) }
        ensures back { IfErr result (λ back. back ≡ value) }
    {
        replace_in(&mut self.leaves, &mut self.near, key, value)
    }

    /// Removes a key.
    pub fn remove(&mut self, key: u64) -> Option<V>
        ensures was { result ≡ value_at self.old key }
        ensures removed { (other : ℕ) → value_at self.new other
            ≡ (if other == key then None else value_at self.old other) }
        ensures rising { KeysRise self.new }
    {
        remove_in(&mut self.leaves, &mut self.near, key)
    }

    /// Returns all keys, rising.
    pub fn keys(&self, alloc: Global) -> Result<Vec<u64>, AllocError>
        ensures rising { IfOk result (λ keys. AllPairs (λ k l. k < l) keys.items) }
        ensures each { IfOk result (λ keys. (key : ℕ) → Contains keys.items key
            ↔ IsSome (value_at self.now key)) }
    {
        all_keys(alloc, &self.leaves)
    }

    /// Returns the keys of a range, rising.
    pub fn keys_within(&self, alloc: Global, low: u64, high: u64) -> Result<Vec<u64>, AllocError>
        requires { low ≤ high }
        ensures rising { IfOk result (λ keys. AllPairs (λ k l. k < l) keys.items) }
        ensures each { IfOk result (λ keys. (key : ℕ) → Contains keys.items key
            ↔ ((low ≤ key) × (key ≤ high) × IsSome (value_at self.now key))) }
    {
        keys_of(alloc, &self.leaves, low, high)
    }
}
