// The sorted map.
ghost use Rattle.std.specs.Prelude.{◌≡◌, ◌↔◌, ◌++◌, ◌∷◌, [], IsTrue, IfOk, IfErr, OnOk, OnErr, None};
ghost use Rattle.map_object.specs.MapObject.{
  IsRising,
  IsLegalReply,
  value_at,
  below,
  above,
  within,
  reply_to,
  after,
  is_value,
  misses,
};
ghost use Rattle.map_object.specs.Memory.{TakesMemory};
ghost use Rattle.map_object.specs.Places.{IsAt, IsGapFor};
ghost use Rattle.events.specs.declared.event.Call.TheVariants.{Replace};

use crate::replies::{is_list, is_value, value_reply};
use events::{Call, Memory, Pairs, Reply};
use std::alloc::Global;
use std::marker::Model;

/// An ordered map from `u64` to `u64`. Contracts see the list of its pairs, by rising key.
#[derive(Drop)]
pub struct SortedMap {
    pairs: Vec<(u64, u64)>,
}

impl Model for SortedMap {
    ghost use Rattle.map_object.specs.MapObject.{Contents, IsRising};

    ghost Value = { Contents };

    ghost view = { λ m. m.pairs.items };

    ghost invariant = { λ m. IsRising m.pairs.items };
}

impl SortedMap {
    /// Returns the empty map. It takes no memory.
    pub fn new(alloc: Global) -> SortedMap
        ensures { result ≡ [] }
    {
        SortedMap {
            pairs: Vec::new(alloc),
        }
    }

    /// Returns the map of these pairs, whose keys rise. They are copied.
    pub fn of(alloc: Global, pairs: &[(u64, u64)]) -> Result<SortedMap, Memory>
        requires { IsRising pairs.now }
        ensures { IfOk result (λ m. m ≡ pairs.now) }
    {
        let pairs = Vec::from_slice(alloc, pairs)?;
        Ok(SortedMap { pairs })
    }

    /// Returns the pairs of a key and a value, by rising key.
    pub fn pairs(&self) -> &[(u64, u64)]
        ensures pairs { result.now ≡ self.now }
        ensures rising { IsRising self.now }
    {
        self.pairs.as_slice()
    }

    /// Copies the map.
    pub fn copy(&self, alloc: Global) -> Result<SortedMap, Memory>
        ensures { IfOk result (λ m. m ≡ self.now) }
    {
        let pairs = Vec::from_slice(alloc, &self.pairs)?;
        Ok(SortedMap { pairs })
    }

    /// Returns the value at a key, found by binary search.
    pub fn value(&self, key: u64) -> Option<u64>
        ensures value { result ≡ value_at self.now key }
        ensures rising { IsRising self.now }
    {
        match self.place(key) {
            Ok(at) => Some(self.pairs[at].1),
            Err(_) => None,
        }
    }

    /// Does the call and answers it, never by `Refused`. On `Memory` nothing has changed; only a
    /// scan or an insert at a new key can answer it. Each call makes a binary search. An insert and
    /// a remove also move the pairs above the key, and a scan copies the pairs that it lists.
    pub fn step(&mut self, alloc: Global, call: &Call) -> Result<Reply, Memory>
        ensures reply { IfOk result (λ reply. reply ≡ reply_to self.old call.now) }
        ensures after { OnOk result (self.new ≡ after self.old call.now) }
        ensures unchanged { OnErr result (self.new ≡ self.old) }
        ensures wanting { OnErr result (TakesMemory self.old call.now) }
    {
        match *call {
            Call::Get(key) => Ok(value_reply(self.value(key))),
            Call::Insert(key, value) => Ok(value_reply(self.insert(key, value)?)),
            Call::Remove(key) => Ok(value_reply(self.remove(key))),
            Call::Scan(low, high) => {
                let pairs = Vec::from_slice(alloc, self.range(low, high))?;
                Ok(Reply::Pairs(Pairs::new(pairs)))
            }
            Call::Replace(key, expected, replacement) => {
                Ok(value_reply(self.replace(key, expected, replacement)))
            }
        }
    }

    /// Returns whether the reply is legal for this call. `Refused` and `Done` always are. Any other
    /// reply has to agree with the answer that the map would give. It takes no memory, and compares
    /// the pairs of a scan one by one.
    pub fn fits(&self, call: &Call, reply: &Reply) -> bool
        ensures { IsTrue result ↔ IsLegalReply self.now call.now reply.now }
    {
        match reply {
            Reply::Refused | Reply::Done => true,
            Reply::Found => self.finds_value(call),
            Reply::Other => self.finds_other(call),
            Reply::None | Reply::Some(_) | Reply::Pairs(_) => self.gives(call, reply),
        }
    }

    /// Returns whether the reply is the complete answer to the call.
    fn gives(&self, call: &Call, reply: &Reply) -> bool
        ensures { IsTrue result ↔ (reply.now ≡ reply_to self.now call.now) }
    {
        match *call {
            Call::Get(key) | Call::Insert(key, _) | Call::Remove(key) | Call::Replace(key, _, _) =>
                { is_value(reply, self.value(key)) }
            Call::Scan(low, high) => is_list(reply, self.range(low, high)),
        }
    }

    /// Returns whether the call finds a value. A scan finds a list.
    fn finds_value(&self, call: &Call) -> bool
        ensures { result ≡ is_value (reply_to self.now call.now) }
    {
        match *call {
            Call::Get(key) | Call::Insert(key, _) | Call::Remove(key) | Call::Replace(key, _, _) =>
                { self.value(key).is_some() }
            Call::Scan(..) => false,
        }
    }

    /// Returns whether the call is a replace that finds another value than the expected one, or
    /// none.
    fn finds_other(&self, call: &Call) -> bool
        ensures { result ≡ misses call.now (reply_to self.now call.now) }
    {
        match *call {
            Call::Replace(key, expected, _) => match self.value(key) {
                Some(found) => found != expected,
                None => true,
            },
            Call::Get(_) | Call::Insert(..) | Call::Remove(_) | Call::Scan(..) => false,
        }
    }

    /// Puts the value at the key, and gives the value that was there.
    fn insert(&mut self, key: u64, value: u64) -> Result<Option<u64>, Memory>
        ensures old { IfOk result (λ old. old ≡ value_at self.old key) }
        ensures after { OnOk result
            (self.new ≡ below key self.old ++ (key, value) ∷ above key self.old) }
        ensures unchanged { OnErr result (self.new ≡ self.old) }
        ensures wanting { OnErr result (value_at self.old key ≡ None) }
    {
        match self.place(key) {
            Ok(at) => {
                let old = self.pairs[at].1;
                self.pairs[at] = (key, value);
                Ok(Some(old))
            }
            Err(at) => {
                self.pairs.insert(at, (key, value))?;
                Ok(None)
            }
        }
    }

    /// Takes the key away, and gives the value that was there.
    fn remove(&mut self, key: u64) -> Option<u64>
        ensures old { result ≡ value_at self.old key }
        ensures after { self.new ≡ below key self.old ++ above key self.old }
    {
        match self.place(key) {
            Ok(at) => Some(self.pairs.remove(at).1),
            Err(_) => None,
        }
    }

    /// Stores the replacement at the key if the expected value is there. Returns the value that was
    /// there.
    fn replace(&mut self, key: u64, expected: u64, replacement: u64) -> Option<u64>
        ensures old { result ≡ value_at self.old key }
        ensures after { self.new ≡ after self.old (Replace key expected replacement) }
    {
        match self.place(key) {
            Ok(at) => {
                let found = self.pairs[at].1;
                if found == expected {
                    self.pairs[at] = (key, replacement);
                }
                Some(found)
            }
            Err(_) => None,
        }
    }

    /// Returns the pairs from the first key to the last, both included. There are none if the first
    /// key is the greater one.
    fn range(&self, low: u64, high: u64) -> &[(u64, u64)]
        ensures { result.now ≡ within low high self.now }
    {
        let from = self.pairs.partition_point(|pair| pair.0 < low);
        let rest = &self.pairs[from..];
        let count = rest.partition_point(|pair| pair.0 <= high);
        &rest[..count]
    }

    /// Returns the place of the key, or the place at which it would be inserted.
    fn place(&self, key: u64) -> Result<usize, usize>
        ensures found { IfOk result (IsAt self.now key) }
        ensures absent { IfErr result (IsGapFor self.now key) }
    {
        self.pairs.binary_search_by_key(&key, |pair| pair.0)
    }
}
