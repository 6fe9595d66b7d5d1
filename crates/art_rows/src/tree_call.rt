// A call within the trees' limits.
ghost use Rattle.std.specs.Prelude.{◌≡◌, true, IfSome, Some, None};

use crate::table::Child;
use crate::writers::child_word;
use events::Call;
use std::marker::Model;

/// A call whose keys and values a tree can hold, with a scan's first key not above its last. Contracts see the call.
#[derive(Clone, Copy)]
pub struct TreeCall {
    call: Call,
}

impl Model for TreeCall {
    ghost use Rattle.events.specs.declared.event.Call.{Call};
    ghost use Rattle.art_rows.specs.TreeCalls.{is_tree_call};
    ghost use Rattle.std.specs.Prelude.{IsTrue};

    ghost Value = { Call };

    ghost view = { λ t. t.call };

    ghost invariant = { λ t. IsTrue (is_tree_call t.call) };

    ghost inverse = { λ call. record { call = call } };
}

impl TreeCall {
    ghost use Rattle.std.specs.Prelude.{if◌then◌else◌, IsTrue};
    ghost use Rattle.art_rows.specs.TreeCalls.{is_tree_call};
    ghost use Rattle.art_rows.specs.Words.{is_small_child};
    ghost use Rattle.art_rows.specs.Rows.{key_of};
    ghost use Rattle.art_rows.specs.Updates.{new_leaf, overwriting};

    /// The call, if it is within the trees' limits.
    pub fn new(call: &Call) -> Option<TreeCall>
        ensures { result ≡ (if is_tree_call call.now then Some call.now else None) }
    {
        let fits = match call {
            Call::Get(key) | Call::Remove(key) => *key < 1 << 32,
            Call::Insert(key, value) => *key < 1 << 32 && *value < 1 << 30,
            Call::Scan(low, high) => *low <= *high && *high < 1 << 32,
            Call::Replace(key, old, new) => *key < 1 << 32 && *old < 1 << 30 && *new < 1 << 30,
        };
        if fits {
            Some(TreeCall { call: *call })
        } else {
            None
        }
    }

    /// The call again.
    pub fn call(&self) -> Call
        ensures { result ≡ self.now }
    {
        self.call
    }

    /// A law for proofs: the call is one that a tree can hold. It does nothing.
    pub fn fits(&self)
        ensures { IsTrue (is_tree_call self.now) }
    {
        let _ = &self.call;
    }

    /// The key of a call on one key; of a scan its first.
    pub fn key(&self) -> u32
        ensures { result ≡ key_of self.now }
    {
        match self.call {
            Call::Get(key)
            | Call::Insert(key, _)
            | Call::Remove(key)
            | Call::Scan(key, _)
            | Call::Replace(key, _, _) => key as u32,
        }
    }

    /// The leaf that an insert writes; nothing for another call.
    pub fn leaf(&self) -> Child
        ensures leaf { result ≡ new_leaf self.now }
        ensures small { is_small_child result ≡ true }
    {
        match self.call {
            Call::Insert(key, value) => Child::Leaf {
                key: key as u32,
                value: value as u32,
            },
            _ => Child::Empty,
        }
    }

    /// What is written over the leaf of the call's key, which has this value; nothing if the leaf
    /// stays.
    pub fn overwriting(&self, value: u32) -> Option<u64>
        ensures { result ≡ overwriting self.now value }
    {
        match self.call {
            Call::Remove(_) => Some(0),
            Call::Replace(key, old, new) if u64::from(value) == old => {
                let leaf = Child::Leaf {
                    key: key as u32,
                    value: new as u32,
                };
                Some(child_word(leaf))
            }
            _ => None,
        }
    }
}
