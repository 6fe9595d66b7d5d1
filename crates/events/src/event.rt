// What processes and the map do: processes call the map, and the map answers.
ghost use Rattle.std.specs.Prelude.{◌≡◌, IfOk};
ghost use Rattle.events.specs.Histories.{pair_count};
ghost use Rattle.events.specs.Told.{is_complete};

use crate::memory::Memory;
use std::alloc::Global;
use std::marker::Model;

/// What a process asks of the map.
#[derive(Clone, Copy, PartialEq, Eq)]
pub enum Call {
    /// Asks for the value at a key.
    Get(u64),
    /// Stores a value at a key: the key, then the value.
    Insert(u64, u64),
    /// Removes a key.
    Remove(u64),
    /// Asks for all pairs from the first key to the last, both included.
    Scan(u64, u64),
    /// Stores a new value at a key if it has the expected one: the key, the expected value, the new
    /// value.
    Replace(u64, u64, u64),
}

impl Call {
    ghost use Rattle.events.specs.Keys.{low_key, high_key, may_change};

    /// Returns the least key that the call names.
    pub fn low_key(&self) -> u64
        ensures { result ≡ low_key self.now }
    {
        match self {
            Call::Get(key) | Call::Insert(key, _) | Call::Remove(key) | Call::Replace(key, _, _) =>
                *key,
            Call::Scan(low, _) => *low,
        }
    }

    /// Returns the greatest key that the call names.
    pub fn high_key(&self) -> u64
        ensures { result ≡ high_key self.now }
    {
        match self {
            Call::Get(key) | Call::Insert(key, _) | Call::Remove(key) | Call::Replace(key, _, _) =>
                *key,
            Call::Scan(_, high) => *high,
        }
    }

    /// Returns whether the call may change the map.
    pub fn may_change(&self) -> bool
        ensures { result ≡ may_change self.now }
    {
        matches!(self, Call::Insert(..) | Call::Remove(_) | Call::Replace(..))
    }
}

/// The pairs that answered a scan, in the order in which they came. Contracts see the list.
pub struct Pairs {
    items: Vec<(u64, u64)>,
}

impl Drop for Pairs {
    fn drop(self) {
        let Pairs { items: _items } = self;
    }
}

impl Model for Pairs {
    ghost use Rattle.std.specs.Prelude.{List, ℕ};

    ghost Value = { List (ℕ × ℕ) };

    ghost view = { λ p. p.items.items };
}

impl Pairs {
    /// Takes the pairs as they are. It tests neither their order nor their keys.
    pub fn new(items: Vec<(u64, u64)>) -> Pairs
        ensures { result ≡ items.items }
    {
        Pairs { items }
    }

    /// Returns the pairs.
    pub fn as_slice(&self) -> &[(u64, u64)]
        ensures { result.now ≡ self.now }
    {
        &self.items
    }

    /// Copies the pairs.
    pub fn copy(&self, alloc: Global) -> Result<Pairs, Memory>
        ensures { IfOk result (λ p. p ≡ self.now) }
    {
        let items = Vec::from_slice(alloc, &self.items)?;
        Ok(Pairs { items })
    }
}

/// What the map answers.
pub enum Reply {
    /// No value was at the key.
    None,
    /// The value that was at the key.
    Some(u64),
    /// The pairs that a scan found.
    Pairs(Pairs),
    /// The map would not do the call, and nothing changed.
    Refused,
    /// The map did the call. The answer does not say what the call found.
    Done,
    /// The map did the call, and its key held a value. The answer does not say which value.
    Found,
    /// A replace found another value than the expected one, or no value, and changed nothing.
    Other,
}

impl Drop for Reply {
    fn drop(self) {
        match self {
            Reply::Pairs(_pairs) => {}
            Reply::None
            | Reply::Some(_)
            | Reply::Refused
            | Reply::Done
            | Reply::Found
            | Reply::Other => {}
        }
    }
}

impl Reply {
    /// Copies the reply.
    pub fn copy(&self, alloc: Global) -> Result<Reply, Memory>
        ensures { IfOk result (λ reply. reply ≡ self.now) }
    {
        match self {
            Reply::None => Ok(Reply::None),
            Reply::Some(value) => Ok(Reply::Some(*value)),
            Reply::Pairs(pairs) => Ok(Reply::Pairs(pairs.copy(alloc)?)),
            Reply::Refused => Ok(Reply::Refused),
            Reply::Done => Ok(Reply::Done),
            Reply::Found => Ok(Reply::Found),
            Reply::Other => Ok(Reply::Other),
        }
    }

    /// Returns how many pairs the reply lists.
    pub fn pair_count(&self) -> usize
        ensures { result ≡ pair_count self.now }
    {
        match self {
            Reply::Pairs(pairs) => pairs.as_slice().len(),
            _ => 0,
        }
    }

    /// Returns whether the reply is complete. A partial reply says only that the call was done,
    /// that its key held a value, or that a replace found another value.
    pub fn is_complete(&self) -> bool
        ensures { result ≡ is_complete self.now }
    {
        !matches!(self, Reply::Done | Reply::Found | Reply::Other)
    }
}

/// One event of a history: a process begins a call, or its open call is answered.
pub enum Event {
    Invoke { process: u8, call: Call },
    Answer { process: u8, reply: Reply },
}

impl Drop for Event {
    fn drop(self) {
        match self {
            Event::Invoke {
                process: _,
                call: _call,
            } => {}
            Event::Answer {
                process: _,
                reply: _reply,
            } => {}
        }
    }
}

impl Event {
    ghost use Rattle.events.specs.Events.{process_of};

    /// Returns the process that begins a call, or whose call is answered.
    pub fn process(&self) -> u8
        ensures { result ≡ process_of self.now }
    {
        match self {
            Event::Invoke { process, .. } | Event::Answer { process, .. } => *process,
        }
    }

    /// Copies the event.
    pub fn copy(&self, alloc: Global) -> Result<Event, Memory>
        ensures { IfOk result (λ e. e ≡ self.now) }
    {
        match self {
            Event::Invoke { process, call } => Ok(Event::Invoke {
                process: *process,
                call: *call,
            }),
            Event::Answer { process, reply } => Ok(Event::Answer {
                process: *process,
                reply: reply.copy(alloc)?,
            }),
        }
    }
}
