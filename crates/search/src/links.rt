// A list of nodes from which nodes are taken and put back.
ghost use Rattle.std.specs.Prelude.{◌≡◌, ℕ, ◌<◌, ◌+◌, ◌^◌, length, slice_index, IfOk};
ghost use Rattle.search.specs.Links.{AreWithin, no_links, linked_last, unlinked, put_back};

use events::Memory;
use std::alloc::Global;
use std::marker::Model;

/// A list of nodes below a size. Each node has the node after it and the one before it; the size
/// itself marks both ends. A node that is taken out keeps its own links. So it can be put back at
/// its place, when all nodes that were taken out after it are back. Contracts see only the links.
pub struct Links {
    after: Vec<u32>,
    before: Vec<u32>,
}

// Both lists are dropped here.
impl Drop for Links {
    fn drop(self) {
        let Links {
            after: _after,
            before: _before,
        } = self;
    }
}

impl Model for Links {
    ghost use Rattle.search.specs.Links.{LinksView, AreWithin};

    ghost Value = { LinksView };

    ghost view = { λ l. record { after = l.after.items; before = l.before.items } };

    ghost invariant = { λ l. AreWithin (record { after = l.after.items; before = l.before.items }) };
}

impl Links {
    /// Returns an empty list, for nodes below `size`.
    pub fn new(alloc: Global, size: u32) -> Result<Links, Memory>
        requires { size + 1 < 2 ^ 32 }
        ensures { IfOk result (λ l. l ≡ no_links size) }
    {
        let mut after = Vec::new(alloc);
        after.resize(size as usize + 1, size)?;
        let before = Vec::from_slice(alloc, &after)?;
        Ok(Links { after, before })
    }

    /// Returns the node after this one, if it is in the list, or the size at the end.
    pub fn after(&self, node: u32) -> u32
        requires { node < length self.now.after }
        ensures after { result ≡ slice_index self.now.after node }
        ensures within { result < length self.now.after }
    {
        self.after[node as usize]
    }

    /// Adds a node after all that are in the list.
    pub fn push(&mut self, size: u32, node: u32)
        requires size { size < length self.old.after }
        requires node { node < length self.old.after }
        ensures links { self.new ≡ linked_last self.old size node }
        ensures within { AreWithin self.old }
    {
        let last = self.before[size as usize];
        self.after[last as usize] = node;
        self.before[node as usize] = last;
        self.after[node as usize] = size;
        self.before[size as usize] = node;
    }

    /// Takes a node out of the list.
    pub fn unlink(&mut self, node: u32)
        requires { node < length self.old.after }
        ensures links { self.new ≡ unlinked self.old node }
        ensures within { AreWithin self.old }
    {
        let after = self.after[node as usize];
        let before = self.before[node as usize];
        self.after[before as usize] = after;
        self.before[after as usize] = before;
    }

    /// Puts back the node that was taken out last.
    pub fn put_back(&mut self, node: u32)
        requires { node < length self.old.after }
        ensures { self.new ≡ put_back self.old node }
    {
        let after = self.after[node as usize];
        let before = self.before[node as usize];
        self.after[before as usize] = node;
        self.before[after as usize] = node;
    }
}
