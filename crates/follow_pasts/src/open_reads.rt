// The reads that are pending, by key.
ghost use Rattle.std.specs.Prelude.{◌≡◌, ◌≤◌, ◌<◌, ℕ, [], true, IfOk, OnOk, MatchOption};
ghost use Rattle.follow_pasts.specs.Lists.{IsPut, list_count, list_place};
ghost use Rattle.follow_pasts.specs.Ranges.{covered};
ghost use Rattle.follow_pasts.specs.Moments.{AreBegunAfter, HasEnded, HaveNoRead, IsEarlier, IsEnded};

use crate::lists::{LISTS, list_of, lists_within};
use crate::moments::{OpenRead, first_read};
use crate::ranges::Range;
use events::Memory;
use std::alloc::Global;
use std::marker::Model;

/// The pending reads. Those of one key are in a list of the key. The others are in the first list.
pub struct OpenReads {
    lists: Vec<Vec<OpenRead>>,
}

impl Drop for OpenReads {
    fn drop(self) {
        let OpenReads { lists: _lists } = self;
    }
}

impl Model for OpenReads {
    ghost use Rattle.std.specs.Prelude.{List};
    ghost use Rattle.follow_pasts.specs.declared.moments.OpenRead.{OpenRead as Read};
    ghost use Rattle.follow_pasts.specs.Lists.{AreListed, list_place, things_of};

    ghost Value = { List Read };

    ghost view = { λ reads. things_of reads.lists.items };

    ghost invariant = { λ reads. AreListed (λ read. list_place read.low read.high)
        reads.lists.items };
}

impl OpenReads {
    /// No reads.
    pub fn new(alloc: Global) -> Result<OpenReads, Memory>
        ensures { IfOk result (λ reads. reads ≡ []) }
    {
        let mut lists = Vec::with_capacity(alloc, LISTS)?;
        for _ in 0..LISTS {
            lists.push(Vec::new(alloc))?;
        }
        Ok(OpenReads { lists })
    }

    /// One more read is pending.
    pub fn put(&mut self, read: OpenRead) -> Result<(), Memory>
        ensures { OnOk result (IsPut read self.old self.new) }
    {
        self.lists[list_of(read.low, read.high)].push(read)?;
        Ok(())
    }

    /// Takes out a pending read with the invocation of this one. Returns false only if this one is
    /// not pending.
    pub fn end(&mut self, read: OpenRead) -> bool
        ensures { IsEnded read self.old self.new result }
    {
        end_in(&mut self.lists[list_of(read.low, read.high)], read.inv)
    }

    /// A moment before which no pending read of some keys began, or none if there is no such read.
    pub(crate) fn first(&self, ranges: &[Range]) -> Option<usize>
        ensures { MatchOption result (HaveNoRead ranges.now self.now)
            (AreBegunAfter ranges.now self.now) }
    {
        let mut first = first_read(ranges, &self.lists[0]);
        let (from, end) = lists_of_ranges(ranges);
        for place in from..end {
            first = earlier(first, ranges, &self.lists[place]);
        }
        first
    }
}

/// Takes out a pending read with this invocation, and returns whether there was one.
fn end_in(reads: &mut Vec<OpenRead>, inv: usize) -> bool
    ensures { HasEnded inv reads.old.items reads.new.items result }
{
    for place in 0..reads.len() {
        if reads[place].inv == inv {
            let _ended = reads.remove(place);
            return true;
        }
    }
    false
}

/// The lists of reads of one key of these ranges are from one place to before another.
fn lists_of_ranges(ranges: &[Range]) -> (usize, usize)
    ensures within { (key : ℕ) → covered ranges.now key ≡ true
        → result.0 ≤ list_place key key }
    ensures before { (key : ℕ) → covered ranges.now key ≡ true
        → list_place key key < result.1 }
    ensures there { result.1 ≤ list_count }
{
    if ranges.len() == 1 {
        return lists_within(ranges[0].low, ranges[0].high);
    }
    (1, LISTS)
}

/// A moment that is no later than another one, and before which none of some pending reads of these
/// keys began.
fn earlier(first: Option<usize>, ranges: &[Range], reads: &[OpenRead]) -> Option<usize>
    ensures { IsEarlier ranges.now reads.now first result }
{
    let Some(other) = first_read(ranges, reads) else {
        return first;
    };
    match first {
        Some(moment) if moment < other => Some(moment),
        _ => Some(other),
    }
}
