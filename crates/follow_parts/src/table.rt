// The parts of a state, by key.
ghost use Rattle.std.specs.Prelude.{◌≡◌, ◌<◌, [], true, false, slice_get, All, IfOk, IsSomeAnd, MatchOption, OnOk};
ghost use Rattle.follow_pasts.specs.Lists.{IsPut, list_count};
ghost use Rattle.follow_pasts.specs.Ranges.{covered};
ghost use Rattle.follow_parts.specs.Steps.{AreMet};
ghost use Rattle.follow_parts.specs.Table.{IsTakenWith, part_place};

use events::Memory;
use follow_pasts::{LISTS, Part, list_of, list_of_key, lists_within, meet};
use std::alloc::Global;
use std::marker::Model;

/// The parts of a state. Those of one key are in a list of the key. The others are in the first
/// list.
pub struct PartTable {
    lists: Vec<Vec<Part>>,
}

impl Drop for PartTable {
    fn drop(self) {
        let PartTable { lists: _lists } = self;
    }
}

impl Model for PartTable {
    ghost use Rattle.std.specs.Prelude.{List};
    ghost use Rattle.follow_pasts.specs.declared.part.Part.{Part as Own};
    ghost use Rattle.follow_pasts.specs.Lists.{AreListed, things_of};
    ghost use Rattle.follow_parts.specs.Table.{part_place};

    ghost Value = { List Own };

    ghost view = { λ parts. things_of parts.lists.items };

    ghost invariant = { λ parts. AreListed part_place parts.lists.items };
}

impl PartTable {
    /// No parts.
    pub(crate) fn new(alloc: Global) -> Result<PartTable, Memory>
        ensures { IfOk result (λ parts. parts ≡ []) }
    {
        let mut lists = Vec::with_capacity(alloc, LISTS)?;
        for _ in 0..LISTS {
            lists.push(Vec::new(alloc))?;
        }
        Ok(PartTable { lists })
    }

    /// Takes the part out that has a key.
    pub(crate) fn take_with(&mut self, key: u64) -> Option<Part>
        ensures { IsTakenWith key self.old self.new result }
    {
        if let Some(part) = take_key(&mut self.lists[0], key) {
            return Some(part);
        }
        take_key(&mut self.lists[list_of_key(key)], key)
    }

    /// The parts and one more.
    pub(crate) fn put(self, part: Part) -> Result<PartTable, Memory>
        ensures { IfOk result (IsPut part self) }
    {
        let PartTable { mut lists } = self;
        lists[list_of_part(&part)].push(part)?;
        Ok(PartTable { lists })
    }

    /// Takes parts out, among them all that have some key from `low` to `high`.
    pub(crate) fn take_met(
        self,
        alloc: Global,
        low: u64,
        high: u64,
    ) -> Result<(PartTable, Vec<Part>), Memory>
        ensures { IfOk result (λ taken. AreMet low high self taken.0 taken.1.items) }
    {
        let PartTable { mut lists } = self;
        let mut met = take_met(alloc, &mut lists[0], low, high)?;
        let (first, end) = lists_within(low, high);
        for place in first..end {
            let mut more = take_met(alloc, &mut lists[place], low, high)?;
            met.append(&mut more)?;
        }
        Ok((PartTable { lists }, met))
    }
}

/// Takes the part out of a list that has a key.
fn take_key(parts: &mut Vec<Part>, key: u64) -> Option<Part>
    ensures { IsTakenWith key parts.old.items parts.new.items result }
{
    match part_with(parts, key) {
        Some(place) => Some(parts.remove(place)),
        None => None,
    }
}

/// The place of the part that has a key.
fn part_with(parts: &[Part], key: u64) -> Option<usize>
    ensures { MatchOption result (All (λ part. covered part.ranges.items key ≡ false) parts.now)
        (λ place. IsSomeAnd (slice_get parts.now place)
        (λ part. covered part.ranges.items key ≡ true)) }
{
    for place in 0..parts.len() {
        if meet(&parts[place].ranges, key, key) {
            return Some(place);
        }
    }
    None
}

/// Takes parts out, among them all that have some key from `low` to `high`.
fn take_met(alloc: Global, parts: &mut Vec<Part>, low: u64, high: u64) -> Result<Vec<Part>, Memory>
    ensures { OnOk result (IfOk result
        (λ met. AreMet low high parts.old.items parts.new.items met.items)) }
{
    let mut met = Vec::new(alloc);
    let mut place = 0;
    while place < parts.len() {
        if meet(&parts[place].ranges, low, high) {
            let part = parts.remove(place);
            met.push(part)?;
        } else {
            place += 1;
        }
    }
    Ok(met)
}

/// The place of the list of a part: the first one, unless the part has one key only.
fn list_of_part(part: &Part) -> usize
    ensures place { result ≡ part_place part.now }
    ensures there { result < list_count }
{
    if part.ranges.len() == 1 {
        return list_of(part.ranges[0].low, part.ranges[0].high);
    }
    0
}
