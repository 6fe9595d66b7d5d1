// Which keys are at rest.
ghost use Rattle.std.specs.Prelude.{◌≡◌, ◌≤◌, IfOk, OnOk};
ghost use Rattle.map_object.specs.MapObject.{IsRising};
ghost use Rattle.follow_laws.specs.Left.{pairs_at};
ghost use Rattle.follow_pasts.specs.Ranges.{covered, from_to};
ghost use Rattle.follow_pasts.specs.Resting.{AreBusy, AreOnly, AreResting, HasCalls, HasDiffering, HasFound};

use crate::ranges::{Range, meet, tidied};
use events::{Memory, Operation};
use follow_cuts::{Found, Past};
use map_object::SortedMap;
use packed_map::PackedMap;
use std::alloc::Global;

/// The keys of calls that are left, those where something was found, and those where pasts differ.
pub fn busy_ranges(alloc: Global, pasts: &[Past]) -> Result<Vec<Range>, Memory>
    ensures { IfOk result (λ busy. AreBusy pasts.now (covered busy.items)) }
{
    let mut busy = Vec::new(alloc);
    for past in pasts {
        add_calls(&mut busy, &past.calls)?;
        add_found(&mut busy, &past.found)?;
        add_differing(&mut busy, &pasts[0].map, &past.map)?;
        add_differing(&mut busy, &past.map, &pasts[0].map)?;
    }
    tidied(alloc, busy)
}

/// Adds the keys of calls.
fn add_calls(busy: &mut Vec<Range>, calls: &[Operation]) -> Result<(), Memory>
    ensures { OnOk result (HasCalls calls.now busy.old.items busy.new.items) }
{
    for call in calls {
        busy.push(Range {
            low: call.call.low_key(),
            high: call.call.high_key(),
        })?;
    }
    Ok(())
}

/// Adds the keys where something was found.
fn add_found(busy: &mut Vec<Range>, found: &[Found]) -> Result<(), Memory>
    ensures { OnOk result (HasFound found.now busy.old.items busy.new.items) }
{
    for one in found {
        busy.push(Range {
            low: one.key,
            high: one.key,
        })?;
    }
    Ok(())
}

/// Adds the keys of those pairs of a map that another map does not have.
fn add_differing(busy: &mut Vec<Range>, map: &SortedMap, other: &SortedMap) -> Result<(), Memory>
    ensures { OnOk result (HasDiffering map.now other.now busy.old.items busy.new.items) }
{
    for pair in map.pairs() {
        if other.value(pair.0) != Some(pair.1) {
            busy.push(Range {
                low: pair.0,
                high: pair.0,
            })?;
        }
    }
    Ok(())
}

/// The pairs of a past except for those of busy keys.
pub fn resting_pairs(alloc: Global, busy: &[Range], past: &Past) -> Result<Vec<(u64, u64)>, Memory>
    ensures { IfOk result (λ pairs. AreResting (covered busy.now) past.now.map pairs.items) }
{
    let mut pairs = Vec::new(alloc);
    for pair in past.map.pairs() {
        if !meet(busy, pair.0, pair.0) {
            pairs.push(*pair)?;
        }
    }
    Ok(pairs)
}

/// The pasts with the pairs of busy keys only.
pub fn only_pasts(alloc: Global, busy: &[Range], pasts: Vec<Past>) -> Result<Vec<Past>, Memory>
    ensures { IfOk result (λ left. AreOnly (covered busy.now) pasts.items left.items) }
{
    let mut left = Vec::with_capacity(alloc, pasts.len())?;
    for past in pasts {
        let (map, calls, found) = past.into_parts();
        let map = only(alloc, busy, &map)?;
        left.push(Past { map, calls, found })?;
    }
    Ok(left)
}

/// The pairs of these keys only.
fn only(alloc: Global, busy: &[Range], map: &SortedMap) -> Result<SortedMap, Memory>
    ensures { IfOk result (λ only. only ≡ pairs_at (covered busy.now) map.now) }
{
    let mut pairs = Vec::new(alloc);
    for pair in map.pairs() {
        if meet(busy, pair.0, pair.0) {
            pairs.push(*pair)?;
        }
    }
    SortedMap::of(alloc, &pairs)
}

/// The pairs of the keys at rest from `low` to `high`.
pub fn pairs_within(
    alloc: Global,
    rest: &PackedMap<u64>,
    low: u64,
    high: u64,
) -> Result<SortedMap, Memory>
    requires range { low ≤ high }
    requires rising { IsRising rest.now }
    ensures { IfOk result (λ pairs. pairs ≡ pairs_at (from_to low high) rest.now) }
{
    let keys = rest.keys_within(alloc, low, high)?;
    let mut pairs = Vec::with_capacity(alloc, keys.len())?;
    for key in &keys {
        if let Some(value) = rest.get(*key) {
            pairs.push((*key, *value))?;
        }
    }
    SortedMap::of(alloc, &pairs)
}
