// The keys that calls name, as ranges.
ghost use Rattle.std.specs.Prelude.{◌≢◌, ◌<◌, ◌≤◌, ◌^◌, length, map, All, AllPairs, IsPermutation, IsTrue, IfOk};
ghost use Rattle.std.specs.Option.{SomeIff};
ghost use Rattle.std.specs.List.Sorted.{IsStrictlyIncreasing};
ghost use Rattle.events.specs.Keys.{low_key, high_key};
ghost use Rattle.events.specs.Precedence.{belongs};
ghost use Rattle.cutter.specs.KeyRanges.{AreRanges, range_with};

use events::{Memory, Operation};
use std::alloc::Global;

/// The least and the greatest key that a call names, with the call's number.
#[derive(Clone, Copy)]
pub struct KeyRange {
    pub low: u64,
    pub high: u64,
    pub number: u32,
}

/// Returns the ranges of the calls that belong to a segment, by rising low key.
pub fn ranges_by_low_key(alloc: Global, calls: &[Operation]) -> Result<Vec<KeyRange>, Memory>
    requires few { length calls.now < 2 ^ 32 }
    requires in_order { All (λ a. low_key a.call ≤ high_key a.call) calls.now }
    ensures ranges { IfOk result (λ v. AreRanges calls.now v.items) }
    ensures by_low_key { IfOk result (λ v. AllPairs (λ r s. r.low ≤ s.low) v.items) }
{
    let mut ranges = ranges_of(alloc, calls)?;
    ranges.sort_by_key(|range| range.low)?;
    Ok(ranges)
}

/// Returns the ranges of the calls that belong to a segment, by number.
fn ranges_of(alloc: Global, calls: &[Operation]) -> Result<Vec<KeyRange>, Memory>
    requires few { length calls.now < 2 ^ 32 }
    requires in_order { All (λ a. low_key a.call ≤ high_key a.call) calls.now }
    ensures { IfOk result (λ v. AreRanges calls.now v.items) }
{
    let mut ranges = Vec::new(alloc);
    for (number, operation) in calls.iter().enumerate() {
        if let Some(range) = range_of(number as u32, operation) {
            ranges.push(range)?;
        }
    }
    Ok(ranges)
}

/// Returns the range of a call, if it belongs to a segment.
fn range_of(number: u32, operation: &Operation) -> Option<KeyRange>
    ensures { SomeIff result (IsTrue (belongs operation.now)) (range_with number operation.now.call) }
{
    if !operation.belongs() {
        return None;
    }
    Some(KeyRange {
        low: operation.call.low_key(),
        high: operation.call.high_key(),
        number,
    })
}

/// Returns the numbers of the ranges, rising.
pub fn rising_numbers(alloc: Global, ranges: &[KeyRange]) -> Result<Vec<u32>, Memory>
    requires { AllPairs (λ r s. r.number ≢ s.number) ranges.now }
    ensures rising { IfOk result (λ v. IsStrictlyIncreasing v.items) }
    ensures same_numbers { IfOk result (λ v. IsPermutation (map (λ r. r.number) ranges.now) v.items) }
{
    let mut numbers: Vec<u32> = ranges.iter().map(|range| range.number).collect(alloc)?;
    numbers.sort()?;
    Ok(numbers)
}
