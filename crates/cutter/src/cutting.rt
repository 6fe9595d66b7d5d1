// The segments of a history, found by one walk over the ranges of its calls.
ghost use Rattle.std.specs.Prelude.{◌≢◌, ◌<◌, ◌≤◌, [], length, take, drop, All, AllPairs, IfOk};
ghost use Rattle.events.specs.Operations.{operations};
ghost use Rattle.orders.specs.Orders.{IsLinearizableHistory};
ghost use Rattle.orders.specs.Segments.{AreSegments};
ghost use Rattle.orders.specs.SegmentOrders.{HasNoOrder};
ghost use Rattle.cutter.specs.KeyRanges.{AreRanges, AreApart, AreChained};

use crate::key_range::{KeyRange, ranges_by_low_key, rising_numbers};
use events::{History, Memory};
use orders::Segment;
use std::alloc::Global;

/// Splits the history into segments, by rising key. Pending gets and pending scans are in none. If
/// one segment has no order from its own starting pairs, the history has none. For n calls it takes
/// time in proportion to n log n, and to the pairs in their replies, which it copies.
pub fn cut(alloc: Global, history: &History) -> Result<Vec<Segment>, Memory>
    ensures segments { IfOk result (λ v.
        AreSegments history.now.start (operations history.now.events) v.items) }
    ensures refutes { IfOk result (λ v. All (λ s.
        HasNoOrder s → IsLinearizableHistory history.now → ⊥) v.items) }
{
    let ranges = ranges_by_low_key(alloc, history.calls())?;
    segments_of(alloc, history, &ranges)
}

/// Returns the segments of a history, from the ranges of its calls by rising low key.
fn segments_of(
    alloc: Global,
    history: &History,
    ranges: &[KeyRange],
) -> Result<Vec<Segment>, Memory>
    requires ranges { AreRanges (operations history.now.events) ranges.now }
    requires by_low_key { AllPairs (λ r s. r.low ≤ s.low) ranges.now }
    ensures { IfOk result (λ v.
        AreSegments history.now.start (operations history.now.events) v.items) }
{
    let mut segments = Vec::new(alloc);
    let mut rest = ranges;
    while !rest.is_empty() {
        let (chained, later) = rest.split_at(chained_len(rest));
        let numbers = rising_numbers(alloc, chained)?;
        segments.push(Segment::of(alloc, history, &numbers)?)?;
        rest = later;
    }
    Ok(segments)
}

/// Returns how many of the ranges, from the first one on, are connected: each but the first begins
/// at or below the greatest key of those before it.
fn chained_len(ranges: &[KeyRange]) -> usize
    requires not_empty { ranges.now ≢ [] }
    requires by_low_key { AllPairs (λ r s. r.low ≤ s.low) ranges.now }
    ensures some { 0 < result }
    ensures within { result ≤ length ranges.now }
    ensures chained { AreChained (take result ranges.now) }
    ensures apart { AreApart (take result ranges.now) (drop result ranges.now) }
{
    let mut reach: u64 = 0;
    for (place, range) in ranges.iter().enumerate() {
        if place > 0 && reach < range.low {
            return place;
        }
        reach = reach.max(range.high);
    }
    ranges.len()
}
