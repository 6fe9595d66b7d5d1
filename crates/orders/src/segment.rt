// Segments: some calls of a history, for which an order is searched separately.
ghost use Rattle.std.specs.Prelude.{◌≡◌, ◌≢◌, ◌↔◌, ℕ, ◌<◌, ◌^◌, ◌++◌, ◌∷◌, [], length, map, All, Contains, IfOk, OnOk, MatchOption};
ghost use Rattle.std.specs.List.Sorted.{IsStrictlyIncreasing};
ghost use Rattle.events.specs.Lists.{least, greatest};
ghost use Rattle.events.specs.Keys.{low_key, high_key};
ghost use Rattle.orders.specs.Cuts.{BelongsAt};
ghost use Rattle.events.specs.Operations.{operations};
ghost use Rattle.map_object.specs.MapObject.{within};
ghost use Rattle.orders.specs.Orders.{calls_at};
ghost use Rattle.orders.specs.SegmentView.{segment_of, IsSegmentView};
ghost use Rattle.orders.specs.WholeSegments.{NoneBelongs, IsWholeSegment};

use events::{History, Memory, Operation};
use std::alloc::Global;
use std::marker::Model;

/// At least one call of a history. A segment has its calls by rising number, and the least and the
/// greatest key that they name. It also has the pairs of the history's start from that least key to
/// that greatest key. Contracts see these parts.
pub struct Segment {
    numbers: Vec<u32>,
    calls: Vec<Operation>,
    lo: u64,
    hi: u64,
    start: Vec<(u64, u64)>,
}

impl Drop for Segment {
    fn drop(self) {
        let Segment {
            numbers: _numbers,
            calls: _calls,
            lo: _,
            hi: _,
            start: _start,
        } = self;
    }
}

impl Model for Segment {
    ghost use Rattle.orders.specs.SegmentView.{SegmentView, IsSegmentView};

    ghost Value = { SegmentView };

    ghost view = { λ s. record { numbers = s.numbers.items; calls = s.calls.items; lo = s.lo; hi = s.hi; start = s.start.items } };

    ghost invariant = { λ s. IsSegmentView (record { numbers = s.numbers.items; calls = s.calls.items; lo = s.lo; hi = s.hi; start = s.start.items }) };
}

impl Segment {
    /// Makes a segment of the calls with these numbers. It copies the calls, the pairs of their
    /// replies, and the starting pairs from the least key that they name to the greatest.
    pub fn of(alloc: Global, history: &History, numbers: &[u32]) -> Result<Segment, Memory>
        requires not_empty { numbers.now ≢ [] }
        requires rising { IsStrictlyIncreasing numbers.now }
        requires known { All (λ n. n < length (operations history.now.events)) numbers.now }
        ensures { IfOk result (λ s. s ≡ segment_of history.now.start (operations history.now.events) numbers.now) }
    {
        let calls = copies_of(alloc, history.calls(), numbers)?;
        let numbers = Vec::from_slice(alloc, numbers)?;
        let lo = least_key(&calls);
        let hi = greatest_key(&calls);
        let start = pairs_within(alloc, history.start(), lo, hi)?;
        Ok(Segment {
            numbers,
            calls,
            lo,
            hi,
            start,
        })
    }

    /// Makes a segment of all calls of the history except pending gets and pending scans, or `None`
    /// if there are no others. It copies the calls and the pairs of their replies.
    pub fn whole(alloc: Global, history: &History) -> Result<Option<Segment>, Memory>
        ensures { IfOk result (λ o. MatchOption o (NoneBelongs (operations history.now.events))
            (IsWholeSegment history.now.start (operations history.now.events))) }
    {
        let numbers = numbers_that_belong(alloc, history.calls())?;
        if numbers.is_empty() {
            return Ok(None);
        }
        Ok(Some(Segment::of(alloc, history, &numbers)?))
    }

    /// Returns the numbers of the calls in the history, rising.
    pub fn numbers(&self) -> &[u32]
        ensures numbers { result.now ≡ self.now.numbers }
        ensures segment { IsSegmentView self.now }
    {
        &self.numbers
    }

    /// Returns the calls, in the order of their numbers. An order of the segment names a call by
    /// its place in this list.
    pub fn calls(&self) -> &[Operation]
        ensures calls { result.now ≡ self.now.calls }
        ensures segment { IsSegmentView self.now }
    {
        &self.calls
    }

    /// Returns the least key that one of its calls names.
    pub fn lo(&self) -> u64
        ensures { result ≡ self.now.lo }
    {
        self.lo
    }

    /// Returns the greatest key that one of its calls names.
    pub fn hi(&self) -> u64
        ensures { result ≡ self.now.hi }
    {
        self.hi
    }

    /// Returns the pairs of the history's start from the segment's least key to its greatest, by
    /// rising key.
    pub fn start(&self) -> &[(u64, u64)]
        ensures start { result.now ≡ self.now.start }
        ensures segment { IsSegmentView self.now }
    {
        &self.start
    }

    /// Copies the segment.
    pub fn copy(&self, alloc: Global) -> Result<Segment, Memory>
        ensures { IfOk result (λ s. s ≡ self.now) }
    {
        let numbers = Vec::from_slice(alloc, &self.numbers)?;
        let calls = copies(alloc, &self.calls)?;
        let start = Vec::from_slice(alloc, &self.start)?;
        Ok(Segment {
            numbers,
            calls,
            lo: self.lo,
            hi: self.hi,
            start,
        })
    }
}

/// Returns the numbers of the calls that belong to a segment, rising.
fn numbers_that_belong(alloc: Global, calls: &[Operation]) -> Result<Vec<u32>, Memory>
    requires { length calls.now < 2 ^ 32 }
    ensures rising { IfOk result (λ v. IsStrictlyIncreasing v.items) }
    ensures members { IfOk result (λ v. (n : ℕ) → Contains v.items n ↔ BelongsAt calls.now n) }
{
    let mut numbers = Vec::new(alloc);
    for (number, operation) in calls.iter().enumerate() {
        let belongs = operation.belongs();
        if belongs {
            numbers.push(number as u32)?;
        }
    }
    Ok(numbers)
}

/// Returns the calls with these numbers.
fn copies_of(alloc: Global, calls: &[Operation], numbers: &[u32]) -> Result<Vec<Operation>, Memory>
    requires { All (λ n. n < length calls.now) numbers.now }
    ensures { IfOk result (λ v. v.items ≡ calls_at calls.now numbers.now) }
{
    let mut taken = Vec::new(alloc);
    for number in numbers {
        push_copy(alloc, &mut taken, &calls[*number as usize])?;
    }
    Ok(taken)
}

/// Returns the pairs with a key from the one to the other, both included.
fn pairs_within(
    alloc: Global,
    pairs: &[(u64, u64)],
    lo: u64,
    hi: u64,
) -> Result<Vec<(u64, u64)>, Memory>
    ensures { IfOk result (λ v. v.items ≡ within lo hi pairs.now) }
{
    let mut taken = Vec::new(alloc);
    for pair in pairs {
        if lo <= pair.0 && pair.0 <= hi {
            taken.push(*pair)?;
        }
    }
    Ok(taken)
}

/// Copies the calls.
fn copies(alloc: Global, calls: &[Operation]) -> Result<Vec<Operation>, Memory>
    ensures { IfOk result (λ v. v.items ≡ calls.now) }
{
    let mut taken = Vec::new(alloc);
    for call in calls {
        push_copy(alloc, &mut taken, call)?;
    }
    Ok(taken)
}

/// Appends a copy of the call.
fn push_copy(alloc: Global, taken: &mut Vec<Operation>, call: &Operation) -> Result<(), Memory>
    ensures { OnOk result (taken.new.items ≡ taken.old.items ++ call.now ∷ []) }
{
    taken.push(call.copy(alloc)?)?;
    Ok(())
}

/// Returns the least key that the calls name, or 0 if there is no call.
fn least_key(calls: &[Operation]) -> u64
    ensures { result ≡ least (map (λ a. low_key a.call) calls.now) }
{
    let mut least: u64 = 0;
    for (place, operation) in calls.iter().enumerate() {
        let low = operation.call.low_key();
        least = if place == 0 { low } else { least.min(low) };
    }
    least
}

/// Returns the greatest key that the calls name, or 0 if there is no call.
fn greatest_key(calls: &[Operation]) -> u64
    ensures { result ≡ greatest (map (λ a. high_key a.call) calls.now) }
{
    let mut greatest: u64 = 0;
    for operation in calls {
        greatest = greatest.max(operation.call.high_key());
    }
    greatest
}
