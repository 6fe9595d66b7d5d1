// A call begins.
ghost use Rattle.std.specs.Prelude.{◌≡◌, ℕ, ◌+◌, ◌==◌, ◌<◌, ◌^◌, ◌++◌, ◌∷◌, [], true, false, if◌then◌else◌, List, map, None, All, IfOk, OnOk};
ghost use Rattle.events.specs.declared.operation.Operation.{Operation as Done};
ghost use Rattle.events.specs.Keys.{low_key, may_change};
ghost use Rattle.map_object.specs.MapObject.{Contents, value_at};
ghost use Rattle.follow_orders.specs.Views.{IsKeptOrder};
ghost use Rattle.follow_laws.specs.Events.{with_begun};
ghost use Rattle.follow_cuts.specs.PartCuts.{kept_of};
ghost use Rattle.packed_map.specs.Entries.{entry_if};
ghost use Rattle.follow_parts.specs.Keeping.{begun, IsCounted, IsStateOf};
ghost use Rattle.follow_parts.specs.Steps.{IsBegunIn, IsPartOf, IsPartWith, IsTakenOut};

use crate::state::Parts;
use crate::table::PartTable;
use events::{Call, Memory, Operation};
use follow_cuts::Past;
use follow_orders::StoredOrder;
use follow_pasts::{OpenRead, Part, Range};
use map_object::SortedMap;
use packed_map::PackedMap;
use std::alloc::Global;

/// A call that may change the map is left in each past of the part that has its key. A key at rest
/// becomes a part.
pub(crate) fn begin_change(alloc: Global, state: Parts, call: Call) -> Result<Parts, Memory>
    requires room { state.now + 1 < 2 ^ 64 }
    requires changes { may_change call ≡ true }
    ensures state { (start : Contents) (calls : List Done) → IsStateOf start calls state
        → IfOk result (IsStateOf start (calls ++ begun call state.now ∷ [])) }
    ensures counted { IfOk result (IsCounted state) }
{
    let (rest, mut parts, reads, now) = state.apart();
    let (rest, mut part) = take_part(alloc, rest, &mut parts, call.low_key())?;
    let operation = Operation {
        call,
        inv: now,
        response: None,
    };
    begin_in(alloc, &mut part, operation)?;
    let parts = parts.put(part)?;
    Ok(Parts {
        rest,
        parts,
        reads,
        now: now + 1,
    })
}

/// Nothing is left of a read until it is answered.
pub(crate) fn begin_read(state: Parts, call: Call) -> Result<Parts, Memory>
    requires room { state.now + 1 < 2 ^ 64 }
    requires reads { may_change call ≡ false }
    ensures state { (start : Contents) (calls : List Done) → IsStateOf start calls state
        → IfOk result (IsStateOf start (calls ++ begun call state.now ∷ [])) }
    ensures counted { IfOk result (IsCounted state) }
{
    let (rest, parts, mut reads, now) = state.apart();
    reads.put(OpenRead {
        inv: now,
        low: call.low_key(),
        high: call.high_key(),
    })?;
    Ok(Parts {
        rest,
        parts,
        reads,
        now: now + 1,
    })
}

/// Takes the part out that has a key. A key at rest becomes a part.
fn take_part(
    alloc: Global,
    rest: PackedMap<u64>,
    parts: &mut PartTable,
    key: u64,
) -> Result<(PackedMap<u64>, Part), Memory>
    ensures { OnOk result (IfOk result
        (λ taken. IsPartWith key rest parts.old taken.0 parts.new taken.1)) }
{
    if let Some(part) = parts.take_with(key) {
        return Ok((rest, part));
    }
    part_of_key(alloc, rest, key)
}

/// A key at rest, as a part, and the other pairs.
fn part_of_key(
    alloc: Global,
    rest: PackedMap<u64>,
    key: u64,
) -> Result<(PackedMap<u64>, Part), Memory>
    ensures rest { IfOk result (λ made. IsTakenOut key rest made.0) }
    ensures part { IfOk result (λ made. IsPartOf key (value_at rest key) made.1) }
    ensures kept { IfOk result (λ made. IsKeptOrder made.1.first) }
{
    let mut rest = rest;
    let value = rest.remove(key);
    let pairs = pairs_of(alloc, key, value)?;
    let map = SortedMap::of(alloc, &pairs)?;
    let first = StoredOrder::new(alloc, map)?;
    let _calls = first.calls();
    let mut ranges = Vec::new(alloc);
    ranges.push(Range {
        low: key,
        high: key,
    })?;
    let part = Part {
        ranges,
        first,
        found: Vec::new(alloc),
        others: Vec::new(alloc),
        tried: 0,
    };
    Ok((rest, part))
}

/// The pair of a key, if it has a value.
fn pairs_of(alloc: Global, key: u64, value: Option<u64>) -> Result<Vec<(u64, u64)>, Memory>
    ensures { IfOk result (λ pairs. pairs.items ≡ entry_if key value) }
{
    let mut pairs = Vec::new(alloc);
    if let Some(value) = value {
        pairs.push((key, value))?;
    }
    Ok(pairs)
}

/// A call that may change the map begins in a part.
fn begin_in(alloc: Global, part: &mut Part, operation: Operation) -> Result<(), Memory>
    requires pending { operation.response ≡ None }
    requires last { All (λ a. a.inv < operation.inv) part.old.first.calls }
    ensures begun { OnOk result (IsBegunIn operation part.old part.new) }
    ensures kept { OnOk result (IsKeptOrder part.new.first) }
{
    begin_in_each(alloc, &mut part.others, &operation)?;
    part.first.begin(operation)?;
    let _calls = part.first.calls();
    Ok(())
}

/// A call begins in each of these pasts.
fn begin_in_each(alloc: Global, pasts: &mut [Past], operation: &Operation) -> Result<(), Memory>
    ensures { OnOk result (map kept_of pasts.new
        ≡ map (with_begun operation.now) (map kept_of pasts.old)) }
{
    for place in 0..pasts.len() {
        let copy = operation.copy(alloc)?;
        pasts[place].calls.push(copy)?;
    }
    Ok(())
}
