// Parts become one.
ghost use Rattle.std.specs.Prelude.{◌≡◌, ℕ, ◌≤◌, ◌<◌, ◌≢◌, ◌⊎◌, ◌↔◌, List, map, length, All, AllPairs, Contains, IfOk, OnOk};
ghost use Rattle.events.specs.declared.operation.Operation.{Operation as Done};
ghost use Rattle.map_object.specs.MapObject.{IsRising, value_at};
ghost use Rattle.follow_pasts.specs.Ranges.{or_else};
ghost use Rattle.follow_cuts.specs.PartCuts.{AreShaped, kept_of};
ghost use Rattle.follow_pasts.specs.Shapes.{AreBesideEachOther, AreBesidePasts, IsPartShaped};
ghost use Rattle.follow_pasts.specs.Uniting.{AreAllPairs, ArePairsOf, AreOne, HasRow, IsTakenFrom, IsTogetherWith, IsUnited};

use crate::part::Part;
use crate::pasts::place_for;
use crate::ranges::{Range, tidied};
use events::{Call, Memory, Operation};
use follow_cuts::Past;
use follow_orders::StoredOrder;
use map_object::SortedMap;
use packed_map::PackedMap;
use std::alloc::Global;

/// Parts that became one: the keys and the pasts of the new part. It also has a moment for each
/// call of the saved orders, with the call's invocation, by rising moments.
pub struct United {
    pub ranges: Vec<Range>,
    pub tried: usize,
    pub pasts: Vec<Past>,
    pub points: Vec<(usize, usize)>,
}

impl Drop for United {
    fn drop(self) {
        let United {
            ranges: _ranges,
            tried: _,
            pasts: _pasts,
            points: _points,
        } = self;
    }
}

impl United {
    /// Its fields.
    pub fn apart(self) -> (Vec<Range>, usize, Vec<Past>, Vec<(usize, usize)>)
        ensures { result ≡ (self.ranges, self.tried, self.pasts, self.points) }
    {
        let United {
            ranges,
            tried,
            pasts,
            points,
        } = self;
        (ranges, tried, pasts, points)
    }
}

/// One part of these parts and of the keys at rest from `low` to `high`. It has as many pasts as
/// there are ways to choose one of each part.
pub fn unite(
    alloc: Global,
    rest: &mut PackedMap<u64>,
    met: Vec<Part>,
    low: u64,
    high: u64,
) -> Result<United, Memory>
    requires range { low ≤ high }
    requires rising { IsRising rest.old }
    requires parts { All IsPartShaped met.items }
    requires apart { AllPairs AreBesideEachOther met.items }
    ensures united { OnOk result (IfOk result
        (IsUnited low high rest.old rest.new met.items)) }
    ensures shaped { IfOk result (λ united. AreShaped united.pasts.items) }
    ensures some { IfOk result (λ united. 0 < length united.pasts.items) }
{
    let mut united = part_at_rest(alloc, rest, low, high)?;
    for part in met {
        united = with_part(alloc, united, &part)?;
    }
    let (ranges, tried, pasts, mut points) = united.apart();
    let ranges = tidied(alloc, ranges)?;
    points.sort_by_key(|point| point.0)?;
    Ok(United {
        ranges,
        tried,
        pasts,
        points,
    })
}

/// The keys at rest of a range, as a part.
fn part_at_rest(
    alloc: Global,
    rest: &mut PackedMap<u64>,
    low: u64,
    high: u64,
) -> Result<United, Memory>
    requires range { low ≤ high }
    requires rising { IsRising rest.old }
    ensures { OnOk result (IfOk result (IsTakenFrom low high rest.old rest.new)) }
{
    let map = take_range(alloc, rest, low, high)?;
    let mut ranges = Vec::new(alloc);
    ranges.push(Range { low, high })?;
    let mut pasts = Vec::new(alloc);
    pasts.push(Past {
        map,
        calls: Vec::new(alloc),
        found: Vec::new(alloc),
    })?;
    Ok(United {
        ranges,
        tried: 0,
        pasts,
        points: Vec::new(alloc),
    })
}

/// Takes the keys at rest of a range, with their values.
fn take_range(
    alloc: Global,
    rest: &mut PackedMap<u64>,
    low: u64,
    high: u64,
) -> Result<SortedMap, Memory>
    requires range { low ≤ high }
    requires rising { IsRising rest.old }
    ensures { OnOk result (IfOk result (ArePairsOf low high rest.old rest.new)) }
{
    let keys = rest.keys_within(alloc, low, high)?;
    let mut pairs = Vec::with_capacity(alloc, keys.len())?;
    for key in &keys {
        if let Some(value) = rest.remove(*key) {
            pairs.push((*key, value))?;
        }
    }
    SortedMap::of(alloc, &pairs)
}

/// The part that a part makes with others.
fn with_part(alloc: Global, united: United, part: &Part) -> Result<United, Memory>
    requires shaped { AreShaped united.pasts.items }
    requires own { IsPartShaped part.now }
    requires apart { AreBesidePasts part.now (map kept_of united.pasts.items) }
    ensures { IfOk result (IsTogetherWith united part.now) }
{
    let (mut ranges, tried, pasts, mut points) = united.apart();
    for range in &part.ranges {
        ranges.push(*range)?;
    }
    add_points(alloc, &mut points, &part.first)?;
    let own = part.pasts(alloc)?;
    let pasts = all_pairs(alloc, &pasts, &own)?;
    Ok(United {
        ranges,
        tried: tried.max(part.tried),
        pasts,
        points,
    })
}

/// The calls of an order, each with a moment when it may take effect. That is no later than the
/// moments of the calls after it.
fn add_points(
    alloc: Global,
    points: &mut Vec<(usize, usize)>,
    first: &StoredOrder,
) -> Result<(), Memory> {
    let order = first.order(alloc)?;
    let calls = first.calls();
    let mut point = 0;
    for place in &order {
        if (*place as usize) < calls.len() {
            let inv = calls[*place as usize].inv;
            point = inv.max(point);
            points.push((point, inv))?;
        }
    }
    Ok(())
}

/// All pairs of two lists of pasts, each pair as one past.
fn all_pairs(alloc: Global, pasts: &[Past], others: &[Past]) -> Result<Vec<Past>, Memory>
    requires shaped { AreShaped pasts.now }
    requires others { AreShaped others.now }
    requires apart { All (λ past. All (λ other. All (λ o. All (λ p. o.inv ≢ p.inv)
        other.calls.items) past.calls.items) others.now) pasts.now }
    ensures { IfOk result (λ all. AreAllPairs pasts.now others.now all.items) }
{
    let mut all = Vec::new(alloc);
    for past in pasts {
        add_combinations(alloc, &mut all, past, others)?;
    }
    Ok(all)
}

/// Adds a past with each of others, each pair as one past.
fn add_combinations(
    alloc: Global,
    all: &mut Vec<Past>,
    past: &Past,
    others: &[Past],
) -> Result<(), Memory>
    requires rising { AllPairs (λ a b. a.inv < b.inv) past.now.calls.items }
    requires others { AreShaped others.now }
    requires apart { All (λ other. All (λ o. All (λ p. o.inv ≢ p.inv) other.calls.items)
        past.now.calls.items) others.now }
    ensures { OnOk result (HasRow past.now others.now all.old.items all.new.items) }
{
    for other in others {
        all.push(together(alloc, past, other)?)?;
    }
    Ok(())
}

/// Two pasts of different keys as one.
fn together(alloc: Global, past: &Past, other: &Past) -> Result<Past, Memory>
    requires rising { AllPairs (λ a b. a.inv < b.inv) past.now.calls.items }
    requires other { AllPairs (λ a b. a.inv < b.inv) other.now.calls.items }
    requires apart { All (λ o. All (λ p. o.inv ≢ p.inv) other.now.calls.items)
        past.now.calls.items }
    ensures { IfOk result (AreOne past.now other.now) }
{
    let map = pairs_together(alloc, &past.map, &other.map)?;
    let calls = calls_together(alloc, &past.calls, &other.calls)?;
    let mut found = Vec::from_slice(alloc, &past.found)?;
    for one in &other.found {
        found.push(*one)?;
    }
    Ok(Past { map, calls, found })
}

/// Pairs with those of other keys, which come in their place if they have the same key.
fn pairs_together(alloc: Global, pairs: &SortedMap, others: &SortedMap) -> Result<SortedMap, Memory>
    ensures rises { IfOk result IsRising }
    ensures values { IfOk result (λ both. (key : ℕ) → value_at both key
        ≡ or_else (value_at others.now key) (value_at pairs.now key)) }
{
    let mut both = SortedMap::of(alloc, pairs.pairs())?;
    let added = others.pairs();
    for pair in added {
        let _none = both.step(alloc, &Call::Insert(pair.0, pair.1))?;
    }
    Ok(both)
}

/// Calls and others, by rising invocation.
fn calls_together(
    alloc: Global,
    calls: &[Operation],
    others: &[Operation],
) -> Result<Vec<Operation>, Memory>
    requires rising { AllPairs (λ a b. a.inv < b.inv) calls.now }
    requires others { AllPairs (λ a b. a.inv < b.inv) others.now }
    requires apart { All (λ o. All (λ p. o.inv ≢ p.inv) others.now) calls.now }
    ensures rising { IfOk result (λ all. AllPairs (λ o p. o.inv < p.inv) all.items) }
    ensures each { IfOk result (λ all. (o : Done) → Contains all.items o
        ↔ (Contains calls.now o ⊎ Contains others.now o)) }
{
    let mut all = Vec::with_capacity(alloc, calls.len())?;
    for own in calls {
        all.push(own.copy(alloc)?)?;
    }
    for other in others {
        let place = place_for(&all, other.inv);
        all.insert(place, other.copy(alloc)?)?;
    }
    Ok(all)
}
