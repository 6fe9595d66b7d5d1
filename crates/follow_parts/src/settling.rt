// A part moves on to a later moment.
ghost use Rattle.std.specs.Prelude.{◌≡◌, ◌<◌, map, All, AllPairs, IfOk, IfSome};
ghost use Rattle.events.specs.Precedence.{NonePrecedesItself};
ghost use Rattle.follow_cuts.specs.PartCuts.{AreShaped, kept_of};
ghost use Rattle.follow_pasts.specs.Shapes.{IsPastShaped};
ghost use Rattle.follow_pasts.specs.Views.{kept_part};
ghost use Rattle.follow_parts.specs.Shapes.{IsPartBefore};
ghost use Rattle.follow_parts.specs.Settled.{AreAtRestThen, AreThen, AreThoseAlive, IsAliveOrDead, IsKeptSo, IsLeftPut, IsPartFrom, IsParted, IsSettled, IsSettledWith, IsWithPairs, MayBePut, MovesOn};

use crate::state::Parts;
use crate::table::PartTable;
use call_effects::is_ended;
use events::{Memory, Operation};
use follow_cuts::{Cut, Limits, Past, pasts_at};
use follow_orders::{Mended, StoredOrder};
use follow_pasts::{
    GoneOn, OpenReads, Part, Range, any_alive, busy_ranges, is_time, moment_for, only_pasts,
    place_of, resting_pairs,
};
use orders::{apply, may_come_next};
use packed_map::PackedMap;
use std::alloc::Global;

/// The most positions of a level, and the most pasts.
const WIDTH: usize = 64;

/// The most configurations that are searched to find out whether a past goes on.
const NEAR_BUDGET: u32 = 2_000;

/// The parts that have some key from `low` to `high` move on, if it is time.
pub(crate) fn settle_met(alloc: Global, state: Parts, low: u64, high: u64) -> Result<Parts, Memory>
    ensures { IfOk result (IsSettled state) }
{
    let (rest, parts, reads, now) = state.apart();
    let (parts, met) = parts.take_met(alloc, low, high)?;
    let mut state = Parts {
        rest,
        parts,
        reads,
        now,
    };
    for part in met {
        state = settle(alloc, state, part)?;
    }
    Ok(state)
}

/// The state with a part more. The part moves on before, if it is time.
pub(crate) fn settle(alloc: Global, state: Parts, part: Part) -> Result<Parts, Memory>
    requires { MayBePut part state }
    ensures { IfOk result (IsSettledWith part state) }
{
    let (rest, parts, reads, now) = state.apart();
    if !is_time(&part) {
        let parts = parts.put(part)?;
        return Ok(Parts {
            rest,
            parts,
            reads,
            now,
        });
    }
    let Some(moved) = moved_on(alloc, &part, &reads, now)? else {
        let parts = parts.put(tried_again(part))?;
        return Ok(Parts {
            rest,
            parts,
            reads,
            now,
        });
    };
    let (pairs, left) = moved.apart();
    let rest = add_pairs(rest, &pairs)?;
    let parts = put_left(parts, left)?;
    Ok(Parts {
        rest,
        parts,
        reads,
        now,
    })
}

/// The parts and what is left of one more, if there is something.
fn put_left(parts: PartTable, left: Option<Part>) -> Result<PartTable, Memory>
    ensures { IfOk result (IsLeftPut left parts) }
{
    match left {
        Some(part) => parts.put(part),
        None => Ok(parts),
    }
}

/// A part that was tried in vain: it is tried again when half as many calls more are left.
fn tried_again(part: Part) -> Part
    ensures { IsKeptSo part result }
{
    let (ranges, first, found, others, _tried) = part.apart();
    let tried = first.calls().len();
    Part {
        ranges,
        first,
        found,
        others,
        tried,
    }
}

/// Keys that are at rest now have these pairs.
pub(crate) fn add_pairs(
    mut rest: PackedMap<u64>,
    pairs: &[(u64, u64)],
) -> Result<PackedMap<u64>, Memory>
    ensures { IfOk result (λ new. IsWithPairs pairs.now rest new) }
{
    for pair in pairs {
        rest.insert(pair.0, pair.1)?;
    }
    Ok(rest)
}

/// What a part becomes at a later moment: the pairs of the keys that are at rest there, and the
/// part of the others, if there are any.
pub(crate) struct Moved {
    pub pairs: Vec<(u64, u64)>,
    pub left: Option<Part>,
}

impl Drop for Moved {
    fn drop(self) {
        let Moved {
            pairs: _pairs,
            left: _left,
        } = self;
    }
}

impl Moved {
    /// Its fields.
    pub fn apart(self) -> (Vec<(u64, u64)>, Option<Part>)
        ensures pairs { result.0 ≡ self.pairs }
        ensures left { result.1 ≡ self.left }
    {
        let Moved { pairs, left } = self;
        (pairs, left)
    }
}

/// Returns what a part becomes at a later moment. There is nothing to return if it is not time, if
/// there are too many pasts, or if no order of one is found.
fn moved_on(
    alloc: Global,
    part: &Part,
    reads: &OpenReads,
    now: usize,
) -> Result<Option<Moved>, Memory>
    requires { IsPartBefore now reads.now part.now }
    ensures { IfOk result (λ moved. IfSome moved (MovesOn now reads.now part.now)) }
{
    let Some(moment) = moment_for(alloc, part, reads, now)? else {
        return Ok(None);
    };
    if let Some(pairs) = rested(alloc, part, moment)? {
        return Ok(Some(Moved { pairs, left: None }));
    }
    match pasts_then(alloc, part, moment)? {
        Some(pasts) => parted(alloc, &part.first, pasts),
        None => Ok(None),
    }
}

/// Returns the pairs of a part at a moment, if its only past has only one call left, which ended
/// before the moment. All keys are at rest then. Most keys have one call at a time, and need no
/// walk.
fn rested(alloc: Global, part: &Part, moment: usize) -> Result<Option<Vec<(u64, u64)>>, Memory>
    requires { All IsPastShaped (kept_part part.now).pasts }
    ensures { IfOk result (λ rested. IfSome rested (λ pairs. AreAtRestThen moment part.now
        pairs.items)) }
{
    let start = part.first.start();
    let calls = part.first.calls();
    if calls.len() != 1 || !part.found.is_empty() || !part.others.is_empty() {
        return Ok(None);
    }
    let call = &calls[0];
    if !is_ended(call, moment) || !may_come_next(start, call) {
        return Ok(None);
    }
    let mut map = start.copy(alloc)?;
    apply(alloc, &mut map, call)?;
    let pairs = Vec::from_slice(alloc, map.pairs())?;
    Ok(Some(pairs))
}

/// Returns the pasts of a part at a moment, without those that are found to have no order. Returns
/// none if there are too many.
fn pasts_then(alloc: Global, part: &Part, moment: usize) -> Result<Option<Vec<Past>>, Memory>
    requires { All IsPastShaped (kept_part part.now).pasts }
    ensures { IfOk result (λ then. IfSome then (λ pasts. AreThen moment part.now pasts.items)) }
{
    let pasts = part.pasts(alloc)?;
    let limits = Limits {
        width: WIDTH,
        levels: part.first.calls().len().saturating_add(2),
        pasts: WIDTH,
    };
    match pasts_at(alloc, &pasts, moment, limits)? {
        Cut::Pasts(made) => Ok(Some(those_alive(alloc, made, &part.first)?)),
        Cut::Spent => Ok(None),
    }
}

/// Separates the busy keys of pasts from the others, which are at rest. Returns none if no past is
/// found to have an order. `old` is an order that is tried first.
fn parted(alloc: Global, old: &StoredOrder, pasts: Vec<Past>) -> Result<Option<Moved>, Memory>
    requires { AreShaped pasts.items }
    ensures { IfOk result (λ moved. IfSome moved (IsParted pasts.items)) }
{
    if pasts.is_empty() {
        return Ok(None);
    }
    let busy = busy_ranges(alloc, &pasts)?;
    let pairs = resting_pairs(alloc, &busy, &pasts[0])?;
    if busy.is_empty() {
        return Ok(Some(Moved { pairs, left: None }));
    }
    let pasts = only_pasts(alloc, &busy, pasts)?;
    match part_from(alloc, old, busy, pasts)? {
        Some(part) => Ok(Some(Moved {
            pairs,
            left: Some(part),
        })),
        None => Ok(None),
    }
}

/// A part of these ranges. Its pasts are the first one that has an order, and those after it. There
/// is none if no such past is found.
fn part_from(
    alloc: Global,
    old: &StoredOrder,
    ranges: Vec<Range>,
    pasts: Vec<Past>,
) -> Result<Option<Part>, Memory>
    requires { AreShaped pasts.items }
    ensures { IfOk result (λ part. IfSome part (IsPartFrom ranges.items pasts.items)) }
{
    let Some(first) = pasts.first() else {
        return Ok(None);
    };
    let guess = guess_of(alloc, old, &first.calls)?;
    match any_alive(alloc, pasts, &guess, NEAR_BUDGET)? {
        GoneOn::Alive {
            first,
            found,
            others,
        } => {
            let tried = first.calls().len();
            Ok(Some(Part {
                ranges,
                first,
                found,
                others,
                tried,
            }))
        }
        GoneOn::Dead(_) | GoneOn::Doubtful(_) => Ok(None),
    }
}

/// The pasts without those that are found to have no order.
fn those_alive(alloc: Global, made: Vec<Past>, old: &StoredOrder) -> Result<Vec<Past>, Memory>
    requires { AreShaped made.items }
    ensures { IfOk result (λ alive. AreThoseAlive (map kept_of made.items)
        (map kept_of alive.items)) }
{
    let mut alive = Vec::new(alloc);
    for past in made {
        if let Some(next) = alive_one(alloc, past, old)? {
            alive.push(next)?;
        }
    }
    Ok(alive)
}

/// The past, unless it is found that it has no order.
fn alive_one(alloc: Global, past: Past, old: &StoredOrder) -> Result<Option<Past>, Memory>
    requires rising { AllPairs (λ a b. a.inv < b.inv) past.calls.items }
    requires apart { NonePrecedesItself past.calls.items }
    ensures { IfOk result (IsAliveOrDead (kept_of past)) }
{
    if past.calls.is_empty() {
        return Ok(Some(past));
    }
    let (map, calls, found) = past.into_parts();
    let guess = guess_of(alloc, old, &calls)?;
    match StoredOrder::find(alloc, map, calls, &guess, NEAR_BUDGET)? {
        Mended::Order(order) => {
            let (map, calls, _order) = order.into_parts(alloc)?;
            Ok(Some(Past { map, calls, found }))
        }
        Mended::NoOrder { .. } => Ok(None),
        Mended::Spent { start, calls } => Ok(Some(Past {
            map: start,
            calls,
            found,
        })),
    }
}

/// The places, among these calls, of the calls of an order.
fn guess_of(alloc: Global, old: &StoredOrder, calls: &[Operation]) -> Result<Vec<u32>, Memory>
    requires { AllPairs (λ a b. a.inv < b.inv) calls.now }
{
    let order = old.order(alloc)?;
    let known = old.calls();
    let mut guess = Vec::new(alloc);
    for place in &order {
        if let Some(place) = place_among(known, calls, *place) {
            guess.push(place)?;
        }
    }
    Ok(guess)
}

/// The place, among these calls, of the call at a place among others, if these calls have it.
fn place_among(known: &[Operation], calls: &[Operation], place: u32) -> Option<u32>
    requires { AllPairs (λ a b. a.inv < b.inv) calls.now }
{
    let place = place as usize;
    if place >= known.len() {
        return None;
    }
    match place_of(calls, known[place].inv) {
        Some(place) => u32::try_from(place).ok(),
        None => None,
    }
}
