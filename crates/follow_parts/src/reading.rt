// A read is answered.
ghost use Rattle.std.specs.Prelude.{◌≡◌, ◌≢◌, ℕ, ◌+◌, ◌≤◌, ◌<◌, ◌^◌, ◌++◌, ◌∷◌, [], true, false, List, map, length, All, AllPairs, IfOk, IsSome, IsTrue, IsFalse, OnOk};
ghost use Rattle.std.specs.List.{AllZip};
ghost use Rattle.events.specs.declared.operation.Operation.{Operation as Done};
ghost use Rattle.events.specs.declared.operation.Response.{Response as Told};
ghost use Rattle.events.specs.Keys.{low_key, high_key, may_change};
ghost use Rattle.map_object.specs.MapObject.{Contents, IsRising};
ghost use Rattle.follow_laws.specs.Forms.{HasForm};
ghost use Rattle.follow_laws.specs.KeyedCalls.{is_refused};
ghost use Rattle.follow_cuts.specs.PartCuts.{AreShaped, kept_of};
ghost use Rattle.follow_laws.specs.Events.{IsWithRead};
ghost use Rattle.follow_laws.specs.KeptParts.{AreKept};
ghost use Rattle.orders.specs.Orders.{IsLegalCall};
ghost use Rattle.follow_pasts.specs.Views.{kept_part};
ghost use Rattle.follow_pasts.specs.Pasts.{IsAnswerOf};
ghost use Rattle.follow_pasts.specs.Shapes.{AreBesideEachOther, IsPartShaped};
ghost use Rattle.follow_parts.specs.Views.{kept_parts};
ghost use Rattle.follow_parts.specs.Going.{HasOwnPlace};
ghost use Rattle.events.specs.Precedence.{precedes};
ghost use Rattle.follow_parts.specs.Keeping.{AreReadsOf, HasEndedBy, IsAnswered, IsStateOf};
ghost use Rattle.follow_parts.specs.Shapes.{MayComeTo};
ghost use Rattle.follow_parts.specs.Steps.{HasGoneIn, IsReadIn, IsReportedAt, ReportsNothing};

use crate::going::go_on;
use crate::settling::settle_met;
use crate::state::{Answered, Parts};
use events::{Call, Memory, Operation, Reply};
use follow_cuts::Past;
use follow_pasts::{
    GoneOn, OpenRead, Part, Range, United, any_alive, first_alive, pairs_within, place_for,
    places_with, span, unite, was_refused,
};
use orders::may_come_next;
use packed_map::PackedMap;
use std::alloc::Global;

/// The answer of a get or a scan.
pub(crate) fn answer_read(
    alloc: Global,
    state: Parts,
    operation: Operation,
    budget: u32,
) -> Result<Answered, Memory>
    requires room { state.now + 1 < 2 ^ 64 }
    requires reported { IsReportedAt state.now operation }
    requires reads { may_change operation.call ≡ false }
    requires shaped { low_key operation.call ≤ high_key operation.call }
    requires form { HasForm operation.call operation.response }
    ensures answered { (start : Contents) (front back : List Done) (o : Done) (response : Told)
        → IsAnswerOf o response operation
        → IsStateOf start (front ++ o ∷ back) state
        → IfOk result (IsAnswered start budget state (front ++ operation ∷ back)) }
    ensures ended { (start : Contents) (front back : List Done) (o : Done) (response : Told)
        → IsAnswerOf o response operation
        → IsStateOf start (front ++ o ∷ back) state
        → IfOk result (HasEndedBy start state.now (front ++ o ∷ back) o response) }
{
    let (rest, parts, mut reads, now) = state.apart();
    let low = operation.call.low_key();
    let high = operation.call.high_key();
    let read = OpenRead {
        inv: operation.inv,
        low,
        high,
    };
    if !reads.end(read) {
        return Ok(Answered::Unknown);
    }
    if reports_nothing(&operation) {
        let state = Parts {
            rest,
            parts,
            reads,
            now: now + 1,
        };
        let next = settle_met(alloc, state, low, high)?;
        return Ok(Answered::Going(next));
    }
    let state = Parts {
        rest,
        parts,
        reads,
        now,
    };
    answer_report(alloc, state, operation, budget)
}

/// Answers a read that reports something, and is no longer among the pending reads. Nothing is left
/// of it if its keys are at rest, and hold what it reported.
fn answer_report(
    alloc: Global,
    state: Parts,
    operation: Operation,
    budget: u32,
) -> Result<Answered, Memory>
    requires room { state.now + 1 < 2 ^ 64 }
    requires reported { IsReportedAt state.now operation }
    requires reads { may_change operation.call ≡ false }
    requires shaped { low_key operation.call ≤ high_key operation.call }
    requires form { HasForm operation.call operation.response }
    requires something { is_refused operation.response ≡ false }
    requires begun { operation.inv < state.now }
    requires own { HasOwnPlace state operation }
    ensures answered { (start : Contents) (front back : List Done) (o : Done) (response : Told)
        → IsAnswerOf o response operation
        → AreKept start state.now (front ++ o ∷ back) (kept_parts state)
        → AreReadsOf (front ++ operation ∷ back) state.reads
        → IfOk result (IsAnswered start budget state (front ++ operation ∷ back)) }
    ensures ended { (start : Contents) (front back : List Done) (o : Done) (response : Told)
        → IsAnswerOf o response operation
        → AreKept start state.now (front ++ o ∷ back) (kept_parts state)
        → IfOk result (HasEndedBy start state.now (front ++ o ∷ back) o response) }
{
    let (mut rest, parts, reads, now) = state.apart();
    let low = operation.call.low_key();
    let high = operation.call.high_key();
    let (parts, met) = parts.take_met(alloc, low, high)?;
    if agrees_at_rest(alloc, &rest, &met, &operation)? {
        return Ok(Answered::Going(Parts {
            rest,
            parts,
            reads,
            now: now + 1,
        }));
    }
    let Read {
        ranges,
        tried,
        gone,
    } = read_in(alloc, &mut rest, met, operation, budget)?;
    let state = Parts {
        rest,
        parts,
        reads,
        now: now + 1,
    };
    go_on(alloc, state, ranges, tried, gone)
}

/// Whether a read met no part, and the keys at rest hold what it reported. False promises nothing.
fn agrees_at_rest(
    alloc: Global,
    rest: &PackedMap<u64>,
    met: &[Part],
    operation: &Operation,
) -> Result<bool, Memory>
    requires rising { IsRising rest.now }
    requires shaped { low_key operation.now.call ≤ high_key operation.now.call }
    ensures none { IfOk result (λ agrees. IsTrue agrees → met.now ≡ []) }
    ensures legal { IfOk result (λ agrees. IsTrue agrees
        → IsLegalCall rest.now operation.now.call operation.now.response) }
{
    if !met.is_empty() {
        return Ok(false);
    }
    if got_at_rest(rest, operation) {
        return Ok(true);
    }
    let low = operation.call.low_key();
    let high = operation.call.high_key();
    let pairs = pairs_within(alloc, rest, low, high)?;
    Ok(may_come_next(&pairs, operation))
}

/// Whether a read is a get, and its key at rest holds what it reported. False promises nothing. It
/// takes no memory.
fn got_at_rest(rest: &PackedMap<u64>, operation: &Operation) -> bool
    ensures { IsTrue result → IsLegalCall rest.now operation.now.call operation.now.response }
{
    let Call::Get(key) = operation.call else {
        return false;
    };
    let Some(response) = &operation.response else {
        return false;
    };
    let value = rest.get(key).copied();
    match &response.reply {
        Reply::None => value.is_none(),
        Reply::Some(found) => value == Some(*found),
        _ => false,
    }
}

/// The ranges of the part that a read is left in, and what becomes of its pasts.
#[derive(Drop)]
pub(crate) struct Read {
    pub ranges: Vec<Range>,
    pub tried: usize,
    pub gone: GoneOn,
}

/// Leaves a read in each past of the part that has all its keys. If there is no such part, one is
/// made of these parts and of keys at rest.
fn read_in(
    alloc: Global,
    rest: &mut PackedMap<u64>,
    mut met: Vec<Part>,
    operation: Operation,
    budget: u32,
) -> Result<Read, Memory>
    requires rising { IsRising rest.old }
    requires reported { IsSome operation.response }
    requires last { precedes operation operation ≡ false }
    requires shaped { low_key operation.call ≤ high_key operation.call }
    requires parts { All IsPartShaped met.items }
    requires comes { All (MayComeTo operation) met.items }
    requires apart { AllPairs AreBesideEachOther met.items }
    ensures { OnOk result (IfOk result
        (IsReadIn budget operation rest.old rest.new met.items)) }
{
    let low = operation.call.low_key();
    let high = operation.call.high_key();
    if met.len() == 1 && span(&met[0].ranges, low, high) {
        return read_in_part(alloc, met.remove(0), operation, budget);
    }
    let united = unite(alloc, rest, met, low, high)?;
    read_in_united(alloc, united, operation, budget)
}

/// A read is left in each past of a part.
fn read_in_part(
    alloc: Global,
    part: Part,
    operation: Operation,
    budget: u32,
) -> Result<Read, Memory>
    requires reported { IsSome operation.response }
    requires last { precedes operation operation ≡ false }
    requires part { IsPartShaped part }
    requires comes { MayComeTo operation part }
    ensures ranges { IfOk result (λ read. read.ranges ≡ part.ranges) }
    ensures gone { IfOk result (HasGoneIn budget operation (kept_part part).pasts) }
{
    let (ranges, first, found, mut others, tried) = part.apart();
    add_read(alloc, &mut others, &operation)?;
    let kept = first.insert(alloc, operation, budget)?;
    let gone = first_alive(alloc, kept, found, others, budget)?;
    Ok(Read {
        ranges,
        tried,
        gone,
    })
}

/// A read is left in each past of a part that was made of others.
fn read_in_united(
    alloc: Global,
    united: United,
    operation: Operation,
    budget: u32,
) -> Result<Read, Memory>
    requires last { precedes operation operation ≡ false }
    requires shaped { AreShaped united.pasts.items }
    requires some { 0 < length united.pasts.items }
    requires other { All (λ past. All (λ o. o.inv ≢ operation.inv) past.calls.items)
        united.pasts.items }
    ensures ranges { IfOk result (λ read. read.ranges ≡ united.ranges) }
    ensures gone { IfOk result (HasGoneIn budget operation (map kept_of united.pasts.items)) }
{
    let (ranges, tried, mut pasts, points) = united.apart();
    add_read(alloc, &mut pasts, &operation)?;
    let guess = places_with(alloc, &pasts[0], &points, operation.inv)?;
    let gone = any_alive(alloc, pasts, &guess, budget)?;
    Ok(Read {
        ranges,
        tried,
        gone,
    })
}

/// Adds a read to the calls of each past, at its place by invocation.
fn add_read(alloc: Global, pasts: &mut [Past], operation: &Operation) -> Result<(), Memory>
    requires shaped { AreShaped pasts.old }
    requires other { All (λ past. All (λ o. o.inv ≢ operation.now.inv) past.calls.items)
        pasts.old }
    ensures { OnOk result (AllZip (IsWithRead operation.now) (map kept_of pasts.old)
        (map kept_of pasts.new)) }
{
    for place in 0..pasts.len() {
        let copy = operation.copy(alloc)?;
        add_to_past(&mut pasts[place], copy)?;
    }
    Ok(())
}

/// Adds a read to the calls of a past, at its place by invocation.
fn add_to_past(past: &mut Past, operation: Operation) -> Result<(), Memory>
    requires rising { AllPairs (λ a b. a.inv < b.inv) past.old.calls.items }
    requires other { All (λ o. o.inv ≢ operation.inv) past.old.calls.items }
    ensures { OnOk result (IsWithRead operation (kept_of past.old) (kept_of past.new)) }
{
    let place = place_for(&past.calls, operation.inv);
    past.calls.insert(place, operation)?;
    Ok(())
}

/// Whether a read was refused, or its answer reports nothing.
fn reports_nothing(operation: &Operation) -> bool
    requires reads { may_change operation.now.call ≡ false }
    ensures nothing { IsTrue result → ReportsNothing operation.now }
    ensures something { IsFalse result → is_refused operation.now.response ≡ false }
{
    if was_refused(operation) {
        return true;
    }
    match &operation.response {
        Some(response) => match response.reply {
            Reply::Done => true,
            _ => false,
        },
        None => true,
    }
}
