// An order is repaired: calls that hinder another one are taken out, and put at other places.
ghost use Rattle.std.specs.Prelude.{◌≡◌, ◌<◌, true, length, AllPairs, IfOk, IfSome, OnOk};
ghost use Rattle.events.specs.Precedence.{NonePrecedesItself};
ghost use Rattle.follow_fronts.specs.Standing.{Stands, IsWhole};

use crate::chains::{Need, need_of, puts};
use call_effects::is_ended;
use events::{Call, Memory, Operation, Reply};
use follow_fronts::{Front, Level, go_back, is_whole, pop, try_next};
use orders::may_come_next;
use std::alloc::Global;

/// How many steps a repair may take.
const STEPS: usize = 4_096;

/// How many calls may be taken out in all.
const MOST_OUT: usize = 16;

/// How many calls at the end of the front a call may be put before.
const MOST_BACK: usize = 64;

/// How many completed calls may be left as a repair begins.
const MOST_LEFT: usize = 8;

/// The same for a wide repair. A call of the order may be answered so that those after it do not
/// fit any more, and all of these are left then.
const MOST_LEFT_WIDE: usize = 64;

/// How many calls from the end on one is looked for that changed a key.
const FAR: usize = 1_024;

/// Puts the completed calls that are left, and says whether that led to an order. If one fits
/// nowhere, the last call of the front is taken out that changed a key which the call found
/// otherwise. The calls after it are pushed again, and those that do not fit any more are put as
/// the first one. A completed call that was taken out follows after the one that it hindered, a
/// pending one stays out. In a wide repair a pending one follows too if a call reports the value
/// that it puts, or if a call needs it that finds no other place. A call may also be put later if
/// it puts what another one is to find.
pub(crate) fn repair(
    alloc: Global,
    calls: &[Operation],
    front: &mut Front,
    is_wide: bool,
) -> Result<bool, Memory>
    requires rising { AllPairs (λ a b. a.inv < b.inv) calls.now }
    requires apart { NonePrecedesItself calls.now }
    requires stands { Stands calls.now front.old }
    ensures stands { OnOk result (Stands calls.now front.new) }
    ensures start { OnOk result (front.new.start ≡ front.old.start) }
    ensures whole { IfOk result (λ found. found ≡ true → IsWhole calls.now front.new) }
{
    let mut plan = Plan {
        next: completed_left(alloc, calls, front)?,
        out: Vec::new(alloc),
        is_wide,
    };
    if plan.next.len() > most_left(is_wide) {
        return Ok(false);
    }
    for _ in 0..STEPS {
        let Some(place) = plan.next.pop() else {
            return Ok(is_whole(calls, front));
        };
        let goes_on = step(alloc, calls, front, &mut plan, place)?;
        if !goes_on {
            return Ok(false);
        }
    }
    Ok(false)
}

/// How many completed calls may be left as a repair begins.
fn most_left(is_wide: bool) -> usize {
    if is_wide { MOST_LEFT_WIDE } else { MOST_LEFT }
}

/// Which calls are to be put, the first one last, which were taken out, and whether the repair is
/// wide.
#[derive(Drop)]
struct Plan {
    next: Vec<u32>,
    out: Vec<u32>,
    is_wide: bool,
}

/// The completed calls that are not in the front, by falling place.
fn completed_left(alloc: Global, calls: &[Operation], front: &Front) -> Result<Vec<u32>, Memory>
    requires { Stands calls.now front.now }
{
    let mut left = Vec::new(alloc);
    for place in front.low..calls.len() {
        if !front.has(place) && calls[place].is_completed() {
            if let Ok(place) = u32::try_from(place) {
                left.push(place)?;
            }
        }
    }
    left.reverse();
    Ok(left)
}

/// Puts a call, or makes room for it, and says whether there was a way to go on.
fn step(
    alloc: Global,
    calls: &[Operation],
    front: &mut Front,
    plan: &mut Plan,
    place: u32,
) -> Result<bool, Memory>
    requires rising { AllPairs (λ a b. a.inv < b.inv) calls.now }
    requires apart { NonePrecedesItself calls.now }
    requires stands { Stands calls.now front.old }
    ensures stands { OnOk result (Stands calls.now front.new) }
    ensures start { OnOk result (front.new.start ≡ front.old.start) }
{
    let is_put = put(alloc, calls, front, place)?;
    if is_put {
        return Ok(true);
    }
    if let Some(at) = first_before(calls, &plan.next, place) {
        plan.next.insert(at, place)?;
        return Ok(true);
    }
    let Some(call) = calls.get(place as usize) else {
        return Ok(false);
    };
    let Some(need) = need_of(&front.map, call) else {
        return Ok(!call.is_completed());
    };
    make_room(alloc, calls, front, plan, place, need)
}

/// The first place in a list of a call that precedes another one.
fn first_before(calls: &[Operation], list: &[u32], place: u32) -> Option<usize>
    ensures { IfSome result (λ at. at < length list.now) }
{
    for at in 0..list.len() {
        if is_before(calls, list[at], place) {
            return Some(at);
        }
    }
    None
}

/// Whether one call precedes another.
fn is_before(calls: &[Operation], one: u32, other: u32) -> bool {
    let Some(first) = calls.get(one as usize) else {
        return false;
    };
    match calls.get(other as usize) {
        Some(second) => is_ended(first, second.inv),
        None => false,
    }
}

/// Pushes a pending call that puts what another one is to find, or else changes the plan so that
/// the other one may fit later. Says whether there was a way.
fn make_room(
    alloc: Global,
    calls: &[Operation],
    front: &mut Front,
    plan: &mut Plan,
    place: u32,
    need: Need,
) -> Result<bool, Memory>
    requires rising { AllPairs (λ a b. a.inv < b.inv) calls.now }
    requires apart { NonePrecedesItself calls.now }
    requires stands { Stands calls.now front.old }
    ensures stands { OnOk result (Stands calls.now front.new) }
    ensures start { OnOk result (front.new.start ≡ front.old.start) }
{
    if let Some(writer) = pending_writer(calls, front, &plan.out, need) {
        let pushed = push_one(alloc, calls, front, writer)?;
        if pushed {
            plan.next.push(place)?;
            return Ok(true);
        }
    }
    let way = if plan.is_wide {
        wide_way(calls, front, plan, place, need)
    } else {
        near_way(calls, front, plan, place, need)
    };
    go_way(alloc, calls, front, plan, place, way)
}

/// How the plan changes for a call that fits nowhere, or that it cannot.
#[derive(Clone, Copy)]
enum Way {
    /// A pending call that was taken out is put last of all, and then the call.
    AfterPending(u32),
    /// The call is put after the one at this place of the plan.
    AfterPlanned(usize),
    /// The call at this place of the front is taken out, and put after the call if it has to be.
    Without(usize),
    /// The call at this place of the front is put after those after it, and then the call.
    Later(usize),
    /// There is none.
    Closed,
}

/// How the plan changes for a call that is to find a value, or none, at a key.
fn near_way(calls: &[Operation], front: &Front, plan: &Plan, place: u32, need: Need) -> Way {
    if let Some(at) = hindrance(calls, front, place, need.key) {
        return Way::Without(at);
    }
    match writer_after(calls, &plan.next, place, need) {
        Some(at) => Way::AfterPlanned(at),
        None => Way::Closed,
    }
}

/// The same in a wide repair.
fn wide_way(calls: &[Operation], front: &Front, plan: &Plan, place: u32, need: Need) -> Way
    requires { Stands calls.now front.now }
{
    if may_be_last(calls, &plan.next, place) {
        if let Some(writer) = writer_out(calls, front, plan, need) {
            return Way::AfterPending(writer);
        }
    }
    let hindrance = hindrance(calls, front, place, need.key);
    if let Some(at) = hindrance {
        if gives_back(front, at, need) {
            return Way::Without(at);
        }
    }
    if let Some(at) = writer_after(calls, &plan.next, place, need) {
        return Way::AfterPlanned(at);
    }
    if let Some(at) = hindrance {
        return Way::Without(at);
    }
    match early_writer(calls, front, need) {
        Some(at) => Way::Later(at),
        None => Way::Closed,
    }
}

/// Changes the plan for a call that fits nowhere, and says whether there is a way.
fn go_way(
    alloc: Global,
    calls: &[Operation],
    front: &mut Front,
    plan: &mut Plan,
    place: u32,
    way: Way,
) -> Result<bool, Memory>
    requires { Stands calls.now front.old }
    ensures stands { OnOk result (Stands calls.now front.new) }
    ensures start { OnOk result (front.new.start ≡ front.old.start) }
{
    match way {
        Way::AfterPending(writer) => {
            plan.next.insert(0, writer)?;
            plan.next.insert(0, place)?;
            Ok(true)
        }
        Way::AfterPlanned(at) => {
            let at = at.min(plan.next.len());
            plan.next.insert(at, place)?;
            Ok(true)
        }
        Way::Without(at) => take_out(alloc, calls, front, plan, place, at),
        Way::Later(at) => put_later(alloc, calls, front, plan, place, at),
        Way::Closed => Ok(false),
    }
}

/// Whether a call does not precede the one that is put last.
fn may_be_last(calls: &[Operation], list: &[u32], place: u32) -> bool {
    match list.first() {
        Some(last) => !is_before(calls, place, *last),
        None => true,
    }
}

/// A pending call that puts a value, or none, at a key, was taken out once, and is neither in the
/// front nor in the plan.
fn writer_out(calls: &[Operation], front: &Front, plan: &Plan, need: Need) -> Option<u32>
    requires { Stands calls.now front.now }
{
    for place in &plan.out {
        if is_pending_out(calls, front, *place)
            && does_put(calls, *place, need)
            && count_of(&plan.out, *place) == 1
            && count_of(&plan.next, *place) == 0
        {
            return Some(*place);
        }
    }
    None
}

/// Whether a call is pending, and not in the front.
fn is_pending_out(calls: &[Operation], front: &Front, place: u32) -> bool
    requires { Stands calls.now front.now }
{
    let place = place as usize;
    if place >= calls.len() {
        return false;
    }
    !front.has(place) && !calls[place].is_completed()
}

/// How often a list has a place.
fn count_of(list: &[u32], place: u32) -> usize {
    let mut count = 0usize;
    for other in list {
        if *other == place {
            count = count.saturating_add(1);
        }
    }
    count
}

/// Whether a key gets back a value, or none, once the call at a place of the front is undone.
fn gives_back(front: &Front, at: usize, need: Need) -> bool {
    match front.levels.get(at) {
        Some(level) => match &level.undo {
            Some(undo) => puts(undo, need),
            None => false,
        },
        None => false,
    }
}

/// The place in the front of a call that puts a value, or none, at a key, before the last call that
/// changed the key. It may come after that one.
fn early_writer(calls: &[Operation], front: &Front, need: Need) -> Option<usize> {
    let last = last_change(calls, front, need.key)?;
    let latest = front.levels.get(last)?.place;
    let from = front.levels.len().saturating_sub(FAR);
    for at in (from..last).rev() {
        let place = front.levels.get(at)?.place;
        if does_put(calls, place, need) {
            if is_before(calls, place, latest) {
                return None;
            }
            return Some(at);
        }
    }
    None
}

/// The last place in a list of a call that puts what another one is to find, and may come before
/// it.
fn writer_after(calls: &[Operation], list: &[u32], place: u32, need: Need) -> Option<usize>
    ensures { IfSome result (λ at. at < length list.now) }
{
    for at in (0..list.len()).rev() {
        if does_put(calls, list[at], need) && !is_before(calls, place, list[at]) {
            return Some(at);
        }
    }
    None
}

/// Whether one of some calls puts a value, or none, at a key.
fn do_put(calls: &[Operation], list: &[u32], need: Need) -> bool {
    for place in list {
        if does_put(calls, *place, need) {
            return true;
        }
    }
    false
}

/// Whether a call puts a value, or none, at a key.
fn does_put(calls: &[Operation], place: u32, need: Need) -> bool {
    match calls.get(place as usize) {
        Some(call) => puts(&call.call, need),
        None => false,
    }
}

/// A pending call that puts a value, or none, at a key, if no such call was taken out.
fn pending_writer(calls: &[Operation], front: &Front, out: &[u32], need: Need) -> Option<u32>
    requires { Stands calls.now front.now }
{
    if do_put(calls, out, need) {
        return None;
    }
    for place in front.low..calls.len() {
        let call = &calls[place];
        if !front.has(place) && !call.is_completed() && puts(&call.call, need) {
            return u32::try_from(place).ok();
        }
    }
    None
}

/// The place in the front of the last call that changed a key, if it may come after another call.
fn hindrance(calls: &[Operation], front: &Front, place: u32, key: u64) -> Option<usize> {
    let at = last_change(calls, front, key)?;
    let level = front.levels.get(at)?;
    if is_before(calls, level.place, place) {
        return None;
    }
    Some(at)
}

/// The place in the front of the last call that changed a key.
fn last_change(calls: &[Operation], front: &Front, key: u64) -> Option<usize> {
    let len = front.levels.len();
    for at in (len.saturating_sub(FAR)..len).rev() {
        if has_changed(calls, &front.levels[at], key) {
            return Some(at);
        }
    }
    None
}

/// Whether a call of the front changed a key.
fn has_changed(calls: &[Operation], level: &Level, key: u64) -> bool {
    match calls.get(level.place as usize) {
        Some(call) => {
            call.call.may_change() && call.call.low_key() == key && level.undo.is_some()
        }
        None => false,
    }
}

/// Takes the call at a place of the front out, for another one that is put next. The calls after
/// it in the front are put before that one.
fn take_out(
    alloc: Global,
    calls: &[Operation],
    front: &mut Front,
    plan: &mut Plan,
    place: u32,
    at: usize,
) -> Result<bool, Memory>
    requires { Stands calls.now front.old }
    ensures stands { OnOk result (Stands calls.now front.new) }
    ensures start { OnOk result (front.new.start ≡ front.old.start) }
{
    let Some(level) = front.levels.get(at) else {
        return Ok(false);
    };
    let taken = level.place;
    if plan.out.len() >= MOST_OUT {
        return Ok(false);
    }
    plan.out.push(taken)?;
    if follows(calls, front, plan, at, taken) {
        plan.next.push(taken)?;
    }
    plan.next.push(place)?;
    take_from(alloc, calls, front, at, &mut plan.next)?;
    plan.next.pop();
    Ok(true)
}

/// Puts the call at a place of the front after those after it, and another one after that.
fn put_later(
    alloc: Global,
    calls: &[Operation],
    front: &mut Front,
    plan: &mut Plan,
    place: u32,
    at: usize,
) -> Result<bool, Memory>
    requires { Stands calls.now front.old }
    ensures stands { OnOk result (Stands calls.now front.new) }
    ensures start { OnOk result (front.new.start ≡ front.old.start) }
{
    let Some(level) = front.levels.get(at) else {
        return Ok(false);
    };
    let taken = level.place;
    if plan.out.len() >= MOST_OUT {
        return Ok(false);
    }
    plan.out.push(taken)?;
    plan.next.push(place)?;
    plan.next.push(taken)?;
    take_from(alloc, calls, front, at, &mut plan.next)?;
    plan.next.pop();
    Ok(true)
}

/// Whether a call that is taken out from a place of the front is to follow after the one that it
/// hindered: it is completed, or, in a wide repair, a call after it or of the plan reports the
/// value that it puts.
fn follows(calls: &[Operation], front: &Front, plan: &Plan, at: usize, taken: u32) -> bool {
    if !plan.is_wide || is_answered(calls, taken) {
        return is_answered(calls, taken);
    }
    let Some(value) = value_put(calls, taken) else {
        return false;
    };
    for later in at.saturating_add(1)..front.levels.len() {
        if does_report(calls, front.levels[later].place, value) {
            return true;
        }
    }
    for place in &plan.next {
        if does_report(calls, *place, value) {
            return true;
        }
    }
    false
}

/// The key and the value that a call puts.
fn value_put(calls: &[Operation], place: u32) -> Option<(u64, u64)> {
    match calls.get(place as usize)?.call {
        Call::Insert(key, value) | Call::Replace(key, _, value) => Some((key, value)),
        Call::Get(_) | Call::Remove(_) | Call::Scan(_, _) => None,
    }
}

/// Whether a call reports a value at a key.
fn does_report(calls: &[Operation], place: u32, value: (u64, u64)) -> bool {
    let Some(call) = calls.get(place as usize) else {
        return false;
    };
    let Some(response) = &call.response else {
        return false;
    };
    match &response.reply {
        Reply::Some(found) => call.call.low_key() == value.0 && *found == value.1,
        Reply::Pairs(pairs) => has_pair(pairs.as_slice(), value),
        _ => false,
    }
}

/// Whether a pair is among pairs by rising key.
fn has_pair(pairs: &[(u64, u64)], pair: (u64, u64)) -> bool {
    let place = pairs.partition_point(|other| other.0 < pair.0);
    match pairs.get(place) {
        Some(other) => *other == pair,
        None => false,
    }
}

/// Whether a call was answered.
fn is_answered(calls: &[Operation], place: u32) -> bool {
    match calls.get(place as usize) {
        Some(call) => call.is_completed(),
        None => false,
    }
}

/// Takes the calls of a front back from a place on, and adds them to a list, the last one first.
fn take_from(
    alloc: Global,
    calls: &[Operation],
    front: &mut Front,
    at: usize,
    list: &mut Vec<u32>,
) -> Result<(), Memory>
    requires { Stands calls.now front.old }
    ensures stands { OnOk result (Stands calls.now front.new) }
    ensures start { OnOk result (front.new.start ≡ front.old.start) }
{
    for _ in at..front.levels.len() {
        if let Some(last) = pop(alloc, calls, front)? {
            list.push(last)?;
        }
    }
    Ok(())
}

/// Puts a call at the last place that allows it, and says whether one does, of those before some
/// of the last calls. Otherwise the calls taken back are pushed again.
fn put(alloc: Global, calls: &[Operation], front: &mut Front, place: u32) -> Result<bool, Memory>
    requires rising { AllPairs (λ a b. a.inv < b.inv) calls.now }
    requires apart { NonePrecedesItself calls.now }
    requires stands { Stands calls.now front.old }
    ensures stands { OnOk result (Stands calls.now front.new) }
    ensures start { OnOk result (front.new.start ≡ front.old.start) }
{
    let pushed = push_one(alloc, calls, front, place)?;
    if pushed {
        return Ok(true);
    }
    let mut back = Vec::new(alloc);
    let is_put = put_before(alloc, calls, front, place, &mut back)?;
    if is_put {
        return Ok(true);
    }
    let _again = push_each(alloc, calls, front, &back)?;
    Ok(false)
}

/// Takes the last calls back, one at a time, until a call fits before them, and says whether it was
/// put. Otherwise `back` has them, the last one first.
fn put_before(
    alloc: Global,
    calls: &[Operation],
    front: &mut Front,
    place: u32,
    back: &mut Vec<u32>,
) -> Result<bool, Memory>
    requires rising { AllPairs (λ a b. a.inv < b.inv) calls.now }
    requires apart { NonePrecedesItself calls.now }
    requires stands { Stands calls.now front.old }
    ensures stands { OnOk result (Stands calls.now front.new) }
    ensures start { OnOk result (front.new.start ≡ front.old.start) }
{
    for _ in 0..MOST_BACK {
        if is_last_before(calls, front, place) {
            return Ok(false);
        }
        let Some(last) = pop(alloc, calls, front)? else {
            return Ok(false);
        };
        back.push(last)?;
        let is_put = put_here(alloc, calls, front, place, back)?;
        if is_put {
            return Ok(true);
        }
    }
    Ok(false)
}

/// Whether the last call of a front precedes a call.
fn is_last_before(calls: &[Operation], front: &Front, place: u32) -> bool {
    match front.levels.last() {
        Some(level) => is_before(calls, level.place, place),
        None => false,
    }
}

/// Pushes a call, and then those that were taken back, the last one of these first, and says
/// whether all could be. Otherwise those that were pushed are taken back.
fn put_here(
    alloc: Global,
    calls: &[Operation],
    front: &mut Front,
    place: u32,
    back: &[u32],
) -> Result<bool, Memory>
    requires rising { AllPairs (λ a b. a.inv < b.inv) calls.now }
    requires apart { NonePrecedesItself calls.now }
    requires stands { Stands calls.now front.old }
    ensures stands { OnOk result (Stands calls.now front.new) }
    ensures start { OnOk result (front.new.start ≡ front.old.start) }
{
    let len = front.levels.len();
    let pushed = push_one(alloc, calls, front, place)?;
    if !pushed {
        return Ok(false);
    }
    let all = push_each(alloc, calls, front, back)?;
    if !all {
        go_back(alloc, calls, front, len)?;
    }
    Ok(all)
}

/// Pushes a call if it may come next, and says whether it may.
fn push_one(
    alloc: Global,
    calls: &[Operation],
    front: &mut Front,
    place: u32,
) -> Result<bool, Memory>
    requires rising { AllPairs (λ a b. a.inv < b.inv) calls.now }
    requires apart { NonePrecedesItself calls.now }
    requires stands { Stands calls.now front.old }
    ensures stands { OnOk result (Stands calls.now front.new) }
    ensures start { OnOk result (front.new.start ≡ front.old.start) }
{
    if !fits(calls, front, place) {
        return Ok(false);
    }
    let len = front.levels.len();
    try_next(alloc, calls, front, place)?;
    Ok(len < front.levels.len())
}

/// Whether the map after a front answers a call as it was answered. That is sooner known than
/// whether another call precedes it.
fn fits(calls: &[Operation], front: &Front, place: u32) -> bool {
    match calls.get(place as usize) {
        Some(call) => may_come_next(&front.map, call),
        None => false,
    }
}

/// Pushes calls, the last one of the list first, up to one that may not come next, and says whether
/// all may.
fn push_each(
    alloc: Global,
    calls: &[Operation],
    front: &mut Front,
    back: &[u32],
) -> Result<bool, Memory>
    requires rising { AllPairs (λ a b. a.inv < b.inv) calls.now }
    requires apart { NonePrecedesItself calls.now }
    requires stands { Stands calls.now front.old }
    ensures stands { OnOk result (Stands calls.now front.new) }
    ensures start { OnOk result (front.new.start ≡ front.old.start) }
{
    for depth in (0..back.len()).rev() {
        let pushed = push_one(alloc, calls, front, back[depth])?;
        if !pushed {
            return Ok(false);
        }
    }
    Ok(true)
}
