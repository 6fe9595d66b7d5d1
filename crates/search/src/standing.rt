// The state of a walk, and its steps.
ghost use Rattle.std.specs.Prelude.{◌≡◌, ◌+◌, ◌<◌, ◌≤◌, ◌^◌, ℕ, true, false, length, take, drop, All, AllPairs, IfOk, OnOk};
ghost use Rattle.std.specs.Prelude.{IsSomeAnd, slice_get};
ghost use Rattle.std.specs.List.{range_with_len};
ghost use Rattle.events.specs.Precedence.{NonePrecedesItself, is_before};
ghost use Rattle.map_object.specs.MapObject.{Contents};
ghost use Rattle.orders.specs.Orders.{IsOrder, IsLegalCall};
ghost use Rattle.search.specs.Remaining.{IsEarliestAnswer};
ghost use Rattle.search.specs.Cursor.{StandsAtCursor};
ghost use Rattle.search.specs.Links.{IsChain};
ghost use Rattle.search.specs.Standing.{places, Stands, MayTry, HasMoved, IsProgress, IsPushed, IsNoLater, IsByAnswer, IsLinkedByAnswer};

use crate::links::Links;
use crate::undo::{take_call, undo_call};
use events::{Call, Memory, Operation};
use map_object::SortedMap;
use memo::{Memo, visited_at_start};
use orders::may_come_next;
use std::alloc::Global;

/// A call taken: its place, the call that undoes it on the map, and the place in the memo of the
/// configuration before it.
#[derive(Drop)]
pub struct Level {
    pub place: u32,
    pub undo: Option<Call>,
    pub at: usize,
}

/// The state of a walk: the calls taken, the next call to try, and the present configuration with
/// its map. If no call is left, the next call is the number of calls. Also the configurations
/// visited, and the calls left, in the order of their invocations and in the order of their
/// answers.
pub struct Standing {
    pub levels: Vec<Level>,
    pub next: u32,
    pub at: usize,
    pub map: SortedMap,
    pub memo: Memo,
    pub calls: Links,
    pub answers: Links,
}

// All parts are dropped here.
impl Drop for Standing {
    fn drop(self) {
        let Standing {
            levels: _levels,
            next: _next,
            at: _at,
            map: _map,
            memo: _memo,
            calls: _calls,
            answers: _answers,
        } = self;
    }
}

/// What a step of a walk did.
#[derive(Drop)]
pub enum Progress {
    /// A call was tried, or the walk went back by one.
    Made,
    /// The calls taken are an order.
    Order,
    /// All is tried.
    NoOrder,
}

/// Returns the state before any call, at the map with which the calls begin.
pub fn open_standing(alloc: Global, map: SortedMap, calls: &[Operation]) -> Result<Standing, Memory>
    requires few { length calls.now + 1 < 2 ^ 32 }
    requires apart { NonePrecedesItself calls.now }
    ensures stands { IfOk result (Stands map calls.now) }
    ensures one { IfOk result (λ s. length s.memo ≡ 1) }
{
    let size = calls.len() as u32;
    let by_number = all_linked(alloc, size)?;
    let by_answer = linked_by_answer(alloc, calls)?;
    let memo = visited_at_start(alloc, &map)?;
    Ok(Standing {
        levels: Vec::new(alloc),
        next: by_number.after(size),
        at: 0,
        map,
        memo,
        calls: by_number,
        answers: by_answer,
    })
}

/// Makes one step: tries the next call if it may come next, and otherwise goes back.
pub fn make_step(
    alloc: Global,
    calls: &[Operation],
    standing: &mut Standing,
) -> Result<Progress, Memory>
    ghost start: { Contents }
    requires few { length calls.now + 1 < 2 ^ 32 }
    requires apart { NonePrecedesItself calls.now }
    requires rising { AllPairs (λ a b. a.inv < b.inv) calls.now }
    requires stands { Stands start calls.now standing.old }
    ensures { IfOk result (IsProgress start calls.now standing.old standing.new) }
{
    let Some(answered) = earliest_answer(calls, standing) else {
        return Ok(Progress::Order);
    };
    let next = standing.next;
    if (next as usize) < calls.len() && calls[next as usize].inv <= answered {
        try_call(alloc, calls, standing)?;
        return Ok(Progress::Made);
    }
    go_back(alloc, calls, standing)
}

/// Returns the earliest answer of a call left.
fn earliest_answer(calls: &[Operation], standing: &Standing) -> Option<usize>
    ghost start: { Contents }
    requires few { length calls.now + 1 < 2 ^ 32 }
    requires stands { Stands start calls.now standing.now }
    ensures { IsEarliestAnswer calls.now (places standing.now.levels.items) result }
{
    let first = standing.answers.after(calls.len() as u32) as usize;
    if first == calls.len() {
        return None;
    }
    match &calls[first].response {
        Some(response) => Some(response.res),
        None => None,
    }
}

/// Takes the next call if its reply is legal and leads to a new configuration, and otherwise passes
/// it.
fn try_call(alloc: Global, calls: &[Operation], standing: &mut Standing) -> Result<(), Memory>
    ghost start: { Contents }
    requires few { length calls.now + 1 < 2 ^ 32 }
    requires apart { NonePrecedesItself calls.now }
    requires stands { Stands start calls.now standing.old }
    requires may { MayTry start calls.now (places standing.old.levels.items) standing.old.next }
    ensures { OnOk result (HasMoved start calls.now standing.old standing.new) }
{
    let place = standing.next;
    if may_come_next(&standing.map, &calls[place as usize]) {
        return take_next(alloc, calls, standing);
    }
    standing.next = standing.calls.after(place);
    Ok(())
}

/// Takes the next call, whose reply is legal, if it leads to a new configuration, and otherwise
/// passes it.
fn take_next(alloc: Global, calls: &[Operation], standing: &mut Standing) -> Result<(), Memory>
    ghost start: { Contents }
    requires few { length calls.now + 1 < 2 ^ 32 }
    requires apart { NonePrecedesItself calls.now }
    requires stands { Stands start calls.now standing.old }
    requires may { MayTry start calls.now (places standing.old.levels.items) standing.old.next }
    requires legal { IsSomeAnd (slice_get calls.now standing.old.next) (λ a. IsLegalCall standing.old.map a.call a.response) }
    ensures { OnOk result (HasMoved start calls.now standing.old standing.new) }
{
    let place = standing.next;
    let call = &calls[place as usize];
    let new = standing
        .memo
        .visit_next(alloc, standing.at, place, call, &standing.map)?;
    if new {
        let undo = take_call(alloc, &mut standing.map, call)?;
        return push(calls.len() as u32, standing, place, undo);
    }
    standing.next = standing.calls.after(place);
    Ok(())
}

/// Pushes a call on the stack, at the configuration that was visited last.
fn push(size: u32, standing: &mut Standing, place: u32, undo: Option<Call>) -> Result<(), Memory>
    requires size { size < length standing.old.calls.after }
    requires place { place < length standing.old.calls.after }
    requires answer { place < length standing.old.answers.after }
    requires visited { 0 < length standing.old.memo }
    ensures { OnOk result (IsPushed size place undo standing.old standing.new) }
{
    let at = standing.at;
    standing.levels.push(Level { place, undo, at })?;
    standing.at = standing.memo.len() - 1;
    standing.calls.unlink(place);
    standing.answers.unlink(place);
    standing.next = standing.calls.after(size);
    Ok(())
}

/// Goes back by one call.
fn go_back(alloc: Global, calls: &[Operation], standing: &mut Standing) -> Result<Progress, Memory>
    ghost start: { Contents }
    requires apart { NonePrecedesItself calls.now }
    requires stands { Stands start calls.now standing.old }
    requires past { StandsAtCursor start calls.now (places standing.old.levels.items) (length calls.now) standing.old.memo }
    requires not_order { IsOrder start calls.now (places standing.old.levels.items) → ⊥ }
    ensures { IfOk result (IsProgress start calls.now standing.old standing.new) }
{
    let Some(level) = standing.levels.pop() else {
        return Ok(Progress::NoOrder);
    };
    undo_call(alloc, &mut standing.map, level.undo)?;
    standing.at = level.at;
    standing.calls.put_back(level.place);
    standing.answers.put_back(level.place);
    standing.next = standing.calls.after(level.place);
    Ok(Progress::Made)
}

/// Returns all places below the size, linked by number.
fn all_linked(alloc: Global, size: u32) -> Result<Links, Memory>
    requires { size + 1 < 2 ^ 32 }
    ensures size { IfOk result (λ l. length l.after ≡ size + 1) }
    ensures chain { IfOk result (λ l. IsChain l size (range_with_len 0 size) size) }
{
    let mut links = Links::new(alloc, size)?;
    for place in 0..size {
        links.push(size, place);
    }
    Ok(links)
}

/// Returns the places of all calls, linked by their answers.
fn linked_by_answer(alloc: Global, calls: &[Operation]) -> Result<Links, Memory>
    requires { length calls.now + 1 < 2 ^ 32 }
    ensures size { IfOk result (λ l. length l.after ≡ length calls.now + 1) }
    ensures chain { IfOk result (λ l. IsLinkedByAnswer calls.now l) }
{
    let order = order_of_answers(alloc, calls)?;
    let size = calls.len() as u32;
    let mut links = Links::new(alloc, size)?;
    for place in &order {
        links.push(size, *place);
    }
    Ok(links)
}

/// Returns the places of all calls in the order of their answers, then those of the pending calls.
/// Each is inserted after all calls that were answered before it. The place is searched from the
/// end, which passes at most one call of each process.
fn order_of_answers(alloc: Global, calls: &[Operation]) -> Result<Vec<u32>, Memory>
    requires { length calls.now + 1 < 2 ^ 32 }
    ensures { IfOk result (λ v. IsByAnswer calls.now (length calls.now) v.items) }
{
    let mut order = Vec::with_capacity(alloc, calls.len())?;
    for place in 0..calls.len() {
        let at = place_by_answer(calls, &order, place);
        order.insert(at, place as u32)?;
    }
    Ok(order)
}

/// Returns the place at which a call is inserted among others that are sorted by their answers.
fn place_by_answer(calls: &[Operation], order: &[u32], place: usize) -> usize
    requires known { place < length calls.now }
    requires sorted { IsByAnswer calls.now place order.now }
    ensures within { result ≤ length order.now }
    ensures before { All (λ n. IsNoLater calls.now n place) (take result order.now) }
    ensures behind { All (IsNoLater calls.now place) (drop result order.now) }
{
    let mut at = order.len();
    while at > 0 && is_later(&calls[order[at - 1] as usize], &calls[place]) {
        at -= 1;
    }
    at
}

/// Returns whether a call is answered later than another.
fn is_later(a: &Operation, b: &Operation) -> bool
    ensures later { result ≡ true → (place : ℕ) → is_before a.now.response place ≡ true → is_before b.now.response place ≡ true }
    ensures no_later { result ≡ false → (place : ℕ) → is_before b.now.response place ≡ true → is_before a.now.response place ≡ true }
{
    match (&a.response, &b.response) {
        (Some(first), Some(second)) => second.res < first.res,
        (None, Some(_)) => true,
        (_, None) => false,
    }
}
