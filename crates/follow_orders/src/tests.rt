// Orders that are kept, by hand: no clause says that one is found, nor which one a guess leads to.
ghost use Rattle.std.specs.Prelude.{◌≡◌, ◌≢◌, ◌↔◌, ◌<◌, true, All, IsTrue};
ghost use Rattle.follow_orders.specs.Views.{IsAbove, MayBeAnswered, MayCome};

use crate::{Mended, StoredOrder};
use events::{Call, Memory, Operation, Pairs, Reply, Response};
use map_object::SortedMap;
use std::alloc::Global;
use std::process::Abort;
use std::test::Fail;

const BUDGET: u32 = 3_000;

/// Whether a call was invoked before a place, and not answered after it.
fn is_before(call: &Operation, place: usize) -> bool
    ensures { IsTrue result ↔ ((call.now.inv < place) × IsAbove place call.now.response) }
{
    let answered = match &call.response {
        Some(response) => response.res < place,
        None => true,
    };
    call.inv < place && answered
}

/// Whether all calls were.
fn are_before(calls: &[Operation], place: usize) -> bool
    ensures { IsTrue result → All (λ a. (a.inv < place) × IsAbove place a.response) calls.now }
{
    calls.iter().all(|call| is_before(call, place))
}

/// Whether a call may be answered so.
fn may_be_answered(calls: &[Operation], place: usize, response: &Response) -> bool
    ensures { IsTrue result → MayBeAnswered calls.now place response.now }
{
    if place >= calls.len() || calls[place].response.is_some() {
        return false;
    }
    are_before(calls, response.res)
}

/// A call begins.
fn begin(rt: &impl Abort, order: &mut StoredOrder, call: Call, inv: usize) -> Result<(), Fail> {
    assert!(rt; are_before(order.calls(), inv));
    order.begin(Operation {
        call,
        inv,
        response: None,
    })?;
    Ok(())
}

/// What is known after an answer.
fn answer(
    rt: &impl Abort,
    alloc: Global,
    order: StoredOrder,
    place: usize,
    res: usize,
    reply: Reply,
) -> Result<Mended, Fail> {
    let response = Response { res, reply };
    assert!(rt; may_be_answered(order.calls(), place, &response));
    Ok(order.answer(alloc, place, response, BUDGET)?)
}

/// The order, if there is one.
fn order_of(kept: Mended) -> Result<StoredOrder, Fail> {
    match kept {
        Mended::Order(order) => Ok(order),
        Mended::NoOrder { .. } => Err("no order")?,
        Mended::Spent {
            start: _start,
            calls: _calls,
        } => Err("spent")?,
    }
}

/// The order after an answer.
fn order_after(
    rt: &impl Abort,
    alloc: Global,
    order: StoredOrder,
    place: usize,
    res: usize,
    reply: Reply,
) -> Result<StoredOrder, Fail> {
    order_of(answer(rt, alloc, order, place, res, reply)?)
}

/// The order of no calls, from the empty map.
fn none(alloc: Global) -> Result<StoredOrder, Fail> {
    Ok(StoredOrder::new(alloc, SortedMap::new(alloc))?)
}

/// Whether the order is this one.
fn is_order(alloc: Global, order: &StoredOrder, places: &[u32]) -> Result<bool, Memory> {
    Ok(order.order(alloc)?.as_slice() == places)
}

// A get that read the first of two inserts ends after both.
#[test]
fn a_get_is_answered_in_the_middle(rt: HostRuntime) -> Result<(), Fail> {
    let alloc = rt.alloc();
    let mut order = none(alloc)?;
    begin(&rt, &mut order, Call::Get(1), 0)?;
    begin(&rt, &mut order, Call::Insert(1, 5), 1)?;
    begin(&rt, &mut order, Call::Insert(1, 6), 2)?;
    let order = order_after(&rt, alloc, order, 1, 3, Reply::None)?;
    let order = order_after(&rt, alloc, order, 2, 4, Reply::Some(5))?;
    assert!(rt; is_order(alloc, &order, &[1, 2])?);
    let order = order_after(&rt, alloc, order, 0, 5, Reply::Some(5))?;
    assert!(rt; is_order(alloc, &order, &[1, 0, 2])?);
    Ok(())
}

/// Two inserts of a key and a get that read the first of them, in the order that this guess leads
/// to.
fn guessed(rt: &impl Abort, alloc: Global, guess: &[u32]) -> Result<StoredOrder, Fail> {
    let mut order = none(alloc)?;
    begin(rt, &mut order, Call::Insert(1, 5), 0)?;
    begin(rt, &mut order, Call::Insert(1, 7), 1)?;
    begin(rt, &mut order, Call::Get(1), 2)?;
    let order = order_after(rt, alloc, order, 2, 3, Reply::Some(5))?;
    let (start, calls, _order) = order.into_parts(alloc)?;
    order_of(StoredOrder::find(alloc, start, calls, guess, BUDGET)?)
}

// The calls of the guess that may not come next are passed over. Then the insert that the get read
// found the other one.
#[test]
fn an_answer_moves_a_call_of_a_guessed_order(rt: HostRuntime) -> Result<(), Fail> {
    let alloc = rt.alloc();
    let order = guessed(&rt, alloc, &[7, 2, 0, 0, u32::MAX, 2])?;
    assert!(rt; order.start().pairs().is_empty() && is_order(alloc, &order, &[0, 2])?);
    let order = order_after(&rt, alloc, order, 0, 4, Reply::Some(7))?;
    assert!(rt; is_order(alloc, &order, &[1, 0, 2])?);
    Ok(())
}

#[test]
fn a_value_that_nobody_wrote_has_no_order(rt: HostRuntime) -> Result<(), Fail> {
    let alloc = rt.alloc();
    let mut order = none(alloc)?;
    begin(&rt, &mut order, Call::Insert(1, 5), 0)?;
    begin(&rt, &mut order, Call::Get(1), 1)?;
    let kept = answer(&rt, alloc, order, 1, 2, Reply::Some(9))?;
    assert!(rt; matches!(kept, Mended::NoOrder { .. }));
    Ok(())
}

/// Gets of another key, one after another.
fn gets(
    rt: &impl Abort,
    alloc: Global,
    mut order: StoredOrder,
    count: usize,
    from: usize,
) -> Result<StoredOrder, Fail>
    requires count { count < 2000 }
    requires from { from < 10000 }
{
    for turn in 0..count {
        let place = order.calls().len();
        let inv = from + 2 * turn;
        begin(rt, &mut order, Call::Get(2), inv)?;
        order = order_after(rt, alloc, order, place, inv + 1, Reply::None)?;
    }
    Ok(order)
}

/// Whether a place comes before another one.
fn stands_before(
    alloc: Global,
    order: &StoredOrder,
    place: u32,
    later: u32,
) -> Result<bool, Memory> {
    let places = order.order(alloc)?;
    Ok(places.iter().position(|it| *it == place) < places.iter().position(|it| *it == later))
}

/// A call begins and is answered, and nothing comes between.
fn call(
    rt: &impl Abort,
    alloc: Global,
    mut order: StoredOrder,
    call: Call,
    inv: usize,
    reply: Reply,
) -> Result<StoredOrder, Fail>
    requires { inv < 10000 }
{
    let place = order.calls().len();
    begin(rt, &mut order, call, inv)?;
    order_after(rt, alloc, order, place, inv + 1, reply)
}

/// Two inserts of other keys that overlap, in the order that a search would not try first.
fn turned(rt: &impl Abort, alloc: Global) -> Result<StoredOrder, Fail> {
    let mut order = none(alloc)?;
    begin(rt, &mut order, Call::Insert(3, 1), 0)?;
    begin(rt, &mut order, Call::Insert(4, 1), 1)?;
    let order = order_after(rt, alloc, order, 0, 2, Reply::None)?;
    let order = order_after(rt, alloc, order, 1, 3, Reply::None)?;
    let (start, calls, _order) = order.into_parts(alloc)?;
    order_of(StoredOrder::find(alloc, start, calls, &[1, 0], BUDGET)?)
}

// An insert that found what the second of three inserts wrote comes between that and the third.
#[test]
fn an_insert_is_put_in_the_middle(rt: HostRuntime) -> Result<(), Fail> {
    let alloc = rt.alloc();
    let mut order = turned(&rt, alloc)?;
    begin(&rt, &mut order, Call::Insert(1, 5), 4)?;
    let order = call(&rt, alloc, order, Call::Insert(1, 6), 5, Reply::None)?;
    let order = call(&rt, alloc, order, Call::Insert(1, 7), 7, Reply::Done)?;
    assert!(rt; is_order(alloc, &order, &[1, 0, 3, 4])?);
    let order = order_after(&rt, alloc, order, 2, 9, Reply::Some(6))?;
    assert!(rt; is_order(alloc, &order, &[1, 0, 3, 2, 4])?);
    Ok(())
}

// A get that read nothing comes before an insert that 20 calls follow, and the others stay.
#[test]
fn a_get_is_put_before_many_calls(rt: HostRuntime) -> Result<(), Fail> {
    let alloc = rt.alloc();
    let mut order = gets(&rt, alloc, turned(&rt, alloc)?, 2, 4)?;
    begin(&rt, &mut order, Call::Get(1), 8)?;
    let order = call(&rt, alloc, order, Call::Insert(1, 5), 9, Reply::None)?;
    let order = gets(&rt, alloc, order, 20, 11)?;
    let order = order_after(&rt, alloc, order, 4, 60, Reply::None)?;
    let places = [
        1, 0, 2, 3, 4, 5, 6, 7, 8, 9, 10, 11, 12, 13, 14, 15, 16, 17, 18, 19, 20, 21, 22, 23, 24,
        25,
    ];
    assert!(rt; is_order(alloc, &order, &places)?);
    Ok(())
}

/// This many gets, then two inserts with answers without the value, then this many gets. A get that
/// comes after both inserts is answered last, and read the first of them. So no place in that order
/// allows it.
fn reread(rt: &impl Abort, alloc: Global, before: usize, after: usize) -> Result<StoredOrder, Fail>
    requires before { before < 1500 }
    requires after { after < 1500 }
{
    let mut order = gets(rt, alloc, turned(rt, alloc)?, before, 4)?;
    begin(rt, &mut order, Call::Insert(1, 5), 4_000)?;
    begin(rt, &mut order, Call::Insert(1, 6), 4_001)?;
    let order = order_after(rt, alloc, order, before + 2, 4_002, Reply::Done)?;
    let mut order = order_after(rt, alloc, order, before + 3, 4_003, Reply::Done)?;
    begin(rt, &mut order, Call::Get(1), 4_004)?;
    let order = gets(rt, alloc, order, after, 4_005)?;
    order_after(rt, alloc, order, before + 4, 8_000, Reply::Some(5))
}

// The last 64 calls are searched, but not the first two.
#[test]
fn a_window_goes_back(rt: HostRuntime) -> Result<(), Fail> {
    let alloc = rt.alloc();
    let order = reread(&rt, alloc, 60, 20)?;
    assert!(rt; stands_before(alloc, &order, 63, 62)? && stands_before(alloc, &order, 62, 64)?);
    assert!(rt; stands_before(alloc, &order, 1, 0)?);
    Ok(())
}

// The last 1,024 calls are searched, but not the first two.
#[test]
fn a_long_window_goes_back(rt: HostRuntime) -> Result<(), Fail> {
    let alloc = rt.alloc();
    let order = reread(&rt, alloc, 1_200, 300)?;
    assert!(rt; stands_before(alloc, &order, 1_203, 1_202)?);
    assert!(rt; stands_before(alloc, &order, 1_202, 1_204)?);
    assert!(rt; stands_before(alloc, &order, 1, 0)?);
    Ok(())
}

/// Two inserts of 5, this many gets of another key, a get of 5, and an insert that found 5. A
/// removal that found 5 is answered last, and has one place in that order: between the first two.
/// Each place after that but the last allows the removal, but not the calls after it.
fn removed(rt: &impl Abort, alloc: Global, count: usize) -> Result<StoredOrder, Fail>
    requires { count < 500 }
{
    let mut order = turned(rt, alloc)?;
    begin(rt, &mut order, Call::Remove(1), 4)?;
    let order = call(rt, alloc, order, Call::Insert(1, 5), 5, Reply::None)?;
    let order = call(rt, alloc, order, Call::Insert(1, 5), 7, Reply::Done)?;
    let order = gets(rt, alloc, order, count, 9)?;
    let order = call(rt, alloc, order, Call::Get(1), 2_000, Reply::Some(5))?;
    let order = call(rt, alloc, order, Call::Insert(1, 8), 2_002, Reply::Some(5))?;
    order_after(rt, alloc, order, 2, 2_004, Reply::Some(5))
}

#[test]
fn few_tries_in_vain_lead_to_the_place(rt: HostRuntime) -> Result<(), Fail> {
    let alloc = rt.alloc();
    let order = removed(&rt, alloc, 5)?;
    assert!(rt; is_order(alloc, &order, &[1, 0, 3, 2, 4, 5, 6, 7, 8, 9, 10, 11])?);
    Ok(())
}

// 100 tries of up to 100 calls each are too many. So all calls are searched, and the first two of
// the order do not stay.
#[test]
fn many_tries_in_vain_end(rt: HostRuntime) -> Result<(), Fail> {
    let alloc = rt.alloc();
    let order = removed(&rt, alloc, 100)?;
    assert!(rt; stands_before(alloc, &order, 3, 2)? && stands_before(alloc, &order, 2, 4)?);
    assert!(rt; stands_before(alloc, &order, 0, 1)?);
    Ok(())
}

/// Whether all calls were invoked before a response, and none at an invocation.
fn are_others(calls: &[Operation], inv: usize, res: usize) -> bool
    ensures other { IsTrue result → All (λ a. a.inv ≢ inv) calls.now }
    ensures before { IsTrue result → All (λ a. a.inv < res) calls.now }
{
    calls.iter().all(|call| call.inv != inv && call.inv < res)
}

/// Whether a call may be inserted.
fn may_come(calls: &[Operation], operation: &Operation) -> bool
    ensures { IsTrue result → MayCome calls.now operation.now }
{
    let Some(response) = &operation.response else {
        return false;
    };
    operation.inv <= response.res && are_others(calls, operation.inv, response.res)
}

/// A scan of the keys from 0 to 9, with the pairs that it reported.
fn scan_of(
    alloc: Global,
    inv: usize,
    res: usize,
    pairs: &[(u64, u64)],
) -> Result<Operation, Memory> {
    let reply = Reply::Pairs(Pairs::new(Vec::from_slice(alloc, pairs)?));
    Ok(Operation {
        call: Call::Scan(0, 9),
        inv,
        response: Some(Response { res, reply }),
    })
}

/// What is known after a call was inserted.
fn insert(
    rt: &impl Abort,
    alloc: Global,
    order: StoredOrder,
    operation: Operation,
    budget: u32,
) -> Result<Mended, Fail> {
    assert!(rt; may_come(order.calls(), &operation));
    Ok(order.insert(alloc, operation, budget)?)
}

/// An insert at 2 that was answered at 4, one at 5 that was answered at 6, and a get at 7.
fn two_inserts(rt: &impl Abort, alloc: Global) -> Result<StoredOrder, Fail> {
    let mut order = none(alloc)?;
    begin(rt, &mut order, Call::Insert(1, 5), 2)?;
    order = order_after(rt, alloc, order, 0, 4, Reply::None)?;
    begin(rt, &mut order, Call::Insert(2, 6), 5)?;
    order = order_after(rt, alloc, order, 1, 6, Reply::None)?;
    begin(rt, &mut order, Call::Get(1), 7)?;
    Ok(order)
}

// No configuration is searched, since none is allowed. Then the get is answered at its new place.
#[test]
fn a_scan_of_all_goes_to_the_end(rt: HostRuntime) -> Result<(), Fail> {
    let alloc = rt.alloc();
    let order = two_inserts(&rt, alloc)?;
    let scan = scan_of(alloc, 1, 8, &[(1, 5), (2, 6)])?;
    let order = order_of(insert(&rt, alloc, order, scan, 0)?)?;
    assert!(rt; is_order(alloc, &order, &[1, 2, 0])?);
    let order = order_after(&rt, alloc, order, 3, 9, Reply::Some(5))?;
    assert!(rt; is_order(alloc, &order, &[1, 2, 0, 3])?);
    Ok(())
}

// The get that was answered stays the last call. Again no configuration is searched.
#[test]
fn a_scan_of_the_first_of_two_inserts_goes_before_the_last_calls(
    rt: HostRuntime,
) -> Result<(), Fail> {
    let alloc = rt.alloc();
    let order = two_inserts(&rt, alloc)?;
    let order = order_after(&rt, alloc, order, 2, 8, Reply::Some(5))?;
    let scan = scan_of(alloc, 3, 9, &[(1, 5)])?;
    let order = order_of(insert(&rt, alloc, order, scan, 0)?)?;
    assert!(rt; is_order(alloc, &order, &[0, 1, 2, 3])?);
    Ok(())
}

/// Two inserts that overlap, in the order of their invocations, and a scan that overlaps them and
/// reported the second alone. So no place in that order allows it, and the other order does.
fn scanned_in_turn(rt: &impl Abort, alloc: Global, budget: u32) -> Result<Mended, Fail> {
    let mut order = none(alloc)?;
    begin(rt, &mut order, Call::Insert(1, 5), 1)?;
    begin(rt, &mut order, Call::Insert(2, 6), 2)?;
    let order = order_after(rt, alloc, order, 0, 3, Reply::None)?;
    let order = order_after(rt, alloc, order, 1, 4, Reply::None)?;
    let scan = scan_of(alloc, 0, 5, &[(2, 6)])?;
    insert(rt, alloc, order, scan, budget)
}

// The first insert is taken out and put after the scan. No configuration is searched.
#[test]
fn a_scan_that_no_place_allows_moves_an_insert(rt: HostRuntime) -> Result<(), Fail> {
    let alloc = rt.alloc();
    let order = order_of(scanned_in_turn(&rt, alloc, 0)?)?;
    assert!(rt; is_order(alloc, &order, &[2, 0, 1])?);
    Ok(())
}

#[test]
fn a_scan_of_the_second_of_two_inserts_alone_has_no_order(rt: HostRuntime) -> Result<(), Fail> {
    let alloc = rt.alloc();
    let order = two_inserts(&rt, alloc)?;
    let scan = scan_of(alloc, 1, 8, &[(2, 6)])?;
    let kept = insert(&rt, alloc, order, scan, BUDGET)?;
    assert!(rt; matches!(kept, Mended::NoOrder { .. }));
    Ok(())
}

// Only a search shows that there is no order. With budget 0 it meets no configuration.
#[test]
fn a_scan_without_order_is_undecided_without_a_search(rt: HostRuntime) -> Result<(), Fail> {
    let alloc = rt.alloc();
    let order = two_inserts(&rt, alloc)?;
    let scan = scan_of(alloc, 1, 8, &[(2, 6)])?;
    let kept = insert(&rt, alloc, order, scan, 0)?;
    assert!(rt; matches!(kept, Mended::Spent { .. }));
    Ok(())
}
