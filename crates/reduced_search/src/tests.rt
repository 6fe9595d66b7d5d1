// Searches of calls, by hand: no clause says how many configurations a search meets, nor which
// order it finds.
use crate::{SearchEnd, search_calls};
use events::{Call, Event, History, Pairs, Reply};
use map_object::SortedMap;
use std::alloc::Global;
use std::test::Fail;

/// A process begins a call.
fn begin(process: u8, call: Call) -> Event {
    Event::Invoke { process, call }
}

/// The open call of a process is answered.
fn answer(process: u8, reply: Reply) -> Event {
    Event::Answer { process, reply }
}

/// What a search of the calls of these events finds, from the empty map.
fn found(alloc: Global, events: Vec<Event>, budget: u32) -> Result<SearchEnd, Fail> {
    let history = History::from_events(alloc, events)?;
    Ok(search_calls(alloc, SortedMap::new(alloc), history.calls(), budget)?)
}

/// What a search finds, in a word. Key 1 has 5, and a get of it was answered so. Inserts at two
/// other keys ran at the same time, and this call, answered or pending. At the first configuration
/// only the insert of 5 may come next, and at the second at least two of the others.
fn get_found(
    alloc: Global,
    reply: Reply,
    call: Call,
    answered: Option<Reply>,
    budget: u32,
) -> Result<&'static str, Fail> {
    let mut events = vec![in alloc;
        begin(0, Call::Insert(1, 5)),
        answer(0, Reply::None),
        begin(0, Call::Get(1)),
        begin(1, Call::Insert(2, 6)),
        begin(2, Call::Insert(3, 7)),
        begin(3, call),
        answer(0, reply),
        answer(1, Reply::None),
        answer(2, Reply::None),
    ]?;
    if let Some(reply) = answered {
        events.push(answer(3, reply))?;
    }
    Ok(match found(alloc, events, budget)? {
        SearchEnd::Order(_order) => "order",
        SearchEnd::NoOrder => "no order",
        SearchEnd::Spent => "spent",
    })
}

// A get that found what nobody puts there: no configuration is met after the second.
#[test]
fn a_dead_end_is_seen_without_a_search(rt: HostRuntime) -> Result<(), Fail> {
    let alloc = rt.alloc();
    let other = Call::Insert(4, 9);
    assert!(rt; get_found(alloc, Reply::Some(9), other, None, 2)? == "no order");
    assert!(rt; get_found(alloc, Reply::None, other, None, 2)? == "no order");
    Ok(())
}

// A pending call may put it, or a completed one, and a replace puts its new value.
#[test]
fn a_value_may_still_be_put(rt: HostRuntime) -> Result<(), Fail> {
    let alloc = rt.alloc();
    let insert = Call::Insert(1, 9);
    let replace = Call::Replace(1, 5, 9);
    let found = Reply::Some(5);
    assert!(rt; get_found(alloc, Reply::Some(9), insert, None, 100)? == "order");
    assert!(rt; get_found(alloc, Reply::Some(9), insert, Some(found), 100)? == "order");
    assert!(rt; get_found(alloc, Reply::Some(9), replace, None, 100)? == "order");
    assert!(rt; get_found(alloc, Reply::None, Call::Remove(1), None, 100)? == "order");
    Ok(())
}

// An insert that found its own value changed nothing, so it is no writer of that value. It is stuck
// itself.
#[test]
fn a_call_that_changed_nothing_puts_nothing(rt: HostRuntime) -> Result<(), Fail> {
    let alloc = rt.alloc();
    let insert = Call::Insert(1, 9);
    let found = Reply::Some(9);
    assert!(rt; get_found(alloc, Reply::Some(9), insert, Some(found), 2)? == "no order");
    Ok(())
}

// It is known only that the get was done.
#[test]
fn a_call_that_reports_less_is_not_stuck(rt: HostRuntime) -> Result<(), Fail> {
    let alloc = rt.alloc();
    let other = Call::Insert(4, 9);
    assert!(rt; get_found(alloc, Reply::Done, other, None, 100)? == "order");
    Ok(())
}

// An insert and a replace both found 5, which is put once. Taking either leaves the other stuck.
#[test]
fn a_reported_value_is_not_changed_in_vain(rt: HostRuntime) -> Result<(), Fail> {
    let alloc = rt.alloc();
    let events = vec![in alloc;
        begin(0, Call::Insert(1, 5)),
        answer(0, Reply::None),
        begin(0, Call::Insert(1, 6)),
        begin(1, Call::Replace(1, 5, 7)),
        answer(0, Reply::Some(5)),
        answer(1, Reply::Some(5)),
    ]?;
    assert!(rt; matches!(found(alloc, events, 2)?, SearchEnd::NoOrder));
    Ok(())
}

// A scan found 5, which an insert that was answered first replaces, and what another insert puts.
// The first insert is not tried before the scan, so no configuration is met that is not of the
// order.
#[test]
fn a_listed_value_is_not_changed_in_vain(rt: HostRuntime) -> Result<(), Fail> {
    let alloc = rt.alloc();
    let pairs = Pairs::new(vec![in alloc; (1, 5), (2, 6)]?);
    let events = vec![in alloc;
        begin(0, Call::Insert(1, 5)),
        answer(0, Reply::None),
        begin(0, Call::Insert(1, 6)),
        begin(1, Call::Insert(2, 6)),
        begin(2, Call::Scan(0, 9)),
        answer(0, Reply::Some(5)),
        answer(2, Reply::Pairs(pairs)),
        answer(1, Reply::None),
    ]?;
    assert!(rt; is_order(alloc, events, &[0, 2, 3, 1], 4)?);
    Ok(())
}

/// Whether a search of the calls of these events finds this order.
fn is_order(alloc: Global, events: Vec<Event>, places: &[u32], budget: u32) -> Result<bool, Fail> {
    match found(alloc, events, budget)? {
        SearchEnd::Order(order) => Ok(order.as_slice() == places),
        SearchEnd::NoOrder | SearchEnd::Spent => Ok(false),
    }
}

// The insert that was answered first is tried first.
#[test]
fn calls_are_tried_by_answer(rt: HostRuntime) -> Result<(), Fail> {
    let alloc = rt.alloc();
    let events = vec![in alloc;
        begin(0, Call::Insert(1, 5)),
        begin(1, Call::Insert(2, 6)),
        answer(1, Reply::None),
        answer(0, Reply::None),
    ]?;
    assert!(rt; is_order(alloc, events, &[1, 0], 100)?);
    Ok(())
}

// A get found what a pending insert puts there. That insert began first, and is tried last.
#[test]
fn pending_calls_are_tried_last(rt: HostRuntime) -> Result<(), Fail> {
    let alloc = rt.alloc();
    let events = vec![in alloc;
        begin(0, Call::Insert(3, 7)),
        begin(1, Call::Insert(1, 5)),
        begin(2, Call::Get(3)),
        answer(1, Reply::None),
        answer(2, Reply::Some(7)),
    ]?;
    assert!(rt; is_order(alloc, events, &[1, 0, 2], 100)?);
    Ok(())
}

/// The reply of a scan that lists these pairs.
fn list(alloc: Global, pairs: &[(u64, u64)]) -> Result<Reply, Fail> {
    Ok(Reply::Pairs(Pairs::new(Vec::from_slice(alloc, pairs)?)))
}

// A scan that is answered first found the value of one insert. That insert is tried first, though
// the insert and the removal of another key were answered earlier.
#[test]
fn a_key_that_a_scan_missed_goes_first(rt: HostRuntime) -> Result<(), Fail> {
    let alloc = rt.alloc();
    let events = vec![in alloc;
        begin(0, Call::Insert(1, 5)),
        begin(1, Call::Insert(2, 6)),
        begin(2, Call::Remove(1)),
        begin(3, Call::Scan(0, 9)),
        answer(3, list(alloc, &[(2, 6)])?),
        answer(0, Reply::None),
        answer(2, Reply::Some(5)),
        answer(1, Reply::None),
    ]?;
    assert!(rt; is_order(alloc, events, &[1, 3, 0, 2], 5)?);
    Ok(())
}

// The insert that is answered first has to wait for a scan, and the scan for a pending insert of
// another key. It lists one more pair, which a completed insert puts there.
#[test]
fn a_pending_call_of_another_key_goes_first(rt: HostRuntime) -> Result<(), Fail> {
    let alloc = rt.alloc();
    let events = vec![in alloc;
        begin(0, Call::Insert(1, 5)),
        begin(1, Call::Insert(2, 6)),
        begin(2, Call::Insert(3, 7)),
        begin(3, Call::Scan(0, 9)),
        answer(0, Reply::None),
        answer(3, list(alloc, &[(2, 6), (3, 7)])?),
        answer(2, Reply::None),
    ]?;
    assert!(rt; is_order(alloc, events, &[1, 2, 3, 0], 5)?);
    Ok(())
}

// Two scans found what excludes each other. No call of a third key is tried, though one could come
// next, and another one takes back what it puts.
#[test]
fn calls_of_other_keys_are_not_tried_in_vain(rt: HostRuntime) -> Result<(), Fail> {
    let alloc = rt.alloc();
    let events = vec![in alloc;
        begin(0, Call::Insert(1, 5)),
        begin(1, Call::Insert(2, 6)),
        begin(2, Call::Insert(3, 7)),
        begin(3, Call::Remove(3)),
        begin(4, Call::Scan(0, 9)),
        begin(5, Call::Scan(0, 9)),
        answer(4, list(alloc, &[(1, 5)])?),
        answer(5, list(alloc, &[(2, 6)])?),
        answer(0, Reply::None),
        answer(1, Reply::None),
        answer(2, Reply::None),
        answer(3, Reply::Some(7)),
    ]?;
    assert!(rt; matches!(found(alloc, events, 1)?, SearchEnd::NoOrder));
    Ok(())
}
