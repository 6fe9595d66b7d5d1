// The layers below a verdict: segments, their orders, the order that merges these, and a search one
// turn at a time.
ghost use Rattle.std.specs.Prelude.{map, IfOk};
ghost use Rattle.std.specs.List.{AllZip};
ghost use Rattle.orders.specs.SegmentOrders.{IsOrderOf};

use crate::worked::{TWO_KEYS, gets};
use cutter::cut;
use events::{History, MAX_CALLS};
use history_text::read_history;
use merge_orders::merge;
use orders::Segment;
use search::{Found, Turn, Walk, search};
use std::alloc::Global;
use std::test::Fail;

/// An order of each segment, if each has one.
fn orders_of(alloc: Global, segments: &[Segment]) -> Result<Vec<Vec<u32>>, Fail>
    ensures { IfOk result (λ v. AllZip IsOrderOf segments.now (map (λ order. order.items) v.items)) }
{
    let mut orders = Vec::with_capacity(alloc, segments.len())?;
    for segment in segments {
        match search(alloc, segment, 1000)? {
            Found::Order(order) => orders.push(order)?,
            _ => return Err(Fail::new("a segment without order")),
        }
    }
    Ok(orders)
}

#[test]
fn orders_of_segments_are_merged(rt: HostRuntime) -> Result<(), Fail> {
    let alloc = rt.alloc();
    let history = read_history(alloc, TWO_KEYS)?;
    let segments = cut(alloc, &history)?;
    assert!(rt; segments.len() == 2);
    let orders = orders_of(alloc, &segments)?;
    let order = merge(alloc, &history, &orders)?;
    // The points are 1 and 1, and 2.
    assert!(rt; order.as_slice() == [1, 0, 2].as_slice());
    Ok(())
}

/// What a search of all calls finds, one turn at a time, and how many configurations count before
/// the last turn.
fn found_by_turns(alloc: Global, history: &History) -> Result<(Found, usize), Fail> {
    let Some(whole) = Segment::whole(alloc, history)? else {
        return Err(Fail::new("no call belongs to a segment"));
    };
    let mut walk = Walk::open(alloc, &whole, 10_000)?;
    for _turn in 0..1_000_000u32 {
        let len = walk.len();
        match walk.turn(alloc)? {
            Turn::Going(on) => walk = on,
            Turn::Done(found) => return Ok((found, len)),
        }
    }
    Err(Fail::new("it does not end"))
}

#[test]
fn a_search_goes_on_turn_by_turn(rt: HostRuntime) -> Result<(), Fail> {
    let history = read_history(rt.alloc(), TWO_KEYS)?;
    let (found, _len) = found_by_turns(rt.alloc(), &history)?;
    assert!(rt; has_order(&found, &[1, 0, 2]));
    Ok(())
}

/// As many calls as there may be. None overlaps another. There is one more configuration
/// than there are calls.
#[test]
fn a_search_of_most_calls_goes_on_turn_by_turn(rt: HostRuntime) -> Result<(), Fail> {
    let history = History::from_events(rt.alloc(), gets(rt.alloc(), MAX_CALLS, MAX_CALLS)?)?;
    let (found, len) = found_by_turns(rt.alloc(), &history)?;
    let numbers: Vec<u32> = (0..4096).collect(rt.alloc())?;
    assert!(rt; len == 4097 && has_order(&found, &numbers));
    Ok(())
}

fn has_order(found: &Found, want: &[u32]) -> bool {
    match found {
        Found::Order(order) => order.as_slice() == want,
        _ => false,
    }
}
