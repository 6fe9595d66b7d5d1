// Cuts of small parts, worked by hand.
ghost use Rattle.std.specs.Prelude.{◌≡◌, ◌<◌, None, Some, AllPairs, IfOk};
ghost use Rattle.events.specs.Precedence.{NonePrecedesItself};

use crate::cut::{Cut, Limits, pasts_at};
use crate::past::{Found, Past};
use events::{Call, Memory, Operation, Pairs, Reply, Response};
use map_object::SortedMap;
use std::alloc::Global;
use std::test::Fail;

const AMPLE: Limits = Limits {
    width: 100,
    levels: 100,
    pasts: 100,
};

/// A past that is expected: its pairs, the invocations of the calls left, and what calls found,
/// each by its invocation and its key.
type Expected<'a> = (
    &'a [(u64, u64)],
    &'a [usize],
    &'a [(usize, u64, Option<u64>)],
);

/// A call that is answered at a place.
fn answered_call(call: Call, inv: usize, res: usize, reply: Reply) -> Operation
    ensures { result ≡ record { call = call; inv = inv; response = Some (record { res = res; reply = reply }) } }
{
    Operation {
        call,
        inv,
        response: Some(Response { res, reply }),
    }
}

/// A call that is pending.
fn open_call(call: Call, inv: usize) -> Operation
    ensures { result ≡ record { call = call; inv = inv; response = None } }
{
    Operation {
        call,
        inv,
        response: None,
    }
}

/// Whether a cut has these pasts, and no others.
fn has_pasts(cut: &Cut, expected: &[Expected]) -> bool {
    match cut {
        Cut::Pasts(pasts) => pasts.len() == expected.len()
            && expected.iter().all(|past| has_past(pasts, past)),
        Cut::Spent => false,
    }
}

/// Whether a past is among some.
fn has_past(pasts: &[Past], expected: &Expected) -> bool {
    pasts.iter().any(|past| past.map.pairs() == expected.0
        && are_called(&past.calls, expected.1)
        && are_found(&past.found, expected.2))
}

/// Whether calls have these invocations, in turn.
fn are_called(calls: &[Operation], names: &[usize]) -> bool {
    calls.len() == names.len()
        && calls
            .iter()
            .zip(names)
            .all(|(call, name)| call.inv == *name)
}

/// Whether this was found, and nothing else.
fn are_found(found: &[Found], expected: &[(usize, u64, Option<u64>)]) -> bool {
    found.len() == expected.len() && expected.iter().all(|one| is_found(found, one))
}

/// Whether this was found.
fn is_found(found: &[Found], expected: &(usize, u64, Option<u64>)) -> bool {
    found.iter().any(|one| one.inv == expected.0
        && one.key == expected.1
        && one.value == expected.2)
}

/// The cut at a moment of a part that was empty before these calls.
fn cut_at(
    alloc: Global,
    moment: usize,
    calls: Vec<Operation>,
    limits: Limits,
) -> Result<Cut, Memory>
    requires rising { AllPairs (λ a b. a.inv < b.inv) calls.items }
    requires apart { NonePrecedesItself calls.items }
{
    let past = Past {
        map: SortedMap::new(alloc),
        calls,
        found: Vec::new(alloc),
    };
    let pasts = vec![in alloc; past]?;
    pasts_at(alloc, &pasts, moment, limits)
}

/// The cut after an insert of 5 that is pending, and a get that found 5.
fn cut_after_get(alloc: Global) -> Result<Cut, Memory> {
    let calls = vec![in alloc;
        open_call(Call::Insert(1, 5), 0),
        answered_call(Call::Get(1), 1, 2, Reply::Some(5)),
    ]?;
    cut_at(alloc, 3, calls, AMPLE)
}

// The get can only come after the insert, which found no value.
#[test]
fn a_pending_insert_was_seen(rt: HostRuntime) -> Result<(), Fail> {
    let cut = cut_after_get(rt.alloc())?;
    assert!(rt; has_pasts(&cut, &[(&[(1, 5)], &[], &[(0, 1, None)])]));
    Ok(())
}

/// The cut after an insert at 1 and a later one at 2, during which a scan found one pair.
fn cut_after_scan(alloc: Global, pair: (u64, u64)) -> Result<Cut, Memory> {
    let seen = vec![in alloc; pair]?;
    let calls = vec![in alloc;
        answered_call(Call::Scan(1, 2), 0, 5, Reply::Pairs(Pairs::new(seen))),
        answered_call(Call::Insert(1, 5), 1, 2, Reply::None),
        answered_call(Call::Insert(2, 7), 3, 4, Reply::None),
    ]?;
    cut_at(alloc, 6, calls, AMPLE)
}

// The first pair alone is there between the inserts. The second alone is never there, though each
// key on its own would have an order.
#[test]
fn a_scan_ties_two_keys(rt: HostRuntime) -> Result<(), Fail> {
    let alloc = rt.alloc();
    let first = cut_after_scan(alloc, (1, 5))?;
    assert!(rt; has_pasts(&first, &[(&[(1, 5), (2, 7)], &[], &[])]));
    let second = cut_after_scan(alloc, (2, 7))?;
    assert!(rt; has_pasts(&second, &[]));
    Ok(())
}

/// The cut after two inserts at each of three keys, during which two scans found the second key as
/// the first insert there left it, and as the second did. Calls at different keys overlap.
fn cut_after_scans(alloc: Global, limits: Limits) -> Result<Cut, Memory> {
    let first = vec![in alloc; (2, 20)]?;
    let second = vec![in alloc; (2, 21), (3, 31)]?;
    let calls = vec![in alloc;
        answered_call(Call::Scan(1, 2), 0, 14, Reply::Pairs(Pairs::new(first))),
        answered_call(Call::Scan(2, 3), 1, 15, Reply::Pairs(Pairs::new(second))),
        answered_call(Call::Insert(1, 10), 2, 5, Reply::None),
        answered_call(Call::Insert(2, 20), 3, 6, Reply::None),
        answered_call(Call::Insert(3, 30), 4, 7, Reply::None),
        answered_call(Call::Insert(1, 11), 8, 11, Reply::Some(10)),
        answered_call(Call::Insert(2, 21), 9, 12, Reply::Some(20)),
        answered_call(Call::Insert(3, 31), 10, 13, Reply::Some(30)),
    ]?;
    cut_at(alloc, 16, calls, limits)
}

// The first scan found nothing at 1, so the inserts there wait for it, and it waits for the first
// insert at 2. Only the calls of keys 1 and 2 are tried at first: by all calls there would be five
// positions.
#[test]
fn scans_do_not_tie_keys_while_they_do_not_fit(rt: HostRuntime) -> Result<(), Fail> {
    let limits = Limits {
        width: 4,
        levels: 100,
        pasts: 100,
    };
    let cut = cut_after_scans(rt.alloc(), limits)?;
    assert!(rt; has_pasts(&cut, &[(&[(1, 11), (2, 21), (3, 31)], &[], &[])]));
    Ok(())
}

/// The cut at a moment of two inserts. The second one finds the value of the first.
fn cut_of_two(alloc: Global, moment: usize) -> Result<Cut, Memory> {
    let calls = vec![in alloc;
        answered_call(Call::Insert(1, 5), 0, 1, Reply::None),
        answered_call(Call::Insert(1, 6), 2, 4, Reply::Some(5)),
    ]?;
    cut_at(alloc, moment, calls, AMPLE)
}

// At 3 the second insert has begun, and not ended: it is left. At 5 it has ended.
#[test]
fn a_call_that_ended_later_is_left(rt: HostRuntime) -> Result<(), Fail> {
    let alloc = rt.alloc();
    let one_left = cut_of_two(alloc, 3)?;
    assert!(rt; has_pasts(&one_left, &[(&[(1, 5)], &[2], &[])]));
    let none_left = cut_of_two(alloc, 5)?;
    assert!(rt; has_pasts(&none_left, &[(&[(1, 6)], &[], &[])]));
    Ok(())
}

/// The cut after inserts of 5 and 6 that are pending, and one of 7 that was answered.
fn cut_of_three(alloc: Global, limits: Limits) -> Result<Cut, Memory> {
    let calls = vec![in alloc;
        open_call(Call::Insert(1, 5), 0),
        open_call(Call::Insert(1, 6), 1),
        answered_call(Call::Insert(1, 7), 2, 3, Reply::Done),
    ]?;
    cut_at(alloc, 4, calls, limits)
}

// Each pending insert may have come before the third, after the other or not, or is left.
#[test]
fn pending_inserts_come_in_each_order(rt: HostRuntime) -> Result<(), Fail> {
    let cut = cut_of_three(rt.alloc(), AMPLE)?;
    assert!(rt;
        has_pasts(
            &cut,
            &[
                (&[(1, 7)], &[0, 1], &[]),
                (&[(1, 7)], &[1], &[(0, 1, None)]),
                (&[(1, 7)], &[0], &[(1, 1, None)]),
                (&[(1, 7)], &[], &[(0, 1, None), (1, 1, Some(5))]),
                (&[(1, 7)], &[], &[(0, 1, Some(6)), (1, 1, None)]),
            ]
        )
    );
    Ok(())
}

/// Whether they are more than these limits allow.
fn is_spent(alloc: Global, width: usize, levels: usize, pasts: usize) -> Result<bool, Memory> {
    let limits = Limits {
        width,
        levels,
        pasts,
    };
    match cut_of_three(alloc, limits)? {
        Cut::Pasts(_) => Ok(false),
        Cut::Spent => Ok(true),
    }
}

// After one call there are three positions, after two calls four go on. The walks of three calls
// end at the fourth level, and the fifth finds that none is left. There are five pasts.
#[test]
fn more_than_allowed_is_spent(rt: HostRuntime) -> Result<(), Fail> {
    let alloc = rt.alloc();
    assert!(rt; !is_spent(alloc, 4, 5, 5)?);
    assert!(rt; is_spent(alloc, 3, 5, 5)?);
    assert!(rt; is_spent(alloc, 4, 4, 5)?);
    assert!(rt; is_spent(alloc, 4, 5, 4)?);
    Ok(())
}

/// A past with this value at 1, before an insert of 7 that was done.
fn past_before_put(alloc: Global, value: u64) -> Result<Past, Memory>
    ensures { IfOk result (λ past. AllPairs (λ a b. a.inv < b.inv) past.calls.items × NonePrecedesItself past.calls.items) }
{
    let calls = vec![in alloc; answered_call(Call::Insert(1, 7), 0, 1, Reply::Done)]?;
    let mut map = SortedMap::new(alloc);
    map.step(alloc, &Call::Insert(1, value))?;
    Ok(Past {
        map,
        calls,
        found: Vec::new(alloc),
    })
}

/// The cut of two such pasts.
fn cut_after_put(alloc: Global, first: u64, second: u64) -> Result<Cut, Memory> {
    let pasts = vec![in alloc;
        past_before_put(alloc, first)?,
        past_before_put(alloc, second)?,
    ]?;
    pasts_at(alloc, &pasts, 2, AMPLE)
}

// What an answered call found is not noted, so the two pasts no longer differ.
#[test]
fn pasts_that_become_alike_are_one(rt: HostRuntime) -> Result<(), Fail> {
    let cut = cut_after_put(rt.alloc(), 5, 6)?;
    assert!(rt; has_pasts(&cut, &[(&[(1, 7)], &[], &[])]));
    Ok(())
}

/// The cut after an insert of 5 that was done, and a get that found 5 meanwhile.
fn cut_after_done(alloc: Global) -> Result<Cut, Memory> {
    let calls = vec![in alloc;
        answered_call(Call::Insert(1, 5), 0, 3, Reply::Done),
        answered_call(Call::Get(1), 1, 2, Reply::Some(5)),
    ]?;
    cut_at(alloc, 4, calls, AMPLE)
}

// The insert was answered, so what it found need not be known later.
#[test]
fn what_an_answered_insert_found_is_not_noted(rt: HostRuntime) -> Result<(), Fail> {
    let cut = cut_after_done(rt.alloc())?;
    assert!(rt; has_pasts(&cut, &[(&[(1, 5)], &[], &[])]));
    Ok(())
}
