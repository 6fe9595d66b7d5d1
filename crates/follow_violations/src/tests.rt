// Parts of a few keys, worked by hand.
use crate::loss::Violation;
use crate::lost_keys::{KeyViolation, Origin, key_losses};
use crate::own_parts::{key_core, own_losses};
use crate::puts::Put;
use crate::reported::map_of;
use events::{Call, Memory, Operation, Pairs, Reply, Response};
use follow_cuts::Past;
use follow_parts::EndedPart;
use std::alloc::Global;

/// A call that was answered at event 20.
fn answered(call: Call, inv: usize, reply: Reply) -> Operation {
    Operation {
        call,
        inv,
        response: Some(Response { res: 20, reply }),
    }
}

/// A past of these pairs with one call left.
fn past(alloc: Global, pairs: &[(u64, u64)], call: Operation) -> Result<Past, Memory> {
    let map = map_of(alloc, pairs)?;
    let mut calls = Vec::new(alloc);
    calls.push(call)?;
    Ok(Past {
        map,
        calls,
        found: Vec::new(alloc),
    })
}

fn loss_of(alloc: Global, call: Call, pasts: Vec<Past>, puts: &[Put]) -> Result<Violation, Memory> {
    let puts = Vec::from_slice(alloc, puts)?;
    Ok(Violation {
        event: 20,
        number: 5,
        call,
        part: EndedPart {
            ranges: Vec::new(alloc),
            pasts,
        },
        puts,
    })
}

fn put(key: u64, value: u64, event: usize) -> Put {
    Put { key, value, event }
}

fn origin(value: Option<u64>, put: Option<usize>) -> Origin {
    Origin { value, put }
}

/// Whether this is said of a key.
fn says(loss: &KeyViolation, key: u64, from: &[Origin], invoked: &[usize]) -> bool {
    loss.key == key && loss.from.as_slice() == from && loss.invoked.as_slice() == invoked
}

// key 1 is 5 in one past and 6 in another, and get 1 was answered 7: of two puts of 5, the last
#[test]
fn of_two_pasts(rt: HostRuntime) -> Result<(), Memory> {
    let alloc = rt.alloc();
    let mut pasts = Vec::new(alloc);
    pasts.push(past(alloc, &[(1, 5)], answered(Call::Get(1), 10, Reply::Some(7)))?)?;
    pasts.push(past(alloc, &[(1, 6)], answered(Call::Get(1), 10, Reply::Some(7)))?)?;
    let puts = [put(1, 5, 0), put(1, 6, 2), put(1, 5, 4), put(2, 5, 6)];
    let loss = loss_of(alloc, Call::Get(1), pasts, &puts)?;
    let losses = key_losses(alloc, &loss)?;
    let [one] = losses.as_slice() else {
        assert!(rt; false);
        return Ok(());
    };
    assert!(rt;
        says(
            one,
            1,
            &[origin(Some(5), Some(4)), origin(Some(6), Some(2))],
            &[10]
        )
    );
    assert!(rt; key_core(alloc, &loss)?.is_none());
    Ok(())
}

// insert 1 5 is left, and answered 6: an earlier one put the 5 that key 1 has
#[test]
fn put_that_is_left(rt: HostRuntime) -> Result<(), Memory> {
    let alloc = rt.alloc();
    let mut pasts = Vec::new(alloc);
    pasts.push(past(
        alloc,
        &[(1, 5)],
        answered(Call::Insert(1, 5), 4, Reply::Some(6)),
    )?)?;
    let loss = loss_of(
        alloc,
        Call::Insert(1, 5),
        pasts,
        &[put(1, 5, 0), put(1, 5, 4)],
    )?;
    let losses = key_losses(alloc, &loss)?;
    let [one] = losses.as_slice() else {
        assert!(rt; false);
        return Ok(());
    };
    assert!(rt; says(one, 1, &[origin(Some(5), Some(0))], &[4]));
    Ok(())
}

// 2 is 7, 3 is 9, 4 is 0 and 9 is 1, and scan 1 8 was answered 2 7, 4 8, 5 3: it differs at 3, 4
// and 5
#[test]
fn scan_that_differs(rt: HostRuntime) -> Result<(), Memory> {
    let alloc = rt.alloc();
    let mut pasts = Vec::new(alloc);
    let pairs = Vec::from_slice(alloc, &[(2, 7), (4, 8), (5, 3)])?;
    let scan = answered(Call::Scan(1, 8), 10, Reply::Pairs(Pairs::new(pairs)));
    pasts.push(past(alloc, &[(2, 7), (3, 9), (4, 0), (9, 1)], scan)?)?;
    let loss = loss_of(alloc, Call::Scan(1, 8), pasts, &[])?;
    let losses = key_losses(alloc, &loss)?;
    let [three, four, five] = losses.as_slice() else {
        assert!(rt; false);
        return Ok(());
    };
    assert!(rt; says(three, 3, &[origin(Some(9), None)], &[10]));
    assert!(rt; says(four, 4, &[origin(Some(0), None)], &[10]));
    assert!(rt; says(five, 5, &[origin(None, None)], &[10]));
    Ok(())
}

// no past is left: the key of the call that is answered is named, and nothing is said of it
#[test]
fn without_pasts(rt: HostRuntime) -> Result<(), Memory> {
    let alloc = rt.alloc();
    let loss = loss_of(alloc, Call::Get(1), Vec::new(alloc), &[put(1, 5, 0)])?;
    let losses = key_losses(alloc, &loss)?;
    let [one] = losses.as_slice() else {
        assert!(rt; false);
        return Ok(());
    };
    assert!(rt; says(one, 1, &[], &[]));
    assert!(rt; key_core(alloc, &loss)?.is_none());
    Ok(())
}

// the part of the only past has no put of the insert that is left; of none of its calls no key is
// named
#[test]
fn own_part_of_one_past(rt: HostRuntime) -> Result<(), Memory> {
    let alloc = rt.alloc();
    let mut pasts = Vec::new(alloc);
    pasts.push(past(
        alloc,
        &[(1, 5)],
        answered(Call::Insert(1, 5), 4, Reply::Some(6)),
    )?)?;
    let loss = loss_of(alloc, Call::Get(2), pasts, &[put(1, 5, 0), put(1, 5, 4)])?;
    let Some(part) = key_core(alloc, &loss)? else {
        assert!(rt; false);
        return Ok(());
    };
    assert!(rt; part.puts.as_slice() == [put(1, 5, 0)].as_slice());
    let losses = own_losses(alloc, &part, &part.calls)?;
    let [one] = losses.as_slice() else {
        assert!(rt; false);
        return Ok(());
    };
    assert!(rt; says(one, 1, &[origin(Some(5), Some(0))], &[4]));
    assert!(rt; own_losses(alloc, &part, &[])?.is_empty());
    Ok(())
}
