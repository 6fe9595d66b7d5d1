// Streams of a few events, worked by hand.
ghost use Rattle.std.specs.Prelude.{ℕ, ◌≤◌};
ghost use Rattle.events.specs.Keys.{low_key, high_key};
ghost use Rattle.follow_laws.specs.Forms.{HasForm};
ghost use Rattle.follow_parts.specs.Keeping.{reported};

use crate::state::{Answered, Parts};
use events::{Call, Memory, Reply};
use std::alloc::Global;

/// More events than any of these streams has.
const MANY: usize = 1_000;

fn begin(alloc: Global, state: Option<Parts>, call: Call) -> Result<Option<Parts>, Memory>
    requires { low_key call ≤ high_key call }
{
    let Some(state) = state else {
        return Ok(None);
    };
    if state.now() >= MANY {
        return Ok(None);
    }
    let state = state.begin(alloc, call)?;
    Ok(Some(state))
}

/// The state after an answer of a call of one key.
fn answer(
    alloc: Global,
    state: Option<Parts>,
    inv: usize,
    call: Call,
    reply: Reply,
) -> Result<Option<Parts>, Memory>
    requires range { low_key call ≤ high_key call }
    requires form { (res : ℕ) → HasForm call (reported reply res) }
{
    let Some(state) = state else {
        return Ok(None);
    };
    if state.now() >= MANY {
        return Ok(None);
    }
    match state.answer(alloc, inv, call, reply, 1_000)? {
        Answered::Going(state) => Ok(Some(state)),
        _ => Ok(None),
    }
}

// insert 1 5 answered none; get 1 answered 5; get 1 answered 6: the last one is wrong
#[test]
fn one_key(rt: HostRuntime) -> Result<(), Memory> {
    let alloc = rt.alloc();
    let state = Some(Parts::new(alloc, &[])?);
    let state = begin(alloc, state, Call::Insert(1, 5))?;
    let state = answer(alloc, state, 0, Call::Insert(1, 5), Reply::None)?;
    let state = begin(alloc, state, Call::Get(1))?;
    let state = answer(alloc, state, 2, Call::Get(1), Reply::Some(5))?;
    assert!(rt; state.is_some());
    let state = begin(alloc, state, Call::Get(1))?;
    let state = answer(alloc, state, 4, Call::Get(1), Reply::Some(6))?;
    assert!(rt; state.is_none());
    Ok(())
}

// insert 1 5 and insert 1 6 begin; get 1 answered 5, then 6, then 5 again: the last one is wrong
#[test]
fn pending_calls(rt: HostRuntime) -> Result<(), Memory> {
    let alloc = rt.alloc();
    let state = Some(Parts::new(alloc, &[])?);
    let state = begin(alloc, state, Call::Insert(1, 5))?;
    let state = begin(alloc, state, Call::Insert(1, 6))?;
    let state = begin(alloc, state, Call::Get(1))?;
    let state = answer(alloc, state, 2, Call::Get(1), Reply::Some(5))?;
    let state = begin(alloc, state, Call::Get(1))?;
    let state = answer(alloc, state, 4, Call::Get(1), Reply::Some(6))?;
    assert!(rt; state.is_some());
    let state = begin(alloc, state, Call::Get(1))?;
    let state = answer(alloc, state, 6, Call::Get(1), Reply::Some(5))?;
    assert!(rt; state.is_none());
    Ok(())
}
