// Where among the calls of an order a read is guessed to be.
ghost use Rattle.std.specs.Prelude.{◌<◌, AllPairs};

use crate::pasts::place_of;
use call_effects::value_after;
use events::{Memory, Operation, Reply};
use follow_cuts::Past;
use std::alloc::Global;

/// A call of an order: its key, if it has only one, its place among the calls, and a moment when it
/// takes effect.
#[derive(Clone, Copy)]
struct Turn {
    key: Option<u64>,
    place: usize,
    moment: usize,
}

/// A turn of a call that has only one key, which a read has too: the key, the turn and its place.
/// `end` is when the first of the key's calls from this turn on ended. `is_last` says whether the
/// key has no later turn.
#[derive(Clone, Copy)]
struct OwnTurn {
    key: u64,
    turn: usize,
    place: usize,
    end: usize,
    is_last: bool,
}

/// What a key has after some of its calls, and when the last of them had begun.
#[derive(Clone, Copy)]
struct Walk {
    key: u64,
    value: Option<u64>,
    moment: usize,
}

/// The moments when a read finds at a key what it reported, from one to before another. The calls
/// of this key from a turn on then come after the read, and the others before it.
#[derive(Clone, Copy)]
struct Window {
    key: u64,
    turn: usize,
    from: usize,
    to: usize,
}

/// The places of the calls of an order and of a read, sorted by when they are to be tried. `points`
/// has a moment for each call of the order, with its invocation, by rising moments. The moment of
/// the read is one when it finds what it reported at the most keys. The calls of each of these keys
/// come before the read or after it as that needs, and the others by their moments.
pub fn places_with(
    alloc: Global,
    past: &Past,
    points: &[(usize, usize)],
    inv: usize,
) -> Result<Vec<u32>, Memory>
    requires { AllPairs (λ a b. a.inv < b.inv) past.now.calls.items }
{
    let mut places = Vec::new(alloc);
    let calls = past.calls.as_slice();
    let turns = turns_of(alloc, calls, points)?;
    let Some(place) = place_of(calls, inv) else {
        return Ok(places);
    };
    let Some(read) = calls.get(place) else {
        return Ok(places);
    };
    let own = own_turns(alloc, calls, &turns, read)?;
    let windows = windows_of(alloc, past, &own, read)?;
    let moment = best_moment(alloc, &windows, inv)?;
    add_turns(&mut places, &turns, &windows, moment, false)?;
    add_place(&mut places, place)?;
    add_turns(&mut places, &turns, &windows, moment, true)?;
    Ok(places)
}

/// The calls of an order.
fn turns_of(
    alloc: Global,
    calls: &[Operation],
    points: &[(usize, usize)],
) -> Result<Vec<Turn>, Memory>
    requires { AllPairs (λ a b. a.inv < b.inv) calls.now }
{
    let mut turns = Vec::new(alloc);
    for point in points {
        if let Some(turn) = turn_at(calls, *point) {
            turns.push(turn)?;
        }
    }
    Ok(turns)
}

/// The call of an order with a moment and an invocation, if it is one of the calls.
fn turn_at(calls: &[Operation], point: (usize, usize)) -> Option<Turn>
    requires { AllPairs (λ a b. a.inv < b.inv) calls.now }
{
    let place = place_of(calls, point.1)?;
    let call = calls.get(place)?;
    let low = call.call.low_key();
    Some(Turn {
        key: if low == call.call.high_key() {
            Some(low)
        } else {
            None
        },
        place,
        moment: point.0,
    })
}

/// The turns of calls of one key that a read has too, by rising key.
fn own_turns(
    alloc: Global,
    calls: &[Operation],
    turns: &[Turn],
    read: &Operation,
) -> Result<Vec<OwnTurn>, Memory> {
    let mut own = Vec::new(alloc);
    for (at, turn) in turns.iter().enumerate() {
        if let Some(key) = turn.key {
            if read.call.low_key() <= key && key <= read.call.high_key() {
                own.push(OwnTurn {
                    key,
                    turn: at,
                    place: turn.place,
                    end: usize::MAX,
                    is_last: true,
                })?;
            }
        }
    }
    own.sort_by_key(|one| one.key)?;
    note_ends(calls, &mut own);
    Ok(own)
}

/// Notes when the first call of a key from each turn on ended, and which turns of a key are the
/// last.
fn note_ends(calls: &[Operation], own: &mut [OwnTurn]) {
    let mut key = None;
    let mut end = usize::MAX;
    for at in (0..own.len()).rev() {
        let is_last = key != Some(own[at].key);
        if is_last {
            end = usize::MAX;
        }
        end = end.min(end_of(calls, own[at].place));
        key = Some(own[at].key);
        own[at].end = end;
        own[at].is_last = is_last;
    }
}

/// When the call at a place ended, and of a pending call a moment after all others.
fn end_of(calls: &[Operation], place: usize) -> usize {
    match calls.get(place) {
        Some(call) => match &call.response {
            Some(response) => response.res,
            None => usize::MAX,
        },
        None => usize::MAX,
    }
}

/// The windows of a read, by rising key.
fn windows_of(
    alloc: Global,
    past: &Past,
    own: &[OwnTurn],
    read: &Operation,
) -> Result<Vec<Window>, Memory> {
    let mut windows = Vec::new(alloc);
    let mut last = None;
    for one in own {
        let walk = walk_of(past, last, one.key, read.inv);
        let after = gone_on(past, walk, one.place);
        add_window(&mut windows, walk, one.turn, one.end, read)?;
        if one.is_last {
            add_window(&mut windows, after, usize::MAX, usize::MAX, read)?;
        }
        last = Some(after);
    }
    Ok(windows)
}

/// What a key has: after the calls so far, if there were some.
fn walk_of(past: &Past, last: Option<Walk>, key: u64, inv: usize) -> Walk {
    match last {
        Some(walk) if walk.key == key => walk,
        _ => Walk {
            key,
            value: past.map.value(key),
            moment: inv,
        },
    }
}

/// What a key has after one more call.
fn gone_on(past: &Past, walk: Walk, place: usize) -> Walk {
    match past.calls.get(place) {
        Some(call) => Walk {
            key: walk.key,
            value: value_after(walk.value, call),
            moment: walk.moment.max(call.inv),
        },
        None => walk,
    }
}

/// Adds the window of a key before a turn, if the key has there what the read reported.
fn add_window(
    windows: &mut Vec<Window>,
    walk: Walk,
    turn: usize,
    to: usize,
    read: &Operation,
) -> Result<(), Memory> {
    if reported_at(read, walk.key) != Some(walk.value) {
        return Ok(());
    }
    let from = match windows.last() {
        Some(window) if window.key == walk.key => walk.moment.max(window.to),
        _ => walk.moment,
    };
    if from < to {
        windows.push(Window {
            key: walk.key,
            turn,
            from,
            to,
        })?;
    }
    Ok(())
}

/// What a read reported at a key, if it did.
fn reported_at(read: &Operation, key: u64) -> Option<Option<u64>> {
    let Some(response) = &read.response else {
        return None;
    };
    match &response.reply {
        Reply::Some(value) => Some(Some(*value)),
        Reply::None => Some(None),
        Reply::Pairs(pairs) => Some(value_in(pairs.as_slice(), key)),
        _ => None,
    }
}

/// The value of a key among pairs by rising key.
fn value_in(pairs: &[(u64, u64)], key: u64) -> Option<u64> {
    let place = pairs.partition_point(|pair| pair.0 < key);
    match pairs.get(place) {
        Some(pair) if pair.0 == key => Some(pair.1),
        _ => None,
    }
}

/// The first moment that is in the most windows, or the given one if there are none.
fn best_moment(alloc: Global, windows: &[Window], moment: usize) -> Result<usize, Memory> {
    let mut ends = Vec::new(alloc);
    for window in windows {
        ends.push((window.to, false))?;
    }
    for window in windows {
        ends.push((window.from, true))?;
    }
    ends.sort_by_key(|end| end.0)?;
    let mut best = moment;
    let mut most = 0usize;
    let mut count = 0usize;
    for end in &ends {
        if end.1 {
            count = count.saturating_add(1);
        } else {
            count = count.saturating_sub(1);
        }
        if most < count {
            most = count;
            best = end.0;
        }
    }
    Ok(best)
}

/// Adds the places of the calls that come before a read at a moment, or of those after it.
fn add_turns(
    places: &mut Vec<u32>,
    turns: &[Turn],
    windows: &[Window],
    moment: usize,
    late: bool,
) -> Result<(), Memory> {
    for (at, turn) in turns.iter().enumerate() {
        if is_late(turn, at, windows, moment) == late {
            add_place(places, turn.place)?;
        }
    }
    Ok(())
}

/// Whether a call comes after a read at a moment.
fn is_late(turn: &Turn, at: usize, windows: &[Window], moment: usize) -> bool {
    match window_at(windows, turn.key, moment) {
        Some(window) => window.turn <= at,
        None => moment < turn.moment,
    }
}

/// The window of a key with a moment.
fn window_at(windows: &[Window], key: Option<u64>, moment: usize) -> Option<Window> {
    let key = key?;
    let from = windows.partition_point(|window| window.key < key);
    for window in &windows[from..] {
        if window.key != key {
            return None;
        }
        if window.from <= moment && moment < window.to {
            return Some(*window);
        }
    }
    None
}

/// Adds a place, if it fits.
fn add_place(places: &mut Vec<u32>, place: usize) -> Result<(), Memory> {
    if let Ok(place) = u32::try_from(place) {
        places.push(place)?;
    }
    Ok(())
}
