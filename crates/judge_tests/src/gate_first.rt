// A worker passes the gate to a segment before it searches the segment. What a search does cannot
// be seen from outside, except for the time that it takes. So this test uses the clock.
ghost use Rattle.std.specs.Prelude.{⊤};

use crate::worked::gets;
use cutter::cut;
use events::{Call, Event, History};
use orders::Segment;
use pool::{Gate, search_all};
use std::alloc::Global;
use std::sync::atomic::{AtomicU64, Ordering};
use std::test::Fail;
use std::thread::Threads;
use std::time::{Clock, Instant};

/// Notes when the first two segments are entered, in nanoseconds since a start.
#[derive(Drop)]
struct Moments<'a, C> {
    clock: &'a C,
    start: Instant,
    first: AtomicU64,
    second: AtomicU64,
}

impl<C: Clock> Gate for Moments<'_, C> {
    ghost was_passed = { λ _ _. ⊤ };

    fn enter(&self, segment: usize) {
        let entered = if segment == 0 {
            &self.first
        } else {
            &self.second
        };
        if let Ok(passed) = self.start.elapsed(self.clock) {
            let nanos = u64::try_from(passed.as_nanos()).unwrap_or(u64::MAX);
            entered.store(nanos, Ordering::SeqCst);
        }
    }
}

/// How long one worker takes to enter the first segment, and from then on to enter the second one.
fn until_entered<R: Threads + Clock + Sync>(
    rt: &R,
    alloc: Global,
    segments: &[Segment],
) -> Result<(u64, u64), Fail> {
    let gate = Moments {
        clock: rt,
        start: Instant::now(rt)?,
        first: AtomicU64::new(0),
        second: AtomicU64::new(0),
    };
    search_all(rt, alloc, segments, 10_000, 1, &gate)?;
    let first = gate.first.load(Ordering::SeqCst);
    let second = gate.second.load(Ordering::SeqCst);
    Ok((first, second.saturating_sub(first)))
}

/// The first of two segments has many gets at one key, and takes long to search. Hardly anything is
/// done before it is entered. So less time passes before it is entered than from then until the
/// other one is. The thread may be held up in between, so the least of five tries counts.
#[test]
fn a_segment_is_entered_before_it_is_searched(rt: HostRuntime) -> Result<(), Fail> {
    let mut events = gets(rt.alloc(), 4095, 4095)?;
    events.push(Event::Invoke {
        process: 1,
        call: Call::Insert(9, 90),
    })?;
    let segments = cut(rt.alloc(), &History::from_events(rt.alloc(), events)?)?;
    assert!(rt; segments.len() == 2);
    let (mut before, mut between) = (u64::MAX, u64::MAX);
    for _ in 0..5u32 {
        let (first, second) = until_entered(&rt, rt.alloc(), &segments)?;
        before = before.min(first);
        between = between.min(second);
    }
    assert!(rt;
        0 < before && before < between,
        "{before} and {between} nanoseconds"
    );
    Ok(())
}
