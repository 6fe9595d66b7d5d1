// What a recorder records, by hand and of two threads, and what a map under a lock answers.
ghost use Rattle.std.specs.Prelude.{◌≤◌, IfOk};
ghost use Rattle.recorder.specs.Recorders.{IsPassOf};

use events::{Call, Event, Reply};
use recorder::{CloseFault, LockedMap, Pass, Recorder, RecorderFault, Subject};
use std::alloc::Global;
use std::test::Fail;
use std::thread::join_mut;

/// A recorder for two processes, with their passes.
fn open_two(alloc: Global, calls_each: u32) -> Result<(Recorder, Pass, Pass), Fail>
    requires { calls_each ≤ 2048 }
    ensures { IfOk result (λ r. IsPassOf r.0 r.1 × IsPassOf r.0 r.2) }
{
    let (recorder, mut passes) = Recorder::open(alloc, 2, calls_each)?;
    let second = passes.pop();
    let first = passes.pop();
    match (first, second) {
        (Some(first), Some(second)) => Ok((recorder, first, second)),
        _ => Err(Fail::new("a pass for each process")),
    }
}

/// Whether a call of process 1 was begun and answered within one of process 0.
fn are_overlapping(events: &[Event]) -> bool {
    matches!(
        events,
        [
            Event::Invoke { process: 0, .. },
            Event::Invoke { process: 1, .. },
            Event::Answer { process: 1, .. },
            Event::Answer { process: 0, .. },
        ]
    )
}

/// An insert and a get that overlap, and a response out of turn. Returns whether exactly what is in
/// turn is recorded.
fn overlap(recorder: &Recorder, first: &mut Pass, second: &mut Pass) -> bool
    requires first { IsPassOf recorder.now first.old }
    requires second { IsPassOf recorder.now second.old }
    ensures { IsPassOf recorder.now first.new × IsPassOf recorder.now second.new }
{
    let recorded = [
        recorder.invoke(first, Call::Insert(5, 7)),
        recorder.invoke(second, Call::Get(5)),
        recorder.answer(second, Reply::None),
        recorder.answer(second, Reply::None),
        recorder.answer(first, Reply::None),
    ];
    recorded
        == [
            Ok(()),
            Ok(()),
            Ok(()),
            Err(RecorderFault::OutOfTurn),
            Ok(()),
        ]
}

#[test]
fn without_a_pass_all_come_back_and_go_on(rt: HostRuntime) -> Result<(), Fail> {
    let alloc = rt.alloc();
    let (recorder, mut first, mut second) = open_two(alloc, 2)?;
    assert!(rt; overlap(&recorder, &mut first, &mut second));
    let passes = vec![in alloc; second]?;
    let Err(CloseFault::StillOut(recorder, mut passes)) = recorder.close(alloc, passes) else {
        panic!(rt; "a pass was missing");
    };
    passes.push(first)?;
    let Ok(history) = recorder.close(alloc, passes) else {
        panic!(rt; "all passes were there");
    };
    assert!(rt; are_overlapping(history.events()));
    Ok(())
}

/// Inserts 1,000 keys, each answered at once, and returns how many were recorded.
fn record_inserts(recorder: &Recorder, pass: &mut Pass) -> u32
    requires { IsPassOf recorder.now pass.old }
    ensures { IsPassOf recorder.now pass.new }
{
    let mut done = 0;
    for key in 0..1000 {
        let begun = recorder.invoke(pass, Call::Insert(key, 1));
        let ended = recorder.answer(pass, Reply::None);
        if begun.is_ok() && ended.is_ok() {
            done += 1;
        }
    }
    done
}

#[test]
fn two_threads_are_recorded(rt: HostRuntime) -> Result<(), Fail> {
    let alloc = rt.alloc();
    let (recorder, mut first, mut second) = open_two(alloc, 1000)?;
    let (firsts, seconds) = join_mut(
        &rt,
        &mut || record_inserts(&recorder, &mut first),
        &mut || record_inserts(&recorder, &mut second),
    );
    assert!(rt; firsts == 1000 && seconds == 1000);
    let passes = vec![in alloc; first, second]?;
    let Ok(history) = recorder.close(alloc, passes) else {
        panic!(rt; "all passes were there");
    };
    assert!(rt; history.events().len() == 4000 && history.calls().len() == 2000);
    Ok(())
}

#[test]
fn a_locked_map_answers_and_refuses(rt: HostRuntime) -> Result<(), Fail> {
    let alloc = rt.alloc();
    let map = LockedMap::new(&rt, alloc);
    assert!(rt; matches!(&map.call(&Call::Insert(5, 7)), Reply::None));
    assert!(rt; matches!(&map.call(&Call::Remove(5)), Reply::Some(7)));
    for key in 0..4097 {
        assert!(rt; matches!(&map.call(&Call::Insert(key, 1)), Reply::None));
    }
    assert!(rt; matches!(&map.call(&Call::Scan(0, 5000)), Reply::Refused));
    assert!(rt; matches!(&map.call(&Call::Scan(1, 5000)), Reply::Pairs(_)));
    Ok(())
}
