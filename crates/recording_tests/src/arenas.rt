// Two processes on an arena, with interleaved steps. The tests show what becomes of a call if a
// check is left out, which the verdict refutes, and what the full trees answer. They also show whom
// a process holds up that stops permanently within its call.
ghost use Rattle.running.specs.Groups.{IsGroupOf};

use crate::shapes::eights;
use art::{TreeCall, Variant};
use events::Call;
use judge::{judge_alone, report};
use running::{Arena, Pass};
use std::alloc::Global;
use std::test::Fail;

/// More steps than any call here has.
const WHOLE: u32 = 900;

/// The group's process begins a call.
fn begin(arena: &Arena, group: &mut Pass, call: &Call) -> Result<(), Fail>
    requires { IsGroupOf arena.now group.old }
    ensures { IsGroupOf arena.now group.new }
{
    let Some(call) = TreeCall::new(call) else {
        return Err(Fail::new("beyond the trees' limits"));
    };
    if !group.is_idle() {
        return Err(Fail::new("a call is open"));
    }
    if group.left() == 0 {
        return Err(Fail::new("no call is left"));
    }
    Ok(arena.begin(group, call)?)
}

/// Begins a call of the group's process if one is given, and makes this many steps of its open
/// call.
fn make_steps(
    alloc: Global,
    arena: &Arena,
    group: &mut Pass,
    call: &Option<Call>,
    steps: u32,
) -> Result<(), Fail>
    requires { IsGroupOf arena.now group.old }
    ensures { IsGroupOf arena.now group.new }
{
    if let Some(call) = call {
        begin(arena, group, call)?;
    }
    if group.is_idle() {
        return Err(Fail::new("no call is open"));
    }
    arena.advance(alloc, group, steps)?;
    Ok(())
}

/// The report on what is recorded if the two processes make these steps: each names the process,
/// the call that it begins before, and how many steps it makes.
fn report_interleaved(
    alloc: Global,
    variant: Variant,
    parts: &[(u8, Option<Call>, u32)],
) -> Result<String, Fail> {
    let (arena, mut first) = Arena::open(alloc, eights(), variant, 2, 3)?;
    let mut second = arena.split(alloc, &mut first)?;
    for part in parts {
        let (process, call, steps) = part;
        if *process == 0 {
            make_steps(alloc, &arena, &mut first, call, *steps)?;
        } else {
            make_steps(alloc, &arena, &mut second, call, *steps)?;
        }
    }
    arena.join(&mut first, second);
    let Ok(history) = arena.close(alloc, first) else {
        return Err(Fail::new("the arena was not closed"));
    };
    let verdict = judge_alone(alloc, &history, 1000)?;
    Ok(report(alloc, &verdict)?)
}

/// A scan has read the root's first slot when two inserts come; the second of them is in a later
/// slot.
static SCAN: [(u8, Option<Call>, u32); 4] = [
    (0, Some(Call::Scan(16777216, 33554432)), 2),
    (1, Some(Call::Insert(16777216, 1)), WHOLE),
    (1, Some(Call::Insert(33554432, 2)), WHOLE),
    (0, None, WHOLE),
];

/// An insert has read the root when another one hangs its leaf there. In the end a get looks for
/// that leaf.
static LOCK: [(u8, Option<Call>, u32); 4] = [
    (0, Some(Call::Insert(5, 50)), 3),
    (1, Some(Call::Insert(9, 90)), WHOLE),
    (0, None, WHOLE),
    (1, Some(Call::Get(9)), WHOLE),
];

#[test]
fn what_a_check_left_out_makes_of_a_call_is_refuted(rt: HostRuntime) -> Result<(), Fail> {
    for (variant, parts, wanted) in [
        (
            Variant::ScanUnvalidated,
            &SCAN,
            "{\"calls\":[0,1,2],\"hi\":33554432,\"lo\":16777216,\"verdict\":\"no\"}",
        ),
        (
            Variant::Optimistic,
            &SCAN,
            "{\"order\":[1,2,0],\"verdict\":\"yes\"}",
        ),
        (
            Variant::LockUnchecked,
            &LOCK,
            "{\"calls\":[1,2],\"hi\":9,\"lo\":9,\"verdict\":\"no\"}",
        ),
        (
            Variant::Optimistic,
            &LOCK,
            "{\"order\":[0,1,2],\"verdict\":\"yes\"}",
        ),
    ] {
        assert!(rt; report_interleaved(rt.alloc(), variant, parts)?.as_str() == wanted);
    }
    Ok(())
}

/// Calls 0 and 1 insert 5 and 9. Call 2 is a get of 5 that stops after some steps. Call 3 is
/// another process's insert: it is answered although the get is not.
const BESIDE: &str = "{\"order\":[0,1,3],\"verdict\":\"yes\"}";

/// The insert waits.
const HELD_UP: &str = "{\"order\":[0,1],\"verdict\":\"yes\"}";

/// The get was answered.
const BOTH: &str = "{\"order\":[0,1,2,3],\"verdict\":\"yes\"}";

/// By the steps that the get makes, the reports under optimistic lock coupling and under lock
/// coupling.
static STOPPED: [(&str, &str); 12] = [
    (BESIDE, BESIDE),
    (BESIDE, BESIDE),
    (BESIDE, HELD_UP),
    (BESIDE, HELD_UP),
    (BESIDE, HELD_UP),
    (BESIDE, HELD_UP),
    (BESIDE, HELD_UP),
    (BESIDE, HELD_UP),
    (BESIDE, HELD_UP),
    (BESIDE, HELD_UP),
    (BOTH, BESIDE),
    (BOTH, BOTH),
];

#[test]
fn a_get_that_stops_while_it_holds_a_lock_holds_up_an_insert(rt: HostRuntime) -> Result<(), Fail> {
    for (steps, (optimistic, coupled)) in STOPPED.iter().enumerate() {
        let parts = [
            (0, Some(Call::Insert(5, 50)), WHOLE),
            (0, Some(Call::Insert(9, 90)), WHOLE),
            (0, Some(Call::Get(5)), steps as u32),
            (1, Some(Call::Insert(3, 30)), WHOLE),
        ];
        let told = report_interleaved(rt.alloc(), Variant::Optimistic, &parts)?;
        assert!(rt; told.as_str() == *optimistic, "{steps} steps");
        let told = report_interleaved(rt.alloc(), Variant::Coupled, &parts)?;
        assert!(rt; told.as_str() == *coupled, "{steps} steps");
    }
    Ok(())
}
