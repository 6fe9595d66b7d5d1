// Schedules that are drawn, and run on machines.
use crate::shapes::eights;
use art::Variant;
use machine::Machine;
use plan_text::{Replay, read_plan, write_replay};
use replays::{Draw, Strategy, drawn_replay};
use std::alloc::Global;
use std::process::Abort;
use std::test::Fail;

/// Two processes whose calls meet at one key.
static MEETING: &str =
    r#"{"scripts":[[["insert",5,50],["get",5],["remove",5]],[["insert",5,51],["scan",0,9]]],"version":1}"#;

/// A replay of this plan on an optimistic tree, by this strategy.
fn drawn(alloc: Global, strategy: Strategy) -> Result<Replay, Fail> {
    let plan = read_plan(alloc, MEETING.as_bytes())?;
    let scripts = plan.into_scripts();
    let draw = Draw {
        seed: 7,
        strategy,
        depth: 3,
    };
    let variant = Variant::Optimistic;
    Ok(drawn_replay(alloc, eights(), variant, 100_000, scripts, &draw)?)
}

/// Draws the same schedule again. All its turns are made, and each call is answered.
fn check_drawn<R: Abort>(rt: &R, alloc: Global, strategy: Strategy) -> Result<(), Fail> {
    let replay = drawn(alloc, strategy)?;
    let again = drawn(alloc, strategy)?;
    let text = write_replay(alloc, &again)?;
    assert!(rt; write_replay(alloc, &replay)?.as_str() == text.as_str());
    let mut machine = Machine::open(
        alloc,
        replay.shape,
        replay.variant,
        replay.scripts,
        replay.limit,
    )?;
    assert_eq!(rt; machine.run(alloc, &again.schedule), Ok(()));
    assert_eq!(rt; machine.history(alloc)?.events().len(), 10);
    Ok(())
}

#[test]
fn each_strategy_draws_turns_that_are_made(rt: HostRuntime) -> Result<(), Fail> {
    let alloc = rt.alloc();
    check_drawn(&rt, alloc, Strategy::Walk)?;
    check_drawn(&rt, alloc, Strategy::Pos)?;
    check_drawn(&rt, alloc, Strategy::Pct)
}
