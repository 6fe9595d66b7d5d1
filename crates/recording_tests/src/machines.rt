// Machines that are opened for plans, and the words that turns leave.
use crate::shapes::eights;
use art::Variant;
use art_core::Item;
use art_rows::Access;
use machine::{Machine, MachineFault, NextStep, RunFault};
use plan_text::read_plan;
use std::alloc::{AllocError, Global};
use std::process::Abort;
use std::test::Fail;

/// A machine for the plan that a text spells.
fn open_machine(alloc: Global, text: &str) -> Result<Machine, Fail> {
    let plan = read_plan(alloc, text.as_bytes())?;
    let scripts = plan.into_scripts();
    Ok(Machine::open(alloc, eights(), Variant::Optimistic, scripts, 100_000)?)
}

/// The text, this many times, with commas between.
fn repeat_text(alloc: Global, text: &str, count: usize) -> Result<String, AllocError> {
    let mut all = String::from_str(alloc, text)?;
    for _ in 1..count {
        all.push_str(",")?;
        all.push_str(text)?;
    }
    Ok(all)
}

/// How many events a machine has recorded before its first turn, for a plan of this many scripts
/// with this many gets each.
fn recorded_of_gets(alloc: Global, scripts: usize, gets: usize) -> Result<usize, Fail> {
    let script = format!(in alloc; "[{}]", repeat_text(alloc, "[\"get\",5]", gets)?)?;
    let text = format!(in alloc;
        "{{\"scripts\":[{}],\"version\":1}}",
        repeat_text(alloc, &script, scripts)?
    )?;
    let machine = open_machine(alloc, &text)?;
    Ok(machine.history(alloc)?.events().len())
}

#[test]
fn a_machine_is_opened_for_the_largest_plans(rt: HostRuntime) -> Result<(), Fail> {
    assert_eq!(rt; recorded_of_gets(rt.alloc(), 64, 64)?, 0);
    assert_eq!(rt; recorded_of_gets(rt.alloc(), 1, 4096)?, 0);
    Ok(())
}

static INSERTS: &str =
    r#"{"scripts":[[["insert",0,1],["insert",1,1],["insert",2,1],["insert",3,1],["insert",4,1],["insert",5,1],["insert",6,1],["insert",7,1],["insert",8,1],["insert",9,1],["insert",10,1],["insert",11,1],["insert",12,1],["insert",13,1],["insert",14,1],["insert",15,1],["insert",16,1]]],"version":1}"#;

/// Words after 17 inserts, each with its place: the clock, the claims of each kind, the rows that
/// were replaced, the row of kind 48, and the root.
static GROWN: [(usize, u64); 14] = [
    (0, 34),
    (1, 1),
    (2, 1),
    (3, 1),
    (4, 1),
    (5, 13),
    (61, 49),
    (229, 0),
    (230, 14),
    (231, 578437695752307201),
    (233, 17),
    (263, 17),
    (893, 16),
    (895, 917),
];

/// One turn, and then all others.
fn make_all_turns<R: Abort>(rt: &R, alloc: Global, machine: &mut Machine) {
    assert_eq!(rt; machine.turn(alloc, 0), Ok(()));
    let others = [Item::Turns {
        process: 0,
        turns: 90_000,
    }];
    let done = RunFault {
        item: 0,
        fault: MachineFault::NothingToDo,
    };
    assert_eq!(rt; machine.run(alloc, &others), Err(done));
}

/// Each of the words after 17 inserts is at its place.
fn check_grown<R: Abort>(rt: &R, words: &[u64]) {
    for (place, word) in &GROWN {
        assert_eq!(rt; words.get(*place), Some(word));
    }
}

#[test]
fn a_row_grows_from_4_to_16_to_48_children(rt: HostRuntime) -> Result<(), Fail> {
    let mut machine = open_machine(rt.alloc(), INSERTS)?;
    make_all_turns(&rt, rt.alloc(), &mut machine);
    check_grown(&rt, machine.words());
    Ok(())
}

/// What a process does next: a digit for each kind of step, and 9 if it loads a word.
fn kind_of_step(step: NextStep) -> u32 {
    match step {
        NextStep::Nothing => 0,
        NextStep::Stamp => 1,
        NextStep::Access(Access::Load { word: _ }) => 9,
        NextStep::Access(_) => 2,
    }
}

#[test]
fn a_machine_says_what_comes_next(rt: HostRuntime) -> Result<(), Fail> {
    let alloc = rt.alloc();
    let mut machine = open_machine(alloc, r#"{"scripts":[[["get",5]],[]],"version":1}"#)?;
    assert_eq!(rt; kind_of_step(machine.next_step(0)), 1);
    assert_eq!(rt; kind_of_step(machine.next_step(1)), 0);
    assert_eq!(rt; kind_of_step(machine.next_step(2)), 0);
    assert_eq!(rt; machine.turn(alloc, 0), Ok(()));
    assert_eq!(rt; kind_of_step(machine.next_step(0)), 9);
    let end = [Item::End { process: 0 }];
    assert_eq!(rt; machine.run(alloc, &end), Ok(()));
    assert_eq!(rt; kind_of_step(machine.next_step(0)), 0);
    Ok(())
}
