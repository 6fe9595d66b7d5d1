// Two processes on a tree, which a gate holds until both have come.
ghost use Rattle.std.specs.Prelude.{⊤};

use crate::shapes::eights;
use art::Variant;
use events::History;
use plan_text::read_plan;
use pool::Gate;
use running::{drive_arena, is_drivable};
use std::alloc::Global;
use std::sync::atomic::{AtomicBool, AtomicU64, Ordering};
use std::test::Fail;
use std::thread;
use std::thread::Threads;

/// How often a thread yields before it gives up waiting.
const TURNS: u32 = 10_000_000;

/// Waits for a note, and counts that it came.
pub(crate) fn wait_for(noted: &AtomicBool, met: &AtomicU64) {
    for _ in 0..TURNS {
        if noted.load(Ordering::SeqCst) {
            met.fetch_add(1, Ordering::SeqCst);
            return;
        }
        thread::yield_now();
    }
}

/// What is recorded when the plan that a text spells is driven on an optimistic tree.
pub(crate) fn drive_text<R: Threads + Sync, G: Gate + Sync>(
    rt: &R,
    alloc: Global,
    text: &str,
    gate: &G,
) -> Result<History, Fail> {
    let plan = read_plan(alloc, text.as_bytes())?;
    if !is_drivable(&plan) {
        return Err(Fail::new("the plan has too many calls"));
    }
    Ok(drive_arena(
        rt,
        alloc,
        &plan,
        eights(),
        Variant::Optimistic,
        100_000,
        gate,
    )?)
}

/// Holds each of the processes 0 and 2 until the other one came. It counts how many saw the other
/// one and how many came, and adds up the numbers of the processes.
#[derive(Drop)]
struct MeetingGate {
    first: AtomicBool,
    last: AtomicBool,
    met: AtomicU64,
    entered: AtomicU64,
    numbers: AtomicU64,
}

impl Gate for MeetingGate {
    ghost was_passed = { λ _ _. ⊤ };

    fn enter(&self, process: usize) {
        self.entered.fetch_add(1, Ordering::SeqCst);
        self.numbers.fetch_add(process as u64, Ordering::SeqCst);
        match process {
            0 => {
                self.first.store(true, Ordering::SeqCst);
                wait_for(&self.last, &self.met);
            }
            2 => {
                self.last.store(true, Ordering::SeqCst);
                wait_for(&self.first, &self.met);
            }
            _ => {}
        }
    }
}

/// Both meet, and each process enters the gate once, also the one without calls.
#[test]
fn two_arena_processes(rt: HostRuntime) -> Result<(), Fail> {
    let alloc = rt.alloc();
    let text =
        r#"{"scripts":[[["insert",5,7],["get",6]],[],[["insert",6,8],["get",5]]],"version":1}"#;
    for round in 0..100 {
        let gate = MeetingGate {
            first: AtomicBool::new(false),
            last: AtomicBool::new(false),
            met: AtomicU64::new(0),
            entered: AtomicU64::new(0),
            numbers: AtomicU64::new(0),
        };
        let history = drive_text(&rt, alloc, text, &gate)?;
        let told = (
            gate.met.load(Ordering::SeqCst),
            gate.entered.load(Ordering::SeqCst),
            gate.numbers.load(Ordering::SeqCst),
        );
        assert!(rt; told == (2, 3, 3), "round {round}");
        assert!(rt; history.events().len() == 8, "round {round}");
    }
    Ok(())
}
