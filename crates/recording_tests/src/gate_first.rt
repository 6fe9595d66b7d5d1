// A process enters the gate before it begins its first call. The gate does not see calls, and the
// history does not see the gate. So this test uses the clock.
ghost use Rattle.std.specs.Prelude.{⊤};

use crate::meetings::drive_text;
use history_text::write_history;
use pool::Gate;
use std::test::Fail;
use std::thread;
use std::time::{Clock, Instant};

/// How many milliseconds process 0 is held: much longer than it takes to start a thread that does
/// one call.
const HELD: u128 = 20;

/// How often process 0 yields at most while it is held.
const TURNS: u32 = 10_000_000;

/// Holds process 0 at the gate, and nobody else.
#[derive(Drop)]
struct HoldingGate<'a, C> {
    clock: &'a C,
    start: Instant,
}

impl<C: Clock> HoldingGate<'_, C> {
    fn is_over(&self) -> bool {
        match self.start.elapsed(self.clock) {
            Ok(passed) => HELD <= passed.as_millis(),
            Err(_) => true,
        }
    }
}

impl<C: Clock> Gate for HoldingGate<'_, C> {
    ghost was_passed = { λ _ _. ⊤ };

    fn enter(&self, process: usize) {
        for _ in 0..TURNS {
            if process != 0 || self.is_over() {
                return;
            }
            thread::yield_now();
        }
    }
}

static PLAN: &str = r#"{"scripts":[[["get",5]],[["get",6]]],"version":1}"#;

/// The process that is held comes last.
static HELD_LAST: &str =
    r#"{"events":[{"invoke":["get",6],"process":1},{"answer":null,"process":1},{"invoke":["get",5],"process":0},{"answer":null,"process":0}],"version":1}"#;

/// If a process waited at the gate after its call began, the call would come first, or the two
/// would overlap. The machine may delay a thread, so the test asks for most of nine rounds only.
#[test]
fn a_process_enters_the_gate_before_its_calls(rt: HostRuntime) -> Result<(), Fail> {
    let alloc = rt.alloc();
    let mut last = 0u32;
    for _ in 0..9u32 {
        let gate = HoldingGate {
            clock: &rt,
            start: Instant::now(&rt)?,
        };
        let history = drive_text(&rt, alloc, PLAN, &gate)?;
        if write_history(alloc, &history)?.as_str() == HELD_LAST {
            last = last.saturating_add(1);
        }
    }
    assert!(rt; last >= 5, "in {last} of nine rounds");
    Ok(())
}
