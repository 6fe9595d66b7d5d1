// An arena, and the group with all its processes.
ghost use Rattle.std.specs.Prelude.{◌≡◌, ◌*◌, ◌≤◌, IfOk, vec_len, vec_capacity};
ghost use Rattle.art_rows.specs.Table.{IsWithinLimits};
ghost use Rattle.running.specs.Views.{all_idle};
ghost use Rattle.running.specs.Fitting.{Fit};
ghost use Rattle.running.specs.Groups.{shows, setup_with, opened_for, IsGroupOf};

use crate::arena::Arena;
use crate::group::Pass;
use crate::runner::Runner;
use crate::shared_core::SharedCore;
use crate::view::Setup;
use art::{Doing, Shape, Variant};
use events::{MAX_CALLS, Memory, PROCESSES};
use std::alloc::Global;

impl Arena {
    /// Opens an empty tree for this many processes, each with this many calls, and a group that has
    /// them all. It returns `Err` if memory runs out.
    pub fn open(
        alloc: Global,
        shape: Shape,
        variant: Variant,
        processes: u8,
        calls_each: u32,
    ) -> Result<(Arena, Pass), Memory>
        requires shape { IsWithinLimits shape }
        requires processes { (1 ≤ processes) × (processes ≤ PROCESSES) }
        requires calls { processes * calls_each ≤ MAX_CALLS }
        ensures setup { IfOk result (λ r. opened_for r.0 ≡ setup_with shape variant processes calls_each) }
        ensures own { IfOk result (λ r. IsGroupOf r.0 r.1) }
        ensures all { IfOk result (λ r. shows r.1 ≡ all_idle (setup_with shape variant processes calls_each)) }
    {
        let setup = Setup {
            shape,
            variant,
            processes,
            calls_each,
        };
        let runners = idle_runners(alloc, setup)?;
        let (core, place) = SharedCore::open(alloc, setup)?;
        let group = Pass {
            place,
            setup,
            runners,
        };
        Ok((Arena { core }, group))
    }
}

/// Returns all processes, before the first step.
fn idle_runners(alloc: Global, setup: Setup) -> Result<Vec<(u8, Runner)>, Memory>
    ensures fit { IfOk result (λ runners. Fit setup (all_idle setup).processes runners.items) }
    ensures long { IfOk result (λ runners. vec_len runners ≡ setup.processes) }
    ensures room { IfOk result (λ runners. setup.processes ≤ vec_capacity runners) }
{
    let mut runners = Vec::with_capacity(alloc, usize::from(setup.processes))?;
    for number in 0..setup.processes {
        let runner = Runner {
            left: setup.calls_each,
            doing: Doing::Idle,
            log: Vec::new(alloc),
        };
        runners.push((number, runner))?;
    }
    Ok(runners)
}
