// The turns that are drawn.
ghost use Rattle.std.specs.Prelude.{◌≡◌, ◌+◌, length, IfOk, IsSomeAnd, OnOk};
ghost use Rattle.art_core.specs.Core.{Plan, State, step};
ghost use Rattle.machine.specs.Machines.{Shows, turns_left};
ghost use Rattle.replays.specs.Drawn.{IsDrawnRun};
ghost use Rattle.replays.specs.Turns.{HasTurns, MayTurn};

use crate::choice::Choice;
use crate::draw_fault::out_of_memory;
use events::Memory;
use machine::Machine;
use std::alloc::Global;

/// The processes that make the turns of a machine, at most this many: they are chosen one after another, until none goes on.
pub(crate) fn drawn_turns(
    alloc: Global,
    machine: &mut Machine,
    choice: &mut Choice,
    limit: u32,
) -> Result<Vec<usize>, Memory>
    requires { HasTurns (length choice.old.processes.items) limit machine.old }
    ensures { (plan : Plan) (first : State) → Shows plan machine.old first
        → IfOk result (λ turns. IsDrawnRun plan first limit turns.items) }
{
    let mut turns = Vec::new(alloc);
    for turn in 0..limit {
        let process = match choice.next_process(machine) {
            Some(process) => process,
            None => return Ok(turns),
        };
        let next = machine.next_step(process);
        make_turn(alloc, machine, process)?;
        turns.push(process)?;
        choice.note(machine, process, next, turn);
    }
    Ok(turns)
}

/// Makes a turn of a process that has something to do.
fn make_turn(alloc: Global, machine: &mut Machine, process: usize) -> Result<(), Memory>
    requires { MayTurn process machine.old }
    ensures moved { (plan : Plan) (s : State) → Shows plan machine.old s
        → OnOk result (IsSomeAnd (step plan s process) (λ next. Shows plan machine.new next)) }
    ensures left { OnOk result (turns_left machine.new + 1 ≡ turns_left machine.old) }
{
    match machine.turn(alloc, process) {
        Ok(()) => Ok(()),
        Err(fault) => Err(out_of_memory(fault)),
    }
}
