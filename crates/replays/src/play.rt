// From the text of a replay to the history of its run.
ghost use Rattle.std.specs.Prelude.{◌≡◌, if◌then◌else◌, IfErr, IfOk};
ghost use Rattle.art_core.specs.Core.{Plan, State};
ghost use Rattle.machine.specs.Machines.{Shows, start_of, turns_left};
ghost use Rattle.plan_text.specs.ReplayViews.{shown};
ghost use Rattle.replays.specs.Played.{Records, IsUnrecorded, Plays, IsUnplayedFor, IsPlayed, IsUnplayed, is_memory};
ghost use Rattle.replays.specs.declared.fault.ReplayFault.TheVariants as faults;

use crate::fault::ReplayFault;
use art_core::Item;
use art_schedules::{coupled_is_linearizable, optimistic_is_linearizable};
use events::History;
use machine::Machine;
use plan_text::{Replay, read_replay};
use plans::{MachineFault, RunFault};
use std::alloc::Global;

/// The history that the run of a replay records, given the replay's text: the whole schedule is
/// run. Otherwise it says why there is none. Calls that are open at the end are pending, and calls
/// that were not begun are not in it. If the tree is full, the history is linearizable, whatever
/// the schedule.
pub fn replay_history(alloc: Global, text: &[u8]) -> Result<History, ReplayFault>
    ensures played { IfOk result (IsPlayed text.now) }
    ensures refused { IfErr result (IsUnplayed text.now) }
{
    match read_replay(alloc, text) {
        Ok(replay) => play(alloc, replay),
        Err(fault) => Err(replay_fault(fault)),
    }
}

/// The history that the run of a replay records. If the tree is full, it is linearizable.
fn play(alloc: Global, replay: Replay) -> Result<History, ReplayFault>
    ensures played { IfOk result (Plays (shown replay)) }
    ensures refused { IfErr result (IsUnplayedFor (shown replay)) }
{
    coupled_is_linearizable();
    optimistic_is_linearizable();
    match Machine::open_with(
        alloc,
        replay.shape,
        replay.variant,
        replay.start,
        replay.scripts,
        replay.limit,
    ) {
        Ok(machine) => record(alloc, machine, &replay.schedule),
        Err(fault) => Err(replay_fault(fault)),
    }
}

/// The history that a machine records in the run of a schedule.
fn record(alloc: Global, machine: Machine, schedule: &[Item]) -> Result<History, ReplayFault>
    ensures recorded { (plan : Plan) (first : State) → Shows plan machine first
        → IfOk result (Records plan schedule.now first (turns_left machine) (start_of machine)) }
    ensures refused { (plan : Plan) (first : State) → Shows plan machine first
        → IfErr result (IsUnrecorded plan schedule.now first (turns_left machine)) }
{
    let mut machine = machine;
    match machine.run(alloc, schedule) {
        Ok(()) => match machine.history(alloc) {
            Ok(history) => Ok(history),
            Err(_) => Err(ReplayFault::Memory),
        },
        Err(stop) => Err(schedule_fault(stop)),
    }
}

/// A fault of a text, or of its starting pairs.
fn replay_fault(fault: MachineFault) -> ReplayFault
    ensures { result ≡ (if is_memory fault then faults.Memory else faults.Replay fault) }
{
    match fault {
        MachineFault::Memory => ReplayFault::Memory,
        fault => ReplayFault::Replay(fault),
    }
}

/// The stop of a schedule.
fn schedule_fault(stop: RunFault) -> ReplayFault
    ensures { result ≡ (if is_memory stop.fault then faults.Memory else faults.Schedule stop) }
{
    match stop.fault {
        MachineFault::Memory => ReplayFault::Memory,
        _ => ReplayFault::Schedule(stop),
    }
}
