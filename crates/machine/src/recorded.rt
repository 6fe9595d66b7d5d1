// What a machine has recorded.
use crate::machines::Machine;
use crate::runner::Runner;
use art_schedules::{
    answered_gets_have_moments, answered_scans_have_moments, coupled_is_linearizable,
    optimistic_is_linearizable, serial_is_map,
};
use events::{Event, History, Memory, append_log, history_by_stamp};
use std::alloc::Global;

impl Machine {
    ghost use Rattle.std.specs.Prelude.{◌≡◌, IfOk};
    ghost use Rattle.art_core.specs.Core.{Plan, State, history_of};
    ghost use Rattle.machine.specs.Machines.{Shows, start_of, IsReached};
    ghost use Rattle.machine.specs.ReadMoments.{GetsHaveMoments, ScansHaveMoments};
    ghost use Rattle.machine.specs.Serial.{DoesTheMap};
    ghost use Rattle.machine.specs.Linearizable.{IsLinearizableIn};

    /// The history so far: the starting pairs, and all events by rising stamp. Open calls are
    /// pending, and calls that were not begun are not in it. If the tree is full, the history is
    /// linearizable, whatever turns were made and whichever processes stopped. If also no call
    /// overlaps another, it is legal from its starting pairs on, no row is locked, and the words
    /// mean the pairs after it. If the tree is the optimistic one, each scan that was answered has
    /// a moment within it at which nothing that it read changes, and at which it would read the
    /// same if it ran alone. Each get has one for the last row that it read, which says its reply.
    /// It returns `Err` if memory runs out.
    pub fn history(&self, alloc: Global) -> Result<History, Memory>
        ensures history { (plan : Plan) (s : State) → Shows plan self.now s → IfOk result (λ h. h
            ≡ record { start = start_of self.now; events = history_of s }) }
        ensures reached { ∥ IsReached self.now ∥₁ }
        ensures serial { IfOk result (λ h. ∥ DoesTheMap self.now h ∥₁) }
        ensures moments { ScansHaveMoments self.now }
        ensures gets { GetsHaveMoments self.now }
        ensures linearizable { IfOk result (λ h. ∥ IsLinearizableIn self.now h ∥₁) }
    {
        serial_is_map();
        coupled_is_linearizable();
        optimistic_is_linearizable();
        answered_scans_have_moments();
        answered_gets_have_moments();
        let stamped = all_events(alloc, &self.runners)?;
        let start = Vec::from_slice(alloc, &self.start)?;
        history_by_stamp(alloc, start, stamped)
    }
}

ghost use Rattle.std.specs.Prelude.{◌≡◌, flat_map, IfOk};

/// The events of all processes with their stamps, process after process.
fn all_events(alloc: Global, runners: &[Runner]) -> Result<Vec<(u64, Event)>, Memory>
    ensures { IfOk result (λ all. all.items ≡ flat_map (λ r. r.log.items) runners.now) }
{
    let mut all = Vec::new(alloc);
    for runner in runners {
        append_log(alloc, &mut all, &runner.log)?;
    }
    Ok(all)
}
