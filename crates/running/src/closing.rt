// An arena ends, and what its processes did becomes a history.
ghost use Rattle.std.specs.Prelude.{◌≡◌, flat_map, IfOk, IfErr, OnOk};
ghost use Rattle.running.specs.Ends.{HasOwnEvents};
ghost use Rattle.running.specs.Groups.{shows, opened_for, IsGroupOf};
ghost use Rattle.running.specs.Closing.{HoldsAll, IsHistoryOf, IsHandedBack};
ghost use Rattle.running.specs.Linearizable.{IsLinearizableIn};
ghost use Rattle.running.specs.ReadMoments.{GetsHaveMoments, ScansHaveMoments};

use crate::arena::Arena;
use crate::fault::ArenaClose;
use crate::group::Pass;
use crate::runner::Runner;
use art_schedules::{
    answered_gets_have_moments, answered_scans_have_moments, coupled_is_linearizable,
    optimistic_is_linearizable,
};
use events::{Event, History, Memory, append_log, history_by_stamp};
use std::alloc::Global;

impl Arena {
    /// Closes the arena, and returns the history of all that the processes did: their events by
    /// rising stamp. Open calls are pending, and there are no starting pairs. If it fails, it
    /// returns the arena and the group. If the tree is full and fewer than 2^61 steps were made,
    /// the history is linearizable, however the threads interleaved and whichever of them stopped.
    /// If it is the optimistic one, each scan that was answered has a moment within it at which
    /// nothing that it read is different. Each get has one for the last row that it read, which
    /// says its reply. For n events it takes time n log n.
    pub fn close(self, alloc: Global, group: Pass) -> Result<History, ArenaClose>
        requires own { IsGroupOf self group }
        ensures history { IfOk result (IsHistoryOf (opened_for self) (shows group)) }
        ensures own_events { IfOk result (λ h. HasOwnEvents (opened_for self) (shows group) h.events) }
        ensures all { OnOk result (HoldsAll (opened_for self) (shows group)) }
        ensures moments { OnOk result (ScansHaveMoments (opened_for self) (shows group)) }
        ensures gets { OnOk result (GetsHaveMoments (opened_for self) (shows group)) }
        ensures linearizable { IfOk result (IsLinearizableIn (opened_for self) (shows group)) }
        ensures refused { IfErr result (IsHandedBack self group) }
    {
        if group.runners.len() != usize::from(group.setup.processes) {
            return Err(ArenaClose::StillOut(self, group));
        }
        let mut group = group;
        match self.history(alloc, &mut group) {
            Err(_) => Err(ArenaClose::Memory(self, group)),
            Ok(history) => {
                self.core.close(group.place);
                Ok(history)
            }
        }
    }

    /// Returns the history of a group that has all processes. It looks at the words once.
    fn history(&self, alloc: Global, group: &mut Pass) -> Result<History, Memory>
        requires own { IsGroupOf self.now group.old }
        requires all { HoldsAll (opened_for self.now) (shows group.old) }
        ensures history { IfOk result (IsHistoryOf (opened_for self.now) (shows group.old)) }
        ensures own_events { IfOk result (λ h. HasOwnEvents (opened_for self.now) (shows group.old) h.events) }
        ensures moments { ScansHaveMoments (opened_for self.now) (shows group.old) }
        ensures gets { GetsHaveMoments (opened_for self.now) (shows group.old) }
        ensures linearizable { IfOk result (IsLinearizableIn (opened_for self.now) (shows group.old)) }
        ensures own { IsGroupOf self.now group.new }
        ensures unchanged { shows group.new ≡ shows group.old }
    {
        answered_scans_have_moments();
        answered_gets_have_moments();
        coupled_is_linearizable();
        optimistic_is_linearizable();
        self.core.look(&mut group.place);
        let stamped = all_events(alloc, &group.runners)?;
        history_by_stamp(alloc, Vec::new(alloc), stamped)
    }
}

/// Returns the events of all processes with their stamps, process after process.
fn all_events(alloc: Global, runners: &[(u8, Runner)]) -> Result<Vec<(u64, Event)>, Memory>
    ensures { IfOk result (λ all. all.items ≡ flat_map (λ r. r.1.log.items) runners.now) }
{
    let mut all = Vec::new(alloc);
    for runner in runners {
        append_log(alloc, &mut all, &runner.1.log)?;
    }
    Ok(all)
}
