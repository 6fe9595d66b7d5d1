// Processes move to groups of their own, and back.
ghost use Rattle.std.specs.Prelude.{◌≡◌, ◌+◌, ◌≤◌, length, IfOk, OnOk, OnErr};
ghost use Rattle.running.specs.Views.{without_last, last_alone, merged};
ghost use Rattle.running.specs.Groups.{shows, IsGroupOf};

use crate::arena::Arena;
use crate::gathering::{gather, give_last};
use crate::group::Pass;
use events::Memory;
use std::alloc::Global;

impl Arena {
    /// Moves the group's greatest process to a new group, with the room that later joins need. It
    /// is one load, and no step of a process. It returns `Err` if memory runs out, and then nothing
    /// has changed.
    pub fn split(&self, alloc: Global, group: &mut Pass) -> Result<Pass, Memory>
        requires own { IsGroupOf self.now group.old }
        requires several { 2 ≤ length (shows group.old).processes }
        ensures own { IsGroupOf self.now group.new }
        ensures given_own { IfOk result (IsGroupOf self.now) }
        ensures kept { OnOk result (shows group.new ≡ without_last (shows group.old)) }
        ensures given { IfOk result (λ given. shows given ≡ last_alone (shows group.old)) }
        ensures unchanged { OnErr result (shows group.new ≡ shows group.old) }
    {
        let setup = group.setup;
        let mut runners = Vec::with_capacity(alloc, usize::from(setup.processes))?;
        let place = self.core.split(&mut group.place);
        give_last(&mut group.runners, &mut runners);
        Ok(Pass {
            place,
            setup,
            runners,
        })
    }

    /// Moves the processes of another group into this one, by their numbers. It is one load, and no
    /// step of a process.
    pub fn join(&self, group: &mut Pass, other: Pass)
        requires own { IsGroupOf self.now group.old }
        requires other { IsGroupOf self.now other }
        ensures own { IsGroupOf self.now group.new }
        ensures both { shows group.new ≡ merged (shows group.old) (shows other) }
    {
        let Pass {
            place,
            setup: _,
            runners,
        } = other;
        self.core.join(&mut group.place, place);
        if group.runners.len() + runners.len() > usize::from(group.setup.processes) {
            // This never happens, since each process is in only one group; a look at the words
            // would show it.
            self.core.look(&mut group.place);
            unreachable!()
        }
        gather(&mut group.runners, runners);
    }
}
