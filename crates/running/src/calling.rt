// Calls, one step after another.
ghost use Rattle.std.specs.Prelude.{◌≡◌, ◌<◌, IsTrue, IfOk, OnOk, OnErr};
ghost use Rattle.running.specs.Views.{is_idle, calls_left};
ghost use Rattle.running.specs.Groups.{shows, IsGroupOf};
ghost use Rattle.running.specs.Steps.{is_open, HasInvoked};
ghost use Rattle.running.specs.Progressed.{HasProgressed, HasStopped};

use crate::arena::Arena;
use crate::group::Pass;
use crate::progress::Progress;
use art::TreeCall;
use events::Memory;
use std::alloc::Global;

impl Arena {
    /// Begins a call of the group's least process: it draws the stamp of the invocation, which is
    /// one step of the process. These are two atomic steps on the clock, and the first leaves the
    /// words as they are. Memory for the event is allocated before. It returns `Err` if there is
    /// none, and then nothing has changed.
    pub fn begin(&self, group: &mut Pass, call: TreeCall) -> Result<(), Memory>
        requires own { IsGroupOf self.now group.old }
        requires idle { IsTrue (is_idle (shows group.old)) }
        requires left { 0 < calls_left (shows group.old) }
        ensures own { IsGroupOf self.now group.new }
        ensures invoked { OnOk result (HasInvoked call (shows group.old) (shows group.new)) }
        ensures unchanged { OnErr result (shows group.new ≡ shows group.old) }
    {
        let setup = group.setup;
        let first = &mut group.runners[0];
        let number = first.0;
        first
            .1
            .begin(&self.core, &mut group.place, number, setup, call)
    }

    /// Makes at most this many steps of the open call of the group's least process: accesses, and
    /// the stamp of its response. It returns `Going` if the call is still open after all of them.
    /// It returns `Err` if memory runs out. The steps made then remain, the call is still open, and
    /// may be advanced again.
    pub fn advance(&self, alloc: Global, group: &mut Pass, turns: u32) -> Result<Progress, Memory>
        requires own { IsGroupOf self.now group.old }
        requires open { IsTrue (is_open (shows group.old)) }
        ensures own { IsGroupOf self.now group.new }
        ensures progressed { IfOk result (λ progress. HasProgressed progress turns (shows group.old) (shows group.new)) }
        ensures stopped { OnErr result (HasStopped turns (shows group.old) (shows group.new)) }
    {
        let first = &mut group.runners[0];
        let number = first.0;
        first
            .1
            .advance(alloc, &self.core, &mut group.place, number, turns)
    }
}
