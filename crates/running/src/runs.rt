// What a group shows of its least process.
ghost use Rattle.std.specs.Prelude.{◌≡◌, not};
ghost use Rattle.running.specs.Views.{is_idle, calls_left};
ghost use Rattle.running.specs.Steps.{is_open, least_process};
ghost use Rattle.running.specs.Groups.{shows, IsGroup};

use crate::group::Pass;
use art::Doing;

impl Pass {
    /// Returns the number of the least process, which begins calls and makes their steps.
    pub fn process(&self) -> u8
        requires group { IsGroup self.now }
        ensures { result ≡ least_process (shows self.now) }
    {
        self.runners[0].0
    }

    /// Returns whether the least process has no open call.
    pub fn is_idle(&self) -> bool
        requires group { IsGroup self.now }
        ensures idle { result ≡ is_idle (shows self.now) }
        ensures open { not result ≡ is_open (shows self.now) }
    {
        matches!(self.runners[0].1.doing, Doing::Idle)
    }

    /// Returns how many calls the least process may still begin.
    pub fn left(&self) -> u32
        requires group { IsGroup self.now }
        ensures { result ≡ calls_left (shows self.now) }
    {
        self.runners[0].1.left
    }
}
