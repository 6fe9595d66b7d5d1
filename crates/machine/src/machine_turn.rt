// A turn of a machine.
use crate::machines::Machine;
use art_schedules::{answered_gets_have_moments, answered_scans_have_moments};
use plans::MachineFault;
use std::alloc::Global;

impl Machine {
    ghost use Rattle.std.specs.Prelude.{◌≡◌, ◌+◌, OnOk, OnErr, IfErr, IsSomeAnd};
    ghost use Rattle.art_core.specs.Core.{Plan, State, step};
    ghost use Rattle.machine.specs.Machines.{Shows, start_of, turns_left};
    ghost use Rattle.machine.specs.Refusals.{IsRefusedIn};
    ghost use Rattle.machine.specs.ReadMoments.{GetsHaveMoments, ScansHaveMoments};

    /// Makes one step of process p. A refused turn moves nothing. In every schedule of the
    /// optimistic tree that gives what the machine then shows, each scan that was answered has a
    /// moment within it at which nothing that it read changes. Each get has one for the last row
    /// that it read, which says its reply.
    pub fn turn(&mut self, alloc: Global, p: usize) -> Result<(), MachineFault>
        ensures moved { (plan : Plan) (s : State) → Shows plan self.old s
            → OnOk result (IsSomeAnd (step plan s p) (λ next. Shows plan self.new next)) }
        ensures left { OnOk result (turns_left self.new + 1 ≡ turns_left self.old) }
        ensures kept { (plan : Plan) (s : State) → Shows plan self.old s → OnErr result (Shows plan self.new s) }
        ensures same_start { start_of self.new ≡ start_of self.old }
        ensures same_left { OnErr result (turns_left self.new ≡ turns_left self.old) }
        ensures refused { (plan : Plan) (s : State) → Shows plan self.old s → IfErr result (IsRefusedIn plan s (turns_left self.old) p) }
        ensures moments { ScansHaveMoments self.new }
        ensures gets { GetsHaveMoments self.new }
    {
        answered_scans_have_moments();
        answered_gets_have_moments();
        if p >= self.runners.len() {
            return Err(MachineFault::NoProcess);
        }
        if !self.runners[p].has_work() {
            return Err(MachineFault::NothingToDo);
        }
        if self.left == 0 {
            return Err(MachineFault::TurnLimit);
        }
        let (shape, variant) = (self.shape, self.variant);
        match self.runners[p].turn(alloc, p as u8, shape, variant, &mut self.words) {
            Ok(()) => {
                self.left -= 1;
                Ok(())
            }
            Err(_) => Err(MachineFault::Memory),
        }
    }
}
