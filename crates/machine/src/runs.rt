// Runs of schedules.
ghost use Rattle.std.specs.Prelude.{◌≡◌, ◌↔◌, IsTrue, Some};

use crate::machines::Machine;
use art::Point;
use art_core::Item;
use art_schedules::{answered_gets_have_moments, answered_scans_have_moments};
use plans::{MachineFault, RunFault};
use std::alloc::Global;

impl Machine {
    ghost use Rattle.std.specs.Prelude.{slice_get, OnOk, IfErr};
    ghost use Rattle.art_core.specs.Core.{Plan, State};
    ghost use Rattle.art_core.specs.NamedTurns.{process_of_item, next_point, finished_count, WantsTurn};
    ghost use Rattle.machine.specs.Machines.{Shows, start_of, turns_left};
    ghost use Rattle.machine.specs.Running.{HasMadeAll, HasMadeItem, HasStoppedIn, HasStoppedAt};
    ghost use Rattle.machine.specs.ReadMoments.{GetsHaveMoments, ScansHaveMoments};

    /// Makes the turns that the items name, in order, up to the first that is refused. The turns
    /// before it are made, and the refused one moves nothing. In every schedule of the optimistic
    /// tree that gives what the machine then shows, each scan that was answered has a moment within
    /// it at which nothing that it read changes. Each get has one for the last row that it read,
    /// which says its reply.
    pub fn run(&mut self, alloc: Global, schedule: &[Item]) -> Result<(), RunFault>
        ensures made { (plan : Plan) (s : State) → Shows plan self.old s
            → OnOk result (HasMadeAll plan schedule.now s (turns_left self.old) self.new) }
        ensures stopped { (plan : Plan) (s : State) → Shows plan self.old s
            → IfErr result (λ e. HasStoppedAt plan schedule.now s (turns_left self.old) e.item e.fault self.new) }
        ensures same_start { start_of self.new ≡ start_of self.old }
        ensures moments { ScansHaveMoments self.new }
        ensures gets { GetsHaveMoments self.new }
    {
        answered_scans_have_moments();
        answered_gets_have_moments();
        for (place, item) in schedule.iter().enumerate() {
            if let Err(fault) = self.make(alloc, *item) {
                return Err(RunFault { item: place, fault });
            }
        }
        Ok(())
    }

    /// Makes the turns that an item names, up to the first that is refused.
    pub(crate) fn make(&mut self, alloc: Global, item: Item) -> Result<(), MachineFault>
        ensures made { (plan : Plan) (s : State) → Shows plan self.old s
            → OnOk result (HasMadeItem plan item s (turns_left self.old) self.new) }
        ensures stopped { (plan : Plan) (s : State) → Shows plan self.old s
            → IfErr result (λ fault. HasStoppedIn plan item s (turns_left self.old) fault self.new) }
        ensures same_start { start_of self.new ≡ start_of self.old }
    {
        let process = process_of(item);
        let before = self.finished_calls(process);
        let mut made = 0;
        'turns: while self.wants(item, before, made) {
            self.turn(alloc, process)?;
            made += 1;
        }
        Ok(())
    }

    /// Whether an item names one more turn after `made` turns, if its process had finished `before`
    /// calls before the first.
    fn wants(&self, item: Item, before: usize, made: u32) -> bool
        ensures { (plan : Plan) (first now : State) → Shows plan self.now now
            → before ≡ finished_count (slice_get first.processes (process_of_item item))
            → IsTrue result ↔ WantsTurn plan item first made now }
    {
        match item {
            Item::Turns { turns, .. } => made < turns,
            Item::End { process } => self.finished_calls(process) == before,
            Item::Until { process, point } => {
                self.finished_calls(process) == before && !is_at(self.point(process), point)
            }
        }
    }

    /// How many calls a process has finished.
    fn finished_calls(&self, process: usize) -> usize
        ensures { (plan : Plan) (s : State) → Shows plan self.now s → result ≡ finished_count (slice_get s.processes process) }
    {
        match self.runners.get(process) {
            Some(runner) => runner.finished,
            None => 0,
        }
    }

    /// The point that a process's next step is at.
    fn point(&self, process: usize) -> Option<Point>
        ensures { (plan : Plan) (s : State) → Shows plan self.now s → result ≡ next_point plan (slice_get s.processes process) }
    {
        match self.runners.get(process) {
            Some(runner) => runner.point(),
            None => None,
        }
    }
}

ghost use Rattle.art_core.specs.NamedTurns.{process_of_item};

/// The process that an item is about.
fn process_of(item: Item) -> usize
    ensures { result ≡ process_of_item item }
{
    match item {
        Item::Turns { process, .. } | Item::End { process } | Item::Until { process, .. } =>
            process,
    }
}

/// Whether the next step is at this point.
fn is_at(next: Option<Point>, point: Point) -> bool
    ensures { IsTrue result ↔ (next ≡ Some point) }
{
    next == Some(point)
}
