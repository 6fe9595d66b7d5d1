// The next step of a process.
use crate::machines::Machine;
use crate::runner::Runner;
use art::{Access, Doing};

/// What a process does in its next step.
#[derive(Clone, Copy)]
pub enum NextStep {
    /// It has no open call, and none left in its script; or there is no such process.
    Nothing,
    /// It draws the stamp of an invocation or of a response.
    Stamp,
    /// Its open call makes this access.
    Access(Access),
}

impl Machine {
    ghost use Rattle.std.specs.Prelude.{◌≡◌, slice_get};
    ghost use Rattle.art_core.specs.Core.{Plan, State};
    ghost use Rattle.machine.specs.Machines.{Shows};
    ghost use Rattle.machine.specs.NextSteps.{next_step_of};

    /// What a process does in its next step.
    pub fn next_step(&self, process: usize) -> NextStep
        ensures { (plan : Plan) (s : State) → Shows plan self.now s
            → result ≡ next_step_of plan process (slice_get s.processes process) }
    {
        match self.runners.get(process) {
            Some(runner) => runner.next_step(),
            None => NextStep::Nothing,
        }
    }
}

impl Runner {
    ghost use Rattle.std.specs.Prelude.{◌≡◌, ℕ, Some};
    ghost use Rattle.art_core.specs.Core.{Plan};
    ghost use Rattle.art_core.specs.declared.process.Process.{Process};
    ghost use Rattle.machine.specs.Fitting.{FitsProcess};
    ghost use Rattle.machine.specs.NextSteps.{next_step_of};

    /// What it does in its next step.
    fn next_step(&self) -> NextStep
        ensures { (plan : Plan) (p : ℕ) (q : Process) → FitsProcess plan p self.now q → result ≡ next_step_of plan p (Some q) }
    {
        match &self.doing {
            Doing::Idle => {
                if self.has_work() {
                    NextStep::Stamp
                } else {
                    NextStep::Nothing
                }
            }
            Doing::Going(task) => NextStep::Access(task.next()),
            Doing::Answered(_) => NextStep::Stamp,
        }
    }
}
