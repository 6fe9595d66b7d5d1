// Why there is no plan or no machine, and why a run stops.
use events::Memory;

/// Why there is no plan: the arguments from which one is drawn, or the text from which one is read, allow none.
#[derive(Clone, Copy, Debug, PartialEq, Eq)]
pub enum PlanFault {
    /// The shares of the kinds of calls are not a hundred together.
    BadMix,
    /// The least key is above the greatest.
    BadRange,
    /// No script, more than `PROCESSES` of them, or more than `MAX_CALLS` calls in all.
    TooMany,
    /// Memory ran out.
    Memory,
    /// The text has more bytes than a text may have.
    TooLong,
    /// The text is no JSON in UTF-8.
    NotJson,
    /// The text is JSON, but no object of a plan.
    Shape,
}

impl From<Memory> for PlanFault {
    ghost use Rattle.std.specs.Prelude.{◌≡◌};
    ghost use Rattle.plans.specs.declared.fault.PlanFault.TheVariants as faults;

    ghost from_gives = { λ _ e. e ≡ faults.Memory };

    fn from(_error: Memory) -> PlanFault {
        PlanFault::Memory
    }
}

/// Why a turn was refused, a text is no replay, or a machine is not opened.
#[derive(Clone, Copy, Debug, PartialEq, Eq)]
pub enum MachineFault {
    /// There is no such process.
    NoProcess,
    /// The process has no open call, and none left in its script.
    NothingToDo,
    /// No turn is left to the machine.
    TurnLimit,
    /// Memory ran out.
    Memory,
    /// A text is longer than texts may be.
    TooLong,
    /// A text is no JSON.
    NotJson,
    /// A text does not have the form of a replay, or passes a limit.
    Shape,
    /// A pair that a machine was to start with has no place in the tree.
    StartRefused,
}

/// The item of a schedule whose turn was refused, and why. The turns before it were made.
#[derive(Clone, Copy, Debug, PartialEq, Eq)]
pub struct RunFault {
    /// The item's place in the schedule, from 0.
    pub item: usize,
    /// Why its turn was refused.
    pub fault: MachineFault,
}
