// Why no schedule is drawn.
ghost use Rattle.std.specs.Prelude.{◌≡◌};
ghost use Rattle.plans.specs.declared.fault.MachineFault.TheVariants as machines;

use events::Memory;
use plans::MachineFault;

/// Why no schedule is drawn.
#[derive(Clone, Copy, Debug, PartialEq, Eq)]
pub enum DrawFault {
    /// It has more items than a replay may have.
    TooManyItems,
    /// Memory ran out.
    Memory,
}

impl From<Memory> for DrawFault {
    ghost use Rattle.std.specs.Prelude.{◌≡◌};
    ghost use Rattle.replays.specs.declared.draw_fault.DrawFault.TheVariants as faults;

    ghost from_gives = { λ _ e. e ≡ faults.Memory };

    fn from(_error: Memory) -> DrawFault {
        DrawFault::Memory
    }
}

/// Memory ran out, if a machine has no other fault.
pub(crate) fn out_of_memory(fault: MachineFault) -> Memory
    requires { fault ≡ machines.Memory }
{
    match fault {
        MachineFault::Memory => Memory,
        _ => unreachable!(),
    }
}
