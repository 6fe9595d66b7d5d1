// Why a text has no verdict.
use events::{HistoryFault, Memory};

/// Why a text has no verdict.
#[derive(Debug, Drop)]
pub enum JudgeFault {
    /// The text spells no history. The fault in it is never `Memory`.
    History(HistoryFault),
    /// Memory ran out, in reading or in judging.
    Memory,
}

impl From<HistoryFault> for JudgeFault {
    ghost use Rattle.std.specs.Prelude.{◌≡◌};
    ghost use Rattle.judge.specs.Judged.{fault_of};

    ghost from_gives = { λ fault e. e ≡ fault_of fault };

    fn from(fault: HistoryFault) -> JudgeFault {
        match fault {
            HistoryFault::Memory => JudgeFault::Memory,
            fault => JudgeFault::History(fault),
        }
    }
}

impl From<Memory> for JudgeFault {
    ghost use Rattle.std.specs.Prelude.{◌≡◌};
    ghost use Rattle.judge.specs.declared.fault.JudgeFault.TheVariants as faults;

    ghost from_gives = { λ _ e. e ≡ faults.Memory };

    fn from(_memory: Memory) -> JudgeFault {
        JudgeFault::Memory
    }
}
