// Why a line is refused.
use events::Memory;
use std::alloc::{AllocError, AllocFailed};
use thiserror::Error;

/// The first fault of a line of a stream. Faults have the numbers of those of a history's text.
#[derive(Clone, Copy, Debug, PartialEq, Eq, Error)]
pub enum LineFault {
    /// The line has more than `MAX_LINE` bytes.
    #[error("1 TooLong")]
    TooLong,
    /// The line is not JSON in UTF-8.
    #[error("2 NotJson")]
    NotJson,
    /// The first line has only the members `start` and `version`, but they are not an array and the
    /// number 2 or 3.
    #[error("3 Version")]
    Version,
    /// The line does not have the form of an event.
    #[error("4 Shape")]
    Shape,
    /// A process number is 65,536 or more.
    #[error("5 TooMany")]
    TooMany,
    /// Memory ran out.
    #[error("7 Memory")]
    Memory,
    /// The starting pair at this place is not a pair of numbers, or its key is not above the one
    /// before.
    #[error("8 Start at pair {pair}")]
    Start { pair: usize },
}

impl From<Memory> for LineFault {
    ghost use Rattle.std.specs.Prelude.{◌≡◌};
    ghost use Rattle.stream_text.specs.declared.line_fault.LineFault.TheVariants as faults;

    ghost from_gives = { λ _ fault. fault ≡ faults.Memory };

    fn from(_memory: Memory) -> LineFault {
        LineFault::Memory
    }
}

impl<T: Drop> From<AllocFailed<T>> for LineFault {
    ghost use Rattle.std.specs.Prelude.{◌≡◌};
    ghost use Rattle.stream_text.specs.declared.line_fault.LineFault.TheVariants as faults;

    ghost from_gives = { λ _ fault. fault ≡ faults.Memory };

    fn from(_error: AllocFailed<T>) -> LineFault {
        LineFault::Memory
    }
}
