// Why a text is not a history, or why pairs and events are not.
use crate::memory::Memory;
use std::alloc::AllocFailed;
use thiserror::Error;

/// Why a text is not a history, or why pairs and events are not: the first fault.
#[derive(Debug, Drop, Error)]
pub enum HistoryFault {
    /// The text has more than `MAX_TEXT` bytes.
    #[error("1 TooLong")]
    TooLong,
    /// The text is not JSON in UTF-8.
    #[error("2 NotJson")]
    NotJson,
    /// The text is not an object of a history. Such an object has only the members `events`, an
    /// array, and `version`, the number 1. Or it has only these and `start`, an array, and the
    /// number is 2 or 3.
    #[error("3 Version")]
    Version,
    /// The event at this place has none of the forms of events.
    #[error("4 Shape at event {event}")]
    Shape { event: usize },
    /// There is a process number of `PROCESSES` or more, a call above `MAX_CALLS`, a reply of more
    /// than `MAX_PAIRS` pairs, or a starting pair above `MAX_START`.
    #[error("5 TooMany")]
    TooMany,
    /// The event at this place comes out of turn: an invocation while its process has an open call,
    /// or a response while it has none.
    #[error("6 NotWellFormed at event {event}")]
    NotWellFormed { event: usize },
    /// Memory ran out.
    #[error("7 Memory")]
    Memory,
    /// The starting pair at this place is not a pair of numbers, or its key is not above the key
    /// before it.
    #[error("8 Start at pair {pair}")]
    Start { pair: usize },
}

impl From<Memory> for HistoryFault {
    ghost use Rattle.std.specs.Prelude.{◌≡◌};
    ghost use Rattle.events.specs.declared.fault.HistoryFault.TheVariants as faults;

    ghost from_gives = { λ _ e. e ≡ faults.Memory };

    fn from(_error: Memory) -> HistoryFault {
        HistoryFault::Memory
    }
}

impl<T: Drop> From<AllocFailed<T>> for HistoryFault {
    ghost use Rattle.std.specs.Prelude.{◌≡◌};
    ghost use Rattle.events.specs.declared.fault.HistoryFault.TheVariants as faults;

    ghost from_gives = { λ _ e. e ≡ faults.Memory };

    fn from(_error: AllocFailed<T>) -> HistoryFault {
        HistoryFault::Memory
    }
}
