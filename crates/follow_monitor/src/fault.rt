// Why an event is not taken.
use events::Memory;
use std::alloc::AllocFailed;
use thiserror::Error;

/// Why an event is not taken.
#[derive(Debug, PartialEq, Eq, Drop, Error)]
pub enum FollowFault {
    /// A scan's first key is above its last.
    #[error("Shape")]
    Shape,
    /// A call begins while the process has an open one, or an answer comes while it has none.
    #[error("NotWellFormed")]
    NotWellFormed,
    /// As many events were taken as may be: 2^44 - 2.
    #[error("TooMany")]
    TooMany,
    /// Memory ran out.
    #[error("Memory")]
    Memory,
}

impl From<Memory> for FollowFault {
    ghost use Rattle.std.specs.Prelude.{◌≡◌};
    ghost use Rattle.follow_monitor.specs.declared.fault.FollowFault.TheVariants as faults;

    ghost from_gives = { λ _ e. e ≡ faults.Memory };

    fn from(_error: Memory) -> FollowFault {
        FollowFault::Memory
    }
}

impl<T: Drop> From<AllocFailed<T>> for FollowFault {
    ghost use Rattle.std.specs.Prelude.{◌≡◌};
    ghost use Rattle.follow_monitor.specs.declared.fault.FollowFault.TheVariants as faults;

    ghost from_gives = { λ _ e. e ≡ faults.Memory };

    fn from(_error: AllocFailed<T>) -> FollowFault {
        FollowFault::Memory
    }
}
