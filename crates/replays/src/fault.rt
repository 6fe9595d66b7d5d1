// Why a replay gives no history.
use plans::{MachineFault, RunFault};

/// Why a text of a replay gives no history.
#[derive(Clone, Copy, Debug, PartialEq, Eq)]
pub enum ReplayFault {
    /// The text spells no replay, or its starting pairs are refused. The fault is not `MachineFault::Memory`.
    Replay(MachineFault),
    /// The schedule stops at this item, for a cause that is not `MachineFault::Memory`.
    Schedule(RunFault),
    /// Memory ran out.
    Memory,
}
