// Why an event was not recorded, and why a recorder was not closed.
use crate::pass::Pass;
use crate::recorders::Recorder;

/// Why an event was not recorded: the first of these causes, in this order.
#[derive(Clone, Copy, Debug, PartialEq, Eq)]
pub enum RecorderFault {
    /// An invocation while the process has an open call, or a response while it has none.
    OutOfTurn,
    /// An invocation after all calls of the process, or a reply of more than `MAX_PAIRS` pairs.
    TooMany,
    /// Memory ran out for one event more.
    Memory,
}

/// Why a recorder was not closed. The recorder and the passes are returned unchanged.
#[derive(Drop)]
pub enum CloseFault {
    /// A process, or a part of the draws, is missing in the passes.
    StillOut(Recorder, Vec<Pass>),
    /// Memory ran out for the history.
    Memory(Recorder, Vec<Pass>),
}
