//! Recorded histories of an ordered map: events, the calls that they make, and which precedes
//! which.
//!
//! Also words and laws of lists that several layers cite.
//!
//! Also logs of events with stamps, and the history that they make.
#![tactic(auto)]

mod event;
mod fault;
mod histories;
mod laws;
mod memory;
mod open_calls;
mod operation;
mod operations;
mod stamped;
mod starts;
mod turns;

pub use event::{Call, Event, Pairs, Reply};
pub use fault::HistoryFault;
pub use histories::History;
pub use laws::one_event_fault;
pub use memory::Memory;
pub use operation::{Operation, Response};
pub use stamped::{append_log, history_by_stamp};
pub use starts::is_above;
pub use turns::HistoryBuilder;

/// Processes are numbered from 0, each below this.
pub const PROCESSES: u8 = 64;

/// The most calls that a history has.
pub const MAX_CALLS: usize = 4096;

/// The most pairs that one reply lists.
pub const MAX_PAIRS: usize = 4096;

/// The most pairs that a history starts with.
pub const MAX_START: usize = 4096;
