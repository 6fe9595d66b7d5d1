//! Where the values come from that a few calls report. Some of these values none of the few puts:
//! they were read from outside, and this crate finds the calls of the whole history that put them.
//! It also finds the calls of the history that one of the few misses. In the field, a read and the
//! write of its value are in the relation *reads-from*.
#![tactic(auto)]

mod external;
mod laws;
mod missing;
mod reported;
mod writing;

pub use external::external_reads;
pub use laws::{missed_calls_refute, one_is_missed_at_a_key, what_is_reported_was_put};
pub use missing::{Missed, missed_writes};
pub use writing::{holds, says_undone, writers_of};
