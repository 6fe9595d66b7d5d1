//! Legal lists of calls, and the orders of a history: its linearizations.
//!
//! Also segments: some calls of a history, which are judged separately, and the cuts between them.
#![tactic(auto)]

mod laws;
mod recorded;
mod segment;

pub use laws::{legal_lists_lead, plain_histories_have_plain_orders};
pub use recorded::{apply, may_come_next};
pub use segment::Segment;
