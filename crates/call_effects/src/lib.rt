//! What one call does and shows: the value that it leaves at its key, whether it may be answered so,
//! and whether it changed nothing. Also which call was answered first, and which lists of calls have
//! the same orders.
#![tactic(auto)]

mod answers;
mod groups;
mod reads;
mod values;

pub use answers::{earlier_answer, ended_after};
pub use groups::{places_do_not_matter, ranges_suffice};
pub use reads::{is_read, says_unchanged};
pub use values::{is_ended, may_be_answered, misses, value_after};
