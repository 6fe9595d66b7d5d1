//! The outcome of a run before anything is written: an answer, or a fault as a line, and the exit
//! status. Also where a run reads its text, and where it writes its outcome.
//!
//! Also what a terminal shows next to an answer.
#![tactic(auto)]

mod average;
mod ends;
mod found;
mod hints;
mod lines;
mod outcome;
mod overlap;
mod wanted;

pub use average::average_text;
pub use ends::{run_text, text_from, write_outcome};
pub use found::found_hint;
pub use hints::{hinted_no, hinted_undecided, hinted_yes};
pub use lines::{history_fault_line, line_of};
pub use outcome::{Answer, CommandOutcome, FAILED, MEMORY, NO, REFUSED, UNDECIDED, WORDS, YES};
pub use overlap::overlap_of;
pub use wanted::{
    event_expected, expected_hint, history_expected, json_expected, length_expected,
    order_expected, pair_expected,
};
