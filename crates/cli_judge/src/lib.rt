//! The engines on the text of a history, over any source and sinks: whether calls are an order of
//! it, and its verdict.
#![tactic(auto)]

mod check;
mod laws;
mod refusals;
mod verdict;

pub use check::{check_outcome, run_check};
pub use laws::faults_are_found;
pub use refusals::refused_text;
pub use verdict::{answer_of, judge_outcome, run_judge};
