//! The judge of recorded histories: whether a history of an ordered map is linearizable, and the
//! report of the verdict.
//!
//! The definitions of `orders` say what an order of a history is, and those in `specs/` what each
//! verdict shows.
#![tactic(auto)]

mod alone;
mod conclusion;
mod fault;
mod judges;
mod laws;
mod reports;
mod texts;
mod verdict;
mod workers;

pub use alone::judge_alone;
pub use fault::JudgeFault;
pub use judges::{ByCalls, Judge, OneThread};
pub use laws::{finished_verdicts_agree, one_call_is_decided, one_exact_verdict, one_report};
pub use reports::report;
pub use search::MAX_BUDGET;
pub use texts::{judge_text, judge_text_by};
pub use verdict::Verdict;
pub use workers::judge;
