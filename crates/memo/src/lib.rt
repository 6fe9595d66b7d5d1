//! Configurations of a search, and the memo that finds whether one is new: Lowe 2017. Other
//! searches use its sets of places and its digests too.
//!
//! Fronts of a list of calls, and the configurations that they lead to, are defined here too.
#![tactic(auto)]

mod base;
mod change;
mod config;
mod differences;
mod digests;
mod form;
mod memo;
mod places;
mod words;

pub use config::Config;
pub use digests::{mix, mix_value};
pub use memo::{Memo, visited_at_start};
pub use places::Places;
