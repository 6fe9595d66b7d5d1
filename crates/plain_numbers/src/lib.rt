//! Numbers in plain decimal, and other bytes, at the beginning of a text.
#![tactic(auto)]

mod beginning;

pub use beginning::{after, number_at, number_before};
