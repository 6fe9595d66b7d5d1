//! Numbers that threads draw from one shared word: all numbers below some n, each once. A
//! [`Tickets`] is opened with a quota of draws and one [`Hand`] that has them all.
//! [`Tickets::split`] cuts a hand in two, so that each thread draws with a hand of its own and
//! waits for no other. [`Tickets::join`] puts hands together again. A thread that has the whole
//! quota again can close the tickets. Then the numbers that were drawn are those below their count,
//! each once. `specs/` says what the hands of one counter hold, and what the rule of its word is.
#![tactic(auto)]

mod hand;
mod rule;
mod tickets;

pub use hand::Hand;
pub use tickets::Tickets;

/// The most draws that tickets can be opened with. The limit leaves room for sums of counts.
pub const MAX_QUOTA: u64 = 1 << 61;
