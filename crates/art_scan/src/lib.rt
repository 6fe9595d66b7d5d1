//! A scan as an automaton: the walk over the rows and leaves between two keys, one atomic access at a time.
#![tactic(auto)]

mod children;
mod lists;
mod met_bytes;
mod next_keys;
mod ranges;
mod scanning;
mod steps;
mod turns;
mod walks;

pub use scanning::Scanning;
