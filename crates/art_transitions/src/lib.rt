//! Which stage of a call on a key follows after it has read a word.
#![tactic(auto)]

mod after;
mod found;
mod grown;
mod works;

pub use after::make_stage;
