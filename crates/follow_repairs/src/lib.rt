//! Adds the completed calls that are left to a front, until it is an order. `follow_fronts` has the
//! front itself.
//!
//! The last few calls of the front are taken back. Then an order of the calls that are left is
//! guessed by the values that they found (`chains`), or searched for (`reduced_search`). A front can
//! be repaired: a call that another one needs elsewhere is taken out, and put at another place
//! (`repairing`). While all this is in vain, more calls are taken back (`windows`).
#![tactic(auto)]

mod chains;
mod repairing;
mod windows;

pub use windows::search_tails;
