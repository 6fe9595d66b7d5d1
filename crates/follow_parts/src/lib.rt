//! The state of the monitor after some events: which maps the calls so far may have led to, and
//! what is left of the calls.
//!
//! The keys are in parts. The keys at rest have a value each, and nothing is left of their calls.
//! Every other part has pasts. A past says what the keys may hold at a past moment, which calls are
//! left, and what pending calls found that took effect. The first past has an order of its calls,
//! which is saved; the others wait until it has none. A call that may change the map is left from
//! its beginning, a read from its answer on. A read over keys of many parts makes these one. From
//! time to time a part moves on to a later moment, and gives back the keys that are at rest there.
#![tactic(auto)]

mod answering;
mod beginning;
mod going;
mod reading;
mod settling;
mod state;
mod table;

pub use state::{Answered, EndedPart, Parts};

#[cfg(test)]
mod tests;
