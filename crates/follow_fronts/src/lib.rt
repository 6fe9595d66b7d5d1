//! A front of a list of calls: calls in turn, from a map, each after all that precede it. It is a
//! stack, with the map after its last call, and what undoes each call.
//!
//! Calls are pushed as the map allows, and taken back (`pushing`). A front follows a guess: each
//! call that may come next is pushed, and the others are passed over (`guessing`). A call can be
//! put at the last place that allows it and the calls after it (`mending`).
#![tactic(auto)]

mod front;
mod guessing;
mod mending;
mod pushing;

pub use front::{Front, Level};
pub use guessing::{first_left, follow, is_whole, try_after, try_next};
pub use mending::mend;
pub use pushing::{go_back, pop, push_all, take_back};
