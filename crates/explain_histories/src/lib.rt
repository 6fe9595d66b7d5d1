//! Calls as a history on their own: of a few processes, at the places that are left if the other
//! calls of a history are removed. Its text, and how reports next to it give the value of a key.
#![tactic(auto)]

mod histories;
mod seating;
mod seats;
mod values;

pub use histories::{small_history, small_text};
pub use values::value_or_null;
