//! What is said where a stream goes wrong, or may: the part of the keys that does not go on, what
//! values they may have had and which calls put them, and what goes wrong there on its own.
#![tactic(auto)]

mod left_calls;
mod loss;
mod lost_keys;
mod named_keys;
mod own_parts;
mod puts;
mod reported;
mod writers;

pub use loss::Violation;
pub use lost_keys::{KeyViolation, Origin, key_losses, values_are_reached};
pub use own_parts::{KeyCore, key_core, own_losses, own_parts_have_no_order};
pub use puts::{Put, put_of, put_with};

#[cfg(test)]
mod tests;
