//! Searches a segment for its least order. Wing and Gong (1993) take calls that may come next, and
//! go back if none may; the memo is Lowe's (2017).
//!
//! A search has a stack of its own and one map, on which it undoes a call when it goes back. Its
//! answer is exact: it speaks only of all orders and fronts of the segment, and not of how they
//! were found.
#![tactic(auto)]

mod found;
mod laws;
mod links;
mod longest;
mod standing;
mod undo;
mod walk;

pub use found::Found;
pub use laws::{least_order_and_count, least_order_by_fronts, one_exact_answer, one_longest_front};
pub use longest::longest_front;
pub use undo::{take_call, undo_call};
pub use walk::{Turn, Walk, search};

/// The greatest budget of a search.
pub const MAX_BUDGET: u32 = 1_000_000;
