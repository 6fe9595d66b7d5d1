//! The engine that explains the judge's verdict on the text of a history. After a no it names a few
//! calls of the segment in the verdict, which have no order on their own. After an undecided it
//! locates where the history goes wrong, and names a few calls that show that.
//!
//! Also the engine of `locate`, which finds the event at which the history of a text goes wrong.
#![tactic(auto)]

mod explained;
mod laws;
mod location;
mod longest_fronts;
mod misses;
mod own_parts;
mod processes;
mod reports;
mod writers;

pub use explained::{explain_outcome, run_explain};
pub use laws::{no_front_is_longer, no_next_call_is_legal};
pub use location::{OrderOutcome, locate_order_outcome, locate_outcome, run_locate};
