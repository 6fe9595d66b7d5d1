//! The checker of orders: a list of numbers is an order of a history, or shows a first fault.
//!
//! Also laws of partial answers, and of calls of caches as they are recorded: what a reader may
//! conclude from them.
#![tactic(auto)]

mod checker;
mod fault;
mod laws;
mod partial_laws;
mod prefix;

pub use checker::check;
pub use fault::OrderFault;
pub use laws::first_fault_is_unique;
pub use partial_laws::{
    answers_do_calls, evicted_keys_are_no_lost_writes, found_after_other_is_missed,
    histories_of_caches_have_recordings, lost_writes_are_refuted, orders_are_those_of_told_calls,
    partial_answers_are_legal, recorded_caches_are_lossy_maps,
};
