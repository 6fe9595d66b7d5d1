//! Follows a stream of events of any length. After each event it is known whether the events so far
//! have an order. Nothing is saved of calls that later events cannot concern.
//!
//! Also laws of prefixes: a history without order loses it at one event, which is an answer.
#![tactic(auto)]

mod all_puts;
mod answered;
mod answering;
mod fault;
mod forms;
mod laws;
mod monitor;
mod open_calls;
mod prefix_laws;

pub use answered::Answered;
pub use fault::FollowFault;
pub use laws::{calls_without_overlap_are_decided, losses_are_reached, nothing_is_missed};
pub use monitor::Monitor;
pub use prefix_laws::{
    answers_have_calls, answers_have_one_call, histories_have_few_events, invocations_keep_orders,
    one_event_goes_wrong, orders_are_lost_at_answers, prefixes_are_histories, prefixes_have_orders,
};

#[cfg(test)]
mod tests;
