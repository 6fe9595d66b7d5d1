//! Searches calls for an order from a map: Wing and Gong 1993, who take calls that may come next
//! and go back if none may, with the memo of Lowe 2017. The calls may be of any places, as those
//! that are left of a stream of events are. `search_choices` says which of them are tried where, and
//! why these suffice. The search says of the calls only whether they have an order, and gives one;
//! how it counts configurations is its own. `search` is the exact search of a segment, which counts
//! what its definitions say.
#![tactic(auto)]

mod found;
mod searching;
mod standing;
#[cfg(test)]
mod tests;

pub use found::SearchEnd;
pub use search_choices::{
    few_keys_go_first, reads_go_first, stuck_calls_are_dead_ends, told_calls_leave_all,
    twins_go_first, vain_calls_are_left_out,
};
pub use searching::search_calls;
