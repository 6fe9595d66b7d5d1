//! A part of the keys: its ranges, and its pasts, the first one with a saved order. Functions say
//! what an answer makes of pasts, how parts become one, and which keys are at rest. Others say when
//! a part moves on, and to which moment, and guess where a read of several parts comes. The open
//! reads are in lists by key.
#![tactic(auto)]

mod lists;
mod moments;
mod open_reads;
mod part;
mod pasts;
mod placing;
mod ranges;
mod resting;
mod uniting;

pub use lists::{LISTS, list_of, list_of_key, lists_within};
pub use moments::{OpenRead, is_time, moment_for};
pub use open_reads::OpenReads;
pub use part::Part;
pub use pasts::{
    GoneOn, agrees, answer_pasts, any_alive, first_alive, found_of, place_for, place_of,
    was_refused,
};
pub use placing::places_with;
pub use ranges::{Range, meet, span};
pub use resting::{busy_ranges, only_pasts, pairs_within, resting_pairs};
pub use uniting::{United, unite};
