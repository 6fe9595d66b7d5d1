//! Where a call on a tree can be, what it still has to do there, and why it is refused. Also what a call
//! depends on, which is the variant of its tree and the shape of its table, and what it reads off a
//! row.
#![tactic(auto)]

mod keys_read;
mod laws;
mod row_fields;
mod setting;
mod stage;

pub use keys_read::{count, is_full, key_among};
pub use laws::{
    calls_are_at_stages, refuses_only_at_capacity, scans_go_on, stages_ask, stages_go_on,
};
pub use row_fields::{
    child_slot, claims, count_slot, index_slot, info_slot, keys_slot, more_keys_slot, next_kind,
};
pub use setting::Setting;
pub use stage::{
    Down, Entry, Finding, Frame, Growing, HeldRow, Hold, Keys, Outcome, Pair, PairWord, Position,
    ScanStep, Spread, Stage, Taking, Target, Work,
};
