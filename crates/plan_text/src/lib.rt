//! The texts of plans and of replays: read, tested to the first fault, and written. A replay has a
//! shape, a variant, scripts and a schedule, and pairs to start with.
#![tactic(auto)]

mod members;
mod plan_laws;
mod read_parts;
mod read_plans;
mod read_replays;
mod read_scripts;
mod replay;
mod replay_laws;
mod schedules;
mod starting_pairs;
mod words;
mod write_parts;
mod write_plans;
mod write_replays;

pub use plan_laws::{one_plan, one_plan_fault};
pub use read_plans::read_plan;
pub use read_replays::read_replay;
pub use read_scripts::scripts_of;
pub use replay::Replay;
pub use replay_laws::{one_replay, one_replay_fault};
pub use write_plans::{are_plain_scripts, scripts_value, write_plan};
pub use write_replays::write_replay;

/// The most turns of a machine's life, and of an item of a schedule.
pub const MAX_TURNS: u32 = 1_000_000;

/// The most items of a schedule.
pub const MAX_ITEMS: usize = 100_000;
