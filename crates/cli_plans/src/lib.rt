//! The engines on plans and replays, over any source and sinks. They draw a plan from a seed,
//! record a history while a plan is done, draw a schedule for a plan, and give the history that a
//! replay records.
//!
//! Laws say that the judge never answers no to the history of a full tree, nor to what these engines
//! write of one.
#![tactic(auto)]

mod drivable;
mod drive;
mod faults;
mod generate;
mod replay;
mod schedule;
mod tree_drive;
mod verdict_laws;
mod wanted;

pub use drive::{drive_outcome, run_drive};
pub use generate::{generate_outcome, run_generate};
pub use replay::{replay_outcome, run_replay};
pub use schedule::{run_schedule, schedule_outcome};
pub use tree_drive::{run_tree_drive, tree_drive_outcome};
pub use verdict_laws::{
    drives_are_never_refuted, linearizable_texts_are_never_refuted, never_refuted,
    replays_are_never_refuted,
};
