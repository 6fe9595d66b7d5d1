//! The core run by schedules: processes that make the accesses of their calls over a vector of words, one step a turn.
#![tactic(auto)]

mod machine_turn;
mod machines;
mod next_steps;
mod opening;
mod recorded;
mod runner;
mod runs;
mod starting;
mod surface;
mod table;
mod turns;

pub use machines::Machine;
pub use next_steps::NextStep;
pub use plans::{MachineFault, RunFault};
