//! Plans: a script of calls within the trees' limits for each process, and why there is none or its run stops.
#![tactic(auto)]

mod fault;
mod scripts;

pub use fault::{MachineFault, PlanFault, RunFault};
pub use scripts::{Plan, has_room};
