//! Workloads: plans whose calls are drawn from the words of a PCG generator, with a stream of it
//! for each process. The generator is by O'Neill, "PCG: a family of simple fast space-efficient
//! statistically good algorithms for random number generation", 2014.
#![tactic(auto)]

mod drawn;
mod drawn_plans;
mod laws;
mod mix;

pub use drawn_plans::plan;
pub use laws::{calls_follow_the_words, drawn_scripts_are_a_plan};
pub use mix::Mix;
