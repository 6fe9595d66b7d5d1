//! Segments searched side by side. Workers draw the numbers of the segments, and search those that
//! they drew. Each worker has a thread of its own, if one can be made.
#![tactic(auto)]

mod gate;
mod hands;
mod known;
mod one_call;
mod pool;
mod worker;

pub use gate::{Gate, OpenGate};
pub use pool::{search_all, search_alone};

/// The most workers of a search.
pub const MAX_WORKERS: u32 = 64;
