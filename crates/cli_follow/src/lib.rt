//! The engine on a stream of events, over any source and sinks. It reads lines one by one, judges
//! each answer as it comes, and ends at the first line that goes wrong.
#![tactic(auto)]

mod event_lines;
mod followed;
mod line_follower;
mod progress;
mod reading;
mod refusals;
mod reports;
mod small_lines;
mod stops;

pub use line_follower::{LineFollower, follow_text};
pub use progress::ProgressDisplay;
pub use reading::{follow_outcome, run_follow};
