//! Runs what a line of the command line asks of a history or of a stream, by its engine. Plans and
//! trees have no engine here.
//!
//! Words become lines in `cli_words`. On a terminal it is shown how far a stream was followed.
#![tactic(auto)]

mod lines;
mod progress;

pub use cli_follow::ProgressDisplay;
pub use lines::run_line;
pub use progress::TerminalProgress;
