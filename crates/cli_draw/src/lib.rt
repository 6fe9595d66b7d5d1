//! The engine that draws: from the text of a history, over any source and sinks, to the text of a
//! picture of its verdict.
#![tactic(auto)]

mod choice;
mod drawing;
mod shown;
mod views;

pub use draw_picture::View;
pub use drawing::{draw_outcome, run_draw};
pub use views::{unasked_view, whole_view};
