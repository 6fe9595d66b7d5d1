//! The library: calls for programs in C. They judge a history's text, and locate the event at which
//! it goes wrong. They explain or draw the verdict, or show it as a page. They follow a stream's
//! text.
//!
//! A call starts no thread and waits for nobody. Only a follower stays in memory between calls. It
//! takes the lines of a stream, or its events by their values, one after another. A call writes its
//! answer into a room that the caller gives.
#![tactic(auto)]

mod by_lines;
mod by_values;
mod calls;
mod draws;
mod follows;
mod handle;
mod kinds;
mod loose;
mod pages;
mod reports;

pub use by_lines::{
    potzendai_follow_close, potzendai_follow_event, potzendai_follow_open, potzendai_follow_verdict,
};
pub use by_values::{potzendai_follow_answer_with, potzendai_follow_invoke};
pub use calls::{potzendai_draw, potzendai_explain, potzendai_judge, potzendai_locate};
pub use draws::potzendai_draw_part;
pub use follows::potzendai_follow;
pub use handle::PotzendaiFollower;
pub use kinds::PotzendaiPair;
pub use pages::potzendai_page;
