//! Replays of schedules: run, from a text to the history that it records, or to the item at which it
//! stops. And drawn: before each turn of a machine one of its processes is chosen, by a strategy and the
//! words of a generator.
//!
//! `Pos` is partial order sampling (Yuan, Yang and Gu, "Partial order aware concurrency sampling", CAV 2018), `Pct` probabilistic
//! concurrency testing (Burckhardt, Kothari, Musuvathi and Nagarakatte, ASPLOS 2010).
#![tactic(auto)]

mod choice;
mod draw;
mod draw_fault;
mod drawn;
mod fault;
mod items;
mod play;
mod turns;

pub use draw::{Draw, Strategy};
pub use draw_fault::DrawFault;
pub use drawn::drawn_replay;
pub use fault::ReplayFault;
pub use play::replay_history;
